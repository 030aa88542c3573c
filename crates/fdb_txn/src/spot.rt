/// Where a committed transaction stands among all the others.
#[derive(Clone, Copy, PartialEq, Eq)]
pub enum Spot {
    /// At a place, counted from 0, of the batch of an entry of the book.
    Entry {
        index: u32,
        place: u32,
        version: u64,
    },
    /// After all entries up to the version, as a transaction that wrote nothing stands.
    ReadOnly {
        version: u64,
    },
}
