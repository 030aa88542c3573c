/// Where the batch of a commit proxy stands in the book.
#[derive(Clone, Copy, PartialEq, Eq)]
pub struct Position {
    /// The number of the batch's entry, counted from 0.
    pub index: u32,
    /// The version of the entry.
    pub version: u64,
    /// The version of the entry before it, 0 where it is the first.
    pub prev: u64,
    /// The horizon of the entry: its transactions that read below it are old.
    pub horizon: u64,
}
