use fdb_keys::{RangeSet, SharedList};

/// What a resolver is sent of an entry: the places that it is asked about. Its copies share them: a copy takes O(1)
/// time and no memory.
#[derive(Clone, Drop)]
pub struct Part {
    /// The number of the resolver that is asked.
    pub resolver: u32,
    /// The number of the entry.
    pub index: u32,
    /// The version of the entry.
    pub version: u64,
    /// The version of the entry before it, 0 where it is the first.
    pub prev: u64,
    /// The horizon of the entry: a transaction with reads that read below it is old.
    pub horizon: u64,
    /// The places, each after those before it.
    pub items: SharedList<Item>,
}

/// What a resolver is sent of one place.
#[derive(Clone, Drop)]
pub struct Item {
    /// The number of the place in its entry.
    pub place: u32,
    /// The version that the transaction read at.
    pub read_version: u64,
    /// Whether the transaction has reads, also where none of them is the resolver's.
    pub has_reads: bool,
    /// The resolver's part of the transaction's reads.
    pub reads: RangeSet,
    /// The resolver's part of the transaction's writes.
    pub writes: RangeSet,
}
