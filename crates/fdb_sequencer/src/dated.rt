use fdb_keys::SharedList;
use fdb_txn::Move;

/// The moves that take effect at a version.
#[derive(Drop, PartialEq, Eq)]
pub struct Dated {
    /// The version, which is that of an entry.
    pub version: u64,
    /// The moves, the earliest one first. All who are told of them share them.
    pub moves: SharedList<Move>,
}
