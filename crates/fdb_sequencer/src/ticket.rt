use crate::dated::Dated;
use fdb_keys::{Items, SharedList};
use fdb_txn::Move;

/// Where the batch of a commit proxy stands in the book, and which keys go over to other resolvers.
#[derive(Drop, PartialEq, Eq)]
pub struct Ticket {
    /// The number of the proxy.
    pub proxy: u32,
    /// The number of the batch's entry, counted from 0.
    pub index: u32,
    /// The version of the entry.
    pub version: u64,
    /// The version of the entry before it.
    pub prev: u64,
    /// The horizon of the entry: its transactions that read below it are old.
    pub horizon: u64,
    /// All moves that the proxy hasn't had, each list with its entry's version, the pending ones among them
    /// under the ticket's version.
    pub moves: Items<Dated>,
    /// The moves that take effect at the ticket's version, the earliest one first, which the sequencer shares.
    pub pending: SharedList<Move>,
}
