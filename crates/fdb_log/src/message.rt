use fdb_keys::{Items, SharedList};
use fdb_mutations::Mutation;

/// What a log is sent of an entry: the mutations of its committed transactions that have a tag of the log.
#[derive(Drop)]
pub struct LogMsg {
    /// The number of the log.
    pub log: u32,
    /// The number of the entry.
    pub index: u32,
    /// The version of the entry.
    pub version: u64,
    /// The version of the entry before it, 0 where it is the first.
    pub prev: u64,
    /// The mutations: by place, and then in the transaction's order.
    pub body: SharedList<Tagged>,
}

/// A mutation with its tags.
#[derive(Drop)]
pub struct Tagged {
    /// The number of its transaction's place.
    pub place: u32,
    /// The mutation.
    pub mutation: Mutation,
    /// The number of each shard that holds some of what the mutation names.
    pub tags: Items<u32>,
}

/// What a log answers once it has taken its message of an entry.
#[derive(Clone, Copy)]
pub struct LogAck {
    /// The number of the log.
    pub log: u32,
    /// The number of the entry.
    pub index: u32,
}
