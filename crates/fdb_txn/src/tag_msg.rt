use fdb_keys::SharedList;
use fdb_mutations::Mutation;

/// What is kept of an entry for one tag: the mutations of its committed transactions that have the tag.
#[derive(Drop)]
pub struct TagMsg {
    /// The version of the entry.
    pub version: u64,
    /// The version of the entry before it, 0 where it is the first.
    pub prev: u64,
    /// The mutations, each with the number of its transaction's place: by place, and then in the transaction's order.
    pub body: SharedList<(u32, Mutation)>,
}
