// The form of a layer's transactions: by its work, or by bare calls.
use fdb_keys::Refusal;
use fdb_runtime::{Bytes, ClusterName, Layer, Session};
use std::alloc::Global;
use std::sync::Wait;
use std::time::Duration;

/// What a transaction puts.
#[derive(Drop)]
pub(crate) struct Given {
    /// A queue's item, or the ID of a table's record.
    pub(crate) text: Bytes,
    /// The record's value.
    pub(crate) value: u32,
}

/// How long all transactions take, and what came of them.
#[derive(Clone, Copy)]
pub(crate) struct Took {
    /// To put.
    pub(crate) putting: Duration,
    /// To get.
    pub(crate) getting: Duration,
    /// How much was got.
    pub(crate) got: usize,
}

/// How a session runs the transactions of a layer, each to its commit.
pub(crate) trait Form<L: Layer> {
    /// Pushes the item, or puts the record.
    fn put<B: ClusterName, R: Wait>(
        rt: &R,
        alloc: Global,
        session: &mut Session<B, L>,
        given: Given,
    ) -> Result<(), Refusal>;

    /// Pops an item, or finds the records of the value, and says how many were got.
    fn get<B: ClusterName, R: Wait>(
        rt: &R,
        alloc: Global,
        session: &mut Session<B, L>,
        value: u32,
    ) -> Result<usize, Refusal>;
}
