ghost use Rattle.std.specs.Prelude.{◌≡◌};
ghost use Rattle.fdb_client.specs.Programs.{is_ordinary_read};

use bytes::Bytes;
use fdb_keys::{Items, Key, KeyRange};
use fdb_mutations::Mutation;
use fdb_txn::TxnId;
use std::alloc::AllocError;

/// An operation of a transaction.
#[derive(Drop, PartialEq, Eq)]
pub enum Op {
    /// Reads the value of a key. A snapshot read adds nothing to the read set.
    Get {
        key: Key,
        snapshot: bool,
    },
    /// Reads the first pairs of a range, or the last ones from its end: at most `limit` of them, or all where it is 0.
    /// A snapshot read adds nothing to the read set.
    Range {
        range: KeyRange,
        limit: u32,
        reverse: bool,
        snapshot: bool,
    },
    /// Buffers a mutation, which adds what it names to the write set.
    Write(Mutation),
    /// Adds a range to the read set, whole.
    AddRead(KeyRange),
    /// Adds a range to the write set, whole.
    AddWrite(KeyRange),
}

// Written out, since a derived one copies each field by a call that may lack memory, and holds the fields before it.
impl Clone for Op {
    ghost is_clone = { λ op copy. copy ≡ op };

    fn clone(&self) -> Result<Self, AllocError> {
        match self {
            Op::Get { key, snapshot } => {
                let key = key.clone()?;
                Ok(Op::Get {
                    key,
                    snapshot: *snapshot,
                })
            }
            Op::Range {
                range,
                limit,
                reverse,
                snapshot,
            } => {
                let range = range.clone()?;
                Ok(Op::Range {
                    range,
                    limit: *limit,
                    reverse: *reverse,
                    snapshot: *snapshot,
                })
            }
            Op::Write(mutation) => {
                let mutation = mutation.clone()?;
                Ok(Op::Write(mutation))
            }
            Op::AddRead(range) => {
                let range = range.clone()?;
                Ok(Op::AddRead(range))
            }
            Op::AddWrite(range) => {
                let range = range.clone()?;
                Ok(Op::AddWrite(range))
            }
        }
    }
}

// Whether it is a read that isn't a snapshot read. The reply to any other ordinary operation hangs on no map, and what
// any other one adds to the read set hangs on no earlier operation.
pub(crate) fn is_ordinary_read(op: &Op) -> bool
    ensures { result ≡ is_ordinary_read op.now }
{
    match op {
        Op::Get { snapshot, .. } | Op::Range { snapshot, .. } => !*snapshot,
        Op::Write(_) | Op::AddRead(_) | Op::AddWrite(_) => false,
    }
}

/// What an operation was answered.
#[derive(Clone, Drop, PartialEq, Eq)]
pub enum Reply {
    /// The value that a key has, if any.
    Value(Option<Bytes>),
    /// The pairs of a range, in the order in which they were read.
    Pairs(Items<(Key, Bytes)>),
    /// The operation gives nothing.
    Done,
}

/// A transaction's operations so far with their replies, the first one first.
#[derive(Clone, Drop, PartialEq, Eq)]
pub struct Transcript {
    /// The id of the transaction.
    pub id: TxnId,
    /// The version that its reads are answered at.
    pub read_version: u64,
    /// The operations with their replies.
    pub ops: Items<(Op, Reply)>,
}
