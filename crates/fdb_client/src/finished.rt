use crate::program::Transcript;
use fdb_txn::Sealed;

/// What is left to do of a transaction, with its operations and their replies.
#[derive(Drop)]
pub enum Finished {
    /// Nothing: it wrote nothing, and stands at its read version.
    ReadOnly(Transcript),
    /// It is to be committed.
    ToCommit(Sealed, Transcript),
}
