//! The client's side of a transaction: it reads at one version, buffers its writes, reads its own writes, and notes
//! what it reads and writes.
#![tactic(auto)]

mod answered;
mod buffering;
mod conflict_set;
mod finished;
pub mod laws;
mod left;
mod own_walk;
mod own_writes;
mod plain_snapshot;
mod program;
mod range_read;
mod reading;
mod request;
mod sealing;
mod snapshot;
mod txn;
mod txn_state;

pub use answered::is_answered_on;
pub use conflict_set::ConflictSet;
pub use fdb_mutations::Page;
pub use finished::Finished;
pub use plain_snapshot::PlainSnapshot;
pub use program::{Op, Reply, Transcript};
pub use request::{has_written_nothing, is_request_of};
pub use snapshot::Snapshot;
pub use txn::Txn;
