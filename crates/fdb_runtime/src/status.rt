//! What a running database tells of itself.
ghost use Rattle.std.specs.Prelude.{◌≡◌, ◌≤◌, ◌-◌, length, IfOk};
ghost use Rattle.fdb_runtime.specs.Statuses.{IsOfFront};
ghost use Rattle.fdb_txn.specs.book.Book.{last_version};

use crate::shared::Shared;
use fdb_keys::Refusal;
use fdb_sections::{DatabaseName, GrantMessage, both};
use std::sync::Wait;

/// How far a shard has come.
#[derive(Clone, Copy, Debug, PartialEq, Eq)]
pub struct ShardStatus {
    /// The version that it has applied.
    pub version: u64,
    /// Why it goes on no more, if that is so: a role failed, or the database closes.
    pub ended: Option<Refusal>,
}

/// What a running database tells of itself. Its roles go on meanwhile, so no two parts of it are of one moment.
#[derive(Debug, Drop)]
pub struct Status {
    /// The greatest version that was reported as committed.
    pub committed: u64,
    /// How many entries the book has room for yet.
    pub entries_left: u32,
    /// For each log whether it has failed, in the order of their numbers.
    pub failed_logs: Vec<bool>,
    /// How far each shard has come, in the order of their ranges.
    pub shards: Vec<ShardStatus>,
}

// How many of so many entries there is room for yet, behind so many.
fn left_of(limit: u32, count: usize) -> u32
    ensures { result ≡ limit - count }
{
    if count < limit as usize {
        limit - count as u32
    } else {
        0
    }
}

// The committed version, and how many entries the book has room for yet.
fn progress_of<B: DatabaseName>(limit: u32, granted: GrantMessage<B>) -> (u64, u32)
    requires { limit ≡ B.config.book }
    ensures { IsOfFront B.config result.0 result.1 }
{
    let committed = granted.committed();
    let front = granted.into_front();
    let left = left_of(limit, front.front().len());
    (committed, left)
}

// For each log whether it has failed. Refused only as `NoMemory`.
fn failed_logs<B: DatabaseName, R: Wait>(rt: &R, shared: &Shared<B>) -> Result<Vec<bool>, Refusal> {
    let mut failed = Vec::with_capacity(shared.alloc, shared.logs().len())?;
    for log in shared.logs() {
        failed.push(log.is_failed(rt))?;
    }
    Ok(failed)
}

// How far each shard has come. Refused only as `NoMemory`.
fn shards_of<B: DatabaseName, R: Wait>(
    rt: &R,
    shared: &Shared<B>,
) -> Result<Vec<ShardStatus>, Refusal> {
    let mut shards = Vec::with_capacity(shared.alloc, shared.shards().len())?;
    for shard in shared.shards() {
        let held = shard.lock(rt);
        let status = ShardStatus {
            version: held.version(),
            ended: held.ended,
        };
        drop(held);
        shards.push(status)?;
    }
    Ok(shards)
}

/// What the database tells of itself. It takes one lock after another, and holds each in O(1) time. Refused only as
/// `NoMemory`.
pub(crate) fn status_of<B: DatabaseName, R: Wait>(
    rt: &R,
    shared: &Shared<B>,
) -> Result<Status, Refusal>
    ensures { IfOk result (λ status. IsOfFront B.config status.committed status.entries_left) }
{
    let (failed_logs, shards) = both(failed_logs(rt, shared), shards_of(rt, shared))?;
    let (committed, entries_left) = progress_of(shared.limit(), shared.granted(rt)?);
    Ok(Status {
        committed,
        entries_left,
        failed_logs,
        shards,
    })
}
