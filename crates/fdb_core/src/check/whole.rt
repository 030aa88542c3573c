// The comparison of a world's acknowledged transcripts and shards with the run of one transaction at a time.
ghost use Rattle.std.specs.Prelude.{◌≡◌, ◌≤◌, suc, length, IfOk};
ghost use Rattle.fdb_txn.specs.book.History.{AreEntries};
ghost use Rattle.fdb_txn.specs.Limits.{shard_limit};
ghost use Rattle.fdb_core.specs.check.Checking.{Finds};

use crate::check::shards::check_shards;
use crate::cluster::Cluster;
use fdb_check::{CheckFault, JudgedBook};

/// Compares every acknowledged transcript with the run of one transaction at a time, and each shard that hasn't failed
/// at its version. Answers the number of acknowledged transactions. A fault is found just where
/// something differs, for each book whose entries follow on one another from version 0 on, whose moves go to resolvers
/// that exist, and whose transactions read below the versions of their entries and have in their write sets what their
/// mutations name. Keys that are no splits among at most 64 resolvers, as no world's configuration has them, are
/// answered as out of memory.
pub(crate) fn check_all(cluster: &Cluster) -> Result<u64, CheckFault>
    requires { length cluster.now.shards.items ≤ shard_limit }
    ensures count { IfOk result (λ count. count ≡ length cluster.now.acknowledged.items) }
    ensures finds { AreEntries (suc (length cluster.now.config.resolver_splits)) 0 cluster.now.book.items
        → Finds result cluster.now.config.resolver_splits cluster.now.book.items
        cluster.now.acknowledged.items cluster.now.shards.items }
{
    let splits = cluster.config.resolver_splits.as_slice();
    let judged = match JudgedBook::new(cluster.alloc, splits, &cluster.book) {
        Ok(judged) => judged,
        Err(_) => return Err(CheckFault::NoMemory),
    };
    let count = judged.check(cluster.alloc, &cluster.acknowledged)?;
    check_shards(cluster.alloc, &judged, &cluster.shards)?;
    Ok(count)
}
