// The shards beside the serial map.
ghost use Rattle.std.specs.Prelude.{◌≡◌, ◌<◌, ◌≤◌, ◌+◌, ◌↔◌, ◌⊎◌, suc, List, length, IsTrue, IfOk, MatchResult};
ghost use Rattle.fdb_txn.specs.Limits.{shard_limit};
ghost use Rattle.fdb_core.specs.check.Holding.{HoldsTheRun, HasTheMap, HasTheMapThere, StopsByShard};
ghost use Rattle.fdb_check.specs.Versions.{is_below};
ghost use Rattle.fdb_core.specs.check.Holding.{ChecksShards};
ghost use Rattle.fdb_keys.specs.Points.{Point};
ghost use Rattle.fdb_txn.specs.book.History.{AreEntries};
ghost use Rattle.fdb_core.specs.check.Checking.{HaveHeld};
ghost use Rattle.fdb_check.specs.Running.{run_of};

use crate::book::last_version;
use crate::roles::shard::ShardRole;
use fdb_check::{CheckFault, JudgedBook, SerialRun};
use fdb_keys::Refusal;
use fdb_mutations::PlainMap;
use fdb_txn::Entry;
use std::alloc::Global;

// Whether the shard has at its version the map's values in its range. Refused only where memory runs out, or where the
// shard has failed.
fn has_map(alloc: Global, role: &ShardRole, map: &PlainMap) -> Result<bool, Refusal>
    ensures { IfOk result (λ held. IsTrue held ↔ HasTheMap map.now role.now.state) }
{
    let range = role.state.range();
    let mut held = PlainMap::new(alloc);
    role.state
        .copy_into(&mut held, range, role.state.version())?;
    let pairs = held.range(range, 0, false)?;
    Ok(pairs == map.range(range, 0, false)?)
}

// Whether the version is below the end, where there is one.
fn is_below(version: u64, end: Option<u64>) -> bool
    ensures { result ≡ is_below version end }
{
    match end {
        None => true,
        Some(end) => version < end,
    }
}

// Compares the shard with the map, if it hasn't failed and its version is from one on up to another.
fn compare_shard(
    alloc: Global,
    map: &PlainMap,
    number: u32,
    role: &ShardRole,
    from: u64,
    until: Option<u64>,
) -> Result<(), CheckFault>
    ensures { MatchResult result (λ _. HasTheMapThere from until map.now role.now)
        (λ fault. (fault ≡ CheckFault.NoMemory)
        ⊎ ((fault ≡ CheckFault.Shard number) × ¬ (HasTheMapThere from until map.now role.now))) }
{
    let version = role.state.version();
    if role.state.is_failed() || version < from || !is_below(version, until) {
        return Ok(());
    }
    match has_map(alloc, role, map) {
        Ok(true) => Ok(()),
        Ok(false) => Err(CheckFault::Shard(number)),
        Err(_) => Err(CheckFault::NoMemory),
    }
}

// Compares the shards whose version is from one on up to another, if there is one, with the serial map there.
fn compare_shards(
    alloc: Global,
    map: &PlainMap,
    shards: &[ShardRole],
    from: u64,
    until: Option<u64>,
) -> Result<(), CheckFault>
    requires { length shards.now ≤ shard_limit }
    ensures { ChecksShards result (HasTheMapThere from until map.now) shards.now }
{
    for (number, role) in shards.iter().enumerate() {
        compare_shard(alloc, map, number as u32, role, from, until)?;
    }
    Ok(())
}

// Compares the shards that are between the entry and the one before it with the run, and goes on through the entry.
fn run_next<'a>(
    alloc: Global,
    run: SerialRun<'a>,
    shards: &[ShardRole],
    book: &[Entry],
    index: usize,
) -> Result<SerialRun<'a>, CheckFault>
    requires within { index < length book.now }
    requires few { length shards.now ≤ shard_limit }
    ensures { (splits : List Point) → AreEntries (suc (length splits)) 0 book.now
        → run.entry ≡ run_of splits book.now index → HaveHeld splits book.now shards.now index
        → MatchResult result
        (λ after. (after ≡ run_of splits book.now (index + 1)) × HaveHeld splits book.now shards.now (index + 1))
        (StopsByShard (HoldsTheRun splits book.now) shards.now) }
{
    let entry = &book[index];
    let from = last_version(book, index);
    compare_shards(alloc, run.map(), shards, from, Some(entry.version))?;
    run.next_entry()
}

// Goes through all entries.
fn run_all<'a>(
    alloc: Global,
    first: SerialRun<'a>,
    shards: &[ShardRole],
    book: &[Entry],
) -> Result<SerialRun<'a>, CheckFault>
    requires { length shards.now ≤ shard_limit }
    ensures { (splits : List Point) → AreEntries (suc (length splits)) 0 book.now
        → first.entry ≡ run_of splits book.now 0
        → MatchResult result
        (λ run. (run ≡ run_of splits book.now (length book.now))
        × HaveHeld splits book.now shards.now (length book.now))
        (StopsByShard (HoldsTheRun splits book.now) shards.now) }
{
    let mut run = first;
    for index in 0..book.len() {
        run = run_next(alloc, run, shards, book, index)?;
    }
    Ok(run)
}

/// Compares each shard that hasn't failed at its version with the run of the book.
pub(crate) fn check_shards(
    alloc: Global,
    judged: &JudgedBook,
    shards: &[ShardRole],
) -> Result<(), CheckFault>
    requires { length shards.now ≤ shard_limit }
    ensures { ChecksShards result (HoldsTheRun judged.now.splits judged.now.book) shards.now }
{
    if shards.is_empty() {
        return Ok(());
    }
    let book = judged.book();
    let run = run_all(alloc, SerialRun::new(alloc, judged), shards, book)?;
    let from = last_version(book, book.len());
    compare_shards(alloc, run.map(), shards, from, None)
}
