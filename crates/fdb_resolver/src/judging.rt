// The rule, place by place, over the versions of the points.
ghost use Rattle.std.specs.Prelude.{◌≡◌, ◌≤◌, ◌↔◌, ◌&&◌, nat_lt, IsTrue, None, IfOk, OnOk, if◌then◌else◌};
ghost use Rattle.std.specs.Slice.Iter.{iter_rest};
ghost use Rattle.fdb_keys.specs.Answers.{Answers};
ghost use Rattle.fdb_keys.specs.Points.{Point};
ghost use Rattle.fdb_keys.specs.Ranges.{in_set};
ghost use Rattle.fdb_interval.specs.Versions.{version_at};
ghost use Rattle.fdb_resolver.specs.Rule.{HasNewer, IsVerdict, AreVerdicts, versions_with, versions_after};
ghost use Rattle.fdb_resolver.specs.Rule.{AreConflicts, IsFoundWith};

use crate::part::Item;
use crate::verdict::Verdict;
use fdb_interval::LastCommit;
use fdb_keys::{Items, RangeSet, Refusal};
use std::alloc::Global;

fn are_any_newer(versions: &LastCommit, reads: &RangeSet, version: u64) -> bool
    ensures { IsTrue result ↔ HasNewer (version_at versions.now) reads.now version }
{
    for range in reads.iter() {
        if versions.newer_than(range, version) {
            return true;
        }
    }
    false
}

fn judge(versions: &LastCommit, horizon: u64, item: &Item) -> Verdict
    ensures { IsVerdict horizon (version_at versions.now) item.now result }
{
    if item.has_reads && item.read_version < horizon {
        Verdict::Old
    } else if are_any_newer(versions, &item.reads, item.read_version) {
        Verdict::Conflict
    } else {
        Verdict::Yes
    }
}

// The points of the set that have a version above this one.
fn newer_of(
    alloc: Global,
    versions: &LastCommit,
    reads: &RangeSet,
    version: u64,
) -> Result<RangeSet, Refusal>
    ensures { Answers result None
        (λ set. (x : Point) → in_set set x ≡ (in_set reads.now x && nat_lt version (version_at versions.now x))) }
{
    let mut newer = RangeSet::new(alloc);
    for range in reads.iter() {
        newer.add_set(&versions.newer_in(range, version)?)?;
    }
    Ok(newer)
}

// Notes the newer points of a place in conflict, and of no other one any.
fn note(
    alloc: Global,
    versions: &LastCommit,
    item: &Item,
    verdict: Verdict,
    conflicts: &mut Items<(u32, RangeSet)>,
) -> Result<(), Refusal>
    ensures { Answers result None
        (λ _. IsFoundWith (version_at versions.now) item.now verdict conflicts.old conflicts.new) }
{
    if verdict != Verdict::Conflict {
        return Ok(());
    }
    let mut newer = newer_of(alloc, versions, &item.reads, item.read_version)?;
    newer.share();
    conflicts.push((item.place, newer))?;
    Ok(())
}

fn mark_all(versions: &mut LastCommit, writes: &RangeSet, version: u64) -> Result<(), Refusal>
    requires { (x : Point) → version_at versions.old x ≤ version }
    ensures { Answers result None
        (λ _. (x : Point)
        → version_at versions.new x ≡ (if in_set writes.now x then version else version_at versions.old x)) }
{
    for range in writes.iter() {
        versions.mark(range, version)?;
    }
    Ok(())
}

// Judges one place, and marks what it writes if it may commit.
fn judge_item(
    versions: &mut LastCommit,
    version: u64,
    horizon: u64,
    item: &Item,
) -> Result<Verdict, Refusal>
    requires { (x : Point) → version_at versions.old x ≤ version }
    ensures verdict { Answers result None (λ verdict. IsVerdict horizon (version_at versions.old) item.now verdict) }
    ensures versions { IfOk result
        (λ verdict. (x : Point)
        → version_at versions.new x ≡ versions_with version item.now verdict (version_at versions.old) x) }
{
    let verdict = judge(versions, horizon, item);
    if verdict == Verdict::Yes {
        mark_all(versions, &item.writes, version)?;
    }
    Ok(verdict)
}

/// Judges the places of an entry with this version and horizon one after another. Answers the verdicts, and the newer
/// points of those in conflict.
pub(crate) fn judge_items(
    alloc: Global,
    versions: &mut LastCommit,
    version: u64,
    horizon: u64,
    items: &[Item],
) -> Result<(Items<(u32, Verdict)>, Items<(u32, RangeSet)>), Refusal>
    requires { (x : Point) → version_at versions.old x ≤ version }
    ensures verdicts { Answers result None (λ given. AreVerdicts version horizon (version_at versions.old)
        items.now given.0) }
    ensures conflicts { IfOk result
        (λ given. AreConflicts version (version_at versions.old) items.now given.0 given.1) }
    ensures versions { IfOk result
        (λ given. (x : Point)
        → version_at versions.new x ≡ versions_after version (version_at versions.old) items.now given.0 x) }
    ensures below { OnOk result ((x : Point) → version_at versions.new x ≤ version) }
{
    let mut answers = Items::new(alloc);
    let mut conflicts = Items::new(alloc);
    for item in items {
        let verdict = judge_item(versions, version, horizon, item)?;
        note(alloc, versions, item, verdict, &mut conflicts)?;
        answers.push((item.place, verdict))?;
    }
    Ok((answers, conflicts))
}
