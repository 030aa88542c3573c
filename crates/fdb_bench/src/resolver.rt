// One resolver that takes parts.
ghost use Rattle.std.specs.Prelude.{◌≡◌, true, IfOk};
ghost use Rattle.fdb_resolver.specs.Parts.{IsPart};
ghost use Rattle.fdb_bench.specs.Items.{AreItemsBelow};

use crate::numbers::{Fault, one_range, shared};
use fdb_keys::{Items, RangeSet, Refusal};
use fdb_resolver::{Item, Part, ResolverCore};
use fdb_txn::WINDOW;
use rand_pcg::Pcg32;
use std::alloc::Global;
use std::time::{Clock, Duration, Instant};

/// How many items a part has.
pub(crate) const BATCH: u32 = 100;

// How far each entry's version is above that of the one before it: 500,000 items lie in the window.
const ADVANCE: u64 = 1_000;

// How far below its entry's version a transaction reads.
const BEHIND: u64 = 5_000;

/// How long a new resolver takes for parts with so many items in all, each with one read range and one write range. So
/// many percent of the items, none for 0, read what the item before wrote, and conflict. The parts are made outside of
/// that time.
pub(crate) fn measure<R: Clock>(
    rt: &R,
    alloc: Global,
    items: u32,
    percent: u32,
) -> Result<Duration, Fault> {
    let mut core = ResolverCore::new(alloc, 0);
    let mut random = Pcg32::new(1, 1);
    let mut took = Duration::ZERO;
    let every = if percent == 0 { 0 } else { 100 / percent };
    for index in 0..items / BATCH {
        let part = part_of(alloc, &mut random, index, every)?;
        took = took.saturating_add(take(rt, &mut core, &part)?);
    }
    Ok(took)
}

// How long the resolver takes for the part.
fn take<R: Clock>(rt: &R, core: &mut ResolverCore, part: &Part) -> Result<Duration, Fault>
    requires { IsPart part.now }
{
    let begin = Instant::now(rt)?;
    let _verdicts = core.take(part)?;
    let took = begin.elapsed(rt)?;
    Ok(took)
}

// The part of an entry.
fn part_of(alloc: Global, random: &mut Pcg32, index: u32, every: u32) -> Result<Part, Refusal>
    ensures { IfOk result IsPart }
{
    let prev = u64::from(index) * ADVANCE;
    let version = prev + ADVANCE;
    let items = shared(
        alloc,
        items_of(alloc, random, version.saturating_sub(BEHIND), every)?,
    )?;
    Ok(Part {
        resolver: 0,
        index,
        version,
        prev,
        horizon: version.saturating_sub(WINDOW),
        items,
    })
}

// The items of the first 100 places. The last one of every so many, none for 0, reads what the one before it wrote.
fn items_of(
    alloc: Global,
    random: &mut Pcg32,
    read_version: u64,
    every: u32,
) -> Result<Items<Item>, Refusal>
    ensures { IfOk result (AreItemsBelow 100) }
{
    let mut items = Items::new(alloc);
    let mut written = RangeSet::new(alloc);
    for place in 0..BATCH {
        let conflicts = every > 0 && place % every == every - 1;
        let reads = reads_of(alloc, random, &written, conflicts)?;
        let writes = one_range(alloc, random)?;
        written = writes.clone()?;
        items.push(item_of(place, read_version, reads, writes))?;
    }
    Ok(items)
}

// What an item reads: what was written before it, if it is to conflict.
fn reads_of(
    alloc: Global,
    random: &mut Pcg32,
    written: &RangeSet,
    conflicts: bool,
) -> Result<RangeSet, Refusal> {
    if conflicts {
        let reads = written.clone()?;
        return Ok(reads);
    }
    one_range(alloc, random)
}

// The item of a place.
fn item_of(place: u32, read_version: u64, reads: RangeSet, writes: RangeSet) -> Item
    ensures { (result.place ≡ place) × (result.has_reads ≡ true) }
{
    Item {
        place,
        read_version,
        has_reads: true,
        reads,
        writes,
    }
}
