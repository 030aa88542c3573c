// Whether a run was right: what clients were told, the record's entries and its pairs agree.
ghost use Rattle.std.specs.Prelude.{◌≡◌, ◌<◌, ◌↔◌, ◌+◌, suc, true, length, None, All, IsTrue, IfOk, IfSome, IfErr};
ghost use Rattle.std.specs.List.{AllByRecursion};
ghost use Rattle.fdb_keys.specs.declared.refusal.Refusal.TheVariants.{NoMemory};
ghost use Rattle.fdb_txn.specs.book.History.{IsBook};
ghost use Rattle.fdb_proxy.specs.Configs.{config_fault};
ghost use Rattle.fdb_roles.specs.Spots.{IsSerialized};
ghost use Rattle.fdb_load.specs.Judging.{IsSerial, IsCommittedBy, IsRunOf, ArePlacesOf, ArePairsOf};

use crate::played::Played;
use crate::report::Report;
use crate::run::{Place, are_pairs_of, place_of, push_receipts, push_spot, rising};
use crate::workload::Workload;
use bytes::Bytes;
use fdb_check::{CheckFault, serial_check};
use fdb_keys::{Key, Refusal};
use fdb_roles::Placed;
use fdb_runtime::{Config, Spot, Transcript};
use fdb_txn::Entry;
use std::alloc::Global;

/// What was asked of a run, and where its first transaction stands, which set the keys up.
#[derive(Clone, Copy)]
pub struct Asked {
    /// How many transactions were to be tried.
    pub txns: u64,
    /// What each of them did.
    pub workload: Workload,
    /// Where the first transaction stands.
    pub first: Spot,
}

/// The record of a closed database, beside the configuration that it was started with.
#[derive(Clone, Copy)]
pub struct Kept<'a> {
    /// The configuration.
    pub config: &'a Config,
    /// The entries of the record's book.
    pub entries: &'a [Entry],
    /// The version at which the record has its pairs. The book may have entries above it.
    pub committed: u64,
    /// The record's pairs.
    pub pairs: &'a [(Key, Bytes)],
}

/// Whether so many tries that were acknowledged, that had no effect and of which nothing is known are all of them. It
/// takes O(1) time.
pub fn is_all(acknowledged: u64, aborted: u64, unknown: u64, txns: u64) -> bool
    ensures { IsTrue result ↔ (acknowledged + aborted + unknown ≡ txns) }
{
    match acknowledged.checked_add(aborted) {
        Some(known) => known.checked_add(unknown) == Some(txns),
        None => false,
    }
}

// Whether a try was acknowledged if there were any, and none was turned down if none of them read anything.
fn is_taken_up(asked: &Asked, acknowledged: u64, aborted: u64) -> bool
    ensures { IsTrue result ↔ ((0 < asked.now.txns → 0 < acknowledged)
        × (asked.now.workload ≡ Workload.Counters → aborted ≡ 0)) }
{
    let is_heard = asked.txns == 0 || acknowledged > 0;
    let may_abort = asked.workload != Workload::Counters;
    is_heard && (may_abort || aborted == 0)
}

/// What came of the run. `ok` says that all of this holds:
///
/// - each try was told of, and where there were any, one was acknowledged;
/// - no try had no effect where the workload is counters, which read nothing;
/// - each receipt's transaction is serialized where it says among the record's entries, and no two are one;
/// - the record's pairs are those of the committed transactions, run one at a time: of those with a receipt, of those
///   of unknown result that are serialized at the place that has their id, in an entry up to the record's version, and
///   of the first one;
/// - the pairs are such as these transactions of the workload leave.
///
/// Refused only as `NoMemory`. It takes O(n log n) time for n transactions of bounded size, and O(n) for each of
/// unknown result.
pub fn judge(
    alloc: Global,
    asked: &Asked,
    played: &Played,
    kept: &Kept<'_>,
) -> Result<Report, Refusal>
    requires legal { config_fault kept.now.config.now ≡ None }
    requires book { IsBook (suc (length kept.now.config.now.resolver_splits)) kept.now.entries.now }
    ensures serial { IfOk result (λ report. report.ok ≡ true
        → IsSerial kept.now.config.now.resolver_splits kept.now.entries.now played.now.placed.items asked.now.txns
        report) }
    ensures pairs { IfOk result (λ report. report.ok ≡ true → ArePairsOf kept.now.config.now.resolver_splits
        kept.now.entries.now kept.now.committed asked.now played.now.placed.items kept.now.pairs.now) }
    ensures acknowledged { IfOk result (λ report. report.acknowledged ≡ length played.now.placed.items) }
    ensures aborted { IfOk result (λ report. report.aborted ≡ played.now.aborted) }
    ensures unknown { IfOk result (λ report. report.unknown ≡ length played.now.doubtful.items) }
    ensures entries { IfOk result (λ report. report.entries ≡ length kept.now.entries.now) }
    ensures workload { IfOk result (λ report. report.workload ≡ asked.now.workload) }
    ensures err { IfErr result (λ why. why ≡ NoMemory) }
{
    let checked = count_serialized(alloc, kept, played.placed.as_slice())?;
    let are_pairs = are_pairs(alloc, asked, played, kept)?;
    let acknowledged = played.placed.len() as u64;
    let unknown = played.doubtful.len() as u64;
    let ok = is_all(acknowledged, played.aborted, unknown, asked.txns)
        && is_taken_up(asked, acknowledged, played.aborted)
        && checked == Some(acknowledged)
        && are_pairs;
    Ok(Report {
        aborted: played.aborted,
        acknowledged,
        checked: checked.unwrap_or(0),
        entries: kept.entries.len() as u64,
        ok,
        unknown,
        workload: asked.workload,
    })
}

// How many transcripts are serialized where they stand, if all are.
fn count_serialized(
    alloc: Global,
    kept: &Kept<'_>,
    placed: &[Placed],
) -> Result<Option<u64>, Refusal>
    requires legal { config_fault kept.now.config.now ≡ None }
    requires book { IsBook (suc (length kept.now.config.now.resolver_splits)) kept.now.entries.now }
    ensures serial { IfOk result (λ counted. IfSome counted (λ count. (count ≡ length placed.now)
        × AllByRecursion (IsSerialized kept.now.config.now.resolver_splits kept.now.entries.now) placed.now)) }
    ensures err { IfErr result (λ why. why ≡ NoMemory) }
{
    match serial_check(alloc, kept.config, kept.entries, placed) {
        Ok(count) => Ok(Some(count)),
        Err(CheckFault::NoMemory) => Err(Refusal::NoMemory),
        Err(_fault) => Ok(None),
    }
}

// Whether the pairs are those that the run leaves, and such as the workload leaves.
fn are_pairs(
    alloc: Global,
    asked: &Asked,
    played: &Played,
    kept: &Kept<'_>,
) -> Result<bool, Refusal>
    requires legal { config_fault kept.now.config.now ≡ None }
    requires book { IsBook (suc (length kept.now.config.now.resolver_splits)) kept.now.entries.now }
    ensures pairs { IfOk result (λ are. are ≡ true → ArePairsOf kept.now.config.now.resolver_splits
        kept.now.entries.now kept.now.committed asked.now played.now.placed.items kept.now.pairs.now) }
    ensures err { IfErr result (λ why. why ≡ NoMemory) }
{
    let places = run_places(alloc, asked.first, played, kept)?;
    is_run(alloc, asked.workload, kept, places.as_slice())
}

// Whether each place is there once, in the order of the book, and their run leaves the pairs, as the workload does.
fn is_run(
    alloc: Global,
    workload: Workload,
    kept: &Kept<'_>,
    places: &[Place],
) -> Result<bool, Refusal>
    ensures run { IfOk result
        (λ is. is ≡ true → IsRunOf kept.now.entries.now workload kept.now.pairs.now places.now) }
    ensures err { IfErr result (λ why. why ≡ NoMemory) }
{
    let are_kept = are_pairs_of(alloc, kept.entries, places, kept.pairs)?;
    let further = places.len().saturating_sub(1) as u64;
    Ok(rising(places) && are_kept && workload.holds(kept.pairs, further))
}

// The places of the transactions that are run, in their order.
fn run_places(
    alloc: Global,
    first: Spot,
    played: &Played,
    kept: &Kept<'_>,
) -> Result<Vec<Place>, Refusal>
    requires legal { config_fault kept.now.config.now ≡ None }
    requires book { IsBook (suc (length kept.now.config.now.resolver_splits)) kept.now.entries.now }
    ensures places { IfOk result (λ places. ArePlacesOf kept.now.config.now.resolver_splits kept.now.entries.now
        kept.now.committed first played.now.placed.items places.items) }
    ensures err { IfErr result (λ why. why ≡ NoMemory) }
{
    let mut others = doubtful_places(alloc, played.doubtful.as_slice(), kept)?;
    let mut places = Vec::new(alloc);
    push_spot(&mut places, first)?;
    push_receipts(&mut places, played.placed.as_slice())?;
    places.append(&mut others)?;
    places.sort_unstable();
    Ok(places)
}

// The places of those transactions that were committed by the record's version.
fn doubtful_places(
    alloc: Global,
    doubtful: &[Transcript],
    kept: &Kept<'_>,
) -> Result<Vec<Place>, Refusal>
    requires legal { config_fault kept.now.config.now ≡ None }
    requires book { IsBook (suc (length kept.now.config.now.resolver_splits)) kept.now.entries.now }
    ensures committed { IfOk result (λ places. All (IsCommittedBy kept.now.config.now.resolver_splits
        kept.now.entries.now kept.now.committed) places.items) }
    ensures err { IfErr result (λ why. why ≡ NoMemory) }
{
    let mut places = Vec::new(alloc);
    for transcript in doubtful {
        if let Some(place) = doubtful_place(alloc, transcript, kept)? {
            places.push(place)?;
        }
    }
    Ok(places)
}

// The place of the transaction, if it has one in an entry up to the record's version and was committed there. The pairs
// can't have what a later entry did.
fn doubtful_place(
    alloc: Global,
    transcript: &Transcript,
    kept: &Kept<'_>,
) -> Result<Option<Place>, Refusal>
    requires legal { config_fault kept.now.config.now ≡ None }
    requires book { IsBook (suc (length kept.now.config.now.resolver_splits)) kept.now.entries.now }
    ensures committed { IfOk result (λ found. IfSome found (IsCommittedBy kept.now.config.now.resolver_splits
        kept.now.entries.now kept.now.committed)) }
    ensures err { IfErr result (λ why. why ≡ NoMemory) }
{
    let Some((place, version)) = place_of(kept.entries, transcript.id) else {
        return Ok(None);
    };
    if version > kept.committed {
        return Ok(None);
    }
    let spot = Spot::Entry {
        index: place.index,
        place: place.place,
        version,
    };
    let transcript = transcript.clone()?;
    let placed = [Placed { spot, transcript }];
    match count_serialized(alloc, kept, &placed)? {
        Some(_count) => Ok(Some(place)),
        None => Ok(None),
    }
}
