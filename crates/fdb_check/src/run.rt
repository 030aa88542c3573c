// The run of the book's committed transactions, one at a time.
ghost use Rattle.std.specs.Prelude.{◌≡◌, ◌<◌, ◌≤◌, suc, List, [], length, None, Some, slice_get, IfErr};
ghost use Rattle.std.specs.Prelude.{OnOk};
ghost use Rattle.fdb_keys.specs.Answers.{Answers};
ghost use Rattle.fdb_keys.specs.Points.{Point};
ghost use Rattle.fdb_mutations.specs.Maps.{Map};
ghost use Rattle.fdb_mutations.specs.Mutations.{effects};
ghost use Rattle.fdb_txn.specs.declared.entry.Entry.{Entry};
ghost use Rattle.fdb_txn.specs.book.History.{AreEntries};
ghost use Rattle.fdb_txn.specs.rules.Stamped.{stamped_by};
ghost use Rattle.fdb_proxy.specs.Logging.{is_commit};
ghost use Rattle.fdb_proxy.specs.declared.outcome.Outcome.{Outcome};
ghost use Rattle.fdb_check.specs.Judged.{AreJudged};
ghost use Rattle.fdb_check.specs.Running.{runs, map_after, batch_of, IsRunAt, IsNotPast, HasComeTo};

use crate::fault::CheckFault;
use fdb_keys::{Items, Refusal};
use fdb_mutations::{Mutation, PlainMap, Stamp};
use fdb_proxy::Outcome;
use fdb_txn::{Entry, Sealed};
use std::alloc::Global;

/// How far the run is.
#[derive(Drop)]
pub(crate) struct Run<'a> {
    // What becomes of the places of each entry, by its number.
    pub(crate) judged: &'a [Items<Outcome>],
    // The map after the places that were run.
    pub(crate) map: PlainMap,
    // How many entries were run whole.
    pub(crate) entry: usize,
    // How many places of the next entry were run.
    pub(crate) place: usize,
}

/// The run before the first entry.
pub(crate) fn new_run(alloc: Global, judged: &[Items<Outcome>]) -> Run<'_>
    ensures { (splits : List Point) (book : List Entry) → AreJudged splits book judged.now
        → HasComeTo splits book 0 0 result }
{
    Run {
        judged,
        map: PlainMap::new(alloc),
        entry: 0,
        place: 0,
    }
}

/// What becomes of the places of the entry with the number.
pub(crate) fn outcomes_at(judged: &[Items<Outcome>], entry: usize) -> &[Outcome]
    ensures { (outcomes : List Outcome) → slice_get judged.now entry ≡ Some outcomes → result.now ≡ outcomes }
{
    match judged.get(entry) {
        Some(outcomes) => outcomes.as_slice(),
        None => &[],
    }
}

/// Whether the place commits.
pub(crate) fn commits(outcomes: &[Outcome], place: usize) -> bool
    ensures { (outcome : Outcome) → slice_get outcomes.now place ≡ Some outcome → result ≡ is_commit outcome }
{
    matches!(outcomes.get(place), Some(Outcome::Commit { .. }))
}

// What becomes of the place. Where that isn't known, it is as if it conflicted.
fn outcome_of(outcomes: &[Outcome], place: usize) -> Outcome
    ensures { (outcome : Outcome) → slice_get outcomes.now place ≡ Some outcome → result ≡ outcome }
{
    match outcomes.get(place) {
        Some(outcome) => *outcome,
        None => Outcome::Conflict,
    }
}

// Applies the mutations with the stamp, the first one first.
fn apply(map: &mut PlainMap, mutations: &[Mutation], stamp: Stamp) -> Result<(), Refusal>
    ensures { Answers result None
        (λ _. map.new ≡ effects map.old (stamped_by stamp.version stamp.place mutations.now)) }
{
    for mutation in mutations {
        map.apply_stamped(mutation, stamp)?;
    }
    Ok(())
}

// Runs the transaction, with the stamp of its commit, if it commits.
fn run_place(map: &mut PlainMap, txn: &Sealed, outcome: Outcome) -> Result<(), CheckFault>
    ensures ok { OnOk result (map.new ≡ effects map.old (runs outcome txn.now)) }
    ensures err { IfErr result (λ fault. fault ≡ CheckFault.NoMemory) }
{
    let Outcome::Commit { version, place } = outcome else {
        return Ok(());
    };
    match apply(map, txn.mutations(), Stamp::of_place(version, place)) {
        Ok(()) => Ok(()),
        Err(_) => Err(CheckFault::NoMemory),
    }
}

// Runs the places of the batch from one on up to another.
fn run_places(
    map: &mut PlainMap,
    batch: &[Sealed],
    outcomes: &[Outcome],
    from: usize,
    until: usize,
) -> Result<(), CheckFault>
    requires { until ≤ length batch.now }
    ensures ok { (base : Map) → length batch.now ≡ length outcomes.now → from ≤ until
        → map.old ≡ map_after base batch.now outcomes.now from
        → OnOk result (map.new ≡ map_after base batch.now outcomes.now until) }
    ensures err { IfErr result (λ fault. fault ≡ CheckFault.NoMemory) }
{
    for place in from..until {
        run_place(map, &batch[place], outcome_of(outcomes, place))?;
    }
    Ok(())
}

// Goes on within the entry, to one of its places or to its end.
fn go_within(run: &mut Run, entry: &Entry, place: usize) -> Result<(), CheckFault>
    requires { place ≤ length entry.now.batch }
    ensures ok { (splits : List Point) (book : List Entry) → IsRunAt splits book run.old
        → slice_get book run.old.entry ≡ Some entry.now → run.old.place ≤ place
        → OnOk result (HasComeTo splits book run.old.entry place run.new) }
    ensures err { IfErr result (λ fault. fault ≡ CheckFault.NoMemory) }
    ensures entry { run.new.entry ≡ run.old.entry }
{
    let outcomes = outcomes_at(run.judged, run.entry);
    let batch = entry.batch.as_slice();
    run_places(&mut run.map, batch, outcomes, run.place, place)?;
    run.place = place;
    Ok(())
}

/// Runs what is left of the entry. At the end of the book nothing is left.
pub(crate) fn run_entry(run: &mut Run, book: &[Entry]) -> Result<(), CheckFault>
    ensures ok { (splits : List Point) → AreEntries (suc (length splits)) 0 book.now → IsRunAt splits book.now run.old
        → run.old.entry < length book.now
        → OnOk result (HasComeTo splits book.now (suc run.old.entry) 0 run.new) }
    ensures end { OnOk result (length book.now ≤ run.old.entry → run.new ≡ run.old) }
    ensures err { IfErr result (λ fault. (fault ≡ CheckFault.NoMemory) × (run.old.entry < length book.now)) }
{
    let Some(entry) = book.get(run.entry) else {
        return Ok(());
    };
    let batch = entry.batch.as_slice();
    go_within(run, entry, batch.len())?;
    run.entry += 1;
    run.place = 0;
    Ok(())
}

// Runs the entries before one.
fn run_entries(run: &mut Run, book: &[Entry], until: usize) -> Result<(), CheckFault>
    ensures ok { (splits : List Point) → AreEntries (suc (length splits)) 0 book.now → IsRunAt splits book.now run.old
        → until ≤ length book.now → run.old.entry ≤ until
        → OnOk result (IsRunAt splits book.now run.new × (run.new.entry ≡ until)
        × ((run.old.entry < until → run.new.place ≡ 0) × (run.old.entry ≡ until → run.new.place ≡ run.old.place))) }
    ensures err { IfErr result (λ fault. fault ≡ CheckFault.NoMemory) }
{
    for _ in run.entry..until {
        run_entry(run, book)?;
    }
    Ok(())
}

/// Goes on to the place of the entry. Where there is no such entry, the place is the first one.
pub(crate) fn go_to(
    run: &mut Run,
    book: &[Entry],
    entry: usize,
    place: usize,
) -> Result<(), CheckFault>
    requires { place ≤ length (batch_of (slice_get book.now entry)) }
    ensures ok { (splits : List Point) → AreEntries (suc (length splits)) 0 book.now → IsRunAt splits book.now run.old
        → entry ≤ length book.now → IsNotPast run.old entry place
        → OnOk result (HasComeTo splits book.now entry place run.new) }
    ensures err { IfErr result (λ fault. fault ≡ CheckFault.NoMemory) }
{
    run_entries(run, book, entry)?;
    match book.get(entry) {
        Some(next) => go_within(run, next, place),
        None => Ok(()),
    }
}
