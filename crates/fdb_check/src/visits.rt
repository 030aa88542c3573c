// The acknowledged in the order of the run.
ghost use Rattle.std.specs.Prelude.{◌≡◌, ◌<◌, ◌≤◌, ℕ, length, Some, slice_get, All, IfOk, IfErr};
ghost use Rattle.std.specs.List.Sorted.{IsPermutation};
ghost use Rattle.fdb_txn.specs.book.History.{AreEntries};
ghost use Rattle.fdb_check.specs.Running.{moment, visits_from, IsInOrder};
ghost use Rattle.fdb_check.specs.Spots.{entries_through, moment_of};

use crate::fault::CheckFault;
use fdb_roles::Placed;
use fdb_txn::{Entry, Spot};
use std::alloc::Global;

/// One of the acknowledged, with the moment of the run at which it stands.
#[derive(Clone, Copy, PartialEq, Eq, PartialOrd, Ord)]
pub(crate) struct Visit {
    // How many entries go before it, and how many places of the next one up to it with its own.
    pub(crate) entries: usize,
    pub(crate) places: u64,
    // Its number in the list.
    pub(crate) index: usize,
}

/// How many entries have a version that is at most this one.
pub(crate) fn entries_through(book: &[Entry], version: u64) -> usize
    ensures bound { result ≤ length book.now }
    ensures value { (resolvers : ℕ) → AreEntries resolvers 0 book.now → result ≡ entries_through book.now version }
{
    book.partition_point(|entry| entry.version <= version)
}

// The visit of one of them.
fn visit_of(book: &[Entry], index: usize, placed: &Placed) -> Visit
    ensures index { result.index ≡ index }
    ensures moment { (resolvers : ℕ) → AreEntries resolvers 0 book.now
        → result ≡ record {
          entries = (moment_of book.now placed.now.spot).0;
          places = (moment_of book.now placed.now.spot).1;
          index = index;
        } }
{
    match placed.spot {
        Spot::Entry {
            index: entry,
            place,
            ..
        } => Visit {
            entries: entry as usize,
            places: place as u64 + 1,
            index,
        },
        Spot::ReadOnly { version } => Visit {
            entries: entries_through(book, version),
            places: 0,
            index,
        },
    }
}

// The visits of all of them.
fn visits_of(alloc: Global, book: &[Entry], placed: &[Placed]) -> Result<Vec<Visit>, CheckFault>
    ensures count { IfOk result (λ visits. All (λ visit. visit.index < length placed.now) visits.items) }
    ensures each { (resolvers : ℕ) → AreEntries resolvers 0 book.now
        → IfOk result (λ visits. visits.items ≡ visits_from book.now 0 placed.now) }
    ensures err { IfErr result (λ fault. fault ≡ CheckFault.NoMemory) }
{
    let mut visits = Vec::new(alloc);
    for (index, one) in placed.iter().enumerate() {
        let Ok(()) = visits.push(visit_of(book, index, one)) else {
            return Err(CheckFault::NoMemory);
        };
    }
    Ok(visits)
}

/// The visits of all of them, in the order of the run.
pub(crate) fn sorted_visits(
    alloc: Global,
    book: &[Entry],
    placed: &[Placed],
) -> Result<Vec<Visit>, CheckFault>
    ensures count { IfOk result (λ visits. All (λ visit. visit.index < length placed.now) visits.items) }
    ensures sorted { IfOk result (λ visits. IsInOrder visits.items) }
    ensures each { (resolvers : ℕ) → AreEntries resolvers 0 book.now
        → IfOk result (λ visits. IsPermutation (visits_from book.now 0 placed.now) visits.items) }
    ensures err { IfErr result (λ fault. fault ≡ CheckFault.NoMemory) }
{
    let mut visits = visits_of(alloc, book, placed)?;
    visits.sort_unstable();
    Ok(visits)
}

/// The visit with the number.
pub(crate) fn visit_at(visits: &[Visit], number: usize) -> Visit
    requires { number < length visits.now }
    ensures { slice_get visits.now number ≡ Some result }
{
    visits[number]
}
