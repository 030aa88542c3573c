// The comparison of transcripts with the run, in its order.
ghost use Rattle.std.specs.Prelude.{◌<◌, suc, List, length, All, MatchResult};
ghost use Rattle.std.specs.List.{AllByRecursion};
ghost use Rattle.std.specs.List.Sorted.{IsPermutation};
ghost use Rattle.fdb_keys.specs.Points.{Point};
ghost use Rattle.fdb_txn.specs.book.History.{AreEntries};
ghost use Rattle.fdb_check.specs.Checking.{Stops, FindsSerialized};
ghost use Rattle.fdb_check.specs.Judged.{AreJudged};
ghost use Rattle.fdb_check.specs.Running.{HasComeTo, IsInOrder, visits_from};
ghost use Rattle.fdb_roles.specs.Spots.{IsSerialized};

use crate::fault::CheckFault;
use crate::run::{Run, new_run};
use crate::standing::is_serialized;
use crate::visits::{Visit, sorted_visits, visit_at};
use fdb_keys::Items;
use fdb_proxy::Outcome;
use fdb_roles::Placed;
use fdb_txn::Entry;
use std::alloc::Global;

// Compares each one at its visit, in the order of the run.
fn run_visits(
    alloc: Global,
    run: &mut Run,
    book: &[Entry],
    placed: &[Placed],
    visits: &[Visit],
) -> Result<(), CheckFault>
    requires { All (λ visit. visit.index < length placed.now) visits.now }
    ensures { (splits : List Point) → AreEntries (suc (length splits)) 0 book.now
        → HasComeTo splits book.now 0 0 run.old → IsInOrder visits.now
        → IsPermutation (visits_from book.now 0 placed.now) visits.now
        → MatchResult result (λ _. AllByRecursion (IsSerialized splits book.now) placed.now)
        (Stops splits book.now placed.now) }
{
    for number in 0..visits.len() {
        let visit = visit_at(visits, number);
        let one = &placed[visit.index];
        if !is_serialized(alloc, run, book, visit, one)? {
            return Err(CheckFault::Txn(one.transcript.id));
        }
    }
    Ok(())
}

/// Compares transcripts with the run of the book, by what becomes of the places of the entries.
pub(crate) fn check_placed(
    alloc: Global,
    judged: &[Items<Outcome>],
    book: &[Entry],
    placed: &[Placed],
) -> Result<u64, CheckFault>
    ensures { (splits : List Point) → AreEntries (suc (length splits)) 0 book.now
        → AreJudged splits book.now judged.now → FindsSerialized result splits book.now placed.now }
{
    let visits = sorted_visits(alloc, book, placed)?;
    let mut run = new_run(alloc, judged);
    run_visits(alloc, &mut run, book, placed, visits.as_slice())?;
    Ok(placed.len() as u64)
}
