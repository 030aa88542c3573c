// One of the acknowledged, beside the run at its spot.
ghost use Rattle.std.specs.Prelude.{◌≡◌, ◌↔◌, ◌-◌, suc, List, length, IsTrue, None, Ok, Err, IfOk, IfErr};
ghost use Rattle.fdb_keys.specs.Answers.{Answers};
ghost use Rattle.fdb_keys.specs.Points.{Point};
ghost use Rattle.fdb_txn.specs.book.History.{AreEntries};
ghost use Rattle.fdb_client.specs.Programs.{commit_request_of};
ghost use Rattle.fdb_check.specs.Running.{IsRunAt, IsNotPast, HasComeTo, moment};
ghost use Rattle.fdb_check.specs.Spots.{entries_through, moment_of};
ghost use Rattle.fdb_roles.specs.Spots.{AnsweredOn, WroteNothing, IsSerializedAt, IsReadOnlyAt, IsSerialized};

use crate::fault::CheckFault;
use crate::run::{Run, commits, go_to, outcomes_at};
use crate::visits::Visit;
use fdb_client::{Transcript, has_written_nothing, is_answered_on, is_request_of};
use fdb_keys::Refusal;
use fdb_mutations::PlainMap;
use fdb_roles::Placed;
use fdb_txn::{Entry, Sealed, Spot};
use std::alloc::Global;

// Whether the transaction is what the transcript asks to commit, which was answered as on the map.
fn is_run_on(
    alloc: Global,
    map: &PlainMap,
    txn: &Sealed,
    transcript: &Transcript,
) -> Result<bool, Refusal>
    ensures { Answers result None (λ same. IsTrue same
        ↔ ((txn.now ≡ commit_request_of transcript.now) × AnsweredOn map.now transcript.now)) }
{
    if !is_answered_on(alloc, map, transcript)? {
        return Ok(false);
    }
    let same = is_request_of(alloc, txn, transcript)?;
    Ok(same)
}

// Whether the transcript wrote nothing, and was answered as on the map.
fn is_read_on(alloc: Global, map: &PlainMap, transcript: &Transcript) -> Result<bool, Refusal>
    ensures { Answers result None (λ same. IsTrue same
        ↔ (WroteNothing transcript.now × AnsweredOn map.now transcript.now)) }
{
    if !has_written_nothing(alloc, transcript)? {
        return Ok(false);
    }
    let answered = is_answered_on(alloc, map, transcript)?;
    Ok(answered)
}

// Refused only as out of memory.
fn found(answer: Result<bool, Refusal>) -> Result<bool, CheckFault>
    ensures ok { IfOk answer (λ same. result ≡ Ok same) }
    ensures err { IfErr answer (λ _. result ≡ Err CheckFault.NoMemory) }
{
    match answer {
        Ok(same) => Ok(same),
        Err(_) => Err(CheckFault::NoMemory),
    }
}

// Whether the transcript is serialized at the place of the entry.
fn is_serialized_at(
    alloc: Global,
    run: &mut Run,
    book: &[Entry],
    index: usize,
    place: usize,
    version: u64,
    transcript: &Transcript,
) -> Result<bool, CheckFault>
    ensures ok { (splits : List Point) → AreEntries (suc (length splits)) 0 book.now → IsRunAt splits book.now run.old
        → IsNotPast run.old index place → IfOk result (λ stands.
        (IsTrue stands ↔ IsSerializedAt splits book.now transcript.now index place version)
        × (IsTrue stands → HasComeTo splits book.now index place run.new)) }
    ensures err { IfErr result (λ fault. fault ≡ CheckFault.NoMemory) }
{
    let Some(entry) = book.get(index) else {
        return Ok(false);
    };
    let Some(txn) = entry.batch.as_slice().get(place) else {
        return Ok(false);
    };
    if entry.version != version {
        return Ok(false);
    }
    go_to(run, book, index, place)?;
    if !commits(outcomes_at(run.judged, index), place) {
        return Ok(false);
    }
    found(is_run_on(alloc, &run.map, txn, transcript))
}

// Whether the transcript is serialized at the version, after so many entries.
fn is_read_only_at(
    alloc: Global,
    run: &mut Run,
    book: &[Entry],
    entries: usize,
    version: u64,
    transcript: &Transcript,
) -> Result<bool, CheckFault>
    ensures ok { (splits : List Point) → AreEntries (suc (length splits)) 0 book.now → IsRunAt splits book.now run.old
        → entries ≡ entries_through book.now version → IsNotPast run.old entries 0 → IfOk result (λ stands.
        (IsTrue stands ↔ IsReadOnlyAt splits book.now transcript.now version)
        × (IsTrue stands → HasComeTo splits book.now entries 0 run.new)) }
    ensures err { IfErr result (λ fault. fault ≡ CheckFault.NoMemory) }
{
    if version != transcript.read_version {
        return Ok(false);
    }
    go_to(run, book, entries, 0)?;
    found(is_read_on(alloc, &run.map, transcript))
}

/// Whether it is serialized at its spot. The run goes on to there.
pub(crate) fn is_serialized(
    alloc: Global,
    run: &mut Run,
    book: &[Entry],
    visit: Visit,
    placed: &Placed,
) -> Result<bool, CheckFault>
    ensures ok { (splits : List Point) → AreEntries (suc (length splits)) 0 book.now → IsRunAt splits book.now run.old
        → moment visit ≡ moment_of book.now placed.now.spot → IsNotPast run.old visit.entries (visit.places - 1)
        → IfOk result (λ stands. (IsTrue stands ↔ IsSerialized splits book.now placed.now)
        × (IsTrue stands → HasComeTo splits book.now visit.entries (visit.places - 1) run.new)) }
    ensures err { IfErr result (λ fault. fault ≡ CheckFault.NoMemory) }
{
    match placed.spot {
        Spot::Entry {
            index,
            place,
            version,
        } => is_serialized_at(
            alloc,
            run,
            book,
            index as usize,
            place as usize,
            version,
            &placed.transcript,
        ),
        Spot::ReadOnly { version } => {
            is_read_only_at(alloc, run, book, visit.entries, version, &placed.transcript)
        }
    }
}
