// Clients in threads, and what is found where something of a run is changed by hand.
ghost use Rattle.std.specs.Prelude.{◌≡◌, suc, length, None};
ghost use Rattle.fdb_txn.specs.book.History.{IsBook};
ghost use Rattle.fdb_proxy.specs.Configs.{config_fault};

use bytes::Bytes;
use fdb_core::Placed;
use fdb_keys::{Key, Refusal};
use fdb_load::{
    Asked, Kept, Load, Pace, Played, Report, Workload, config_of, is_all, judge, name_of,
    print_report, run_clients, run_load, run_threads,
};
use fdb_play::Stop;
use fdb_runtime::{Blank, ClusterName, Config, Database, NoGate, Op, Record, Spot, Transcript};
use std::alloc::Global;
use std::fmt::Debug;
use std::marker::Brand;
use std::process::Abort;
use std::sync::{Arc, Wait};
use std::test::Fail;
use std::thread::Threads;
use std::time::Clock;

// What runs clients in threads, and stops a test that fails.
trait Host: Threads + Wait + Abort + Clock + Copy + Send + Sync + Drop + 'static {}

impl<R: Threads + Wait + Abort + Clock + Copy + Send + Sync + Drop + 'static> Host for R {}

// The test fails where it isn't what is wanted.
pub(crate) fn same<T: PartialEq + Debug + Drop>(rt: &impl Abort, given: T, wanted: T) {
    assert_eq!(rt; given, wanted);
}

// Four clients with 50 transactions each, on four resolvers and two proxies of each kind.
fn load_of(workload: Workload) -> Load {
    Load {
        clients: 4,
        txns: 50,
        resolvers: 4,
        proxies: 2,
        workload,
        progress: false,
    }
}

// What a report says beside its numbers: whether each try was told of, each receipt was checked, nothing is unknown,
// and all checks held.
fn told_by(report: Result<Report, Stop>, txns: u64) -> [bool; 4] {
    match report {
        Ok(report) => [
            report.acknowledged.saturating_add(report.aborted) == txns,
            report.checked == report.acknowledged,
            report.unknown == 0,
            report.ok,
        ],
        Err(_stop) => [false; 4],
    }
}

const WORKLOADS: &[Workload] = &[Workload::Ring, Workload::Transfers, Workload::Counters];

#[test]
fn each_workload_is_run(rt: HostRuntime) -> Result<(), Fail> {
    let alloc = rt.alloc();
    let pace = Pace {
        millis: 1,
        tries: 20,
    };
    for workload in WORKLOADS {
        let mut err: Vec<u8> = Vec::new(alloc);
        let report = run_load(&rt, alloc, &load_of(*workload), pace, &mut err);
        same(&rt, told_by(report, 200), [true; 4]);
    }
    Ok(())
}

#[test]
fn eight_clients_run_on_four_resolvers(rt: HostRuntime) -> Result<(), Fail> {
    let alloc = rt.alloc();
    let load = Load {
        clients: 8,
        txns: 200,
        resolvers: 4,
        proxies: 3,
        workload: Workload::Ring,
        progress: true,
    };
    let mut out: Vec<u8> = Vec::new(alloc);
    let mut err: Vec<u8> = Vec::new(alloc);
    let status = run_threads(&rt, alloc, &load, &mut out, &mut err)?;
    let end = b",\"mode\":\"threads\",\"ok\":true,\"unknown\":0,\"workload\":\"ring\"}\n";
    same(&rt, (status, out.as_slice().ends_with(end)), (0, true));
    Ok(())
}

#[test]
fn keys_are_moved_while_clients_run(rt: HostRuntime) -> Result<(), Fail> {
    let alloc = rt.alloc();
    // A move each few entries.
    let pace = Pace {
        millis: 1,
        tries: 1,
    };
    let mut err: Vec<u8> = Vec::new(alloc);
    let report = run_load(&rt, alloc, &load_of(Workload::Ring), pace, &mut err);
    same(&rt, told_by(report, 200), [true; 4]);
    Ok(())
}

#[test]
fn a_report_is_a_line_of_json(rt: HostRuntime) -> Result<(), Fail> {
    let report = Report {
        aborted: 1,
        acknowledged: 2,
        checked: 3,
        entries: 4,
        ok: false,
        unknown: 5,
        workload: Workload::Transfers,
    };
    let mut out: Vec<u8> = Vec::new(rt.alloc());
    let status = print_report(rt.alloc(), &report, &mut out);
    let line =
        b"{\"aborted\":1,\"acknowledged\":2,\"checked\":3,\"entries\":4,\"mode\":\"threads\",\
        \"ok\":false,\"unknown\":5,\"workload\":\"transfers\"}\n";
    let is_printed = out.as_slice() == line.as_slice();
    same(&rt, (matches!(&status, Ok(1)), is_printed), (true, true));
    Ok(())
}

// Pairs of the keys of the letter, with these numbers.
fn pairs_of(alloc: Global, letter: u8, numbers: &[u64]) -> Result<Vec<(Key, Bytes)>, Refusal> {
    let mut pairs = Vec::new(alloc);
    for (number, value) in numbers.iter().enumerate() {
        let name = name_of(letter, (number % 100) as u8);
        let key = Key::new(alloc, &name)?;
        pairs.push((key, Bytes::copy_from_slice(alloc, &value.to_le_bytes())?))?;
    }
    Ok(pairs)
}

// Whether the numbers are such as so many committed transactions leave.
fn holds(alloc: Global, workload: Workload, numbers: &[u64], committed: u64) -> Option<bool> {
    match pairs_of(alloc, workload.letter(), numbers) {
        Ok(pairs) => Some(workload.holds(pairs.as_slice(), committed)),
        Err(_why) => None,
    }
}

#[test]
fn numbers_are_summed(rt: HostRuntime) -> Result<(), Fail> {
    let alloc = rt.alloc();
    let sums = [
        holds(alloc, Workload::Counters, &[1, 2, 3, 4], 10),
        holds(alloc, Workload::Counters, &[1, 2, 3, 4], 9),
        holds(alloc, Workload::Counters, &[1, 2, 7], 10),
        holds(alloc, Workload::Counters, &[u64::MAX, 1, 0, 0], 0),
    ];
    same(
        &rt,
        sums,
        [Some(true), Some(false), Some(false), Some(false)],
    );
    let mut amounts = [1_000; 32];
    let at_first = holds(alloc, Workload::Transfers, &amounts, 0);
    amounts[0] = 990;
    amounts[31] = 1_010;
    let moved = holds(alloc, Workload::Transfers, &amounts, 1);
    amounts[31] = 1_011;
    let more = holds(alloc, Workload::Transfers, &amounts, 1);
    same(
        &rt,
        [at_first, moved, more],
        [Some(true), Some(true), Some(false)],
    );
    Ok(())
}

#[test]
fn tries_are_counted(rt: HostRuntime) -> Result<(), Fail> {
    let counts = [
        is_all(5, 3, 2, 10),
        is_all(5, 3, 1, 10),
        is_all(5, 3, 3, 10),
        is_all(u64::MAX, 11, 0, 10),
    ];
    same(&rt, counts, [true, false, false, false]);
    Ok(())
}

// What is changed of a run, which stays right in all else.
#[derive(Clone, Copy)]
enum Change {
    Nothing,
    // A receipt is lost, and its try had no effect.
    Lost,
    // Of a transaction with a receipt it isn't known whether it was committed.
    Doubted,
    // The same, and the pairs are without it.
    Unseen,
    // It isn't known either, and the record is of a version below it.
    Later,
    // The same, and the pairs are without it.
    LaterUnseen,
    // A receipt is there twice, of two tries.
    Twice,
    // A receipt has the place of another transaction.
    Misplaced,
    // A receipt's transcript has another id.
    Renamed,
    // A receipt's transcript has another read version.
    Reread,
    // One more try had no effect.
    Aborted,
    // The same, and it was to be tried.
    TurnedDown,
    // One more was to be tried.
    Missing,
    // It isn't known where the first transaction stands.
    Headless,
    // A pair is lost.
    Unpaired,
    // A pair has another value.
    Revalued,
}

// Changes of a run, and whether it is right after each of them.
type Changes = &'static [(Change, bool)];

const RING_CHANGES: Changes = &[
    (Change::Nothing, true),
    (Change::Lost, false),
    (Change::Doubted, true),
    (Change::Later, false),
    (Change::Twice, false),
    (Change::Misplaced, false),
    (Change::Renamed, false),
    (Change::Reread, false),
    (Change::Aborted, false),
    (Change::TurnedDown, true),
    (Change::Missing, false),
    (Change::Headless, false),
    (Change::Unpaired, false),
    (Change::Revalued, false),
];

// Nothing is read, so no try can be turned down.
const COUNTERS_CHANGES: Changes = &[
    (Change::Nothing, true),
    (Change::Doubted, true),
    (Change::Unseen, false),
    (Change::Later, false),
    (Change::LaterUnseen, true),
    (Change::TurnedDown, false),
];

// Nothing was tried, so nothing was acknowledged.
const IDLE_CHANGES: Changes = &[(Change::Nothing, true), (Change::TurnedDown, false)];

// A load, and what is changed of its run.
#[derive(Clone, Copy)]
struct Trial {
    load: Load,
    changes: Changes,
}

fn copy_of(placed: &Placed) -> Result<Placed, Refusal> {
    Ok(Placed {
        spot: placed.spot,
        transcript: placed.transcript.clone()?,
    })
}

fn copies_of(alloc: Global, played: &Played) -> Result<Played, Refusal> {
    let mut copies = Played::new(alloc);
    for placed in &played.placed {
        copies.placed.push(copy_of(placed)?)?;
    }
    copies.aborted = played.aborted;
    Ok(copies)
}

fn copied_pairs(alloc: Global, pairs: &[(Key, Bytes)]) -> Result<Vec<(Key, Bytes)>, Refusal> {
    let mut copies = Vec::new(alloc);
    for (key, value) in pairs {
        copies.push((key.clone()?, value.clone()?))?;
    }
    Ok(copies)
}

// Makes the change of what clients were told.
fn change_told(asked: &mut Asked, played: &mut Played, change: Change) -> Result<(), Refusal> {
    match change {
        Change::Lost => {
            let _lost = played.placed.pop();
            played.aborted = played.aborted.saturating_add(1);
        }
        Change::Doubted | Change::Unseen | Change::Later | Change::LaterUnseen => {
            if let Some(placed) = played.placed.pop() {
                played.doubtful.push(placed.transcript)?;
            }
        }
        Change::Twice => {
            if let Some(placed) = played.placed.first() {
                let copy = copy_of(placed)?;
                played.placed.push(copy)?;
            }
            asked.txns = asked.txns.saturating_add(1);
        }
        Change::Aborted => played.aborted = played.aborted.saturating_add(1),
        Change::TurnedDown => {
            played.aborted = played.aborted.saturating_add(1);
            asked.txns = asked.txns.saturating_add(1);
        }
        Change::Missing => asked.txns = asked.txns.saturating_add(1),
        Change::Headless => asked.first = Spot::ReadOnly { version: 0 },
        _ => {}
    }
    Ok(())
}

// Makes the change of the first receipt.
fn change_receipt(placed: &mut Placed, first: Spot, change: Change) {
    match change {
        Change::Misplaced => placed.spot = first,
        Change::Renamed => placed.transcript.id.number = 100,
        Change::Reread => placed.transcript.read_version = 1,
        _ => {}
    }
}

// Whether the transaction writes the key.
fn writes(transcript: &Transcript, key: &Key) -> bool {
    for (op, _reply) in transcript.ops.as_slice() {
        if let Op::Write(mutation) = op {
            return mutation.names(key);
        }
    }
    false
}

// The pairs lose what the transaction added to a counter.
fn take_back(
    alloc: Global,
    pairs: &mut Vec<(Key, Bytes)>,
    transcript: &Transcript,
) -> Result<(), Refusal> {
    for pair in pairs.iter_mut() {
        if writes(transcript, &pair.0) {
            let low = pair.1.as_slice().first().copied().unwrap_or(0);
            let before = u64::from(low).saturating_sub(1);
            pair.1 = Bytes::copy_from_slice(alloc, &before.to_le_bytes())?;
        }
    }
    Ok(())
}

// Makes the change of the pairs.
fn change_pairs(
    alloc: Global,
    pairs: &mut Vec<(Key, Bytes)>,
    played: &Played,
    change: Change,
) -> Result<(), Refusal> {
    match change {
        Change::Unpaired => {
            let _lost = pairs.pop();
        }
        Change::Revalued => {
            if let Some(pair) = pairs.first_mut() {
                pair.1 = Bytes::copy_from_slice(alloc, b"r/00")?;
            }
        }
        Change::Unseen | Change::LaterUnseen => {
            if let Some(placed) = played.placed.last() {
                take_back(alloc, pairs, &placed.transcript)?;
            }
        }
        _ => {}
    }
    Ok(())
}

// The pairs after the change.
fn changed_pairs(
    alloc: Global,
    pairs: &[(Key, Bytes)],
    played: &Played,
    change: Change,
) -> Result<Vec<(Key, Bytes)>, Refusal> {
    let mut pairs = copied_pairs(alloc, pairs)?;
    change_pairs(alloc, &mut pairs, played, change)?;
    Ok(pairs)
}

// The version right below that of the last transaction with a receipt.
fn version_before(played: &Played) -> u64 {
    match played.placed.last() {
        Some(placed) => match placed.spot {
            Spot::Entry { version, .. } | Spot::ReadOnly { version } => version.saturating_sub(1),
        },
        None => 0,
    }
}

// The record's version after the change.
fn changed_version(committed: u64, played: &Played, change: Change) -> u64 {
    match change {
        Change::Later | Change::LaterUnseen => version_before(played),
        _ => committed,
    }
}

// What clients were told, after the change.
fn changed_told(
    alloc: Global,
    load: &Load,
    ran: &(Spot, Played),
    change: Change,
) -> Result<(Asked, Played), Refusal> {
    let mut played = copies_of(alloc, &ran.1)?;
    let mut asked = Asked {
        txns: u64::from(load.txns),
        workload: load.workload,
        first: ran.0,
    };
    change_told(&mut asked, &mut played, change)?;
    if let Some(placed) = played.placed.first_mut() {
        change_receipt(placed, ran.0, change);
    }
    Ok((asked, played))
}

// Whether all checks hold after the change of what clients were told.
fn is_right(
    alloc: Global,
    kept: &Kept<'_>,
    load: &Load,
    ran: &(Spot, Played),
    change: Change,
) -> Result<bool, Refusal>
    requires legal { config_fault kept.now.config.now ≡ None }
    requires book { IsBook (suc (length kept.now.config.now.resolver_splits)) kept.now.entries.now }
{
    match changed_told(alloc, load, ran, change) {
        Ok((asked, played)) => Ok(judge(alloc, &asked, &played, kept)?.ok),
        Err(why) => Err(why),
    }
}

// The same after the change of the record, too.
fn is_right_after<B: ClusterName>(
    alloc: Global,
    config: &Config,
    load: &Load,
    ran: &(Spot, Played),
    record: &Record<B>,
    change: Change,
) -> Result<bool, Refusal>
    requires { config.now ≡ B.config }
{
    config.check()?;
    let entries = record.front().entries()?;
    let pairs = changed_pairs(alloc, record.pairs(), &ran.1, change)?;
    let kept = Kept {
        config,
        entries: entries.as_slice(),
        committed: changed_version(record.committed(), &ran.1, change),
        pairs: pairs.as_slice(),
    };
    is_right(alloc, &kept, load, ran, change)
}

// Runs the load on the database, and makes each change of what came of it.
fn change_each<B: ClusterName + Send + Sync + 'static, R: Host>(
    rt: &R,
    alloc: Global,
    blank: Blank,
    config: &Config,
    trial: &Trial,
) -> Result<(), Stop>
    requires cells { blank ≡ B.cells }
    requires config { config.now ≡ B.config }
{
    let gate = Arc::new(alloc, NoGate)?;
    let pace = Pace {
        millis: 1,
        tries: 1,
    };
    let mut err: Vec<u8> = Vec::new(alloc);
    match Database::<B>::start(rt, alloc, blank, config, 1_000, &gate) {
        Ok(database) => {
            let mut database = database;
            let ran = run_clients(rt, alloc, &mut database, &trial.load, pace, &mut err);
            let record = database.close(rt);
            change_ran(rt, alloc, config, trial, ran, record)
        }
        Err(why) => Err(Stop::Refused(why)),
    }
}

fn change_ran<B: ClusterName, R: Host>(
    rt: &R,
    alloc: Global,
    config: &Config,
    trial: &Trial,
    ran: Result<(Spot, Played), Stop>,
    record: Result<Record<B>, Refusal>,
) -> Result<(), Stop>
    requires { config.now ≡ B.config }
{
    match ran {
        Ok(ran) => change_closed(rt, alloc, config, trial, &ran, record),
        Err(stop) => Err(stop),
    }
}

fn change_closed<B: ClusterName, R: Host>(
    rt: &R,
    alloc: Global,
    config: &Config,
    trial: &Trial,
    ran: &(Spot, Played),
    record: Result<Record<B>, Refusal>,
) -> Result<(), Stop>
    requires { config.now ≡ B.config }
{
    match record {
        Ok(record) => {
            change_recorded(rt, alloc, config, trial, ran, &record);
            Ok(())
        }
        Err(why) => Err(Stop::Refused(why)),
    }
}

fn change_recorded<B: ClusterName, R: Host>(
    rt: &R,
    alloc: Global,
    config: &Config,
    trial: &Trial,
    ran: &(Spot, Played),
    record: &Record<B>,
)
    requires { config.now ≡ B.config }
{
    for (row, (change, is_right)) in trial.changes.iter().enumerate() {
        let told = is_right_after(alloc, config, &trial.load, ran, record, *change);
        same(rt, (row, told.ok()), (row, Some(*is_right)));
    }
}

// On a database of its own. One client has no conflict with another one, so each try has a receipt.
fn change_runs<R: Host>(
    rt: &R,
    alloc: Global,
    workload: Workload,
    txns: u32,
    changes: Changes,
) -> Result<(), Stop> {
    let load = Load {
        clients: 1,
        txns,
        resolvers: 2,
        proxies: 1,
        workload,
        progress: false,
    };
    let trial = Trial { load, changes };
    match (config_of(alloc, &load), Blank::new(alloc, 1_048_576)) {
        (Ok(config), Ok(blank)) => change_each::<Brand, R>(rt, alloc, blank, &config, &trial),
        (Err(why), _) | (_, Err(why)) => Err(Stop::Refused(why)),
    }
}

#[test]
fn a_run_that_is_changed_by_hand_is_found(rt: HostRuntime) -> Result<(), Fail> {
    let ended = change_runs(&rt, rt.alloc(), Workload::Ring, 6, RING_CHANGES);
    same(&rt, ended.is_ok(), true);
    Ok(())
}

#[test]
fn counters_are_turned_down_by_nobody(rt: HostRuntime) -> Result<(), Fail> {
    let ended = change_runs(&rt, rt.alloc(), Workload::Counters, 6, COUNTERS_CHANGES);
    same(&rt, ended.is_ok(), true);
    Ok(())
}

#[test]
fn a_run_without_an_acknowledged_try_is_found(rt: HostRuntime) -> Result<(), Fail> {
    let ended = change_runs(&rt, rt.alloc(), Workload::Ring, 0, IDLE_CHANGES);
    same(&rt, ended.is_ok(), true);
    Ok(())
}
