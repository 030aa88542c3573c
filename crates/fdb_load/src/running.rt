// A database of its own for a load, from its start to its end.
ghost use Rattle.std.specs.Prelude.{◌≡◌, ◌*◌, ◌-◌, length, min, IfOk, IfErr};
ghost use Rattle.fdb_keys.specs.declared.refusal.Refusal.TheVariants.{NoMemory};
ghost use Rattle.fdb_load.specs.Reports.{IsReportOf};
ghost use Rattle.fdb_load.specs.Stops.{StopsWith};

use crate::client::Share;
use crate::clients::{Client, join, start};
use crate::judging::{Asked, Kept, judge};
use crate::load::Load;
use crate::names::even_splits;
use crate::played::Played;
use crate::report::Report;
use crate::tally::Tally;
use crate::watch::{Pace, Run, watch};
use crate::workload::Workload;
use fdb_keys::Refusal;
use fdb_print::{Sink, Stop};
use fdb_runtime::{Blank, ClusterName, Config, Database, NoGate, Record, Session, Spot};
use std::alloc::Global;
use std::marker::Brand;
use std::sync::{Arc, Wait};
use std::thread::Threads;
use std::time::Clock;

/// How many entries the book has room for. No run that may be asked for tries as many transactions.
const BOOK: u32 = 1_048_576;

/// How far each entry's version is above that of the one before it: 5,000 entries lie in the window.
const ADVANCE: u64 = 1_000;

/// The most logs of a load, which has no more of them than proxies of a kind.
const LOGS: u32 = 2;

/// The most shards of a load, which has no more of them than resolvers.
const SHARDS: u32 = 3;

/// Runs the load, with moves at the pace, and tells on `err` how far it is where that is asked for. Answers what came
/// of it. Stopped by a refusal that ends the run, and by a write that fails, with that error. The database is closed
/// on every path. The checks in the end take O(n log n) time for n transactions.
pub fn run_load<R: Threads + Wait + Clock + Copy + Send + Sync + 'static, E: Sink>(
    rt: &R,
    alloc: Global,
    load: &Load,
    pace: Pace,
    err: &mut E,
) -> Result<Report, Stop>
    ensures report { IfOk result (IsReportOf load.now.workload (load.now.clients * load.now.txns)) }
    ensures errors { IfErr result (StopsWith E.errors) }
{
    match config_of(alloc, load) {
        Ok(config) => run_on(rt, alloc, &config, load, pace, err),
        Err(why) => Err(Stop::Refused(why)),
    }
}

/// The configuration of the load's database, whose resolvers and shards have about as many keys of the workload each.
/// It has up to 2 logs, no more than proxies of a kind, and up to 3 shards, no more than resolvers: so a load of one of
/// each has one of each. Refused only as `NoMemory`. It takes O(n) time for n resolvers.
pub fn config_of(alloc: Global, load: &Load) -> Result<Config, Refusal>
    ensures refused { IfErr result (λ why. why ≡ NoMemory) }
    ensures config { IfOk result
        (λ config. (config.proxies ≡ load.now.proxies) × (config.logs ≡ min load.now.proxies 2)
        × (config.book ≡ 1048576) × (length config.resolver_splits ≡ load.now.resolvers - 1)
        × (length config.shard_splits ≡ min load.now.resolvers 3 - 1)) }
{
    let resolver_splits = even_splits(alloc, load.workload, load.resolvers)?;
    let shard_splits = even_splits(alloc, load.workload, load.resolvers.min(SHARDS))?;
    Ok(Config {
        proxies: load.proxies,
        logs: load.proxies.min(LOGS),
        resolver_splits,
        shard_splits,
        book: BOOK,
    })
}

fn run_on<R: Threads + Wait + Clock + Copy + Send + Sync + 'static, E: Sink>(
    rt: &R,
    alloc: Global,
    config: &Config,
    load: &Load,
    pace: Pace,
    err: &mut E,
) -> Result<Report, Stop>
    ensures report { IfOk result (IsReportOf load.now.workload (load.now.clients * load.now.txns)) }
    ensures errors { IfErr result (StopsWith E.errors) }
{
    match Blank::new(alloc, BOOK) {
        Ok(blank) => run_named::<Brand, R, E>(rt, alloc, blank, config, load, pace, err),
        Err(why) => Err(Stop::Refused(why)),
    }
}

// The same on the cells, of which the name is made.
fn run_named<
    B: ClusterName + Send + Sync + 'static,
    R: Threads + Wait + Clock + Copy + Send + Sync + 'static,
    E: Sink,
>(
    rt: &R,
    alloc: Global,
    blank: Blank,
    config: &Config,
    load: &Load,
    pace: Pace,
    err: &mut E,
) -> Result<Report, Stop>
    requires cells { blank ≡ B.cells }
    requires config { config.now ≡ B.config }
    ensures report { IfOk result (IsReportOf load.now.workload (load.now.clients * load.now.txns)) }
    ensures errors { IfErr result (StopsWith E.errors) }
{
    let gate = Arc::new(alloc, NoGate)?;
    match Database::start(rt, alloc, blank, config, ADVANCE, &gate) {
        Ok(database) => run_in::<B, R, E>(rt, alloc, database, config, load, pace, err),
        Err(why) => Err(Stop::Refused(why)),
    }
}

// The same on the database, which it closes.
fn run_in<
    B: ClusterName + Send + Sync + 'static,
    R: Threads + Wait + Clock + Copy + Send + Sync + 'static,
    E: Sink,
>(
    rt: &R,
    alloc: Global,
    database: Database<B>,
    config: &Config,
    load: &Load,
    pace: Pace,
    err: &mut E,
) -> Result<Report, Stop>
    requires config { config.now ≡ B.config }
    ensures report { IfOk result (IsReportOf load.now.workload (load.now.clients * load.now.txns)) }
    ensures errors { IfErr result (StopsWith E.errors) }
{
    let mut database = database;
    let ran = run_clients(rt, alloc, &mut database, load, pace, err);
    let record = database.close(rt);
    match ran {
        Ok(ran) => judge_closed(alloc, config, load, &ran, record),
        Err(stop) => Err(stop),
    }
}

// What came of the run, if the database gave its record.
fn judge_closed<B: ClusterName>(
    alloc: Global,
    config: &Config,
    load: &Load,
    ran: &(Spot, Played),
    record: Result<Record<B>, Refusal>,
) -> Result<Report, Stop>
    requires config { config.now ≡ B.config }
    ensures report { IfOk result (IsReportOf load.now.workload (load.now.clients * load.now.txns)) }
    ensures errors { IfErr result (StopsWith (λ _. ⊥)) }
{
    match record {
        Ok(record) => judge_record(alloc, config, load, ran.0, &ran.1, &record),
        Err(why) => Err(Stop::Refused(why)),
    }
}

/// Sets the workload's keys up on the database, which is one of the configuration of `config_of`, runs the load's
/// clients on it and waits for them. Answers where the first transaction stands, which set the keys up, and what came
/// of the clients. Stopped where that transaction is refused, where memory runs out, where a move of keys is refused,
/// and by a write to `err` that fails, with that error. It takes O(n) time for n transactions beside what the clients
/// take.
pub fn run_clients<
    B: ClusterName + Send + Sync + 'static,
    R: Threads + Wait + Clock + Copy + Send + Sync + 'static,
    E: Sink,
>(
    rt: &R,
    alloc: Global,
    database: &mut Database<B>,
    load: &Load,
    pace: Pace,
    err: &mut E,
) -> Result<(Spot, Played), Stop>
    ensures errors { IfErr result (StopsWith E.errors) }
{
    match set_up(rt, alloc, database, load.workload) {
        Ok(first) => {
            let played = play_all(rt, alloc, database, load, pace, err)?;
            Ok((first, played))
        }
        Err(why) => Err(Stop::Refused(why)),
    }
}

// Sets the workload's keys up, in a session of its own.
fn set_up<B: ClusterName + Send + Sync + 'static, R: Wait>(
    rt: &R,
    alloc: Global,
    database: &mut Database<B>,
    workload: Workload,
) -> Result<Spot, Refusal> {
    match database.session(alloc) {
        Ok(mut session) => set_up_in(rt, alloc, &mut session, workload),
        Err(why) => Err(why),
    }
}

fn set_up_in<B: ClusterName, R: Wait>(
    rt: &R,
    alloc: Global,
    session: &mut Session<B>,
    workload: Workload,
) -> Result<Spot, Refusal> {
    session.begin(rt, alloc)?;
    workload.set_up(alloc, session)?;
    match session.commit(rt, alloc) {
        Ok(receipt) => Ok(receipt.spot()),
        Err(refused) => Err(refused.why),
    }
}

// Starts all clients, watches them, and waits for their ends. Where not all of them could be started, those that were
// end by themselves.
fn play_all<
    B: ClusterName + Send + Sync + 'static,
    R: Threads + Wait + Clock + Copy + Send + Sync + 'static,
    E: Sink,
>(
    rt: &R,
    alloc: Global,
    database: &mut Database<B>,
    load: &Load,
    pace: Pace,
    err: &mut E,
) -> Result<Played, Stop>
    ensures errors { IfErr result (StopsWith E.errors) }
{
    let tally = Arc::new(alloc, Tally::new())?;
    let mut clients: Vec<Client> = Vec::new(alloc);
    let share = Share {
        number: 0,
        txns: load.txns,
        workload: load.workload,
    };
    let started = start(
        rt,
        alloc,
        database,
        load.clients,
        share,
        &tally,
        &mut clients,
    );
    let run = Run {
        clients: clients.len() as u64,
        txns: txns_of(load),
        workload: load.workload,
        resolvers: load.resolvers,
        pace,
        progress: load.progress,
    };
    let watched = watch(rt, alloc, database, &run, &tally, err);
    let mut played = join(rt, alloc, clients);
    if let Err(why) = started {
        played.note_ended(why);
    }
    if load.progress {
        played.hot.tell(err)?;
    }
    match watched {
        Ok(()) => Ok(played),
        Err(stop) => Err(stop),
    }
}

// How many transactions all clients try.
fn txns_of(load: &Load) -> u64
    ensures { result ≡ load.now.clients * load.now.txns }
{
    u64::from(load.clients) * u64::from(load.txns)
}

// What the record shows of the run, where no client ended by a refusal.
fn judge_record<B: ClusterName>(
    alloc: Global,
    config: &Config,
    load: &Load,
    first: Spot,
    played: &Played,
    record: &Record<B>,
) -> Result<Report, Stop>
    requires config { config.now ≡ B.config }
    ensures report { IfOk result (IsReportOf load.now.workload (load.now.clients * load.now.txns)) }
    ensures errors { IfErr result (StopsWith (λ _. ⊥)) }
{
    if let Some(why) = played.refused {
        return Err(Stop::Refused(why));
    }
    let asked = Asked {
        txns: txns_of(load),
        workload: load.workload,
        first,
    };
    match judge_kept(alloc, config, &asked, played, record) {
        Ok(report) => Ok(report),
        Err(why) => Err(Stop::Refused(why)),
    }
}

fn judge_kept<B: ClusterName>(
    alloc: Global,
    config: &Config,
    asked: &Asked,
    played: &Played,
    record: &Record<B>,
) -> Result<Report, Refusal>
    requires config { config.now ≡ B.config }
    ensures report { IfOk result (IsReportOf asked.now.workload asked.now.txns) }
{
    config.check()?;
    let entries = record.front().entries()?;
    let kept = Kept {
        config,
        entries: entries.as_slice(),
        committed: record.committed(),
        pairs: record.pairs(),
    };
    judge(alloc, asked, played, &kept)
}
