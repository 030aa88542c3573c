//! Steps that are drawn from a seed, and taken by a world of two proxies of each kind, two resolvers, two logs and two
//! shards.
ghost use Rattle.std.specs.Prelude.{◌≡◌, ◌≤◌, ◌⊎◌, [], ◌∷◌, length, codes, Some, IfOk, IfErr, OnOk};
ghost use Rattle.fdb_machine.specs.machine.Worlds.{first_state};
ghost use Rattle.fdb_play.specs.random.Reports.{EndsWith, IsEnded, IsReportOf, ReportPrints, RunPrints};
ghost use Rattle.fdb_play.specs.random.Runs.{CountsStep, CountsSteps, drawn_config};
ghost use Rattle.fdb_print.specs.Streams.{IsStreamError};
ghost use Rattle.fdb_play.specs.declared.random.ended.Ended.TheVariants.{Io};
ghost use Rattle.fdb_play.specs.play.Scripts.{Printed};

pub mod acts;
pub mod drawing;
pub mod ended;
pub mod report;
pub mod tally;
pub mod watch;

use crate::random::acts::{SPLIT, take};
use crate::random::drawing::{Drawing, LOGS, PROXIES};
use crate::random::ended::Ended;
use crate::random::report::Report;
use crate::random::tally::Tally;
use crate::random::watch::{Nobody, Teller, Watch};
use fdb_core::{CheckFault, Config, World};
use fdb_keys::{Items, Key, Refusal};
use fdb_print::{Sink, print_refusal};
use std::alloc::Global;
use std::io;
use std::time::Clock;

/// How many entries the book has room for.
const BOOK: u32 = 1_000_000;

/// The status of a run that came to no report.
const ENDED: u8 = 2;

/// Runs so many steps that are drawn from the seed, prints the report to `out` as a line, and answers the status: 0
/// where the check at the end holds, 1 where it finds a difference, 2 where memory runs out, which is printed as a
/// refusal. The same seed and as many steps give the same report. With a clock it prints to `err` about once a second
/// how many steps are done. A write that fails is answered as that error, and no other error is. Beside the steps and
/// the check at the end it takes O(n) time for n steps.
pub fn run_random<C: Clock, O: Sink, E: Sink>(
    alloc: Global,
    seed: u64,
    steps: u32,
    clock: Option<&C>,
    out: &mut O,
    err: &mut E,
) -> Result<u8, io::Error>
    ensures bound { IfOk result (λ status. status ≤ 2) }
    ensures printed { IfOk result (λ status. Printed (O.contents out.old) (O.contents out.new)
        (λ printed. RunPrints steps printed status)) }
    ensures errors { IfErr result (IsStreamError O.errors E.errors) }
{
    match run_told(alloc, seed, steps, clock, err) {
        Ok((_tally, report)) => print_report(alloc, report, out),
        Err(ended) => print_ended(ended, out),
    }
}

// Takes the steps, and prints how many are done where there is a clock.
fn run_told<C: Clock, E: Sink>(
    alloc: Global,
    seed: u64,
    steps: u32,
    clock: Option<&C>,
    err: &mut E,
) -> Result<(Tally, Report), Ended>
    ensures report { IfOk result (λ ran. IsReportOf steps ran.0 ran.1) }
    ensures errors { IfErr result (EndsWith E.errors) }
{
    match clock {
        Some(clock) => run_steps(alloc, seed, steps, &mut Teller::new(clock, err)),
        None => run_steps(alloc, seed, steps, &mut Nobody),
    }
}

/// Takes so many steps that are drawn from the seed in a new world, and checks it. Answers what the steps were
/// answered, each counted once, and the report of it. It ends before where memory runs out, and where telling the watch
/// fails. Beside the steps and the check it takes O(n) time for n steps.
pub fn run_steps<W: Watch>(
    alloc: Global,
    seed: u64,
    steps: u32,
    watch: &mut W,
) -> Result<(Tally, Report), Ended>
    ensures report { IfOk result (λ ran. IsReportOf steps ran.0 ran.1) }
    ensures errors { IfErr result (EndsWith W.errors) }
{
    let mut world = new_world(alloc)?;
    let ran = run_in(&mut world, alloc, seed, steps, watch);
    drop(world);
    ran
}

fn new_world(alloc: Global) -> Result<World, Refusal>
    ensures { IfOk result (λ world. world.state ≡ first_state drawn_config) }
{
    let config = config_of(alloc)?;
    World::new(alloc, config)
}

fn config_of(alloc: Global) -> Result<Config, Refusal>
    ensures { IfOk result (λ config. config ≡ drawn_config) }
{
    let resolver_splits = splits(alloc)?;
    let shard_splits = splits(alloc)?;
    Ok(Config {
        proxies: PROXIES,
        logs: LOGS,
        resolver_splits,
        shard_splits,
        book: BOOK,
    })
}

fn splits(alloc: Global) -> Result<Items<Key>, Refusal>
    ensures { IfOk result (λ splits. splits ≡ codes "k/4" ∷ []) }
{
    let key = Key::new(alloc, SPLIT)?;
    let mut splits = Items::new(alloc);
    splits.push(key)?;
    Ok(splits)
}

// Takes the steps in the world, and checks it.
fn run_in<W: Watch>(
    world: &mut World,
    alloc: Global,
    seed: u64,
    steps: u32,
    watch: &mut W,
) -> Result<(Tally, Report), Ended>
    requires { world.old.state ≡ first_state drawn_config }
    ensures report { IfOk result (λ ran. IsReportOf steps ran.0 ran.1) }
    ensures errors { IfErr result (EndsWith W.errors) }
{
    let tally = take_all(world, alloc, seed, steps, watch)?;
    let checked = check(world)?;
    let report = Report::new(&tally, steps, checked);
    Ok((tally, report))
}

fn take_all<W: Watch>(
    world: &mut World,
    alloc: Global,
    seed: u64,
    steps: u32,
    watch: &mut W,
) -> Result<Tally, Ended>
    ensures counted { IfOk result (CountsSteps steps world.old.state world.new.state) }
    ensures errors { IfErr result (EndsWith W.errors) }
{
    let mut drawing = Drawing::new(seed);
    let mut tally = Tally::new();
    for done in 0..steps {
        watch.tell(done, steps)?;
        take_one(world, alloc, &mut drawing, &mut tally)?;
    }
    Ok(tally)
}

// Takes the next step, and notes what it is answered. Fails only where memory runs out.
fn take_one(
    world: &mut World,
    alloc: Global,
    drawing: &mut Drawing,
    tally: &mut Tally,
) -> Result<(), Refusal>
    ensures { OnOk result (CountsStep world.old.state tally.old world.new.state tally.new) }
{
    let act = drawing.draw(world);
    let answer = take(world, alloc, act);
    drawing.note(&answer);
    tally.note(act, &answer);
    let has_run_out = matches!(answer, Err(Refusal::NoMemory));
    drop(answer);
    if has_run_out {
        Err(Refusal::NoMemory)
    } else {
        Ok(())
    }
}

// How many transactions were compared. There is no difference, as long as memory didn't run out. Fails only where it
// does now.
fn check(world: &World) -> Result<Option<u64>, Refusal>
    ensures { IfOk result (λ checked. checked ≡ Some (length world.now.state.machine.acknowledged)) }
{
    match world.check() {
        Ok(count) => Ok(Some(count)),
        Err(CheckFault::NoMemory) => Err(Refusal::NoMemory),
        Err(CheckFault::Txn(_)) | Err(CheckFault::Shard(_)) => Ok(None),
    }
}

// Prints the report as a line, or that memory ran out for its text, and answers the status.
fn print_report<O: Sink>(alloc: Global, report: Report, out: &mut O) -> Result<u8, io::Error>
    ensures bound { IfOk result (λ status. status ≤ 2) }
    ensures printed { IfOk result (λ status. Printed (O.contents out.old) (O.contents out.new)
        (λ printed. ReportPrints report printed status)) }
    ensures errors { IfErr result O.errors }
{
    match report.text(alloc) {
        Ok(text) => {
            writeln!(out, "{text}")?;
            Ok(report.status())
        }
        Err(_error) => print_ended(Ended::Refused(Refusal::NoMemory), out),
    }
}

// Prints why the run ended before its report, and answers the status. It takes no memory. An error is answered as that
// error.
fn print_ended<O: Sink>(ended: Ended, out: &mut O) -> Result<u8, io::Error>
    ensures bound { IfOk result (λ status. status ≤ 2) }
    ensures printed { IfOk result (λ status. Printed (O.contents out.old) (O.contents out.new)
        (λ printed. IsEnded printed status)) }
    ensures errors { IfErr result (λ error. (ended ≡ Io error) ⊎ O.errors error) }
{
    match ended {
        Ended::Refused(why) => {
            print_refusal(why, out)?;
            Ok(ENDED)
        }
        Ended::Io(error) => Err(error),
    }
}
