//! What the words of a command line ask for.
ghost use Rattle.std.specs.Prelude.{◌≡◌, codes, map};
ghost use Rattle.std.specs.Option.{option_map_or};
ghost use Rattle.clap.specs.Words.{first_value, found_of, rows_of, subcommand_rows_of};
ghost use Rattle.fdb_load.specs.declared.workload.Workload.TheVariants.{Ring};
ghost use Rattle.fdb_sim.specs.command.Tasks.{Asks, HasLoad, HasSchedule, HasSimulation, IsAsked, ReadsNumber};
ghost use Rattle.fdb_sim.specs.command.Tasks.{workload_called};

use super::options::commands;
use clap::{ArgMatches, Error};
use fdb_load::{Load, Workload};
use fdb_simulate::Simulation;
use std::alloc::Global;

/// Which steps are drawn.
#[derive(Clone, Copy)]
pub(crate) struct Schedule {
    pub(crate) seed: u64,
    /// How many steps there are, 1 to 1,000,000.
    pub(crate) steps: u32,
    /// Whether it is told on the standard error, about once a second, how many are done.
    pub(crate) progress: bool,
}

/// What the words ask for.
#[derive(Clone, Copy)]
pub(crate) enum Task {
    /// To run the script on standard input.
    Run,
    /// To draw the run of the script on standard input.
    Draw,
    /// To run steps that are drawn from a seed.
    Random(Schedule),
    /// To run clients in threads.
    Threads(Load),
    /// To run clients in one thread, by an order that is drawn.
    Simulate(Simulation),
}

/// Reads the words.
pub(crate) fn read_task<'a>(alloc: Global, words: &'a [&'a str]) -> Result<Task, Error>
    ensures { Asks (map (λ word. word.now) words.entry.now) result }
{
    let command = commands(alloc)?;
    let matches = command.try_get_matches_from(words)?;
    Ok(task_of(&matches))
}

// What the matches ask for, of which a command is required.
fn task_of(matches: &ArgMatches<'_>) -> Task
    ensures { IsAsked (subcommand_rows_of matches.now) result }
{
    match matches.subcommand() {
        Some(("draw", _)) => Task::Draw,
        Some(("random", below)) => Task::Random(schedule_of(below)),
        Some(("threads", below)) => Task::Threads(load_of(below)),
        Some(("simulate", below)) => Task::Simulate(simulation_of(below)),
        _ => Task::Run,
    }
}

fn schedule_of(matches: &ArgMatches<'_>) -> Schedule
    ensures { HasSchedule (rows_of (found_of matches.now)) result }
{
    Schedule {
        seed: matches.get_one::<u64>("seed").unwrap_or(1),
        steps: number_of(matches, "steps"),
        progress: matches.get_flag("progress"),
    }
}

fn load_of(matches: &ArgMatches<'_>) -> Load
    ensures { HasLoad (rows_of (found_of matches.now)) result }
{
    Load {
        clients: number_of(matches, "clients"),
        txns: number_of(matches, "txns"),
        resolvers: number_of(matches, "resolvers"),
        proxies: number_of(matches, "proxies"),
        workload: workload_of(matches),
        progress: matches.get_flag("progress"),
    }
}

fn simulation_of(matches: &ArgMatches<'_>) -> Simulation
    ensures { HasSimulation (rows_of (found_of matches.now)) result }
{
    Simulation {
        seed: matches.get_one::<u64>("seed").unwrap_or(1),
        steps: number_of(matches, "steps"),
        clients: number_of(matches, "clients"),
        resolvers: number_of(matches, "resolvers"),
        proxies: number_of(matches, "proxies"),
    }
}

// The number that an option has, which has one always, and 1 where it had none.
fn number_of(matches: &ArgMatches<'_>, name: &str) -> u32
    ensures { ReadsNumber name.now (rows_of (found_of matches.now)) result }
{
    matches.get_one::<u32>(name).unwrap_or(1)
}

// The workload that is named, which one always is, and the ring where none were.
fn workload_of(matches: &ArgMatches<'_>) -> Workload
    ensures { result ≡ option_map_or workload_called (first_value (found_of matches.now) (codes "workload")) Ring }
{
    match matches.get_str("workload") {
        Some(name) => workload_called(name),
        None => Workload::Ring,
    }
}

fn workload_called(name: &str) -> Workload
    ensures { result ≡ workload_called name.now }
{
    if name == "transfers" {
        Workload::Transfers
    } else if name == "counters" {
        Workload::Counters
    } else {
        Workload::Ring
    }
}
