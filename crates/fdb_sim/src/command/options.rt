//! The words that the program takes: its commands, with their options.
ghost use Rattle.std.specs.Prelude.{◌≡◌, IfOk, IfErr, codes, true, false};
ghost use Rattle.clap.specs.Words.{app_of, kind_of, rule_of, with_rule, with_subcommand};
ghost use Rattle.fdb_sim.specs.command.Options.{AreCommands, IsWorkloadParser, flag, option};
ghost use Rattle.fdb_sim.specs.command.Options.{draw_command, random_command, run_command, simulate_command};
ghost use Rattle.fdb_sim.specs.command.Options.{threads_command};
ghost use Rattle.fdb_sim.specs.command.Options.{with_roles, with_schedule, with_sizes};

use clap::builder::ValueParser;
use clap::error::ErrorKind;
use clap::{Arg, ArgAction, Command, Error, value_parser};
use std::alloc::Global;

/// The names of the workloads, as the words have them.
static WORKLOADS: [&str; 3] = ["ring", "transfers", "counters"];

/// What `--version` prints behind the program's name.
const VERSION: &str = "0.1.0";

const RUN_HELP: &str =
    "The lines, of which the first is `config`; empty ones and those that begin with # say nothing:
  config proxies N logs N resolvers SPLITS shards SPLITS book N
  ask S P, grant P                                 session S begins a transaction by read-version proxy P
  get S K, range S B E LIMIT [reverse]             it reads; by sget and srange it reads a snapshot
  write S set K X, write S clear K, write S clearrange B E, write S stamped K X OFFSET
  write S OP K X                                   OP is add, and, or, xor, max, min, bytemin, bytemax or cac
  addread S B E, addwrite S B E                    it adds a range to its read set or its write set
  submit S P                                       it asks commit proxy P to commit
  seal P A, resolve I R, verdict I R, decide P, push I L, logged I L, report P, answer P
                                                   the batch of P becomes entry I, A versions behind the last one;
                                                   resolver R and log L take their parts of it
  drive P                                          all of these at once, from `resolve` on
  pull H N, forget H V, pop H                      shard H applies, forgets and drops
  move B E R, window W                             keys go over to resolver R; the window changes
  show S, conflict S                               print the sets of a session's transaction
Keys and values are letters, digits, '.', '_' and '/', or bytes as %00; % alone is the empty one.";

const RANDOM_HELP: &str = "The line's keys:
  aborted       transactions that were in conflict or too old
  acknowledged  transactions that were told their spot
  checked       transactions that the check at the end compared
  mode          random
  ok            whether the check found no difference
  refused       steps that were refused
  steps         steps that were taken";

const THREADS_HELP: &str = "The workloads:
  ring       32 keys hold each other's names as one cycle; a transaction reads three of them in turn and swaps two.
             At the end the cycle still has 32 keys
  transfers  32 accounts with 1,000 each; a transaction reads two and moves up to 10. At the end the sum is 32,000
  counters   4 keys; a transaction adds 1 to one without reading it. At the end the sum is the number of commits

The line's keys:
  aborted       transactions that were in conflict or too old
  acknowledged  transactions that were committed
  checked       transcripts that were compared with a run of one transaction at a time
  entries       batches in the book
  mode          threads
  ok            whether all checks held
  unknown       transactions of which it isn't known whether they committed
  workload      which one ran";

const SIMULATE_HELP: &str = "A failing role, the end in the middle and a short book are drawn, too.

The line's keys:
  aborted       transactions that were in conflict or too old
  acknowledged  transactions that were committed
  checked       transcripts that were compared with a run of one transaction at a time
  early         read versions below what was acknowledged before they were asked for
  entries       batches in the book
  found         transactions in the book that were refused as having no effect
  mode          simulate
  ok            whether nothing was early, found or unexplained, nobody waits, all that was acknowledged was compared,
                and there is a record
  recorded      whether the shards gave a record, or one of them failed
  refused       transactions that were refused otherwise
  seed          the seed
  steps         the acts that were drawn
  unexplained   answers that nothing that was drawn explains
  unknown       transactions of which it isn't known whether they committed
  waiting       clients that wait though nothing is on its way";

/// The program's commands.
pub(super) fn commands<'a>(alloc: Global) -> Result<Command<'a>, Error>
    ensures ok { IfOk result (λ command. AreCommands (app_of command)) }
    ensures err { IfErr result (λ fault. kind_of fault ≡ ErrorKind.OutOfMemory) }
{
    let command = Command::new(alloc, "fdb_sim")
        .about("Runs steps of a transaction system and prints what each answers")
        .version(VERSION)
        .no_binary_name(true)
        .subcommand_required(true);
    let command = with_command(command, run_command(alloc))?;
    let command = with_command(command, draw_command(alloc))?;
    let command = with_command(command, random_command(alloc)?)?;
    let command = with_command(command, threads_command(alloc)?)?;
    with_command(command, simulate_command(alloc)?)
}

fn run_command<'a>(alloc: Global) -> Command<'a>
    ensures { app_of result ≡ run_command }
{
    Command::new(alloc, "run")
        .about("Runs the script on standard input")
        .override_usage("fdb_sim run")
        .after_help(RUN_HELP)
}

fn draw_command<'a>(alloc: Global) -> Command<'a>
    ensures { app_of result ≡ draw_command }
{
    Command::new(alloc, "draw")
        .about("Draws the run of the script on standard input, as SVG")
        .override_usage("fdb_sim draw")
}

fn random_command<'a>(alloc: Global) -> Result<Command<'a>, Error>
    ensures ok { IfOk result (λ command. app_of command ≡ random_command) }
    ensures err { IfErr result (λ fault. kind_of fault ≡ ErrorKind.OutOfMemory) }
{
    let command = Command::new(alloc, "random")
        .about("Runs steps that are drawn from a seed, and prints a line of JSON")
        .override_usage("fdb_sim random [OPTIONS]")
        .after_help(RANDOM_HELP);
    let command = with_schedule(alloc, command)?;
    with_argument(command, progress(alloc))
}

// Which steps are drawn, and how many.
fn with_schedule<'a>(alloc: Global, command: Command<'a>) -> Result<Command<'a>, Error>
    ensures ok { IfOk result (λ r. app_of r ≡ with_schedule (app_of command.entry)) }
    ensures err { IfErr result (λ fault. kind_of fault ≡ ErrorKind.OutOfMemory) }
{
    let seed = option(alloc, "seed", "1", value_parser!(u64)).help("Which steps are drawn");
    let command = with_argument(command, seed)?;
    let steps = option(
        alloc,
        "steps",
        "10000",
        value_parser!(u32).range(1..=1_000_000),
    )
    .help("How many steps are drawn");
    with_argument(command, steps)
}

fn threads_command<'a>(alloc: Global) -> Result<Command<'a>, Error>
    ensures ok { IfOk result (λ command. (workloads : _) × IsWorkloadParser workloads
        × (app_of command ≡ threads_command workloads)) }
    ensures err { IfErr result (λ fault. kind_of fault ≡ ErrorKind.OutOfMemory) }
{
    let command = Command::new(alloc, "threads")
        .about("Runs clients in threads, checks what they did, and prints a line of JSON")
        .override_usage("fdb_sim threads [OPTIONS]")
        .after_help(THREADS_HELP);
    let command = with_sizes(alloc, command)?;
    let workload = option(alloc, "workload", "ring", workload_parser()).help(
        "What a transaction does",
    );
    let command = with_argument(command, workload)?;
    with_argument(command, progress(alloc))
}

// How much there is of what.
fn with_sizes<'a>(alloc: Global, command: Command<'a>) -> Result<Command<'a>, Error>
    ensures ok { IfOk result (λ r. app_of r ≡ with_sizes (app_of command.entry)) }
    ensures err { IfErr result (λ fault. kind_of fault ≡ ErrorKind.OutOfMemory) }
{
    let clients = option(alloc, "clients", "4", value_parser!(u32).range(1..=64)).help(
        "How many clients there are",
    );
    let command = with_argument(command, clients)?;
    let txns = option(alloc, "txns", "100", value_parser!(u32).range(1..=10_000)).help(
        "How many transactions each client tries",
    );
    let command = with_argument(command, txns)?;
    with_roles(alloc, command)
}

fn simulate_command<'a>(alloc: Global) -> Result<Command<'a>, Error>
    ensures ok { IfOk result (λ command. app_of command ≡ simulate_command) }
    ensures err { IfErr result (λ fault. kind_of fault ≡ ErrorKind.OutOfMemory) }
{
    let command = Command::new(alloc, "simulate")
        .about(
            "Runs clients and roles in one thread by a seed, checks them, and prints a line of JSON",
        )
        .override_usage("fdb_sim simulate [OPTIONS]")
        .after_help(SIMULATE_HELP);
    let command = with_schedule(alloc, command)?;
    let clients = option(alloc, "clients", "8", value_parser!(u32).range(1..=64)).help(
        "How many clients there are",
    );
    let command = with_argument(command, clients)?;
    with_roles(alloc, command)
}

// How many resolvers and proxies there are.
fn with_roles<'a>(alloc: Global, command: Command<'a>) -> Result<Command<'a>, Error>
    ensures ok { IfOk result (λ r. app_of r ≡ with_roles (app_of command.entry)) }
    ensures err { IfErr result (λ fault. kind_of fault ≡ ErrorKind.OutOfMemory) }
{
    let resolvers = option(alloc, "resolvers", "2", value_parser!(u32).range(1..=64)).help(
        "How many resolvers there are",
    );
    let command = with_argument(command, resolvers)?;
    let proxies = option(alloc, "proxies", "2", value_parser!(u32).range(1..=16)).help(
        "How many proxies of either kind there are",
    );
    with_argument(command, proxies)
}

// The command with one argument more.
fn with_argument<'a>(command: Command<'a>, argument: Arg<'a>) -> Result<Command<'a>, Error>
    requires { argument.global ≡ false }
    ensures ok { IfOk result (λ r. app_of r ≡ with_rule (app_of command.entry) (rule_of argument.entry)) }
    ensures err { IfErr result (λ fault. kind_of fault ≡ ErrorKind.OutOfMemory) }
{
    Ok(command.arg(argument)?)
}

// The command with one subcommand more.
fn with_command<'a>(command: Command<'a>, below: Command<'a>) -> Result<Command<'a>, Error>
    requires { (app_of below).top.is_plain ≡ true }
    ensures ok { IfOk result (λ r. app_of r ≡ with_subcommand (app_of command.entry) (app_of below.entry).top) }
    ensures err { IfErr result (λ fault. kind_of fault ≡ ErrorKind.OutOfMemory) }
{
    Ok(command.subcommand(below)?)
}

fn workload_parser<'a>() -> ValueParser<'a>
    ensures { IsWorkloadParser result }
{
    ValueParser::Names(WORKLOADS.as_slice())
}

// An option that has a value, by its long name.
fn option<'a>(alloc: Global, name: &'a str, value: &'a str, parser: ValueParser<'a>) -> Arg<'a>
    ensures rule { rule_of result ≡ option name.entry.now value.entry.now parser.entry }
    ensures local { result.global ≡ false }
{
    Arg::new(alloc, name)
        .long(name)
        .value_name("VALUE")
        .default_value(value)
        .value_parser(parser)
}

// Whether it is told on the standard error how far the run is.
fn progress<'a>(alloc: Global) -> Arg<'a>
    ensures rule { rule_of result ≡ flag (codes "progress") }
    ensures local { result.global ≡ false }
{
    Arg::new(alloc, "progress")
        .long("progress")
        .action(ArgAction::SetTrue)
        .help("Tells on the standard error about once a second how far the run is")
}
