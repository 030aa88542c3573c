//! What is asked of a simulation, and its run up to what is printed.
ghost use Rattle.std.specs.Prelude.{◌≡◌, ◌≤◌, List, ℕ, IfOk, IfErr};
ghost use Rattle.std.specs.Io.KnownBytes.{Appends};
ghost use Rattle.fdb_keys.specs.declared.refusal.Refusal.TheVariants.{NoMemory};
ghost use Rattle.fdb_simulate.specs.Reports.{SimulationPrints};

use crate::plan::Plan;
use crate::report::{Report, print_report};
use crate::sim::{key_of, simulate};
use crate::tally::Tally;
use fdb_book::Blank;
use fdb_keys::{Items, Key, Refusal};
use fdb_print::{Sink, Stop, print_stop};
use fdb_proxy::Config;
use fdb_txn::WINDOW;
use rand_core::Rng;
use rand_pcg::Pcg32;
use std::alloc::Global;
use std::io;
use std::marker::Brand;

const LOGS: u32 = 2;

const SHARDS: u32 = 3;

// How many keys there are at least.
const LEAST_KEYS: u32 = 8;

// How far versions are apart in most plans, of which 5,000 lie in the greatest window, and in some, of which 2 do.
const NEAR: u64 = 1_000;

const FAR: u64 = WINDOW / 2;

/// What is simulated. The same gives the same line.
#[derive(Clone, Copy)]
pub struct Simulation {
    /// What the order of the acts is drawn from, and what fails when.
    pub seed: u64,
    /// How many acts are drawn, 1 to 1,000,000.
    pub steps: u32,
    /// How many clients there are, 1 to 64.
    pub clients: u32,
    /// How many resolvers there are, 1 to 64.
    pub resolvers: u32,
    /// How many proxies of each kind there are, 1 to 16.
    pub proxies: u32,
}

// A number below the count, 0 where that is 0.
fn below(random: &mut Pcg32, count: u32) -> u32 {
    random.next_u32().checked_rem(count).unwrap_or(0)
}

// One of the steps, in one of so many plans.
fn step_in(random: &mut Pcg32, plans: u32, steps: u32) -> Option<u64> {
    let is_due = below(random, plans) == 0;
    let step = below(random, steps);
    if is_due { Some(u64::from(step)) } else { None }
}

// How many keys there are: enough for each resolver to have one.
fn keys_of(asked: &Simulation) -> u8 {
    u8::try_from(asked.resolvers.max(LEAST_KEYS)).unwrap_or(u8::MAX)
}

// What is drawn: in every second plan that a role fails, in every third that the database is closed, and in every
// fourth that versions are so far apart that few lie in the greatest window.
fn plan_of(asked: &Simulation, random: &mut Pcg32) -> Plan {
    let fails_at = step_in(random, 2, asked.steps);
    let closes_at = step_in(random, 3, asked.steps);
    let advance = if below(random, 4) == 0 { FAR } else { NEAR };
    Plan {
        seed: asked.seed,
        steps: u64::from(asked.steps),
        clients: asked.clients,
        keys: keys_of(asked),
        advance,
        fails_at,
        closes_at,
    }
}

// How many entries the book may have: more than so many acts make, but few in every eighth plan.
fn book_of(asked: &Simulation, random: &mut Pcg32) -> u32 {
    if below(random, 8) == 0 {
        (asked.steps / 256).saturating_add(1)
    } else {
        (asked.steps / 8).saturating_add(64)
    }
}

// The keys that divide all keys of the play into so many pieces. Refused only as `NoMemory`.
fn even_splits(alloc: Global, keys: u8, pieces: u32) -> Result<Items<Key>, Refusal>
    ensures { IfErr result (λ why. why ≡ NoMemory) }
{
    let mut splits = Items::new(alloc);
    for piece in 1..pieces {
        splits.push(key_of(alloc, begin_of(keys, piece, pieces))?)?;
    }
    Ok(splits)
}

// The number of the key at which the piece begins.
fn begin_of(keys: u8, piece: u32, pieces: u32) -> u8 {
    let scaled = u64::from(piece).saturating_mul(u64::from(keys));
    let at = scaled.checked_div(u64::from(pieces)).unwrap_or(0);
    u8::try_from(at).unwrap_or(keys)
}

// The configuration with so many entries. Refused only as `NoMemory`.
fn config_of(alloc: Global, asked: &Simulation, book: u32) -> Result<Config, Refusal>
    ensures { IfErr result (λ why. why ≡ NoMemory) }
{
    let keys = keys_of(asked);
    let resolver_splits = even_splits(alloc, keys, asked.resolvers)?;
    let shard_splits = even_splits(alloc, keys, SHARDS)?;
    Ok(Config {
        proxies: asked.proxies,
        logs: LOGS,
        resolver_splits,
        shard_splits,
        book,
    })
}

// What comes of it. Refused as `simulate` is, and where there is no memory for the cells of the book.
fn run(alloc: Global, asked: &Simulation) -> Result<Tally, Refusal> {
    let mut random = Pcg32::new(asked.seed, 2);
    let plan = plan_of(asked, &mut random);
    let book = book_of(asked, &mut random);
    let config = config_of(alloc, asked, book)?;
    let blank = Blank::new(alloc, book)?;
    simulate::<Brand>(alloc, blank, &config, &plan)
}

/// Simulates a database with two logs and three shards, and prints a line of JSON: how many transactions were
/// acknowledged, turned down, refused and left unknown, how many entries the book has, and whether all is right, as
/// `Tally::is_right` says. What fails when, whether and when the database is closed, how far versions are apart and how
/// many entries the book may have are drawn from the seed, too. Answers 0 where all is right, and else 1.
///
/// Where memory runs out, and where the numbers give no legal configuration, it prints `refused` with the refusal's
/// number and name instead, and answers 2. A write that fails is answered as that error, and no other error is. It
/// takes O(a log a) time for a acts.
pub fn run_simulation<O: Sink>(
    alloc: Global,
    asked: &Simulation,
    out: &mut O,
) -> Result<u8, io::Error>
    ensures bound { IfOk result (λ status. status ≤ 2) }
    ensures printed { IfOk result (λ status. (printed : List ℕ) × SimulationPrints asked.now printed status
        × Appends (O.contents out.old) (O.contents out.new) printed) }
    ensures errors { IfErr result O.errors }
{
    match run(alloc, asked) {
        Ok(tally) => {
            let report = Report {
                asked: *asked,
                tally,
            };
            print_report(alloc, &report, out)
        }
        Err(why) => print_stop(Stop::Refused(why), out),
    }
}
