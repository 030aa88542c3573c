// What is asked of a load, and its run up to what is printed.
ghost use Rattle.std.specs.Prelude.{◌≤◌, List, ℕ, IfOk, IfErr};
ghost use Rattle.std.specs.Io.KnownBytes.{Appends};
ghost use Rattle.fdb_print.specs.Streams.{IsStreamError};
ghost use Rattle.fdb_load.specs.Reports.{PrintsEnd};

use crate::report::print_report;
use crate::running::run_load;
use crate::watch::Pace;
use crate::workload::Workload;
use fdb_print::{Sink, print_stop};
use std::alloc::Global;
use std::io;
use std::sync::Wait;
use std::thread::Threads;
use std::time::Clock;

/// How often the main thread moves keys: seldom enough to be no part of what a run costs. 640,000 tries make fewer than
/// 7,000 moves, and a database takes 65,536.
const PACE: Pace = Pace {
    millis: 10,
    tries: 100,
};

/// What is run.
#[derive(Clone, Copy)]
pub struct Load {
    /// How many clients there are, 1 to 64.
    pub clients: u32,
    /// How many transactions each of them tries, 1 to 10,000.
    pub txns: u32,
    /// How many resolvers there are, 1 to 64.
    pub resolvers: u32,
    /// How many proxies of each kind there are, 1 to 16.
    pub proxies: u32,
    /// What each transaction does.
    pub workload: Workload,
    /// Whether it is told on the standard error, once a second, how far the clients are.
    pub progress: bool,
}

/// Runs the load on a database of its own, and prints a line of JSON: how many tries were acknowledged, how many had no
/// effect, of how many it isn't known, how many transcripts were checked, how many entries the book has, and whether
/// all checks held, as `judge` says. Answers 0 where they did, and else 1.
///
/// Where a call is refused for another reason than a conflict, it prints `refused` with the refusal's number and name
/// instead, and answers 2. A write that fails is answered as that error, and no other error is. The database is closed
/// on every path.
///
/// The checks in the end take O(n log n) time for n transactions of bounded size; how long the clients take depends on
/// their threads.
pub fn run_threads<R: Threads + Wait + Clock + Copy + Send + Sync + 'static, O: Sink, E: Sink>(
    rt: &R,
    alloc: Global,
    load: &Load,
    out: &mut O,
    err: &mut E,
) -> Result<u8, io::Error>
    ensures bound { IfOk result (λ status. status ≤ 2) }
    ensures printed { IfOk result (λ status. (printed : List ℕ) × PrintsEnd load.now printed status
        × Appends (O.contents out.old) (O.contents out.new) printed) }
    ensures errors { IfErr result (IsStreamError O.errors E.errors) }
{
    match run_load(rt, alloc, load, PACE, err) {
        Ok(report) => print_report(alloc, &report, out),
        Err(stop) => print_stop(stop, out),
    }
}
