//! The simulator of the transaction system: `fdb_sim run` runs a script of steps, and prints what each step answers,
//! `fdb_sim draw` draws that run, `fdb_sim random` runs steps that are drawn from a seed, `fdb_sim threads` clients of
//! a database in threads, and `fdb_sim simulate` clients of such a database in one thread, in an order that is drawn
//! from a seed.
#![tactic(auto)]

ghost use Rattle.std.specs.Prelude.{◌≡◌, ◌≤◌, IfOk};
ghost use Rattle.std.specs.Process.{exit_status};
ghost use Rattle.fdb_sim.specs.Commands.{status_of};

mod command;
#[cfg(test)]
mod tests;

use crate::command::run_words;
use std::alloc::Global;
use std::io::{LineWriter, Write};
use std::process::ExitCode;
use std::sync::Wait;
use std::thread::Threads;
use std::time::Clock;
use std::{env, io};

/// The status where the input, the output or the words fail.
const FAULT: u8 = 2;

fn main(rt: HostRuntime) -> ExitCode {
    run_process(&rt, &rt)
}

// Runs the process's words, with what threads are started and waited for by, and says on the standard error what it
// failed on.
fn run_process<R: Threads + Wait + Clock + Copy + Send + Sync + 'static>(
    rt: &HostRuntime,
    threads: &R,
) -> ExitCode
    ensures { exit_status result ≤ 2 }
{
    let ended = run(rt, threads);
    if let Err(error) = &ended {
        let _ = eprintln!(rt; "fdb_sim: {error}");
    }
    exit_code(&ended)
}

// The status that the process ends with: the script's own one, or that of a fault.
fn exit_code(ended: &io::Result<u8>) -> ExitCode
    ensures { exit_status result ≡ status_of ended.now }
{
    match ended {
        Ok(status) => ExitCode::from(*status),
        Err(_error) => ExitCode::from(FAULT),
    }
}

// Runs the process's own words over its standard streams.
fn run<R: Threads + Wait + Clock + Copy + Send + Sync + 'static>(
    rt: &HostRuntime,
    threads: &R,
) -> io::Result<u8>
    ensures { IfOk result (λ status. status ≤ 2) }
{
    let alloc = rt.alloc();
    let args: Vec<String> = env::args(rt)?.skip(1).collect(alloc)?;
    let words: Vec<&str> = args.iter().map(|word| word.as_str()).collect(alloc)?;
    run_over_streams(rt, threads, alloc, words.as_slice())
}

// Runs the words over the process's standard streams. What was printed before an error is flushed.
fn run_over_streams<R: Threads + Wait + Clock + Copy + Send + Sync + 'static>(
    rt: &HostRuntime,
    threads: &R,
    alloc: Global,
    words: &[&str],
) -> io::Result<u8>
    ensures { IfOk result (λ status. status ≤ 2) }
{
    let mut input = rt.stdin();
    // Who types a script, or waits for an answer before the next line, is answered line by line.
    let mut out = LineWriter::new(alloc, rt.stdout())?;
    let mut err = rt.stderr();
    let ended = run_words(threads, alloc, words, &mut input, &mut out, &mut err);
    let flushed = out.flush();
    let status = ended?;
    flushed?;
    Ok(status)
}
