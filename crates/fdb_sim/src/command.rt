ghost use Rattle.std.specs.Prelude.{◌≡◌, ◌≤◌, IfOk, IfErr, OnOk, map};
ghost use Rattle.std.specs.Io.KnownBytes.{Appends};
ghost use Rattle.clap.specs.Words.{kind_of};
ghost use Rattle.fdb_print.specs.Streams.{IsLimitedError, IsStreamError};
ghost use Rattle.fdb_play.specs.random.Reports.{RunPrints};
ghost use Rattle.fdb_play.specs.play.Scripts.{Printed};
ghost use Rattle.fdb_sim.specs.Commands.{EndsBy, LackMemory, Obeys, out_of_memory};

mod drawing;
mod options;
mod task;

use self::drawing::draw_run;
use self::task::{Schedule, Task, read_task};
use clap::Error;
use clap::error::ErrorKind;
use fdb_load::run_threads;
use fdb_play::{Sink, Source, run_random, run_script_with_hints};
use fdb_simulate::run_simulation;
use std::alloc::Global;
use std::io;
use std::sync::Wait;
use std::thread::Threads;
use std::time::Clock;

/// The status of words that give no command, and where memory runs out.
const FAULT: u8 = 2;

/// The status of words that ask for help.
const HELPED: u8 = 0;

/// Runs the command that the words give, which are those after the program's own name, and answers the
/// status. `run` runs the script that the reader gives, `draw` draws that run, `random` runs steps that are drawn from
/// a seed, `threads` clients of a database in threads, and `simulate` clients of such a database in one thread; each
/// prints to `out`. How far `random` and `threads` are goes to `err` where it is asked for, and so does what a line of
/// a script that is run may be meant for, where it is none, and what one that comes too early waits for.
///
/// Words that ask for help or for the version print it to `out`, with status 0. Others that give no command print what
/// is wrong with them to `err`, with status 2 and nothing on `out`. Where memory runs out while they are read, or for a
/// picture, it does so too, and prints `error: out of memory`. A read or a write that fails is answered as that error,
/// and no other error is. Of what `draw` prints nothing is said.
pub fn run_words<
    R: Threads + Wait + Clock + Copy + Send + Sync + 'static,
    I: Source,
    O: Sink,
    E: Sink,
>(
    rt: &R,
    alloc: Global,
    words: &[&str],
    reader: &mut I,
    out: &mut O,
    err: &mut E,
) -> Result<u8, io::Error>
    ensures bound { IfOk result (λ status. status ≤ 2) }
    ensures obeys { IfOk result
        (λ status. Obeys (map (λ word. word.now) words.now) (I.remaining reader.old) (O.contents out.old)
        (O.contents out.new) (E.contents err.old) (E.contents err.new) status) }
    ensures errors { IfErr result
        (IsStreamError (IsLimitedError I.errors) (IsStreamError O.errors E.errors)) }
{
    match read_task(alloc, words) {
        Ok(Task::Run) => run_script_with_hints(alloc, reader, out, err),
        Ok(Task::Draw) => draw_run(alloc, reader, out, err),
        Ok(Task::Random(schedule)) => run_drawn(rt, alloc, &schedule, out, err),
        Ok(Task::Threads(load)) => run_threads(rt, alloc, &load, out, err),
        Ok(Task::Simulate(asked)) => run_simulation(alloc, &asked, out),
        Err(fault) => print_fault(&fault, out, err),
    }
}

// Takes drawn steps, and tells how many are done where that is asked for.
fn run_drawn<R: Clock, O: Sink, E: Sink>(
    rt: &R,
    alloc: Global,
    schedule: &Schedule,
    out: &mut O,
    err: &mut E,
) -> Result<u8, io::Error>
    ensures bound { IfOk result (λ status. status ≤ 2) }
    ensures printed { IfOk result (λ status. Printed (O.contents out.old) (O.contents out.new)
        (λ printed. RunPrints schedule.now.steps printed status)) }
    ensures errors { IfErr result (IsStreamError O.errors E.errors) }
{
    let clock = if schedule.progress { Some(rt) } else { None };
    run_random(alloc, schedule.seed, schedule.steps, clock, out, err)
}

// Prints a fault to where it belongs. Help is none of the words' faults, and goes to the output.
fn print_fault<O: Sink, E: Sink>(fault: &Error, out: &mut O, err: &mut E) -> Result<u8, io::Error>
    ensures bound { IfOk result (λ status. status ≤ 2) }
    ensures ends { IfOk result
        (λ status. EndsBy (kind_of fault.now) (O.contents out.old) (O.contents out.new) status) }
    ensures memory { IfOk result
        (λ status. kind_of fault.now ≡ ErrorKind.OutOfMemory
        → LackMemory (O.contents out.old) (O.contents out.new) (E.contents err.old) (E.contents err.new) status) }
    ensures errors { IfErr result (IsStreamError O.errors E.errors) }
{
    if let ErrorKind::OutOfMemory = fault.kind() {
        return print_out_of_memory(err);
    }
    if fault.use_stderr() {
        write!(err, "{fault}")?;
        Ok(FAULT)
    } else {
        write!(out, "{fault}")?;
        Ok(HELPED)
    }
}

// Prints that memory ran out, and answers the status of that.
fn print_out_of_memory<E: Sink>(err: &mut E) -> Result<u8, io::Error>
    ensures status { IfOk result (λ status. status ≡ 2) }
    ensures printed { OnOk result (Appends (E.contents err.old) (E.contents err.new) out_of_memory) }
    ensures errors { IfErr result E.errors }
{
    writeln!(err, "error: out of memory")?;
    Ok(FAULT)
}
