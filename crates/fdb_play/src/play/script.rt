ghost use Rattle.std.specs.Prelude.{◌≡◌, ◌<◌, ◌≤◌, ◌++◌, ℕ, List, [], Some, None, true, false, IfOk, IfErr, OnOk};
ghost use Rattle.std.specs.Prelude.{string_bytes, codes};
ghost use Rattle.std.specs.Io.KnownBytes.{Appends};
ghost use Rattle.fdb_proxy.specs.Configs.{config_fault};
ghost use Rattle.fdb_machine.specs.machine.Worlds.{first_state};
ghost use Rattle.fdb_print.specs.Streams.{FailsWith, IsLimitedError, IsStreamError};
ghost use Rattle.fdb_play.specs.declared.script.step_line.Kind.TheVariants.{Answer};
ghost use Rattle.fdb_play.specs.print.Answers.{result_text};
ghost use Rattle.fdb_play.specs.script.Configs.{WritesConfig, line_fault};
ghost use Rattle.fdb_play.specs.script.Lines.{left, line_text, line_number};
ghost use Rattle.fdb_play.specs.play.Scripts.{is_silent, AnswersLine, PlaysOn, PlaysFrom, Plays};
ghost use Rattle.fdb_print.specs.Stops.{printed_line};
ghost use Rattle.fdb_play.specs.play.Scripts.{Unconfigured, StopsAt, Printed, Knows, Says, Reaches};

use crate::play::driving::drive;
use crate::play::showing::{push_conflict, push_shown};
use crate::print::answers::{push_refusal, push_result};
use crate::print::endings::print_check;
use crate::script::config_line::read_config;
use crate::script::fault::Fault;
use crate::script::hint::{NoHints, print_config_hint, print_line_hint, print_wait_hint};
use crate::script::line::{Line, read_line};
use crate::script::lines::Lines;
use crate::script::step_line::Kind;
use fdb_core::{Answered, Config, World};
use fdb_keys::Refusal;
use fdb_print::{Limited, Sink, Source, Stop, print_stop};
use std::alloc::{AllocError, Global};
use std::io;

/// Runs the script that the reader gives, and writes what it prints to the writer, which isn't flushed.
/// Answers the status: 0 where the check at the end held, 1 where it failed, and 2 where the script ended
/// before, by a bad line, by a refused configuration or since memory ran out. What is printed and the status
/// are said of a reader whose bytes and a writer whose contents are known, as those over memory.
///
/// A read or a write that fails is answered as that error, and what was written then is a prefix of what the script
/// prints. A read that was interrupted did not fail, and is made again. A reader that does not end is given up after
/// 2^32 reads, with an error of `ErrorKind::Other`. No other error is answered. Beside the steps and the check it
/// takes O(n) time for n bytes that are read and written.
pub fn run_script<R: Source, W: Sink>(
    alloc: Global,
    reader: &mut R,
    writer: &mut W,
) -> Result<u8, io::Error>
    ensures bound { IfOk result (λ status. status ≤ 2) }
    ensures printed { IfOk result (λ status. Printed (W.contents writer.old) (W.contents writer.new) (λ printed.
        Knows (R.remaining reader.old) (λ lines. Plays 0 lines printed status))) }
    ensures errors { IfErr result (IsStreamError (IsLimitedError R.errors) W.errors) }
{
    run_script_with_hints(alloc, reader, writer, &mut NoHints)
}

/// The same, and tells on `hints` what a line is like where one is none of the grammar, and what a line waits for that
/// is refused as `NotYet`. Whether that can be told changes nothing, and beside what `hints` takes it takes no memory.
pub fn run_script_with_hints<R: Source, W: Sink, H: Sink>(
    alloc: Global,
    reader: &mut R,
    writer: &mut W,
    hints: &mut H,
) -> Result<u8, io::Error>
    ensures bound { IfOk result (λ status. status ≤ 2) }
    ensures printed { IfOk result (λ status. Printed (W.contents writer.old) (W.contents writer.new) (λ printed.
        Knows (R.remaining reader.old) (λ lines. Plays 0 lines printed status))) }
    ensures errors { IfErr result (IsStreamError (IsLimitedError R.errors) W.errors) }
{
    let mut limited = Limited::new(reader);
    play(alloc, &mut limited, writer, hints)
}

// The same of a reader that gives itself up. It answers no error but of its reader and its writer, whatever they are.
fn play<R: Source, W: Sink, H: Sink>(
    alloc: Global,
    reader: &mut R,
    writer: &mut W,
    hints: &mut H,
) -> Result<u8, io::Error>
    ensures bound { IfOk result (λ status. status ≤ 2) }
    ensures printed { IfOk result (λ status. Printed (W.contents writer.old) (W.contents writer.new) (λ printed.
        Knows (R.remaining reader.old) (λ lines. Plays 0 lines printed status))) }
    ensures errors { IfErr result (IsStreamError R.errors W.errors) }
{
    match run_to_end(alloc, reader, writer, hints) {
        Ok(status) => Ok(status),
        Err(stop) => print_stop(stop, writer),
    }
}

fn run_to_end<R: Source, W: Sink, H: Sink>(
    alloc: Global,
    reader: &mut R,
    writer: &mut W,
    hints: &mut H,
) -> Result<u8, Stop>
    ensures bound { IfOk result (λ status. status < 2) }
    ensures printed { IfOk result (λ status. Printed (W.contents writer.old) (W.contents writer.new) (λ printed.
        Knows (R.remaining reader.old) (λ lines. Plays 0 lines printed status))) }
    ensures stops { IfErr result (λ stop. Says stop (λ last.
        Printed (W.contents writer.old) (W.contents writer.new) (λ printed.
        Knows (R.remaining reader.old) (λ lines. Plays 0 lines (printed ++ last) 2)))) }
    ensures errors { IfErr result (FailsWith (IsStreamError R.errors W.errors)) }
{
    let mut lines = Lines::new(alloc, reader)?;
    let config = config_or_hint(alloc, &mut lines, hints)?;
    let world = greet(make_world(alloc, config)?, writer)?;
    play_on(alloc, &mut lines, world, writer, hints)
}

// Prints that the configuration was taken, and gives the world back.
fn greet<W: Sink>(world: World, writer: &mut W) -> Result<World, Stop>
    ensures ok { IfOk result (λ same. same ≡ world) }
    ensures printed { OnOk result (Appends (W.contents writer.old) (W.contents writer.new)
        (printed_line (codes "ok"))) }
    ensures stops { IfErr result (λ stop. Says stop (λ _. ⊥)) }
    ensures errors { IfErr result (FailsWith W.errors) }
{
    match writer.write_all(b"ok\n") {
        Ok(()) => Ok(world),
        Err(error) => {
            drop(world);
            Err(Stop::Io(error))
        }
    }
}

// Takes the steps of the lines that are left, and lets the world go.
fn play_on<R: Source + Drop, W: Sink, H: Sink>(
    alloc: Global,
    lines: &mut Lines<R>,
    world: World,
    writer: &mut W,
    hints: &mut H,
) -> Result<u8, Stop>
    ensures bound { IfOk result (λ status. status < 2) }
    ensures printed { IfOk result (λ status. Printed (W.contents writer.old) (W.contents writer.new) (λ printed.
        Knows (left R.remaining lines.old) (λ all. PlaysOn (line_number lines.old) world.state all printed status))) }
    ensures stops { IfErr result (λ stop. Says stop (λ last.
        Printed (W.contents writer.old) (W.contents writer.new) (λ printed.
        Knows (left R.remaining lines.old) (λ all.
        PlaysOn (line_number lines.old) world.state all (printed ++ last) 2)))) }
    ensures errors { IfErr result (FailsWith (IsStreamError R.errors W.errors)) }
{
    let mut world = world;
    let ended = take_steps(alloc, lines, &mut world, writer, hints);
    drop(world);
    if let Err(Stop::BadLine(number)) = &ended {
        drop(print_line_hint(*number, lines.text(), hints));
    }
    ended
}

// The configuration. Where the line is none, it tells what one is like.
fn config_or_hint<R: Source + Drop, H: Sink>(
    alloc: Global,
    lines: &mut Lines<R>,
    hints: &mut H,
) -> Result<Config, Stop>
    ensures ok { IfOk result (λ config. Reaches (left R.remaining lines.old) (left R.remaining lines.new) []
        (Plays (line_number lines.old)) (PlaysFrom (line_number lines.new) config)) }
    ensures stops { IfErr result (λ stop. Says stop (λ last.
        Knows (left R.remaining lines.old) (λ all. Plays (line_number lines.old) all last 2))) }
    ensures errors { IfErr result (FailsWith R.errors) }
{
    let config = first_config(alloc, lines);
    if let Err(Stop::BadLine(number)) = &config {
        drop(print_config_hint(*number, hints));
    }
    config
}

// The configuration, which stands in the first line that says anything.
fn first_config<R: Source + Drop>(alloc: Global, lines: &mut Lines<R>) -> Result<Config, Stop>
    ensures ok { IfOk result (λ config. Reaches (left R.remaining lines.old) (left R.remaining lines.new) []
        (Plays (line_number lines.old)) (PlaysFrom (line_number lines.new) config)) }
    ensures stops { IfErr result (λ stop. Says stop (λ last.
        Knows (left R.remaining lines.old) (λ all. Plays (line_number lines.old) all last 2))) }
    ensures errors { IfErr result (FailsWith R.errors) }
{
    for _ in 0..u64::MAX {
        if !lines.advance()? {
            return Err(Stop::BadLine(0));
        }
        if !is_silent(lines.text()) {
            return config_of(alloc, lines);
        }
    }
    // No input has so many lines.
    Err(Stop::NoMemory)
}

fn config_of<R: Source + Drop>(alloc: Global, lines: &Lines<R>) -> Result<Config, Stop>
    ensures ok { IfOk result (λ config. WritesConfig (line_text lines.now) config × (line_fault config ≡ None)) }
    ensures stops { IfErr result (λ stop. Says stop (λ last.
        Unconfigured (line_number lines.now) (line_text lines.now) last 2)) }
    ensures errors { IfErr result (FailsWith (λ _. ⊥)) }
{
    match read_config(alloc, lines.text()) {
        Ok(config) => Ok(config),
        Err(Fault::Bad) => Err(Stop::BadLine(lines.number())),
        Err(Fault::Refused(refusal)) => Err(Stop::Refused(refusal)),
        Err(Fault::NoMemory) => Err(Stop::NoMemory),
    }
}

fn make_world(alloc: Global, config: Config) -> Result<World, Stop>
    ensures ok { IfOk result (λ world. (config_fault config ≡ None) × (world.state ≡ first_state config)) }
    ensures stops { IfErr result
        (λ stop. Says stop (λ last. (number : ℕ) (lines : List (List ℕ)) → PlaysFrom number config lines last 2)) }
    ensures errors { IfErr result (FailsWith (λ _. ⊥)) }
{
    match World::new(alloc, config) {
        Ok(world) => Ok(world),
        Err(refusal) => Err(Stop::Refused(refusal)),
    }
}

// Takes the steps of the lines that are left, and prints what each answers and what the check found.
fn take_steps<R: Source + Drop, W: Sink, H: Sink>(
    alloc: Global,
    lines: &mut Lines<R>,
    world: &mut World,
    writer: &mut W,
    hints: &mut H,
) -> Result<u8, Stop>
    ensures bound { IfOk result (λ status. status < 2) }
    ensures printed { IfOk result (λ status. Printed (W.contents writer.old) (W.contents writer.new) (λ printed.
        Knows (left R.remaining lines.old) (λ all.
        PlaysOn (line_number lines.old) world.old.state all printed status))) }
    ensures stops { IfErr result (λ stop. Says stop (λ last.
        Printed (W.contents writer.old) (W.contents writer.new) (λ printed.
        Knows (left R.remaining lines.old) (λ all.
        PlaysOn (line_number lines.old) world.old.state all (printed ++ last) 2)))) }
    ensures errors { IfErr result (FailsWith (IsStreamError R.errors W.errors)) }
{
    let mut text = String::new(alloc);
    for _ in 0..u64::MAX {
        if !lines.advance()? {
            return print_check(world, writer);
        }
        if !is_silent(lines.text()) {
            text.clear();
            take_line(alloc, lines, world, &mut text, hints)?;
            writer.write_all(text.as_bytes())?;
        }
    }
    // No input has so many lines.
    Err(Stop::NoMemory)
}

// A line that prints nothing.
fn is_silent(line: &[u8]) -> bool
    ensures { result ≡ is_silent line.now }
{
    match line {
        [] | [b'#', ..] => true,
        _ => false,
    }
}

// Takes the step or the steps that the current line gives, if any, and appends what the line prints to the text. What
// it waits for is told on `hints`.
fn take_line<R: Source + Drop, H: Sink>(
    alloc: Global,
    lines: &Lines<R>,
    world: &mut World,
    text: &mut String,
    hints: &mut H,
) -> Result<(), Stop>
    ensures ok { OnOk result
        ((said : List ℕ) × (string_bytes text.new ≡ string_bytes text.old ++ said)
        × AnswersLine (line_text lines.now) world.old.state said world.new.state) }
    ensures stops { IfErr result (λ stop. Says stop (λ last.
        StopsAt (line_number lines.now) (line_text lines.now) last 2)) }
    ensures errors { IfErr result (FailsWith (λ _. ⊥)) }
{
    let number = lines.number();
    match read_line(alloc, lines.text()) {
        Ok(Line::Step { kind, step }) => Ok(push_step(
            text,
            kind,
            world.step(step),
            number,
            hints,
        )?),
        Ok(Line::Drive { proxy }) => Ok(push_drive(text, drive(world, proxy), number, hints)?),
        Ok(Line::Show { session }) => Ok(push_shown(text, world, session)?),
        Ok(Line::Conflict { session }) => Ok(push_conflict(text, world, session)?),
        Err(Fault::Refused(refusal)) => Ok(push_refusal(text, refusal)?),
        Err(Fault::Bad) => Err(Stop::BadLine(number)),
        Err(Fault::NoMemory) => Err(Stop::NoMemory),
    }
}

// Appends what a step of this kind prints, as a line, and tells on `hints` what the line of this number waits for.
fn push_step<H: Sink>(
    text: &mut String,
    kind: Kind,
    outcome: Result<Answered, Refusal>,
    number: u64,
    hints: &mut H,
) -> Result<(), AllocError>
    ensures { OnOk result (string_bytes text.new ≡ string_bytes text.old ++ printed_line (result_text kind outcome)) }
{
    drop(print_wait_hint(number, Some(kind), &outcome, hints));
    push_result(text, kind, outcome)
}

// The same of a drive, which prints what the last step prints that it takes.
fn push_drive<H: Sink>(
    text: &mut String,
    outcome: Result<Answered, Refusal>,
    number: u64,
    hints: &mut H,
) -> Result<(), AllocError>
    ensures { OnOk result (string_bytes text.new ≡ string_bytes text.old ++ printed_line (result_text Answer outcome)) }
{
    drop(print_wait_hint(number, None, &outcome, hints));
    push_result(text, Kind::Answer, outcome)
}
