//! A script's run as a picture.
ghost use Rattle.std.specs.Prelude.{◌≤◌, IfErr, IfOk};
ghost use Rattle.fdb_print.specs.Streams.{FailsWith, IsLimitedError, IsStreamError};

use super::print_out_of_memory;
use fdb_draw::draw;
use fdb_play::run_script;
use fdb_print::{Limited, Sink, Source, Stop};
use std::alloc::Global;
use std::io;
use std::io::ErrorKind;

/// Reads the script whole, plays it, and prints the picture of its run. Answers the status that the run ends with.
/// Where memory runs out it tells that on `err`, prints nothing else, and answers the status of that.
pub(super) fn draw_run<I: Source, O: Sink, E: Sink>(
    alloc: Global,
    reader: &mut I,
    out: &mut O,
    err: &mut E,
) -> Result<u8, io::Error>
    ensures bound { IfOk result (λ status. status ≤ 2) }
    ensures errors { IfErr result
        (IsStreamError (IsLimitedError I.errors) (IsStreamError O.errors E.errors)) }
{
    match print_picture(alloc, reader, out) {
        Ok(status) => Ok(status),
        Err(Stop::Io(error)) => Err(error),
        Err(_) => print_out_of_memory(err),
    }
}

// The same, but that it stops where memory runs out, and tells nothing of that.
fn print_picture<I: Source, O: Sink>(alloc: Global, reader: &mut I, out: &mut O) -> Result<u8, Stop>
    ensures bound { IfOk result (λ status. status ≤ 2) }
    ensures errors { IfErr result (FailsWith (IsStreamError (IsLimitedError I.errors) O.errors)) }
{
    let script = read_script(alloc, &mut Limited::new(reader))?;
    let mut answers: Vec<u8> = Vec::new(alloc);
    let played = run_script(alloc, &mut script.as_slice(), &mut answers);
    let status = played.map_err(|_| Stop::NoMemory)?;
    let script = String::from_utf8_lossy(alloc, script.as_slice())?;
    let answers = String::from_utf8_lossy(alloc, answers.as_slice())?;
    let picture = draw(alloc, script.as_str(), answers.as_str())?;
    out.write_all(picture.as_bytes())?;
    Ok(status)
}

// All that the reader gives. A read that was interrupted is made again.
fn read_script<I: Source>(alloc: Global, reader: &mut I) -> Result<Vec<u8>, Stop>
    ensures { IfErr result (FailsWith I.errors) }
{
    let mut script = Vec::new(alloc);
    let mut buffer = [0; 4096];
    for _ in 0..u64::MAX {
        match reader.read(&mut buffer) {
            Ok(0) => return Ok(script),
            Ok(count) => script.extend_from_slice(&buffer[..count])?,
            Err(error) if error.kind() == ErrorKind::Interrupted => {}
            Err(error) => return Err(Stop::Io(error)),
        }
    }
    // No input takes so many reads.
    Err(Stop::NoMemory)
}
