ghost use Rattle.std.specs.Prelude.{◌≡◌, ◌⊎◌, List, ℕ, Some, IfOk, IfErr, OnOk};
ghost use Rattle.std.specs.Io.KnownBytes.{Appends};
ghost use Rattle.fdb_print.specs.declared.stop.Stop.TheVariants.{Io};
ghost use Rattle.fdb_print.specs.Stops.{refused_line, stop_text};

use crate::refusals::RefusalLine;
use crate::stop::Stop;
use crate::streams::Sink;
use fdb_keys::Refusal;
use std::io;

/// The status of a run that did not come to its end.
const ENDED: u8 = 2;

/// Prints why the script ended early, and answers the status. It takes no memory. An error of the input or the
/// output is answered as that error. It takes O(1) time and writes one line at most.
pub fn print_stop<W: Sink>(stop: Stop, writer: &mut W) -> Result<u8, io::Error>
    ensures status { IfOk result (λ status. status ≡ ENDED) }
    ensures printed { OnOk result
        ((last : List ℕ) × (stop_text stop ≡ Some last)
        × Appends (W.contents writer.old) (W.contents writer.new) last) }
    ensures errors { IfErr result (λ error. (stop ≡ Io error) ⊎ W.errors error) }
{
    match stop {
        Stop::BadLine(number) => writeln!(writer, "bad line {number}")?,
        Stop::Refused(refusal) => print_refusal(refusal, writer)?,
        Stop::NoMemory => print_refusal(Refusal::NoMemory, writer)?,
        Stop::Io(error) => return Err(error),
    }
    Ok(ENDED)
}

/// Prints the refusal as a line. It takes no memory.
pub fn print_refusal<W: Sink>(refusal: Refusal, writer: &mut W) -> Result<(), io::Error>
    ensures printed { OnOk result (Appends (W.contents writer.old) (W.contents writer.new) (refused_line refusal)) }
    ensures errors { IfErr result W.errors }
{
    let line = RefusalLine(refusal);
    writeln!(writer, "{line}")
}
