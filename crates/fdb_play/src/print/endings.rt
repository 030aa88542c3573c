// What is printed at a script's end: what the check found, or why there was none.
ghost use Rattle.std.specs.Prelude.{◌≡◌, ◌⊎◌, ◌<◌, ◌++◌, List, ℕ, Some, IfOk, IfErr, OnOk, codes};
ghost use Rattle.std.specs.Fmt.{decimal};
ghost use Rattle.std.specs.Io.KnownBytes.{Appends};
ghost use Rattle.fdb_print.specs.Streams.{FailsWith};
ghost use Rattle.fdb_print.specs.declared.stop.Stop.TheVariants.{Io};
ghost use Rattle.fdb_play.specs.play.Scripts.{IsChecked, Printed, Says};
ghost use Rattle.fdb_print.specs.Stops.{printed_line, refused_line, stop_text};

use fdb_core::{CheckFault, World};
use fdb_print::{Sink, Stop};
use fdb_txn::TxnId;
use std::io;

/// The status of a script whose check held.
const CHECKED: u8 = 0;

/// The status of a script whose check failed.
const FAILED: u8 = 1;

/// Checks the world, prints what the check found, and answers the status.
pub fn print_check<W: Sink>(world: &World, writer: &mut W) -> Result<u8, Stop>
    ensures bound { IfOk result (λ status. status < 2) }
    ensures printed { IfOk result
        (λ status. Printed (W.contents writer.old) (W.contents writer.new)
        (λ printed. IsChecked world.now.state printed status)) }
    ensures stops { IfErr result
        (λ stop. Says stop
        (λ last. Printed (W.contents writer.old) (W.contents writer.new)
        (λ printed. IsChecked world.now.state (printed ++ last) 2))) }
    ensures errors { IfErr result (FailsWith W.errors) }
{
    match world.check() {
        Ok(count) => {
            print_count(count, writer)?;
            Ok(CHECKED)
        }
        Err(CheckFault::Txn(id)) => {
            print_txn(id, writer)?;
            Ok(FAILED)
        }
        Err(CheckFault::Shard(shard)) => {
            print_shard(shard, writer)?;
            Ok(FAILED)
        }
        Err(CheckFault::NoMemory) => Err(Stop::NoMemory),
    }
}

fn print_count<W: Sink>(count: u64, writer: &mut W) -> Result<(), io::Error>
    ensures printed { OnOk result
        (Appends (W.contents writer.old) (W.contents writer.new) (printed_line (codes "checked " ++ decimal count))) }
    ensures errors { IfErr result W.errors }
{
    writeln!(writer, "checked {count}")
}

fn print_txn<W: Sink>(id: TxnId, writer: &mut W) -> Result<(), io::Error>
    ensures printed { OnOk result
        (Appends (W.contents writer.old) (W.contents writer.new)
        (printed_line (codes "failed txn " ++ decimal id.session ++ codes ":" ++ decimal id.number))) }
    ensures errors { IfErr result W.errors }
{
    let session = id.session;
    let number = id.number;
    writeln!(writer, "failed txn {session}:{number}")
}

fn print_shard<W: Sink>(shard: u32, writer: &mut W) -> Result<(), io::Error>
    ensures printed { OnOk result
        (Appends (W.contents writer.old) (W.contents writer.new)
        (printed_line (codes "failed shard " ++ decimal shard))) }
    ensures errors { IfErr result W.errors }
{
    writeln!(writer, "failed shard {shard}")
}
