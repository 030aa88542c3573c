// The lines after the configuration.
ghost use Rattle.fdb_play.specs.script.Faults.{Reads};
ghost use Rattle.fdb_play.specs.script.Grammar.{WritesLine, read_fault};

use crate::script::fault::Fault;
use crate::script::step_line::{Kind, read_step};
use crate::script::words::Words;
use fdb_core::Step;
use std::alloc::Global;

/// What a line after the configuration gives.
#[derive(Drop)]
pub enum Line {
    /// A step, with the kind of the line.
    Step { kind: Kind, step: Step },
    /// The steps of the batch that a commit proxy has in flight.
    Drive { proxy: u32 },
    /// The read set and the write set of a session's open transaction.
    Show { session: u32 },
    /// The conflict set of a session's last transaction.
    Conflict { session: u32 },
}

/// What the line gives. A line of another form is bad, also where its key would be refused. Refused as
/// `make_key` and `make_range` refuse the key or the range of its step.
pub fn read_line(alloc: Global, line: &[u8]) -> Result<Line, Fault>
    ensures { Reads result (WritesLine line.now) read_fault }
{
    let mut words = Words::new(line);
    let first = words.word()?;
    if first == b"drive".as_slice() {
        let proxy = words.last_number()?;
        return Ok(Line::Drive { proxy });
    }
    if first == b"show".as_slice() {
        let session = words.last_number()?;
        return Ok(Line::Show { session });
    }
    if first == b"conflict".as_slice() {
        let refused = words.last_number()?;
        return Ok(Line::Conflict { session: refused });
    }
    let (kind, step) = read_step(alloc, first, &mut words)?;
    Ok(Line::Step { kind, step })
}
