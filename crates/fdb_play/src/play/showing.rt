// The sets of an open transaction, and the conflict set of a refused one. Showing them is no step: the world stays as
// it is.
ghost use Rattle.std.specs.Prelude.{◌≡◌, ◌++◌, List, Option, Ok, Err, MatchResult, OnOk, string_bytes};
ghost use Rattle.fdb_keys.specs.Ranges.{Range};
ghost use Rattle.fdb_machine.specs.machine.Conflicts.{IsConflictOf};
ghost use Rattle.fdb_print.specs.Stops.{printed_line};
ghost use Rattle.fdb_play.specs.play.Showing.{lent};
ghost use Rattle.fdb_play.specs.print.Sets.{conflict_text, shown_text};

use crate::print::answers::push_refusal;
use crate::print::sets::{push_list, push_sets};
use fdb_client::Txn;
use fdb_core::World;
use fdb_keys::Refusal;
use std::alloc::AllocError;

/// Appends the read set and the write set of the session's open transaction, or why there is none, as a line.
pub fn push_shown(text: &mut String, world: &World, session: u32) -> Result<(), AllocError>
    ensures { OnOk result (string_bytes text.new ≡ string_bytes text.old
        ++ printed_line (shown_text (lent world.now.state session))) }
{
    match open_transaction(world, session) {
        Ok(txn) => {
            push_sets(text, txn)?;
            text.push('\n')
        }
        Err(refusal) => push_refusal(text, refusal),
    }
}

// The session's open transaction. Refused as `NoTransaction` where the session has none open.
fn open_transaction(world: &World, session: u32) -> Result<&Txn, Refusal>
    ensures { MatchResult result (λ txn. lent world.now.state session ≡ Ok txn.now)
        (λ why. lent world.now.state session ≡ Err why) }
{
    match world.txn(session) {
        Some(txn) => Ok(txn),
        None => Err(Refusal::NoTransaction),
    }
}

/// Appends the conflict set of the session's last transaction, or that there is none, as a line.
pub fn push_conflict(text: &mut String, world: &World, session: u32) -> Result<(), AllocError>
    ensures { OnOk result ((conflict : Option (List Range))
        × IsConflictOf world.now.state.machine session conflict
        × (string_bytes text.new ≡ string_bytes text.old ++ printed_line (conflict_text conflict))) }
{
    match world.conflict(session) {
        Some(set) => {
            text.push_str("conflict")?;
            push_list(text, set.iter().as_slice())?;
            text.push('\n')
        }
        None => push_refusal(text, Refusal::NoTransaction),
    }
}
