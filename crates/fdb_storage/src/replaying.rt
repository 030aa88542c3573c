ghost use Rattle.std.specs.Prelude.{◌≡◌, None, fold, if◌then◌else◌};
ghost use Rattle.std.specs.FinMap.{get};
ghost use Rattle.fdb_keys.specs.Answers.{Answers};
ghost use Rattle.fdb_keys.specs.Points.{Point};
ghost use Rattle.fdb_keys.specs.Ranges.{in_range};
ghost use Rattle.fdb_txn.specs.rules.Messages.{value_in};
ghost use Rattle.fdb_storage.specs.CutMaps.{cut_with};
ghost use Rattle.fdb_storage.specs.Replays.{covered, messages_of, replay_fault};

use crate::cut_map::apply_messages;
use crate::stamped::any_has_stamped;
use fdb_keys::{KeyRange, Refusal};
use fdb_log::Peek;
use fdb_mutations::PlainMap;
use std::alloc::Global;

/// The map that the messages of the peeks through a version leave in the range, from the empty map. Refused as
/// `BadOperand` where a mutation in any of the messages is a `Stamped`, which still waits for its stamp, as `NotYet`
/// with the first version that no peek covers, where they don't go on from version 0 through that version one after
/// another, and as `NoMemory`. It takes O(log n) comparisons for n keys of the map and each mutation of a key, and as
/// many for a range and each key of it that is cleared.
pub fn replay(
    alloc: Global,
    range: &KeyRange,
    peeks: &[Peek],
    version: u64,
) -> Result<PlainMap, Refusal>
    ensures { Answers result (replay_fault peeks.now version) (λ map. (x : Point)
        → get map x ≡ (if in_range range.now x then value_in version x (messages_of peeks.now) else None)) }
{
    if any_has_stamped(peeks) {
        return Err(Refusal::BadOperand);
    }
    let through = covered(peeks);
    if through < version {
        return Err(Refusal::NotYet(through + 1));
    }
    let mut map = PlainMap::new(alloc);
    for peek in peeks {
        apply_messages(&mut map, range, version, peek.messages.as_slice())?;
    }
    Ok(map)
}

// The version through which the peeks go on from 0 one after another.
fn covered(peeks: &[Peek]) -> u64
    ensures { result ≡ covered peeks.now }
{
    let mut through = 0;
    for peek in peeks {
        if peek.after > through {
            return through;
        }
        through = through.max(peek.through);
    }
    through
}
