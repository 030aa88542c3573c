// The map that messages leave, cut to a range.
ghost use Rattle.std.specs.Prelude.{◌≡◌, None, OnErr, fold};
ghost use Rattle.fdb_keys.specs.Answers.{Answers};
ghost use Rattle.fdb_mutations.specs.Mutations.{clipped_mutation, effect_of};
ghost use Rattle.fdb_txn.specs.rules.Messages.{mutations_in};
ghost use Rattle.fdb_storage.specs.CutMaps.{cut_effect, cut_with, AreSameOutside};

use fdb_keys::{KeyRange, Refusal};
use fdb_log::TagMsg;
use fdb_mutations::{Mutation, PlainMap};

fn apply_cut(map: &mut PlainMap, range: &KeyRange, mutation: &Mutation) -> Result<(), Refusal>
    ensures answers { Answers result None (λ _. map.new ≡ cut_effect range.now map.old mutation.now) }
    ensures refused { OnErr result (map.new ≡ map.old) }
{
    match mutation.clip(range)? {
        Some(clipped) => {
            let answer = map.apply(&clipped);
            drop(clipped);
            answer
        }
        None => Ok(()),
    }
}

fn apply_body(map: &mut PlainMap, range: &KeyRange, body: &[(u32, Mutation)]) -> Result<(), Refusal>
    ensures answers { Answers result None
        (λ _. map.new ≡ fold (cut_effect range.now) map.old (mutations_in body.now)) }
    ensures refused { OnErr result (AreSameOutside range.now map.old map.new) }
{
    for (_place, mutation) in body {
        apply_cut(map, range, mutation)?;
    }
    Ok(())
}

/// Applies what the messages of version at most `version` change in the range to the map. Refused only as `NoMemory`,
/// and then some of them may be applied.
pub(crate) fn apply_messages(
    map: &mut PlainMap,
    range: &KeyRange,
    version: u64,
    messages: &[TagMsg],
) -> Result<(), Refusal>
    ensures answers { Answers result None (λ _. map.new ≡ fold (cut_with range.now version) map.old messages.now) }
    ensures refused { OnErr result (AreSameOutside range.now map.old map.new) }
{
    for message in messages {
        if message.version <= version {
            apply_body(map, range, message.body.as_slice())?;
        }
    }
    Ok(())
}
