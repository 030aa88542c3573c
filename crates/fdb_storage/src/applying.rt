// Mutations applied to keys with their versions.
ghost use Rattle.std.specs.Prelude.{None, OnOk};
ghost use Rattle.fdb_keys.specs.Answers.{Answers};
ghost use Rattle.fdb_log.specs.Peeks.{RiseAfter};
ghost use Rattle.fdb_txn.specs.rules.Messages.{mutations_in};
ghost use Rattle.fdb_mutations.specs.Mutations.{value_after};
ghost use Rattle.fdb_storage.specs.Changes.{HaveChanged, HaveChangedIn, HaveFollowed, changed_by};
ghost use Rattle.fdb_storage.specs.VersionMaps.{EndBy, HaveLegalKeys, HaveLive};
ghost use Rattle.fdb_storage.specs.Changes.{cleared_in};

use crate::version_map::VersionMap;
use fdb_keys::{KeyRange, Refusal};
use fdb_log::TagMsg;
use fdb_mutations::{Mutation, Named};
use std::alloc::{AllocError, Global};

/// Applies what the messages, which rise after the version, change in the range. Refused only as `NoMemory`, and then
/// nothing is said of the values. Each mutation of a key takes O(log n) comparisons for n keys and versions, and one
/// that clears a range as many and O(log n) for each key that it clears, whatever was cleared there before.
pub(crate) fn apply_messages(
    alloc: Global,
    map: &mut VersionMap,
    range: &KeyRange,
    version: u64,
    messages: &[TagMsg],
) -> Result<(), Refusal>
    requires ended { EndBy version map.old.keys.entries }
    requires legal_keys { HaveLegalKeys map.old.keys.entries }
    requires live { HaveLive map.old.keys.entries map.old.live.keys }
    requires rising { RiseAfter version messages.now }
    ensures followed { Answers result None (λ _. HaveFollowed range.now version messages.now
        map.old.keys.entries map.new.keys.entries) }
    ensures live { OnOk result (HaveLive map.new.keys.entries map.new.live.keys) }
{
    for message in messages {
        apply_body(alloc, map, range, message.version, message.body.as_slice())?;
    }
    Ok(())
}

// Applies what the mutations of a message of the version change in the range.
fn apply_body(
    alloc: Global,
    map: &mut VersionMap,
    range: &KeyRange,
    version: u64,
    body: &[(u32, Mutation)],
) -> Result<(), Refusal>
    requires ended { EndBy version map.old.keys.entries }
    requires legal_keys { HaveLegalKeys map.old.keys.entries }
    requires live { HaveLive map.old.keys.entries map.old.live.keys }
    ensures changed { Answers result None (λ _. HaveChangedIn range.now version (changed_by (mutations_in body.now))
        map.old.keys.entries map.new.keys.entries) }
    ensures live { OnOk result (HaveLive map.new.keys.entries map.new.live.keys) }
{
    for (_place, mutation) in body {
        apply_mutation(alloc, map, range, version, mutation)?;
    }
    Ok(())
}

// Applies what the mutation changes in the range, which has all keys of the map: so a range that it clears isn't cut.
fn apply_mutation(
    alloc: Global,
    map: &mut VersionMap,
    range: &KeyRange,
    version: u64,
    mutation: &Mutation,
) -> Result<(), Refusal>
    requires ended { EndBy version map.old.keys.entries }
    requires legal_keys { HaveLegalKeys map.old.keys.entries }
    requires live { HaveLive map.old.keys.entries map.old.live.keys }
    ensures changed { Answers result None (λ _. HaveChangedIn range.now version
        (λ x before. value_after x before mutation.now) map.old.keys.entries map.new.keys.entries) }
    ensures live { OnOk result (HaveLive map.new.keys.entries map.new.live.keys) }
{
    match mutation.named() {
        Named::Key(key) if range.contains(key) => map.change(alloc, version, key, mutation),
        Named::Key(_key) => Ok(()),
        Named::Range(cleared) => {
            clear_range(alloc, map, version, cleared)?;
            Ok(())
        }
    }
}

// Lets nothing stand at the keys of the range from the version on.
fn clear_range(
    alloc: Global,
    map: &mut VersionMap,
    version: u64,
    range: &KeyRange,
) -> Result<(), AllocError>
    requires ended { EndBy version map.old.keys.entries }
    requires legal_keys { HaveLegalKeys map.old.keys.entries }
    requires live { HaveLive map.old.keys.entries map.old.live.keys }
    ensures changed { OnOk result (HaveChanged version (cleared_in range.now)
        map.old.keys.entries map.new.keys.entries) }
    ensures live { OnOk result (HaveLive map.new.keys.entries map.new.live.keys) }
{
    let keys = map.live_in(alloc, range)?;
    for key in &keys {
        map.clear(version, key)?;
    }
    Ok(())
}
