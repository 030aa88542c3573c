// What stands at keys, copied to a map.
ghost use Rattle.std.specs.Prelude.{◌≡◌, true, false, None, OnErr};
ghost use Rattle.std.specs.FinMap.{get};
ghost use Rattle.fdb_keys.specs.Answers.{Answers};
ghost use Rattle.fdb_keys.specs.Points.{Point};
ghost use Rattle.fdb_keys.specs.Ranges.{in_range};
ghost use Rattle.fdb_mutations.specs.Mutations.{effect};
ghost use Rattle.fdb_mutations.specs.declared.mutation.Mutation.TheVariants.{Set};
ghost use Rattle.fdb_storage.specs.CutMaps.{set_by, has_key};
ghost use Rattle.fdb_storage.specs.VersionMaps.{HaveLegalKeys, value_of};

use crate::paging::page_of;
use crate::version_list::VersionList;
use bytes::Bytes;
use fdb_interval::PointKey;
use fdb_keys::{Key, KeyRange, Refusal};
use fdb_mutations::{Mutation, PlainMap};
use std::alloc::Global;
use std::collections::BTreeMap;

/// Gives the map what stands at the keys of the part at the version, and changes nothing elsewhere. Refused only as
/// `NoMemory`, and then some of the keys may have theirs.
pub(crate) fn copy_part(
    alloc: Global,
    keys: &BTreeMap<PointKey, VersionList>,
    target: &mut PlainMap,
    part: &KeyRange,
    version: u64,
) -> Result<(), Refusal>
    requires { HaveLegalKeys keys.now.entries }
    ensures answers { Answers result None (λ _. (x : Point) → in_range part.now x ≡ true → get target.old x ≡ None
        → get target.new x ≡ value_of keys.now.entries version x) }
    ensures outside { (x : Point) → in_range part.now x ≡ false → get target.new x ≡ get target.old x }
{
    let page = page_of(alloc, keys, part, version, 0, false)?;
    set_all(target, page.pairs.as_slice())
}

// Gives the keys the values, the first pair first. Refused only as `NoMemory`, and then some of them may have theirs.
// Other keys keep what they have.
fn set_all(target: &mut PlainMap, pairs: &[(Key, Bytes)]) -> Result<(), Refusal>
    ensures answers { Answers result None (λ _. (x : Point)
        → get target.new x ≡ set_by pairs.now x (get target.old x)) }
    ensures others { (x : Point) → has_key x pairs.now ≡ false → get target.new x ≡ get target.old x }
{
    for (key, value) in pairs {
        set_pair(target, key, value)?;
    }
    Ok(())
}

fn set_pair(target: &mut PlainMap, key: &Key, value: &Bytes) -> Result<(), Refusal>
    ensures answers { Answers result None (λ _. target.new ≡ effect target.old (Set key.now value.now)) }
    ensures refused { OnErr result (target.new ≡ target.old) }
{
    let key = key.clone()?;
    let value = value.clone()?;
    let mutation = Mutation::Set { key, value };
    let answer = target.apply(&mutation);
    drop(mutation);
    answer
}
