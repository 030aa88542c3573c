// The pairs of a range at a version.
ghost use Rattle.std.specs.Prelude.{◌≡◌, ◌+◌, ◌++◌, None, IfOk, OnOk, IsTrue, true, is_some, nat_eq, nat_lt, length};
ghost use Rattle.std.specs.Prelude.{◌&&◌, not, filter, reverse, take, if◌then◌else◌};
ghost use Rattle.std.specs.List.{AllByRecursion};
ghost use Rattle.std.specs.Option.{option_copied};
ghost use Rattle.fdb_keys.specs.Answers.{Answers};
ghost use Rattle.fdb_keys.specs.Texts.{is_key};
ghost use Rattle.fdb_mutations.specs.Pairs.{first_of};
ghost use Rattle.fdb_storage.specs.VersionLists.{value_up_to};
ghost use Rattle.fdb_storage.specs.KeyPages.{is_live, keys_between, lent_keys, pair_of, pairs_at};
ghost use Rattle.fdb_storage.specs.VersionMaps.{HaveLegalKeys};
ghost use Rattle.fdb_storage.specs.KeyPages.{pairs_of, first_more};
ghost use Rattle.fdb_storage.specs.VersionMaps.{AreSorted};

use crate::version_list::VersionList;
use bytes::Bytes;
use fdb_interval::{KeyedRange, PointKey};
use fdb_keys::{Items, Key, KeyRange, Refusal};
use fdb_mutations::Page;
use std::alloc::{AllocError, Global};
use std::collections::BTreeMap;

/// The first pairs of the range at the version: in the order of keys or in the reverse order, and at most `limit` of
/// them unless that is 0. Refused only as `NoMemory`. It takes O(log n) comparisons for n keys, and O(log v) for the v
/// versions of each pair and of each key between them at which nothing stands.
pub(crate) fn page_of(
    alloc: Global,
    keys: &BTreeMap<PointKey, VersionList>,
    range: &KeyRange,
    version: u64,
    limit: u32,
    reverse: bool,
) -> Result<Page, Refusal>
    requires { HaveLegalKeys keys.now.entries }
    ensures page { Answers result None (λ page.
        (page.pairs ≡ first_of limit (pairs_of keys.now.entries version range.now reverse))
        × (page.more ≡ nat_lt (length page.pairs) (length (pairs_of keys.now.entries version range.now reverse)))) }
    ensures sorted { AreSorted keys.now.entries }
{
    know_rising(keys);
    let mut found = if reverse {
        backward(alloc, keys, range, version, limit)?
    } else {
        forward(alloc, keys, range, version, limit)?
    };
    let more = cut(&mut found, limit);
    let pairs = copies(alloc, found.as_slice(), version)?;
    Ok(Page { pairs, more })
}

// The keys of a map rise. It does nothing else.
fn know_rising(keys: &BTreeMap<PointKey, VersionList>)
    ensures { AreSorted keys.now.entries }
{
    let _count = keys.len();
}

// Cuts what was found at the limit, if there is one. Whether that left something out.
fn cut(found: &mut Vec<(&PointKey, &VersionList)>, limit: u32) -> bool
    ensures items { found.new.items ≡ (if result then take limit found.old.items else found.old.items) }
    ensures more { result ≡ (not (nat_eq limit 0) && nat_lt limit (length found.old.items)) }
{
    if limit == 0 || found.len() <= limit as usize {
        return false;
    }
    found.truncate(limit as usize);
    true
}

// One more than the limit, and as many as there may be where that is 0.
fn one_more(limit: u32) -> usize
    ensures { result ≡ (if nat_eq limit 0 then usize.MAX else limit + 1) }
{
    if limit == 0 {
        usize::MAX
    } else {
        limit as usize + 1
    }
}

fn has_value(versions: &VersionList, version: u64) -> bool
    ensures { result ≡ is_some (value_up_to version versions.now) }
{
    versions.value_at(version).is_some()
}

// The first keys of the range at which something stands, in their order: one more than the limit, or all of them where
// it is 0.
fn forward<'a>(
    alloc: Global,
    keys: &'a BTreeMap<PointKey, VersionList>,
    range: &KeyRange,
    version: u64,
    limit: u32,
) -> Result<Vec<(&'a PointKey, &'a VersionList)>, AllocError>
    ensures { IfOk result (λ found. lent_keys found.items
        ≡ first_more limit (filter (is_live version) (keys_between range.now keys.now.entries))) }
{
    let keyed = KeyedRange::new(range)?;
    keys.range(keyed.begin()..keyed.end())
        .filter(
            |(_key, versions): &(&PointKey, &VersionList)| -> bool
                ensures { result ≡ is_some (value_up_to version versions.entry.now.now) }
            { has_value(versions, version) },
        )
        .take(one_more(limit))
        .collect(alloc)
}

// The last ones in the reverse order.
fn backward<'a>(
    alloc: Global,
    keys: &'a BTreeMap<PointKey, VersionList>,
    range: &KeyRange,
    version: u64,
    limit: u32,
) -> Result<Vec<(&'a PointKey, &'a VersionList)>, AllocError>
    ensures { IfOk result (λ found. lent_keys found.items
        ≡ first_more limit (filter (is_live version) (reverse (keys_between range.now keys.now.entries)))) }
{
    let keyed = KeyedRange::new(range)?;
    keys.range(keyed.begin()..keyed.end())
        .rev()
        .filter(
            |(_key, versions): &(&PointKey, &VersionList)| -> bool
                ensures { result ≡ is_some (value_up_to version versions.entry.now.now) }
            { has_value(versions, version) },
        )
        .take(one_more(limit))
        .collect(alloc)
}

// The keys, which are legal ones, each with what stands there at the version.
fn copies(
    alloc: Global,
    found: &[(&PointKey, &VersionList)],
    version: u64,
) -> Result<Items<(Key, Bytes)>, Refusal>
    requires { AllByRecursion (λ held. is_key held.0 ≡ true) (lent_keys found.now) }
    ensures { Answers result None (λ pairs. pairs ≡ pairs_at version (lent_keys found.now)) }
{
    let mut pairs = Items::new(alloc);
    for (key, versions) in found {
        push_pair(&mut pairs, key, versions.value_at(version))?;
    }
    Ok(pairs)
}

// Adds the key with the value, if there is one.
fn push_pair(
    pairs: &mut Items<(Key, Bytes)>,
    key: &PointKey,
    value: Option<&Bytes>,
) -> Result<(), AllocError>
    requires { IsTrue (is_key key.now) }
    ensures { OnOk result (pairs.new ≡ pairs.old ++ pair_of key.now (option_copied value.entry)) }
{
    if let Some(value) = value {
        let key = Key::from_text(key.text().clone()?);
        let value = value.clone()?;
        pairs.push((key, value))?;
    }
    Ok(())
}
