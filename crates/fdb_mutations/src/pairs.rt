// The pairs of a map, in a range.
ghost use Rattle.std.specs.Prelude.{◌≡◌, None, IfOk, OnOk, IsTrue, true, false, nat_eq, nat_lt, if◌then◌else◌};
ghost use Rattle.std.specs.Prelude.{[], length, drop};
ghost use Rattle.std.specs.List.{slice_get};
ghost use Rattle.std.specs.Option.{option_map};
ghost use Rattle.std.specs.FinMap.{from_entries};
ghost use Rattle.fdb_keys.specs.Answers.{Answers};
ghost use Rattle.fdb_keys.specs.Texts.{is_key};
ghost use Rattle.fdb_mutations.specs.Pairs.{pairs_in, pairs_within, pairs_beside, first_of};
ghost use Rattle.fdb_mutations.specs.Lent.{lent_pairs};
ghost use Rattle.fdb_mutations.specs.Maps.{has_legal_keys};

use bytes::Bytes;
use fdb_keys::{Items, Key, KeyRange, Refusal};
use std::alloc::{AllocError, Global};
use std::collections::BTreeMap;

// How many pairs to take, where 0 stands for all of them.
fn count_of(limit: u32) -> usize
    ensures { result ≡ (if nat_eq limit 0 then usize.MAX else limit) }
{
    if limit == 0 {
        usize::MAX
    } else {
        limit as usize
    }
}

// The first pairs of the range, in the order of keys.
pub(crate) fn forward<'a>(
    alloc: Global,
    pairs: &'a BTreeMap<Bytes, Bytes>,
    range: &KeyRange,
    limit: u32,
) -> Result<Vec<(&'a Bytes, &'a Bytes)>, AllocError>
    ensures { IfOk result (λ found. lent_pairs found.items
        ≡ first_of limit (pairs_in (from_entries pairs.now.entries) range.now false)) }
{
    pairs
        .range(range.begin_text()..range.end_text())
        .take(count_of(limit))
        .collect(alloc)
}

// The last pairs of the range, in the reverse order of keys.
pub(crate) fn backward<'a>(
    alloc: Global,
    pairs: &'a BTreeMap<Bytes, Bytes>,
    range: &KeyRange,
    limit: u32,
) -> Result<Vec<(&'a Bytes, &'a Bytes)>, AllocError>
    ensures { IfOk result (λ found. lent_pairs found.items
        ≡ first_of limit (pairs_in (from_entries pairs.now.entries) range.now true)) }
{
    pairs
        .range(range.begin_text()..range.end_text())
        .rev()
        .take(count_of(limit))
        .collect(alloc)
}

// The first key of the range that has a value. Refused only where its text has as many owners as can be counted.
fn first_key(pairs: &BTreeMap<Bytes, Bytes>, range: &KeyRange) -> Result<Option<Bytes>, AllocError>
    ensures { IfOk result (λ key. key
        ≡ option_map (λ pair. pair.0) (slice_get (pairs_within range.now pairs.now.entries) 0)) }
{
    match pairs.range(range.begin_text()..range.end_text()).next() {
        Some((key, _value)) => Ok(Some(key.clone()?)),
        None => Ok(None),
    }
}

// Takes the first pair of the range out of the map, in O(log n) comparisons for n pairs. Whether there was one. Refused
// as `first_key` is, and then nothing changes.
fn take_first(pairs: &mut BTreeMap<Bytes, Bytes>, range: &KeyRange) -> Result<bool, AllocError>
    ensures others { pairs_beside range.now pairs.new.entries ≡ pairs_beside range.now pairs.old.entries }
    ensures first { IfOk result (λ found. (found ≡ nat_lt 0 (length (pairs_within range.now pairs.old.entries)))
        × (pairs_within range.now pairs.new.entries ≡ drop 1 (pairs_within range.now pairs.old.entries))) }
{
    match first_key(pairs, range)? {
        Some(key) => {
            pairs.remove(&key);
            Ok(true)
        }
        None => Ok(false),
    }
}

// Takes the pairs of the range out of the map, one after another. Refused as `first_key` is.
fn take_each(pairs: &mut BTreeMap<Bytes, Bytes>, range: &KeyRange) -> Result<(), AllocError>
    ensures others { pairs_beside range.now pairs.new.entries ≡ pairs_beside range.now pairs.old.entries }
    ensures none { OnOk result (pairs_within range.now pairs.new.entries ≡ []) }
{
    for _count in 0..pairs.len() {
        if !take_first(pairs, range)? {
            return Ok(());
        }
    }
    Ok(())
}

// Takes the pairs of the range out of the map. It takes no memory, and O(log n) comparisons for n pairs and for each
// pair of the range. Only where a text of the map has no owner left to be counted each pair of the map is asked.
pub(crate) fn clear_pairs(pairs: &mut BTreeMap<Bytes, Bytes>, range: &KeyRange)
    ensures { pairs.new.entries ≡ pairs_beside range.now pairs.old.entries }
{
    if take_each(pairs, range).is_err() {
        pairs.retain(|key, _value| !range.contains_text(key.as_slice()));
    }
}

fn copy_pair(key: &Bytes, value: &Bytes) -> Result<(Key, Bytes), Refusal>
    requires { IsTrue (is_key key.now) }
    ensures { Answers result None (λ pair. pair ≡ (key.now, value.now)) }
{
    let key = key.clone()?;
    let value = value.clone()?;
    Ok((Key::from_text(key), value))
}

// Copies of the pairs, whose keys are legal ones.
pub(crate) fn copies(
    alloc: Global,
    pairs: &[(&Bytes, &Bytes)],
) -> Result<Items<(Key, Bytes)>, Refusal>
    requires { IsTrue (has_legal_keys (lent_pairs pairs.now)) }
    ensures { Answers result None (λ items. items ≡ lent_pairs pairs.now) }
{
    let mut items = Items::new(alloc);
    for (key, value) in pairs {
        let pair = copy_pair(*key, *value)?;
        items.push(pair)?;
    }
    Ok(items)
}
