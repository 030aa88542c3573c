// Sorted ranges in a map, each under its begin.
ghost use Rattle.std.specs.Prelude.{◌≡◌, None, IsSome, IfOk, OnOk, OnErr, IsTrue};
ghost use Rattle.std.specs.BTreeMap.{values, insert_entry, is_at};
ghost use Rattle.std.specs.Cmp.Lexicographic.{slice_cmp};
ghost use Rattle.std.specs.Map.{lookup};
ghost use Rattle.std.specs.Option.{option_copied};
ghost use Rattle.std.specs.Ordering.{nat_cmp};
ghost use Rattle.fdb_keys.specs.Points.{point_lt};
ghost use Rattle.fdb_keys.specs.Ranges.{is_apart};
ghost use Rattle.fdb_keys.specs.RangeMaps.{AreUnderBegins, HasAlso, begins_within, without_points};
ghost use Rattle.fdb_keys.specs.Removal.{outside};
ghost use Rattle.fdb_keys.specs.Touching.{last_by, ends_by, joined_where_touching, joined_with_touched};

use crate::key_range::{KeyRange, push_between};
use crate::order::is_before;
use bytes::Bytes;
use std::alloc::{AllocError, Global};
use std::collections::BTreeMap;
use std::ops::Bound;

// The last range that begins at the point or before it.
pub(crate) fn last_by<'a>(
    ranges: &'a BTreeMap<Bytes, KeyRange>,
    point: &Bytes,
) -> Option<&'a KeyRange>
    requires { AreUnderBegins ranges.now.entries }
    ensures { option_copied result ≡ last_by point.now (values ranges.now) }
{
    match ranges.range(..=point).next_back() {
        Some((_begin, range)) => Some(range),
        None => None,
    }
}

// Whether the range ends by the end of the last one that begins by its begin, and so is held.
pub(crate) fn is_held(range: &KeyRange, first: Option<&KeyRange>) -> bool
    ensures { result ≡ ends_by range.now (option_copied first.entry) }
{
    match first {
        Some(first) => !is_before(first.end(), range.end()),
        None => false,
    }
}

// The range joined with those that it touches, of which the first one, if any, is the last that begins by its begin.
pub(crate) fn join_touched(
    ranges: &BTreeMap<Bytes, KeyRange>,
    range: &KeyRange,
    first: Option<&KeyRange>,
) -> Result<KeyRange, AllocError>
    requires under { AreUnderBegins ranges.now.entries }
    requires first { option_copied first ≡ last_by range.now.begin (values ranges.now) }
    ensures { IfOk result (λ joined. joined ≡ joined_with_touched range.now (values ranges.now)) }
{
    let from_first = join_where_touching(range.clone()?, first)?;
    let last = last_by(ranges, from_first.end_text());
    join_where_touching(from_first, last)
}

// The range joined with the other one, if that one ends at the range's begin or after it.
fn join_where_touching(range: KeyRange, other: Option<&KeyRange>) -> Result<KeyRange, AllocError>
    ensures { IfOk result (λ joined. joined ≡ joined_where_touching range (option_copied other.entry)) }
{
    match other {
        Some(other) if !is_before(other.end(), range.begin()) => range.joined_range(other),
        _ => Ok(range),
    }
}

// The begins of the ranges that begin after the range's begin, and by its end.
pub(crate) fn list_begins_within(
    alloc: Global,
    ranges: &BTreeMap<Bytes, KeyRange>,
    range: &KeyRange,
) -> Result<Vec<Bytes>, AllocError>
    requires { IsTrue (point_lt range.now.begin range.now.end) }
    ensures { IfOk result (λ begins. begins.items ≡ begins_within range.now ranges.now.entries) }
{
    let mut begins = Vec::new(alloc);
    let bounds = (
        Bound::Excluded(range.begin_text()),
        Bound::Included(range.end_text()),
    );
    for (begin, _range) in ranges.range(bounds) {
        begins.push(begin.clone()?)?;
    }
    Ok(begins)
}

// What of the range, which has a point, lies in none of the ranges.
pub(crate) fn outside(
    alloc: Global,
    ranges: &BTreeMap<Bytes, KeyRange>,
    range: &KeyRange,
) -> Result<Vec<KeyRange>, AllocError>
    requires some { IsTrue (point_lt range.now.begin range.now.end) }
    requires keyed { AreUnderBegins ranges.now.entries }
    requires apart { IsTrue (is_apart (values ranges.now)) }
    ensures { IfOk result (λ left. left.items ≡ outside (values ranges.now) range.now) }
{
    let mut left = Vec::new(alloc);
    let mut reached = range.begin_past(last_by(ranges, range.begin_text()))?;
    let after = Bound::Excluded(range.begin_text());
    let before = Bound::Excluded(range.end_text());
    for (_begin, held) in ranges.range((after, before)) {
        held.push_before(&reached, &mut left)?;
        reached = held.end_text().clone()?;
    }
    push_between(&reached, range.end_text(), &mut left)?;
    Ok(left)
}

// Puts the range under its begin, and takes out those under the other begins. Where memory runs out, nothing
// changes.
pub(crate) fn replace(
    ranges: &mut BTreeMap<Bytes, KeyRange>,
    range: KeyRange,
    others: &[Bytes],
) -> Result<(), AllocError>
    ensures ok { OnOk result (ranges.new.entries
        ≡ without_points others.now (insert_entry (slice_cmp nat_cmp) ranges.old.entries range.begin range)) }
    ensures err { OnErr result (ranges.new.entries ≡ ranges.old.entries) }
{
    let begin = range.begin_text().clone()?;
    ranges.insert(begin, range)?;
    remove_all(ranges, others);
    Ok(())
}

// Adds the range, which has a point, to the ranges of both maps, or to neither.
pub(crate) fn add_both(
    alloc: Global,
    first: &mut BTreeMap<Bytes, KeyRange>,
    second: &mut BTreeMap<Bytes, KeyRange>,
    range: &KeyRange,
) -> Result<(), AllocError>
    requires some { IsTrue (point_lt range.now.begin range.now.end) }
    requires first_keyed { AreUnderBegins first.old.entries }
    requires first_apart { IsTrue (is_apart (values first.old)) }
    requires second_keyed { AreUnderBegins second.old.entries }
    requires second_apart { IsTrue (is_apart (values second.old)) }
    ensures first { OnOk result (HasAlso range.now first.old.entries first.new.entries) }
    ensures second { OnOk result (HasAlso range.now second.old.entries second.new.entries) }
    ensures first_err { OnErr result (first.new.entries ≡ first.old.entries) }
    ensures second_err { OnErr result (second.new.entries ≡ second.old.entries) }
{
    let (first_joined, first_others) = join_and_list(alloc, first, range)?;
    let (second_joined, second_others) = join_and_list(alloc, second, range)?;
    replace_in_both(
        first,
        first_joined,
        first_others.as_slice(),
        second,
        second_joined,
        second_others.as_slice(),
    )?;
    Ok(())
}

// The range, which has a point, joined with those that it touches, and the begins of what it swallows.
fn join_and_list(
    alloc: Global,
    ranges: &BTreeMap<Bytes, KeyRange>,
    range: &KeyRange,
) -> Result<(KeyRange, Vec<Bytes>), AllocError>
    requires some { IsTrue (point_lt range.now.begin range.now.end) }
    requires keyed { AreUnderBegins ranges.now.entries }
    requires apart { IsTrue (is_apart (values ranges.now)) }
    ensures joined { IfOk result (λ found. found.0 ≡ joined_with_touched range.now (values ranges.now)) }
    ensures others { IfOk result (λ found. found.1.items ≡ begins_within found.0 ranges.now.entries) }
{
    let joined = join_touched(ranges, range, last_by(ranges, range.begin_text()))?;
    let others = list_begins_within(alloc, ranges, &joined)?;
    Ok((joined, others))
}

// Does the same in two maps, or in neither.
fn replace_in_both(
    first: &mut BTreeMap<Bytes, KeyRange>,
    first_range: KeyRange,
    first_others: &[Bytes],
    second: &mut BTreeMap<Bytes, KeyRange>,
    second_range: KeyRange,
    second_others: &[Bytes],
) -> Result<(), AllocError>
    ensures first { OnOk result (first.new.entries
        ≡ without_points first_others.now
        (insert_entry (slice_cmp nat_cmp) first.old.entries first_range.begin first_range)) }
    ensures second { OnOk result (second.new.entries ≡ without_points second_others.now
        (insert_entry (slice_cmp nat_cmp) second.old.entries second_range.begin second_range)) }
    ensures first_err { OnErr result (first.new.entries ≡ first.old.entries) }
    ensures second_err { OnErr result (second.new.entries ≡ second.old.entries) }
{
    let begin = second_range.begin_text().clone()?;
    if second.contains_key(&begin) {
        replace(first, first_range, first_others)?;
        put_again(second, begin, second_range);
    } else {
        replace_beside_new(
            first,
            first_range,
            first_others,
            second,
            &begin,
            second_range,
        )?;
    }
    remove_all(second, second_others);
    Ok(())
}

// Puts the range under a begin that the map has, which takes no memory.
fn put_again(ranges: &mut BTreeMap<Bytes, KeyRange>, begin: Bytes, range: KeyRange)
    requires { IsSome (lookup (is_at (slice_cmp nat_cmp begin)) ranges.old.entries) }
    ensures { ranges.new.entries ≡ insert_entry (slice_cmp nat_cmp) ranges.old.entries begin range }
{
    let _put = ranges.insert(begin, range);
}

// Puts the second range under a begin that the second map lacks, and does the first map's part, or neither.
fn replace_beside_new(
    first: &mut BTreeMap<Bytes, KeyRange>,
    first_range: KeyRange,
    first_others: &[Bytes],
    second: &mut BTreeMap<Bytes, KeyRange>,
    begin: &Bytes,
    second_range: KeyRange,
) -> Result<(), AllocError>
    requires absent { lookup (is_at (slice_cmp nat_cmp begin.now)) second.old.entries ≡ None }
    ensures first { OnOk result (first.new.entries
        ≡ without_points first_others.now
        (insert_entry (slice_cmp nat_cmp) first.old.entries first_range.begin first_range)) }
    ensures second { OnOk result (second.new.entries
        ≡ insert_entry (slice_cmp nat_cmp) second.old.entries begin.now second_range) }
    ensures first_err { OnErr result (first.new.entries ≡ first.old.entries) }
    ensures second_err { OnErr result (second.new.entries ≡ second.old.entries) }
{
    second.insert(begin.clone()?, second_range)?;
    if let Err(why) = replace(first, first_range, first_others) {
        second.remove(begin);
        return Err(why);
    }
    Ok(())
}

// Takes out the ranges under the begins.
pub(crate) fn remove_all(ranges: &mut BTreeMap<Bytes, KeyRange>, begins: &[Bytes])
    ensures { ranges.new.entries ≡ without_points begins.now ranges.old.entries }
{
    for begin in begins {
        ranges.remove(begin);
    }
}
