// Many ranges added to a map at once, or none of them: what may lack memory comes first, and is undone where it does.
ghost use Rattle.std.specs.Prelude.{◌≡◌, ◌∷◌, ◌++◌, [], None, IfOk, OnOk, OnErr, IsTrue};
ghost use Rattle.std.specs.BTreeMap.{values, insert_entry, is_at};
ghost use Rattle.std.specs.Cmp.Lexicographic.{slice_cmp};
ghost use Rattle.std.specs.Map.{lookup};
ghost use Rattle.std.specs.Ordering.{nat_cmp};
ghost use Rattle.fdb_keys.specs.Answers.{Answers};
ghost use Rattle.fdb_keys.specs.Insertion.{with_ranges};
ghost use Rattle.fdb_keys.specs.Joining.{all_joined, begins_within_all, with_all, put_back, all_put_back};
ghost use Rattle.fdb_keys.specs.RangeMaps.{AreUnderBegins};
ghost use Rattle.fdb_keys.specs.Ranges.{is_apart};

use crate::key_range::KeyRange;
use crate::range_map::{join_touched, last_by, list_begins_within, remove_all};
use crate::range_set::RangeSet;
use crate::refusal::Refusal;
use bytes::Bytes;
use std::alloc::{AllocError, Global};
use std::collections::BTreeMap;

// Adds all ranges to those of the map, or none of them.
pub(crate) fn add_all(
    alloc: Global,
    ranges: &mut BTreeMap<Bytes, KeyRange>,
    added: &RangeSet,
) -> Result<(), Refusal>
    requires keyed { AreUnderBegins ranges.old.entries }
    requires apart { IsTrue (is_apart (values ranges.old)) }
    ensures answers { Answers result None (λ _. values ranges.new ≡ with_ranges added.now (values ranges.old)) }
    ensures keyed { OnOk result (AreUnderBegins ranges.new.entries) }
    ensures apart { OnOk result (IsTrue (is_apart (values ranges.new))) }
    ensures err { OnErr result (ranges.new.entries ≡ ranges.old.entries) }
{
    let joined = join_all(alloc, ranges, added)?;
    let others = list_begins_within_all(alloc, ranges, &joined)?;
    put_all(alloc, ranges, &joined)?;
    remove_all(ranges, others.as_slice());
    Ok(())
}

// The ranges, each joined with those of the map that it touches, and with one another.
fn join_all(
    alloc: Global,
    ranges: &BTreeMap<Bytes, KeyRange>,
    added: &RangeSet,
) -> Result<RangeSet, Refusal>
    requires { AreUnderBegins ranges.now.entries }
    ensures answers { Answers result None (λ joined. joined ≡ all_joined added.now (values ranges.now)) }
    ensures apart { IsTrue (is_apart added.now) }
{
    let mut joined = RangeSet::new(alloc);
    for range in added.iter() {
        let first = last_by(ranges, range.begin_text());
        let one = join_touched(ranges, range, first)?;
        joined.add(&one)?;
    }
    Ok(joined)
}

// The begins of the map that lie within one of the ranges.
fn list_begins_within_all(
    alloc: Global,
    ranges: &BTreeMap<Bytes, KeyRange>,
    joined: &RangeSet,
) -> Result<Vec<Bytes>, AllocError>
    ensures { IfOk result (λ begins. begins.items ≡ begins_within_all joined.now ranges.now.entries) }
{
    let mut begins = Vec::new(alloc);
    for range in joined.iter() {
        let mut within = list_begins_within(alloc, ranges, range)?;
        begins.append(&mut within)?;
    }
    Ok(begins)
}

// Puts each range under its begin, or none of them.
fn put_all(
    alloc: Global,
    ranges: &mut BTreeMap<Bytes, KeyRange>,
    joined: &RangeSet,
) -> Result<(), AllocError>
    ensures ok { OnOk result (ranges.new.entries ≡ with_all joined.now ranges.old.entries) }
    ensures err { OnErr result (ranges.new.entries ≡ ranges.old.entries) }
{
    let mut held = Vec::new(alloc);
    for range in joined.iter() {
        if let Err(why) = put(ranges, range, &mut held) {
            put_all_back(ranges, held);
            return Err(why);
        }
    }
    Ok(())
}

// Puts the range under its begin, and adds what was there to the list, from which it can be put back in any case.
fn put(
    ranges: &mut BTreeMap<Bytes, KeyRange>,
    range: &KeyRange,
    held: &mut Vec<(Bytes, Option<KeyRange>)>,
) -> Result<(), AllocError>
    ensures ok { OnOk result (ranges.new.entries
        ≡ insert_entry (slice_cmp nat_cmp) ranges.old.entries range.now.begin range.now) }
    ensures back { all_put_back held.new.items ranges.new.entries ≡ all_put_back held.old.items ranges.old.entries }
{
    let copy = range.clone()?;
    let begin = range.begin_text().clone()?;
    hold(ranges, &begin, held)?;
    ranges.insert(begin, copy)?;
    Ok(())
}

// Adds to the list what is under the begin.
fn hold(
    ranges: &BTreeMap<Bytes, KeyRange>,
    begin: &Bytes,
    held: &mut Vec<(Bytes, Option<KeyRange>)>,
) -> Result<(), AllocError>
    ensures ok { OnOk result (held.new.items ≡ held.old.items
        ++ (begin.now, lookup (is_at (slice_cmp nat_cmp begin.now)) ranges.now.entries) ∷ []) }
    ensures err { OnErr result (held.new.items ≡ held.old.items) }
{
    let before = copy_under(ranges, begin)?;
    held.push((begin.clone()?, before))?;
    Ok(())
}

// The range under the begin, if there is one.
fn copy_under(
    ranges: &BTreeMap<Bytes, KeyRange>,
    begin: &Bytes,
) -> Result<Option<KeyRange>, AllocError>
    ensures { IfOk result (λ range. range ≡ lookup (is_at (slice_cmp nat_cmp begin.now)) ranges.now.entries) }
{
    match ranges.get(begin) {
        Some(range) => Ok(Some(range.clone()?)),
        None => Ok(None),
    }
}

// Puts back what was under the begins, the last one first.
fn put_all_back(ranges: &mut BTreeMap<Bytes, KeyRange>, held: Vec<(Bytes, Option<KeyRange>)>)
    ensures { ranges.new.entries ≡ all_put_back held.items ranges.old.entries }
{
    let mut left = held;
    while let Some((begin, before)) = left.pop() {
        put_back(ranges, begin, before);
    }
}

// Puts back what was under the begin. It takes no memory, since a range is under the begin already.
fn put_back(ranges: &mut BTreeMap<Bytes, KeyRange>, begin: Bytes, before: Option<KeyRange>)
    ensures { ranges.new.entries ≡ put_back begin before ranges.old.entries }
{
    match before {
        Some(range) => {
            if ranges.contains_key(&begin) {
                let _put = ranges.insert(begin, range);
            }
        }
        None => {
            ranges.remove(&begin);
        }
    }
}
