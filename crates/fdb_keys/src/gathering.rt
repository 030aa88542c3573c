// Many ranges joined at once: all of them in one list, which is sorted and walked, and walked again where some touch.
ghost use Rattle.std.specs.Prelude.{◌≡◌, ◌||◌, ◌++◌, IfOk, IsTrue};
ghost use Rattle.fdb_keys.specs.Gathering.{is_in_order};
ghost use Rattle.fdb_keys.specs.Points.{Point, point_lt};
ghost use Rattle.fdb_keys.specs.Ranges.{in_set, is_apart};

use crate::key_range::KeyRange;
use crate::order::is_before;
use std::alloc::{AllocError, Global};
use std::mem;

// For how many a list that grows makes room at first. Most sets have fewer ranges.
const FIRST_ROOM: usize = 4;

// The ranges of both lists, with those joined that overlap or touch.
pub(crate) fn join_all(
    alloc: Global,
    held: &[KeyRange],
    added: Vec<KeyRange>,
) -> Result<Vec<KeyRange>, AllocError>
    ensures apart { IfOk result (λ joined. IsTrue (is_apart joined.items)) }
    ensures points { IfOk result (λ joined. (x : Point)
        → in_set joined.items x ≡ (in_set added.items x || in_set held.now x)) }
{
    let mut all = added_with(held, added)?;
    put_in_order(&mut all);
    join_sorted(alloc, all)
}

// The added ranges, and behind them copies of those that are held.
fn added_with(held: &[KeyRange], added: Vec<KeyRange>) -> Result<Vec<KeyRange>, AllocError>
    ensures { IfOk result (λ all. all.items ≡ added.items ++ held.now) }
{
    let mut all = added;
    all.reserve(held.len())?;
    for range in held {
        all.push(range.clone()?)?;
    }
    Ok(all)
}

// Leaves out the empty ranges, and sorts the others by their begins.
fn put_in_order(ranges: &mut Vec<KeyRange>)
    ensures order { IsTrue (is_in_order ranges.new.items) }
    ensures points { (x : Point) → in_set ranges.new.items x ≡ in_set ranges.old.items x }
{
    ranges.retain(|range| !range.is_empty());
    ranges.sort_unstable_by(|a, b| a.begin().cmp(b.begin()));
}

// The sorted ranges, with those joined that overlap or touch. Mostly none do: then the list stays as it is.
fn join_sorted(alloc: Global, ranges: Vec<KeyRange>) -> Result<Vec<KeyRange>, AllocError>
    requires { IsTrue (is_in_order ranges.items) }
    ensures apart { IfOk result (λ joined. IsTrue (is_apart joined.items)) }
    ensures points { IfOk result (λ joined. (x : Point) → in_set joined.items x ≡ in_set ranges.items x) }
{
    if are_apart(&ranges) {
        return Ok(ranges);
    }
    joined_in_order(alloc, ranges)
}

// Whether none of the sorted ranges overlaps or touches the next one.
fn are_apart(ranges: &[KeyRange]) -> bool
    requires { IsTrue (is_in_order ranges.now) }
    ensures { result ≡ is_apart ranges.now }
{
    ranges.is_sorted_by(
        |range: &KeyRange, next: &KeyRange| -> bool
            ensures { result ≡ point_lt range.now.end next.now.begin }
        { is_before(range.end(), next.begin()) },
    )
}

// The sorted ranges, with those joined that overlap or touch, in a list of their own.
fn joined_in_order(alloc: Global, ranges: Vec<KeyRange>) -> Result<Vec<KeyRange>, AllocError>
    requires { IsTrue (is_in_order ranges.items) }
    ensures apart { IfOk result (λ joined. IsTrue (is_apart joined.items)) }
    ensures points { IfOk result (λ joined. (x : Point) → in_set joined.items x ≡ in_set ranges.items x) }
{
    let mut joined = Vec::with_capacity(alloc, ranges.len().min(FIRST_ROOM))?;
    let mut left = ranges.into_iter();
    let Some(mut last) = left.next() else {
        return Ok(joined);
    };
    for range in left {
        if is_before(last.end(), range.begin()) {
            joined.push(mem::replace(&mut last, range))?;
        } else {
            last = last.extended(range);
        }
    }
    joined.push(last)?;
    Ok(joined)
}
