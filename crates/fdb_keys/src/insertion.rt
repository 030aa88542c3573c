// Where a range goes in a sorted list of ranges, and what it becomes there.
ghost use Rattle.std.specs.Prelude.{◌≡◌, ◌≤◌, ◌+◌, ◌++◌, ◌∷◌, not, take, drop, length, IfOk, IsTrue};
ghost use Rattle.std.specs.List.{fold, prefix_len};
ghost use Rattle.fdb_keys.specs.Insertion.{inserted, joined_range};
ghost use Rattle.fdb_keys.specs.Points.{point_lt};
ghost use Rattle.fdb_keys.specs.Ranges.{Range, is_apart};

use crate::key_range::KeyRange;
use crate::order::is_before;
use std::alloc::AllocError;

// A range that goes in the place of those from an index up to but not including another one.
#[derive(Drop)]
pub(crate) struct Joined {
    pub(crate) start: usize,
    pub(crate) end: usize,
    pub(crate) range: KeyRange,
}

// The range joined with those that it touches, in whose place it goes.
pub(crate) fn join(ranges: &[KeyRange], range: &KeyRange) -> Result<Joined, AllocError>
    requires { IsTrue (is_apart ranges.now) }
    ensures order { IfOk result (λ joined. joined.start ≤ joined.end) }
    ensures within { IfOk result (λ joined. joined.end ≤ length ranges.now) }
    ensures list { IfOk result
        (λ joined. take joined.start ranges.now ++ joined.range ∷ drop joined.end ranges.now ≡ inserted range.now
        ranges.now) }
{
    let start = count_before(ranges, range.begin());
    let (_before, rest) = ranges.split_at(start);
    let count = count_reached(rest, range.end());
    let (touched, _after) = rest.split_at(count);
    let range = joined_with_all(range, touched)?;
    let end = start + count;
    Ok(Joined { start, end, range })
}

// How many ranges at the front end before the point.
fn count_before(ranges: &[KeyRange], point: &[u8]) -> usize
    requires { IsTrue (is_apart ranges.now) }
    ensures count { result ≡ prefix_len (λ (range : Range). point_lt range.end point.now) ranges.now }
    ensures within { result ≤ length ranges.now }
{
    ranges.partition_point(
        |range: &KeyRange| -> bool
            ensures { result ≡ point_lt range.now.end point.entry.now }
        { is_before(range.end(), point) },
    )
}

// How many ranges at the front begin at the point or before it.
fn count_reached(ranges: &[KeyRange], point: &[u8]) -> usize
    requires { IsTrue (is_apart ranges.now) }
    ensures count { result ≡ prefix_len (λ (range : Range). not (point_lt point.now range.begin)) ranges.now }
    ensures within { result ≤ length ranges.now }
{
    ranges.partition_point(
        |range: &KeyRange| -> bool
            ensures { result ≡ not (point_lt point.entry.now range.now.begin) }
        { !is_before(point, range.begin()) },
    )
}

// The shortest range that holds the range and the others.
fn joined_with_all(range: &KeyRange, others: &[KeyRange]) -> Result<KeyRange, AllocError>
    ensures { IfOk result (λ joined. joined ≡ fold joined_range range.now others.now) }
{
    let mut joined = range.clone()?;
    for other in others {
        joined = joined.joined_range(other)?;
    }
    Ok(joined)
}
