ghost use Rattle.std.specs.Prelude.{◌≡◌, ◌≤◌, ◌++◌, ◌∷◌, take, drop, length, IfOk, OnOk, OnErr};

use crate::gathering::join_all;
use crate::insertion::{Joined, join};
use crate::items::Items;
use crate::key_range::KeyRange;
use crate::refusal::Refusal;
use crate::removal::without_range;
use crate::shared_ranges::{SharedRanges, copies};
use std::alloc::{AllocError, Global};
use std::marker::Model;
use std::slice;

/// A set of keys, as the shortest sorted list of ranges that hold it. Once it is shared, its copies take O(1) time.
#[derive(Clone, Drop, PartialEq, Eq)]
pub struct RangeSet {
    ranges: SharedRanges,
}

impl Model for RangeSet {
    ghost use Rattle.std.specs.Prelude.{List, IsTrue};
    ghost use Rattle.fdb_keys.specs.Ranges.{Range, is_apart};

    ghost Value = { List Range };

    ghost view = { λ set. set.ranges };

    ghost invariant = { λ set. IsTrue (is_apart set.ranges) };

    ghost inverse = { λ ranges. record { ranges = ranges } };
}

impl RangeSet {
    ghost use Rattle.std.specs.Prelude.{◌≡◌, ◌↔◌, ◌==◌, ◌||◌, ◌&&◌, not, true, [], length, IsTrue, None, OnOk, OnErr};
    ghost use Rattle.std.specs.Slice.Iter.{iter_rest};
    ghost use Rattle.fdb_keys.specs.Answers.{Answers};
    ghost use Rattle.fdb_keys.specs.Insertion.{with_range, with_ranges};
    ghost use Rattle.fdb_keys.specs.Points.{Point};
    ghost use Rattle.fdb_keys.specs.Ranges.{in_range, in_set, is_apart};
    ghost use Rattle.fdb_keys.specs.Removal.{without_range};

    /// The empty set. It takes no memory.
    pub fn new(alloc: Global) -> Self
        ensures { result ≡ [] }
    {
        RangeSet::from_items(Items::new(alloc))
    }

    // The set of the ranges, which are sorted, apart and none empty.
    pub(crate) fn from_ranges(ranges: Vec<KeyRange>) -> Self
        requires { IsTrue (is_apart ranges.items) }
        ensures { result ≡ ranges.items }
    {
        RangeSet::from_items(Items::from_vec(ranges))
    }

    fn from_items(ranges: Items<KeyRange>) -> Self
        requires { IsTrue (is_apart ranges) }
        ensures { result ≡ ranges }
    {
        RangeSet {
            ranges: SharedRanges::from_items(ranges),
        }
    }

    /// Whether the set has no range.
    pub fn is_empty(&self) -> bool
        ensures { result ≡ (length self.now == 0) }
    {
        self.ranges.as_slice().is_empty()
    }

    /// Whether the set has a point. It takes no memory, and O(1) time.
    pub fn has_points(&self) -> bool
        ensures { IsTrue result ↔ ((x : Point) × (in_set self.now x ≡ true)) }
    {
        !self.ranges.as_slice().is_empty()
    }

    /// From now on copies share the ranges. Where memory runs out they go on being copies of each range; so it is never
    /// refused. It takes O(1) time.
    pub fn share(&mut self)
        ensures { self.new ≡ self.old }
    {
        self.ranges.share();
    }

    /// Adds the keys of the range. An empty range adds nothing. For n ranges of the set it takes O(log n) comparisons
    /// of bounds, O(1) more for each range that it touches, and O(n) to move the ranges behind it, or to copy all where
    /// the set is shared; `add_all` takes many ranges at once. Refused only as `NoMemory`, and then nothing changes.
    pub fn add(&mut self, range: &KeyRange) -> Result<(), Refusal>
        ensures answers { Answers result None (λ _. (x : Point) → in_set self.new x
            ≡ (in_range range.now x || in_set self.old x)) }
        ensures list { OnOk result (self.new ≡ with_range range.now self.old) }
        ensures err { OnErr result (self.new ≡ self.old) }
    {
        if range.is_empty() {
            return Ok(());
        }
        let Joined { start, end, range } = join(self.ranges.as_slice(), range)?;
        put(&mut self.ranges, start, end, range)?;
        Ok(())
    }

    /// Adds the keys of all ranges, which may overlap, touch and come in any order. An empty range adds nothing. It
    /// takes O(n log n) comparisons of bounds for n ranges, those of the set and the added ones together. Refused only
    /// as `NoMemory`, and then nothing changes.
    pub fn add_all(&mut self, ranges: Vec<KeyRange>) -> Result<(), Refusal>
        ensures answers { Answers result None
            (λ _. (x : Point) → in_set self.new x ≡ (in_set ranges.items x || in_set self.old x)) }
        ensures list { OnOk result (self.new ≡ with_ranges ranges.items self.old) }
        ensures err { OnErr result (self.new ≡ self.old) }
    {
        let joined = join_all(self.ranges.allocator(), self.ranges.as_slice(), ranges)?;
        self.ranges = SharedRanges::from_items(Items::from_vec(joined));
        Ok(())
    }

    /// Adds the keys of the other set. Where this one is empty, it is as a copy of the other one: that takes O(1) time
    /// where the other one is shared. Else it takes O(n log n) comparisons of bounds for n ranges, those of both sets
    /// together. Refused only as `NoMemory`, and then nothing changes.
    pub fn add_set(&mut self, other: &RangeSet) -> Result<(), Refusal>
        ensures answers { Answers result None
            (λ _. (x : Point) → in_set self.new x ≡ (in_set other.now x || in_set self.old x)) }
        ensures list { OnOk result (self.new ≡ with_ranges other.now self.old) }
        ensures err { OnErr result (self.new ≡ self.old) }
    {
        if self.is_empty() {
            *self = other.clone()?;
            return Ok(());
        }
        let added = copies(self.ranges.allocator(), other.ranges.as_slice())?;
        self.add_all(added.into_vec())
    }

    /// Takes out the keys of the range. Refused only as `NoMemory`, and then nothing changes.
    pub fn remove(&mut self, range: &KeyRange) -> Result<(), Refusal>
        ensures answers { Answers result None
            (λ _. (x : Point) → in_set self.new x ≡ (in_set self.old x && not (in_range range.now x))) }
        ensures list { OnOk result (self.new ≡ without_range range.now self.old) }
        ensures err { OnErr result (self.new ≡ self.old) }
    {
        let left = without_range(self.ranges.allocator(), self.ranges.as_slice(), range)?;
        self.ranges = SharedRanges::from_items(Items::from_vec(left));
        Ok(())
    }

    /// The ranges of the set: sorted, none touching the next, and none empty.
    pub fn iter(&self) -> slice::Iter<'_, KeyRange>
        ensures ranges { iter_rest result ≡ self.now }
        ensures apart { IsTrue (is_apart self.now) }
    {
        self.ranges.as_slice().iter()
    }
}

// Puts the range in the place of those from `start` up to but not including `end`. Ranges that are shared are copied
// first. Where memory runs out, nothing changes.
fn put(
    ranges: &mut SharedRanges,
    start: usize,
    end: usize,
    range: KeyRange,
) -> Result<(), AllocError>
    requires order { start ≤ end }
    requires within { end ≤ length ranges.old }
    ensures ok { OnOk result (ranges.new ≡ take start ranges.old ++ range ∷ drop end ranges.old) }
    ensures err { OnErr result (ranges.new ≡ ranges.old) }
{
    if let Some(range) = ranges.replace(start, end, range)? {
        let alloc = ranges.allocator();
        *ranges = replaced(alloc, ranges.as_slice(), start, end, range)?;
    }
    Ok(())
}

// Copies of the ranges, with the range in the place of those from `start` up to but not including `end`.
fn replaced(
    alloc: Global,
    ranges: &[KeyRange],
    start: usize,
    end: usize,
    range: KeyRange,
) -> Result<SharedRanges, AllocError>
    requires order { start ≤ end }
    requires within { end ≤ length ranges.now }
    ensures { IfOk result (λ made. made ≡ take start ranges.now ++ range ∷ drop end ranges.now) }
{
    let mut made = copies(alloc, ranges)?;
    made.replace(start, end, range)?;
    Ok(SharedRanges::from_items(made))
}
