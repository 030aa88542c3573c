use crate::key::Key;
use crate::key_range::KeyRange;
use crate::range_map::{
    add_both, is_held, join_touched, last_by, list_begins_within, outside, replace,
};
use crate::range_set::RangeSet;
use crate::refusal::Refusal;
use crate::tree_joining;
use bytes::Bytes;
use std::alloc::Global;
use std::collections::BTreeMap;
use std::collections::btree_map::Values;
use std::marker::Model;

/// A set of keys that grows by many ranges: the list of ranges that a `RangeSet` keeps, in a tree. Adding a
/// range takes the logarithm of how many the set has, and what the ranges take that it touches.
#[derive(Drop)]
pub struct TreeRangeSet {
    alloc: Global,
    // Each range is under its begin.
    ranges: BTreeMap<Bytes, KeyRange>,
}

impl Model for TreeRangeSet {
    ghost use Rattle.std.specs.Prelude.{List, IsTrue};
    ghost use Rattle.std.specs.BTreeMap.{values};
    ghost use Rattle.fdb_keys.specs.RangeMaps.{AreUnderBegins};
    ghost use Rattle.fdb_keys.specs.Ranges.{Range, is_apart};

    ghost Value = { List Range };

    ghost view = { λ set. values set.ranges };

    ghost invariant = { λ set. AreUnderBegins set.ranges.entries × IsTrue (is_apart (values set.ranges)) };
}

impl TreeRangeSet {
    ghost use Rattle.std.specs.Prelude.{◌≡◌, ◌==◌, ◌<◌, ◌^◌, ◌||◌, ◌&&◌, not, [], length, IsTrue, None, IfOk, OnOk};
    ghost use Rattle.std.specs.Prelude.{OnErr};
    ghost use Rattle.std.specs.Map.Iter.{ShowsInOrder, deref};
    ghost use Rattle.fdb_keys.specs.Answers.{Answers};
    ghost use Rattle.fdb_keys.specs.Insertion.{with_range, with_ranges};
    ghost use Rattle.fdb_keys.specs.Points.{Point};
    ghost use Rattle.fdb_keys.specs.Ranges.{Range, in_range, in_set, is_apart};
    ghost use Rattle.fdb_keys.specs.Removal.{outside};

    /// The empty set. It takes no memory.
    pub fn new(alloc: Global) -> Self
        ensures { result ≡ [] }
    {
        TreeRangeSet {
            alloc,
            ranges: BTreeMap::new(alloc),
        }
    }

    /// Whether the set has no range.
    pub fn is_empty(&self) -> bool
        ensures { result ≡ (length self.now == 0) }
    {
        self.ranges.is_empty()
    }

    /// Whether the key lies in some range of the set.
    pub fn contains(&self, key: &Key) -> bool
        ensures value { result ≡ in_set self.now key.now }
        ensures apart { IsTrue (is_apart self.now) }
    {
        match last_by(&self.ranges, key.text()) {
            Some(range) => range.contains(key),
            None => false,
        }
    }

    /// Adds the keys of the range. An empty range adds nothing. Refused only as `NoMemory`, and then
    /// nothing changes.
    pub fn add(&mut self, range: &KeyRange) -> Result<(), Refusal>
        ensures answers { Answers result None
            (λ _. (x : Point) → in_set self.new x ≡ (in_range range.now x || in_set self.old x)) }
        ensures list { OnOk result (self.new ≡ with_range range.now self.old) }
        ensures err { OnErr result (self.new ≡ self.old) }
    {
        let first = last_by(&self.ranges, range.begin_text());
        if range.is_empty() || is_held(range, first) {
            return Ok(());
        }
        let joined = join_touched(&self.ranges, range, first)?;
        let others = list_begins_within(self.alloc, &self.ranges, &joined)?;
        replace(&mut self.ranges, joined, others.as_slice())?;
        Ok(())
    }

    /// Adds the keys of the range to both sets, or to neither. Refused only as `NoMemory`, and then nothing changes.
    pub fn add_to_both(first: &mut Self, second: &mut Self, range: &KeyRange) -> Result<(), Refusal>
        ensures answers { Answers result None (λ _. first.new ≡ with_range range.now first.old) }
        ensures second { OnOk result (second.new ≡ with_range range.now second.old) }
        ensures first_err { OnErr result (first.new ≡ first.old) }
        ensures second_err { OnErr result (second.new ≡ second.old) }
    {
        if range.is_empty() {
            return Ok(());
        }
        add_both(first.alloc, &mut first.ranges, &mut second.ranges, range)?;
        Ok(())
    }

    /// Adds the keys of all ranges of the other set, or none of them. It takes what each range takes alone. Refused
    /// only as `NoMemory`, and then nothing changes.
    pub fn add_all(&mut self, ranges: &RangeSet) -> Result<(), Refusal>
        ensures answers { Answers result None
            (λ _. (x : Point) → in_set self.new x ≡ (in_set ranges.now x || in_set self.old x)) }
        ensures list { OnOk result (self.new ≡ with_ranges ranges.now self.old) }
        ensures err { OnErr result (self.new ≡ self.old) }
    {
        tree_joining::add_all(self.alloc, &mut self.ranges, ranges)
    }

    /// The parts of the range that are not in the set. It takes a look-up and what the set has inside the range.
    /// Refused only as `NoMemory`.
    pub fn outside(&self, alloc: Global, range: &KeyRange) -> Result<RangeSet, Refusal>
        ensures answers { Answers result None (λ left. left ≡ outside self.now range.now) }
        ensures points { IfOk result (λ left. (x : Point)
            → in_set left x ≡ (in_range range.now x && not (in_set self.now x))) }
        ensures apart { IfOk result (λ left. IsTrue (is_apart left)) }
    {
        if range.is_empty() {
            return Ok(RangeSet::new(alloc));
        }
        let left = outside(alloc, &self.ranges, range)?;
        Ok(RangeSet::from_ranges(left))
    }

    /// The ranges of the set: sorted, none touching the next, and none empty.
    pub fn iter(&self) -> Values<'_, Bytes, KeyRange>
        ensures ranges { result ≡ self.now }
        ensures apart { IsTrue (is_apart self.now) }
        ensures runs { ShowsInOrder (deref {X = Range}) }
        ensures fits { length self.now < 2 ^ 63 }
    {
        self.ranges.values()
    }

    /// The same ranges as a `RangeSet`. Refused only as `NoMemory`.
    pub fn to_set(&self, alloc: Global) -> Result<RangeSet, Refusal>
        ensures { Answers result None (λ set. set ≡ self.now) }
    {
        let mut ranges = Vec::with_capacity(alloc, self.ranges.len())?;
        for range in self.iter() {
            ranges.push(range.clone()?)?;
        }
        Ok(RangeSet::from_ranges(ranges))
    }
}
