ghost use Rattle.std.specs.Prelude.{◌≡◌, ◌++◌, [], None, IsTrue, OnOk, OnErr, take, length};
ghost use Rattle.std.specs.List.{list_any};
ghost use Rattle.fdb_keys.specs.Answers.{Answers};
ghost use Rattle.fdb_keys.specs.Insertion.{with_ranges};
ghost use Rattle.fdb_keys.specs.Points.{point_eq};
ghost use Rattle.fdb_keys.specs.Ranges.{in_range, in_set, is_apart};
ghost use Rattle.fdb_client.specs.Conflicts.{with_listed};

use crate::own_writes::OwnWrites;
use fdb_keys::{Items, Key, KeyRange, RangeSet, Refusal, TreeRangeSet};
use fdb_mutations::Mutation;
use std::alloc::{AllocError, Global};
use std::marker::Model;

/// What an open transaction reads or writes: a set of keys that grows by single keys and by ranges, seen as the
/// shortest sorted list of ranges that hold it. What is added is only put down, which takes O(1) time for a key and for
/// a range; the list is put together in `to_set`.
#[derive(Drop)]
pub struct ConflictSet {
    alloc: Global,
    // Keys in the order in which they were added, any of them more than once.
    keys: Items<Key>,
    // Ranges in the order in which they were added, any of them more than once. None of them is empty.
    ranges: Items<KeyRange>,
}

impl Model for ConflictSet {
    ghost use Rattle.std.specs.Prelude.{List};
    ghost use Rattle.fdb_keys.specs.Ranges.{Range};
    ghost use Rattle.fdb_client.specs.Conflicts.{joined, HavePoints};

    ghost Value = { List Range };

    ghost view = { λ set. joined set.keys set.ranges };

    ghost invariant = { λ set. HavePoints set.ranges };
}

impl ConflictSet {
    ghost use Rattle.std.specs.Prelude.{◌≡◌, ◌==◌, [], length, None, OnOk, OnErr, IsTrue, if◌then◌else◌};
    ghost use Rattle.std.specs.List.{list_any};
    ghost use Rattle.fdb_keys.specs.Answers.{Answers};
    ghost use Rattle.fdb_keys.specs.Insertion.{with_range, with_ranges};
    ghost use Rattle.fdb_keys.specs.Points.{Point, point_eq};
    ghost use Rattle.fdb_keys.specs.Ranges.{single_range, in_set, is_apart};
    ghost use Rattle.fdb_client.specs.LeftAt.{left_at, HasLegalKeys};
    ghost use Rattle.fdb_client.specs.OwnWrites.{left_after};

    // The empty set. It takes no memory.
    pub(crate) fn new(alloc: Global) -> Self
        ensures { result ≡ [] }
    {
        ConflictSet {
            alloc,
            keys: Items::new(alloc),
            ranges: Items::new(alloc),
        }
    }

    /// Whether the set has no range. It takes no memory, and O(1) time.
    pub fn is_empty(&self) -> bool
        ensures { result ≡ (length self.now == 0) }
    {
        self.keys.is_empty() && self.ranges.is_empty()
    }

    /// Whether the key lies in the set. It takes no memory, and O(n) time for n keys and ranges that were added.
    pub fn contains(&self, key: &Key) -> bool
        ensures value { result ≡ in_set self.now key.now }
        ensures apart { IsTrue (is_apart self.now) }
    {
        has(self.keys.as_slice(), key) || lies_in(self.ranges.as_slice(), key)
    }

    /// The ranges of the set: sorted, none touching the next, and none empty. It takes O(n log n) comparisons of bounds
    /// for n keys and ranges that were added. Refused only as `NoMemory`.
    pub fn to_set(&self, alloc: Global) -> Result<RangeSet, Refusal>
        ensures { Answers result None (λ set. set ≡ self.now) }
    {
        let mut set = set_of(alloc, &self.ranges)?;
        if !self.keys.is_empty() {
            set.add_all(KeyRange::singles(alloc, self.keys.as_slice())?)?;
        }
        Ok(set)
    }

    // Adds the key alone. Where memory runs out, nothing changes.
    pub(crate) fn add_key(&mut self, key: &Key) -> Result<(), Refusal>
        ensures answers { Answers result None (λ _. self.new ≡ with_range (single_range key.now) self.old) }
        ensures err { OnErr result (self.new ≡ self.old) }
    {
        let key = key.clone()?;
        self.keys.push(key)?;
        Ok(())
    }

    // Adds the keys of the range. Where memory runs out, nothing changes.
    pub(crate) fn add(&mut self, range: &KeyRange) -> Result<(), Refusal>
        ensures answers { Answers result None (λ _. self.new ≡ with_range range.now self.old) }
        ensures err { OnErr result (self.new ≡ self.old) }
    {
        push(&mut self.ranges, range)?;
        Ok(())
    }

    // Adds the keys of all the ranges. Where memory runs out, nothing changes. It takes O(n) time for n ranges.
    pub(crate) fn add_all(&mut self, ranges: &RangeSet) -> Result<(), Refusal>
        ensures answers { Answers result None (λ _. self.new ≡ with_ranges ranges.now self.old) }
        ensures err { OnErr result (self.new ≡ self.old) }
    {
        let count = self.ranges.len();
        if let Err(why) = push_all(&mut self.ranges, ranges) {
            self.ranges.truncate(count);
            return Err(why.into());
        }
        Ok(())
    }

    // Adds the keys of the range to this set and to the other one, or to neither.
    pub(crate) fn add_beside(
        &mut self,
        other: &mut TreeRangeSet,
        range: &KeyRange,
    ) -> Result<(), Refusal>
        ensures answers { Answers result None (λ _. self.new ≡ with_range range.now self.old) }
        ensures err { OnErr result (self.new ≡ self.old) }
        ensures other { OnOk result (other.new ≡ with_range range.now other.old) }
        ensures other_err { OnErr result (other.new ≡ other.old) }
    {
        let count = self.ranges.len();
        push(&mut self.ranges, range)?;
        if let Err(why) = other.add(range) {
            self.ranges.truncate(count);
            return Err(why);
        }
        Ok(())
    }

    // Adds the key of a mutation, which joins the own writes. Where memory runs out, nothing changes.
    pub(crate) fn add_changed(
        &mut self,
        own: &mut OwnWrites,
        key: &Key,
        mutation: &Mutation,
    ) -> Result<(), Refusal>
        requires { HasLegalKeys own.old }
        ensures kept { Answers result None (λ _. (x : Point) → left_at own.new x
            ≡ (if point_eq x key.now then left_after (left_at own.old x) mutation.now else left_at own.old x)) }
        ensures cleared { own.new.cleared ≡ own.old.cleared }
        ensures legal_keys { HasLegalKeys own.new }
        ensures kept_err { OnErr result ((x : Point) → left_at own.new x ≡ left_at own.old x) }
        ensures list { OnOk result (self.new ≡ with_range (single_range key.now) self.old) }
        ensures list_err { OnErr result (self.new ≡ self.old) }
    {
        let count = self.keys.len();
        self.keys.push(key.clone()?)?;
        if let Err(why) = own.change(self.alloc, key, mutation) {
            self.keys.truncate(count);
            return Err(why);
        }
        Ok(())
    }
}

// Whether the key is among the keys.
fn has(keys: &[Key], key: &Key) -> bool
    ensures { result ≡ list_any (point_eq key.now) keys.now }
{
    keys.iter().any(
        |held: &Key| -> bool
            ensures { result ≡ point_eq key.entry.now held.now }
        { key == held },
    )
}

// Whether the key lies in one of the ranges.
fn lies_in(ranges: &[KeyRange], key: &Key) -> bool
    ensures { result ≡ in_set ranges.now key.now }
{
    ranges.iter().any(
        |range: &KeyRange| -> bool
            ensures { result ≡ in_range range.now key.entry.now }
        { range.contains(key) },
    )
}

// Puts down a copy of the range, unless it is empty. Where memory runs out, nothing changes.
fn push(list: &mut Items<KeyRange>, range: &KeyRange) -> Result<(), AllocError>
    ensures ok { OnOk result (list.new ≡ with_listed range.now list.old) }
    ensures err { OnErr result (list.new ≡ list.old) }
{
    if range.is_empty() {
        return Ok(());
    }
    let copy = range.clone()?;
    list.push(copy)?;
    Ok(())
}

// Puts down copies of the ranges. Where memory runs out, some of them may be put down.
fn push_all(list: &mut Items<KeyRange>, ranges: &RangeSet) -> Result<(), AllocError>
    ensures ok { OnOk result (list.new ≡ list.old ++ ranges.now) }
    ensures err { OnErr result (take (length list.old) list.new ≡ list.old) }
    ensures apart { IsTrue (is_apart ranges.now) }
{
    for range in ranges.iter() {
        list.push(range.clone()?)?;
    }
    Ok(())
}

// The set of the ranges.
fn set_of(alloc: Global, ranges: &Items<KeyRange>) -> Result<RangeSet, Refusal>
    ensures { Answers result None (λ set. set ≡ with_ranges ranges.now []) }
{
    let mut set = RangeSet::new(alloc);
    if ranges.is_empty() {
        return Ok(set);
    }
    let copies = ranges.clone()?.into_vec();
    set.add_all(copies)?;
    Ok(set)
}
