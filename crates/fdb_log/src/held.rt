// The mutations that a log holds.
ghost use Rattle.std.specs.Prelude.{◌≡◌, ◌<◌, ◌≤◌, ◌||◌, ℕ, [], length, filter, replicate, IfOk, OnOk, nat_lt, not};
ghost use Rattle.std.specs.Prelude.{slice_get, true, false};
ghost use Rattle.std.specs.Prelude.{MatchOption};
ghost use Rattle.std.specs.BTreeMap.{is_at};
ghost use Rattle.std.specs.List.{AllByRecursion, list_any};
ghost use Rattle.std.specs.List.Sorted.{IsStrictlySortedBy};
ghost use Rattle.std.specs.Map.{keys_of, lookup};
ghost use Rattle.std.specs.Option.{unwrap_or};
ghost use Rattle.fdb_log.specs.Places.{AreRising, has_place, is_place, list_at, place_cmp, places_above, with_one};
ghost use Rattle.fdb_log.specs.TagSets.{is_among};
ghost use Rattle.fdb_log.specs.Waiting.{Waiting, waits};

use crate::keeper::{Keeper, kept_tags};
use crate::message::LogMsg;
use crate::places::Places;
use crate::tag_set::TagSet;
use std::alloc::{AllocError, Global};
use std::collections::BTreeMap;
use std::marker::Model;

/// Each mutation that some tag kept here has not popped, by its place, with its tags that are kept here, and for each
/// tag the places of its mutations that it has not popped.
#[derive(Drop)]
pub(crate) struct Held {
    places: Vec<Places>,
    tags: BTreeMap<(u64, usize), TagSet>,
}

impl Model for Held {
    ghost use Rattle.fdb_log.specs.Places.{Holding};

    ghost Value = { Holding };

    ghost view = { λ held. record { places = held.places.items; waiting = held.tags.entries } };
}

impl Held {
    ghost use Rattle.std.specs.Prelude.{◌≡◌, ◌<◌, ◌≤◌, ◌∷◌, ◌++◌, [], ℕ, length, filter, replicate, true, false, IfOk};
    ghost use Rattle.std.specs.Prelude.{OnOk, slice_get, slice_set};
    ghost use Rattle.std.specs.List.{AllByRecursion};
    ghost use Rattle.std.specs.Option.{unwrap_or};
    ghost use Rattle.fdb_txn.specs.Limits.{tag_limit};
    ghost use Rattle.fdb_log.specs.Waiting.{Waiting, ComesBefore, waits, waiting_of};
    ghost use Rattle.fdb_log.specs.Messages.{is_kept};
    ghost use Rattle.fdb_log.specs.Places.{AreListed, AreRising, has_place, list_at, places_above, with_one};
    ghost use Rattle.fdb_log.specs.TagSets.{is_among};

    /// No mutation, of so many tags.
    pub(crate) fn new(alloc: Global, tags: u32) -> Result<Self, AllocError>
        ensures { IfOk result (λ held. held ≡ record { places = replicate tags []; waiting = [] }) }
    {
        Ok(Held {
            places: no_places(alloc, tags)?,
            tags: BTreeMap::new(alloc),
        })
    }

    /// How many there are.
    pub(crate) fn count(&self) -> u64
        ensures { result ≡ length self.now.waiting }
    {
        self.tags.len() as u64
    }

    /// Adds those of the message's mutations that have a tag which is kept here.
    pub(crate) fn add(&mut self, keeper: Keeper, message: &LogMsg) -> Result<(), AllocError>
        requires number { keeper.log < keeper.logs }
        requires few { keeper.tags ≤ tag_limit }
        requires placed { length self.old.places ≡ keeper.tags }
        requires later { AllByRecursion (λ one. one.0.0 < message.now.version) self.old.waiting }
        ensures waiting { OnOk result (self.new.waiting ≡ self.old.waiting
            ++ waiting_of (is_kept keeper.log keeper.logs keeper.tags) message.now) }
        ensures placed { OnOk result (length self.new.places ≡ keeper.tags) }
        ensures listed { OnOk result ((popped : ℕ → ℕ) (last : ℕ) → last ≤ message.now.version
            → AreListed (is_kept keeper.log keeper.logs keeper.tags) popped last self.old
            → AreListed (is_kept keeper.log keeper.logs keeper.tags) popped message.now.version self.new) }
    {
        for (index, sent) in message.body.as_slice().iter().enumerate() {
            let tags = kept_tags(keeper, sent);
            if !tags.is_empty() {
                self.add_one((message.version, index), tags)?;
            }
        }
        Ok(())
    }

    /// Drops those of which each tag was popped through their version. What waits no longer is among the tag's
    /// mutations through the version, whose places don't fall. It takes O(log n) for each of these.
    pub(crate) fn release(&mut self, popped: &[u64], tag: u32, through: u64)
        requires within { tag < length self.old.places }
        requires rising { (last : ℕ) × AreRising last (list_at self.old.places tag) }
        requires leaves { AllByRecursion
            (λ (one : Waiting). waits (λ tag. unwrap_or (slice_get popped.now tag) 0) one ≡ false
            → (one.0.0 ≤ through) × (has_place (list_at self.old.places tag) one.0 ≡ true)) self.old.waiting }
        ensures { self.new ≡ record {
          places = slice_set self.old.places tag (places_above through (list_at self.old.places tag));
          waiting = filter (waits (λ tag. unwrap_or (slice_get popped.now tag) 0)) self.old.waiting;
        } }
    {
        let places = &mut self.places[tag as usize];
        release_through(places, &mut self.tags, popped, through);
    }

    // Adds the mutation at the place, which comes after the others, with its tags that are kept here.
    fn add_one(&mut self, place: (u64, usize), tags: TagSet) -> Result<(), AllocError>
        requires within { (tag : ℕ) → is_among tags tag ≡ true → tag < length self.old.places }
        requires last { AllByRecursion (λ one. ComesBefore one.0 place) self.old.waiting }
        ensures waiting { OnOk result (self.new.waiting ≡ self.old.waiting ++ (place, tags) ∷ []) }
        ensures placed { OnOk result (length self.new.places ≡ length self.old.places) }
        ensures places { OnOk result ((tag : ℕ)
            → list_at self.new.places tag ≡ with_one place tags self.old.places tag) }
    {
        add_place(&mut self.places, place, &tags)?;
        self.tags.insert(place, tags)?;
        Ok(())
    }
}

// Adds the place to those of each of the tags, in O(t) for t tags.
fn add_place(places: &mut Vec<Places>, place: (u64, usize), tags: &TagSet) -> Result<(), AllocError>
    requires { (tag : ℕ) → is_among tags.now tag ≡ true → tag < length places.old.items }
    ensures placed { OnOk result (length places.new.items ≡ length places.old.items) }
    ensures added { OnOk result ((tag : ℕ)
        → list_at places.new.items tag ≡ with_one place tags.now places.old.items tag) }
{
    let mut left = tags.copy();
    while let Some(tag) = left.pop_first() {
        let own = &mut places[tag as usize];
        own.push(place)?;
    }
    Ok(())
}

// Takes the places up to the version, and drops those mutations there for which no tag waits.
fn release_through(
    places: &mut Places,
    tags: &mut BTreeMap<(u64, usize), TagSet>,
    popped: &[u64],
    through: u64,
)
    requires rising { (last : ℕ) × AreRising last places.old }
    requires leaves { AllByRecursion
        (λ (one : Waiting). waits (λ tag. unwrap_or (slice_get popped.now tag) 0) one ≡ false
        → (one.0.0 ≤ through) × (has_place places.old one.0 ≡ true)) tags.old.entries }
    ensures places { places.new ≡ places_above through places.old }
    ensures waiting { tags.new.entries
        ≡ filter (waits (λ tag. unwrap_or (slice_get popped.now tag) 0)) tags.old.entries }
{
    while let Some(place) = places.next_through(through) {
        drop_unwaited(tags, popped, place);
    }
}

// Drops the mutation at the place, unless some tag waits for it.
fn drop_unwaited(tags: &mut BTreeMap<(u64, usize), TagSet>, popped: &[u64], place: (u64, usize))
    ensures { tags.new.entries
        ≡ filter (λ (one : Waiting). waits (λ tag. unwrap_or (slice_get popped.now tag) 0) one
        || not (is_place place one.0)) tags.old.entries }
{
    if is_unwaited(tags, popped, place) {
        let _dropped = tags.remove(&place);
    }
}

// The keys of a map rise. It does nothing else.
fn know_rising(tags: &BTreeMap<(u64, usize), TagSet>)
    ensures { IsStrictlySortedBy place_cmp (keys_of tags.now.entries) }
{
    let _count = tags.len();
}

// Whether a mutation is held at the place, for which no tag waits.
fn is_unwaited(tags: &BTreeMap<(u64, usize), TagSet>, popped: &[u64], place: (u64, usize)) -> bool
    ensures rising { IsStrictlySortedBy place_cmp (keys_of tags.now.entries) }
    ensures test { MatchOption (lookup (is_at (place_cmp place)) tags.now.entries) (result ≡ false)
        (λ left. result ≡ not (waits (λ tag. unwrap_or (slice_get popped.now tag) 0) (place, left))) }
{
    know_rising(tags);
    match tags.get(&place) {
        Some(left) => !waits(popped, place.0, left),
        None => false,
    }
}

// Whether some of the tags was popped through a version below this one only.
fn waits(popped: &[u64], version: u64, tags: &TagSet) -> bool
    ensures { result ≡ list_any (λ tag. nat_lt (unwrap_or (slice_get popped.now tag) 0) version) tags.now }
{
    let mut left = tags.copy();
    while let Some(tag) = left.pop_first() {
        if is_behind(popped, version, tag) {
            return true;
        }
    }
    false
}

// Whether the tag was popped through a version below this one only.
fn is_behind(popped: &[u64], version: u64, tag: u32) -> bool
    ensures { result ≡ nat_lt (unwrap_or (slice_get popped.now tag) 0) version }
{
    popped.get(tag as usize).copied().unwrap_or(0) < version
}

fn no_places(alloc: Global, count: u32) -> Result<Vec<Places>, AllocError>
    ensures { IfOk result (λ places. places.items ≡ replicate count []) }
{
    let mut places = Vec::new(alloc);
    for _tag in 0..count {
        places.push(Places::new(alloc))?;
    }
    Ok(places)
}
