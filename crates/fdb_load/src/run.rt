// The run of committed transactions, one at a time, over a plain map.
ghost use Rattle.std.specs.Prelude.{◌≡◌, ◌↔◌, ◌++◌, IsTrue, None, Some, false, OnOk, IfErr, map as mapped};
ghost use Rattle.std.specs.Bool.{Decides};
ghost use Rattle.std.specs.Option.{option_copied};
ghost use Rattle.fdb_keys.specs.Answers.{Answers};
ghost use Rattle.fdb_keys.specs.declared.refusal.Refusal.TheVariants.{NoMemory};
ghost use Rattle.fdb_mutations.specs.Mutations.{effects};
ghost use Rattle.fdb_mutations.specs.Pairs.{pairs_in};
ghost use Rattle.fdb_mutations.specs.Stamping.{stamped};
ghost use Rattle.fdb_mutations.specs.Stamps.{stamp_bytes};
ghost use Rattle.fdb_load.specs.Runs.{txn_at, written_in, written_at, run_from, run_of, have_places, every_key};
ghost use Rattle.fdb_load.specs.Runs.{AreRising, is_before, receipt_places, spot_places};

use bytes::Bytes;
use fdb_keys::{Key, KeyRange, Refusal};
use fdb_mutations::{Mutation, PlainMap, Stamp};
use fdb_roles::Placed;
use fdb_runtime::{Spot, TxnId};
use fdb_txn::{Entry, Sealed};
use std::alloc::Global;

/// A place of an entry, both counted from 0. Places are in the order in which their transactions run.
#[derive(Clone, Copy, PartialEq, Eq, PartialOrd, Ord)]
pub(crate) struct Place {
    pub(crate) index: u32,
    pub(crate) place: u32,
}

/// Whether each place is behind the one before it.
pub(crate) fn rising(places: &[Place]) -> bool
    ensures { Decides result (AreRising places.now) }
{
    places.is_sorted_by(
        |place: &Place, next: &Place| -> bool
            ensures { result ≡ is_before place.now next.now }
        { is_before(*place, *next) },
    )
}

fn is_before(place: Place, next: Place) -> bool
    ensures { result ≡ is_before place next }
{
    place.index < next.index || (place.index == next.index && place.place < next.place)
}

/// Adds the places of the transactions with a receipt, behind those that are there. Refused only as `NoMemory`.
pub(crate) fn push_receipts(places: &mut Vec<Place>, placed: &[Placed]) -> Result<(), Refusal>
    ensures items { OnOk result (places.new.items ≡ places.old.items ++ receipt_places placed.now) }
    ensures err { IfErr result (λ why. why ≡ NoMemory) }
{
    for receipt in placed {
        push_spot(places, receipt.spot)?;
    }
    Ok(())
}

/// Adds the place of the spot, if it is in an entry. Refused only as `NoMemory`.
pub(crate) fn push_spot(places: &mut Vec<Place>, spot: Spot) -> Result<(), Refusal>
    ensures items { OnOk result (places.new.items ≡ places.old.items ++ spot_places spot) }
    ensures err { IfErr result (λ why. why ≡ NoMemory) }
{
    if let Spot::Entry { index, place, .. } = spot {
        places.push(Place { index, place })?;
    }
    Ok(())
}

/// The place of the transaction with the id, and the version of its entry. It takes O(n) time for n transactions.
pub(crate) fn place_of(entries: &[Entry], id: TxnId) -> Option<(Place, u64)> {
    for (entry, index) in entries.iter().zip(0..) {
        if let Some(place) = place_in(entry.batch.as_slice(), id) {
            return Some((Place { index, place }, entry.version));
        }
    }
    None
}

fn place_in(batch: &[Sealed], id: TxnId) -> Option<u32> {
    for (txn, place) in batch.iter().zip(0..) {
        if txn.id() == id {
            return Some(place);
        }
    }
    None
}

/// Whether the pairs are those of the map that the transactions at the places leave, run in that order from the empty
/// map. They aren't where there is no such place. Refused only as `NoMemory`.
pub(crate) fn are_pairs_of(
    alloc: Global,
    entries: &[Entry],
    places: &[Place],
    pairs: &[(Key, Bytes)],
) -> Result<bool, Refusal>
    ensures { Answers result None (λ are. IsTrue are ↔ (IsTrue (have_places entries.now places.now)
        × (pairs.now ≡ pairs_in (run_of entries.now places.now) every_key false))) }
{
    if !have_places(entries, places) {
        return Ok(false);
    }
    let mut map = PlainMap::new(alloc);
    run_all(&mut map, entries, places)?;
    has_pairs(alloc, &map, pairs)
}

// The range that has every key.
#[tactic(auto, unfolding(fdb_keys::specs::Points::point_lt))]
fn every_key(alloc: Global) -> Result<KeyRange, Refusal>
    ensures { Answers result None (λ range. range ≡ every_key) }
{
    KeyRange::new(alloc, &[], &[0xff])
}

// Whether the pairs are all of the map's.
fn has_pairs(alloc: Global, map: &PlainMap, pairs: &[(Key, Bytes)]) -> Result<bool, Refusal>
    ensures { Answers result None (λ has. IsTrue has ↔ (pairs.now ≡ pairs_in map.now every_key false)) }
{
    let range = every_key(alloc)?;
    let left = map.range(&range, 0, false)?;
    Ok(pairs == left.as_slice())
}

fn have_places(entries: &[Entry], places: &[Place]) -> bool
    ensures { result ≡ have_places entries.now places.now }
{
    places.iter().all(|place| txn_at(entries, *place).is_some())
}

// Runs the transactions at the places.
fn run_all(map: &mut PlainMap, entries: &[Entry], places: &[Place]) -> Result<(), Refusal>
    ensures { Answers result None (λ _. map.new ≡ run_from map.old entries.now places.now) }
{
    for place in places {
        run_place(map, entries, *place)?;
    }
    Ok(())
}

// Runs the transaction at the place, if there is one.
fn run_place(map: &mut PlainMap, entries: &[Entry], place: Place) -> Result<(), Refusal>
    ensures { Answers result None (λ _. map.new ≡ effects map.old (written_at entries.now place)) }
{
    match entries.get(place.index as usize) {
        Some(entry) => run_in(map, entry, place.place),
        None => Ok(()),
    }
}

// Runs the transaction at that place of the entry, if there is one.
fn run_in(map: &mut PlainMap, entry: &Entry, place: u32) -> Result<(), Refusal>
    ensures { Answers result None (λ _. map.new ≡ effects map.old (written_in place (Some entry.now))) }
{
    match entry.batch.as_slice().get(place as usize) {
        Some(txn) => run(map, txn.mutations(), Stamp::of_place(entry.version, place)),
        None => Ok(()),
    }
}

// Runs the mutations with the stamp.
fn run(map: &mut PlainMap, mutations: &[Mutation], stamp: Stamp) -> Result<(), Refusal>
    ensures { Answers result None (λ _. map.new
        ≡ effects map.old (mapped (stamped (stamp_bytes stamp.version stamp.place)) mutations.now)) }
{
    for mutation in mutations {
        map.apply_stamped(mutation, stamp)?;
    }
    Ok(())
}

// The transaction at the place, if there is one.
fn txn_at(entries: &[Entry], place: Place) -> Option<&Sealed>
    ensures { option_copied result ≡ txn_at entries.now place }
{
    let entry = entries.get(place.index as usize)?;
    entry.batch.as_slice().get(place.place as usize)
}
