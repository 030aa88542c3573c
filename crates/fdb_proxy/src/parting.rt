// What each resolver is sent of a batch.
ghost use Rattle.std.specs.Prelude.{◌≡◌, ◌<◌, ◌≤◌, ◌-◌, ◌^◌, ◌&&◌, ◌||◌, ◌++◌, ℕ, min, List, length};
ghost use Rattle.std.specs.Prelude.{◌∷◌, [], true, suc, slice_get, Some, None, Option, IfOk};
ghost use Rattle.std.specs.Option.{option_to_list};
ghost use Rattle.std.specs.List.{AllByRecursion};
ghost use Rattle.fdb_keys.specs.Answers.{Answers};
ghost use Rattle.fdb_keys.specs.Points.{Point};
ghost use Rattle.fdb_keys.specs.Ranges.{in_set};
ghost use Rattle.fdb_txn.specs.book.Book.{DatedMove, Place, head_at, placed};
ghost use Rattle.fdb_txn.specs.rules.Admission.{has_points};
ghost use Rattle.fdb_owners.specs.Ownership.{resolvers_of, owned_between};
ghost use Rattle.fdb_owners.specs.OwnersLaws.{AgreesWith};
ghost use Rattle.fdb_owners.specs.Spreads.{AreOwned, is_held};
ghost use Rattle.fdb_proxy.specs.Parting.{AreItems, AreParts};
ghost use Rattle.fdb_proxy.specs.Spreads.{IsOwned, IsSpreadOf, IsItemIfAsked};
ghost use Rattle.fdb_proxy.specs.Held.{Held, with_ranges, with_parts, is_at, IsBelow, IsItemWith, EndsWithItem};
ghost use Rattle.fdb_proxy.specs.Held.{items_at, IsPartWith};

use crate::position::Position;
use fdb_keys::{Items, RangeSet, Refusal, SharedList};
use fdb_owners::{Owned, Owners};
use fdb_resolver::{Item, Part};
use fdb_txn::Sealed;
use std::alloc::Global;

// Of which keys of a transaction a part is.
#[derive(Clone, Copy)]
enum Kind {
    Reads,
    Writes,
}

// What each resolver that is asked about a transaction is told of its reads.
#[derive(Clone, Copy)]
struct Reading {
    read_version: u64,
    has_reads: bool,
}

// A transaction's reads and writes, in parts of the resolvers that are asked about them.
#[derive(Drop)]
struct Spread {
    reading: Reading,
    reads: Items<Owned>,
    writes: Items<Owned>,
}

fn has_points(set: &RangeSet) -> bool
    ensures { result ≡ has_points set.now }
{
    set.iter().any(|range| !range.is_empty())
}

// The parts of the set, by who owned each key at some version above `from` and at most `version`: nobody did where
// `from` isn't below `version`.
fn readers_of(
    alloc: Global,
    owners: &Owners,
    set: &RangeSet,
    from: u64,
    version: u64,
) -> Result<Items<Owned>, Refusal>
    requires { owners.now.floor ≤ from }
    ensures owned { IfOk result (AreOwned (resolvers_of owners.now)) }
    ensures held { Answers result None (λ parts. (i : ℕ) (x : Point)
        → is_held parts i x ≡ (in_set set.now x && owned_between owners.now i x from version)) }
{
    if from >= version {
        return Ok(Items::new(alloc));
    }
    owners.readers_of(set, from, version)
}

// A transaction of the entry with the version and horizon, spread by owners that have learnt the moves through it.
fn spread_txn(
    alloc: Global,
    owners: &Owners,
    version: u64,
    horizon: u64,
    txn: &Sealed,
) -> Result<Spread, Refusal>
    requires learnt { owners.now.last ≤ version }
    requires kept { owners.now.floor ≤ min horizon version }
    ensures owned { IfOk result (IsOwned (resolvers_of owners.now)) }
    ensures spread { Answers result None (λ spread. (moves : List DatedMove) (number : ℕ)
        → AgreesWith owners.now moves
        → IsSpreadOf owners.now.splits (placed (head_at version horizon moves) number txn.now) spread) }
{
    let read_version = txn.read_version();
    let from = read_version.max(horizon);
    let reads = readers_of(alloc, owners, txn.reads(), from, version)?;
    let writes = owners.writers_of(txn.writes())?;
    let reading = Reading {
        read_version,
        has_reads: has_points(txn.reads()),
    };
    Ok(Spread {
        reading,
        reads,
        writes,
    })
}

// Whether the last of the items is of the place.
fn ends_at(items: &[Item], place: u32) -> bool
    ensures { result ≡ is_at place (slice_get items.now (length items.now - 1)) }
{
    match items.last() {
        Some(item) => item.place == place,
        None => false,
    }
}

// Where the place's item stands among the resolver's, which end with it. It is made where it isn't there yet.
fn open_item(
    alloc: Global,
    items: &mut Vec<Item>,
    place: u32,
    reading: Reading,
) -> Result<usize, Refusal>
    ensures within { IfOk result (λ index. index < length items.new.items) }
    ensures answers { Answers result None (λ index. (held : Held) (before : List Item)
        → AllByRecursion (IsBelow place) before → EndsWithItem place reading held before items.old.items
        → (item : Item) × (items.new.items ≡ before ++ item ∷ []) × (index ≡ length before)
        × IsItemWith place reading held item) }
{
    if !ends_at(items.as_slice(), place) {
        items.push(Item {
            place,
            read_version: reading.read_version,
            has_reads: reading.has_reads,
            reads: RangeSet::new(alloc),
            writes: RangeSet::new(alloc),
        })?;
    }
    Ok(items.len() - 1)
}

// The part's keys come to the set, which takes the part's own ranges where it is empty.
fn join_part(set: &mut RangeSet, part: Owned) -> Result<(), Refusal>
    ensures { Answers result None
        (λ _. (x : Point) → in_set set.new x ≡ (in_set part.ranges x || in_set set.old x)) }
{
    if set.is_empty() {
        *set = part.ranges;
        return Ok(());
    }
    part.add_to(set)
}

// The part's keys come to those of the item.
fn add_to_item(item: &mut Item, kind: Kind, part: Owned) -> Result<(), Refusal>
    ensures { Answers result None (λ _. (place : ℕ) (reading : Reading) (held : Held)
        → IsItemWith place reading held item.old
        → IsItemWith place reading (with_ranges kind part.ranges held) item.new) }
{
    match kind {
        Kind::Reads => join_part(&mut item.reads, part),
        Kind::Writes => join_part(&mut item.writes, part),
    }
}

// The part comes to the place's item, at the end of the items of the part's resolver.
fn hold(
    alloc: Global,
    items: &mut Vec<Item>,
    place: u32,
    reading: Reading,
    kind: Kind,
    part: Owned,
) -> Result<(), Refusal>
    requires some { has_points part.ranges ≡ true }
    ensures { Answers result None (λ _. (held : Held) (before : List Item)
        → AllByRecursion (IsBelow place) before → EndsWithItem place reading held before items.old.items
        → EndsWithItem place reading (with_ranges kind part.ranges held) before items.new.items) }
{
    let index = open_item(alloc, items, place, reading)?;
    add_to_item(&mut items[index], kind, part)?;
    Ok(())
}

// Each part comes to the items of its resolver.
fn hold_all(
    alloc: Global,
    lists: &mut [Vec<Item>],
    place: u32,
    reading: Reading,
    kind: Kind,
    parts: Items<Owned>,
) -> Result<(), Refusal>
    requires owned { AreOwned (length lists.old) parts }
    ensures count { length lists.new ≡ length lists.old }
    ensures answers { Answers result None (λ _. (i : ℕ) (held : Held) (before : List Item)
        → i < length lists.old → AllByRecursion (IsBelow place) before
        → EndsWithItem place reading held before (items_at lists.old i)
        → EndsWithItem place reading (with_parts kind parts i held) before (items_at lists.new i)) }
{
    for part in parts.into_vec() {
        hold(
            alloc,
            &mut lists[part.resolver as usize],
            place,
            reading,
            kind,
            part,
        )?;
    }
    Ok(())
}

// Each resolver that is asked about the place has its item after those that it had.
fn hold_place(
    alloc: Global,
    lists: &mut [Vec<Item>],
    place: u32,
    spread: Spread,
) -> Result<(), Refusal>
    requires owned { IsOwned (length lists.old) spread }
    ensures count { length lists.new ≡ length lists.old }
    ensures answers { Answers result None (λ _. (i : ℕ) → i < length lists.old
        → AllByRecursion (IsBelow place) (items_at lists.old i)
        → (item : Option Item)
        × (items_at lists.new i ≡ items_at lists.old i ++ option_to_list item)
        × AllByRecursion (IsBelow (suc place)) (items_at lists.new i)
        × ((splits : List Point) (of : Place) → IsSpreadOf splits of spread
        → IsItemIfAsked splits i place of item)) }
{
    let Spread {
        reading,
        reads,
        writes,
    } = spread;
    hold_all(alloc, lists, place, reading, Kind::Reads, reads)?;
    hold_all(alloc, lists, place, reading, Kind::Writes, writes)?;
    Ok(())
}

// A list without items for each resolver.
fn no_items(alloc: Global, resolvers: u32) -> Result<Vec<Vec<Item>>, Refusal>
    ensures { Answers result None (λ lists. (length lists.items ≡ resolvers)
        × ((i : ℕ) → i < resolvers → items_at lists.items i ≡ [])) }
{
    let mut lists = Vec::new(alloc);
    for _ in 0..resolvers {
        lists.push(Vec::new(alloc))?;
    }
    Ok(lists)
}

// What each resolver is sent of the entry's batch. What one transaction's spread takes is given back before the next
// one is made, which so takes memory that is still in the processor's cache.
fn items_of(
    alloc: Global,
    owners: &Owners,
    version: u64,
    horizon: u64,
    batch: &[Sealed],
) -> Result<Vec<Vec<Item>>, Refusal>
    requires few { length batch.now < 2 ^ 32 }
    requires learnt { owners.now.last ≤ version }
    requires kept { owners.now.floor ≤ min horizon version }
    ensures few { IfOk result (λ lists. length lists.items < 2 ^ 32) }
    ensures items { Answers result None (λ lists. (length lists.items ≡ resolvers_of owners.now)
        × ((i : ℕ) → i < resolvers_of owners.now → (moves : List DatedMove) → AgreesWith owners.now moves
        → AreItems owners.now.splits (head_at version horizon moves) i 0 batch.now (items_at lists.items i))) }
{
    let mut lists = no_items(alloc, owners.resolvers())?;
    for (place, txn) in batch.iter().enumerate() {
        let spread = spread_txn(alloc, owners, version, horizon, txn)?;
        hold_place(alloc, lists.as_mut_slice(), place as u32, spread)?;
    }
    Ok(lists)
}

// The parts of the entry at the position, each of the resolver with its number.
fn parts_with(
    alloc: Global,
    position: Position,
    lists: Vec<Vec<Item>>,
) -> Result<Items<Part>, Refusal>
    requires few { length lists.items < 2 ^ 32 }
    ensures { Answers result None (λ parts. (length parts ≡ length lists.items)
        × ((i : ℕ) (part : Part) → slice_get parts i ≡ Some part
        → IsPartWith position i (items_at lists.items i) part)) }
{
    let mut parts = Items::new(alloc);
    for items in lists {
        let resolver = parts.len() as u32;
        parts.push(Part {
            resolver,
            index: position.index,
            version: position.version,
            prev: position.prev,
            horizon: position.horizon,
            items: SharedList::new(alloc, Items::from_vec(items))?,
        })?;
    }
    Ok(parts)
}

/// The part of each resolver of the batch at the position, in the order of their numbers, by owners that have learnt
/// the moves through the position's version and none after it, and have forgotten none from its horizon on, nor from
/// its version on where that is less. A resolver has an item for each transaction that it is asked about: nobody is
/// asked about what was read where the horizon, or the transaction's read version, isn't below the position's version.
/// There are fewer than 2^32 transactions. Refused only as `NoMemory`.
///
/// The owners tell who owns a whole set of the batch, if one look finds it, else who owns each of its ranges. What they
/// told is then gone through once, whoever it is for: in O(n + r) time for n of their parts and r resolvers, beside
/// what adding the parts' ranges to the items' sets takes.
pub fn parts_of(
    alloc: Global,
    owners: &Owners,
    position: Position,
    batch: &[Sealed],
) -> Result<Items<Part>, Refusal>
    requires few { length batch.now < 2 ^ 32 }
    requires learnt { owners.now.last ≤ position.version }
    requires kept { owners.now.floor ≤ min position.horizon position.version }
    ensures { Answers result None (λ parts. (moves : List DatedMove) → AgreesWith owners.now moves
        → AreParts owners.now.splits moves position batch.now parts) }
{
    let lists = items_of(alloc, owners, position.version, position.horizon, batch)?;
    let parts = parts_with(alloc, position, lists)?;
    Ok(parts)
}
