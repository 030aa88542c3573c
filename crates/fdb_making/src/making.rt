// What tests make. The prover goes over every kind of mutation wherever one goes out of scope, so each is made in the
// call that uses it up.
ghost use Rattle.std.specs.Prelude.{◌≡◌, [], ◌∷◌, ◌++◌, All, None, IfOk};
ghost use Rattle.fdb_mutations.specs.Mutations.{mutation_fault};

use crate::asking::{after, made_of};
use bytes::Bytes;
use fdb_keys::{Items, Key, KeyRange, RangeSet, Refusal, SharedList};
use fdb_mutations::{Mutation, PlainMap, VALUE_LIMIT};
use fdb_txn::{Sealed, TxnId};
use std::alloc::Global;

/// The byte as many times.
pub fn text_of(alloc: Global, byte: u8, count: usize) -> Result<Vec<u8>, Refusal> {
    let text = vec![in alloc; byte; count]?;
    Ok(text)
}

/// Adds the item at the end.
pub fn push<T: Drop>(items: &mut Items<T>, item: T) -> Result<(), Refusal>
    ensures { IfOk result (λ _. items.new ≡ items.old ++ item ∷ []) }
{
    items.push(item)?;
    Ok(())
}

/// The keys of the texts, in their order.
pub fn keys_of(alloc: Global, texts: &[&[u8]]) -> Result<Items<Key>, Refusal> {
    let mut keys = Items::new(alloc);
    for text in texts {
        keys.push(Key::new(alloc, text)?)?;
    }
    Ok(keys)
}

/// As many keys of one byte that rise.
pub fn rising_keys(alloc: Global, count: u8) -> Result<Items<Key>, Refusal> {
    let mut keys = Items::new(alloc);
    for byte in 0..count {
        keys.push(Key::new(alloc, &[byte])?)?;
    }
    Ok(keys)
}

/// These keys, or as many keys of one byte that rise.
#[derive(Clone, Copy)]
pub enum Splits {
    /// The keys of these texts.
    Keys(&'static [&'static [u8]]),
    /// So many keys of one byte.
    Rising(u8),
}

/// The keys that are said.
pub fn splits_of(alloc: Global, splits: Splits) -> Result<Items<Key>, Refusal> {
    match splits {
        Splits::Keys(texts) => keys_of(alloc, texts),
        Splits::Rising(count) => rising_keys(alloc, count),
    }
}

/// Whether these are the bounds of the range.
pub fn has_bounds(range: &KeyRange, begin: &[u8], end: &[u8]) -> bool {
    range.begin() == begin && range.end() == end
}

/// Whether these are just the ranges with the bounds.
pub fn are_ranges(ranges: &[KeyRange], bounds: &[(&[u8], &[u8])]) -> bool {
    ranges.len() == bounds.len()
        && ranges
            .iter()
            .zip(bounds)
            .all(|(range, (begin, end))| has_bounds(range, begin, end))
}

/// Whether these are just the pairs of the keys and the values, which have one byte each.
pub fn are_pairs(pairs: &[(Key, Bytes)], wanted: &[(u8, u8)]) -> bool {
    pairs.len() == wanted.len()
        && pairs.iter().zip(wanted).all(|(pair, (key, value))| {
            pair.0.bytes() == [*key].as_slice() && pair.1.as_slice() == [*value].as_slice()
        })
}

fn add_range(set: &mut RangeSet, alloc: Global, begin: &[u8], end: &[u8]) -> Result<(), Refusal> {
    made_of(KeyRange::new(alloc, begin, end), |range| set.add(range))
}

/// The set of the ranges, which are added one after another.
pub fn set_of(alloc: Global, bounds: &[(&[u8], &[u8])]) -> Result<RangeSet, Refusal> {
    let mut set = RangeSet::new(alloc);
    for (begin, end) in bounds {
        add_range(&mut set, alloc, begin, end)?;
    }
    Ok(set)
}

/// The set of the key alone.
pub fn one_key(alloc: Global, key: &[u8]) -> Result<RangeSet, Refusal> {
    let range = made_of(Key::new(alloc, key), |key| KeyRange::single(alloc, key));
    made_of(
        range,
        |range| after(Ok(RangeSet::new(alloc)), |set| set.add(range)),
    )
}

// The key and the bytes of a mutation.
fn parts(alloc: Global, key: &[u8], bytes: &[u8]) -> Result<(Key, Bytes), Refusal>
    ensures { IfOk result (λ parts. parts.1 ≡ bytes.now) }
{
    let key = Key::new(alloc, key)?;
    let bytes = Bytes::copy_from_slice(alloc, bytes)?;
    Ok((key, bytes))
}

/// The set of a key to a value that isn't too long.
pub fn legal_set(alloc: Global, key: &[u8], value: &[u8]) -> Result<Mutation, Refusal>
    ensures { IfOk result (λ mutation. mutation_fault mutation ≡ None) }
{
    if value.len() > VALUE_LIMIT {
        return Err(Refusal::ValueTooLarge);
    }
    let (key, value) = parts(alloc, key, value)?;
    Ok(Mutation::Set { key, value })
}

/// The set of a key to a value alone.
pub fn one_set(alloc: Global, key: &[u8], value: &[u8]) -> Result<Items<Mutation>, Refusal>
    ensures { IfOk result (λ mutations. All (λ mutation. mutation_fault mutation ≡ None) mutations) }
{
    let mut mutations = Items::new(alloc);
    mutations.push(legal_set(alloc, key, value)?)?;
    Ok(mutations)
}

/// The transaction with these sets and mutations.
pub fn seal(
    alloc: Global,
    id: TxnId,
    read_version: u64,
    reads: RangeSet,
    writes: RangeSet,
    mutations: Items<Mutation>,
) -> Result<Sealed, Refusal>
    requires { All (λ mutation. mutation_fault mutation ≡ None) mutations }
    ensures { IfOk result (λ sealed. sealed.read ≡ read_version) }
{
    let mutations = shared(alloc, mutations)?;
    match Sealed::new(alloc, id, read_version, reads, writes, mutations) {
        Ok(sealed) => Ok(sealed),
        Err(refused) => Err(refused.why),
    }
}

/// The items, which copies share.
pub fn shared<T: Drop>(alloc: Global, items: Items<T>) -> Result<SharedList<T>, Refusal>
    ensures { IfOk result (λ shared. shared ≡ items) }
{
    let shared = SharedList::new(alloc, items)?;
    Ok(shared)
}

/// Changes the map.
pub fn apply(map: &mut PlainMap, mutation: Result<Mutation, Refusal>) -> Result<(), Refusal> {
    made_of(mutation, |mutation| map.apply(mutation))
}

/// The map in which the keys a, b and c have the values 1, 2 and 3.
pub fn filled(alloc: Global) -> Result<PlainMap, Refusal> {
    let mut map = PlainMap::new(alloc);
    apply(&mut map, Mutation::set(alloc, b"c", &[3]))?;
    apply(&mut map, Mutation::set(alloc, b"a", &[1]))?;
    apply(&mut map, Mutation::set(alloc, b"b", &[2]))?;
    Ok(map)
}
