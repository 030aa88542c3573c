// What all measurements need: numbers from words, keys that look random and are the same at each run, faults.
ghost use Rattle.std.specs.Prelude.{◌≡◌, IfOk};

use fdb_keys::{Items, Key, KeyRange, RangeSet, Refusal, SharedList};
use rand_core::Rng;
use rand_pcg::Pcg32;
use std::alloc::{AllocError, Global};
use std::io;
use thiserror::Error;

/// How many keys there are.
pub(crate) const KEYS: u32 = 1 << 20;

/// How many keys a range has at most.
const LONGEST: u32 = 16;

/// Why nothing was measured.
#[derive(Debug, Drop, Error)]
pub(crate) enum Fault {
    #[error("{0}")]
    Refused(#[from] Refusal),
    #[error("{0}")]
    Io(#[from] io::Error),
    #[error("out of memory")]
    NoMemory(#[from] AllocError),
    #[error("a number is no number, or it is too great")]
    BadNumber,
    #[error("a transaction was not answered as in the run of one at a time")]
    NotSerialized,
    #[error("not all transactions were checked")]
    Miscounted,
    #[error("a transcript was not answered as on its map")]
    NotAnswered,
    #[error("a layer's work and bare calls did not get the same, or got too little")]
    NotGot,
}

/// The number that the word gives, if it is at most 10,000,000.
pub(crate) fn number_of(word: &str) -> Result<u32, Fault> {
    number_up_to(word, 10_000_000)
}

/// How many operations one transaction has by the word, if it is at most 1,000,000: these are in memory all at once,
/// and a transaction that has more is too large anyhow.
pub(crate) fn operations_of(word: &str) -> Result<u32, Fault> {
    number_up_to(word, 1_000_000)
}

/// How many transactions of a kind a running database commits by the word, if it is at most 500,000: its book has room
/// for those of two kinds.
pub(crate) fn transactions_of(word: &str) -> Result<u32, Fault> {
    number_up_to(word, 500_000)
}

fn number_up_to(word: &str, greatest: u32) -> Result<u32, Fault> {
    match word.parse::<u32>() {
        Ok(number) if number <= greatest => Ok(number),
        _ => Err(Fault::BadNumber),
    }
}

/// The key's text: eight bytes, whose order is that of the numbers.
pub(crate) fn text_of(number: u32) -> [u8; 8] {
    u64::from(number).to_be_bytes()
}

/// The range of 1 to 16 keys from a random one on.
pub(crate) fn random_range(alloc: Global, random: &mut Pcg32) -> Result<KeyRange, Refusal> {
    let begin = random.next_u32() % KEYS;
    let count = 1 + random.next_u32() % LONGEST;
    KeyRange::new(alloc, &text_of(begin), &text_of(begin + count))
}

/// A random key of 16 bytes.
pub(crate) fn random_key(alloc: Global, random: &mut Pcg32) -> Result<Key, Refusal> {
    let mut text = Vec::new(alloc);
    // No key begins with the byte FF.
    let head = random.next_u64() >> 1;
    text.extend_from_slice(&head.to_be_bytes())?;
    text.extend_from_slice(&random.next_u64().to_be_bytes())?;
    Key::new(alloc, text.as_slice())
}

/// The keys that split all into so many pieces of equally many.
pub(crate) fn even_splits(alloc: Global, pieces: u32) -> Result<Items<Key>, Refusal> {
    let mut splits = Items::new(alloc);
    for piece in 1..pieces {
        splits.push(Key::new(alloc, &text_of(piece * (KEYS / pieces)))?)?;
    }
    Ok(splits)
}

/// One such range.
pub(crate) fn one_range(alloc: Global, random: &mut Pcg32) -> Result<RangeSet, Refusal> {
    let mut set = RangeSet::new(alloc);
    set.add(&random_range(alloc, random)?)?;
    Ok(set)
}

/// The items, which copies share.
pub(crate) fn shared<T: Drop>(alloc: Global, items: Items<T>) -> Result<SharedList<T>, Refusal>
    ensures { IfOk result (λ shared. shared ≡ items) }
{
    let shared = SharedList::new(alloc, items)?;
    Ok(shared)
}
