// One read of a whole range, by a transaction that wrote keys of it.
ghost use Rattle.std.specs.Prelude.{◌≡◌, ◌<◌};

use crate::client::map_of;
use crate::numbers::{Fault, text_of};
use crate::storage::set_of;
use fdb_client::{Finished, PlainSnapshot, Txn};
use fdb_keys::{Items, Key, KeyRange, Refusal, Refused};
use fdb_mutations::{Mutation, PlainMap};
use fdb_txn::TxnId;
use rand_pcg::Pcg32;
use std::alloc::Global;
use std::time::{Clock, Duration, Instant};

// The version that the map is read at.
const VERSION: u64 = 1_000;

// How long a value of an own write is.
const BYTES: u32 = 16;

/// What is measured of a scan.
#[derive(Clone, Copy)]
pub(crate) struct Setting {
    /// How many keys the map holds, all of them in the range.
    pub(crate) pairs: u32,
    /// How many other keys of the range the transaction sets.
    pub(crate) own: u32,
}

/// How long a scan takes.
#[derive(Clone, Copy)]
pub(crate) struct Took {
    /// The read of the range.
    pub(crate) reading: Duration,
    /// To finish the transaction, which leaves it to be committed.
    pub(crate) finishing: Duration,
}

/// How long a transaction takes to read the whole range, and to be finished then. Before that it sets keys of the
/// range, evenly spread among those of the map, and one key outside of it, so that it isn't read-only; that, and making
/// what it sets, lies outside of that time.
pub(crate) fn measure<R: Clock>(rt: &R, alloc: Global, setting: &Setting) -> Result<Took, Fault> {
    let mut random = Pcg32::new(1, 1);
    let keys = keys_of(alloc, setting.pairs)?;
    let map = map_of(alloc, &mut random, keys.as_slice())?;
    let sets = own_sets(alloc, setting)?;
    scan(rt, alloc, &map, sets.as_slice())
}

// The keys of the map.
fn keys_of(alloc: Global, count: u32) -> Result<Vec<Key>, Refusal> {
    let mut keys = Vec::new(alloc);
    for number in 0..count {
        keys.push(Key::new(alloc, &text_of(number))?)?;
    }
    Ok(keys)
}

// The own writes: a set of a key outside of the range, and those of the keys within it.
fn own_sets(alloc: Global, setting: &Setting) -> Result<Items<Mutation>, Refusal> {
    let mut sets = Items::new(alloc);
    let outside = Key::new(alloc, &[2])?;
    sets.push(set_of(alloc, &outside, 0, BYTES)?)?;
    for place in 0..setting.own {
        let key = own_key(alloc, setting, place)?;
        sets.push(set_of(alloc, &key, 0, BYTES)?)?;
    }
    Ok(sets)
}

// The own key of the place, which follows that key of the map which has as large a part of them before it.
fn own_key(alloc: Global, setting: &Setting, place: u32) -> Result<Key, Refusal>
    requires { place < setting.now.own }
{
    let before = u64::from(place).saturating_mul(u64::from(setting.pairs)) / u64::from(setting.own);
    let mut text = Vec::new(alloc);
    text.extend_from_slice(&before.to_be_bytes())?;
    text.extend_from_slice(&text_of(place))?;
    Key::new(alloc, text.as_slice())
}

// How long the scan of the map takes.
fn scan<R: Clock>(rt: &R, alloc: Global, map: &PlainMap, sets: &[Mutation]) -> Result<Took, Fault> {
    let id = TxnId {
        session: 0,
        number: 0,
    };
    let snapshot = PlainSnapshot {
        version: VERSION,
        map,
    };
    let range = KeyRange::new(alloc, &[], &[1])?;
    let mut txn = Txn::begin(alloc, id, VERSION);
    write_all(&mut txn, sets)?;
    let reading = read_timed(rt, &mut txn, &snapshot, &range)?;
    let finishing = finish_timed(rt, txn)?;
    Ok(Took { reading, finishing })
}

// The transaction takes all of the sets.
fn write_all(txn: &mut Txn, sets: &[Mutation]) -> Result<(), Refusal>
    ensures { txn.new.read_version ≡ txn.old.read_version }
{
    for set in sets {
        txn.write_copy(set)?;
    }
    Ok(())
}

// How long the read of the range takes.
fn read_timed<R: Clock>(
    rt: &R,
    txn: &mut Txn,
    snapshot: &PlainSnapshot<'_>,
    range: &KeyRange,
) -> Result<Duration, Fault>
    requires { snapshot.now.version ≡ txn.old.read_version }
{
    let begin = Instant::now(rt)?;
    let pairs = txn.get_range(snapshot, range, 0, false, false)?;
    let took = begin.elapsed(rt);
    drop(pairs);
    Ok(took?)
}

// How long it takes to finish the transaction. What it leaves is dropped outside of that time.
fn finish_timed<R: Clock>(rt: &R, txn: Txn) -> Result<Duration, Fault> {
    let begin = Instant::now(rt)?;
    let finished = txn.finish();
    let took = begin.elapsed(rt);
    end(finished)?;
    Ok(took?)
}

// Drops what a transaction left, or says why it was refused.
fn end(finished: Result<Finished, Refused<Txn>>) -> Result<(), Refusal> {
    match finished {
        Ok(_finished) => Ok(()),
        Err(refused) => Err(refused.why),
    }
}
