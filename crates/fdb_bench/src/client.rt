// Transactions of a client, one after another, which read from a plain map.
ghost use Rattle.std.specs.Prelude.{◌≡◌, ◌<◌, length};

use crate::numbers::Fault;
use crate::sealed::sets_of;
use crate::storage::{one_of, pool_of};
use fdb_client::{Finished, PlainSnapshot, Txn};
use fdb_keys::{Items, Key, Refusal};
use fdb_mutations::{Mutation, PlainMap};
use fdb_txn::TxnId;
use rand_pcg::Pcg32;
use std::alloc::Global;
use std::time::{Clock, Duration, Instant};

/// How many keys the map holds.
pub(crate) const KEYS: u32 = 1_000;

// The version that the map is read at.
const VERSION: u64 = 1_000;

/// What is measured of a client.
#[derive(Clone, Copy)]
pub(crate) struct Setting {
    /// How many transactions it begins and finishes.
    pub(crate) transactions: u32,
    /// How many gets each of them has, and how many sets.
    pub(crate) operations: u32,
}

/// How long a client's transactions take, from their begin until they are finished, which leaves each to be committed.
/// Each gets and sets random keys of a map, in turn. The keys and the sets are made outside of that time.
pub(crate) fn measure<R: Clock>(
    rt: &R,
    alloc: Global,
    setting: &Setting,
) -> Result<Duration, Fault> {
    let mut random = Pcg32::new(1, 1);
    let pool = pool_of(alloc, &mut random, KEYS)?;
    let map = map_of(alloc, &mut random, pool.as_slice())?;
    run_all(rt, alloc, &mut random, pool.as_slice(), &map, setting)
}

/// A map in which each of the keys has a value.
pub(crate) fn map_of(alloc: Global, random: &mut Pcg32, keys: &[Key]) -> Result<PlainMap, Refusal> {
    let sets = sets_of(alloc, random, keys)?;
    let mut map = PlainMap::new(alloc);
    for set in sets.as_slice() {
        map.apply(set)?;
    }
    Ok(map)
}

/// So many of the keys at random, any of them more than once.
pub(crate) fn picks_of(
    alloc: Global,
    random: &mut Pcg32,
    pool: &[Key],
    count: u32,
) -> Result<Vec<Key>, Refusal>
    requires { 0 < length pool.now }
{
    let mut picks = Vec::new(alloc);
    for _pick in 0..count {
        picks.push(one_of(random, pool).clone()?)?;
    }
    Ok(picks)
}

/// So many sets of such keys.
pub(crate) fn random_sets(
    alloc: Global,
    random: &mut Pcg32,
    pool: &[Key],
    count: u32,
) -> Result<Items<Mutation>, Refusal>
    requires { 0 < length pool.now }
{
    let picks = picks_of(alloc, random, pool, count)?;
    sets_of(alloc, random, picks.as_slice())
}

/// A transaction that read from the map: it got the first key and took the first set, and so on.
pub(crate) fn operated(
    alloc: Global,
    map: &PlainMap,
    number: u32,
    gets: &[Key],
    sets: &[Mutation],
) -> Result<Txn, Refusal> {
    let id = TxnId {
        session: 0,
        number: u64::from(number),
    };
    let snapshot = PlainSnapshot {
        version: VERSION,
        map,
    };
    let mut txn = Txn::begin(alloc, id, VERSION);
    operate(&mut txn, &snapshot, gets, sets)?;
    Ok(txn)
}

// How long all transactions take.
fn run_all<R: Clock>(
    rt: &R,
    alloc: Global,
    random: &mut Pcg32,
    pool: &[Key],
    map: &PlainMap,
    setting: &Setting,
) -> Result<Duration, Fault>
    requires { 0 < length pool.now }
{
    let mut took = Duration::ZERO;
    for number in 0..setting.transactions {
        let gets = picks_of(alloc, random, pool, setting.operations)?;
        let sets = random_sets(alloc, random, pool, setting.operations)?;
        let one = run_timed(rt, alloc, map, number, gets.as_slice(), sets.as_slice())?;
        took = took.saturating_add(one);
    }
    Ok(took)
}

// How long the transaction with the number takes. What it leaves is dropped outside of that time.
fn run_timed<R: Clock>(
    rt: &R,
    alloc: Global,
    map: &PlainMap,
    number: u32,
    gets: &[Key],
    sets: &[Mutation],
) -> Result<Duration, Fault> {
    let begin = Instant::now(rt)?;
    let finished = run(alloc, map, number, gets, sets);
    let took = begin.elapsed(rt);
    end(finished)?;
    Ok(took?)
}

// Begins the transaction, has it operate, and finishes it.
fn run(
    alloc: Global,
    map: &PlainMap,
    number: u32,
    gets: &[Key],
    sets: &[Mutation],
) -> Result<Finished, Refusal> {
    let txn = operated(alloc, map, number, gets, sets)?;
    match txn.finish() {
        Ok(finished) => Ok(finished),
        Err(refused) => Err(refused.why),
    }
}

// The transaction gets the first key and takes the first set, and so on.
fn operate(
    txn: &mut Txn,
    snapshot: &PlainSnapshot<'_>,
    gets: &[Key],
    sets: &[Mutation],
) -> Result<(), Refusal>
    requires { snapshot.now.version ≡ txn.old.read_version }
{
    for (key, set) in gets.iter().zip(sets) {
        let _value = txn.get(snapshot, key, false)?;
        txn.write_copy(set)?;
    }
    Ok(())
}

// Drops what a transaction left, or says why it was refused.
fn end(finished: Result<Finished, Refusal>) -> Result<(), Refusal> {
    match finished {
        Ok(_finished) => Ok(()),
        Err(why) => Err(why),
    }
}
