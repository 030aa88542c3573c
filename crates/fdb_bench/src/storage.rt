// One shard that applies sets, forgets, and is read.
ghost use Rattle.std.specs.Prelude.{◌≡◌, ◌<◌, length, IfOk};
ghost use Rattle.fdb_log.specs.Peeks.{IsPeek};

use crate::numbers::{Fault, random_key, shared};
use fdb_keys::{Items, Key, KeyRange, Refusal};
use fdb_log::{Peek, TagMsg};
use fdb_mutations::Mutation;
use fdb_storage::Shard;
use fdb_txn::WINDOW;
use rand_core::Rng;
use rand_pcg::Pcg32;
use std::alloc::Global;
use std::time::{Clock, Duration, Instant};

// How many sets an entry has.
const BATCH: u32 = 100;

// How far each entry's version is above that of the one before it: 5,000 entries lie in the window.
const ADVANCE: u64 = 1_000;

// After how many entries the shard forgets what the window leaves behind.
const FORGETS: u32 = 100;

// Among how many of the last entries the versions lie that are read at.
const READ: u32 = 1_000;

// How many pairs a page has at most.
const PAGE: u32 = 10;

/// What is measured of a shard.
#[derive(Clone, Copy)]
pub(crate) struct Setting {
    /// How many sets it applies.
    pub(crate) sets: u32,
    /// Of how many keys.
    pub(crate) keys: u32,
    /// How long a value is.
    pub(crate) bytes: u32,
}

/// How long a shard takes.
#[derive(Clone, Copy)]
pub(crate) struct Took {
    /// To apply the sets, and to forget.
    pub(crate) applying: Duration,
    /// To answer as many gets.
    pub(crate) getting: Duration,
    /// To answer a tenth as many pages.
    pub(crate) paging: Duration,
}

/// How long a new shard takes for the sets, for as many gets and for a tenth as many pages of ten pairs, at random keys
/// and at random versions among those of the last entries. The messages are made outside of that time.
pub(crate) fn measure<R: Clock>(rt: &R, alloc: Global, setting: &Setting) -> Result<Took, Fault> {
    if setting.keys == 0 {
        return Err(Fault::BadNumber);
    }
    let mut random = Pcg32::new(1, 1);
    let pool = pool_of(alloc, &mut random, setting.keys)?;
    let mut shard = new_shard(alloc)?;
    measure_on(rt, alloc, &mut shard, &mut random, pool.as_slice(), setting)
}

/// A new shard, which holds every key.
pub(crate) fn new_shard(alloc: Global) -> Result<Shard, Refusal> {
    let range = KeyRange::new(alloc, &[], &[0xff])?;
    Ok(Shard::new(alloc, 0, range))
}

// The same on the shard and the keys.
fn measure_on<R: Clock>(
    rt: &R,
    alloc: Global,
    shard: &mut Shard,
    random: &mut Pcg32,
    pool: &[Key],
    setting: &Setting,
) -> Result<Took, Fault>
    requires { 0 < length pool.now }
{
    let applying = apply_all(rt, alloc, shard, random, pool, setting)?;
    let getting = get_all(rt, shard, random, pool, setting.sets)?;
    let paging = page_all(rt, alloc, shard, random, pool, setting.sets / 10)?;
    Ok(Took {
        applying,
        getting,
        paging,
    })
}

/// So many random keys.
pub(crate) fn pool_of(alloc: Global, random: &mut Pcg32, count: u32) -> Result<Vec<Key>, Refusal>
    ensures { IfOk result (λ pool. length pool.items ≡ count) }
{
    let mut pool = Vec::new(alloc);
    for _key in 0..count {
        pool.push(random_key(alloc, random)?)?;
    }
    Ok(pool)
}

/// One of the keys.
pub(crate) fn one_of<'a>(random: &mut Pcg32, pool: &'a [Key]) -> &'a Key
    requires { 0 < length pool.now }
{
    let number = random.next_u32() as usize % pool.len();
    &pool[number]
}

// How long the shard takes for all sets.
fn apply_all<R: Clock>(
    rt: &R,
    alloc: Global,
    shard: &mut Shard,
    random: &mut Pcg32,
    pool: &[Key],
    setting: &Setting,
) -> Result<Duration, Fault>
    requires { 0 < length pool.now }
{
    let mut took = Duration::ZERO;
    for entry in 0..setting.sets / BATCH {
        let peek = peek_of(alloc, random, pool, setting.bytes, entry)?;
        took = took.saturating_add(apply(rt, shard, &peek, entry)?);
    }
    Ok(took)
}

// How long it takes for those of the entry.
fn apply<R: Clock>(rt: &R, shard: &mut Shard, peek: &Peek, entry: u32) -> Result<Duration, Fault>
    requires { IsPeek peek.now }
{
    let begin = Instant::now(rt)?;
    shard.apply(peek)?;
    if entry % FORGETS == 0 {
        shard.forget(peek.through.saturating_sub(WINDOW))?;
    }
    let took = begin.elapsed(rt)?;
    Ok(took)
}

// The message of an entry.
fn peek_of(
    alloc: Global,
    random: &mut Pcg32,
    pool: &[Key],
    bytes: u32,
    entry: u32,
) -> Result<Peek, Refusal>
    requires { 0 < length pool.now }
    ensures { IfOk result IsPeek }
{
    let prev = u64::from(entry) * ADVANCE;
    let version = prev + ADVANCE;
    let body = shared(alloc, body_of(alloc, random, pool, bytes)?)?;
    let mut messages = Items::new(alloc);
    messages.push(TagMsg {
        version,
        prev,
        body,
    })?;
    Ok(Peek {
        tag: 0,
        after: prev,
        through: version,
        messages,
    })
}

// The sets of an entry.
fn body_of(
    alloc: Global,
    random: &mut Pcg32,
    pool: &[Key],
    bytes: u32,
) -> Result<Items<(u32, Mutation)>, Refusal>
    requires { 0 < length pool.now }
{
    let mut body = Items::new(alloc);
    for place in 0..BATCH {
        let key = one_of(random, pool);
        let text = random.next_u32().to_be_bytes();
        body.push((place, set_of(alloc, key, text[0], bytes)?))?;
    }
    Ok(body)
}

/// A set of the key to so many bytes.
pub(crate) fn set_of(alloc: Global, key: &Key, byte: u8, bytes: u32) -> Result<Mutation, Refusal> {
    let value = Vec::from_elem(alloc, byte, bytes as usize)?;
    let set = Mutation::set(alloc, key.bytes(), value.as_slice())?;
    Ok(set)
}

// How long the shard takes for so many gets.
fn get_all<R: Clock>(
    rt: &R,
    shard: &Shard,
    random: &mut Pcg32,
    pool: &[Key],
    count: u32,
) -> Result<Duration, Fault>
    requires { 0 < length pool.now }
{
    let begin = Instant::now(rt)?;
    for _get in 0..count {
        let version = version_of(random, shard);
        let _value = shard.get(one_of(random, pool), version)?;
    }
    let took = begin.elapsed(rt)?;
    Ok(took)
}

// A version among those of the last entries.
fn version_of(random: &mut Pcg32, shard: &Shard) -> u64 {
    let behind = u64::from(random.next_u32() % READ) * ADVANCE;
    shard.version().saturating_sub(behind)
}

// How long the shard takes for so many pages.
fn page_all<R: Clock>(
    rt: &R,
    alloc: Global,
    shard: &Shard,
    random: &mut Pcg32,
    pool: &[Key],
    count: u32,
) -> Result<Duration, Fault>
    requires { 0 < length pool.now }
{
    let mut took = Duration::ZERO;
    for _page in 0..count {
        let version = version_of(random, shard);
        let range = KeyRange::new(alloc, one_of(random, pool).bytes(), &[0xff])?;
        took = took.saturating_add(page(rt, shard, &range, version)?);
    }
    Ok(took)
}

// How long it takes for the first page of the range.
fn page<R: Clock>(
    rt: &R,
    shard: &Shard,
    range: &KeyRange,
    version: u64,
) -> Result<Duration, Fault> {
    let begin = Instant::now(rt)?;
    let page = shard.page(range, version, PAGE, false)?;
    let took = begin.elapsed(rt);
    drop(page);
    Ok(took?)
}
