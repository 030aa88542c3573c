// One log and one shard that pulls from it, pops what it applied, and forgets.
ghost use Rattle.std.specs.Prelude.{◌<◌, length, IfOk};

use crate::numbers::{Fault, shared};
use crate::storage::{new_shard, one_of, pool_of, set_of};
use fdb_keys::{Items, Key, Refusal};
use fdb_log::{LogCore, LogMsg, Tagged};
use fdb_storage::Shard;
use fdb_txn::WINDOW;
use rand_pcg::Pcg32;
use std::alloc::Global;
use std::time::{Clock, Duration, Instant};

// How many sets an entry has.
const BATCH: u32 = 10;

// Of how many keys.
const KEYS: u32 = 1_000;

// How long a value is.
const BYTES: u32 = 16;

// How far each entry's version is above that of the one before it: 5,000 entries lie in the window.
const ADVANCE: u64 = 1_000;

// Who takes the entries.
#[derive(Drop)]
struct Roles {
    log: LogCore,
    shard: Shard,
}

/// How long a new log and its one shard take for so many entries of ten sets each: each is pushed, peeked, applied and
/// popped, and the shard forgets what the window leaves behind. The messages are made outside of that time.
pub(crate) fn measure<R: Clock>(rt: &R, alloc: Global, entries: u32) -> Result<Duration, Fault> {
    let mut random = Pcg32::new(1, 1);
    let pool = pool_of(alloc, &mut random, KEYS)?;
    let mut roles = new_roles(alloc)?;
    take_all(rt, alloc, &mut roles, &mut random, pool.as_slice(), entries)
}

// A log of one tag and the shard of that tag.
fn new_roles(alloc: Global) -> Result<Roles, Refusal> {
    let shard = new_shard(alloc)?;
    let log = LogCore::new(alloc, 0, 1, 1)?;
    Ok(Roles { log, shard })
}

// How long the entries take.
fn take_all<R: Clock>(
    rt: &R,
    alloc: Global,
    roles: &mut Roles,
    random: &mut Pcg32,
    pool: &[Key],
    entries: u32,
) -> Result<Duration, Fault>
    requires { 0 < length pool.now }
{
    let mut took = Duration::ZERO;
    for entry in 0..entries {
        let message = message_of(alloc, random, pool, entry)?;
        took = took.saturating_add(take(rt, roles, &message)?);
    }
    Ok(took)
}

// How long the entry's message takes through both.
fn take<R: Clock>(rt: &R, roles: &mut Roles, message: &LogMsg) -> Result<Duration, Fault>
    requires { message.now.prev < message.now.version }
{
    let begin = Instant::now(rt)?;
    roles.log.push(message)?;
    pull(&mut roles.log, &mut roles.shard)?;
    let took = begin.elapsed(rt)?;
    Ok(took)
}

// Has the shard apply what the log has for it, pops that, and forgets.
fn pull(log: &mut LogCore, shard: &mut Shard) -> Result<(), Refusal> {
    let peek = log.peek(0, shard.version(), BATCH)?;
    shard.apply(&peek)?;
    log.pop(0, peek.through)?;
    shard.forget(peek.through.saturating_sub(WINDOW))
}

// The message of an entry for the log.
fn message_of(
    alloc: Global,
    random: &mut Pcg32,
    pool: &[Key],
    entry: u32,
) -> Result<LogMsg, Refusal>
    requires { 0 < length pool.now }
    ensures { IfOk result (λ message. message.prev < message.version) }
{
    let prev = u64::from(entry) * ADVANCE;
    let version = prev + ADVANCE;
    let mut body = Items::new(alloc);
    for place in 0..BATCH {
        let key = one_of(random, pool);
        body.push(tagged(alloc, key, place)?)?;
    }
    let body = shared(alloc, body)?;
    Ok(LogMsg {
        log: 0,
        index: entry,
        version,
        prev,
        body,
    })
}

// A set of the key at the place, for the shard.
fn tagged(alloc: Global, key: &Key, place: u32) -> Result<Tagged, Refusal> {
    let mut tags = Items::new(alloc);
    tags.push(0)?;
    let mutation = set_of(alloc, key, 0, BYTES)?;
    Ok(Tagged {
        place,
        mutation,
        tags,
    })
}
