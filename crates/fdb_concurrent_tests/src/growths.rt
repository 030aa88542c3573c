// A database of two of each role, whose clients run in two threads. `tools/refused_growths` runs this where one
// growth of memory is refused, each time another one.
ghost use Rattle.std.specs.Prelude.{◌≡◌};

use crate::asserting::same;
use bytes::Bytes;
use fdb_hosts::{Host, Named, byte_of, is_serial, receipt_of, two_sessions, write};
use fdb_keys::{Key, Refusal};
use fdb_making::{coded, count_config, keys_of};
use fdb_mutations::Mutation;
use fdb_runtime::{Blank, ClusterName, Config, Database, NoGate, Record, Session};
use std::alloc::Global;
use std::marker::Brand;
use std::sync::{Arc, Wait};
use std::test::Fail;
use std::thread;
use std::thread::Threads;

// The clients' keys. Each has a resolver and a shard of its own.
const KEYS: [&[u8]; 2] = [b"a", b"z"];

// How a transaction ended: the code of the refusal, 0 where there is a receipt, and whether the receipt, if there is
// one, is serialized. One that memory doesn't suffice to check counts as serialized: other runs check it.
type End = (u32, bool);

// Of both transactions of both clients.
type Ends = ((End, End), (End, End));

// How many entries the record has, and the byte of each key, or the code of why there is none.
type Held = Result<(usize, Option<u8>, Option<u8>), u32>;

// The session reads and writes the key.
fn fill<B: ClusterName, R: Wait>(
    rt: &R,
    alloc: Global,
    session: &mut Session<B>,
    key: &[u8],
    value: u8,
) -> Result<(), Refusal> {
    session.begin(rt, alloc)?;
    byte_of(rt, alloc, session, key)?;
    write(session, Mutation::set(alloc, key, &[value]))
}

// How the session's transaction ends that does so.
fn play_one<B: ClusterName, R: Wait>(
    rt: &R,
    alloc: Global,
    config: &Config,
    session: &mut Session<B>,
    key: &[u8],
    value: u8,
) -> End
    requires { config.now ≡ B.config }
{
    if let Err(why) = fill(rt, alloc, session, key, value) {
        return (why.code(), true);
    }
    match receipt_of(session.commit(rt, alloc)) {
        Ok(receipt) => (0, is_serial(alloc, config, receipt).unwrap_or(true)),
        Err(why) => (why.code(), true),
    }
}

fn play_two<B: ClusterName, R: Wait>(
    rt: &R,
    alloc: Global,
    config: &Config,
    session: &mut Session<B>,
    key: &[u8],
) -> (End, End)
    requires { config.now ≡ B.config }
{
    let first = play_one(rt, alloc, config, session, key, 1);
    let second = play_one(rt, alloc, config, session, key, 2);
    (first, second)
}

fn play_at_once<B: Named, R: Threads + Wait + Sync>(
    rt: &R,
    alloc: Global,
    config: &Config,
    first: &mut Session<B>,
    second: &mut Session<B>,
) -> Result<Ends, Refusal>
    requires { config.now ≡ B.config }
{
    let (one, two) = thread::join(
        rt,
        ||
            requires { config.now ≡ B.config }
        { play_two(rt, alloc, config, first, KEYS[0]) },
        ||
            requires { config.now ≡ B.config }
        { play_two(rt, alloc, config, second, KEYS[1]) },
    );
    Ok((one, two))
}

// The first byte of the key's value, if it has any.
fn value_of(pairs: &[(Key, Bytes)], key: &[u8]) -> Option<u8> {
    for (at, value) in pairs {
        if at.bytes() == key {
            return value.as_slice().first().copied();
        }
    }
    None
}

fn held_by<B: ClusterName>(record: Result<Record<B>, Refusal>) -> Held {
    match record {
        Ok(record) => {
            let pairs = record.pairs();
            let values = (value_of(pairs, KEYS[0]), value_of(pairs, KEYS[1]));
            Ok((record.front().len(), values.0, values.1))
        }
        Err(why) => Err(why.code()),
    }
}

// The same in the database's first two sessions.
fn play_in_two<B: Named, R: Host>(
    rt: &R,
    alloc: Global,
    config: &Config,
    database: &mut Database<B>,
) -> Result<Ends, Refusal>
    requires { config.now ≡ B.config }
{
    let (mut first, mut second) = two_sessions(alloc, database)?;
    let ends = play_at_once(rt, alloc, config, &mut first, &mut second);
    drop((first, second));
    ends
}

fn play_four<B: Named, R: Host>(
    rt: &R,
    alloc: Global,
    blank: Blank,
    config: &Config,
) -> Result<(Ends, Held), Refusal>
    requires cells { blank ≡ B.cells }
    requires config { config.now ≡ B.config }
{
    let gate = Arc::new(alloc, NoGate)?;
    let mut database: Database<B> = Database::start(rt, alloc, blank, config, 100, &gate)?;
    let ends = play_in_two(rt, alloc, config, &mut database);
    let held = held_by(database.close(rt));
    Ok((ends?, held))
}

// All of that, from the start of the database on.
fn start_and_play<R: Host>(rt: &R, alloc: Global) -> Result<(Ends, Held), Refusal> {
    let mut config = count_config(alloc, 2, 2, 100);
    config.resolver_splits = keys_of(alloc, &[b"m"])?;
    config.shard_splits = keys_of(alloc, &[b"m"])?;
    let blank = Blank::new(alloc, 100)?;
    play_four::<Brand, R>(rt, alloc, blank, &config)
}

#[test]
fn two_clients_commit_at_once(rt: HostRuntime) -> Result<(), Fail> {
    let told = start_and_play(&rt, rt.alloc());
    let both = ((0, true), (0, true));
    let wanted = ((both, both), Ok((4, Some(2), Some(2))));
    same(&rt, coded(told), Ok(wanted));
    Ok(())
}

// Whether the key may have the value after a transaction that ended so and wrote the other value, where it may or may
// not have it before: what was acknowledged is there, and what may have been committed may be.
fn may_have_then(value: Option<u8>, may_before: bool, end: End, written: u8) -> bool {
    let is_written = value == Some(written);
    match end.0 {
        0 => is_written,
        1021 => may_before || is_written,
        _ => may_before,
    }
}

// The same after both of a client's transactions.
fn may_have(value: Option<u8>, ends: (End, End)) -> bool {
    let may = may_have_then(value, value.is_none(), ends.0, 1);
    may_have_then(value, may, ends.1, 2)
}

// Whether all receipts are serialized, and the record, if there is one, has what they say.
fn is_sound(ends: Ends, held: Held) -> bool {
    let (one, two) = ends;
    let are_serial = one.0.1 && one.1.1 && two.0.1 && two.1.1;
    match held {
        Ok((_entries, first, second)) => {
            are_serial && may_have(first, one) && may_have(second, two)
        }
        Err(code) => are_serial && (code == 9001 || code == 9004),
    }
}

// The codes of each client's commits.
fn codes_of(ends: Ends) -> ((u32, u32), (u32, u32)) {
    let (one, two) = ends;
    ((one.0.0, one.1.0), (two.0.0, two.1.0))
}

#[test]
fn receipts_hold_where_a_growth_is_refused(rt: HostRuntime) -> Result<(), Fail> {
    match start_and_play(&rt, rt.alloc()) {
        Ok((ends, held)) => {
            same(&rt, is_sound(ends, held), true);
            println!(&rt; "commits {:?}, record {held:?}", codes_of(ends))?;
        }
        Err(why) => {
            same(&rt, why.code(), 9001);
            println!(&rt; "start 9001")?;
        }
    }
    Ok(())
}
