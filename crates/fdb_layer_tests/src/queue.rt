// A queue whose pushes never conflict: sessions push and pop in threads of their own, and items come out in the order
// of their commits.
ghost use Rattle.std.specs.Prelude.{◌≡◌};

use crate::asserting::same;
use fdb_hosts::{Done, Host, Named, thread_of};
use fdb_keys::Refusal;
use fdb_layers::{Pop, Push, StampedQueue, know_handed_out, know_items};
use fdb_making::{both, coded, count_config};
use fdb_runtime::{Blank, Bytes, ClusterName, Config, Database, NoGate, Session, Tries, Work};
use std::alloc::Global;
use std::marker::Brand;
use std::sync::{Arc, Wait};
use std::test::Fail;
use std::thread;
use std::thread::{JoinHandle, Threads};

// How many items each thread pushes, and how often each one pops.
const ITEMS: u8 = 20;

// The first item of each thread that pushes.
const FIRST: [u8; 2] = [0, 100];

// What pushes an item of one byte.
fn push_of(alloc: Global, item: u8) -> Result<Push, Refusal> {
    let item = Bytes::copy_from_slice(alloc, &[item])?;
    Ok(Push { item })
}

/// Pushes an item. It is tried once, since nobody turns it down.
fn push<B: ClusterName, R: Wait>(
    rt: &R,
    alloc: Global,
    session: &mut Session<B, StampedQueue>,
    item: u8,
) -> Result<(), Refusal> {
    let mut work = push_of(alloc, item)?;
    drop(session.transact(rt, alloc, Tries::at_most(1), &mut work)?);
    Ok(())
}

/// Pops the item that was committed first, if there is one. Its own transaction hands it out.
fn pop<B: ClusterName, R: Wait>(
    rt: &R,
    alloc: Global,
    session: &mut Session<B, StampedQueue>,
) -> Result<Option<u8>, Refusal> {
    let mut work = Pop { item: None };
    let receipt = session.transact(rt, alloc, Tries::at_most(1_000), &mut work)?;
    know_handed_out(&receipt, &work);
    drop(receipt);
    match work.item {
        Some(item) => Ok(item.as_slice().first().copied()),
        None => Ok(None),
    }
}

// Pushes all items of a thread.
fn push_all<B: ClusterName, R: Wait>(
    rt: &R,
    alloc: Global,
    session: &mut Session<B, StampedQueue>,
    first: u8,
) -> Done {
    for item in 0..ITEMS {
        push(rt, alloc, session, first.saturating_add(item))?;
    }
    Ok(())
}

// The same, after which the session is dropped.
fn push_and_end<B: ClusterName, R: Wait>(
    rt: &R,
    alloc: Global,
    session: Session<B, StampedQueue>,
    first: u8,
) -> Done {
    let mut session = session;
    let pushed = push_all(rt, alloc, &mut session, first);
    drop(session);
    pushed
}

// Pops so often, and gives what came out.
fn pop_often<B: ClusterName, R: Wait>(
    rt: &R,
    alloc: Global,
    session: &mut Session<B, StampedQueue>,
    times: u8,
) -> Result<Vec<u8>, Refusal> {
    let mut items = Vec::new(alloc);
    for _time in 0..times {
        if let Some(item) = pop(rt, alloc, session)? {
            items.push(item)?;
        }
    }
    Ok(items)
}

// The same, after which the session is dropped.
fn pop_and_end<B: ClusterName, R: Wait>(
    rt: &R,
    alloc: Global,
    session: Session<B, StampedQueue>,
) -> Result<Vec<u8>, Refusal> {
    let mut session = session;
    let popped = pop_often(rt, alloc, &mut session, ITEMS);
    drop(session);
    popped
}

// Starts a thread that pushes, if it got its session.
fn start_pushing<B: Named, R: Host>(
    rt: &R,
    alloc: Global,
    session: Result<Session<B, StampedQueue>, Refusal>,
    first: u8,
) -> Result<JoinHandle<Done>, Refusal> {
    let session = session?;
    let handle = *rt;
    thread_of(thread::spawn(rt, move || push_and_end(&handle, alloc, session, first)))
}

// Starts a thread that pops, if it got its session.
fn start_popping<B: Named, R: Host>(
    rt: &R,
    alloc: Global,
    session: Result<Session<B, StampedQueue>, Refusal>,
) -> Result<JoinHandle<Result<Vec<u8>, Refusal>>, Refusal> {
    let session = session?;
    let handle = *rt;
    thread_of(thread::spawn(rt, move || pop_and_end(&handle, alloc, session)))
}

// What a thread was told, if it was started.
fn joined<T, R: Threads>(
    rt: &R,
    started: Result<JoinHandle<Result<T, Refusal>>, Refusal>,
) -> Result<T, Refusal> {
    match started {
        Ok(thread) => thread.join(rt),
        Err(why) => Err(why),
    }
}

// Two threads push, one pops, and so does this one; then this one pops the rest. What each of the three came to, if
// nothing was turned down.
fn play_at_once<B: Named, R: Host>(
    rt: &R,
    alloc: Global,
    database: &mut Database<B, StampedQueue>,
    session: &mut Session<B, StampedQueue>,
) -> Result<[Vec<u8>; 3], Refusal> {
    let one = start_pushing(rt, alloc, database.session(alloc), FIRST[0]);
    let other = start_pushing(rt, alloc, database.session(alloc), FIRST[1]);
    let there = start_popping(rt, alloc, database.session(alloc));
    let here = pop_often(rt, alloc, session, ITEMS);
    let pushed = joined(rt, one).and(joined(rt, other));
    let (here, there) = both(here, joined(rt, there))?;
    let rest = pop_often(rt, alloc, session, ITEMS.saturating_add(ITEMS))?;
    pushed?;
    Ok([here, there, rest])
}

// Whether those of the items that one thread pushed rise.
fn rise(items: &[u8], first: u8) -> bool {
    let mut are_rising = true;
    let mut last = None;
    for item in items {
        if *item / 100 == first / 100 {
            are_rising = are_rising && last < Some(*item);
            last = Some(*item);
        }
    }
    are_rising
}

// All items that came out, in the order of their numbers, and whether each popper got those of each thread in the order
// in which they were pushed.
fn sorted(alloc: Global, popped: &[Vec<u8>]) -> Result<(Vec<u8>, bool), Refusal> {
    let mut all = Vec::new(alloc);
    let mut are_rising = true;
    for items in popped {
        all.extend_from_slice(items.as_slice())?;
        are_rising = are_rising
            && rise(items.as_slice(), FIRST[0])
            && rise(items.as_slice(), FIRST[1]);
    }
    all.sort()?;
    Ok((all, are_rising))
}

// All items that were pushed.
fn pushed(alloc: Global) -> Result<Vec<u8>, Refusal> {
    let mut all = Vec::new(alloc);
    for first in FIRST {
        for item in 0..ITEMS {
            all.push(first.saturating_add(item))?;
        }
    }
    Ok(all)
}

// Two push in turn, the later items under the lesser keys, and one takes all of them out again.
fn push_and_pop<B: ClusterName, R: Wait>(
    rt: &R,
    alloc: Global,
    one: &mut Session<B, StampedQueue>,
    other: &mut Session<B, StampedQueue>,
) -> Result<[Option<u8>; 5], Refusal> {
    for item in [1_u8, 3] {
        push(rt, alloc, other, item)?;
        push(rt, alloc, one, item.saturating_add(1))?;
    }
    let mut items = [None; 5];
    for item in &mut items {
        *item = pop(rt, alloc, other)?;
    }
    Ok(items)
}

// The same where the one who pushes began before all others committed: it isn't turned down.
fn push_late<B: ClusterName, R: Wait>(
    rt: &R,
    alloc: Global,
    one: &mut Session<B, StampedQueue>,
    other: &mut Session<B, StampedQueue>,
) -> Result<[Option<u8>; 2], Refusal> {
    one.begin(rt, alloc)?;
    let mut work = push_of(alloc, 0)?;
    work.run(rt, alloc, one)?;
    push(rt, alloc, other, 5)?;
    drop(one.commit(rt, alloc)?);
    Ok([pop(rt, alloc, other)?, pop(rt, alloc, other)?])
}

fn play<B: Named, R: Host>(
    rt: &R,
    alloc: Global,
    database: &mut Database<B, StampedQueue>,
) -> Done {
    let (mut one, mut other) = both(database.session(alloc), database.session(alloc))?;
    let items = push_and_pop(rt, alloc, &mut one, &mut other);
    let late = push_late(rt, alloc, &mut one, &mut other);
    let popped = play_at_once(rt, alloc, database, &mut one);
    drop((one, other));
    same(
        rt,
        (coded(items), coded(late)),
        (
            Ok([Some(1), Some(2), Some(3), Some(4), None]),
            Ok([Some(5), Some(0)]),
        ),
    );
    let popped = popped?;
    let found = sorted(alloc, &popped)?;
    same(rt, found, (pushed(alloc)?, true));
    Ok(())
}

fn use_queue<B: Named, R: Host>(rt: &R, alloc: Global, blank: Blank, config: &Config) -> Done
    requires cells { blank ≡ B.cells }
    requires config { config.now ≡ B.config }
{
    let gate = Arc::new(alloc, NoGate)?;
    let mut database: Database<B, StampedQueue> = Database::start(
        rt, alloc, blank, config, 100, &gate,
    )?;
    let played = play(rt, alloc, &mut database);
    let record = database.close(rt)?;
    know_items(&record);
    drop(record);
    same(rt, coded(played), Ok(()));
    Ok(())
}

#[test]
fn items_come_out_by_their_commits(rt: HostRuntime) -> Result<(), Fail> {
    let alloc = rt.alloc();
    let config = count_config(alloc, 2, 1, 5_000);
    let blank = Blank::new(alloc, 5_000)?;
    use_queue::<Brand, HostRuntime>(&rt, alloc, blank, &config)?;
    Ok(())
}
