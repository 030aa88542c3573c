// The comparison of transcripts with the run of one transaction at a time.
use crate::numbers::Fault;
use fdb_core::{CheckFault, Config, Step, World, serial_check};
use fdb_keys::{Items, Refusal};
use fdb_mutations::Mutation;
use rand_core::Rng;
use rand_pcg::Pcg32;
use std::alloc::Global;
use std::time::{Clock, Duration, Instant};

// How many transactions an entry has at most: as many as there are sessions.
const BATCH: u32 = 100;

// How far each entry's version is above that of the one before it.
const ADVANCE: u64 = 1_000;

/// How long `serial_check` takes over the book and the transcripts of so many transactions, each of which sets one
/// random key. A world makes them, outside of that time.
pub(crate) fn measure<R: Clock>(
    rt: &R,
    alloc: Global,
    transactions: u32,
) -> Result<Duration, Fault> {
    match world_with(alloc, transactions / BATCH + 1) {
        Ok(mut world) => measure_in(rt, alloc, &mut world, transactions),
        Err(why) => Err(Fault::Refused(why)),
    }
}

// A world of one of each role, with so much room in its book.
fn world_with(alloc: Global, book: u32) -> Result<World, Refusal> {
    World::new(
        alloc,
        Config {
            proxies: 1,
            logs: 1,
            resolver_splits: Items::new(alloc),
            shard_splits: Items::new(alloc),
            book,
        },
    )
}

// The same of a new world that has room in its book.
fn measure_in<R: Clock>(
    rt: &R,
    alloc: Global,
    world: &mut World,
    transactions: u32,
) -> Result<Duration, Fault> {
    commit_all(alloc, world, transactions)?;
    check(rt, alloc, world, transactions)
}

// Has the world commit so many transactions.
fn commit_all(alloc: Global, world: &mut World, transactions: u32) -> Result<(), Refusal> {
    let mut random = Pcg32::new(1, 1);
    let mut left = transactions;
    for entry in 0..transactions.div_ceil(BATCH) {
        let count = left.min(BATCH);
        begin_all(world, count)?;
        write_all(alloc, world, &mut random, count)?;
        commit(world, entry)?;
        left = left.saturating_sub(count);
    }
    Ok(())
}

// Takes the step.
fn take(world: &mut World, step: Step) -> Result<(), Refusal> {
    match world.step(step) {
        Ok(_answered) => Ok(()),
        Err(why) => Err(why),
    }
}

// So many sessions begin a transaction each.
fn begin_all(world: &mut World, count: u32) -> Result<(), Refusal> {
    for session in 0..count {
        take(world, Step::Ask { session, proxy: 0 })?;
    }
    take(world, Step::Grant { proxy: 0 })
}

// Each of the sessions sets a random key, and submits. The first bit is 0, since no legal key begins with FF.
fn write_all(
    alloc: Global,
    world: &mut World,
    random: &mut Pcg32,
    count: u32,
) -> Result<(), Refusal> {
    for session in 0..count {
        let key = random.next_u64() >> 1;
        write(alloc, world, session, &key.to_be_bytes())?;
        take(world, Step::Submit { session, proxy: 0 })?;
    }
    Ok(())
}

// The session's transaction sets the key.
fn write(alloc: Global, world: &mut World, session: u32, key: &[u8]) -> Result<(), Refusal> {
    match Mutation::set(alloc, key, key) {
        Ok(mutation) => take(world, Step::Write { session, mutation }),
        Err(why) => Err(why),
    }
}

// All who have submitted are committed in the entry, and are told so.
fn commit(world: &mut World, entry: u32) -> Result<(), Refusal> {
    take(
        world,
        Step::Seal {
            proxy: 0,
            advance: ADVANCE,
        },
    )?;
    take(world, Step::Resolve { entry, resolver: 0 })?;
    take(world, Step::Verdict { entry, resolver: 0 })?;
    take(world, Step::Decide { proxy: 0 })?;
    take(world, Step::Push { entry, log: 0 })?;
    take(world, Step::Logged { entry, log: 0 })?;
    take(world, Step::Report { proxy: 0 })?;
    take(world, Step::Answer { proxy: 0 })
}

// How long the check of the world's transcripts takes. Anything but so many without a fault is one of the program.
fn check<R: Clock>(
    rt: &R,
    alloc: Global,
    world: &World,
    transactions: u32,
) -> Result<Duration, Fault> {
    let begin = Instant::now(rt)?;
    let found = compare(alloc, world);
    let took = begin.elapsed(rt)?;
    match found {
        Ok(count) if count == u64::from(transactions) => Ok(took),
        Ok(_) => Err(Fault::Miscounted),
        Err(CheckFault::NoMemory) => Err(Fault::Refused(Refusal::NoMemory)),
        Err(_) => Err(Fault::NotSerialized),
    }
}

// What the check finds of all transcripts that the world acknowledged, beside its book.
fn compare(alloc: Global, world: &World) -> Result<u64, CheckFault> {
    serial_check(alloc, world.config(), world.book(), world.acknowledged())
}
