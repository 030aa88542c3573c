// Steps as plain data: their keys and values have one byte each.
use fdb_core::{Answered, Step, World};
use fdb_keys::{Key, KeyRange, Refusal};
use fdb_mutations::Mutation;
use std::alloc::Global;

/// What a session does with its transaction: at a key, with a value or an operand, or on a range from one key up to
/// but not including another.
#[derive(Clone, Copy)]
pub enum Call {
    Get(u8),
    SnapshotGet(u8),
    /// At most so many pairs, or all where it is 0.
    Range(u8, u8, u32),
    Set(u8, u8),
    Add(u8, u8),
    ClearRange(u8, u8),
    AddRead(u8, u8),
    AddWrite(u8, u8),
}

/// A step, by the numbers that it names in the order in which a script gives them.
#[derive(Clone, Copy)]
pub enum Act {
    Ask(u32, u32),
    Grant(u32),
    Call(u32, Call),
    Submit(u32, u32),
    Seal(u32, u64),
    Resolve(u32, u32),
    Verdict(u32, u32),
    Decide(u32),
    Push(u32, u32),
    Logged(u32, u32),
    Report(u32),
    Answer(u32),
    Pull(u32, u32),
    Forget(u32, u64),
    Pop(u32),
    /// From one key up to but not including another.
    Move(u8, u8, u32),
}

fn get(
    world: &mut World,
    alloc: Global,
    session: u32,
    key: u8,
    snapshot: bool,
) -> Result<Answered, Refusal> {
    let key = Key::new(alloc, &[key])?;
    world.step(Step::Get {
        session,
        key,
        snapshot,
    })
}

fn range(
    world: &mut World,
    alloc: Global,
    session: u32,
    bounds: [u8; 2],
    limit: u32,
) -> Result<Answered, Refusal> {
    let [begin, end] = bounds;
    let range = KeyRange::new(alloc, &[begin], &[end])?;
    world.step(Step::GetRange {
        session,
        range,
        limit,
        reverse: false,
        snapshot: false,
    })
}

// The session writes the mutation.
fn write(
    world: &mut World,
    session: u32,
    mutation: Result<Mutation, Refusal>,
) -> Result<Answered, Refusal> {
    match mutation {
        Ok(mutation) => world.step(Step::Write { session, mutation }),
        Err(why) => Err(why),
    }
}

fn add_read(
    world: &mut World,
    alloc: Global,
    session: u32,
    begin: u8,
    end: u8,
) -> Result<Answered, Refusal> {
    let range = KeyRange::new(alloc, &[begin], &[end])?;
    world.step(Step::AddRead { session, range })
}

fn add_write(
    world: &mut World,
    alloc: Global,
    session: u32,
    begin: u8,
    end: u8,
) -> Result<Answered, Refusal> {
    let range = KeyRange::new(alloc, &[begin], &[end])?;
    world.step(Step::AddWrite { session, range })
}

fn move_to(
    world: &mut World,
    alloc: Global,
    begin: u8,
    end: u8,
    to: u32,
) -> Result<Answered, Refusal> {
    let range = KeyRange::new(alloc, &[begin], &[end])?;
    world.step(Step::Move { range, to })
}

fn take_call(
    world: &mut World,
    alloc: Global,
    session: u32,
    call: Call,
) -> Result<Answered, Refusal> {
    match call {
        Call::Get(key) => get(world, alloc, session, key, false),
        Call::SnapshotGet(key) => get(world, alloc, session, key, true),
        Call::Range(begin, end, limit) => range(world, alloc, session, [begin, end], limit),
        Call::Set(key, value) => write(world, session, Mutation::set(alloc, &[key], &[value])),
        Call::Add(key, operand) => write(world, session, Mutation::add(alloc, &[key], &[operand])),
        Call::ClearRange(begin, end) => write(
            world,
            session,
            Mutation::clear_range(alloc, &[begin], &[end]),
        ),
        Call::AddRead(begin, end) => add_read(world, alloc, session, begin, end),
        Call::AddWrite(begin, end) => add_write(world, alloc, session, begin, end),
    }
}

/// Takes the step in the world. Refused also as its key or its range is.
pub fn take(world: &mut World, alloc: Global, act: Act) -> Result<Answered, Refusal> {
    match act {
        Act::Ask(session, proxy) => world.step(Step::Ask { session, proxy }),
        Act::Grant(proxy) => world.step(Step::Grant { proxy }),
        Act::Call(session, call) => take_call(world, alloc, session, call),
        Act::Submit(session, proxy) => world.step(Step::Submit { session, proxy }),
        Act::Seal(proxy, advance) => world.step(Step::Seal { proxy, advance }),
        Act::Resolve(entry, resolver) => world.step(Step::Resolve { entry, resolver }),
        Act::Verdict(entry, resolver) => world.step(Step::Verdict { entry, resolver }),
        Act::Decide(proxy) => world.step(Step::Decide { proxy }),
        Act::Push(entry, log) => world.step(Step::Push { entry, log }),
        Act::Logged(entry, log) => world.step(Step::Logged { entry, log }),
        Act::Report(proxy) => world.step(Step::Report { proxy }),
        Act::Answer(proxy) => world.step(Step::Answer { proxy }),
        Act::Pull(shard, limit) => world.step(Step::Pull { shard, limit }),
        Act::Forget(shard, version) => world.step(Step::Forget { shard, version }),
        Act::Pop(shard) => world.step(Step::Pop { shard }),
        Act::Move(begin, end, to) => move_to(world, alloc, begin, end, to),
    }
}
