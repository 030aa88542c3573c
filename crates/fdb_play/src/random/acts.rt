// Steps as plain numbers. A step holds its keys, and is made in the call that takes it.
ghost use Rattle.std.specs.Prelude.{◌≡◌, if◌then◌else◌, IfErr};
ghost use Rattle.fdb_play.specs.random.Runs.{IsAnswered, IsUnmade};
ghost use Rattle.fdb_play.specs.random.Tallies.{kind_of};

use crate::script::operation::Operation;
use bytes::Bytes;
use fdb_core::{Answered, AnyStep, Step, World};
use fdb_keys::{Key, KeyRange, Refusal};
use fdb_mutations::Mutation;
use std::alloc::Global;

/// The keys, by their numbers.
const KEYS: [&[u8]; 8] = [
    b"k/0", b"k/1", b"k/2", b"k/3", b"k/4", b"k/5", b"k/6", b"k/7",
];

/// The operands that a stamp goes into, by how many bytes they have besides it.
const STAMPED: [&[u8]; 5] = [
    b"0123456789",
    b"0123456789a",
    b"0123456789ab",
    b"0123456789abc",
    b"0123456789abcd",
];

/// The key that splits the resolvers, and the shards.
pub const SPLIT: &[u8] = b"k/4";

/// A range from one key up to but not including another, by their numbers.
#[derive(Clone, Copy)]
pub struct Span {
    pub begin: u32,
    pub end: u32,
}

/// What a transaction writes. Values and operands have one byte, but an operand that gets a stamp has so many besides
/// the stamp's.
#[derive(Clone, Copy)]
pub enum Change {
    Operate {
        operation: Operation,
        key: u32,
        operand: u8,
    },
    Clear {
        key: u32,
    },
    ClearRange {
        span: Span,
    },
    Stamped {
        key: u32,
        besides: u32,
        offset: u32,
    },
}

/// A step by its numbers. A key is named by the number at its end; any number from 8 on names a text that is no legal
/// key, but a bound after all keys.
pub type Act = AnyStep<u32, Span, Change>;

/// How many kinds of steps there are.
pub const KINDS: usize = 23;

/// The place of the step's kind among all kinds, in the order of `Act`. A read of a snapshot is another kind, behind
/// that of the other reads.
pub fn kind_of(act: Act) -> usize
    ensures { result ≡ kind_of act }
{
    match act {
        Act::Ask { .. } => 0,
        Act::Grant { .. } => 1,
        Act::Get {
            snapshot: false,
            ..
        } => 2,
        Act::Get { snapshot: true, .. } => 3,
        Act::GetRange {
            snapshot: false,
            ..
        } => 4,
        Act::GetRange { snapshot: true, .. } => 5,
        Act::Write { .. } => 6,
        Act::AddRead { .. } => 7,
        Act::AddWrite { .. } => 8,
        Act::Submit { .. } => 9,
        Act::Seal { .. } => 10,
        Act::Resolve { .. } => 11,
        Act::Verdict { .. } => 12,
        Act::Decide { .. } => 13,
        Act::Push { .. } => 14,
        Act::Logged { .. } => 15,
        Act::Report { .. } => 16,
        Act::Answer { .. } => 17,
        Act::Pull { .. } => 18,
        Act::Forget { .. } => 19,
        Act::Pop { .. } => 20,
        Act::Move { .. } => 21,
        Act::Window { .. } => 22,
    }
}

// The text that the number names.
fn text_of(key: u32) -> &'static [u8] {
    match KEYS.get(key as usize) {
        Some(text) => text,
        None => b"\xff",
    }
}

fn key_of(alloc: Global, key: u32) -> Result<Key, Refusal>
    ensures { IfErr result IsUnmade }
{
    Key::new(alloc, text_of(key))
}

fn range_of(alloc: Global, span: Span) -> Result<KeyRange, Refusal>
    ensures { IfErr result IsUnmade }
{
    KeyRange::new(alloc, text_of(span.begin), text_of(span.end))
}

fn operate(alloc: Global, operation: Operation, key: u32, operand: u8) -> Result<Mutation, Refusal>
    ensures { IfErr result IsUnmade }
{
    let operand = Bytes::copy_from_slice(alloc, &[operand])?;
    let key = key_of(alloc, key)?;
    Ok(operation.on(key, operand))
}

// The operand that has so many bytes besides a stamp's.
fn stamped_operand(besides: u32) -> &'static [u8] {
    match STAMPED.get(besides as usize) {
        Some(operand) => operand,
        None => b"",
    }
}

fn stamped(alloc: Global, key: u32, besides: u32, offset: u32) -> Result<Mutation, Refusal>
    ensures { IfErr result IsUnmade }
{
    let operand = Bytes::copy_from_slice(alloc, stamped_operand(besides))?;
    let key = key_of(alloc, key)?;
    Ok(Mutation::Stamped {
        key,
        operand,
        offset,
    })
}

fn clear(alloc: Global, key: u32) -> Result<Mutation, Refusal>
    ensures { IfErr result IsUnmade }
{
    let key = key_of(alloc, key)?;
    Ok(Mutation::Clear { key })
}

fn clear_range(alloc: Global, span: Span) -> Result<Mutation, Refusal>
    ensures { IfErr result IsUnmade }
{
    let range = range_of(alloc, span)?;
    Ok(Mutation::ClearRange { range })
}

fn mutation_of(alloc: Global, change: Change) -> Result<Mutation, Refusal>
    ensures { IfErr result IsUnmade }
{
    match change {
        Change::Operate {
            operation,
            key,
            operand,
        } => operate(alloc, operation, key, operand),
        Change::Clear { key } => clear(alloc, key),
        Change::ClearRange { span } => clear_range(alloc, span),
        Change::Stamped {
            key,
            besides,
            offset,
        } => stamped(alloc, key, besides, offset),
    }
}

fn write(
    world: &mut World,
    alloc: Global,
    session: u32,
    change: Change,
) -> Result<Answered, Refusal>
    ensures { IsAnswered 6 world.old.state result world.new.state }
{
    match mutation_of(alloc, change) {
        Ok(mutation) => world.step(Step::Write { session, mutation }),
        Err(why) => Err(why),
    }
}

fn get(
    world: &mut World,
    alloc: Global,
    session: u32,
    key: u32,
    snapshot: bool,
) -> Result<Answered, Refusal>
    ensures { IsAnswered (if snapshot then 3 else 2) world.old.state result world.new.state }
{
    let key = key_of(alloc, key)?;
    world.step(Step::Get {
        session,
        key,
        snapshot,
    })
}

fn add_read(world: &mut World, alloc: Global, session: u32, span: Span) -> Result<Answered, Refusal>
    ensures { IsAnswered 7 world.old.state result world.new.state }
{
    let range = range_of(alloc, span)?;
    world.step(Step::AddRead { session, range })
}

fn add_write(
    world: &mut World,
    alloc: Global,
    session: u32,
    span: Span,
) -> Result<Answered, Refusal>
    ensures { IsAnswered 8 world.old.state result world.new.state }
{
    let range = range_of(alloc, span)?;
    world.step(Step::AddWrite { session, range })
}

fn move_to(world: &mut World, alloc: Global, span: Span, to: u32) -> Result<Answered, Refusal>
    ensures { IsAnswered 21 world.old.state result world.new.state }
{
    let range = range_of(alloc, span)?;
    world.step(Step::Move { range, to })
}

fn get_range(
    world: &mut World,
    alloc: Global,
    session: u32,
    span: Span,
    limit: u32,
    reverse: bool,
    snapshot: bool,
) -> Result<Answered, Refusal>
    ensures { IsAnswered (if snapshot then 5 else 4) world.old.state result world.new.state }
{
    let range = range_of(alloc, span)?;
    world.step(Step::GetRange {
        session,
        range,
        limit,
        reverse,
        snapshot,
    })
}

/// Takes the step in the world. Refused also as its key or its range is.
pub fn take(world: &mut World, alloc: Global, act: Act) -> Result<Answered, Refusal>
    ensures { IsAnswered (kind_of act) world.old.state result world.new.state }
{
    match act {
        Act::Ask { session, proxy } => world.step(Step::Ask { session, proxy }),
        Act::Grant { proxy } => world.step(Step::Grant { proxy }),
        Act::Get {
            session,
            key,
            snapshot,
        } => get(world, alloc, session, key, snapshot),
        Act::GetRange {
            session,
            range,
            limit,
            reverse,
            snapshot,
        } => get_range(world, alloc, session, range, limit, reverse, snapshot),
        Act::Write { session, mutation } => write(world, alloc, session, mutation),
        Act::AddRead { session, range } => add_read(world, alloc, session, range),
        Act::AddWrite { session, range } => add_write(world, alloc, session, range),
        Act::Submit { session, proxy } => world.step(Step::Submit { session, proxy }),
        Act::Seal { proxy, advance } => world.step(Step::Seal { proxy, advance }),
        Act::Resolve { entry, resolver } => world.step(Step::Resolve { entry, resolver }),
        Act::Verdict { entry, resolver } => world.step(Step::Verdict { entry, resolver }),
        Act::Decide { proxy } => world.step(Step::Decide { proxy }),
        Act::Push { entry, log } => world.step(Step::Push { entry, log }),
        Act::Logged { entry, log } => world.step(Step::Logged { entry, log }),
        Act::Report { proxy } => world.step(Step::Report { proxy }),
        Act::Answer { proxy } => world.step(Step::Answer { proxy }),
        Act::Pull { shard, limit } => world.step(Step::Pull { shard, limit }),
        Act::Forget { shard, version } => world.step(Step::Forget { shard, version }),
        Act::Pop { shard } => world.step(Step::Pop { shard }),
        Act::Move { range, to } => move_to(world, alloc, range, to),
        Act::Window { window } => world.step(Step::Window { window }),
    }
}
