// Transcripts that a world acknowledged, as they are and changed by hand, beside its book and beside that of another
// one.
use super::acts::{Act, Call, take};
use super::{TWO_LOGS, new_world, take_all};
use crate::asserting::same;
use fdb_check::{JudgedBook, SerialRun};
use fdb_client::{Op, Reply, Transcript};
use fdb_core::{CheckFault, Placed, World, serial_check};
use fdb_keys::{Key, Refusal};
use fdb_making::{ask, ask_both};
use fdb_mutations::{Mutation, PlainMap};
use fdb_txn::{Spot, TxnId};
use std::alloc::Global;

// Session 0 asks, and is served.
pub(super) const BEFORE: [Act; 2] = [Act::Ask(0, 0), Act::Grant(0)];

// It submits, and is committed in the first entry, at version 100. The shard pulls, and session 1 reads a.
pub(super) const AFTER: [Act; 16] = [
    Act::Submit(0, 0),
    Act::Seal(0, 100),
    Act::Resolve(0, 0),
    Act::Verdict(0, 0),
    Act::Decide(0),
    Act::Push(0, 0),
    Act::Push(0, 1),
    Act::Logged(0, 0),
    Act::Logged(0, 1),
    Act::Report(0),
    Act::Answer(0),
    Act::Pull(0, 9),
    Act::Ask(1, 0),
    Act::Grant(0),
    Act::Call(1, Call::Get(b'a')),
    Act::Submit(1, 0),
];

fn take_both(world: &mut World, alloc: Global, value: u8) -> Result<(), Refusal> {
    take_all(world, alloc, BEFORE.as_slice())?;
    take(world, alloc, Act::Call(0, Call::Set(b'a', value)))?;
    take_all(world, alloc, AFTER.as_slice())
}

// A world in which session 0 set a to the value in the first entry, and session 1 read it after that.
fn set_and_read(alloc: Global, value: u8) -> Result<World, Refusal> {
    let mut world = new_world(alloc, TWO_LOGS)?;
    take_both(&mut world, alloc, value)?;
    Ok(world)
}

type Found = Result<u64, CheckFault>;

// What the check finds of the transcripts beside the world's book.
fn found(alloc: Global, world: &World, placed: &[Placed]) -> Found {
    serial_check(alloc, world.config(), world.book(), placed)
}

// What is changed of a transcript.
#[derive(Clone, Copy)]
enum Change {
    Nothing,
    Spot(Spot),
    Id(TxnId),
    ReadVersion(u64),
    OneMoreWrite,
}

fn push_write(alloc: Global, transcript: &mut Transcript) -> Result<(), Refusal> {
    let mutation = Mutation::set(alloc, b"b", b"z")?;
    transcript.ops.push((Op::Write(mutation), Reply::Done))?;
    Ok(())
}

fn changed(alloc: Global, placed: &Placed, change: Change) -> Result<Placed, Refusal> {
    let mut spot = placed.spot;
    let mut transcript = placed.transcript.clone()?;
    match change {
        Change::Nothing => (),
        Change::Spot(other) => spot = other,
        Change::Id(id) => transcript.id = id,
        Change::ReadVersion(version) => transcript.read_version = version,
        Change::OneMoreWrite => push_write(alloc, &mut transcript)?,
    }
    Ok(Placed { spot, transcript })
}

const OWN: TxnId = TxnId {
    session: 0,
    number: 0,
};

const FIRST: CheckFault = CheckFault::Txn(OWN);

const SECOND: CheckFault = CheckFault::Txn(TxnId {
    session: 1,
    number: 0,
});

// The first transcript of the one world and the second one of the other, of which the one with the number is changed.
fn copies(
    alloc: Global,
    worlds: [&World; 2],
    number: usize,
    change: Change,
) -> Result<Vec<Placed>, Refusal> {
    let mut list = Vec::new(alloc);
    for (at, world) in worlds.iter().enumerate() {
        let change = if at == number {
            change
        } else {
            Change::Nothing
        };
        if let Some(placed) = world.acknowledged().get(at) {
            list.push(changed(alloc, placed, change)?)?;
        }
    }
    Ok(list)
}

// What the check finds of these beside the book of the one world.
fn found_with(alloc: Global, worlds: [&World; 2], number: usize, change: Change) -> Found {
    match copies(alloc, worlds, number, change) {
        Ok(placed) => found(alloc, worlds[0], placed.as_slice()),
        Err(_) => Err(CheckFault::NoMemory),
    }
}

const SEVENTH: TxnId = TxnId {
    session: 7,
    number: 0,
};

// Which of the two transcripts is changed and how, and what the check finds.
static CHANGES: [(usize, Change, Found); 9] = [
    // At another place, at another version, and as one that only reads.
    (
        0,
        Change::Spot(Spot::Entry {
            index: 0,
            place: 1,
            version: 100,
        }),
        Err(FIRST),
    ),
    (
        0,
        Change::Spot(Spot::Entry {
            index: 0,
            place: 0,
            version: 200,
        }),
        Err(FIRST),
    ),
    (0, Change::Spot(Spot::ReadOnly { version: 0 }), Err(FIRST)),
    // Under its own id, and under another one.
    (0, Change::Id(OWN), Ok(2)),
    (0, Change::Id(SEVENTH), Err(CheckFault::Txn(SEVENTH))),
    // With its own read version, and with another one.
    (0, Change::ReadVersion(0), Ok(2)),
    (0, Change::ReadVersion(1), Err(FIRST)),
    // With one more mutation.
    (0, Change::OneMoreWrite, Err(FIRST)),
    (1, Change::OneMoreWrite, Err(SECOND)),
];

// The first change of which another thing is found, by its place.
fn first_wrong(alloc: Global, world: &World) -> Option<(usize, Found)> {
    for (place, (number, change, wanted)) in CHANGES.iter().enumerate() {
        let given = found_with(alloc, [world, world], *number, *change);
        if given != *wanted {
            return Some((place, given));
        }
    }
    None
}

// How many entries the world lends, and what is found of what it lends and by its own check.
fn found_of_own(alloc: Global, world: &World) -> (usize, Found, Found) {
    (
        world.book().len(),
        found(alloc, world, world.acknowledged()),
        world.check(),
    )
}

// What is found of the transcripts of the one world beside the book of the other, and of the first of the one and the
// second of the other beside the book of the one.
fn found_of_both(alloc: Global, world: &World, other: &World) -> [Found; 2] {
    [
        found(alloc, other, world.acknowledged()),
        found_with(alloc, [world, other], 0, Change::Nothing),
    ]
}

#[test]
fn transcripts_are_compared_with_the_book(rt: HostRuntime) {
    let alloc = rt.alloc();
    let found = ask_both(
        set_and_read(alloc, b'x'),
        set_and_read(alloc, b'y'),
        |world, other| {
            (
                found_of_own(alloc, world),
                first_wrong(alloc, world),
                found_of_both(alloc, world, other),
            )
        },
    );
    same(
        &rt,
        found,
        Ok(((1, Ok(2), Ok(2)), None, [Err(FIRST), Err(SECOND)])),
    );
}

// How many logs a new world's configuration says, and how many entries and transcripts it has.
fn lent(alloc: Global) -> Result<(u32, usize, usize), Refusal> {
    let world = new_world(alloc, TWO_LOGS)?;
    Ok((
        world.config().logs,
        world.book().len(),
        world.acknowledged().len(),
    ))
}

#[test]
fn new_world_lends_no_entry(rt: HostRuntime) {
    same(&rt, lent(rt.alloc()), Ok((2, 0, 0)));
}

// The first byte of what stands at a, if something does.
fn at_a(alloc: Global, map: &PlainMap) -> Result<Option<u8>, CheckFault> {
    let Ok(key) = Key::new(alloc, b"a") else {
        return Err(CheckFault::NoMemory);
    };
    Ok(match map.get(&key) {
        Some(value) => value.first().copied(),
        None => None,
    })
}

// How many entries are judged, how many transcripts are serialized at their spots, and how many entries are run after
// the first, and after one more than there are.
fn parts_found(alloc: Global, world: &World) -> Result<(usize, u64, usize, usize), CheckFault> {
    let splits = world.config().resolver_splits.as_slice();
    let Ok(judged) = JudgedBook::new(alloc, splits, world.book()) else {
        return Err(CheckFault::NoMemory);
    };
    let count = judged.check(alloc, world.acknowledged())?;
    let run = SerialRun::new(alloc, &judged).next_entry()?;
    let entries = run.entries();
    let last = run.next_entry()?;
    Ok((judged.book().len(), count, entries, last.entries()))
}

#[test]
fn the_parts_of_a_check_find_what_it_finds(rt: HostRuntime) {
    let alloc = rt.alloc();
    let found = ask(set_and_read(alloc, b'x'), |world| parts_found(alloc, world));
    same(&rt, found, Ok(Ok((1, 2, 1, 1))));
}

// What stands at a in the run of the judged book before its first entry, and after it.
fn runs_found(alloc: Global, world: &World) -> Result<(Option<u8>, Option<u8>), CheckFault> {
    let splits = world.config().resolver_splits.as_slice();
    let Ok(judged) = JudgedBook::new(alloc, splits, world.book()) else {
        return Err(CheckFault::NoMemory);
    };
    let run = SerialRun::new(alloc, &judged);
    let before = at_a(alloc, run.map())?;
    let run = run.next_entry()?;
    Ok((before, at_a(alloc, run.map())?))
}

#[test]
fn a_run_has_what_its_entries_left(rt: HostRuntime) {
    let alloc = rt.alloc();
    let found = ask(set_and_read(alloc, b'x'), |world| runs_found(alloc, world));
    same(&rt, found, Ok(Ok((None, Some(b'x')))));
}
