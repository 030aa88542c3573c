// What worlds answer to steps. Most of it only worlds of several proxies and resolvers show.
use super::acts::{Act, Call, take};
use super::{NO_SPLITS, ONE_OF_EACH, Sizes, TWO_PROXIES, new_world, take_all};
use crate::asserting::same;
use fdb_core::{Answered, World};
use fdb_keys::Refusal;
use fdb_making::{Splits, made_of, placed};
use std::alloc::Global;

// What is done in a world, or asked of it.
#[derive(Clone, Copy)]
enum Line {
    One(Act),
    // Each of the steps is accepted.
    All(&'static [Act]),
    // The session reads the one key and writes the other one, and the proxy of its number seals it as a batch.
    Sealed(u32, u8, u8),
    // The entry of the batch that is in flight at the proxy, with how many resolvers and logs there are.
    InFlight(u32),
    // How many acknowledged transactions the check finds without a difference.
    Check,
}

// The version that a step tells, or the version and the place of the one transaction that is decided, and the code of
// why that isn't committed. Else 0.
type Told = Result<[u64; 3], Refusal>;

const TAKEN: Told = Ok([0, 0, 0]);

fn told(answered: &Answered) -> [u64; 3] {
    match answered {
        Answered::Version(version) => [*version, 0, 0],
        Answered::Decided(outcomes) => match outcomes.as_slice() {
            [outcome] => match placed(*outcome) {
                Ok((version, place)) => [version, u64::from(place), 0],
                Err(code) => [0, 0, u64::from(code)],
            },
            _ => [0, 0, 0],
        },
        _ => [0, 0, 0],
    }
}

fn take_one(world: &mut World, alloc: Global, act: Act) -> Told {
    made_of(take(world, alloc, act), |answered| Ok(told(answered)))
}

fn seal_one(
    world: &mut World,
    alloc: Global,
    session: u32,
    read: u8,
    written: u8,
) -> Result<(), Refusal> {
    let acts = [
        Act::Ask(session, session),
        Act::Grant(session),
        Act::Call(session, Call::AddRead(read, read.saturating_add(1))),
        Act::Call(session, Call::Set(written, 1)),
        Act::Submit(session, session),
        Act::Seal(session, 100),
    ];
    take_all(world, alloc, acts.as_slice())
}

fn answer(world: &mut World, alloc: Global, line: Line) -> Told {
    match line {
        Line::One(act) => take_one(world, alloc, act),
        Line::All(acts) => {
            take_all(world, alloc, acts)?;
            TAKEN
        }
        Line::Sealed(session, read, written) => {
            seal_one(world, alloc, session, read, written)?;
            TAKEN
        }
        Line::InFlight(proxy) => {
            let flight = world.in_flight(proxy)?;
            Ok([flight.entry, flight.resolvers, flight.logs].map(u64::from))
        }
        Line::Check => match world.check() {
            Ok(count) => Ok([count, 0, 0]),
            Err(_fault) => Ok([u64::MAX, 0, 0]),
        },
    }
}

// The first line that is answered otherwise than is wanted, by its place, and what is told.
fn first_wrong(world: &mut World, alloc: Global, lines: &[(Line, Told)]) -> Option<(usize, Told)> {
    for (place, (line, wanted)) in lines.iter().enumerate() {
        let given = answer(world, alloc, *line);
        if given != *wanted {
            return Some((place, given));
        }
    }
    None
}

// What a new world answers.
#[derive(Clone, Copy)]
struct Case {
    what: &'static str,
    sizes: Sizes,
    lines: &'static [(Line, Told)],
}

// The second resolver has the keys from g on and the third one those from p on.
const THREE_RESOLVERS: Sizes = Sizes {
    proxies: 2,
    logs: 2,
    resolver_splits: Splits::Keys(&[b"g", b"p"]),
    shard_splits: NO_SPLITS,
    book: 4_096,
};

// Entries 0 and 1 of two proxies are decided.
const TWO_DECIDED: [Act; 6] = [
    Act::Resolve(0, 0),
    Act::Resolve(1, 0),
    Act::Verdict(0, 0),
    Act::Verdict(1, 0),
    Act::Decide(0),
    Act::Decide(1),
];

// Both logs take the entry, and the proxy hears of it.
const FIRST_LOGGED: [Act; 4] = [
    Act::Push(0, 0),
    Act::Push(0, 1),
    Act::Logged(0, 0),
    Act::Logged(0, 1),
];

const SECOND_LOGGED: [Act; 4] = [
    Act::Push(1, 0),
    Act::Push(1, 1),
    Act::Logged(1, 0),
    Act::Logged(1, 1),
];

// Session 2 reads the keys from a to c at the committed version.
const READS: [Act; 5] = [
    Act::Ask(2, 0),
    Act::Grant(0),
    Act::Pull(0, 2),
    Act::Call(2, Call::Range(b'a', b'c', 0)),
    Act::Submit(2, 0),
];

static CASES: [Case; 8] = [
    Case {
        what: "a new world has no batch and no transaction",
        sizes: ONE_OF_EACH,
        lines: &[
            (Line::InFlight(0), Err(Refusal::WrongState)),
            (Line::InFlight(7), Err(Refusal::Unknown)),
            (Line::Check, Ok([0, 0, 0])),
        ],
    },
    // Nobody waited in the first batch.
    Case {
        what: "a batch is in flight from its seal to its answer",
        sizes: ONE_OF_EACH,
        lines: &[
            (Line::One(Act::Seal(0, 100)), TAKEN),
            (Line::InFlight(0), Ok([0, 1, 1])),
            (Line::One(Act::Resolve(0, 0)), TAKEN),
            (Line::InFlight(0), Ok([0, 1, 1])),
            (Line::One(Act::Verdict(0, 0)), TAKEN),
            (Line::InFlight(0), Ok([0, 1, 1])),
            (Line::One(Act::Decide(0)), TAKEN),
            (Line::InFlight(0), Ok([0, 1, 1])),
            (Line::One(Act::Push(0, 0)), TAKEN),
            (Line::InFlight(0), Ok([0, 1, 1])),
            (Line::One(Act::Logged(0, 0)), TAKEN),
            (Line::InFlight(0), Ok([0, 1, 1])),
            (Line::One(Act::Report(0)), Ok([100, 0, 0])),
            (Line::InFlight(0), Ok([0, 1, 1])),
            (Line::One(Act::Answer(0)), TAKEN),
            (Line::InFlight(0), Err(Refusal::WrongState)),
            (Line::One(Act::Seal(0, 100)), TAKEN),
            (Line::InFlight(0), Ok([1, 1, 1])),
        ],
    },
    Case {
        what: "a decision waits for the least resolver that is asked",
        sizes: THREE_RESOLVERS,
        lines: &[
            (Line::Sealed(0, b'h', b'q'), TAKEN),
            (Line::One(Act::Decide(0)), Err(Refusal::NotYet(1))),
            (Line::All(&[Act::Resolve(0, 2), Act::Verdict(0, 2)]), TAKEN),
            (Line::One(Act::Decide(0)), Err(Refusal::NotYet(1))),
            (Line::One(Act::Verdict(0, 1)), Err(Refusal::Unknown)),
            (Line::All(&[Act::Resolve(0, 1), Act::Verdict(0, 1)]), TAKEN),
            (Line::One(Act::Decide(0)), Ok([100, 0, 0])),
        ],
    },
    // The resolver that isn't asked takes its empty part all the same, and its verdicts are taken.
    Case {
        what: "verdicts on nothing are taken",
        sizes: THREE_RESOLVERS,
        lines: &[
            (Line::Sealed(0, b'h', b'q'), TAKEN),
            (Line::All(&[Act::Resolve(0, 0), Act::Verdict(0, 0)]), TAKEN),
            (Line::One(Act::Verdict(0, 0)), Err(Refusal::Stale)),
            (Line::One(Act::Decide(0)), Err(Refusal::NotYet(1))),
        ],
    },
    // Two batches are in flight. The later one reads what the earlier one writes, and is decided first.
    Case {
        what: "batches are decided in the other order",
        sizes: TWO_PROXIES,
        lines: &[
            (Line::Sealed(0, b'c', b'a'), TAKEN),
            (Line::Sealed(1, b'a', b'b'), TAKEN),
            (
                Line::All(&[Act::Resolve(0, 0), Act::Resolve(1, 0), Act::Verdict(1, 0)]),
                TAKEN,
            ),
            (Line::One(Act::Decide(1)), Ok([0, 0, 1020])),
            (Line::One(Act::Push(1, 0)), Err(Refusal::NotYet(100))),
            (Line::One(Act::Decide(0)), Err(Refusal::NotYet(0))),
            (Line::One(Act::Verdict(0, 0)), TAKEN),
            (Line::One(Act::Decide(0)), Ok([100, 0, 0])),
        ],
    },
    // The committed version is the greatest that was reported. Who reads at it reads what both batches wrote.
    Case {
        what: "versions are reported in the other order",
        sizes: TWO_PROXIES,
        lines: &[
            (Line::Sealed(0, b'c', b'a'), TAKEN),
            (Line::Sealed(1, b'c', b'b'), TAKEN),
            (Line::All(&TWO_DECIDED), TAKEN),
            (Line::All(&FIRST_LOGGED), TAKEN),
            (Line::All(&SECOND_LOGGED), TAKEN),
            (Line::One(Act::Report(1)), Ok([200, 0, 0])),
            (Line::All(&READS), TAKEN),
            (Line::One(Act::Report(0)), Ok([200, 0, 0])),
            (Line::All(&[Act::Answer(0), Act::Answer(1)]), TAKEN),
            (Line::Check, Ok([3, 0, 0])),
        ],
    },
    // What the logs say of the other proxy's entry doesn't count.
    Case {
        what: "a report waits for each log",
        sizes: TWO_PROXIES,
        lines: &[
            (Line::Sealed(0, b'c', b'a'), TAKEN),
            (Line::Sealed(1, b'c', b'b'), TAKEN),
            (Line::All(&TWO_DECIDED), TAKEN),
            (
                Line::All(&[Act::Push(0, 0), Act::Push(0, 1), Act::Logged(0, 1)]),
                TAKEN,
            ),
            (Line::All(&SECOND_LOGGED), TAKEN),
            (Line::One(Act::Report(0)), Err(Refusal::NotYet(0))),
            (Line::One(Act::Report(1)), Ok([200, 0, 0])),
            (Line::One(Act::Logged(0, 0)), TAKEN),
            (Line::One(Act::Logged(0, 0)), Err(Refusal::Stale)),
            (Line::One(Act::Report(0)), Ok([200, 0, 0])),
            (Line::One(Act::Report(0)), Err(Refusal::WrongState)),
        ],
    },
    // The proxy of entry 1 waits with its clients for the report of version 200, whatever the other proxy has reported.
    Case {
        what: "clients are answered after the report",
        sizes: TWO_PROXIES,
        lines: &[
            (Line::Sealed(0, b'c', b'a'), TAKEN),
            (Line::Sealed(1, b'c', b'b'), TAKEN),
            (Line::All(&TWO_DECIDED), TAKEN),
            (Line::One(Act::Answer(1)), Err(Refusal::NotYet(200))),
            (Line::All(&FIRST_LOGGED), TAKEN),
            (Line::All(&SECOND_LOGGED), TAKEN),
            (Line::One(Act::Report(0)), Ok([100, 0, 0])),
            (Line::One(Act::Answer(1)), Err(Refusal::NotYet(200))),
            (Line::One(Act::Report(1)), Ok([200, 0, 0])),
            (Line::One(Act::Answer(1)), TAKEN),
            (Line::One(Act::Answer(1)), Err(Refusal::WrongState)),
            (Line::Check, Ok([1, 0, 0])),
        ],
    },
];

fn played(alloc: Global, case: Case) -> Result<Option<(usize, Told)>, Refusal> {
    let mut world = new_world(alloc, case.sizes)?;
    Ok(first_wrong(&mut world, alloc, case.lines))
}

#[test]
fn worlds_answer_each_step(rt: HostRuntime) {
    for case in CASES.as_slice() {
        same(
            &rt,
            (case.what, played(rt.alloc(), *case)),
            (case.what, Ok(None)),
        );
    }
}
