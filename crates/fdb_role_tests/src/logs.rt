// Logs with known answers.
use crate::asserting::same;
use fdb_keys::{Items, Refusal, SharedList};
use fdb_log::{LogAck, LogCore, LogMsg, Tagged};
use fdb_making::{ask, code_of, made_of, push, shared};
use fdb_mutations::Mutation;
use fdb_txn::TagMsg;
use std::alloc::Global;

/// What the log answers to a message of entry 7 after the version before it.
pub fn take(
    core: &mut LogCore,
    log: u32,
    version: u64,
    prev: u64,
    body: SharedList<Tagged>,
) -> Result<LogAck, Refusal> {
    if version <= prev {
        return Err(Refusal::BadConfig);
    }
    let message = LogMsg {
        log,
        index: 7,
        version,
        prev,
        body,
    };
    core.push(&message)
}

fn tagged(alloc: Global, place: u32, key: &[u8], tags: &[u32]) -> Result<Tagged, Refusal> {
    let tags = Items::from_vec(Vec::from_slice(alloc, tags)?);
    let mutation = Mutation::clear(alloc, key)?;
    Ok(Tagged {
        place,
        mutation,
        tags,
    })
}

fn add(body: &mut Items<Tagged>, sent: Result<Tagged, Refusal>) -> Result<(), Refusal> {
    match sent {
        Ok(sent) => push(body, sent),
        Err(why) => Err(why),
    }
}

/// Clears by their places, keys and tags.
pub type Clears = &'static [(u32, &'static [u8], &'static [u32])];

/// What a message sends.
pub fn body_of(alloc: Global, clears: Clears) -> Result<SharedList<Tagged>, Refusal> {
    let mut body = Items::new(alloc);
    for (place, key, tags) in clears {
        add(&mut body, tagged(alloc, *place, key, tags))?;
    }
    shared(alloc, body)
}

fn clears(mutation: &Mutation, wanted: &[u8]) -> bool {
    match mutation {
        Mutation::Clear { key } => key.bytes() == wanted,
        _ => false,
    }
}

// Whether there is one message, which clears just these keys at their places.
fn are_clears(messages: &[TagMsg], wanted: &[(u32, &[u8])]) -> bool {
    let [message] = messages else {
        return false;
    };
    let body = message.body.as_slice();
    body.len() == wanted.len()
        && body.iter().zip(wanted).all(|(sent, (place, key))| sent.0 == *place
            && clears(&sent.1, key))
}

// What a log is asked.
#[derive(Clone, Copy)]
enum Line {
    // To take a message to the log of the number, at the version, after the one before, with these clears.
    Take(u32, u64, u64, Clears),
    // The tag's messages after the version, up to so many.
    Peek(u32, u64, u32),
    // Whether the tag has one message, which clears just these keys at their places.
    Gives(u32, &'static [(u32, &'static [u8])]),
    // To forget the tag's messages through the version.
    Pop(u32, u64),
    // How many mutations some tag kept here still waits for.
    Held,
    // The version of the last entry taken.
    Version,
    HasFailed,
}

// The log and the entry of what is acknowledged, or how many messages there are and through which version they go. Else
// it is the version that is asked for, or 1 where something is done or holds and 0 where it doesn't, and 0.
type Answer = Result<(u64, u64), Refusal>;

const YES: Answer = Ok((1, 0));

const NO: Answer = Ok((0, 0));

const DONE: Answer = Ok((1, 0));

fn take_body(
    core: &mut LogCore,
    alloc: Global,
    log: u32,
    version: u64,
    prev: u64,
    clears: Clears,
) -> Answer {
    let body = body_of(alloc, clears)?;
    let ack = take(core, log, version, prev, body)?;
    Ok((u64::from(ack.log), u64::from(ack.index)))
}

fn peek(core: &LogCore, tag: u32, after: u64, limit: u32) -> Answer {
    let peek = core.peek(tag, after, limit)?;
    Ok((peek.messages.len() as u64, peek.through))
}

fn gives_clears(core: &LogCore, tag: u32, wanted: &[(u32, &[u8])]) -> Answer {
    let peek = core.peek(tag, 0, 9)?;
    let holds = are_clears(peek.messages.as_slice(), wanted);
    Ok((u64::from(holds), 0))
}

fn answer(core: &mut LogCore, alloc: Global, line: Line) -> Answer {
    match line {
        Line::Take(log, version, prev, clears) => take_body(
            core, alloc, log, version, prev, clears,
        ),
        Line::Peek(tag, after, limit) => peek(core, tag, after, limit),
        Line::Gives(tag, wanted) => gives_clears(core, tag, wanted),
        Line::Pop(tag, through) => {
            core.pop(tag, through)?;
            DONE
        }
        Line::Held => Ok((core.held() as u64, 0)),
        Line::Version => Ok((core.version(), 0)),
        Line::HasFailed => Ok((u64::from(core.is_failed()), 0)),
    }
}

// What a new log of the number answers, of which there are so many, with so many tags.
#[derive(Clone, Copy)]
struct Case {
    what: &'static str,
    number: u32,
    logs: u32,
    tags: u32,
    lines: &'static [(Line, Answer)],
}

static CASES: [Case; 8] = [
    Case {
        what: "messages after a version are given up to the limit",
        number: 0,
        logs: 1,
        tags: 1,
        lines: &[
            (Line::Take(0, 100, 0, &[]), Ok((0, 7))),
            (Line::Take(0, 200, 100, &[]), Ok((0, 7))),
            (Line::Peek(0, 0, 0), Ok((0, 0))),
            (Line::Peek(0, 0, 1), Ok((1, 100))),
            (Line::Peek(0, 0, 9), Ok((2, 200))),
            (Line::Peek(0, 200, 9), Ok((0, 200))),
            (Line::Peek(0, 201, 9), Err(Refusal::BadConfig)),
            (Line::Peek(1, 0, 9), Err(Refusal::BadConfig)),
        ],
    },
    Case {
        what: "popped messages are gone",
        number: 0,
        logs: 1,
        tags: 1,
        lines: &[
            (Line::Take(0, 100, 0, &[]), Ok((0, 7))),
            (Line::Take(0, 200, 100, &[]), Ok((0, 7))),
            (Line::Pop(0, 999), Err(Refusal::BadConfig)),
            (Line::Pop(1, 100), Err(Refusal::BadConfig)),
            (Line::Pop(0, 100), DONE),
            (Line::Peek(0, 0, 9), Err(Refusal::TransactionTooOld)),
            (Line::Peek(0, 100, 9), Ok((1, 200))),
        ],
    },
    Case {
        what: "messages out of turn are refused",
        number: 0,
        logs: 1,
        tags: 1,
        lines: &[
            (Line::Version, Ok((0, 0))),
            (Line::Take(1, 100, 0, &[]), Err(Refusal::Unknown)),
            (Line::Take(0, 100, 0, &[]), Ok((0, 7))),
            (Line::Take(0, 200, 100, &[]), Ok((0, 7))),
            (Line::Take(0, 200, 100, &[]), Err(Refusal::Stale)),
            (Line::Take(0, 400, 300, &[]), Err(Refusal::NotYet(300))),
            (Line::Version, Ok((200, 0))),
            (Line::HasFailed, NO),
        ],
    },
    Case {
        what: "each tag of a log has its own mutations",
        number: 0,
        logs: 2,
        tags: 3,
        lines: &[
            (
                Line::Take(
                    0,
                    100,
                    0,
                    &[(0, b"a", &[0]), (3, b"b", &[0, 2]), (5, b"c", &[2])],
                ),
                Ok((0, 7)),
            ),
            (Line::Gives(0, &[(0, b"a"), (3, b"b")]), YES),
            (Line::Peek(1, 0, 9), Err(Refusal::BadConfig)),
            (Line::Pop(0, 100), DONE),
            (Line::Peek(0, 100, 9), Ok((0, 100))),
            (Line::Gives(2, &[(3, b"b"), (5, b"c")]), YES),
        ],
    },
    Case {
        what: "a popped log holds nothing",
        number: 1,
        logs: 2,
        tags: 2,
        lines: &[
            (Line::Held, Ok((0, 0))),
            (Line::Take(1, 100, 0, &[(0, b"z", &[1])]), Ok((1, 7))),
            (Line::Take(1, 200, 100, &[(0, b"a", &[0, 1])]), Ok((1, 7))),
            (Line::Held, Ok((2, 0))),
            (Line::Pop(1, 200), DONE),
            (Line::Held, Ok((0, 0))),
        ],
    },
    Case {
        what: "a log that isn't popped holds all",
        number: 0,
        logs: 2,
        tags: 2,
        lines: &[
            (Line::Take(0, 100, 0, &[(0, b"a", &[0])]), Ok((0, 7))),
            (Line::Take(0, 200, 100, &[(0, b"a", &[0, 1])]), Ok((0, 7))),
            (Line::Held, Ok((2, 0))),
        ],
    },
    Case {
        what: "a mutation is held until each of its tags kept here is popped",
        number: 0,
        logs: 1,
        tags: 2,
        lines: &[
            (
                Line::Take(0, 100, 0, &[(0, b"a", &[0]), (0, b"b", &[0, 1])]),
                Ok((0, 7)),
            ),
            (Line::Take(0, 200, 100, &[(0, b"c", &[1])]), Ok((0, 7))),
            (Line::Held, Ok((3, 0))),
            (Line::Pop(0, 200), DONE),
            (Line::Held, Ok((2, 0))),
            (Line::Peek(1, 0, 9), Ok((2, 200))),
            (Line::Pop(1, 100), DONE),
            (Line::Held, Ok((1, 0))),
            (Line::Peek(1, 100, 9), Ok((1, 200))),
            (Line::Pop(1, 200), DONE),
            (Line::Held, Ok((0, 0))),
        ],
    },
    Case {
        what: "the last of 64 tags is one like the first, in whatever order and however often it comes",
        number: 0,
        logs: 1,
        tags: 64,
        lines: &[
            (
                Line::Take(
                    0,
                    100,
                    0,
                    &[
                        (0, b"a", &[63, 0, 63]),
                        (1, b"b", &[63]),
                        (2, b"c", &[]),
                        (3, b"d", &[31, 32]),
                    ],
                ),
                Ok((0, 7)),
            ),
            (Line::Held, Ok((3, 0))),
            (Line::Gives(63, &[(0, b"a"), (1, b"b")]), YES),
            (Line::Pop(63, 100), DONE),
            (Line::Held, Ok((2, 0))),
            (Line::Pop(32, 100), DONE),
            (Line::Pop(33, 100), DONE),
            (Line::Held, Ok((2, 0))),
            (Line::Pop(31, 100), DONE),
            (Line::Held, Ok((1, 0))),
            (Line::Gives(0, &[(0, b"a")]), YES),
            (Line::Pop(0, 100), DONE),
            (Line::Held, Ok((0, 0))),
        ],
    },
];

// The first line that is answered otherwise than is wanted, by its place, and its answer.
fn first_wrong(
    core: &mut LogCore,
    alloc: Global,
    lines: &[(Line, Answer)],
) -> Option<(usize, Answer)> {
    for (place, (line, wanted)) in lines.iter().enumerate() {
        let given = answer(core, alloc, *line);
        if given != *wanted {
            return Some((place, given));
        }
    }
    None
}

fn played(alloc: Global, case: Case) -> Result<Option<(usize, Answer)>, Refusal> {
    let mut core = LogCore::new(alloc, case.number, case.logs, case.tags)?;
    Ok(first_wrong(&mut core, alloc, case.lines))
}

#[test]
fn logs_answer_each_line(rt: HostRuntime) {
    for case in CASES.as_slice() {
        same(
            &rt,
            (case.what, played(rt.alloc(), *case)),
            (case.what, Ok(None)),
        );
    }
}

fn copied(alloc: Global, sent: &Tagged) -> Result<Tagged, Refusal> {
    let copy = sent.copy(alloc)?;
    Ok(copy)
}

// Whether it clears b at place 3, with the tags 0 and 2.
fn clears_b(sent: &Tagged) -> bool {
    sent.place == 3 && clears(&sent.mutation, b"b") && sent.tags.as_slice() == [0, 2].as_slice()
}

// The number of a log, how many logs and tags there are, and the code of why there is no such log, or 0.
static CONFIGURATIONS: [(u32, u32, u32, u32); 5] = [
    (15, 16, 64, 0),
    (1, 1, 1, 9009),
    (0, 17, 1, 9009),
    (0, 1, 0, 9009),
    (0, 1, 65, 9009),
];

#[test]
fn logs_within_their_limits_are_served_and_messages_are_copied(rt: HostRuntime) {
    let alloc = rt.alloc();
    for (log, logs, tags, code) in CONFIGURATIONS.as_slice() {
        same(&rt, code_of(LogCore::new(alloc, *log, *logs, *tags)), *code);
    }
    let copy = made_of(tagged(alloc, 3, b"b", &[0, 2]), |sent| copied(alloc, sent));
    same(&rt, ask(copy, |copy| clears_b(copy)), Ok(true));
}
