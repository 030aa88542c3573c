// The client's side of transactions: steps with their known answers.
mod cut_snapshot;
mod marks;
mod paging;
mod programs;
mod steps;

use self::cut_snapshot::CutSnapshot;
use self::steps::{Asked, Change, Text};
use crate::asserting::same;
use bytes::Bytes;
use fdb_client::{ConflictSet, Finished, Op, PlainSnapshot, Reply, Snapshot, Transcript, Txn};
use fdb_keys::{Items, Key, KeyRange, Refusal, Refused};
use fdb_making::{are_ranges, ask, coded, filled, made_of, text_of};
use fdb_mutations::{Mutation, PlainMap};
use fdb_txn::{Sealed, TxnId};
use std::alloc::Global;
use std::slice;

fn begin(alloc: Global) -> Txn {
    let id = TxnId {
        session: 3,
        number: 7,
    };
    Txn::begin(alloc, id, 40)
}

fn mutation_of(alloc: Global, change: Change) -> Result<Mutation, Refusal> {
    match change {
        Change::Set(key, value) => Mutation::set(alloc, key, &[value]),
        Change::Clear(key) => Mutation::clear(alloc, key),
        Change::ClearRange(begin, end) => Mutation::clear_range(alloc, begin, end),
        Change::Add(key, operand) => Mutation::add(alloc, key, &[operand]),
        Change::CompareAndClear(key, operand) => Mutation::compare_and_clear(
            alloc,
            key,
            &[operand],
        ),
    }
}

fn write(txn: &mut Txn, mutation: Result<Mutation, Refusal>) -> Result<(), Refusal> {
    match mutation {
        Ok(mutation) => txn.write(mutation),
        Err(why) => Err(why),
    }
}

fn add_read(txn: &mut Txn, alloc: Global, begin: Text, end: Text) -> Result<(), Refusal> {
    let range = KeyRange::new(alloc, begin, end)?;
    txn.add_read(&range)
}

fn add_write(txn: &mut Txn, alloc: Global, begin: Text, end: Text) -> Result<(), Refusal> {
    let range = KeyRange::new(alloc, begin, end)?;
    txn.add_write(&range)
}

fn get(
    txn: &mut Txn,
    base: CutSnapshot<'_>,
    key: &Key,
    is_snapshot: bool,
) -> Result<Option<Bytes>, Refusal> {
    let version = txn.transcript().read_version;
    txn.get(&CutSnapshot { version, ..base }, key, is_snapshot)
}

fn range(
    txn: &mut Txn,
    base: CutSnapshot<'_>,
    keys: &KeyRange,
    asked: Asked,
) -> Result<Items<(Key, Bytes)>, Refusal> {
    let version = txn.transcript().read_version;
    let snapshot = CutSnapshot { version, ..base };
    txn.get_range(
        &snapshot,
        keys,
        asked.limit,
        asked.reverse,
        asked.is_snapshot,
    )
}

// What is done with an open transaction, or asked of it.
#[derive(Clone, Copy)]
enum Line {
    Write(Change),
    // The addition of a number of as many bytes to a.
    AddLong(usize),
    // Sets as many keys to values of as many bytes.
    SetEach(u8, usize),
    AddRead(Text, Text),
    AddWrite(Text, Text),
    // By an ordinary read or by a snapshot read.
    Get(Text, bool),
    // Whether just these pairs are read.
    Range(Asked, &'static [(Text, u8)]),
    // Whether the read set, or the write set, is just these ranges.
    Reads(&'static [(Text, Text)]),
    Writes(&'static [(Text, Text)]),
    // How many operations are noted.
    Ops,
    // Whether the own writes decide the key.
    Decides(Text),
    ReadVersion,
    // Whether it writes nothing.
    IsReadOnly,
}

// The one byte of a value, if there is one, the number that is asked for, 1 where something is done or holds, or the
// code of the refusal.
type Answer = Result<Option<usize>, u32>;

const DONE: Answer = Ok(Some(1));

const YES: Answer = Ok(Some(1));

const NO: Answer = Ok(Some(0));

const NO_VALUE: Answer = Ok(None);

fn first_byte(bytes: &[u8]) -> u8 {
    match bytes {
        [byte] => *byte,
        _ => 255,
    }
}

fn byte_of(
    txn: &mut Txn,
    base: CutSnapshot<'_>,
    alloc: Global,
    key: Text,
    is_snapshot: bool,
) -> Result<Option<usize>, Refusal> {
    let key = Key::new(alloc, key)?;
    match get(txn, base, &key, is_snapshot)? {
        Some(value) => Ok(Some(usize::from(first_byte(value.as_slice())))),
        None => Ok(None),
    }
}

// Whether these are just the pairs of the keys and the values of one byte.
fn are(pairs: &[(Key, Bytes)], wanted: &[(Text, u8)]) -> bool {
    pairs.len() == wanted.len()
        && pairs.iter().zip(wanted).all(|(pair, (key, value))| {
            pair.0.bytes() == *key && pair.1.as_slice() == [*value].as_slice()
        })
}

fn gives(
    txn: &mut Txn,
    base: CutSnapshot<'_>,
    alloc: Global,
    asked: Asked,
    wanted: &[(Text, u8)],
) -> Result<bool, Refusal> {
    let keys = KeyRange::new(alloc, asked.begin, asked.end)?;
    let pairs = range(txn, base, &keys, asked)?;
    Ok(are(pairs.as_slice(), wanted))
}

fn has(set: &ConflictSet, alloc: Global, bounds: &[(Text, Text)]) -> Result<bool, Refusal> {
    let set = set.to_set(alloc)?;
    Ok(are_ranges(set.iter().as_slice(), bounds))
}

fn decides(txn: &Txn, alloc: Global, key: Text) -> Result<bool, Refusal> {
    let key = Key::new(alloc, key)?;
    Ok(txn.decides(&key))
}

fn add_long(txn: &mut Txn, alloc: Global, count: usize) -> Result<(), Refusal> {
    let operand = text_of(alloc, 1, count)?;
    write(txn, Mutation::add(alloc, b"a", operand.as_slice()))
}

fn set_each(txn: &mut Txn, alloc: Global, keys: u8, count: usize) -> Result<(), Refusal> {
    let value = text_of(alloc, b'v', count)?;
    for key in 0..keys {
        write(txn, Mutation::set(alloc, &[key], value.as_slice()))?;
    }
    Ok(())
}

fn done(answer: Result<(), Refusal>) -> Answer {
    match answer {
        Ok(()) => DONE,
        Err(why) => Err(why.code()),
    }
}

fn held(answer: Result<bool, Refusal>) -> Answer {
    match answer {
        Ok(holds) => Ok(Some(usize::from(holds))),
        Err(why) => Err(why.code()),
    }
}

fn answer(txn: &mut Txn, base: CutSnapshot<'_>, alloc: Global, line: Line) -> Answer {
    match line {
        Line::Write(change) => done(write(txn, mutation_of(alloc, change))),
        Line::AddLong(count) => done(add_long(txn, alloc, count)),
        Line::SetEach(keys, count) => done(set_each(txn, alloc, keys, count)),
        Line::AddRead(begin, end) => done(add_read(txn, alloc, begin, end)),
        Line::AddWrite(begin, end) => done(add_write(txn, alloc, begin, end)),
        Line::Get(key, is_snapshot) => coded(byte_of(txn, base, alloc, key, is_snapshot)),
        Line::Range(asked, pairs) => held(gives(txn, base, alloc, asked, pairs)),
        Line::Reads(bounds) => held(has(txn.read_conflicts(), alloc, bounds)),
        Line::Writes(bounds) => held(has(txn.write_conflicts(), alloc, bounds)),
        Line::Ops => Ok(Some(txn.transcript().ops.len())),
        Line::Decides(key) => held(decides(txn, alloc, key)),
        Line::ReadVersion => Ok(Some(txn.read_version() as usize)),
        Line::IsReadOnly => held(Ok(txn.is_read_only())),
    }
}

// The first line that is answered otherwise than is wanted, by its place, and its answer.
fn first_wrong(
    txn: &mut Txn,
    base: CutSnapshot<'_>,
    alloc: Global,
    lines: &[(Line, Answer)],
) -> Option<(usize, Answer)> {
    for (place, (line, wanted)) in lines.iter().enumerate() {
        let given = answer(txn, base, alloc, *line);
        if given != *wanted {
            return Some((place, given));
        }
    }
    None
}

fn sets_a_to_1(mutations: &[Mutation]) -> bool {
    match mutations {
        [Mutation::Set { key, value }] => key.bytes() == b"a".as_slice()
            && first_byte(value.as_slice()) == 1,
        _ => false,
    }
}

// Whether the write set is just these ranges, how many mutations there are, and whether they are just the set of a
// to 1.
fn asks_for(sealed: &Sealed, writes: &[(Text, Text)]) -> (bool, usize, bool) {
    (
        are_ranges(sealed.writes().iter().as_slice(), writes),
        sealed.mutations().len(),
        sets_a_to_1(sealed.mutations()),
    )
}

// The same where something is to be committed, and why it is not finished, with how many operations are handed back.
type Ended = Result<Option<(bool, usize, bool)>, (u32, usize)>;

fn told(finished: &Result<Finished, Refused<Txn>>, writes: &[(Text, Text)]) -> Ended {
    match finished {
        Ok(Finished::ReadOnly(_)) => Ok(None),
        Ok(Finished::ToCommit(sealed, _)) => Ok(Some(asks_for(sealed, writes))),
        Err(refused) => Err((refused.why.code(), refused.back.transcript().ops.len())),
    }
}

fn finish(txn: Txn, writes: &[(Text, Text)]) -> Ended {
    let finished = txn.finish();
    let found = told(&finished, writes);
    drop(finished);
    found
}

// What it asks to commit, or the code of the refusal.
type Requested = Result<(bool, usize, bool), u32>;

// What a transaction that ends so asks to commit: nothing where it is read-only.
fn requested_by(ended: Ended) -> Requested {
    match ended {
        Ok(Some(asked)) => Ok(asked),
        Ok(None) => Ok((true, 0, false)),
        Err((code, _ops)) => Err(code),
    }
}

// What a new transaction is asked over the map in which a, b and c are 1, 2 and 3, and how it ends when it is finished
// then, with these ranges as its write set.
#[derive(Clone, Copy)]
struct Case {
    what: &'static str,
    // Why each read of the map is refused.
    fault: Option<Refusal>,
    lines: &'static [(Line, Answer)],
    writes: &'static [(Text, Text)],
    ended: Ended,
}

const READ_ONLY: Ended = Ok(None);

const ORDINARY: bool = false;

const SNAPSHOT: bool = true;

// What isn't reached yet.
const FUTURE: Option<Refusal> = Some(Refusal::FutureVersion);

// The first two pairs from a to z, the first four, all, and the last one.
const TWO: Asked = Asked {
    begin: b"a",
    end: b"z",
    limit: 2,
    reverse: false,
    is_snapshot: false,
};

const FOUR: Asked = Asked {
    begin: b"a",
    end: b"z",
    limit: 4,
    reverse: false,
    is_snapshot: false,
};

const ALL: Asked = Asked {
    begin: b"a",
    end: b"z",
    limit: 0,
    reverse: false,
    is_snapshot: false,
};

const LAST: Asked = Asked {
    begin: b"a",
    end: b"z",
    limit: 1,
    reverse: true,
    is_snapshot: false,
};

// The first two by a snapshot read.
const SNAPSHOT_OF_TWO: Asked = Asked {
    begin: b"a",
    end: b"z",
    limit: 2,
    reverse: false,
    is_snapshot: true,
};

// The range without keys.
const NONE: Asked = Asked {
    begin: b"a",
    end: b"a",
    limit: 0,
    reverse: false,
    is_snapshot: false,
};

// The first four from a to the end of all keys.
const FOUR_OF_ALL: Asked = Asked {
    begin: b"a",
    end: b"\xff",
    limit: 4,
    reverse: false,
    is_snapshot: false,
};

static CASES: [Case; 21] = [
    Case {
        what: "own clears are read",
        fault: None,
        lines: &[
            (Line::Get(b"a", ORDINARY), Ok(Some(1))),
            (Line::Write(Change::Clear(b"a")), DONE),
            (Line::Get(b"a", ORDINARY), NO_VALUE),
            (Line::Reads(&[(b"a", b"a\0")]), YES),
            (Line::Ops, Ok(Some(3))),
        ],
        writes: &[(b"a", b"a\0")],
        ended: Ok(Some((true, 1, false))),
    },
    Case {
        what: "compared keys are read",
        fault: None,
        lines: &[
            (Line::Write(Change::CompareAndClear(b"a", 1)), DONE),
            (Line::Write(Change::CompareAndClear(b"b", 9)), DONE),
            (Line::Decides(b"a"), NO),
            (Line::Get(b"a", ORDINARY), NO_VALUE),
            (Line::Get(b"b", ORDINARY), Ok(Some(2))),
            (Line::Reads(&[(b"a", b"a\0"), (b"b", b"b\0")]), YES),
        ],
        writes: &[(b"a", b"a\0"), (b"b", b"b\0")],
        ended: Ok(Some((true, 2, false))),
    },
    Case {
        what: "own additions are read",
        fault: None,
        lines: &[
            (Line::Write(Change::Add(b"a", 5)), DONE),
            (Line::Decides(b"a"), NO),
            (Line::Get(b"a", ORDINARY), Ok(Some(6))),
            (Line::Write(Change::Set(b"a", 7)), DONE),
            (Line::Get(b"a", ORDINARY), Ok(Some(7))),
            (Line::Write(Change::Add(b"a", 5)), DONE),
            (Line::Decides(b"a"), YES),
            (Line::Get(b"a", ORDINARY), Ok(Some(12))),
        ],
        writes: &[(b"a", b"a\0")],
        ended: Ok(Some((true, 3, false))),
    },
    Case {
        what: "decided keys are not asked",
        fault: FUTURE,
        lines: &[
            (Line::ReadVersion, Ok(Some(40))),
            (Line::Decides(b"b"), NO),
            (Line::Write(Change::ClearRange(b"a", b"c")), DONE),
            (Line::Decides(b"b"), YES),
            (Line::Decides(b"c"), NO),
            (Line::Get(b"b", ORDINARY), NO_VALUE),
            (Line::Get(b"c", ORDINARY), Err(1009)),
            (Line::Reads(&[]), YES),
            (Line::Ops, Ok(Some(2))),
        ],
        writes: &[(b"a", b"c")],
        ended: Ok(Some((true, 1, false))),
    },
    Case {
        what: "entries of cleared keys go",
        fault: FUTURE,
        lines: &[
            (Line::Write(Change::Set(b"b", 2)), DONE),
            (Line::Write(Change::ClearRange(b"a", b"c")), DONE),
            (Line::Get(b"b", ORDINARY), NO_VALUE),
        ],
        writes: &[(b"a", b"c")],
        ended: Ok(Some((true, 2, false))),
    },
    Case {
        what: "snapshot reads add nothing",
        fault: None,
        lines: &[
            (Line::Get(b"a", SNAPSHOT), Ok(Some(1))),
            (Line::Reads(&[]), YES),
        ],
        writes: &[],
        ended: READ_ONLY,
    },
    Case {
        what: "added reads are whole",
        fault: FUTURE,
        lines: &[
            (Line::Write(Change::Set(b"b", 2)), DONE),
            (Line::AddRead(b"a", b"c"), DONE),
            (Line::Reads(&[(b"a", b"c")]), YES),
        ],
        writes: &[(b"b", b"b\0")],
        ended: Ok(Some((true, 1, false))),
    },
    Case {
        what: "empty ranges add nothing",
        fault: FUTURE,
        lines: &[
            (Line::AddRead(b"a", b"a"), DONE),
            (Line::AddWrite(b"a", b"a"), DONE),
            (Line::Reads(&[]), YES),
            (Line::Writes(&[]), YES),
            (Line::IsReadOnly, YES),
        ],
        writes: &[],
        ended: READ_ONLY,
    },
    Case {
        what: "reads alone are finished",
        fault: None,
        lines: &[
            (Line::Get(b"a", ORDINARY), Ok(Some(1))),
            (Line::IsReadOnly, YES),
        ],
        writes: &[],
        ended: READ_ONLY,
    },
    Case {
        what: "added writes are to commit",
        fault: FUTURE,
        lines: &[(Line::AddWrite(b"a", b"c"), DONE), (Line::IsReadOnly, NO)],
        writes: &[(b"a", b"c")],
        ended: Ok(Some((true, 0, false))),
    },
    Case {
        what: "mutations are to commit",
        fault: FUTURE,
        lines: &[
            (Line::Write(Change::Set(b"a", 1)), DONE),
            (Line::IsReadOnly, NO),
        ],
        writes: &[(b"a", b"a\0")],
        ended: Ok(Some((true, 1, true))),
    },
    Case {
        what: "refused writes are not noted",
        fault: FUTURE,
        lines: &[
            (Line::AddLong(17), Err(9008)),
            (Line::Ops, Ok(Some(0))),
            (Line::Reads(&[]), YES),
            (Line::Writes(&[]), YES),
            (Line::AddLong(100_001), Err(2103)),
            (Line::Ops, Ok(Some(0))),
            (Line::Reads(&[]), YES),
            (Line::Writes(&[]), YES),
        ],
        writes: &[],
        ended: READ_ONLY,
    },
    Case {
        what: "too large transactions are handed back",
        fault: FUTURE,
        lines: &[(Line::SetEach(101, 99_999), DONE)],
        writes: &[],
        ended: Err((2101, 101)),
    },
    Case {
        what: "decided keys of a range are not read",
        fault: None,
        lines: &[
            (Line::Write(Change::Clear(b"a")), DONE),
            (Line::Write(Change::Set(b"bb", b'x')), DONE),
            (Line::Range(TWO, &[(b"b", 2), (b"bb", b'x')]), YES),
            (Line::Reads(&[(b"a\0", b"bb")]), YES),
            (Line::Writes(&[(b"a", b"a\0"), (b"bb", b"bb\0")]), YES),
        ],
        writes: &[(b"a", b"a\0"), (b"bb", b"bb\0")],
        ended: Ok(Some((true, 2, false))),
    },
    Case {
        what: "snapshot ranges are not read",
        fault: None,
        lines: &[
            (Line::Write(Change::Clear(b"a")), DONE),
            (Line::Write(Change::Set(b"bb", b'x')), DONE),
            (
                Line::Range(SNAPSHOT_OF_TWO, &[(b"b", 2), (b"bb", b'x')]),
                YES,
            ),
            (Line::Reads(&[]), YES),
        ],
        writes: &[(b"a", b"a\0"), (b"bb", b"bb\0")],
        ended: Ok(Some((true, 2, false))),
    },
    Case {
        what: "compared keys of a range are read",
        fault: None,
        lines: &[
            (Line::Write(Change::CompareAndClear(b"a", 1)), DONE),
            (Line::Write(Change::CompareAndClear(b"b", 9)), DONE),
            (Line::Range(ALL, &[(b"b", 2), (b"c", 3)]), YES),
            (Line::Reads(&[(b"a", b"z")]), YES),
        ],
        writes: &[(b"a", b"a\0"), (b"b", b"b\0")],
        ended: Ok(Some((true, 2, false))),
    },
    Case {
        what: "reverse ranges are read from their end",
        fault: None,
        lines: &[
            (Line::Range(LAST, &[(b"c", 3)]), YES),
            (Line::Reads(&[(b"c", b"z")]), YES),
        ],
        writes: &[],
        ended: READ_ONLY,
    },
    Case {
        what: "own sets behind the last pair are given",
        fault: None,
        lines: &[
            (Line::Write(Change::Set(b"d", 4)), DONE),
            (
                Line::Range(FOUR, &[(b"a", 1), (b"b", 2), (b"c", 3), (b"d", 4)]),
                YES,
            ),
            (Line::Reads(&[(b"a", b"d")]), YES),
        ],
        writes: &[(b"d", b"d\0")],
        ended: Ok(Some((true, 1, false))),
    },
    Case {
        what: "empty ranges read nothing",
        fault: None,
        lines: &[
            (Line::Range(NONE, &[]), YES),
            (Line::Reads(&[]), YES),
            (Line::Writes(&[]), YES),
        ],
        writes: &[],
        ended: READ_ONLY,
    },
    Case {
        what: "ranges with room left are read whole",
        fault: None,
        lines: &[
            (
                Line::Range(FOUR_OF_ALL, &[(b"a", 1), (b"b", 2), (b"c", 3)]),
                YES,
            ),
            (Line::Reads(&[(b"a", b"\xff")]), YES),
        ],
        writes: &[],
        ended: READ_ONLY,
    },
    Case {
        what: "refused ranges are not noted",
        fault: FUTURE,
        lines: &[
            (Line::AddRead(b"a", b"c"), DONE),
            (Line::Range(ALL, &[]), Err(1009)),
            (Line::Ops, Ok(Some(1))),
            (Line::Reads(&[(b"a", b"c")]), YES),
        ],
        writes: &[],
        ended: READ_ONLY,
    },
];

// What is read of the map.
fn base_of(map: &PlainMap, fault: Option<Refusal>) -> CutSnapshot<'_> {
    CutSnapshot {
        version: 0,
        map,
        cut: 0,
        fault,
    }
}

// The first wrong line, what the transaction asks to commit then, and how it ends.
fn played(
    alloc: Global,
    map: &PlainMap,
    case: Case,
) -> (Option<(usize, Answer)>, Requested, Ended) {
    let mut txn = begin(alloc);
    let wrong = first_wrong(&mut txn, base_of(map, case.fault), alloc, case.lines);
    let requested = ask(txn.request(), |sealed| asks_for(sealed, case.writes));
    (wrong, requested, finish(txn, case.writes))
}

#[test]
fn transactions_read_and_write_what_their_steps_say(rt: HostRuntime) {
    let alloc = rt.alloc();
    for case in CASES.as_slice() {
        let found = ask(filled(alloc), |map| played(alloc, map, *case));
        let wanted = (None, requested_by(case.ended), case.ended);
        same(&rt, (case.what, found), (case.what, Ok(wanted)));
    }
}

// Whether these are a set of a to 1 and an ordinary read of a.
fn are_set_and_get(ops: &[(Op, Reply)]) -> bool {
    match ops {
        [
            (Op::Write(mutation), _done),
            (Op::Get { key, snapshot }, _value),
        ] => {
            sets_a_to_1(slice::from_ref(mutation)) && key.bytes() == b"a".as_slice() && !*snapshot
        }
        _ => false,
    }
}

// The session and the number of the id, the read version, and whether the operations are a set of a to 1 and a read
// of a.
type Parts = (u32, u64, u64, bool);

fn parts_of(transcript: &Transcript) -> Parts {
    (
        transcript.id.session,
        transcript.id.number,
        transcript.read_version,
        are_set_and_get(transcript.ops.as_slice()),
    )
}

// The first wrong line, and the parts of the transcript that the transaction leaves behind.
fn left_behind(
    alloc: Global,
    map: &PlainMap,
    lines: &[(Line, Answer)],
) -> (Option<(usize, Answer)>, Parts) {
    let mut txn = begin(alloc);
    let wrong = first_wrong(&mut txn, base_of(map, FUTURE), alloc, lines);
    let transcript = txn.into_transcript();
    let parts = parts_of(&transcript);
    drop(transcript);
    (wrong, parts)
}

#[test]
fn transcripts_keep_what_a_transaction_did(rt: HostRuntime) {
    let alloc = rt.alloc();
    let lines = &[
        (Line::Write(Change::Set(b"a", 1)), DONE),
        (Line::Get(b"a", ORDINARY), Ok(Some(1))),
    ];
    let found = ask(filled(alloc), |map| left_behind(alloc, map, lines));
    same(&rt, found, Ok((None, (3, 7, 40, true))));
}

// The page of the keys from a to c, which has two pairs: how many pairs, the first value, and whether there is more.
fn page(
    alloc: Global,
    map: &PlainMap,
    limit: u32,
    reverse: bool,
) -> Result<(usize, u8, bool), Refusal> {
    let keys = KeyRange::new(alloc, b"a", b"c")?;
    let page = PlainSnapshot { version: 40, map }.page(&keys, limit, reverse)?;
    let first = match page.pairs.as_slice() {
        [(_, value), ..] => first_byte(value.as_slice()),
        [] => 0,
    };
    Ok((page.pairs.len(), first, page.more))
}

#[test]
fn pages_say_whether_there_is_more(rt: HostRuntime) {
    let alloc = rt.alloc();
    for (limit, reverse, wanted) in [
        (1, false, (1, 1, true)),
        (2, false, (2, 1, false)),
        (0, true, (2, 2, false)),
    ] {
        let found = made_of(filled(alloc), |map| page(alloc, map, limit, reverse));
        same(&rt, found, Ok(wanted));
    }
}
