// Shards with known answers.
ghost use Rattle.std.specs.Prelude.{◌<◌, ◌^◌, IfOk};
ghost use Rattle.fdb_log.specs.Peeks.{IsPeek};

use crate::asserting::same;
use bytes::Bytes;
use fdb_keys::{Items, Key, KeyRange, Refusal};
use fdb_log::{Peek, TagMsg};
use fdb_making::{
    Splits, after, are_pairs, both, code_of, has_bounds, made_of, push, shared, splits_of,
};
use fdb_mutations::{Mutation, PlainMap};
use fdb_storage::{Shard, ShardMap, replay};
use std::alloc::Global;

type Text = &'static [u8];

// The mutations of a message, by their places.
type Body = Items<(u32, Mutation)>;

fn put(body: &mut Body, place: u32, mutation: Result<Mutation, Refusal>) -> Result<(), Refusal> {
    match mutation {
        Ok(mutation) => push(body, (place, mutation)),
        Err(why) => Err(why),
    }
}

// The sets of a to 1 and of l to 7.
fn first_body(alloc: Global) -> Result<Body, Refusal> {
    let mut body = Items::new(alloc);
    put(&mut body, 0, Mutation::set(alloc, b"a", b"1"))?;
    put(&mut body, 1, Mutation::set(alloc, b"l", b"7"))?;
    Ok(body)
}

// What turns the 1 of a into 3, by way of 2, and clears the keys from k on, those of the next shard too.
fn second_body(alloc: Global) -> Result<Body, Refusal> {
    let mut body = Items::new(alloc);
    put(&mut body, 0, Mutation::add(alloc, b"a", &[1]))?;
    put(&mut body, 0, Mutation::xor(alloc, b"a", &[1]))?;
    put(&mut body, 3, Mutation::clear_range(alloc, b"k", b"z"))?;
    Ok(body)
}

// The peek from 0 through 200 with a message at 100 and one at 200.
fn peek_with(alloc: Global, first: Body, second: Body) -> Result<Peek, Refusal>
    ensures { IfOk result (λ peek. IsPeek peek) }
{
    let (first, second) = (shared(alloc, first)?, shared(alloc, second)?);
    let messages = vec![in alloc;
        TagMsg {
            version: 100,
            prev: 0,
            body: first,
        },
        TagMsg {
            version: 200,
            prev: 100,
            body: second,
        },
    ]?;
    Ok(Peek {
        tag: 0,
        after: 0,
        through: 200,
        messages: Items::from_vec(messages),
    })
}

/// The same of those two bodies.
pub fn peek_of_two(alloc: Global) -> Result<Peek, Refusal>
    ensures { IfOk result (λ peek. IsPeek peek) }
{
    let first = first_body(alloc)?;
    let second = second_body(alloc)?;
    peek_with(alloc, first, second)
}

// The set of a to 3, and l with a stamp that it waits for.
fn waiting_body(alloc: Global) -> Result<Body, Refusal> {
    let mut body = Items::new(alloc);
    put(&mut body, 0, Mutation::set(alloc, b"a", b"3"))?;
    put(&mut body, 2, Mutation::stamped(alloc, b"l", &[0; 10], 0))?;
    Ok(body)
}

// The peek from 0 through 200 whose second message waits for a stamp.
fn waiting_peek(alloc: Global) -> Result<Peek, Refusal>
    ensures { IfOk result (λ peek. IsPeek peek) }
{
    let first = first_body(alloc)?;
    let second = waiting_body(alloc)?;
    peek_with(alloc, first, second)
}

fn empty_peek(alloc: Global, tag: u32, version: u64) -> Peek
    ensures { IsPeek result }
{
    Peek {
        tag,
        after: version,
        through: version,
        messages: Items::new(alloc),
    }
}

fn apply_two(shard: &mut Shard, alloc: Global) -> Result<(), Refusal> {
    let peek = peek_of_two(alloc)?;
    shard.apply(&peek)
}

fn apply_waiting(shard: &mut Shard, alloc: Global) -> Result<(), Refusal> {
    let peek = waiting_peek(alloc)?;
    shard.apply(&peek)
}

fn apply_none(shard: &mut Shard, alloc: Global, tag: u32, version: u64) -> Result<(), Refusal> {
    shard.apply(&empty_peek(alloc, tag, version))
}

/// The shard of the keys from the begin up to the end, whose tag is 0.
pub fn new_shard(alloc: Global, begin: &[u8], end: &[u8]) -> Result<Shard, Refusal> {
    let range = KeyRange::new(alloc, begin, end)?;
    Ok(Shard::new(alloc, 0, range))
}

// The value, which has one byte. There is none where there is another one.
fn only_byte(value: Option<&Bytes>) -> Option<u8> {
    match value?.as_slice() {
        [byte] => Some(*byte),
        _ => None,
    }
}

fn get(shard: &Shard, alloc: Global, key: &[u8], version: u64) -> Result<Option<u8>, Refusal> {
    let key = Key::new(alloc, key)?;
    let value = shard.get(&key, version)?;
    Ok(only_byte(value.as_ref()))
}

// Which page of the keys from a on.
#[derive(Clone, Copy)]
struct Asked {
    end: &'static [u8],
    version: u64,
    limit: u32,
    reverse: bool,
}

// Whether the range has a further pair, where the page has just these.
fn has_more(
    shard: &Shard,
    alloc: Global,
    asked: Asked,
    wanted: &[(u8, u8)],
) -> Result<Option<bool>, Refusal> {
    let keys = KeyRange::new(alloc, b"a", asked.end)?;
    let page = shard.page(&keys, asked.version, asked.limit, asked.reverse)?;
    if are_pairs(page.pairs.as_slice(), wanted) {
        Ok(Some(page.more))
    } else {
        Ok(None)
    }
}

// The peek from 0 through 300 with a message at 100 that sets a to 1, an empty one at 299, and one at 300 that sets a
// to 3.
fn peek_of_sets(alloc: Global) -> Result<Peek, Refusal>
    ensures { IfOk result (λ peek. IsPeek peek) }
{
    let mut first = Items::new(alloc);
    put(&mut first, 0, Mutation::set(alloc, b"a", b"1"))?;
    let mut last = Items::new(alloc);
    put(&mut last, 0, Mutation::set(alloc, b"a", b"3"))?;
    let (first, last) = (shared(alloc, first)?, shared(alloc, last)?);
    let none = shared(alloc, Items::new(alloc))?;
    let messages = vec![in alloc;
        TagMsg {
            version: 100,
            prev: 0,
            body: first,
        },
        TagMsg {
            version: 299,
            prev: 100,
            body: none,
        },
        TagMsg {
            version: 300,
            prev: 299,
            body: last,
        },
    ]?;
    Ok(Peek {
        tag: 0,
        after: 0,
        through: 300,
        messages: Items::from_vec(messages),
    })
}

fn apply_sets(shard: &mut Shard, alloc: Global) -> Result<(), Refusal> {
    let peek = peek_of_sets(alloc)?;
    shard.apply(&peek)
}

// How many versions of the key the shard keeps.
fn kept(shard: &Shard, alloc: Global, key: &[u8]) -> Result<u64, Refusal> {
    let key = Key::new(alloc, key)?;
    Ok(shard.kept(&key) as u64)
}

// What is done with a shard, or asked of it.
#[derive(Clone, Copy)]
enum Line {
    // It applies the two messages.
    ApplyTwo,
    // It applies the first of them and one at 200 with a mutation that waits for a stamp.
    ApplyWaiting,
    // It applies the messages at 100, 299 and 300.
    ApplySets,
    // It applies a peek without messages of the tag, through the version.
    ApplyNone(u32, u64),
    Forget(u64),
    Version,
    Floor,
    HasFailed,
    // Whether its range has the bounds.
    Bounds(&'static [u8], &'static [u8]),
    // How many versions of the key it keeps.
    Kept(Text),
    // The byte of the key's value at the version.
    Get(&'static [u8], u64),
    // Whether there is more after the page of the keys from a up to the end at the version, cut to the limit, in this
    // or in the reverse order, which has just these pairs.
    Page(Text, u64, u32, bool, &'static [(u8, u8)]),
}

// The number that is asked for, or 1 where something holds and 0 where it doesn't. There is none where something is
// done, where a key has no value and where a page has other pairs.
type Answer = Result<Option<u64>, Refusal>;

const DONE: Answer = Ok(None);

const NO_VALUE: Answer = Ok(None);

const YES: Answer = Ok(Some(1));

const NO: Answer = Ok(Some(0));

fn answer(shard: &mut Shard, alloc: Global, line: Line) -> Answer {
    match line {
        Line::ApplyTwo => done(apply_two(shard, alloc)),
        Line::ApplyWaiting => done(apply_waiting(shard, alloc)),
        Line::ApplySets => done(apply_sets(shard, alloc)),
        Line::ApplyNone(tag, version) => done(apply_none(shard, alloc, tag, version)),
        Line::Forget(version) => done(shard.forget(version)),
        Line::Version => Ok(Some(shard.version())),
        Line::Floor => Ok(Some(shard.floor())),
        Line::HasFailed => Ok(Some(u64::from(shard.is_failed()))),
        Line::Bounds(begin, end) => Ok(Some(u64::from(has_bounds(shard.range(), begin, end)))),
        Line::Kept(key) => kept(shard, alloc, key).map(Some),
        Line::Get(key, version) => value(get(shard, alloc, key, version)),
        Line::Page(end, version, limit, reverse, pairs) => {
            let asked = Asked {
                end,
                version,
                limit,
                reverse,
            };
            flag(has_more(shard, alloc, asked, pairs))
        }
    }
}

// What a call answers that only does something.
fn done(answer: Result<(), Refusal>) -> Answer {
    answer?;
    DONE
}

fn value(answer: Result<Option<u8>, Refusal>) -> Answer {
    Ok(answer?.map(u64::from))
}

fn flag(answer: Result<Option<bool>, Refusal>) -> Answer {
    Ok(answer?.map(u64::from))
}

// What a new shard of the keys from the begin up to the end answers.
#[derive(Clone, Copy)]
struct Case {
    what: &'static str,
    range: (&'static [u8], &'static [u8]),
    lines: &'static [(Line, Answer)],
}

static CASES: [Case; 8] = [
    Case {
        what: "only the shard's own keys are read",
        range: (b"", b"m"),
        lines: &[
            (Line::Bounds(b"", b"m"), YES),
            (Line::Get(b"a", 0), NO_VALUE),
            (Line::Get(b"z", 0), Err(Refusal::KeyOutsideLegalRange)),
            (
                Line::Page(b"z", 0, 0, false, &[]),
                Err(Refusal::KeyOutsideLegalRange),
            ),
        ],
    },
    Case {
        what: "messages out of turn are refused",
        range: (b"", b"m"),
        lines: &[
            (Line::ApplyNone(1, 0), Err(Refusal::Unknown)),
            (Line::ApplyNone(0, 100), Err(Refusal::NotYet(100))),
            (Line::ApplyTwo, DONE),
            (Line::Version, Ok(Some(200))),
            (Line::ApplyTwo, Err(Refusal::Stale)),
            (Line::ApplyNone(0, 200), DONE),
            (Line::ApplyNone(0, 200), DONE),
            (Line::HasFailed, NO),
        ],
    },
    Case {
        what: "messages that wait for a stamp are refused, also out of turn, and change nothing",
        range: (b"", b"m"),
        lines: &[
            (Line::ApplyWaiting, Err(Refusal::BadOperand)),
            (Line::Version, Ok(Some(0))),
            (Line::HasFailed, NO),
            (Line::ApplyTwo, DONE),
            (Line::ApplyWaiting, Err(Refusal::BadOperand)),
            (Line::Get(b"a", 200), Ok(Some(b'3' as u64))),
            (Line::Get(b"l", 200), NO_VALUE),
        ],
    },
    Case {
        what: "each version has its own values",
        range: (b"", b"m"),
        lines: &[
            (Line::ApplyTwo, DONE),
            (Line::Get(b"a", 99), NO_VALUE),
            (Line::Get(b"a", 100), Ok(Some(b'1' as u64))),
            (Line::Get(b"a", 200), Ok(Some(b'3' as u64))),
            (Line::Get(b"a", 201), Err(Refusal::FutureVersion)),
            (Line::Get(b"l", 199), Ok(Some(b'7' as u64))),
            (Line::Get(b"l", 200), NO_VALUE),
        ],
    },
    Case {
        what: "pages are cut to their limit",
        range: (b"", b"m"),
        lines: &[
            (Line::ApplyTwo, DONE),
            (
                Line::Page(b"m", 100, 0, false, &[(b'a', b'1'), (b'l', b'7')]),
                NO,
            ),
            (Line::Page(b"m", 100, 1, false, &[(b'a', b'1')]), YES),
            (
                Line::Page(b"m", 100, 2, true, &[(b'l', b'7'), (b'a', b'1')]),
                NO,
            ),
            (Line::Page(b"l", 100, 1, true, &[(b'a', b'1')]), NO),
            (Line::Page(b"m", 200, 1, false, &[(b'a', b'3')]), NO),
        ],
    },
    Case {
        what: "forgotten versions are no longer read",
        range: (b"", b"m"),
        lines: &[
            (Line::ApplyTwo, DONE),
            (Line::Forget(300), Err(Refusal::FutureVersion)),
            (Line::Forget(200), DONE),
            (Line::Forget(100), DONE),
            (Line::Floor, Ok(Some(200))),
            (Line::Get(b"a", 100), Err(Refusal::TransactionTooOld)),
            (Line::Get(b"a", 200), Ok(Some(b'3' as u64))),
        ],
    },
    Case {
        what: "a version that none shows any more is dropped",
        range: (b"", b"m"),
        lines: &[
            (Line::Kept(b"a"), Ok(Some(0))),
            (Line::ApplySets, DONE),
            (Line::Kept(b"a"), Ok(Some(2))),
            (Line::Forget(299), DONE),
            (Line::Kept(b"a"), Ok(Some(2))),
            (Line::Get(b"a", 299), Ok(Some(b'1' as u64))),
            (Line::Forget(300), DONE),
            (Line::Kept(b"a"), Ok(Some(1))),
            (Line::Get(b"a", 300), Ok(Some(b'3' as u64))),
        ],
    },
    Case {
        what: "a key that was cleared goes with the versions before",
        range: (b"", b"m"),
        lines: &[
            (Line::ApplyTwo, DONE),
            (Line::Kept(b"a"), Ok(Some(2))),
            (Line::Kept(b"l"), Ok(Some(2))),
            (Line::Forget(199), DONE),
            (Line::Get(b"l", 199), Ok(Some(b'7' as u64))),
            (Line::Kept(b"l"), Ok(Some(2))),
            (Line::Forget(200), DONE),
            (Line::Kept(b"a"), Ok(Some(1))),
            (Line::Kept(b"l"), Ok(Some(0))),
            (Line::Get(b"l", 200), NO_VALUE),
            (Line::Page(b"m", 200, 0, true, &[(b'a', b'3')]), NO),
        ],
    },
];

// The first line that is answered otherwise than is wanted, by its place, and its answer.
fn first_wrong(
    shard: &mut Shard,
    alloc: Global,
    lines: &[(Line, Answer)],
) -> Option<(usize, Answer)> {
    for (place, (line, wanted)) in lines.iter().enumerate() {
        let given = answer(shard, alloc, *line);
        if given != *wanted {
            return Some((place, given));
        }
    }
    None
}

fn played(alloc: Global, case: Case) -> Result<Option<(usize, Answer)>, Refusal> {
    let mut shard = new_shard(alloc, case.range.0, case.range.1)?;
    Ok(first_wrong(&mut shard, alloc, case.lines))
}

#[test]
fn shards_answer_each_line(rt: HostRuntime) {
    for case in CASES.as_slice() {
        same(
            &rt,
            (case.what, played(rt.alloc(), *case)),
            (case.what, Ok(None)),
        );
    }
}

fn value_in(map: &PlainMap, alloc: Global, key: &[u8]) -> Result<Option<u8>, Refusal> {
    let key = Key::new(alloc, key)?;
    Ok(only_byte(map.get(&key)))
}

// The values of a and l in the map.
fn two_values(map: &PlainMap, alloc: Global) -> [Result<Option<u8>, Refusal>; 2] {
    [value_in(map, alloc, b"a"), value_in(map, alloc, b"l")]
}

// The shard of the keys from the begin up to the end, which has applied the two messages, gives the map its part of the
// keys from a up to m.
fn copy_part(
    map: &mut PlainMap,
    alloc: Global,
    begin: &[u8],
    end: &[u8],
    version: u64,
) -> Result<(), Refusal> {
    let shard = after(
        new_shard(alloc, begin, end),
        |shard| apply_two(shard, alloc),
    );
    let (keys, shard) = both(KeyRange::new(alloc, b"a", b"m"), shard)?;
    shard.copy_into(map, &keys, version)
}

// The shards that give one map their parts one after another, at the version: the codes of the refusals, or 0, and the
// values of a and l in the map then.
static PARTS: [(Text, Text, u64, u32, [Option<u8>; 2]); 4] = [
    (b"", b"k", 100, 0, [Some(b'1'), None]),
    (b"k", b"z", 100, 0, [Some(b'1'), Some(b'7')]),
    (b"k", b"z", 201, 1009, [Some(b'1'), Some(b'7')]),
    // It has no part of these keys.
    (b"m", b"z", 201, 0, [Some(b'1'), Some(b'7')]),
];

#[test]
fn shards_fill_one_map_each_with_its_part(rt: HostRuntime) {
    let alloc = rt.alloc();
    let mut map = PlainMap::new(alloc);
    for (begin, end, version, code, values) in PARTS.as_slice() {
        let [a, l] = *values;
        let given = code_of(copy_part(&mut map, alloc, begin, end, *version));
        same(
            &rt,
            (given, two_values(&map, alloc)),
            (*code, [Ok(a), Ok(l)]),
        );
    }
}

// The map that the two messages leave below m at the version.
fn replay_two(alloc: Global, version: u64) -> Result<PlainMap, Refusal> {
    let peeks = [peek_of_two(alloc)?];
    let range = KeyRange::new(alloc, b"", b"m")?;
    replay(alloc, &range, &peeks, version)
}

// The values of a and l in that map.
fn replayed(alloc: Global, version: u64) -> Result<[Result<Option<u8>, Refusal>; 2], Refusal> {
    let map = replay_two(alloc, version)?;
    Ok(two_values(&map, alloc))
}

#[test]
fn peeks_are_replayed_through_what_they_cover(rt: HostRuntime) {
    let found = [199, 200, 201].map(|version| replayed(rt.alloc(), version));
    let wanted = [
        Ok([Ok(Some(b'1')), Ok(Some(b'7'))]),
        Ok([Ok(Some(b'3')), Ok(None)]),
        Err(Refusal::NotYet(201)),
    ];
    same(&rt, found, wanted);
}

// The code of a replay of a peek that waits for a stamp, at a version that it covers and one that it doesn't.
fn waiting_codes(alloc: Global) -> Result<[u32; 2], Refusal> {
    let peeks = [waiting_peek(alloc)?];
    let range = KeyRange::new(alloc, b"", b"m")?;
    let covered = code_of(replay(alloc, &range, &peeks, 100));
    let beyond = code_of(replay(alloc, &range, &peeks, 201));
    Ok([covered, beyond])
}

#[test]
fn peeks_that_wait_for_a_stamp_are_not_replayed(rt: HostRuntime) {
    same(&rt, waiting_codes(rt.alloc()), Ok([9008, 9008]));
}

fn shards(alloc: Global, splits: Splits) -> Result<ShardMap, Refusal> {
    let keys = splits_of(alloc, splits)?;
    ShardMap::new(alloc, keys.as_slice())
}

// Whether the mutation has just these tags.
fn has_tags(
    shards: &ShardMap,
    mutation: Result<Mutation, Refusal>,
    wanted: &[u32],
) -> Result<bool, Refusal> {
    let tags = made_of(mutation, |mutation| shards.tags(mutation))?;
    Ok(tags.as_slice() == wanted)
}

// Clears of the keys from the begin up to the end, and their tags.
static CLEARS: [(Text, Text, &'static [u32]); 3] = [
    (b"l", b"m\0", &[0, 1]),
    (b"l", b"m", &[0]),
    (b"l", b"l", &[]),
];

// Whether a set of m and each of these clears have the tags of the shards that they name.
fn are_tagged(shards: &ShardMap, alloc: Global) -> bool {
    for (begin, end, tags) in CLEARS.as_slice() {
        if has_tags(shards, Mutation::clear_range(alloc, begin, end), tags) != Ok(true) {
            return false;
        }
    }
    has_tags(shards, Mutation::set(alloc, b"m", b"1"), &[1]) == Ok(true)
}

fn shard_of(shards: &ShardMap, alloc: Global, key: &[u8]) -> Result<u32, Refusal> {
    let key = Key::new(alloc, key)?;
    Ok(shards.shard_of(&key))
}

// The first shard that the range from the begin to the end of the keys meets.
fn first_met(shards: &ShardMap, alloc: Global, begin: &[u8]) -> Result<u32, Refusal> {
    let range = KeyRange::new(alloc, begin, &[0xff])?;
    Ok(shards.first_met(&range))
}

// Whether the shard has the keys from the begin up to the end.
fn has_range(shards: &ShardMap, index: u32, begin: &[u8], end: &[u8]) -> Result<bool, Refusal> {
    let range = shards.range(index)?;
    Ok(has_bounds(&range, begin, end))
}

// The shards of l and m, and those where ranges begin that begin just after l, at m and behind all keys.
type Parted = [Result<u32, Refusal>; 5];

// Of the shards of the keys below m and of those from m on: whether mutations have their tags, the shards of keys and
// of the begins of ranges, and what the ranges of the second shard and of one more are.
fn parted(alloc: Global) -> Result<(bool, Parted, [Result<bool, Refusal>; 2]), Refusal> {
    let shards = shards(alloc, Splits::Keys(&[b"m"]))?;
    Ok((
        are_tagged(&shards, alloc),
        [
            shard_of(&shards, alloc, b"l"),
            shard_of(&shards, alloc, b"m"),
            first_met(&shards, alloc, b"l\0"),
            first_met(&shards, alloc, b"m"),
            first_met(&shards, alloc, &[0xff]),
        ],
        [
            has_range(&shards, 1, b"m", &[0xff]),
            has_range(&shards, 2, b"m", &[0xff]),
        ],
    ))
}

// The code of why there are no shards with these splits, or 0.
static SPLITS: [(Splits, u32); 4] = [
    (Splits::Rising(63), 0),
    (Splits::Rising(64), 9009),
    (Splits::Keys(&[b"b", b"a"]), 9009),
    (Splits::Keys(&[b""]), 9009),
];

#[test]
fn shards_part_the_keys_at_splits(rt: HostRuntime) {
    let alloc = rt.alloc();
    let ranges = [Ok(true), Err(Refusal::BadConfig)];
    let shards_of = [Ok(0), Ok(1), Ok(0), Ok(1), Ok(1)];
    same(&rt, parted(alloc), Ok((true, shards_of, ranges)));
    for (splits, code) in SPLITS.as_slice() {
        same(&rt, code_of(shards(alloc, *splits)), *code);
    }
}

// How many acts there are, of how many keys, and for how many versions reads are served.
const ACTS: u64 = 10_000;

const KEYS: u8 = 16;

const SERVED: u64 = 8;

// The keys are set one after another, each time to another value, and then cleared one after another.
fn act_of(alloc: Global, version: u64) -> Result<Mutation, Refusal> {
    let key = [(version % u64::from(KEYS)) as u8];
    if (version / u64::from(KEYS)).is_multiple_of(2) {
        Mutation::set(alloc, &key, &version.to_be_bytes())
    } else {
        Mutation::clear(alloc, &key)
    }
}

// The peek from the version with one message behind it.
fn peek_behind(alloc: Global, version: u64) -> Result<Peek, Refusal>
    requires { version < 2 ^ 62 }
    ensures { IfOk result (λ peek. IsPeek peek) }
{
    let mut body = Items::new(alloc);
    put(&mut body, 0, act_of(alloc, version))?;
    let body = shared(alloc, body)?;
    let through = version + 1;
    let messages = vec![in alloc;
        TagMsg {
            version: through,
            prev: version,
            body,
        },
    ]?;
    Ok(Peek {
        tag: 0,
        after: version,
        through,
        messages: Items::from_vec(messages),
    })
}

// The shard applies one act more, and forgets what is older than is served.
fn apply_and_forget(shard: &mut Shard, alloc: Global, version: u64) -> Result<(), Refusal>
    requires { version < 2 ^ 62 }
{
    let peek = peek_behind(alloc, version)?;
    shard.apply(&peek)?;
    shard.forget(peek.through.saturating_sub(SERVED))
}

// How many versions of all keys reads need.
fn needed(shard: &Shard, alloc: Global) -> Result<u64, Refusal> {
    let mut count = 0u64;
    for key in 0..KEYS {
        count = count.saturating_add(kept(shard, alloc, &[key])?);
    }
    Ok(count)
}

// Whether no more than twice as many versions are kept as reads need, and those that go with the versions served.
fn is_small(shard: &Shard, alloc: Global) -> Result<bool, Refusal> {
    let most = needed(shard, alloc)?
        .saturating_mul(2)
        .saturating_add(SERVED);
    Ok(shard.versions() as u64 <= most)
}

// The first version at which the shard keeps too many.
fn first_large(alloc: Global) -> Result<Option<u64>, Refusal> {
    let mut shard = new_shard(alloc, b"", b"m")?;
    for version in 0..ACTS {
        apply_and_forget(&mut shard, alloc, version)?;
        if !is_small(&shard, alloc)? {
            return Ok(Some(version));
        }
    }
    Ok(None)
}

#[test]
fn versions_that_no_read_needs_go(rt: HostRuntime) {
    same(&rt, first_large(rt.alloc()), Ok(None));
}
