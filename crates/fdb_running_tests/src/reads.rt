// What a session reads, and which of its calls turn it down where another one writes.
ghost use Rattle.std.specs.Prelude.{◌≡◌};

use crate::asserting::same;
use fdb_hosts::{
    Asked, Done, Host, Named, add_read, add_write, byte_of, commit_code, put, reads_just,
    snapshot_of, two_sessions, write,
};
use fdb_keys::{KeyRange, Refusal};
use fdb_making::{coded, count_config, keys_of};
use fdb_mutations::Mutation;
use fdb_runtime::{Blank, ClusterName, Config, Database, NoGate, ReadOptions, Session};
use std::alloc::Global;
use std::marker::Brand;
use std::process::Abort;
use std::sync::{Arc, Wait};
use std::test::Fail;

// An own write: of no key, of all keys from one up to another, or of one byte to a key.
#[derive(Clone, Copy)]
enum Own {
    Clear(&'static [u8]),
    ClearRange(&'static [u8], &'static [u8]),
    Set(&'static [u8], u8),
}

// What one session commits, what the other one reads of it, what that one writes then, and what it reads after that: in
// ranges, and at keys.
struct Case {
    pairs: &'static [(u8, u8)],
    committed: &'static [Asked],
    own: &'static [Own],
    after: &'static [Asked],
    keys: &'static [(&'static [u8], Option<u8>)],
}

const FOUR: &[(u8, u8)] = &[(b'a', 1), (b'b', 2), (b'c', 3), (b'd', 4)];

// Two shards, which hold two of four pairs each.
static TWO_SHARDS: Case = Case {
    pairs: FOUR,
    committed: &[
        (b"a", b"e", 0, false, FOUR),
        (b"a", b"e", 3, false, &[(b'a', 1), (b'b', 2), (b'c', 3)]),
        (b"a", b"e", 3, true, &[(b'd', 4), (b'c', 3), (b'b', 2)]),
        (b"b", b"d", 0, true, &[(b'c', 3), (b'b', 2)]),
        (b"e", b"z", 0, false, &[]),
        (b"c", b"c", 0, false, &[]),
    ],
    own: &[Own::Clear(b"b"), Own::Set(b"c", 9), Own::Set(b"e", 5)],
    after: &[
        (
            b"a",
            b"z",
            0,
            false,
            &[(b'a', 1), (b'c', 9), (b'd', 4), (b'e', 5)],
        ),
        (b"a", b"z", 2, true, &[(b'e', 5), (b'd', 4)]),
        (b"b", b"c", 0, false, &[]),
    ],
    keys: &[(b"b", None), (b"c", Some(9)), (b"d", Some(4))],
};

const NINE: &[(u8, u8)] = &[
    (b'a', 1),
    (b'b', 2),
    (b'c', 3),
    (b'd', 4),
    (b'e', 5),
    (b'f', 6),
    (b'g', 7),
    (b'h', 8),
    (b'i', 9),
];

// Three shards, which hold three of nine pairs each. Limits end within a shard, between two, and behind several. The
// own writes hide what the first shard gives at first, from either end, so that more than one page is asked for.
static THREE_SHARDS: Case = Case {
    pairs: NINE,
    committed: &[
        (b"a", b"z", 3, false, &[(b'a', 1), (b'b', 2), (b'c', 3)]),
        (
            b"a",
            b"z",
            4,
            false,
            &[(b'a', 1), (b'b', 2), (b'c', 3), (b'd', 4)],
        ),
        (
            b"b",
            b"z",
            6,
            false,
            &[
                (b'b', 2),
                (b'c', 3),
                (b'd', 4),
                (b'e', 5),
                (b'f', 6),
                (b'g', 7),
            ],
        ),
        (
            b"a",
            b"z",
            4,
            true,
            &[(b'i', 9), (b'h', 8), (b'g', 7), (b'f', 6)],
        ),
        (
            b"a",
            b"h",
            5,
            true,
            &[(b'g', 7), (b'f', 6), (b'e', 5), (b'd', 4), (b'c', 3)],
        ),
        (b"d", b"g", 2, true, &[(b'f', 6), (b'e', 5)]),
        (b"a", b"z", 0, false, NINE),
    ],
    own: &[
        Own::ClearRange(b"a", b"c"),
        Own::ClearRange(b"h", b"j"),
        Own::Set(b"e", 50),
    ],
    after: &[
        (b"a", b"z", 1, false, &[(b'c', 3)]),
        (b"a", b"z", 2, false, &[(b'c', 3), (b'd', 4)]),
        (
            b"a",
            b"z",
            4,
            false,
            &[(b'c', 3), (b'd', 4), (b'e', 50), (b'f', 6)],
        ),
        (b"a", b"z", 1, true, &[(b'g', 7)]),
        (b"a", b"z", 3, true, &[(b'g', 7), (b'f', 6), (b'e', 50)]),
        (
            b"a",
            b"z",
            0,
            true,
            &[(b'g', 7), (b'f', 6), (b'e', 50), (b'd', 4), (b'c', 3)],
        ),
        (b"a", b"c", 2, false, &[]),
    ],
    keys: &[(b"a", None), (b"c", Some(3)), (b"e", Some(50))],
};

// The session reads each of them, by ordinary reads and by snapshot reads.
fn read_each<B: ClusterName, R: Wait + Abort>(
    rt: &R,
    alloc: Global,
    session: &mut Session<B>,
    rows: &[Asked],
) {
    for (row, asked) in rows.iter().enumerate() {
        let ordinary = coded(reads_just(rt, alloc, session, asked, false));
        let snapshot = coded(reads_just(rt, alloc, session, asked, true));
        same(rt, (row, ordinary, snapshot), (row, Ok(true), Ok(true)));
    }
}

// The same of keys.
fn get_each<B: ClusterName, R: Wait + Abort>(
    rt: &R,
    alloc: Global,
    session: &mut Session<B>,
    keys: &[(&[u8], Option<u8>)],
) {
    for (row, (key, value)) in keys.iter().enumerate() {
        let ordinary = coded(byte_of(rt, alloc, session, *key));
        let snapshot = coded(snapshot_of(rt, alloc, session, *key));
        same(rt, (row, ordinary, snapshot), (row, Ok(*value), Ok(*value)));
    }
}

fn commit_pairs<B: ClusterName, R: Wait>(
    rt: &R,
    alloc: Global,
    session: &mut Session<B>,
    pairs: &[(u8, u8)],
) -> Result<u32, Refusal> {
    session.begin(rt, alloc)?;
    for (key, value) in pairs {
        write(session, Mutation::set(alloc, &[*key], &[*value]))?;
    }
    Ok(commit_code(rt, alloc, session).0)
}

fn mutation_of(alloc: Global, own: Own) -> Result<Mutation, Refusal> {
    match own {
        Own::Clear(key) => Mutation::clear(alloc, key),
        Own::ClearRange(begin, end) => Mutation::clear_range(alloc, begin, end),
        Own::Set(key, value) => Mutation::set(alloc, key, &[value]),
    }
}

fn write_own<B: ClusterName>(
    alloc: Global,
    session: &mut Session<B>,
    own: &[Own],
) -> Result<(), Refusal> {
    for each in own {
        write(session, mutation_of(alloc, *each))?;
    }
    Ok(())
}

// Commits a hundred pairs at each of seven letters.
fn commit_hundreds<B: ClusterName, R: Wait>(
    rt: &R,
    alloc: Global,
    session: &mut Session<B>,
) -> Result<u32, Refusal> {
    session.begin(rt, alloc)?;
    for letter in b'a'..b'h' {
        for number in 0..100u8 {
            write(session, Mutation::set(alloc, &[letter, number], &[1]))?;
        }
    }
    Ok(commit_code(rt, alloc, session).0)
}

// How many pairs are asked for, and whether from the end: more than a page has, so that it ends within a shard.
const MANY: &[(u32, bool)] = &[
    (0, false),
    (0, true),
    (256, false),
    (257, true),
    (513, false),
    (600, true),
];

// How many pairs the session reads.
fn count_of<B: ClusterName, R: Wait>(
    rt: &R,
    alloc: Global,
    session: &mut Session<B>,
    limit: u32,
    reverse: bool,
) -> Result<usize, Refusal> {
    let range = KeyRange::new(alloc, b"a", b"z")?;
    let options = ReadOptions {
        limit,
        reverse,
        snapshot: false,
    };
    match session.get_range(rt, alloc, &range, options) {
        Ok(pairs) => Ok(pairs.len()),
        Err(why) => Err(why),
    }
}

// The session reads as many pairs as it asks for, of so many, over several pages.
fn read_pages<B: ClusterName, R: Wait + Abort>(
    rt: &R,
    alloc: Global,
    session: &mut Session<B>,
    all: usize,
) {
    for (limit, reverse) in MANY {
        let told = coded(count_of(rt, alloc, session, *limit, *reverse));
        let wanted = if *limit == 0 { all } else { *limit as usize };
        same(rt, (*limit, told), (*limit, Ok(wanted)));
    }
}

// One session commits the pairs, and the other one reads them, and then with its own writes. Then it reads many.
fn read_ranges<B: ClusterName, R: Wait + Abort>(
    rt: &R,
    alloc: Global,
    writer: &mut Session<B>,
    reader: &mut Session<B>,
    case: &Case,
) {
    same(
        rt,
        coded(commit_pairs(rt, alloc, writer, case.pairs)),
        Ok(0),
    );
    same(rt, coded(reader.begin(rt, alloc)), Ok(100));
    read_each(rt, alloc, reader, case.committed);
    same(rt, coded(write_own(alloc, reader, case.own)), Ok(()));
    read_each(rt, alloc, reader, case.after);
    get_each(rt, alloc, reader, case.keys);
    same(rt, coded(commit_hundreds(rt, alloc, writer)), Ok(0));
    same(rt, coded(reader.begin(rt, alloc)), Ok(200));
    read_pages(rt, alloc, reader, case.pairs.len().saturating_add(700));
}

// The same in the database's first two sessions.
fn read_in_two<B: Named, R: Host>(
    rt: &R,
    alloc: Global,
    database: &mut Database<B>,
    case: &Case,
) -> Result<(), Refusal> {
    let (mut first, mut second) = two_sessions(alloc, database)?;
    read_ranges(rt, alloc, &mut first, &mut second, case);
    drop((first, second));
    Ok(())
}

fn use_ranges<B: Named, R: Host>(
    rt: &R,
    alloc: Global,
    blank: Blank,
    config: &Config,
    case: &Case,
) -> Done
    requires cells { blank ≡ B.cells }
    requires config { config.now ≡ B.config }
{
    let gate = Arc::new(alloc, NoGate)?;
    let mut database: Database<B> = Database::start(rt, alloc, blank, config, 100, &gate)?;
    let told = read_in_two(rt, alloc, &mut database, case);
    let record = database.close(rt);
    same(rt, (coded(told), record.is_ok()), (Ok(()), true));
    drop(record);
    Ok(())
}

// On a database of one of each role, but for shards between the splits.
fn use_ranges_between<R: Host>(rt: &R, alloc: Global, splits: &[&[u8]], case: &Case) -> Done {
    let mut config = count_config(alloc, 1, 1, 100);
    config.shard_splits = keys_of(alloc, splits)?;
    let blank = Blank::new(alloc, 100)?;
    use_ranges::<Brand, R>(rt, alloc, blank, &config, case)
}

#[test]
fn ranges_are_read_over_two_shards(rt: HostRuntime) -> Result<(), Fail> {
    use_ranges_between(&rt, rt.alloc(), &[b"c"], &TWO_SHARDS)?;
    Ok(())
}

#[test]
fn ranges_are_read_over_three_shards(rt: HostRuntime) -> Result<(), Fail> {
    use_ranges_between(&rt, rt.alloc(), &[b"d", b"g"], &THREE_SHARDS)?;
    Ok(())
}

/// What a transaction does with the key d, or with all keys from a to y.
#[derive(Clone, Copy)]
pub(crate) enum Touch {
    Get,
    SnapshotGet,
    Range,
    SnapshotRange,
    AddRead,
    AddWrite,
    Set,
}

const ALL: Asked = (b"a", b"z", 0, false, &[]);

// Whether it is answered, with whatever it may be.
fn answered<T: Drop>(answer: Result<T, Refusal>) -> Done {
    match answer {
        Ok(_given) => Ok(()),
        Err(why) => Err(why),
    }
}

/// The transaction does so, whatever it is answered.
pub(crate) fn touch_keys<B: ClusterName, R: Wait>(
    rt: &R,
    alloc: Global,
    session: &mut Session<B>,
    how: Touch,
) -> Result<(), Refusal> {
    match how {
        Touch::Get => answered(byte_of(rt, alloc, session, b"d")),
        Touch::SnapshotGet => answered(snapshot_of(rt, alloc, session, b"d")),
        Touch::Range => answered(reads_just(rt, alloc, session, &ALL, false)),
        Touch::SnapshotRange => answered(reads_just(rt, alloc, session, &ALL, true)),
        Touch::AddRead => add_read(alloc, session),
        Touch::AddWrite => add_write(alloc, session),
        Touch::Set => write(session, Mutation::set(alloc, b"d", &[1])),
    }
}

// What a transaction does before another one does the other thing and commits, and the code of the first one's commit.
const MEETINGS: &[(Touch, Touch, u32)] = &[
    (Touch::Get, Touch::Set, 1020),
    (Touch::SnapshotGet, Touch::Set, 0),
    (Touch::Range, Touch::Set, 1020),
    (Touch::SnapshotRange, Touch::Set, 0),
    (Touch::AddRead, Touch::Set, 1020),
    (Touch::AddWrite, Touch::Set, 0),
    (Touch::Set, Touch::Set, 0),
    (Touch::Get, Touch::AddWrite, 1020),
    (Touch::SnapshotGet, Touch::AddWrite, 0),
];

// The codes of the other one's commit, and of that of the transaction, which writes a key of its own besides.
fn overtaken<B: ClusterName, R: Wait>(
    rt: &R,
    alloc: Global,
    late: &mut Session<B>,
    other: &mut Session<B>,
    how: Touch,
    overtaking: Touch,
) -> Result<(u32, u32), Refusal> {
    late.begin(rt, alloc)?;
    touch_keys(rt, alloc, late, how)?;
    other.begin(rt, alloc)?;
    touch_keys(rt, alloc, other, overtaking)?;
    let (overtook, _is_handed_back) = commit_code(rt, alloc, other);
    write(late, Mutation::set(alloc, b"z", &[1]))?;
    let (code, _is_handed_back) = commit_code(rt, alloc, late);
    Ok((overtook, code))
}

fn overtake_each<B: ClusterName, R: Wait + Abort>(
    rt: &R,
    alloc: Global,
    late: &mut Session<B>,
    other: &mut Session<B>,
) -> Result<(), Refusal> {
    put(rt, alloc, other, b"d", 0)?;
    for (row, (how, overtaking, code)) in MEETINGS.iter().enumerate() {
        let told = overtaken(rt, alloc, late, other, *how, *overtaking);
        same(rt, (row, coded(told)), (row, Ok((0, *code))));
    }
    Ok(())
}

// The same in the database's first two sessions.
fn overtake_in_two<B: Named, R: Host>(
    rt: &R,
    alloc: Global,
    database: &mut Database<B>,
) -> Result<(), Refusal> {
    let (mut first, mut second) = two_sessions(alloc, database)?;
    let told = overtake_each(rt, alloc, &mut first, &mut second);
    drop((first, second));
    told
}

fn use_meetings<B: Named, R: Host>(rt: &R, alloc: Global, blank: Blank, config: &Config) -> Done
    requires cells { blank ≡ B.cells }
    requires config { config.now ≡ B.config }
{
    let gate = Arc::new(alloc, NoGate)?;
    let mut database: Database<B> = Database::start(rt, alloc, blank, config, 100, &gate)?;
    let told = overtake_in_two(rt, alloc, &mut database);
    let record = database.close(rt);
    same(rt, (coded(told), record.is_ok()), (Ok(()), true));
    drop(record);
    Ok(())
}

#[test]
fn ordinary_reads_alone_are_turned_down(rt: HostRuntime) -> Result<(), Fail> {
    let alloc = rt.alloc();
    let mut config = count_config(alloc, 2, 1, 100);
    config.resolver_splits = keys_of(alloc, &[b"c"])?;
    let blank = Blank::new(alloc, 100)?;
    use_meetings::<Brand, HostRuntime>(&rt, alloc, blank, &config)?;
    Ok(())
}
