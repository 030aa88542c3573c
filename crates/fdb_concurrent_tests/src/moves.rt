// Moves of keys between resolvers, which stand in the book with the next entry.
ghost use Rattle.std.specs.Prelude.{◌≡◌};

use crate::asserting::same;
use fdb_book::Blank;
use fdb_hosts::{Done, Host, Named, move_keys, put, two_sessions};
use fdb_keys::{KeyRange, Refusal};
use fdb_making::{code_of, coded, count_config, keys_of};
use fdb_runtime::{ClusterName, Config, Database, NoGate, Record, Session};
use fdb_txn::{Entry, Move};
use std::alloc::Global;
use std::marker::Brand;
use std::sync::Arc;
use std::test::Fail;
use std::time::{Duration, Instant};

// The bounds of the keys that go over, and the resolver that they go to.
type Wanted = (&'static [u8], &'static [u8], u32);

// The moves of each of four entries: none is asked for before the first one, one before the second one, none before the
// third one, and two before the last one.
const MOVES: &[&[Wanted]] = &[
    &[],
    &[(b"c", b"q", 1)],
    &[],
    &[(b"a", b"d", 2), (b"c", b"d", 0)],
];

// Asks for the moves of each entry, and commits a transaction in it.
fn move_and_put<B: Named, R: Host>(
    rt: &R,
    alloc: Global,
    database: &Database<B>,
    session: &mut Session<B>,
) -> Result<(), Refusal> {
    for moves in MOVES {
        for (begin, end, to) in *moves {
            move_keys(rt, alloc, database, begin, end, *to)?;
        }
        put(rt, alloc, session, b"c", 1)?;
    }
    Ok(())
}

// The same in a session of its own.
fn move_in_one<B: Named, R: Host>(
    rt: &R,
    alloc: Global,
    database: &mut Database<B>,
) -> Result<(), Refusal> {
    let mut session = database.session(alloc)?;
    let moved = move_and_put(rt, alloc, database, &mut session);
    drop(session);
    moved
}

fn is_wanted(given: &Move, wanted: &Wanted) -> bool {
    let (begin, end, to) = *wanted;
    given.to == to && given.range.begin() == begin && given.range.end() == end
}

// Whether the entry has just these moves.
fn has_moves(entry: &Entry, wanted: &[Wanted]) -> bool {
    let moves = entry.moves.as_slice();
    moves.len() == wanted.len()
        && moves
            .iter()
            .zip(wanted)
            .all(|(given, wanted)| is_wanted(given, wanted))
}

// How many of the entries have the moves that they should.
fn count_right(entries: &[Entry]) -> usize {
    let mut count: usize = 0;
    for (number, wanted) in MOVES.iter().enumerate() {
        if let Some(entry) = entries.get(number) {
            count = count.saturating_add(usize::from(has_moves(entry, wanted)));
        }
    }
    count
}

// How many entries the record has, and how many of them have the moves that they should.
fn told_of<B: ClusterName>(record: Result<Record<B>, Refusal>) -> Result<(usize, usize), Refusal> {
    let record = record?;
    let entries = record.front().entries()?;
    Ok((entries.len(), count_right(entries.as_slice())))
}

fn run_moves<B: Named, R: Host>(rt: &R, alloc: Global, blank: Blank, config: &Config) -> Done
    requires cells { blank ≡ B.cells }
    requires config { config.now ≡ B.config }
{
    let gate = Arc::new(alloc, NoGate)?;
    let mut database: Database<B> = Database::start(rt, alloc, blank, config, 100, &gate)?;
    let moved = move_in_one(rt, alloc, &mut database);
    let record = database.close(rt);
    same(rt, coded(moved), Ok(()));
    same(rt, coded(told_of(record)), Ok((4, 4)));
    Ok(())
}

#[test]
fn moves_stand_in_the_book_with_the_next_entry(rt: HostRuntime) -> Result<(), Fail> {
    let alloc = rt.alloc();
    let mut config = count_config(alloc, 2, 1, 10);
    config.resolver_splits = keys_of(alloc, &[b"f", b"p"])?;
    let blank = Blank::new(alloc, 10)?;
    run_moves::<Brand, HostRuntime>(&rt, alloc, blank, &config)?;
    Ok(())
}

// How many moves a database takes.
const MOVE_LIMIT: u32 = 65_536;

// Hands the same keys to one of two resolvers and to the other one, as often as it may be done.
fn move_all<B: Named, R: Host>(rt: &R, alloc: Global, database: &Database<B>) -> Done {
    let range = KeyRange::new(alloc, b"c", b"q")?;
    for number in 0..MOVE_LIMIT {
        database.move_range(rt, &range, number % 2)?;
    }
    Ok(())
}

// The codes of two more moves, and of one to a resolver that there isn't.
fn move_more<B: Named, R: Host>(rt: &R, alloc: Global, database: &Database<B>) -> [u32; 3] {
    [
        code_of(move_keys(rt, alloc, database, b"c", b"q", 0)),
        code_of(move_keys(rt, alloc, database, b"x", b"y", 1)),
        code_of(move_keys(rt, alloc, database, b"c", b"q", 2)),
    ]
}

// Whether the session writes one of these keys, and has its receipt within 20 seconds. It takes far less, where what
// goes by the square of the moves takes minutes.
fn is_put_in_time<B: Named, R: Host>(rt: &R, alloc: Global, session: &mut Session<B>) -> bool {
    let Ok(begin) = Instant::now(rt) else {
        return false;
    };
    let is_put = put(rt, alloc, session, b"d", 1).is_ok();
    match begin.elapsed(rt) {
        Ok(took) => is_put && took < Duration::from_secs(20),
        Err(_error) => false,
    }
}

// Whether two sessions do, one after the other, whose proxies are both told of all moves.
fn are_put_in_time<B: Named, R: Host>(
    rt: &R,
    alloc: Global,
    database: &mut Database<B>,
) -> Result<[bool; 2], Refusal> {
    let (mut first, mut second) = two_sessions(alloc, database)?;
    let are_quick = [
        is_put_in_time(rt, alloc, &mut first),
        is_put_in_time(rt, alloc, &mut second),
    ];
    drop((first, second));
    Ok(are_quick)
}

fn fill_moves<B: Named, R: Host>(rt: &R, alloc: Global, blank: Blank, config: &Config) -> Done
    requires cells { blank ≡ B.cells }
    requires config { config.now ≡ B.config }
{
    let gate = Arc::new(alloc, NoGate)?;
    let mut database: Database<B> = Database::start(rt, alloc, blank, config, 100, &gate)?;
    let moved = coded(move_all(rt, alloc, &database));
    let codes = move_more(rt, alloc, &database);
    let quick = coded(are_put_in_time(rt, alloc, &mut database));
    let record = database.close(rt);
    same(rt, (moved, codes), (Ok(()), [9012, 9012, 9009]));
    same(rt, quick, Ok([true; 2]));
    same(rt, record.is_ok(), true);
    drop(record);
    Ok(())
}

#[test]
fn as_many_moves_as_there_may_be_hold_no_commit_up(rt: HostRuntime) -> Result<(), Fail> {
    let alloc = rt.alloc();
    let mut config = count_config(alloc, 2, 1, 10);
    config.resolver_splits = keys_of(alloc, &[b"m"])?;
    let blank = Blank::new(alloc, 10)?;
    fill_moves::<Brand, HostRuntime>(&rt, alloc, blank, &config)?;
    Ok(())
}
