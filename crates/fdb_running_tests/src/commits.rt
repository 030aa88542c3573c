// What becomes of commits, on one thread.
ghost use Rattle.std.specs.Prelude.{◌≡◌};

use crate::asserting::same;
use fdb_hosts::{
    Asked, Done, Host, Named, add_read, add_write, byte_of, commit_code, is_serial, length_of, put,
    reads_just, receipt_of, refused_at, two_sessions, write,
};
use fdb_keys::{Items, Key, Refusal};
use fdb_making::{coded, count_config, keys_of};
use fdb_mutations::Mutation;
use fdb_runtime::{Blank, ClusterName, Config, Database, NoGate, Session, Spot};
use std::alloc::Global;
use std::marker::Brand;
use std::process::Abort;
use std::sync::{Arc, Wait};
use std::test::Fail;

// A session sees at once what another one committed, though nobody told it.
fn see_other<B: ClusterName, R: Wait + Abort>(
    rt: &R,
    alloc: Global,
    writer: &mut Session<B>,
    reader: &mut Session<B>,
) -> Result<(), Refusal> {
    let spot = put(rt, alloc, writer, b"k", 1)?;
    let version = reader.begin(rt, alloc)?;
    let is_seen = match spot {
        Spot::Entry { version: at, .. } => version >= at,
        Spot::ReadOnly { .. } => false,
    };
    same(rt, is_seen, true);
    same(rt, coded(byte_of(rt, alloc, reader, b"k")), Ok(Some(1)));
    Ok(())
}

// A transaction that is turned down leaves nothing: another one wrote what it had read, and just that comes back with
// it.
fn turn_down<B: ClusterName, R: Wait + Abort>(
    rt: &R,
    alloc: Global,
    first: &mut Session<B>,
    late: &mut Session<B>,
) -> Result<(), Refusal> {
    put(rt, alloc, first, b"x", 1)?;
    late.begin(rt, alloc)?;
    same(rt, coded(byte_of(rt, alloc, late, b"x")), Ok(Some(1)));
    same(rt, coded(byte_of(rt, alloc, late, b"w")), Ok(None));
    put(rt, alloc, first, b"x", 2)?;
    write(late, Mutation::set(alloc, b"x", &[3]))?;
    same(
        rt,
        refused_at(rt, alloc, late, &[(b"x", b"x\0")]),
        (1020, true),
    );
    begin_anew(rt, alloc, late)
}

// Nothing is open then. Once something is, it sees what the other one wrote.
fn begin_anew<B: ClusterName, R: Wait + Abort>(
    rt: &R,
    alloc: Global,
    late: &mut Session<B>,
) -> Result<(), Refusal> {
    same(rt, coded(byte_of(rt, alloc, late, b"x")), Err(9015));
    late.begin(rt, alloc)?;
    same(rt, coded(byte_of(rt, alloc, late, b"x")), Ok(Some(2)));
    Ok(())
}

// The last pair, once b and c are 1.
const LAST: Asked = (b"a", b"z", 1, true, &[(b'c', 1)]);

// A transaction of the kind with the number: blind, one that reads a key, one that reads a range, one that only reads,
// and one that has a write range alone.
fn fill<B: ClusterName, R: Wait>(
    rt: &R,
    alloc: Global,
    session: &mut Session<B>,
    kind: u8,
) -> Result<(), Refusal> {
    match kind {
        0 => write(session, Mutation::set(alloc, b"b", &[1])),
        1 => {
            byte_of(rt, alloc, session, b"b")?;
            write(session, Mutation::add(alloc, b"c", &[1]))
        }
        2 => {
            reads_just(rt, alloc, session, &LAST, false)?;
            write(session, Mutation::clear(alloc, b"b"))
        }
        3 => {
            byte_of(rt, alloc, session, b"c")?;
            add_read(alloc, session)
        }
        _ => add_write(alloc, session),
    }
}

// Whether one of the kind is serialized on its own receipt's front, and stands in an entry.
fn commit_kind<B: ClusterName, R: Wait>(
    rt: &R,
    alloc: Global,
    config: &Config,
    session: &mut Session<B>,
    kind: u8,
) -> Result<(bool, bool), Refusal>
    requires { config.now ≡ B.config }
{
    session.begin(rt, alloc)?;
    fill(rt, alloc, session, kind)?;
    let receipt = receipt_of(session.commit(rt, alloc))?;
    let is_in_entry = match receipt.spot() {
        Spot::Entry { .. } => true,
        Spot::ReadOnly { .. } => false,
    };
    Ok((is_serial(alloc, config, receipt)?, is_in_entry))
}

// The same of one of each kind.
fn commit_five<B: ClusterName, R: Wait>(
    rt: &R,
    alloc: Global,
    config: &Config,
    session: &mut Session<B>,
) -> Result<[(bool, bool); 5], Refusal>
    requires { config.now ≡ B.config }
{
    let mut told = [(false, false); 5];
    for (kind, told) in (0..5).zip(&mut told) {
        *told = commit_kind(rt, alloc, config, session, kind)?;
    }
    Ok(told)
}

// The first session commits one of each kind, and then both commit the same keys.
fn tell<B: ClusterName, R: Wait + Abort>(
    rt: &R,
    alloc: Global,
    config: &Config,
    first: &mut Session<B>,
    second: &mut Session<B>,
) -> Result<[(bool, bool); 5], Refusal>
    requires { config.now ≡ B.config }
{
    let kinds = commit_five(rt, alloc, config, first)?;
    see_other(rt, alloc, first, second)?;
    turn_down(rt, alloc, first, second)?;
    Ok(kinds)
}

// The same in the database's first two sessions.
fn tell_in_two<B: Named, R: Host>(
    rt: &R,
    alloc: Global,
    config: &Config,
    database: &mut Database<B>,
) -> Result<[(bool, bool); 5], Refusal>
    requires { config.now ≡ B.config }
{
    let (mut first, mut second) = two_sessions(alloc, database)?;
    let told = tell(rt, alloc, config, &mut first, &mut second);
    drop((first, second));
    told
}

fn use_kinds<B: Named, R: Host>(rt: &R, alloc: Global, blank: Blank, config: &Config) -> Done
    requires cells { blank ≡ B.cells }
    requires config { config.now ≡ B.config }
{
    let gate = Arc::new(alloc, NoGate)?;
    let mut database: Database<B> = Database::start(rt, alloc, blank, config, 100, &gate)?;
    let kinds = tell_in_two(rt, alloc, config, &mut database);
    let record = database.close(rt);
    let wanted = [
        (true, true),
        (true, true),
        (true, true),
        (true, false),
        (true, true),
    ];
    same(rt, coded(kinds), Ok(wanted));
    // Four entries of the kinds that write, one, two, and one that was turned down.
    same(rt, coded(length_of(record)), Ok(8));
    Ok(())
}

#[test]
fn commits_of_all_kinds(rt: HostRuntime) -> Result<(), Fail> {
    let alloc = rt.alloc();
    let mut config = count_config(alloc, 2, 2, 100);
    config.resolver_splits = keys_of(alloc, &[b"c", b"m"])?;
    config.shard_splits = keys_of(alloc, &[b"c"])?;
    let blank = Blank::new(alloc, 100)?;
    use_kinds::<Brand, HostRuntime>(&rt, alloc, blank, &config)?;
    Ok(())
}

// The code of the refusal, or 0.
fn code_of<T: Drop>(answer: Result<T, Refusal>) -> u32 {
    match answer {
        Ok(_given) => 0,
        Err(why) => why.code(),
    }
}

// The code of each of two commits, with the session, in which a transaction is open then.
fn commit_twice<B: Named, R: Wait>(
    rt: &R,
    alloc: Global,
    database: &mut Database<B>,
) -> Result<([u32; 2], Session<B>), Refusal> {
    match database.session(alloc) {
        Ok(mut session) => {
            let first = code_of(put(rt, alloc, &mut session, b"k", 1));
            let second = code_of(put(rt, alloc, &mut session, b"k", 1));
            let _version = session.begin(rt, alloc);
            Ok(([first, second], session))
        }
        Err(why) => Err(why),
    }
}

// The codes of a read and a commit of the open transaction, then of a read of nothing open, and of `begin`.
fn go_on<B: ClusterName, R: Wait>(rt: &R, alloc: Global, session: &mut Session<B>) -> [u32; 4] {
    let read = code_of(byte_of(rt, alloc, session, b"k"));
    let _set = write(session, Mutation::set(alloc, b"k", &[2]));
    let (committed, _is_handed_back) = commit_code(rt, alloc, session);
    let read_closed = code_of(byte_of(rt, alloc, session, b"k"));
    let begun = code_of(session.begin(rt, alloc));
    [read, committed, read_closed, begun]
}

// The codes of the two commits, and then those of the session that goes on.
fn codes_in_turn<B: ClusterName, R: Wait>(
    rt: &R,
    alloc: Global,
    told: Result<([u32; 2], Session<B>), Refusal>,
) -> Result<([u32; 2], [u32; 4]), u32> {
    match told {
        Ok(told) => {
            let (codes, mut session) = told;
            let gone_on = go_on(rt, alloc, &mut session);
            drop(session);
            Ok((codes, gone_on))
        }
        Err(why) => Err(why.code()),
    }
}

// What a session is told where the book takes one entry, and after the database is closed.
fn fill_book<B: Named, R: Host>(rt: &R, alloc: Global, blank: Blank, config: &Config) -> Done
    requires cells { blank ≡ B.cells }
    requires config { config.now ≡ B.config }
{
    let gate = Arc::new(alloc, NoGate)?;
    let mut database: Database<B> = Database::start(rt, alloc, blank, config, 100, &gate)?;
    let told = commit_twice(rt, alloc, &mut database);
    let record = database.close(rt);
    let codes = codes_in_turn(rt, alloc, told);
    same(rt, codes, Ok(([0, 9006], [9013, 9013, 9015, 9013])));
    same(rt, coded(length_of(record)), Ok(1));
    Ok(())
}

#[test]
fn a_full_book_and_a_closed_database(rt: HostRuntime) -> Result<(), Fail> {
    let alloc = rt.alloc();
    let config = count_config(alloc, 1, 1, 1);
    let blank = Blank::new(alloc, 1)?;
    fill_book::<Brand, HostRuntime>(&rt, alloc, blank, &config)?;
    Ok(())
}

fn start_code<B: Named, R: Host>(
    rt: &R,
    alloc: Global,
    blank: Blank,
    config: &Config,
) -> Result<u32, Refusal>
    requires cells { blank ≡ B.cells }
    requires config { config.now ≡ B.config }
{
    let gate = Arc::new(alloc, NoGate)?;
    match Database::<B>::start(rt, alloc, blank, config, 100, &gate) {
        Ok(database) => Ok(code_of(database.close(rt))),
        Err(why) => Ok(why.code()),
    }
}

// The same on a blank of as many cells.
fn start_on<R: Host>(rt: &R, alloc: Global, config: &Config, cells: u32) -> Result<u32, Refusal> {
    let blank = Blank::new(alloc, cells)?;
    start_code::<Brand, R>(rt, alloc, blank, config)
}

// Proxies, logs, entries, cells; the code.
const SIZES: &[(u32, u32, u32, u32, u32)] = &[
    (1, 1, 10, 10, 0),
    (16, 16, 10, 10, 0),
    (0, 1, 10, 10, 9009),
    (17, 1, 10, 10, 9009),
    (1, 17, 10, 10, 9009),
    (1, 1, 0, 10, 9009),
    (1, 1, 10, 9, 9009),
    (1, 1, 10, 11, 9009),
];

#[test]
fn databases_start_with_legal_configurations(rt: HostRuntime) -> Result<(), Fail> {
    let alloc = rt.alloc();
    for (proxies, logs, book, cells, code) in SIZES {
        let config = count_config(alloc, *proxies, *logs, *book);
        same(&rt, start_on(&rt, alloc, &config, *cells)?, *code);
    }
    Ok(())
}

// These keys, or as many keys of one byte that rise.
#[derive(Clone, Copy)]
enum Splits {
    Keys(&'static [&'static [u8]]),
    Rising(u8),
}

fn rising_keys(alloc: Global, count: u8) -> Result<Items<Key>, Refusal> {
    let mut keys = Items::new(alloc);
    for byte in 0..count {
        keys.push(Key::new(alloc, &[byte])?)?;
    }
    Ok(keys)
}

fn splits_of(alloc: Global, splits: Splits) -> Result<Items<Key>, Refusal> {
    match splits {
        Splits::Keys(texts) => keys_of(alloc, texts),
        Splits::Rising(count) => rising_keys(alloc, count),
    }
}

// The same with these splits, on a blank of one cell.
fn start_split<R: Host>(
    rt: &R,
    alloc: Global,
    resolvers: Splits,
    shards: Splits,
) -> Result<u32, Refusal> {
    let mut config = count_config(alloc, 1, 1, 1);
    config.resolver_splits = splits_of(alloc, resolvers)?;
    config.shard_splits = splits_of(alloc, shards)?;
    start_on(rt, alloc, &config, 1)
}

const NONE: Splits = Splits::Keys(&[]);

const RISING: Splits = Splits::Keys(&[b"a", b"b"]);

const FALLING: Splits = Splits::Keys(&[b"b", b"a"]);

const EMPTY_KEY: Splits = Splits::Keys(&[b""]);

// Splits of the resolvers and of the shards; the code.
const SPLITS: &[(Splits, Splits, u32)] = &[
    (RISING, NONE, 0),
    (NONE, RISING, 0),
    (FALLING, NONE, 9009),
    (NONE, FALLING, 9009),
    (EMPTY_KEY, NONE, 9009),
    (NONE, EMPTY_KEY, 9009),
    (Splits::Rising(64), NONE, 9009),
];

#[test]
fn databases_start_with_legal_splits(rt: HostRuntime) -> Result<(), Fail> {
    let alloc = rt.alloc();
    for (resolvers, shards, code) in SPLITS {
        same(&rt, start_split(&rt, alloc, *resolvers, *shards)?, *code);
    }
    Ok(())
}
