// How large a transaction may be.
ghost use Rattle.std.specs.Prelude.{◌≡◌};

use crate::asserting::same;
use fdb_hosts::{Done, Host, Named, byte_of, commit_code, length_of, write};
use fdb_keys::{KeyRange, Refusal};
use fdb_making::{coded, count_config, made_of, text_of};
use fdb_mutations::Mutation;
use fdb_runtime::{Blank, ClusterName, Config, Database, NoGate, Session};
use std::alloc::Global;
use std::marker::Brand;
use std::process::Abort;
use std::sync::{Arc, Wait};
use std::test::Fail;

// How many keys of one byte are set, and how many bytes each is set to. With the key, and both bounds of what is
// written, 1 and 2 bytes, that is 100 times 100,000 bytes: no byte more may be committed.
const KEYS: u8 = 100;

const BYTES: usize = 99_996;

// The last of the keys.
const LAST: u8 = 99;

// Opens a transaction that sets each key.
fn fill<B: ClusterName, R: Wait>(
    rt: &R,
    alloc: Global,
    session: &mut Session<B>,
) -> Result<(), Refusal> {
    let value = text_of(alloc, 7, BYTES)?;
    session.begin(rt, alloc)?;
    for key in 0..KEYS {
        write(session, Mutation::set(alloc, &[key], value.as_slice()))?;
    }
    Ok(())
}

// Clears the first key as often. What is written has the key already, so each time is one byte more.
fn clear_first<B: ClusterName>(
    alloc: Global,
    session: &mut Session<B>,
    times: u32,
) -> Result<(), Refusal> {
    for _time in 0..times {
        write(session, Mutation::clear(alloc, &[0]))?;
    }
    Ok(())
}

// Adds what lies between the first key and the second one to what is written, so that one range has both, with 3 bytes
// in place of 6.
fn join_first_two<B: ClusterName>(alloc: Global, session: &mut Session<B>) -> Result<(), Refusal> {
    made_of(
        KeyRange::new(alloc, &[0, 0], &[1]),
        |range| session.add_write(range),
    )
}

// What two commits of one byte too many are answered, and a read of the last key between them.
type Large = ((u32, bool), Result<Option<u8>, u32>, (u32, bool));

fn commit_large<B: ClusterName, R: Wait>(
    rt: &R,
    alloc: Global,
    session: &mut Session<B>,
) -> Result<Large, Refusal> {
    fill(rt, alloc, session)?;
    clear_first(alloc, session, 1)?;
    let first = commit_code(rt, alloc, session);
    let read = coded(byte_of(rt, alloc, session, &[LAST]));
    let second = commit_code(rt, alloc, session);
    Ok((first, read, second))
}

// The open transaction becomes as large as may be. What its commit is answered then, a read when nothing is open, and
// reads of the first key and the last one in another transaction.
type Full = ((u32, bool), Result<Option<u8>, u32>, Option<u8>, Option<u8>);

fn commit_full<B: ClusterName, R: Wait>(
    rt: &R,
    alloc: Global,
    session: &mut Session<B>,
) -> Result<Full, Refusal> {
    join_first_two(alloc, session)?;
    clear_first(alloc, session, 2)?;
    let committed = commit_code(rt, alloc, session);
    let closed = coded(byte_of(rt, alloc, session, &[LAST]));
    session.begin(rt, alloc)?;
    let first = byte_of(rt, alloc, session, &[0])?;
    let last = byte_of(rt, alloc, session, &[LAST])?;
    Ok((committed, closed, first, last))
}

// Too large is refused, nothing is handed back, and the transaction stays open: so it may be committed once it isn't.
fn commit_in_turn<B: ClusterName, R: Wait + Abort>(
    rt: &R,
    alloc: Global,
    session: &mut Session<B>,
) {
    let large = coded(commit_large(rt, alloc, session));
    let full = coded(commit_full(rt, alloc, session));
    let open = ((2101, false), Ok(Some(7)), (2101, false));
    let done = ((0, false), Err(9015), None, Some(7));
    same(rt, (large, full), (Ok(open), Ok(done)));
}

// The same in a session of its own.
fn commit_alone<B: Named, R: Host>(
    rt: &R,
    alloc: Global,
    database: &mut Database<B>,
) -> Result<(), Refusal> {
    let mut session = database.session(alloc)?;
    commit_in_turn(rt, alloc, &mut session);
    drop(session);
    Ok(())
}

fn use_sizes<B: Named, R: Host>(rt: &R, alloc: Global, blank: Blank, config: &Config) -> Done
    requires cells { blank ≡ B.cells }
    requires config { config.now ≡ B.config }
{
    let gate = Arc::new(alloc, NoGate)?;
    let mut database: Database<B> = Database::start(rt, alloc, blank, config, 100, &gate)?;
    let told = commit_alone(rt, alloc, &mut database);
    let record = database.close(rt);
    let given = (coded(told), coded(length_of(record)));
    same(rt, given, (Ok(()), Ok(1)));
    Ok(())
}

#[test]
fn what_is_too_large_stays_open(rt: HostRuntime) -> Result<(), Fail> {
    let alloc = rt.alloc();
    let config = count_config(alloc, 1, 1, 10);
    let blank = Blank::new(alloc, 10)?;
    use_sizes::<Brand, HostRuntime>(&rt, alloc, blank, &config)?;
    Ok(())
}
