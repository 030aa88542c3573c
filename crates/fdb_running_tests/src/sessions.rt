// One session or several, on one thread.
ghost use Rattle.std.specs.Prelude.{◌≡◌};

use crate::asserting::same;
use fdb_book::Blank;
use fdb_hosts::{
    Asked, Done, Host, Named, add_read, add_write, byte_of, move_keys, reads_just, receipt_of,
    two_sessions, write,
};
use fdb_keys::Refusal;
use fdb_making::{are_pairs, coded, count_config};
use fdb_mutations::Mutation;
use fdb_runtime::{ClusterName, Config, Database, NoGate, Receipt, Record, Session};
use fdb_txn::Spot;
use std::alloc::Global;
use std::marker::Brand;
use std::process::Abort;
use std::sync::{Arc, Wait};
use std::test::Fail;

const PAIR: Asked = (b"a", b"b", 0, false, &[(b'a', 7)]);

// The entry and the place of a spot, if it has any, and its version.
fn numbers_of_spot(spot: Spot) -> (Option<(u32, u32)>, u64) {
    match spot {
        Spot::Entry {
            index,
            place,
            version,
        } => (Some((index, place)), version),
        Spot::ReadOnly { version } => (None, version),
    }
}

// What the receipt shows: the numbers of the spot; the transaction's session and number, its read version, and how many
// operations it has; how many entries its front has.
type Shown = ((Option<(u32, u32)>, u64), (u32, u64, u64, usize), usize);

fn shown_by<B: ClusterName>(receipt: &Receipt<B>) -> Shown {
    let length = receipt.front().len();
    let spot = numbers_of_spot(receipt.spot());
    let transcript = receipt.transcript();
    let id = transcript.id;
    let numbers = (
        id.session,
        id.number,
        transcript.read_version,
        transcript.ops.len(),
    );
    (spot, numbers, length)
}

// The first session commits the key, and tells the second one. Gives what the receipt shows.
fn commit_and_tell<B: ClusterName, R: Wait>(
    rt: &R,
    alloc: Global,
    first: &mut Session<B>,
    second: &mut Session<B>,
) -> Result<Shown, Refusal> {
    write(first, Mutation::set(alloc, b"a", &[7]))?;
    let receipt = receipt_of(first.commit(rt, alloc))?;
    let learnt = second.learn(&receipt);
    second.know_front();
    let shown = shown_by(&receipt);
    drop(receipt);
    learnt?;
    Ok(shown)
}

// What two sessions are told, of which the second learns the first one's receipt.
fn tell<B: ClusterName, R: Wait + Abort>(
    rt: &R,
    alloc: Global,
    first: &mut Session<B>,
    second: &mut Session<B>,
) {
    same(rt, coded(byte_of(rt, alloc, first, b"a")), Err(9015));
    same(rt, coded(first.begin(rt, alloc)), Ok(0));
    let shown = commit_and_tell(rt, alloc, first, second);
    let wanted = ((Some((0, 0)), 100), (0, 0, 0, 1), 1);
    same(rt, coded(shown), Ok(wanted));
    same(rt, coded(second.begin(rt, alloc)), Ok(100));
    same(rt, coded(byte_of(rt, alloc, second, b"a")), Ok(Some(7)));
    same(
        rt,
        coded(reads_just(rt, alloc, second, &PAIR, false)),
        Ok(true),
    );
    same(rt, coded(add_read(alloc, second)), Ok(()));
    same(rt, coded(add_write(alloc, second)), Ok(()));
}

// How many entries the record has, at which version it is, and whether the pair is the only one.
fn told_of<B: ClusterName>(record: Result<Record<B>, Refusal>) -> Result<(usize, u64, bool), u32> {
    match record {
        Ok(record) => {
            let is_pair = are_pairs(record.pairs(), &[(b'a', 7)]);
            Ok((record.front().len(), record.committed(), is_pair))
        }
        Err(why) => Err(why.code()),
    }
}

// The same of the database's first two sessions.
fn tell_in_two<B: Named, R: Host>(
    rt: &R,
    alloc: Global,
    database: &mut Database<B>,
) -> Result<(), Refusal> {
    let (mut first, mut second) = two_sessions(alloc, database)?;
    tell(rt, alloc, &mut first, &mut second);
    drop((first, second));
    Ok(())
}

// Moves that name no resolver that there is, or no key.
fn refuse_moves<B: Named, R: Host>(rt: &R, alloc: Global, database: &Database<B>) {
    let unknown = move_keys(rt, alloc, database, b"a", b"b", 1);
    same(rt, coded(unknown), Err(9009));
    let empty = move_keys(rt, alloc, database, b"a", b"a", 0);
    same(rt, coded(empty), Err(9009));
    let whole = move_keys(rt, alloc, database, b"a", b"b", 0);
    same(rt, coded(whole), Ok(()));
}

fn run_two<B: Named, R: Host>(rt: &R, alloc: Global, blank: Blank, config: &Config) -> Done
    requires cells { blank ≡ B.cells }
    requires config { config.now ≡ B.config }
{
    let gate = Arc::new(alloc, NoGate)?;
    let mut database: Database<B> = Database::start(rt, alloc, blank, config, 100, &gate)?;
    let told = tell_in_two(rt, alloc, &mut database);
    refuse_moves(rt, alloc, &database);
    let record = database.close(rt);
    same(rt, coded(told), Ok(()));
    same(rt, told_of(record), Ok((1, 100, true)));
    Ok(())
}

#[test]
fn two_sessions_of_one_of_each_role(rt: HostRuntime) -> Result<(), Fail> {
    let alloc = rt.alloc();
    let config = count_config(alloc, 1, 1, 100);
    let blank = Blank::new(alloc, 100)?;
    run_two::<Brand, HostRuntime>(&rt, alloc, blank, &config)?;
    Ok(())
}
