// What becomes of a transaction whose read version falls out of the window. Each entry's version lies as far above the
// one before it as the window is long, so the number of entries tells all versions.
ghost use Rattle.std.specs.Prelude.{◌≡◌};

use crate::asserting::same;
use crate::reads::{Touch, touch_keys};
use fdb_hosts::{
    Asked, Done, Host, Named, byte_of, commit_code, put, reads_just, snapshot_of, two_sessions,
    write,
};
use fdb_keys::Refusal;
use fdb_making::{coded, count_config, keys_of};
use fdb_mutations::Mutation;
use fdb_runtime::{Blank, ClusterName, Config, Database, NoGate, Session};
use std::alloc::Global;
use std::marker::Brand;
use std::process::Abort;
use std::sync::{Arc, Wait};
use std::test::Fail;

// How far versions lie apart, and how long the window is.
const ADVANCE: u64 = 5_000_000;

// All keys of both shards, and the pair that they have at the old transaction's read version.
const ALL: Asked = (b"a", b"zz", 0, false, &[(b'a', 1)]);

// Commits the byte at the key a, and reads at that version in both shards, which have come to it then. What they have
// forgotten lies below the window of the last entry. Before they took it they forgot what lay below the window of the
// last entry but two, which was committed before the last but one was there to be taken.
pub(crate) fn pass_one<B: ClusterName, R: Wait>(
    rt: &R,
    alloc: Global,
    session: &mut Session<B>,
    value: u8,
) -> Result<(), Refusal> {
    put(rt, alloc, session, b"a", value)?;
    session.begin(rt, alloc)?;
    byte_of(rt, alloc, session, b"a")?;
    byte_of(rt, alloc, session, b"z")?;
    Ok(())
}

// What is read of the key a, by an ordinary read and by a snapshot read, and whether all keys have just the old pair.
type Seen = (
    Result<Option<u8>, u32>,
    Result<Option<u8>, u32>,
    Result<bool, u32>,
);

fn read_all<B: ClusterName, R: Wait>(rt: &R, alloc: Global, session: &mut Session<B>) -> Seen {
    let ordinary = coded(byte_of(rt, alloc, session, b"a"));
    let snapshot = coded(snapshot_of(rt, alloc, session, b"a"));
    let pairs = coded(reads_just(rt, alloc, session, &ALL, false));
    (ordinary, snapshot, pairs)
}

// Opens a transaction after the first entry, and reads in it after the second one, if it has to. Its version is served
// until the third entry is committed, and the last two make sure that both shards have forgotten it. Gives the read
// version, what is read while it is served, and what is read then.
fn grow_old<B: ClusterName, R: Wait>(
    rt: &R,
    alloc: Global,
    late: &mut Session<B>,
    other: &mut Session<B>,
    reads: bool,
) -> Result<(u64, Option<Seen>, Seen), Refusal> {
    pass_one(rt, alloc, other, 1)?;
    let version = late.begin(rt, alloc)?;
    pass_one(rt, alloc, other, 2)?;
    let served = if reads {
        Some(read_all(rt, alloc, late))
    } else {
        None
    };
    for value in 3..6 {
        pass_one(rt, alloc, other, value)?;
    }
    Ok((version, served, read_all(rt, alloc, late)))
}

// What the transaction reads of the key that it writes itself, and of another one, what its commit is answered, and
// what the key has then.
type Ended = (
    Result<Option<u8>, u32>,
    Result<Option<u8>, u32>,
    (u32, bool),
    Result<Option<u8>, u32>,
);

fn write_and_end<B: ClusterName, R: Wait>(
    rt: &R,
    alloc: Global,
    late: &mut Session<B>,
) -> Result<Ended, Refusal> {
    write(late, Mutation::set(alloc, b"a", &[9]))?;
    let own = coded(byte_of(rt, alloc, late, b"a"));
    let other = coded(byte_of(rt, alloc, late, b"z"));
    let committed = commit_code(rt, alloc, late);
    late.begin(rt, alloc)?;
    let then = coded(byte_of(rt, alloc, late, b"a"));
    Ok((own, other, committed, then))
}

// A transaction that reads while it may is turned down, as what it read is too old. A read that is refused is none, so
// the other one commits.
fn outlive<B: ClusterName, R: Wait + Abort>(
    rt: &R,
    alloc: Global,
    late: &mut Session<B>,
    other: &mut Session<B>,
    reads: bool,
) -> Result<(), Refusal> {
    let told = grow_old(rt, alloc, late, other, reads)?;
    let (served, committed, then) = if reads {
        (Some((Ok(Some(1)), Ok(Some(1)), Ok(true))), (1007, true), 5)
    } else {
        (None, (0, false), 9)
    };
    let refused = (Err(1007), Err(1007), Err(1007));
    same(rt, told, (ADVANCE, served, refused));
    let ended = write_and_end(rt, alloc, late)?;
    let wanted = (Ok(Some(9)), Err(1007), committed, Ok(Some(then)));
    same(rt, ended, wanted);
    Ok(())
}

// The same in the database's first two sessions.
fn outlive_in_two<B: Named, R: Host>(
    rt: &R,
    alloc: Global,
    database: &mut Database<B>,
    reads: bool,
) -> Result<(), Refusal> {
    let (mut late, mut other) = two_sessions(alloc, database)?;
    let told = outlive(rt, alloc, &mut late, &mut other, reads);
    drop((late, other));
    told
}

fn use_old_version<B: Named, R: Host>(
    rt: &R,
    alloc: Global,
    blank: Blank,
    config: &Config,
    reads: bool,
) -> Done
    requires cells { blank ≡ B.cells }
    requires config { config.now ≡ B.config }
{
    let gate = Arc::new(alloc, NoGate)?;
    let mut database: Database<B> = Database::start(rt, alloc, blank, config, ADVANCE, &gate)?;
    let told = outlive_in_two(rt, alloc, &mut database, reads);
    let record = database.close(rt);
    same(rt, (coded(told), record.is_ok()), (Ok(()), true));
    drop(record);
    Ok(())
}

// On a database of one of each role, but for two shards, which have a log each.
fn use_old_version_once<R: Host>(rt: &R, alloc: Global, reads: bool) -> Done {
    let mut config = count_config(alloc, 1, 2, 10);
    config.shard_splits = keys_of(alloc, &[b"m"])?;
    let blank = Blank::new(alloc, 10)?;
    use_old_version::<Brand, R>(rt, alloc, blank, &config, reads)
}

#[test]
fn old_versions_are_not_read_any_more(rt: HostRuntime) -> Result<(), Fail> {
    use_old_version_once(&rt, rt.alloc(), true)?;
    Ok(())
}

#[test]
fn refused_reads_of_old_versions_are_none(rt: HostRuntime) -> Result<(), Fail> {
    use_old_version_once(&rt, rt.alloc(), false)?;
    Ok(())
}

// What a transaction does first, the keys that another one writes then, each in an entry of its own, and what the
// transaction's commit is answered. Its entry lies one step more above its read version than there are such keys.
type Lateness = (Touch, &'static [&'static [u8]], (u32, bool));

const DONE: (u32, bool) = (0, false);

const TOO_OLD: (u32, bool) = (1007, true);

// One that is both too old and overtaken is too old. What reads nothing, but for snapshot reads, is never too old.
const LATENESSES: &[Lateness] = &[
    (Touch::Get, &[], DONE),
    (Touch::Get, &[b"x"], TOO_OLD),
    (Touch::Get, &[b"x", b"y"], TOO_OLD),
    (Touch::Get, &[b"d"], TOO_OLD),
    (Touch::SnapshotGet, &[b"d", b"x"], DONE),
    (Touch::Range, &[], DONE),
    (Touch::Range, &[b"z"], TOO_OLD),
    (Touch::SnapshotRange, &[b"d", b"x"], DONE),
    (Touch::AddRead, &[], DONE),
    (Touch::AddRead, &[b"z"], TOO_OLD),
    (Touch::AddWrite, &[b"d", b"x"], DONE),
    (Touch::Set, &[b"d", b"x"], DONE),
];

// What the commit is answered, and a read after it, when nothing is open.
fn commit_late<B: ClusterName, R: Wait>(
    rt: &R,
    alloc: Global,
    late: &mut Session<B>,
    other: &mut Session<B>,
    lateness: &Lateness,
    value: u8,
) -> Result<((u32, bool), Result<Option<u8>, u32>), Refusal> {
    let (touch, keys, _committed) = *lateness;
    late.begin(rt, alloc)?;
    touch_keys(rt, alloc, late, touch)?;
    for key in keys {
        put(rt, alloc, other, *key, 0)?;
    }
    write(late, Mutation::set(alloc, b"w", &[value]))?;
    let committed = commit_code(rt, alloc, late);
    Ok((committed, coded(byte_of(rt, alloc, late, b"w"))))
}

// What the other one reads then of the key that the transaction wrote.
fn value_then<B: ClusterName, R: Wait>(
    rt: &R,
    alloc: Global,
    other: &mut Session<B>,
) -> Result<Option<u8>, Refusal> {
    other.begin(rt, alloc)?;
    byte_of(rt, alloc, other, b"w")
}

// Each row writes another value, which stands there afterwards only where it was committed.
fn commit_each<B: ClusterName, R: Wait + Abort>(
    rt: &R,
    alloc: Global,
    late: &mut Session<B>,
    other: &mut Session<B>,
) -> Result<(), Refusal> {
    let mut last = None;
    for (value, lateness) in (0..u8::MAX).zip(LATENESSES) {
        let committed = lateness.2;
        if committed == DONE {
            last = Some(value);
        }
        let told = commit_late(rt, alloc, late, other, lateness, value);
        let then = value_then(rt, alloc, other);
        let given = (value, coded(told), coded(then));
        same(rt, given, (value, Ok((committed, Err(9015))), Ok(last)));
    }
    Ok(())
}

// The same in the database's first two sessions.
fn commit_each_in_two<B: Named, R: Host>(
    rt: &R,
    alloc: Global,
    database: &mut Database<B>,
) -> Result<(), Refusal> {
    let (mut late, mut other) = two_sessions(alloc, database)?;
    let told = commit_each(rt, alloc, &mut late, &mut other);
    drop((late, other));
    told
}

fn use_latenesses<B: Named, R: Host>(rt: &R, alloc: Global, blank: Blank, config: &Config) -> Done
    requires cells { blank ≡ B.cells }
    requires config { config.now ≡ B.config }
{
    let gate = Arc::new(alloc, NoGate)?;
    let mut database: Database<B> = Database::start(rt, alloc, blank, config, ADVANCE, &gate)?;
    let told = commit_each_in_two(rt, alloc, &mut database);
    let record = database.close(rt);
    same(rt, (coded(told), record.is_ok()), (Ok(()), true));
    drop(record);
    Ok(())
}

// The keys that are read and written lie at several resolvers.
#[test]
fn commits_of_what_was_read_too_long_ago(rt: HostRuntime) -> Result<(), Fail> {
    let alloc = rt.alloc();
    let mut config = count_config(alloc, 2, 1, 100);
    config.resolver_splits = keys_of(alloc, &[b"m"])?;
    let blank = Blank::new(alloc, 100)?;
    use_latenesses::<Brand, HostRuntime>(&rt, alloc, blank, &config)?;
    Ok(())
}
