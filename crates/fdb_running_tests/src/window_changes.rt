// A window that is set while the database runs. Each entry's version lies a fifth of the first window above the one
// before it, so the number of entries tells all versions.
ghost use Rattle.std.specs.Prelude.{◌≡◌};

use crate::asserting::same;
use crate::windows::pass_one;
use fdb_hosts::{Done, Host, Named, byte_of, commit_code, put, two_sessions, write};
use fdb_keys::Refusal;
use fdb_making::{code_of, coded, count_config, keys_of};
use fdb_mutations::Mutation;
use fdb_runtime::{Blank, ClusterName, Config, Database, NoGate, Session};
use std::alloc::Global;
use std::marker::Brand;
use std::process::Abort;
use std::sync::{Arc, Wait};
use std::test::Fail;

const ADVANCE: u64 = 1_000_000;

// The window at first, which is the greatest one.
const WINDOW: u64 = 5_000_000;

// A window that is set, and the code that this is answered, 0 where it is taken.
type Set = (u64, u32);

// The windows that are set before a transaction reads, how many entries come between its read version and its own, the
// windows that are set before it commits, and what its commit is answered.
type Lateness = (&'static [Set], u8, &'static [Set], (u32, bool));

const DONE: (u32, bool) = (0, false);

const TOO_OLD: (u32, bool) = (1007, true);

// By the first window who reads at the horizon commits. A refused window changes nothing. A small one counts from the
// next entry on, and where the window grows again the horizon stays.
const LATENESSES: &[Lateness] = &[
    (&[], 4, &[], DONE),
    (&[], 5, &[], TOO_OLD),
    (&[(0, 9009), (WINDOW + 1, 9009)], 4, &[(0, 9009)], DONE),
    (&[], 5, &[], TOO_OLD),
    (&[(ADVANCE, 0)], 0, &[], DONE),
    (&[], 1, &[], TOO_OLD),
    (&[], 0, &[(0, 9009)], DONE),
    (&[], 2, &[(WINDOW, 0)], TOO_OLD),
    (&[], 4, &[], DONE),
    (&[], 4, &[(ADVANCE, 0), (WINDOW, 0)], DONE),
    (&[], 4, &[(1, 0)], TOO_OLD),
    (&[], 0, &[], TOO_OLD),
    (&[(WINDOW + 1, 9009)], 0, &[], TOO_OLD),
    (&[(WINDOW, 0)], 4, &[], DONE),
];

// The first window again, with which who reads and commits at once commits.
const BACK: Lateness = (&[(WINDOW, 0)], 0, &[], DONE);

// Sets the windows, and gives whether each was answered as it is to be.
fn set_all<B: Named, R: Wait>(rt: &R, database: &Database<B>, windows: &[Set]) -> bool {
    windows.iter().all(|(window, code)| code_of(database.set_window(rt, *window)) == *code)
}

// The transaction reads a key that nobody writes, and others write so often. What its commit is answered, and whether
// the windows were.
fn commit_late<B: Named, R: Wait>(
    rt: &R,
    alloc: Global,
    database: &Database<B>,
    late: &mut Session<B>,
    other: &mut Session<B>,
    lateness: &Lateness,
) -> Result<((u32, bool), bool), Refusal> {
    let (first, entries, then, _committed) = *lateness;
    let are_set = set_all(rt, database, first);
    late.begin(rt, alloc)?;
    byte_of(rt, alloc, late, b"r")?;
    for value in 0..entries {
        put(rt, alloc, other, b"x", value)?;
    }
    let are_all_set = set_all(rt, database, then) && are_set;
    write(late, Mutation::set(alloc, b"w", &[0]))?;
    Ok((commit_code(rt, alloc, late), are_all_set))
}

// Each of the rows, in one database.
fn commit_each<B: Named, R: Wait + Abort>(
    rt: &R,
    alloc: Global,
    database: &Database<B>,
    late: &mut Session<B>,
    other: &mut Session<B>,
) -> Done {
    for (row, lateness) in (0..u8::MAX).zip(LATENESSES) {
        let told = commit_late(rt, alloc, database, late, other, lateness);
        same(rt, (row, coded(told)), (row, Ok((lateness.3, true))));
    }
    Ok(())
}

// By a small window a transaction reads, and after twelve entries shards don't serve its version any more: a read and
// its commit are answered so. What it read is committed in a transaction of now, by the window of before.
fn outlive<B: Named, R: Wait + Abort>(
    rt: &R,
    alloc: Global,
    database: &Database<B>,
    late: &mut Session<B>,
    other: &mut Session<B>,
) -> Done {
    let small = set_all(rt, database, &[(1_000, 0)]);
    late.begin(rt, alloc)?;
    let first = coded(byte_of(rt, alloc, late, b"r"));
    for value in 0..12 {
        pass_one(rt, alloc, other, value)?;
    }
    let then = coded(byte_of(rt, alloc, late, b"a"));
    write(late, Mutation::set(alloc, b"w", &[1]))?;
    let committed = commit_code(rt, alloc, late);
    same(
        rt,
        (small, first, then, committed),
        (true, Ok(None), Err(1007), TOO_OLD),
    );
    let told = commit_late(rt, alloc, database, late, other, &BACK);
    same(rt, coded(told), Ok((DONE, true)));
    Ok(())
}

// Both in the database's first two sessions.
fn play_in_two<B: Named, R: Host>(
    rt: &R,
    alloc: Global,
    database: &mut Database<B>,
) -> Result<(), Refusal> {
    let (mut late, mut other) = two_sessions(alloc, database)?;
    let each = commit_each(rt, alloc, database, &mut late, &mut other);
    let outlived = outlive(rt, alloc, database, &mut late, &mut other);
    drop((late, other));
    each.and(outlived)
}

fn use_windows<B: Named, R: Host>(rt: &R, alloc: Global, blank: Blank, config: &Config) -> Done
    requires cells { blank ≡ B.cells }
    requires config { config.now ≡ B.config }
{
    let gate = Arc::new(alloc, NoGate)?;
    let mut database: Database<B> = Database::start(rt, alloc, blank, config, ADVANCE, &gate)?;
    let told = play_in_two(rt, alloc, &mut database);
    let record = database.close(rt);
    same(rt, (coded(told), record.is_ok()), (Ok(()), true));
    drop(record);
    Ok(())
}

// The keys that are read and written lie at several resolvers and shards.
#[test]
fn a_window_is_set_while_the_database_runs(rt: HostRuntime) -> Result<(), Fail> {
    let alloc = rt.alloc();
    let mut config = count_config(alloc, 2, 1, 200);
    config.resolver_splits = keys_of(alloc, &[b"m"])?;
    config.shard_splits = keys_of(alloc, &[b"m"])?;
    let blank = Blank::new(alloc, 200)?;
    use_windows::<Brand, HostRuntime>(&rt, alloc, blank, &config)?;
    Ok(())
}
