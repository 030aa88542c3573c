// A database of the counters' layer: sessions in two threads add to both counters at once, and find them equal.
ghost use Rattle.std.specs.Prelude.{◌≡◌};

use crate::asserting::same;
use fdb_hosts::{Done, Host, Named, thread_of};
use fdb_keys::Refusal;
use fdb_layers::{Count, EqualCounters, read_both};
use fdb_making::{both, coded, count_config};
use fdb_runtime::{Blank, Bytes, ClusterName, Config, Database, NoGate, Session, Tries};
use std::alloc::Global;
use std::marker::Brand;
use std::sync::{Arc, Wait};
use std::test::Fail;
use std::thread;

// How often each session counts.
const TIMES: u32 = 20;

// Adds one to both counters, so many times.
fn count_often<B: ClusterName, R: Wait>(
    rt: &R,
    alloc: Global,
    session: &mut Session<B, EqualCounters>,
) -> Done {
    let mut count = Count { by: 1 };
    for _time in 0..TIMES {
        let receipt = session.transact(rt, alloc, Tries::at_most(1_000), &mut count)?;
        receipt.know_layer();
        drop(receipt);
    }
    Ok(())
}

// The same, after which the session is dropped.
fn count_and_end<B: ClusterName, R: Wait>(
    rt: &R,
    alloc: Global,
    session: Session<B, EqualCounters>,
) -> Done {
    let mut session = session;
    let counted = count_often(rt, alloc, &mut session);
    drop(session);
    counted
}

// The first byte of the value.
fn first_byte(value: Option<Bytes>) -> Option<u8> {
    match value {
        Some(value) => value.as_slice().first().copied(),
        None => None,
    }
}

// The first byte of both counters.
fn counted<B: ClusterName, R: Wait>(
    rt: &R,
    alloc: Global,
    session: &mut Session<B, EqualCounters>,
) -> Result<(Option<u8>, Option<u8>), Refusal> {
    session.begin(rt, alloc)?;
    let (one, other) = read_both(rt, alloc, session)?;
    Ok((first_byte(one), first_byte(other)))
}

fn play<B: Named, R: Host>(
    rt: &R,
    alloc: Global,
    database: &mut Database<B, EqualCounters>,
) -> Done {
    let (mut one, other) = both(database.session(alloc), database.session(alloc))?;
    let handle = *rt;
    let there = thread_of(thread::spawn(rt, move || count_and_end(&handle, alloc, other)))?;
    let here = count_often(rt, alloc, &mut one);
    let there = there.join(rt);
    let read = coded(counted(rt, alloc, &mut one));
    drop(one);
    same(rt, (coded(here), coded(there)), (Ok(()), Ok(())));
    same(rt, read, Ok((Some(40), Some(40))));
    Ok(())
}

fn use_layer<B: Named, R: Host>(rt: &R, alloc: Global, blank: Blank, config: &Config) -> Done
    requires cells { blank ≡ B.cells }
    requires config { config.now ≡ B.config }
{
    let gate = Arc::new(alloc, NoGate)?;
    let mut database: Database<B, EqualCounters> = Database::start(
        rt, alloc, blank, config, 100, &gate,
    )?;
    let played = play(rt, alloc, &mut database);
    let record = database.close(rt)?;
    record.know_layer();
    drop(record);
    same(rt, coded(played), Ok(()));
    Ok(())
}

#[test]
fn both_counters_are_equal_whoever_counts(rt: HostRuntime) -> Result<(), Fail> {
    let alloc = rt.alloc();
    let config = count_config(alloc, 2, 1, 100);
    let blank = Blank::new(alloc, 100)?;
    use_layer::<Brand, HostRuntime>(&rt, alloc, blank, &config)?;
    Ok(())
}
