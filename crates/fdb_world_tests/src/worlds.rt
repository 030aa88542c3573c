// Worlds with known answers, by what a caller of `fdb_core` sees.
mod acts;
mod checks;
mod generated;
mod growths;
mod legal;
mod many;
mod repeats;
mod serial;

use self::acts::{Act, take};
use crate::asserting::same;
use bytes::Bytes;
use fdb_client::{Op, Reply, Transcript};
use fdb_core::{Answered, Config, Step, World, is_answered_on, run};
use fdb_keys::{Items, Key, Refusal};
use fdb_making::{Splits, both, splits_of};
use fdb_mutations::PlainMap;
use fdb_txn::TxnId;
use std::alloc::Global;

const NO_SPLITS: Splits = Splits::Keys(&[]);

// How many there are of each role, and how many entries the book has room for.
#[derive(Clone, Copy)]
struct Sizes {
    proxies: u32,
    logs: u32,
    resolver_splits: Splits,
    shard_splits: Splits,
    book: u32,
}

const ONE_OF_EACH: Sizes = Sizes {
    proxies: 1,
    logs: 1,
    resolver_splits: NO_SPLITS,
    shard_splits: NO_SPLITS,
    book: 8,
};

const TWO_LOGS: Sizes = Sizes {
    proxies: 1,
    logs: 2,
    resolver_splits: NO_SPLITS,
    shard_splits: NO_SPLITS,
    book: 4_096,
};

// With a second resolver for the keys from m on.
const TWO_PROXIES: Sizes = Sizes {
    proxies: 2,
    logs: 2,
    resolver_splits: Splits::Keys(&[b"m"]),
    shard_splits: NO_SPLITS,
    book: 4_096,
};

fn config_of(alloc: Global, sizes: Sizes) -> Result<Config, Refusal> {
    let (resolver_splits, shard_splits) = both(
        splits_of(alloc, sizes.resolver_splits),
        splits_of(alloc, sizes.shard_splits),
    )?;
    Ok(Config {
        proxies: sizes.proxies,
        logs: sizes.logs,
        resolver_splits,
        shard_splits,
        book: sizes.book,
    })
}

fn new_world(alloc: Global, sizes: Sizes) -> Result<World, Refusal> {
    World::new(alloc, config_of(alloc, sizes)?)
}

// Takes the steps up to the first that is refused.
fn take_all(world: &mut World, alloc: Global, acts: &[Act]) -> Result<(), Refusal> {
    for act in acts {
        take(world, alloc, *act)?;
    }
    Ok(())
}

// A transaction that read the key a at the version, and was told the value.
fn reader_of(
    alloc: Global,
    id: TxnId,
    read_version: u64,
    told: Option<&'static [u8]>,
    snapshot: bool,
) -> Result<Transcript, Refusal> {
    let key = Key::new(alloc, b"a")?;
    let reply = Reply::Value(told.map(Bytes::from_static));
    let mut ops = Items::new(alloc);
    ops.push((Op::Get { key, snapshot }, reply))?;
    Ok(Transcript {
        id,
        read_version,
        ops,
    })
}

// Whether these are the answers to the first ask and the first grant of a world: session 0 alone is served, with read
// version 0.
fn are_first(answers: &[Result<Answered, Refusal>]) -> bool {
    match answers {
        [Ok(Answered::Done), Ok(Answered::Granted(granted))] => granted.as_slice()
            == [(0, 0)].as_slice(),
        _ => false,
    }
}

const FIRST_STEPS: [Step; 2] = [
    Step::Ask {
        session: 0,
        proxy: 0,
    },
    Step::Grant { proxy: 0 },
];

fn are_first_of_a_run(alloc: Global) -> Result<bool, Refusal> {
    let config = config_of(alloc, ONE_OF_EACH)?;
    let ran = run(alloc, config, FIRST_STEPS.as_slice())?;
    Ok(are_first(ran.1.as_slice()))
}

#[test]
fn first_grant_is_of_version_zero(rt: HostRuntime) {
    same(&rt, are_first_of_a_run(rt.alloc()), Ok(true));
}

// Whether such a transaction was answered as on the empty map.
fn is_answered(
    alloc: Global,
    told: Option<&'static [u8]>,
    snapshot: bool,
) -> Result<bool, Refusal> {
    let id = TxnId {
        session: 3,
        number: 5,
    };
    let transcript = reader_of(alloc, id, 0, told, snapshot)?;
    is_answered_on(alloc, &PlainMap::new(alloc), &transcript)
}

#[test]
fn ordinary_reads_are_compared_with_a_map(rt: HostRuntime) {
    let alloc = rt.alloc();
    let found = [
        is_answered(alloc, None, false),
        is_answered(alloc, Some(b"x"), false),
        is_answered(alloc, Some(b"x"), true),
    ];
    same(&rt, found, [Ok(true), Ok(false), Ok(true)]);
}
