// Which configurations a world, and a run of no steps, is made of.
use super::{NO_SPLITS, Sizes, config_of};
use crate::asserting::same;
use fdb_core::{World, run};
use fdb_keys::Refusal;
use fdb_making::{Splits, code_of};
use std::alloc::Global;

// The codes of the refusals of the world and of the run, or 0.
type Codes = (u32, u32);

const SERVED: Codes = (0, 0);

const BAD: Codes = (9009, 9009);

// As many proxies and logs, one resolver and one shard, and a book of so many entries.
static COUNTS: [(u32, u32, u32, Codes); 8] = [
    (1, 1, 1, SERVED),
    (16, 16, 1_048_576, SERVED),
    (0, 1, 1, BAD),
    (17, 1, 1, BAD),
    (1, 0, 1, BAD),
    (1, 17, 1, BAD),
    (1, 1, 0, BAD),
    (1, 1, 1_048_577, BAD),
];

// The splits of the resolvers and those of the shards.
static SPLITS: [(Splits, Splits, Codes); 9] = [
    (Splits::Rising(63), Splits::Rising(63), SERVED),
    (Splits::Rising(64), NO_SPLITS, BAD),
    (NO_SPLITS, Splits::Rising(64), BAD),
    // Those that fall, that are equal or that are empty.
    (Splits::Keys(&[b"b", b"a"]), NO_SPLITS, BAD),
    (NO_SPLITS, Splits::Keys(&[b"b", b"a"]), BAD),
    (Splits::Keys(&[b"a", b"a"]), NO_SPLITS, BAD),
    (NO_SPLITS, Splits::Keys(&[b"a", b"a"]), BAD),
    (Splits::Keys(&[b"", b"a"]), NO_SPLITS, BAD),
    (NO_SPLITS, Splits::Keys(&[b"", b"a"]), BAD),
];

// The world is made of the configuration, and the run of its copy.
fn codes(alloc: Global, sizes: Sizes) -> Result<Codes, Refusal> {
    let config = config_of(alloc, sizes)?;
    let copy = config.clone()?;
    Ok((
        code_of(World::new(alloc, config)),
        code_of(run(alloc, copy, &[])),
    ))
}

#[test]
fn configurations_within_their_limits_are_served(rt: HostRuntime) {
    for (proxies, logs, book, wanted) in COUNTS.as_slice() {
        let sizes = Sizes {
            proxies: *proxies,
            logs: *logs,
            resolver_splits: NO_SPLITS,
            shard_splits: NO_SPLITS,
            book: *book,
        };
        same(&rt, codes(rt.alloc(), sizes), Ok(*wanted));
    }
    for (resolver_splits, shard_splits, wanted) in SPLITS.as_slice() {
        let sizes = Sizes {
            proxies: 1,
            logs: 1,
            resolver_splits: *resolver_splits,
            shard_splits: *shard_splits,
            book: 1,
        };
        same(&rt, codes(rt.alloc(), sizes), Ok(*wanted));
    }
}
