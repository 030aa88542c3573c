// Proxies with known answers.
pub mod committing;

use crate::asserting::same;
use fdb_keys::{Items, Key, Refusal};
use fdb_making::{code_of, count_config, keys_of, made_of, rising_keys, split_config};
use fdb_proxy::GrvCore;
use std::alloc::Global;

// So many proxies, logs and entries of the book, and the code for them.
const COUNTS: &[(u32, u32, u32, u32)] = &[
    (16, 16, 1_048_576, 0),
    (0, 1, 1, 9009),
    (1, 17, 1, 9009),
    (1, 1, 0, 9009),
];

// The code for a configuration with these splits, or why there are none.
fn splits_code(
    resolver_splits: Result<Items<Key>, Refusal>,
    shard_splits: Result<Items<Key>, Refusal>,
) -> u32 {
    let config = split_config(resolver_splits, shard_splits);
    code_of(made_of(config, |config| config.check()))
}

#[test]
fn read_versions_are_not_below_what_was_seen(rt: HostRuntime) {
    let alloc = rt.alloc();
    let mut core = GrvCore::new(alloc);
    let codes = [code_of(core.ask(4, 0)), code_of(core.ask(2, 150))];
    let asks = core.askers() == [(4, 0), (2, 150)].as_slice();
    let grants = core.grant(100).as_slice() == [(4, 100), (2, 150)].as_slice();
    same(
        &rt,
        (codes, asks, grants, core.grant(100).is_empty()),
        ([0, 0], true, true, true),
    );
}

#[test]
fn configurations_are_within_their_limits(rt: HostRuntime) {
    let alloc = rt.alloc();
    for (proxies, logs, book, code) in COUNTS {
        let config = count_config(alloc, *proxies, *logs, *book);
        same(&rt, code_of(config.check()), *code);
    }
}

#[test]
fn splits_are_keys_that_rise(rt: HostRuntime) {
    let alloc = rt.alloc();
    let none = || keys_of(alloc, &[]);
    let codes = [
        splits_code(rising_keys(alloc, 63), keys_of(alloc, &[b"a", b"b"])),
        splits_code(rising_keys(alloc, 64), none()),
        splits_code(none(), rising_keys(alloc, 64)),
        splits_code(keys_of(alloc, &[b"b", b"a"]), none()),
        splits_code(none(), keys_of(alloc, &[b""])),
    ];
    same(&rt, codes, [0, 9009, 9009, 9009, 9009]);
}
