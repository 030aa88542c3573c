// Configurations, and what became of transactions.
ghost use Rattle.std.specs.Prelude.{◌≡◌, []};

use fdb_keys::{Items, Key, Refusal};
use fdb_proxy::{Config, Outcome};
use std::alloc::Global;

/// The configuration with so many proxies and logs, one resolver, one shard and a book of so many entries.
pub fn count_config(alloc: Global, proxies: u32, logs: u32, book: u32) -> Config
    ensures { result ≡ record { proxies = proxies; logs = logs; resolver_splits = []; shard_splits = []; book = book } }
{
    Config {
        proxies,
        logs,
        resolver_splits: Items::new(alloc),
        shard_splits: Items::new(alloc),
        book,
    }
}

/// The configuration with these splits, one proxy, one log and a book of one entry.
pub fn split_config(
    resolver_splits: Result<Items<Key>, Refusal>,
    shard_splits: Result<Items<Key>, Refusal>,
) -> Result<Config, Refusal> {
    match (resolver_splits, shard_splits) {
        (Ok(resolver_splits), Ok(shard_splits)) => Ok(Config {
            proxies: 1,
            logs: 1,
            resolver_splits,
            shard_splits,
            book: 1,
        }),
        (Err(why), _) | (_, Err(why)) => Err(why),
    }
}

/// The version and the place of a commit, or the code of why there is none.
pub fn placed(outcome: Outcome) -> Result<(u64, u32), u32> {
    match outcome {
        Outcome::Commit { version, place } => Ok((version, place)),
        Outcome::Conflict => Err(1020),
        Outcome::Old => Err(1007),
    }
}
