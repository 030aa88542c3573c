use fdb_keys::{Items, Key, Refusal};
use fdb_txn::{BOOK_LIMIT, LOG_LIMIT, PROXY_LIMIT, RESOLVER_LIMIT, SHARD_LIMIT, Splits};

/// How many of each role there are, and how keys are divided among them at the start.
#[derive(Clone, Drop, PartialEq, Eq)]
pub struct Config {
    /// How many commit proxies there are, and as many read-version proxies.
    pub proxies: u32,
    /// How many logs there are.
    pub logs: u32,
    /// The keys that divide the resolvers' first pieces. There is one resolver more than splits.
    pub resolver_splits: Items<Key>,
    /// The keys that divide the shards. There is one shard more than splits.
    pub shard_splits: Items<Key>,
    /// How many entries the book may have.
    pub book: u32,
}

impl Config {
    ghost use Rattle.std.specs.Prelude.{⊤};
    ghost use Rattle.fdb_keys.specs.Answers.{AnswersExactly};
    ghost use Rattle.fdb_proxy.specs.Configs.{config_fault};

    /// Whether the configuration is legal. It takes no memory.
    ///
    /// Refused as `BadConfig` unless there are 1 to 16 proxies of each kind, 1 to 16 logs, 1 to 64 resolvers, 1 to 64
    /// shards and 1 to 1,048,576 entries. Splits are keys that rise, none of them empty.
    pub fn check(&self) -> Result<(), Refusal>
        ensures { AnswersExactly result (config_fault self.now) (λ _. ⊤) }
    {
        let has_legal_counts = (1..=PROXY_LIMIT).contains(&self.proxies)
            && (1..=LOG_LIMIT).contains(&self.logs)
            && (1..=BOOK_LIMIT).contains(&self.book);
        if !has_legal_counts {
            return Err(Refusal::BadConfig);
        }
        Splits::check(self.resolver_splits.as_slice(), RESOLVER_LIMIT as usize)?;
        Splits::check(self.shard_splits.as_slice(), SHARD_LIMIT)
    }
}
