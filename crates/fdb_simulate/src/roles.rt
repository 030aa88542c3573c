// The roles of a database, each as the value that its thread would have.
ghost use Rattle.std.specs.Prelude.{◌≡◌, ◌<◌, ⊤, suc, length, None};
ghost use Rattle.fdb_keys.specs.Answers.{Answers};
ghost use Rattle.fdb_proxy.specs.Configs.{config_fault};

use fdb_book::Book;
use fdb_keys::Refusal;
use fdb_proxy::Config;
use fdb_sections::{
    CommitMachine, DatabaseName, LogAt, LogState, PullMachine, ReadVersionMachine, ResolverAt,
    ResolverMachine, SequencerAt, ShardAt, ShardState, both,
};
use fdb_storage::ShardMap;
use std::alloc::Global;

/// All roles. Who waits for a proxy is the number of a client.
#[derive(Drop)]
pub(crate) struct Roles<B: DatabaseName> {
    pub(crate) sequencer: SequencerAt<B>,
    pub(crate) resolvers: Vec<ResolverMachine<B>>,
    pub(crate) logs: Vec<LogState<B>>,
    pub(crate) shards: Vec<ShardState<B>>,
    pub(crate) pulls: Vec<PullMachine<B>>,
    pub(crate) shard_map: ShardMap,
    pub(crate) commits: Vec<CommitMachine<B, u32>>,
    pub(crate) begins: Vec<ReadVersionMachine<B, u32>>,
}

impl<B: DatabaseName> Roles<B> {
    /// Nothing has happened. Refused as `BadConfig` where the configuration isn't legal, and as `NoMemory`.
    pub(crate) fn new(alloc: Global, book: &Book<B>, config: &Config) -> Result<Self, Refusal>
        requires { config.now ≡ B.config }
        ensures { Answers result (config_fault config.now) (λ _. ⊤) }
    {
        config.check()?;
        let resolvers = config.resolver_splits.len() as u32 + 1;
        let tags = config.shard_splits.len() as u32 + 1;
        Self::of_legal(alloc, book, config, resolvers, tags)
    }

    // The same where the configuration is legal, with so many resolvers and shards. Refused only as `NoMemory`.
    fn of_legal(
        alloc: Global,
        book: &Book<B>,
        config: &Config,
        resolvers: u32,
        tags: u32,
    ) -> Result<Self, Refusal>
        requires config { config.now ≡ B.config }
        requires legal { config_fault B.config ≡ None }
        requires resolvers { resolvers ≡ suc (length B.config.resolver_splits) }
        requires tags { tags ≡ suc (length B.config.shard_splits) }
        ensures { Answers result None (λ _. ⊤) }
    {
        let sequencer = SequencerAt::new(alloc, book, config.proxies, resolvers);
        let resolving = make_resolvers(alloc, book, resolvers);
        let logs = make_logs(alloc, book, config.logs, tags);
        let shards = make_shards(alloc, book, config, tags);
        let pulls = make_pulls(alloc, tags);
        let proxies = make_proxies(alloc, book, config, resolvers);
        let (sequencer, (resolvers, (logs, (shards, (pulls, proxies))))) = both(
            sequencer,
            both(resolving, both(logs, both(shards, both(pulls, proxies)))),
        )?;
        let (shard_map, shards) = shards;
        let (commits, begins) = proxies;
        Ok(Roles {
            sequencer,
            resolvers,
            logs,
            shards,
            pulls,
            shard_map,
            commits,
            begins,
        })
    }
}

// The resolvers. Refused only as `NoMemory`.
fn make_resolvers<B: DatabaseName>(
    alloc: Global,
    book: &Book<B>,
    count: u32,
) -> Result<Vec<ResolverMachine<B>>, Refusal>
    requires { count ≡ suc (length B.config.resolver_splits) }
    ensures { Answers result None (λ _. ⊤) }
{
    let mut made = Vec::with_capacity(alloc, count as usize)?;
    for number in 0..count {
        let at = ResolverAt::new(alloc, book, number)?;
        made.push(ResolverMachine::new(alloc, at))?;
    }
    Ok(made)
}

// The logs. Refused only as `NoMemory`.
fn make_logs<B: DatabaseName>(
    alloc: Global,
    book: &Book<B>,
    logs: u32,
    tags: u32,
) -> Result<Vec<LogState<B>>, Refusal>
    requires legal { config_fault B.config ≡ None }
    requires logs { logs ≡ B.config.logs }
    requires tags { tags ≡ suc (length B.config.shard_splits) }
    ensures { Answers result None (λ _. ⊤) }
{
    let mut made = Vec::with_capacity(alloc, logs as usize)?;
    for number in 0..logs {
        let at = LogAt::new(alloc, book, number, logs, tags)?;
        made.push(LogState::new(at))?;
    }
    Ok(made)
}

// The shards' map, and the shards. Refused only as `NoMemory`.
fn make_shards<B: DatabaseName>(
    alloc: Global,
    book: &Book<B>,
    config: &Config,
    tags: u32,
) -> Result<(ShardMap, Vec<ShardState<B>>), Refusal>
    requires config { config.now ≡ B.config }
    requires legal { config_fault B.config ≡ None }
    requires tags { tags ≡ suc (length B.config.shard_splits) }
    ensures { Answers result None (λ _. ⊤) }
{
    let map = ShardMap::new(alloc, config.shard_splits.as_slice())?;
    let shards = shards_of(alloc, book, &map, tags)?;
    Ok((map, shards))
}

// The shards of the map. Refused only as `NoMemory`.
fn shards_of<B: DatabaseName>(
    alloc: Global,
    book: &Book<B>,
    map: &ShardMap,
    tags: u32,
) -> Result<Vec<ShardState<B>>, Refusal>
    requires map { map.now ≡ B.config.shard_splits }
    requires tags { tags ≡ suc (length B.config.shard_splits) }
    ensures { Answers result None (λ _. ⊤) }
{
    let mut made = Vec::with_capacity(alloc, tags as usize)?;
    for tag in 0..tags {
        let range = map.range(tag)?;
        let at = ShardAt::new(alloc, book, tag, range)?;
        made.push(ShardState::new(at))?;
    }
    Ok(made)
}

// The shards' pulls. Refused only as `NoMemory`.
fn make_pulls<B: DatabaseName>(alloc: Global, tags: u32) -> Result<Vec<PullMachine<B>>, Refusal>
    ensures { Answers result None (λ _. ⊤) }
{
    let mut made = Vec::with_capacity(alloc, tags as usize)?;
    for tag in 0..tags {
        made.push(PullMachine::new(tag))?;
    }
    Ok(made)
}

// The proxies of both kinds. Refused only as `NoMemory`.
fn make_proxies<B: DatabaseName>(
    alloc: Global,
    book: &Book<B>,
    config: &Config,
    resolvers: u32,
) -> Result<(Vec<CommitMachine<B, u32>>, Vec<ReadVersionMachine<B, u32>>), Refusal>
    requires config { config.now ≡ B.config }
    requires legal { config_fault B.config ≡ None }
    ensures { Answers result None (λ _. ⊤) }
{
    let commits = make_commits(alloc, book, config, resolvers);
    let begins = make_begins(alloc, config.proxies);
    both(commits, begins)
}

// The commit proxies. Refused only as `NoMemory`.
fn make_commits<B: DatabaseName>(
    alloc: Global,
    book: &Book<B>,
    config: &Config,
    resolvers: u32,
) -> Result<Vec<CommitMachine<B, u32>>, Refusal>
    requires config { config.now ≡ B.config }
    requires legal { config_fault B.config ≡ None }
    ensures { Answers result None (λ _. ⊤) }
{
    let mut made = Vec::with_capacity(alloc, config.proxies as usize)?;
    for number in 0..config.proxies {
        made.push(CommitMachine::new(alloc, book, number, config, resolvers)?)?;
    }
    Ok(made)
}

// The read-version proxies. Refused only as `NoMemory`.
fn make_begins<B: DatabaseName>(
    alloc: Global,
    count: u32,
) -> Result<Vec<ReadVersionMachine<B, u32>>, Refusal>
    ensures { Answers result None (λ _. ⊤) }
{
    let mut made = Vec::with_capacity(alloc, count as usize)?;
    for _made in 0..count {
        made.push(ReadVersionMachine::new(alloc))?;
    }
    Ok(made)
}
