//! What the threads of a database and its sessions share.
ghost use Rattle.std.specs.Prelude.{◌≡◌, ⊤, suc, length, None, IfOk};
ghost use Rattle.fdb_keys.specs.Answers.{Answers, AnswersExactly};
ghost use Rattle.fdb_proxy.specs.Configs.{config_fault};
ghost use Rattle.fdb_runtime.specs.Databases.{AnswersMove, is_bad_move};
ghost use Rattle.fdb_sequencer.specs.Sequencer.{set_window_fault};

use commit_proxy::{CommitRole, SharedCommitProxy};
use fdb_book::Book;
use fdb_keys::{Key, KeyRange, Refusal, is_before};
use fdb_proxy::Config;
use fdb_sections::{
    BatchMessage, DatabaseName, GrantMessage, Issued, LogAt, LoggedFront, Reported, ResolverAt,
    SequencerAt, ShardAt, both,
};
use fdb_storage::ShardMap;
use fdb_txn::Move;
use log::SharedLog;
use read_version_proxy::{ReadVersionRole, SharedReadVersionProxy};
use resolver::{ResolverRole, SharedResolver, share_resolver, tie_all};
use role::SharedRole;
use shard::SharedShard;
use std::alloc::Global;
use std::sync::{Mutex, Wait};
use waiting::take_lock;

pub(crate) mod commit_proxy;
pub(crate) mod log;
pub(crate) mod place;
pub(crate) mod read_version_proxy;
pub(crate) mod resolver;
pub(crate) mod role;
pub(crate) mod shard;
pub(crate) mod slot;
pub(crate) mod snapshot;
pub(crate) mod waiting;

/// What all threads of a database and its sessions share. Each lock in it is taken with no other one held, but for
/// those of shards by who closes the database, which are taken in the order of the shards.
#[derive(Drop)]
pub(crate) struct Shared<B: DatabaseName> {
    pub(crate) alloc: Global,
    book: Book<B>,
    // How many entries the book may have.
    limit: u32,
    advance: u64,
    sequencer: Mutex<SequencerAt<B>>,
    shard_map: ShardMap,
    logs: Vec<SharedLog<B>>,
    shards: Vec<SharedShard<B>>,
    commits: Vec<SharedCommitProxy<B>>,
    begins: Vec<SharedReadVersionProxy<B>>,
    resolvers: Vec<SharedResolver<B>>,
    ghost limited: { limit ≡ B.config.book },
}

impl<B: DatabaseName> Shared<B> {
    /// The state of a database in which nothing happened. Refused as `BadConfig` where the configuration isn't legal,
    /// and as `NoMemory`.
    pub(crate) fn new<R: Wait>(
        rt: &R,
        alloc: Global,
        book: Book<B>,
        config: &Config,
        advance: u64,
    ) -> Result<Self, Refusal>
        requires { config.now ≡ B.config }
        ensures { Answers result (config_fault config.now) (λ _. ⊤) }
    {
        let (resolvers, tags) = resolvers_and_shards(config)?;
        Self::of_roles(rt, alloc, book, config, advance, resolvers, tags)
    }

    // The same where the configuration is legal, with so many resolvers and shards. Refused only as `NoMemory`.
    fn of_roles<R: Wait>(
        rt: &R,
        alloc: Global,
        book: Book<B>,
        config: &Config,
        advance: u64,
        resolvers: u32,
        tags: u32,
    ) -> Result<Self, Refusal>
        requires config { config.now ≡ B.config }
        requires legal { config_fault B.config ≡ None }
        requires resolvers { resolvers ≡ suc (length B.config.resolver_splits) }
        requires tags { tags ≡ suc (length B.config.shard_splits) }
        ensures { Answers result None (λ _. ⊤) }
    {
        let sequencer = SequencerAt::new(alloc, &book, config.proxies, resolvers);
        let logs_and_shards = make_logs_and_shards(alloc, &book, config, tags);
        let tied = make_tied(rt, alloc, &book, config, resolvers);
        let begins = make_begins(alloc, config.proxies);
        let (sequencer, (logs_and_shards, (tied, begins))) = both(
            sequencer,
            both(logs_and_shards, both(tied, begins)),
        )?;
        let (shard_map, logs, shards) = logs_and_shards;
        let (resolvers, commits) = tied;
        Ok(Shared {
            alloc,
            book,
            limit: config.book,
            advance,
            sequencer: Mutex::new(sequencer),
            shard_map,
            logs,
            shards,
            commits,
            begins,
            resolvers,
        })
    }

    /// How many entries the book may have.
    pub(crate) fn limit(&self) -> u32
        ensures { result ≡ B.config.book }
    {
        self.limit
    }

    /// The book that all see fronts of.
    pub(crate) fn book(&self) -> &Book<B> {
        &self.book
    }

    /// Gives the batch that the proxy asks for its entry, as `SequencerAt::issue` does and refuses.
    pub(crate) fn issue<R: Wait>(
        &self,
        rt: &R,
        proxy: u32,
        asked: BatchMessage<B>,
    ) -> Result<Issued<B>, Refusal> {
        take_lock(rt, &self.sequencer).issue(self.alloc, &self.book, proxy, self.advance, asked)
    }

    /// Tells the sequencer that all logs have the front's last entry. Refused as `SequencerAt::report` refuses it.
    pub(crate) fn report<R: Wait>(
        &self,
        rt: &R,
        logged: LoggedFront<B>,
    ) -> Result<Reported<B>, Refusal>
        ensures { IfOk result (λ reported. reported ≡ logged) }
    {
        take_lock(rt, &self.sequencer).report(logged)
    }

    /// Hands a move to the sequencer, as `SequencerAt::move_to` takes and refuses it.
    pub(crate) fn move_to<R: Wait>(&self, rt: &R, one_move: Move) -> Result<(), Refusal>
        ensures { AnswersMove (is_bad_move B.config one_move) result }
    {
        take_lock(rt, &self.sequencer).move_to(one_move)
    }

    /// Hands a window to the sequencer, as `SequencerAt::set_window` takes and refuses it. It takes no memory.
    pub(crate) fn set_window<R: Wait>(&self, rt: &R, window: u64) -> Result<(), Refusal>
        ensures { AnswersExactly result (set_window_fault window) (λ _. ⊤) }
    {
        take_lock(rt, &self.sequencer).set_window(window)
    }

    /// The greatest version that was reported. It takes no memory.
    pub(crate) fn committed<R: Wait>(&self, rt: &R) -> u64 {
        take_lock(rt, &self.sequencer).committed()
    }

    /// The greatest version that was reported, with a front that reaches it. Refused only as `NoMemory`.
    pub(crate) fn granted<R: Wait>(&self, rt: &R) -> Result<GrantMessage<B>, Refusal> {
        take_lock(rt, &self.sequencer).granted()
    }

    /// The log with the number, if there is one.
    pub(crate) fn log(&self, number: u32) -> Option<&SharedLog<B>> {
        self.logs.get(number as usize)
    }

    /// All logs.
    pub(crate) fn logs(&self) -> &[SharedLog<B>] {
        self.logs.as_slice()
    }

    /// The log that keeps the shard's messages, if there is one.
    pub(crate) fn log_of(&self, tag: u32) -> Option<&SharedLog<B>> {
        let count = self.logs.len();
        if count == 0 {
            return None;
        }
        self.logs.get(tag as usize % count)
    }

    /// The shard with the tag, if there is one.
    pub(crate) fn shard(&self, tag: u32) -> Option<&SharedShard<B>> {
        self.shards.get(tag as usize)
    }

    /// All shards, in the order of their ranges.
    pub(crate) fn shards(&self) -> &[SharedShard<B>] {
        self.shards.as_slice()
    }

    /// The shards from the one on that has the range's begin, in the order of their ranges, which are those that the
    /// range may meet. It takes no memory.
    pub(crate) fn shards_from(&self, range: &KeyRange) -> &[SharedShard<B>] {
        let first = self.shard_map.first_met(range) as usize;
        self.shards.get(first..).unwrap_or(&[])
    }

    /// The shards up to the last one that the range meets, in the order of their ranges. Refused only as `NoMemory`. It
    /// takes two look-ups in the map of the shards, and memory for the copies of four bounds.
    pub(crate) fn shards_until(&self, range: &KeyRange) -> Result<&[SharedShard<B>], Refusal> {
        let count = count_until(self.alloc, &self.shard_map, range.end())?;
        Ok(self.shards.get(..count).unwrap_or(&[]))
    }

    /// The tag of the shard that has the key.
    pub(crate) fn tag_of(&self, key: &Key) -> u32 {
        self.shard_map.shard_of(key)
    }

    /// The commit proxies.
    pub(crate) fn commits(&self) -> &[SharedCommitProxy<B>] {
        self.commits.as_slice()
    }

    /// The read-version proxies.
    pub(crate) fn begins(&self) -> &[SharedReadVersionProxy<B>] {
        self.begins.as_slice()
    }

    /// The resolvers.
    pub(crate) fn resolvers(&self) -> &[SharedResolver<B>] {
        self.resolvers.as_slice()
    }
}

// How many of the shards begin before the bound.
fn count_until(alloc: Global, map: &ShardMap, bound: &[u8]) -> Result<usize, Refusal> {
    let there = owner_of_bound(alloc, map, bound)?;
    // The shard that has the bound has what comes right before it, too, unless it begins there.
    Ok(there as usize + is_begun_before(map, there, bound)? as usize)
}

// The shard that has the bound.
fn owner_of_bound(alloc: Global, map: &ShardMap, bound: &[u8]) -> Result<u32, Refusal> {
    let range = KeyRange::new(alloc, bound, bound)?;
    Ok(map.first_met(&range))
}

// Whether the shard with the tag begins before the bound.
fn is_begun_before(map: &ShardMap, tag: u32, bound: &[u8]) -> Result<bool, Refusal> {
    let range = map.range(tag)?;
    Ok(is_before(range.begin(), bound))
}

/// How many resolvers and how many shards there are. Refused as `BadConfig` where the configuration isn't legal. It
/// takes no memory.
pub(crate) fn resolvers_and_shards(config: &Config) -> Result<(u32, u32), Refusal>
    ensures answers { AnswersExactly result (config_fault config.now) (λ _. ⊤) }
    ensures counts { IfOk result (λ counts. (counts.0 ≡ suc (length config.now.resolver_splits))
        × (counts.1 ≡ suc (length config.now.shard_splits))) }
{
    config.check()?;
    let resolvers = config.resolver_splits.len() as u32 + 1;
    let shards = config.shard_splits.len() as u32 + 1;
    Ok((resolvers, shards))
}

// The map of the shards, the logs and the shards, which took nothing. Refused only as `NoMemory`.
fn make_logs_and_shards<B: DatabaseName>(
    alloc: Global,
    book: &Book<B>,
    config: &Config,
    tags: u32,
) -> Result<(ShardMap, Vec<SharedLog<B>>, Vec<SharedShard<B>>), Refusal>
    requires config { config.now ≡ B.config }
    requires legal { config_fault B.config ≡ None }
    requires tags { tags ≡ suc (length B.config.shard_splits) }
    ensures answers { Answers result None (λ _. ⊤) }
    ensures map { IfOk result (λ made. made.0 ≡ B.config.shard_splits) }
{
    let shard_map = ShardMap::new(alloc, config.shard_splits.as_slice())?;
    let logs = make_logs(alloc, book, config.logs, tags)?;
    let shards = make_shards(alloc, book, &shard_map, tags)?;
    Ok((shard_map, logs, shards))
}

// The logs, each of which took nothing. Refused only as `NoMemory`.
fn make_logs<B: DatabaseName>(
    alloc: Global,
    book: &Book<B>,
    logs: u32,
    tags: u32,
) -> Result<Vec<SharedLog<B>>, Refusal>
    requires legal { config_fault B.config ≡ None }
    requires logs { logs ≡ B.config.logs }
    requires tags { tags ≡ suc (length B.config.shard_splits) }
    ensures { Answers result None (λ _. ⊤) }
{
    let mut made = Vec::with_capacity(alloc, logs as usize)?;
    for number in 0..logs {
        let at = LogAt::new(alloc, book, number, logs, tags)?;
        made.push(SharedLog::new(at))?;
    }
    Ok(made)
}

// The shards, each of which applied nothing. Refused only as `NoMemory`.
fn make_shards<B: DatabaseName>(
    alloc: Global,
    book: &Book<B>,
    map: &ShardMap,
    tags: u32,
) -> Result<Vec<SharedShard<B>>, Refusal>
    requires map { map.now ≡ B.config.shard_splits }
    requires tags { tags ≡ suc (length B.config.shard_splits) }
    ensures { Answers result None (λ _. ⊤) }
{
    let mut made = Vec::with_capacity(alloc, tags as usize)?;
    for tag in 0..tags {
        let range = map.range(tag)?;
        let at = ShardAt::new(alloc, book, tag, range)?;
        made.push(SharedShard::new(at))?;
    }
    Ok(made)
}

// The resolvers and the commit proxies, which took nothing, each tied to each of the others by a channel for verdicts.
// Refused only as `NoMemory`.
fn make_tied<B: DatabaseName, R: Wait>(
    rt: &R,
    alloc: Global,
    book: &Book<B>,
    config: &Config,
    resolvers: u32,
) -> Result<(Vec<SharedResolver<B>>, Vec<SharedCommitProxy<B>>), Refusal>
    requires config { config.now ≡ B.config }
    requires legal { config_fault B.config ≡ None }
    requires resolvers { resolvers ≡ suc (length B.config.resolver_splits) }
    ensures { Answers result None (λ _. ⊤) }
{
    let mut roles = resolver_roles(alloc, book, resolvers)?;
    let commits = make_commits(rt, alloc, book, config, resolvers, roles.as_mut_slice());
    both(share_all(alloc, roles), commits)
}

// The commit proxies, which nobody has asked, and which are tied to the resolvers. Refused only as `NoMemory`.
fn make_commits<B: DatabaseName, R: Wait>(
    rt: &R,
    alloc: Global,
    book: &Book<B>,
    config: &Config,
    resolvers: u32,
    roles: &mut [ResolverRole<B>],
) -> Result<Vec<SharedCommitProxy<B>>, Refusal>
    requires config { config.now ≡ B.config }
    requires legal { config_fault B.config ≡ None }
    requires resolvers { length roles.old ≡ resolvers }
    ensures { Answers result None (λ _. ⊤) }
{
    let mut made = Vec::with_capacity(alloc, config.proxies as usize)?;
    for number in 0..config.proxies {
        let verdicts = tie_all(rt, alloc, roles)?;
        let role = CommitRole::new(alloc, book, number, config, resolvers, verdicts)?;
        made.push(SharedRole::new(alloc, role))?;
    }
    Ok(made)
}

// The read-version proxies, which nobody has asked. Refused only as `NoMemory`.
fn make_begins<B: DatabaseName>(
    alloc: Global,
    proxies: u32,
) -> Result<Vec<SharedReadVersionProxy<B>>, Refusal>
    ensures { Answers result None (λ _. ⊤) }
{
    let mut made = Vec::with_capacity(alloc, proxies as usize)?;
    for _made in 0..proxies {
        made.push(SharedRole::new(alloc, ReadVersionRole::new(alloc)))?;
    }
    Ok(made)
}

// The resolvers, each of which took nothing, and is tied to no commit proxy yet. Refused only as `NoMemory`.
fn resolver_roles<B: DatabaseName>(
    alloc: Global,
    book: &Book<B>,
    resolvers: u32,
) -> Result<Vec<ResolverRole<B>>, Refusal>
    requires { resolvers ≡ suc (length B.config.resolver_splits) }
    ensures answers { Answers result None (λ _. ⊤) }
    ensures count { IfOk result (λ roles. length roles.items ≡ resolvers) }
{
    let mut made = Vec::with_capacity(alloc, resolvers as usize)?;
    for number in 0..resolvers {
        let at = ResolverAt::new(alloc, book, number)?;
        made.push(ResolverRole::new(alloc, number, at))?;
    }
    Ok(made)
}

// The resolvers, which threads share from now on. Refused only as `NoMemory`.
fn share_all<B: DatabaseName>(
    alloc: Global,
    roles: Vec<ResolverRole<B>>,
) -> Result<Vec<SharedResolver<B>>, Refusal>
    ensures { Answers result None (λ _. ⊤) }
{
    let mut made = Vec::with_capacity(alloc, roles.len())?;
    for role in roles {
        made.push(share_resolver(alloc, role)?)?;
    }
    Ok(made)
}
