// The parts of a world: the machine's bookkeeping, and what the roles keep for themselves.
ghost use Rattle.std.specs.Prelude.{◌≡◌, suc, [], length, replicate, None, IfOk};
ghost use Rattle.fdb_keys.specs.Answers.{Answers};
ghost use Rattle.fdb_machine.specs.machine.Worlds.{first_state};
ghost use Rattle.fdb_core.specs.refinement.Restoring.{Tied};
ghost use Rattle.fdb_core.specs.refinement.Systems.{state_of};
ghost use Rattle.fdb_core.specs.refinement.commit_proxy.Ties.{IsNewCommitProxy};
ghost use Rattle.fdb_roles.specs.Lists.{Each};
ghost use Rattle.fdb_core.specs.refinement.Starts.{AreNewLogs, AreNewShards, IsNewResolver};
ghost use Rattle.fdb_proxy.specs.Configs.{config_fault};
ghost use Rattle.fdb_sequencer.specs.Sequencer.{fresh};

use crate::roles::client::sessions::Sessions;
use crate::roles::commit_proxy::{CommitProxyRole, new_commit_proxies};
use crate::roles::grv_proxy::new_grv_proxies;
use crate::roles::log::{LogRole, new_logs};
use crate::roles::resolver::{ResolverRole, new_resolvers};
use crate::roles::sequencer::first_sequencer;
use crate::roles::shard::{ShardRole, new_shards};
use fdb_keys::{Items, RangeSet, Refusal};
use fdb_log::LogMsg;
use fdb_proxy::{Config, GrvCore};
use fdb_resolver::Part;
use fdb_roles::Placed;
use fdb_sequencer::SequencerCore;
use fdb_storage::ShardMap;
use fdb_txn::Entry;
use std::alloc::Global;

#[derive(Drop)]
pub(crate) struct Cluster {
    pub(crate) alloc: Global,
    pub(crate) config: Config,
    pub(crate) book: Vec<Entry>,
    // For each entry the number of its proxy, and whether it is decided.
    pub(crate) entry_proxies: Vec<u32>,
    pub(crate) decided: Vec<bool>,
    // For each entry the parts for the resolvers, and once it is decided the messages for the logs.
    pub(crate) parts: Vec<Items<Part>>,
    pub(crate) messages: Vec<Option<Items<LogMsg>>>,
    // For each entry the conflict sets of its places, once it is decided. None has any where no place conflicts.
    pub(crate) conflicts: Vec<Items<RangeSet>>,
    pub(crate) commit_proxies: Vec<CommitProxyRole>,
    pub(crate) resolvers: Vec<ResolverRole>,
    pub(crate) logs: Vec<LogRole>,
    pub(crate) shard_map: ShardMap,
    pub(crate) shards: Vec<ShardRole>,
    pub(crate) grv_proxies: Vec<GrvCore>,
    // What each session is at.
    pub(crate) sessions: Sessions,
    pub(crate) acknowledged: Vec<Placed>,
    // It gives the versions and horizons, and keeps the greatest version that was reported.
    pub(crate) sequencer: SequencerCore,
}

impl Cluster {
    /// The parts before the first step, with the shards of the map. Refused only as `NoMemory`.
    pub(crate) fn new(alloc: Global, config: Config, shard_map: ShardMap) -> Result<Self, Refusal>
        requires served { config_fault config ≡ None }
        requires shard_map { shard_map ≡ config.shard_splits }
        ensures state { Answers result None (λ cluster. state_of cluster ≡ first_state config) }
        ensures tied { IfOk result Tied }
    {
        let (sequencer, resolvers) = new_sequencer_and_resolvers(alloc, &config)?;
        let (logs, shards) = new_logs_and_shards(alloc, &config, &shard_map)?;
        let (commit_proxies, grv_proxies) = new_proxies(alloc, &config)?;
        Ok(Cluster {
            alloc,
            config,
            book: Vec::new(alloc),
            entry_proxies: Vec::new(alloc),
            decided: Vec::new(alloc),
            parts: Vec::new(alloc),
            messages: Vec::new(alloc),
            conflicts: Vec::new(alloc),
            commit_proxies,
            resolvers,
            logs,
            shard_map,
            shards,
            grv_proxies,
            sessions: Sessions::new(alloc),
            sequencer,
            acknowledged: Vec::new(alloc),
        })
    }
}

// The sequencer, which gave no ticket, and the resolvers, which took nothing. Refused only as `NoMemory`.
fn new_sequencer_and_resolvers(
    alloc: Global,
    config: &Config,
) -> Result<(SequencerCore, Vec<ResolverRole>), Refusal>
    requires { config_fault config.now ≡ None }
    ensures { let count = suc (length config.now.resolver_splits) in Answers result None
        (λ made. (made.0 ≡ fresh config.now.proxies count 0) × (length made.1.items ≡ count)
        × Each IsNewResolver made.1.items) }
{
    let count = config.resolver_splits.len() as u32 + 1;
    let sequencer = first_sequencer(alloc, config.proxies, count)?;
    let resolvers = new_resolvers(alloc, count)?;
    Ok((sequencer, resolvers))
}

// The logs and the shards of the configuration, which took nothing. Refused only as `NoMemory`.
fn new_logs_and_shards(
    alloc: Global,
    config: &Config,
    shard_map: &ShardMap,
) -> Result<(Vec<LogRole>, Vec<ShardRole>), Refusal>
    requires served { config_fault config.now ≡ None }
    requires shard_map { shard_map.now ≡ config.now.shard_splits }
    ensures { let splits = config.now.shard_splits in let count = suc (length splits) in Answers result None
        (λ made. AreNewLogs config.now.logs config.now.logs count made.0.items
        × AreNewShards count splits made.1.items) }
{
    let count = config.shard_splits.len() as u32 + 1;
    let logs = new_logs(alloc, config.logs, count)?;
    let shards = new_shards(alloc, shard_map, count)?;
    Ok((logs, shards))
}

// The proxies of both kinds, without batches and with nobody who waits. Refused only as `NoMemory`.
fn new_proxies(
    alloc: Global,
    config: &Config,
) -> Result<(Vec<CommitProxyRole>, Vec<GrvCore>), Refusal>
    requires { config_fault config.now ≡ None }
    ensures { Answers result None (λ made. (length made.0.items ≡ config.now.proxies)
        × Each (λ _. IsNewCommitProxy config.now) made.0.items × (made.1.items ≡ replicate config.now.proxies [])) }
{
    let commit_proxies = new_commit_proxies(alloc, config)?;
    let grv_proxies = new_grv_proxies(alloc, config.proxies)?;
    Ok((commit_proxies, grv_proxies))
}
