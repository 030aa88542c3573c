// Who works in the threads of a database.
ghost use Rattle.std.specs.Prelude.{◌≡◌, ⊤, None};
ghost use Rattle.fdb_keys.specs.Answers.{Answers};
ghost use Rattle.fdb_proxy.specs.Configs.{config_fault};

use crate::shared::resolvers_and_shards;
use crate::threads::role::{Kind, RoleWorker};
use crate::threads::shard::ShardWorker;
use fdb_keys::Refusal;
use fdb_proxy::Config;
use std::alloc::Global;

/// The workers of all roles that have threads.
#[derive(Drop)]
pub(crate) struct Workers {
    pub(crate) resolvers: Vec<RoleWorker>,
    pub(crate) shards: Vec<ShardWorker>,
    pub(crate) begins: Vec<RoleWorker>,
    pub(crate) commits: Vec<RoleWorker>,
}

impl Workers {
    /// None yet. It takes no memory.
    pub(crate) fn new(alloc: Global) -> Self {
        Workers {
            resolvers: Vec::new(alloc),
            shards: Vec::new(alloc),
            begins: Vec::new(alloc),
            commits: Vec::new(alloc),
        }
    }

    /// Adds those of a database. Refused as `BadConfig` where the configuration isn't legal, and as `NoMemory`; then
    /// some of them may have been added.
    pub(crate) fn add_all(&mut self, config: &Config) -> Result<(), Refusal>
        ensures { Answers result (config_fault config.now) (λ _. ⊤) }
    {
        let (resolvers, shards) = resolvers_and_shards(config)?;
        add_roles(&mut self.resolvers, Kind::Resolver, resolvers)?;
        add_shards(&mut self.shards, shards)?;
        add_roles(&mut self.begins, Kind::ReadVersionProxy, config.proxies)?;
        add_roles(&mut self.commits, Kind::CommitProxy, config.proxies)
    }
}

// Adds those of the roles of the kind with the first numbers. Refused only as `NoMemory`.
fn add_roles(workers: &mut Vec<RoleWorker>, kind: Kind, count: u32) -> Result<(), Refusal>
    ensures { Answers result None (λ _. ⊤) }
{
    for number in 0..count {
        workers.push(RoleWorker { kind, number })?;
    }
    Ok(())
}

// Adds those of the shards with the first tags. Refused only as `NoMemory`.
fn add_shards(workers: &mut Vec<ShardWorker>, count: u32) -> Result<(), Refusal>
    ensures { Answers result None (λ _. ⊤) }
{
    for tag in 0..count {
        workers.push(ShardWorker { tag })?;
    }
    Ok(())
}
