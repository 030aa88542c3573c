// The threads of a database: how they are started and stopped.
ghost use Rattle.std.specs.Prelude.{◌≡◌, ⊤, None};
ghost use Rattle.fdb_keys.specs.Answers.{Answers};

use crate::gate::Gate;
use crate::shared::Shared;
use crate::shared::role::end;
use crate::threads::gated::Gated;
use crate::threads::worker::{join_all, start_all};
use crate::threads::workers::Workers;
use fdb_keys::Refusal;
use fdb_sections::DatabaseName;
use std::alloc::Global;
use std::sync::{Arc, Wait};
use std::thread::{JoinHandle, Threads};

/// The threads that were started. They end once `stop` is called, which gives up this value.
pub(crate) struct Team {
    resolvers: Vec<JoinHandle<()>>,
    shards: Vec<JoinHandle<()>>,
    begins: Vec<JoinHandle<()>>,
    commits: Vec<JoinHandle<()>>,
}

impl Team {
    /// None was started. It takes no memory.
    pub(crate) fn new(alloc: Global) -> Self {
        Team {
            resolvers: Vec::new(alloc),
            shards: Vec::new(alloc),
            begins: Vec::new(alloc),
            commits: Vec::new(alloc),
        }
    }

    /// Starts a thread for each of the workers, and leaves none. Refused as `NoMemory`, and then some of them may have
    /// been started, and others be left.
    pub(crate) fn start<
        B: DatabaseName + Send + Sync + 'static,
        G: Gate + 'static,
        R: Threads + Wait + Copy + Send + Sync + 'static,
    >(&mut self, rt: &R, gated: &Arc<Gated<B, G>>, workers: &mut Workers) -> Result<(), Refusal>
        ensures { Answers result None (λ _. ⊤) }
    {
        start_all(rt, gated, &mut workers.resolvers, &mut self.resolvers)?;
        start_all(rt, gated, &mut workers.shards, &mut self.shards)?;
        start_all(rt, gated, &mut workers.begins, &mut self.begins)?;
        start_all(rt, gated, &mut workers.commits, &mut self.commits)
    }

    /// Refuses what waits as `Closed`, lets the batches in flight end and the shards pull what the logs have, and waits
    /// for the end of all threads. Workers that were left are dropped before: some that were started wait for what they
    /// have of channels. It takes no memory.
    pub(crate) fn stop<B: DatabaseName, R: Threads + Wait>(self, rt: &R, shared: &Shared<B>) {
        let Team {
            resolvers,
            shards,
            begins,
            commits,
        } = self;
        // All that waits is refused before the first thread is waited for.
        for proxy in shared.commits() {
            end(rt, shared, proxy, Refusal::Closed);
        }
        for proxy in shared.begins() {
            end(rt, shared, proxy, Refusal::Closed);
        }
        join_all(rt, commits);
        join_all(rt, begins);
        for resolver in shared.resolvers() {
            end(rt, shared, resolver, Refusal::Closed);
        }
        join_all(rt, resolvers);
        for log in shared.logs() {
            log.end(rt, Refusal::Closed);
        }
        join_all(rt, shards);
        for shard in shared.shards() {
            shard.end(rt, Refusal::Closed);
        }
    }
}
