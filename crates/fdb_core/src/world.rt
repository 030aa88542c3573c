use crate::check::whole::check_all;
use crate::cluster::Cluster;
use fdb_check::CheckFault;
use fdb_client::Txn;
use fdb_keys::{RangeSet, Refusal};
use fdb_machine::{Answered, InFlight, Step};
use fdb_proxy::Config;
use fdb_roles::Placed;
use fdb_storage::ShardMap;
use fdb_txn::Entry;
use std::alloc::Global;
use std::marker::Model;

/// The transaction system: clients and roles as one machine over a list of steps.
#[derive(Drop)]
pub struct World {
    cluster: Cluster,
}

impl Model for World {
    ghost use Rattle.std.specs.Prelude.{◌≡◌, None};
    ghost use Rattle.fdb_proxy.specs.Configs.{config_fault};
    ghost use Rattle.fdb_core.specs.refinement.Cluster.{machine_of};
    ghost use Rattle.fdb_core.specs.refinement.Restoring.{Tied};
    ghost use Rattle.fdb_core.specs.refinement.Systems.{system_of};
    ghost use Rattle.fdb_machine.specs.headline.Serving.{System};
    ghost use Rattle.fdb_machine.specs.invariant.Invariant.{Invariant};
    ghost use Rattle.std.specs.Coded.{codes};
    ghost use Rattle.fdb_core.specs.contracts.roles.client.sessions.Sessions as sessions;

    ghost Value = { System };

    ghost coded = { Prim.hlevel (codes, sessions.the_row.coded) };

    ghost view = { λ world. system_of world.cluster };

    ghost invariant = { λ world.
        Tied world.cluster × Invariant (machine_of world.cluster) × (config_fault world.cluster.config ≡ None) };
}

impl World {
    ghost use Rattle.std.specs.Prelude.{◌≡◌, suc, List, [], ◌∷◌, ◌++◌, length, None, Result, IfOk, MatchResult};
    ghost use Rattle.std.specs.List.{AllByRecursion};
    ghost use Rattle.fdb_keys.specs.Answers.{Answers};
    ghost use Rattle.fdb_keys.specs.declared.refusal.Refusal.{Refusal};
    ghost use Rattle.fdb_proxy.specs.declared.config.Config.{Config};
    ghost use Rattle.fdb_machine.specs.declared.step.Answered.{Answered};
    ghost use Rattle.fdb_machine.specs.machine.AnyStep.{Step};
    ghost use Rattle.std.specs.Option.{option_copied};
    ghost use Rattle.fdb_txn.specs.book.History.{IsBook, IsSealed};
    ghost use Rattle.fdb_machine.specs.machine.Conflicts.{IsConflictOf};
    ghost use Rattle.fdb_machine.specs.machine.InFlight.{in_flight};
    ghost use Rattle.fdb_machine.specs.machine.Sessions.{open_at};
    ghost use Rattle.fdb_machine.specs.headline.Headline.{IsStrictlySerializable};
    ghost use Rattle.fdb_machine.specs.headline.Serving.{RolesKeep};
    ghost use Rattle.fdb_machine.specs.headline.Traces.{IsTraceOf};
    ghost use Rattle.fdb_proxy.specs.Configs.{config_fault};
    ghost use Rattle.fdb_machine.specs.machine.Worlds.{first_state, IsStep};

    /// The world before its first step.
    ///
    /// Refused as `BadConfig` unless there are 1 to 16 proxies of each kind, 1 to 16 logs, 1 to 64 resolvers, 1 to 64
    /// shards and a book of 1 to 1,048,576 entries; splits are keys that rise, none of them empty; and as `NoMemory`.
    pub fn new(alloc: Global, config: Config) -> Result<Self, Refusal>
        ensures started { Answers result (config_fault config) (λ world. world.state ≡ first_state config) }
        ensures roles { IfOk result RolesKeep }
    {
        config.check()?;
        let shard_map = ShardMap::new(alloc, config.shard_splits.as_slice())?;
        let cluster = Cluster::new(alloc, config, shard_map)?;
        Ok(World { cluster })
    }

    /// Takes one step, and answers what the machine answers. A refused step changes nothing. One that uses a role which
    /// has failed is refused as `Failed`, unless it names something that isn't there, which is `Unknown`. Where memory
    /// runs out in the step, the answer is `NoMemory`: then the world is as before, or the role that takes the step has
    /// failed besides, the commit proxy that seals (and then no entry was added), the resolver or the log that takes an
    /// entry, or the shard that pulls. No other step has a role fail, and all other roles go on.
    ///
    /// A read is refused as `AccessedUnreadable` where what it would give is known only once the transaction commits,
    /// since its own `Stamped` wrote it: a get asks no shard then, and a read of a range is first refused as its shards
    /// refuse it. A refused read is none of the transaction's operations.
    ///
    /// Where the world stands for a trace, it then stands for that trace with this step and its answer. Each
    /// transaction that the trace acknowledged is serialized at its spot: it is committed there, and each of its
    /// ordinary reads was answered as when the committed transactions run one at a time from the empty map, by
    /// commit version and place in the batch. It is ordered after all that were acknowledged before it began. And
    /// every shard that hasn't failed answers, at each version that it serves, from the serial map.
    pub fn step(&mut self, step: Step) -> Result<Answered, Refusal>
        ensures step { IsStep self.old.state step result self.new.state }
        ensures roles { RolesKeep self.new }
        ensures headline { (config : Config) (steps : List Step) (answers : List (Result Answered Refusal))
            → IsTraceOf config steps answers self.old.state
            → IsStrictlySerializable config (steps ++ step ∷ []) (answers ++ result ∷ []) self.new }
    {
        let answer = self.take(&step);
        drop(step);
        answer
    }

    pub(crate) fn take(&mut self, step: &Step) -> Result<Answered, Refusal>
        ensures step { IsStep self.old.state step.now result self.new.state }
        ensures roles { RolesKeep self.new }
    {
        self.cluster.step(step)
    }

    /// The batch that the commit proxy of this number has in flight, with the number of resolvers and of logs.
    /// It takes no memory. Refused as `Unknown` where no proxy has the number, as `Failed` where the proxy has failed,
    /// and as `WrongState` where it has no batch in flight.
    pub fn in_flight(&self, proxy: u32) -> Result<InFlight, Refusal>
        ensures { result ≡ in_flight self.now.state proxy }
    {
        self.cluster.in_flight(proxy)
    }

    /// The session's open transaction. There is none where the session has no open transaction.
    pub fn txn(&self, session: u32) -> Option<&Txn>
        ensures { option_copied result ≡ open_at self.now.state.machine.sessions session }
    {
        self.cluster.sessions.open(session)
    }

    /// The conflict set of the session's last transaction: the points at which it conflicts, if it was refused as
    /// `NotCommitted`. There is one from the answer that says so until the session begins another transaction. It takes
    /// no memory, and O(n + m) time for the n entries and the m places of those in which a place conflicts.
    pub fn conflict(&self, session: u32) -> Option<&RangeSet>
        ensures { IsConflictOf self.now.state.machine session (option_copied result) }
    {
        self.cluster.conflict(session)
    }

    /// The configuration of the world.
    pub fn config(&self) -> &Config
        ensures lent { result.now ≡ self.now.state.machine.config }
        ensures legal { config_fault result.now ≡ None }
    {
        &self.cluster.config
    }

    /// The entries of the book, the first one first. With the world's configuration they meet the conditions of
    /// `serial_check`.
    pub fn book(&self) -> &[Entry]
        ensures lent { result.now ≡ self.now.state.machine.book }
        ensures is_book { IsBook (suc (length self.now.state.machine.config.resolver_splits)) result.now }
        ensures each_sealed { AllByRecursion IsSealed result.now }
    {
        self.cluster.book.as_slice()
    }

    /// The acknowledged transactions, in the order in which their clients were told.
    pub fn acknowledged(&self) -> &[Placed]
        ensures { result.now ≡ self.now.state.machine.acknowledged }
    {
        self.cluster.acknowledged.as_slice()
    }

    /// Compares the ordinary replies of every acknowledged transaction, and each shard that hasn't failed at its
    /// version, with the run of one transaction at a time. Answers the number of acknowledged transactions. Nothing
    /// differs, whatever roles have failed, so the check fails only where it lacks memory itself.
    pub fn check(&self) -> Result<u64, CheckFault>
        ensures { MatchResult result (λ count. count ≡ length self.now.state.machine.acknowledged)
            (λ fault. fault ≡ CheckFault.NoMemory) }
    {
        check_all(&self.cluster)
    }
}
