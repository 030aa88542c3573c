// A shard applies what its log has, forgets old versions, and has its log drop what it applied.
ghost use Rattle.fdb_machine.specs.declared.step.AnyStep.TheVariants as step;
ghost use Rattle.fdb_core.specs.refinement.Restoring.{Tied};
ghost use Rattle.fdb_core.specs.refinement.Steps.{Takes};

use crate::cluster::Cluster;
use fdb_keys::Refusal;
use fdb_machine::Answered;

impl Cluster {
    #[tactic(auto, unfolding(fdb_machine::specs::machine::RoleSteps::pulls))]
    pub(crate) fn pull(&mut self, shard: u32, limit: u32) -> Result<Answered, Refusal>
        requires { Tied self.old }
        ensures { Takes self.old (step.Pull shard limit) result self.new }
    {
        let of = shard as usize;
        if of >= self.shards.len() {
            return Err(Refusal::Unknown);
        }
        if self.shards[of].state.is_failed() {
            return Err(Refusal::Failed);
        }
        let from = of % self.logs.len();
        if self.logs[from].state.is_failed() {
            return Err(Refusal::Failed);
        }
        let log = &self.logs[from];
        let role = &mut self.shards[of];
        let peek = log.state.peek(shard, role.state.version(), limit)?;
        role.state.apply(&peek)?;
        role.applied += peek.messages.len() as u32;
        Ok(Answered::Version(role.state.version()))
    }

    #[tactic(auto, unfolding(fdb_machine::specs::machine::RoleSteps::forgets))]
    pub(crate) fn forget(&mut self, shard: u32, version: u64) -> Result<Answered, Refusal>
        requires { Tied self.old }
        ensures { Takes self.old (step.Forget shard version) result self.new }
    {
        let of = shard as usize;
        if of >= self.shards.len() {
            return Err(Refusal::Unknown);
        }
        if self.shards[of].state.is_failed() {
            return Err(Refusal::Failed);
        }
        let role = &mut self.shards[of];
        role.state.forget(version)?;
        Ok(Answered::Version(role.state.floor()))
    }

    #[tactic(auto, unfolding(fdb_machine::specs::machine::RoleSteps::pops))]
    pub(crate) fn pop(&mut self, shard: u32) -> Result<Answered, Refusal>
        requires { Tied self.old }
        ensures { Takes self.old (step.Pop shard) result self.new }
    {
        let of = shard as usize;
        if of >= self.shards.len() {
            return Err(Refusal::Unknown);
        }
        if self.shards[of].state.is_failed() {
            return Err(Refusal::Failed);
        }
        let from = of % self.logs.len();
        if self.logs[from].state.is_failed() {
            return Err(Refusal::Failed);
        }
        let log = &mut self.logs[from];
        let role = &mut self.shards[of];
        let version = role.state.version();
        log.state.pop(shard, version)?;
        role.popped = version;
        Ok(Answered::Version(version))
    }
}
