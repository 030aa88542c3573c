// A resolver takes its part of an entry.
ghost use Rattle.fdb_machine.specs.declared.step.AnyStep.TheVariants as step;
ghost use Rattle.fdb_core.specs.refinement.Restoring.{Tied};
ghost use Rattle.fdb_core.specs.refinement.Steps.{Takes};

use crate::cluster::Cluster;
use fdb_keys::Refusal;
use fdb_machine::Answered;

impl Cluster {
    #[tactic(auto, unfolding(fdb_machine::specs::machine::RoleSteps::resolves))]
    pub(crate) fn resolve(&mut self, entry: u32, resolver: u32) -> Result<Answered, Refusal>
        requires { Tied self.old }
        ensures { Takes self.old (step.Resolve entry resolver) result self.new }
    {
        let (i, of) = (entry as usize, resolver as usize);
        if i >= self.book.len() || of >= self.resolvers.len() {
            return Err(Refusal::Unknown);
        }
        if self.resolvers[of].state.is_failed() {
            return Err(Refusal::Failed);
        }
        let taken = self.resolvers[of].taken;
        if entry < taken {
            return Err(Refusal::Stale);
        }
        if taken < entry {
            return Err(Refusal::NotYet(self.book[i].prev));
        }
        let role = &mut self.resolvers[of];
        let answer = role.take(self.alloc, &self.parts[i].as_slice()[of])?;
        Ok(Answered::Verdicts(answer))
    }
}
