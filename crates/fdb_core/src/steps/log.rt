// A log takes its message of an entry.
ghost use Rattle.fdb_machine.specs.declared.step.AnyStep.TheVariants as step;
ghost use Rattle.fdb_core.specs.refinement.Restoring.{Tied};
ghost use Rattle.fdb_core.specs.refinement.Steps.{Takes};

use crate::cluster::Cluster;
use fdb_keys::Refusal;
use fdb_machine::Answered;

impl Cluster {
    #[tactic(auto, unfolding(fdb_machine::specs::machine::RoleSteps::pushes))]
    pub(crate) fn push(&mut self, entry: u32, log: u32) -> Result<Answered, Refusal>
        requires { Tied self.old }
        ensures { Takes self.old (step.Push entry log) result self.new }
    {
        let (i, of) = (entry as usize, log as usize);
        if i >= self.messages.len() || of >= self.logs.len() {
            return Err(Refusal::Unknown);
        }
        let Some(messages) = &self.messages[i] else {
            return Err(Refusal::Unknown);
        };
        if self.logs[of].state.is_failed() {
            return Err(Refusal::Failed);
        }
        let role = &mut self.logs[of];
        role.state.push(&messages.as_slice()[of])?;
        role.taken += 1;
        Ok(Answered::Done)
    }
}
