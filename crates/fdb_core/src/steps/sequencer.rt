// Keys go over to another resolver, and the window is set.
ghost use Rattle.fdb_machine.specs.declared.step.AnyStep.TheVariants as step;
ghost use Rattle.fdb_core.specs.refinement.Restoring.{Tied};
ghost use Rattle.fdb_core.specs.refinement.Steps.{Takes};

use crate::cluster::Cluster;
use fdb_keys::{KeyRange, Refusal};
use fdb_machine::Answered;
use fdb_txn::Move;

impl Cluster {
    #[tactic(auto, unfolding(fdb_machine::specs::machine::SequencerSteps::moves))]
    pub(crate) fn move_to(&mut self, range: &KeyRange, to: u32) -> Result<Answered, Refusal>
        requires { Tied self.old }
        ensures { Takes self.old (step.Move range.now to) result self.new }
    {
        let range = range.clone()?;
        self.sequencer.move_to(Move { range, to })?;
        Ok(Answered::Done)
    }

    #[tactic(auto, unfolding(fdb_machine::specs::machine::SequencerSteps::sets_window))]
    pub(crate) fn set_window(&mut self, window: u64) -> Result<Answered, Refusal>
        requires { Tied self.old }
        ensures { Takes self.old (step.Window window) result self.new }
    {
        self.sequencer.set_window(window)?;
        Ok(Answered::Done)
    }
}
