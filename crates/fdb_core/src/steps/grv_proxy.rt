// Sessions ask a read-version proxy, which serves them.
ghost use Rattle.fdb_machine.specs.invariant.Invariant.{Invariant};
ghost use Rattle.fdb_machine.specs.declared.step.AnyStep.TheVariants as step;
ghost use Rattle.fdb_core.specs.refinement.Cluster.{machine_of};
ghost use Rattle.fdb_core.specs.refinement.Restoring.{Tied};
ghost use Rattle.fdb_core.specs.refinement.Steps.{Takes};

use crate::cluster::Cluster;
use crate::roles::grv_proxy::{are_used_up, serve_all};
use fdb_keys::Refusal;
use fdb_machine::Answered;

impl Cluster {
    #[tactic(auto, unfolding(fdb_machine::specs::machine::GrvProxySteps::asks))]
    pub(crate) fn ask(&mut self, session: u32, proxy: u32) -> Result<Answered, Refusal>
        requires { Tied self.old }
        ensures { Takes self.old (step.Ask session proxy) result self.new }
    {
        let at = proxy as usize;
        if at >= self.grv_proxies.len() {
            return Err(Refusal::Unknown);
        }
        if self.sessions.is_busy(session) {
            return Err(Refusal::WrongState);
        }
        let there = &mut self.grv_proxies[at];
        self.sessions.ask(session, there)?;
        Ok(Answered::Done)
    }

    #[tactic(auto, unfolding(fdb_machine::specs::machine::GrvProxySteps::grants))]
    pub(crate) fn grant(&mut self, proxy: u32) -> Result<Answered, Refusal>
        requires tied { Tied self.old }
        requires named { Invariant (machine_of self.old) }
        ensures { Takes self.old (step.Grant proxy) result self.new }
    {
        let at = proxy as usize;
        if at >= self.grv_proxies.len() {
            return Err(Refusal::Unknown);
        }
        if are_used_up(&self.sessions, self.grv_proxies[at].askers()) {
            return Err(Refusal::Exhausted);
        }
        let granted = self.grv_proxies[at].grant(self.sequencer.committed());
        serve_all(self.alloc, &mut self.sessions, granted.as_slice())?;
        Ok(Answered::Granted(granted))
    }
}
