// The batches that the commit proxies have in flight.
ghost use Rattle.std.specs.Prelude.{◌≡◌};
ghost use Rattle.fdb_machine.specs.machine.InFlight.{in_flight};
ghost use Rattle.fdb_core.specs.refinement.Restoring.{Tied};
ghost use Rattle.fdb_core.specs.refinement.Systems.{state_of};

use crate::cluster::Cluster;
use fdb_keys::Refusal;
use fdb_machine::InFlight;

impl Cluster {
    pub(crate) fn in_flight(&self, proxy: u32) -> Result<InFlight, Refusal>
        requires { Tied self.now }
        ensures { result ≡ in_flight (state_of self.now) proxy }
    {
        let at = proxy as usize;
        if at >= self.commit_proxies.len() {
            return Err(Refusal::Unknown);
        }
        let commit_proxy = &self.commit_proxies[at];
        if commit_proxy.state.is_failed() {
            return Err(Refusal::Failed);
        }
        if commit_proxy.is_idle() {
            return Err(Refusal::WrongState);
        }
        Ok(InFlight {
            entry: commit_proxy.entry,
            resolvers: self.resolvers.len() as u32,
            logs: self.logs.len() as u32,
        })
    }
}
