// What every thread of a database is lent.
ghost use Rattle.std.specs.Prelude.{◌≡◌, ⊤, None};
ghost use Rattle.fdb_keys.specs.Answers.{Answers};

use crate::gate::Pass;
use crate::shared::Shared;
use crate::shared::role::Lent;
use fdb_keys::Refusal;
use fdb_sections::DatabaseName;
use std::sync::Arc;

/// What the threads of a database share, beside the gate that some of them call.
#[derive(Drop)]
pub(crate) struct Gated<B: DatabaseName, G: Pass> {
    pub(crate) shared: Arc<Shared<B>>,
    pub(crate) gate: Arc<G>,
}

impl<B: DatabaseName, G: Pass> Gated<B, G> {
    /// Shares of both, for all threads. Refused only as `NoMemory`.
    pub(crate) fn share(shared: &Arc<Shared<B>>, gate: &Arc<G>) -> Result<Arc<Self>, Refusal>
        ensures { Answers result None (λ _. ⊤) }
    {
        let alloc = shared.alloc;
        let shared = Arc::try_clone(shared)?;
        let gate = Arc::try_clone(gate)?;
        Ok(Arc::new(alloc, Gated { shared, gate })?)
    }

    /// What a role is lent of both.
    pub(crate) fn lend(&self) -> Lent<'_, B, G> {
        Lent {
            shared: &*self.shared,
            gate: &*self.gate,
        }
    }
}
