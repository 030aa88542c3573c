ghost use Rattle.std.specs.Prelude.{⊤, None};
ghost use Rattle.fdb_keys.specs.Answers.{Answers};

use crate::shared::slot::Slot;
use fdb_keys::Refusal;
use fdb_sections::{CommitReply, DatabaseName, GrantReply};
use std::alloc::Global;
use std::sync::{Arc, Wait};

/// Where a session gets its replies, one slot for each kind.
#[derive(Drop)]
pub(crate) struct Slots<B: DatabaseName> {
    grants: Arc<Slot<GrantReply<B>>>,
    outcomes: Arc<Slot<CommitReply<B>>>,
}

impl<B: DatabaseName> Slots<B> {
    /// Slots without a reply. Refused only as `NoMemory`.
    pub(crate) fn new(alloc: Global) -> Result<Self, Refusal>
        ensures { Answers result None (λ _. ⊤) }
    {
        let grants = Arc::new(alloc, Slot::new())?;
        let outcomes = Arc::new(alloc, Slot::new())?;
        Ok(Slots { grants, outcomes })
    }

    /// A share of the slot for read versions. Refused only as `NoMemory`.
    pub(crate) fn grants(&self) -> Result<Arc<Slot<GrantReply<B>>>, Refusal>
        ensures { Answers result None (λ _. ⊤) }
    {
        Ok(Arc::try_clone(&self.grants)?)
    }

    /// A share of the slot for what became of a transaction. Refused only as `NoMemory`.
    pub(crate) fn outcomes(&self) -> Result<Arc<Slot<CommitReply<B>>>, Refusal>
        ensures { Answers result None (λ _. ⊤) }
    {
        Ok(Arc::try_clone(&self.outcomes)?)
    }

    /// The reply to the last request for a read version, once it has come. It takes no memory.
    pub(crate) fn next_grant<R: Wait>(&self, rt: &R) -> Option<GrantReply<B>> {
        self.grants.take(rt)
    }

    /// The reply to the last request for a commit, once it has come. It takes no memory.
    pub(crate) fn next_outcome<R: Wait>(&self, rt: &R) -> Option<CommitReply<B>> {
        self.outcomes.take(rt)
    }
}
