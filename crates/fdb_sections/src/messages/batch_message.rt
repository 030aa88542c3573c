ghost use Rattle.std.specs.Prelude.{◌≡◌};
ghost use Rattle.fdb_sections.specs.Asking.{AreAsked};

use crate::known_front::KnownFront;
use crate::name::DatabaseName;
use fdb_txn::Batch;
use std::marker::Model;

/// What a commit proxy asks the sequencer: to give a batch its entry, each transaction of which is asked for at the
/// front.
#[derive(Drop)]
pub struct BatchMessage<B: DatabaseName> {
    pub(crate) front: KnownFront<B>,
    pub(crate) batch: Batch,
}

impl<B: DatabaseName> Model for BatchMessage<B> {
    ghost use Rattle.fdb_sections.specs.Asking.{BatchAtFront, AreAsked};

    ghost Value = { BatchAtFront };

    ghost view = { λ asked. record { front = asked.front; batch = asked.batch } };

    ghost invariant = { λ asked. ∥ AreAsked B.allows B.config.resolver_splits asked.front asked.batch ∥₁ };
}

impl<B: DatabaseName> BatchMessage<B> {
    /// The batch whose transactions are asked for at the front. It takes no memory.
    pub(crate) fn new(front: KnownFront<B>, batch: Batch) -> Self
        requires { ∥ AreAsked B.allows B.config.resolver_splits front batch ∥₁ }
        ensures { result ≡ record { front = front; batch = batch } }
    {
        BatchMessage { front, batch }
    }
}
