ghost use Rattle.std.specs.Prelude.{◌≡◌};
ghost use Rattle.fdb_sections.specs.Asking.{IsAsked};

use crate::known_front::KnownFront;
use crate::name::DatabaseName;
use fdb_txn::Sealed;
use std::marker::Model;

/// What a session asks its commit proxy: to commit a transaction, with what the session has seen of the book. A
/// transcript made it that the database allows, and that was answered as on the run.
#[derive(Drop)]
pub struct CommitMessage<B: DatabaseName> {
    pub(crate) front: KnownFront<B>,
    pub(crate) sealed: Sealed,
}

impl<B: DatabaseName> Model for CommitMessage<B> {
    ghost use Rattle.fdb_sections.specs.Asking.{AskedAtFront, IsAsked};

    ghost Value = { AskedAtFront };

    ghost view = { λ asked. record { front = asked.front; transaction = asked.sealed } };

    ghost invariant = { λ asked. ∥ IsAsked B.allows B.config.resolver_splits asked.front asked.sealed ∥₁ };
}

impl<B: DatabaseName> CommitMessage<B> {
    /// The transaction that is asked for at the front. It takes no memory.
    pub(crate) fn new(front: KnownFront<B>, sealed: Sealed) -> Self
        requires { ∥ IsAsked B.allows B.config.resolver_splits front sealed ∥₁ }
        ensures { result ≡ record { front = front; transaction = sealed } }
    {
        CommitMessage { front, sealed }
    }
}
