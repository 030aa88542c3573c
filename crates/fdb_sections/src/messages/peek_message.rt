ghost use Rattle.std.specs.Prelude.{◌≡◌, ◌==◌, length};

use crate::known_front::KnownFront;
use crate::name::DatabaseName;
use fdb_log::Peek;
use std::marker::Model;

/// What a log gives a shard of its tag after a version, with the front that the log took.
#[derive(Drop)]
pub struct PeekMessage<B: DatabaseName> {
    pub(crate) front: KnownFront<B>,
    pub(crate) peek: Peek,
}

impl<B: DatabaseName> Model for PeekMessage<B> {
    ghost use Rattle.fdb_sections.specs.Messages.{PeekAtFront, IsGivenAt};

    ghost Value = { PeekAtFront };

    ghost view = { λ given. record { front = given.front; peek = given.peek } };

    ghost invariant = { λ given. IsGivenAt B.config (record { front = given.front; peek = given.peek }) };
}

impl<B: DatabaseName> PeekMessage<B> {
    /// Whether there is no message in it. It takes no memory, and O(1) time.
    pub fn is_empty(&self) -> bool
        ensures { result ≡ (length self.now.peek.messages == 0) }
    {
        self.peek.messages.is_empty()
    }

    /// The version through which its messages come. It takes no memory, and O(1) time.
    pub fn through(&self) -> u64
        ensures { result ≡ self.now.peek.through }
    {
        self.peek.through
    }
}
