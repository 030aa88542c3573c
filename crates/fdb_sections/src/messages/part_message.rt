ghost use Rattle.std.specs.Prelude.{◌≡◌};

use crate::known_front::KnownFront;
use crate::name::DatabaseName;
use fdb_resolver::Part;
use std::marker::Model;

/// What a resolver is sent: its part of the last entry of the front.
#[derive(Drop)]
pub struct PartMessage<B: DatabaseName> {
    pub(crate) front: KnownFront<B>,
    pub(crate) part: Part,
}

impl<B: DatabaseName> Model for PartMessage<B> {
    ghost use Rattle.fdb_sections.specs.Messages.{PartAtFront, IsLastPart};

    ghost Value = { PartAtFront };

    ghost view = { λ sent. record { front = sent.front; part = sent.part } };

    ghost invariant = { λ sent. IsLastPart B.config.resolver_splits (record { front = sent.front; part = sent.part }) };
}

impl<B: DatabaseName> PartMessage<B> {
    /// The number of the resolver that it is for. It takes no memory, and O(1) time.
    pub fn resolver(&self) -> u32
        ensures { result ≡ self.now.part.resolver }
    {
        self.part.resolver
    }

    /// The number of the part's entry. It takes no memory, and O(1) time.
    pub fn entry(&self) -> u32
        ensures { result ≡ self.now.part.index }
    {
        self.part.index
    }

    /// The version of the entry before the part's, 0 where there is none. It takes no memory, and O(1) time.
    pub fn prev(&self) -> u64
        ensures { result ≡ self.now.part.prev }
    {
        self.part.prev
    }
}
