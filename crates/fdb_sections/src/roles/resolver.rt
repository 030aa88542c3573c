ghost use Rattle.std.specs.Prelude.{◌≡◌, ◌<◌, ◌⊎◌, [], suc, length, None, IsSome, IfOk, OnOk, OnErr};
ghost use Rattle.fdb_keys.specs.Answers.{Answers};
ghost use Rattle.fdb_txn.specs.book.Book.{last_version};
ghost use Rattle.fdb_resolver.specs.Resolvers.{part_fault, IsAnswer, HasTaken, HasFailed};
ghost use Rattle.fdb_sections.specs.Turns.{front_fault, AnswersInTurn};

use crate::known_front::KnownFront;
use crate::messages::part_message::PartMessage;
use crate::messages::verdict_message::VerdictMessage;
use crate::name::DatabaseName;
use fdb_book::Book;
use fdb_keys::Refusal;
use fdb_resolver::ResolverCore;
use std::alloc::Global;
use std::marker::Model;

/// A resolver, which took the entries of its front.
#[derive(Drop)]
pub struct ResolverAt<B: DatabaseName> {
    front: KnownFront<B>,
    state: ResolverCore,
}

impl<B: DatabaseName> Model for ResolverAt<B> {
    ghost use Rattle.std.specs.Prelude.{◌≡◌, ◌<◌, suc, false, length};
    ghost use Rattle.fdb_roles.specs.AtBook.{IsResolverAt};
    ghost use Rattle.fdb_sections.specs.RolesAtFronts.{ResolverAtFront};

    ghost Value = { ResolverAtFront };

    ghost view = { λ at. record { front = at.front; state = at.state } };

    ghost invariant = { λ at. (at.state.index < suc (length B.config.resolver_splits))
        × (at.state.is_failed ≡ false → IsResolverAt B.config.resolver_splits at.front at.state.index at.state) };
}

impl<B: DatabaseName> ResolverAt<B> {
    /// The resolver with the number, which took nothing. Refused only as `NoMemory`.
    pub fn new(alloc: Global, book: &Book<B>, index: u32) -> Result<Self, Refusal>
        requires { index < suc (length B.config.resolver_splits) }
        ensures { Answers result None (λ at. (at.front ≡ []) × (at.state.index ≡ index)) }
    {
        Ok(ResolverAt {
            front: KnownFront::empty(alloc, book)?,
            state: ResolverCore::new(alloc, index),
        })
    }

    /// The version of the last entry that it took, 0 at first. It takes no memory, and O(1) time.
    pub fn version(&self) -> u64
        ensures { result ≡ last_version self.now.front }
    {
        self.front.version()
    }

    /// Takes its part of the next entry, and answers what the rule says of it. Refused as `Stale` where it took the
    /// message's entry before, as `NotYet` with the version of the last entry that it took where one in between is
    /// missing, as `Unknown` where the part is another resolver's, as `Failed` once it has failed, and as `NoMemory`.
    /// It stays where it was, unless memory ran out for the verdicts: then it has failed.
    pub fn take(&mut self, message: &PartMessage<B>) -> Result<VerdictMessage<B>, Refusal>
        ensures answers { AnswersInTurn result (front_fault self.old.front message.now.front)
            (part_fault self.old.state message.now.part) (λ sent. (sent.front ≡ message.now.front)
            × IsAnswer self.old.state message.now.part sent.verdicts) }
        ensures next { OnOk result (self.new.front ≡ message.now.front) }
        ensures taken { IfOk result (λ sent. HasTaken self.old.state message.now.part sent.verdicts self.new.state) }
        ensures other_turn { IsSome (front_fault self.old.front message.now.front) → self.new ≡ self.old }
        ensures unfit { IsSome (part_fault self.old.state message.now.part) → self.new ≡ self.old }
        ensures refused { OnErr result ((self.new ≡ self.old)
            ⊎ ((self.new.front ≡ self.old.front) × HasFailed self.old.state self.new.state)) }
    {
        self.front.check_next(&message.front)?;
        let front = message.front.share()?;
        let sent = message.front.share()?;
        let verdicts = self.state.take(&message.part)?;
        self.front = front;
        Ok(VerdictMessage {
            front: sent,
            verdicts,
        })
    }
}
