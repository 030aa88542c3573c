ghost use Rattle.std.specs.Prelude.{◌≡◌, ◌+◌, ◌<◌, ◌⊎◌, ⊤, [], suc, true, false, length, None, IsSome, IsNone, OnErr};
ghost use Rattle.fdb_book.specs.Fronts.{IsPrefix};
ghost use Rattle.fdb_keys.specs.Answers.{Answers, AnswersExactly};
ghost use Rattle.fdb_txn.specs.book.Book.{last_version};
ghost use Rattle.fdb_txn.specs.book.History.{AreEntries};
ghost use Rattle.fdb_txn.specs.rules.Splits.{piece};
ghost use Rattle.fdb_storage.specs.Shards.{IsNewShard, HasFailed, HasForgotten, forget_fault, read_fault};
ghost use Rattle.fdb_roles.specs.AtBook.{IsShardAt};
ghost use Rattle.fdb_sections.specs.ShardsAtFronts.{peek_fault, shorter_fault, HasGoneOn, IsThere};

use crate::known_front::KnownFront;
use crate::messages::peek_message::PeekMessage;
use crate::name::DatabaseName;
use fdb_book::Book;
use fdb_keys::{KeyRange, Refusal};
use fdb_storage::Shard;
use fdb_txn::check_turn;
use std::alloc::Global;
use std::marker::Model;

pub(crate) mod gathering;
pub(crate) mod lent_shards;
pub(crate) mod reader;
pub(crate) mod view;

/// A shard, which applied the entries of its front. Its tag is kept beside the state, which doesn't tell it.
#[derive(Drop)]
pub struct ShardAt<B: DatabaseName> {
    tag: u32,
    front: KnownFront<B>,
    shard: Shard,
}

impl<B: DatabaseName> Model for ShardAt<B> {
    ghost use Rattle.std.specs.Prelude.{◌≡◌};
    ghost use Rattle.fdb_sections.specs.ShardsAtFronts.{ShardAtFront, IsThere};

    ghost Value = { ShardAtFront };

    ghost view = { λ at. record { front = at.front; shard = at.shard } };

    ghost invariant = { λ at. (at.tag ≡ at.shard.tag)
        × IsThere B.config (record { front = at.front; shard = at.shard }) };
}

impl<B: DatabaseName> ShardAt<B> {
    /// The shard of the range with the number, which applied nothing. The range is that piece of the keys between the
    /// configuration's splits. Refused only as `NoMemory`.
    pub fn new(alloc: Global, book: &Book<B>, tag: u32, range: KeyRange) -> Result<Self, Refusal>
        requires exists { tag < suc (length B.config.shard_splits) }
        requires its { range ≡ piece B.config.shard_splits tag }
        ensures { Answers result None (λ at. (at.front ≡ []) × IsNewShard tag range at.shard) }
    {
        let front = KnownFront::empty(alloc, book)?;
        let shard = Shard::new(alloc, tag, range);
        Ok(ShardAt { tag, front, shard })
    }

    /// The greatest version that the shard serves, which is that of its front unless it has failed. It takes no memory,
    /// and O(1) time.
    pub(crate) fn version(&self) -> u64
        ensures value { result ≡ self.now.shard.version }
        ensures reached { self.now.shard.is_failed ≡ false → result ≡ last_version self.now.front }
    {
        self.know_there();
        self.shard.version()
    }

    /// The range of keys that the shard holds. It takes no memory, and O(1) time.
    pub(crate) fn range(&self) -> &KeyRange
        ensures { result.now ≡ self.now.shard.range }
    {
        self.shard.range()
    }

    /// Refused as a read of what the shard holds is at the version: as `Failed` once memory ran out in `apply`, as
    /// `TransactionTooOld` where the version is below the floor, and as `FutureVersion` where it is above the shard's.
    /// It takes no memory, and O(1) time.
    pub fn check_version(&self, version: u64) -> Result<(), Refusal>
        ensures { AnswersExactly result (read_fault self.now.shard true version) (λ _. ⊤) }
    {
        if self.shard.is_failed() {
            return Err(Refusal::Failed);
        }
        if version < self.shard.floor() {
            return Err(Refusal::TransactionTooOld);
        }
        if self.shard.version() < version {
            return Err(Refusal::FutureVersion);
        }
        Ok(())
    }

    /// Whether memory ran out in `apply`. It takes no memory, and O(1) time.
    pub(crate) fn is_failed(&self) -> bool
        ensures value { result ≡ self.now.shard.is_failed }
        ensures works { result ≡ false → IsShardAt B.config self.now.front self.now.shard.tag self.now.shard }
    {
        self.know_there();
        self.shard.is_failed()
    }

    // It applied the entries of its front unless it has failed. It does nothing but say so.
    fn know_there(&self)
        ensures { IsThere B.config self.now }
    {
        let _front = &self.front;
    }

    // Refused where the log that gave the peek took fewer entries than the shard applied.
    fn check_front(&self, other: &KnownFront<B>) -> Result<(), Refusal>
        ensures answers { AnswersExactly result (shorter_fault self.now.front other.now)
            (λ _. IsPrefix self.now.front other.now) }
        ensures entries { AreEntries (suc (length B.config.resolver_splits)) 0 other.now }
    {
        other.know_entries();
        self.front.know_one_book(other);
        if other.len() < self.front.len() {
            return Err(Refusal::Stale);
        }
        Ok(())
    }

    // Refused as `apply` is, but for memory.
    fn check_peek(&self, message: &PeekMessage<B>) -> Result<(), Refusal>
        ensures answers { AnswersExactly result (peek_fault self.now message.now)
            (λ _. IsPrefix self.now.front message.now.front) }
        ensures entries { AreEntries (suc (length B.config.resolver_splits)) 0 message.now.front }
    {
        self.check_front(&message.front)?;
        if message.peek.tag != self.tag {
            return Err(Refusal::Unknown);
        }
        if self.shard.is_failed() {
            return Err(Refusal::Failed);
        }
        check_turn(self.shard.version(), message.peek.after)
    }

    /// Applies the messages that its log gave of its tag after its version. Refused as `Stale` where the log took fewer
    /// entries than the shard applied, else as `Unknown` where they are another tag's, as `Failed` once memory ran out
    /// in it, as `Stale` where they begin after an earlier version than the shard's, as `NotYet` with the version after
    /// which they begin where that is a later one, and as `NoMemory`. It stays where it was unless memory ran out in
    /// it, after which it has failed.
    pub(crate) fn apply(&mut self, message: &PeekMessage<B>) -> Result<(), Refusal>
        ensures answers { Answers result (peek_fault self.old message.now)
            (λ _. HasGoneOn self.old message.now self.new) }
        ensures refused { IsSome (peek_fault self.old message.now) → self.new ≡ self.old }
        ensures front { OnErr result (self.new.front ≡ self.old.front) }
        ensures failed { IsNone (peek_fault self.old message.now)
            → OnErr result ((self.new.shard ≡ self.old.shard) ⊎ HasFailed self.old.shard self.new.shard) }
    {
        self.check_peek(message)?;
        // The sum is no more than that front's length.
        message.front.know_len();
        let count = self.front.len() + message.peek.messages.len();
        let front = message.front.cut(count)?;
        self.shard.apply(&message.peek)?;
        self.front = front;
        Ok(())
    }

    /// Raises the floor to the version, if it isn't above it already: earlier versions are no longer served. Its front
    /// stays. It takes no memory. Refused as `Failed` once memory ran out in it, and as `FutureVersion` where the
    /// version is above the shard's; then nothing changes.
    pub(crate) fn forget(&mut self, version: u64) -> Result<(), Refusal>
        ensures answers { AnswersExactly result (forget_fault self.old.shard version)
            (λ _. HasForgotten self.old.shard version self.new.shard) }
        ensures front { self.new.front ≡ self.old.front }
        ensures refused { OnErr result (self.new ≡ self.old) }
    {
        self.shard.forget(version)
    }
}
