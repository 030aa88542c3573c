ghost use Rattle.std.specs.Prelude.{◌≡◌, ◌&&◌, ◌⊎◌, ⊤, not, nat_lt, None, Some, IsNone, IsSome, OnErr};
ghost use Rattle.std.specs.Option.{is_none};
ghost use Rattle.fdb_keys.specs.Answers.{Answers, AnswersExactly};
ghost use Rattle.fdb_keys.specs.Ranges.{in_range};
ghost use Rattle.fdb_storage.specs.Shards.{HasFailed, HasForgotten, forget_fault};
ghost use Rattle.fdb_sections.specs.ShardsAtFronts.{peek_fault, HasGoneOn};
ghost use Rattle.fdb_sections.specs.Waiting.{ended_by, is_closed, reach_fault};

use crate::messages::peek_message::PeekMessage;
use crate::name::DatabaseName;
use crate::roles::shard::ShardAt;
use fdb_keys::{KeyRange, Refusal};

/// A shard beside what its readers wait for.
#[derive(Drop)]
pub struct ShardState<B: DatabaseName> {
    /// The shard.
    pub at: ShardAt<B>,
    /// Why its thread pulls nothing any more, if that is so.
    pub ended: Option<Refusal>,
}

impl<B: DatabaseName> ShardState<B> {
    /// The shard, which goes on. It takes no memory, and O(1) time.
    pub fn new(at: ShardAt<B>) -> Self
        ensures at { result.at ≡ at }
        ensures ended { result.ended ≡ None }
    {
        ShardState { at, ended: None }
    }

    /// The version that the shard has come to. It takes no memory, and O(1) time.
    pub fn version(&self) -> u64
        ensures { result ≡ self.now.at.shard.version }
    {
        self.at.version()
    }

    /// Whether the range goes on behind the shard's own. It takes no memory.
    pub fn is_passed_by(&self, range: &KeyRange) -> bool
        ensures { result ≡ in_range range.now self.now.at.shard.range.end }
    {
        range.contains_text(self.at.range().end())
    }

    /// Whether a reader at the version waits on. It takes no memory, and O(1) time.
    pub fn is_behind(&self, version: u64) -> bool
        ensures { result
            ≡ is_none self.now.ended && not self.now.at.shard.is_failed && nat_lt self.now.at.shard.version version }
    {
        self.ended.is_none() && !self.at.is_failed() && self.at.version() < version
    }

    /// Refused where the shard doesn't come to the version any more, and where the database is closed. It takes no
    /// memory, and O(1) time.
    pub fn check(&self, version: u64) -> Result<(), Refusal>
        ensures { AnswersExactly result (reach_fault self.now.ended self.now.at.shard.version version) (λ _. ⊤) }
    {
        let Some(why) = self.ended else {
            return Ok(());
        };
        if is_closed(why) || self.at.version() < version {
            return Err(why);
        }
        Ok(())
    }

    /// Applies what its log gave, as `ShardAt::apply` does and refuses.
    pub fn apply(&mut self, given: &PeekMessage<B>) -> Result<(), Refusal>
        ensures answers { Answers result (peek_fault self.old.at given.now)
            (λ _. HasGoneOn self.old.at given.now self.new.at) }
        ensures refused { IsSome (peek_fault self.old.at given.now) → self.new.at ≡ self.old.at }
        ensures failed { IsNone (peek_fault self.old.at given.now)
            → OnErr result ((self.new.at.shard ≡ self.old.at.shard) ⊎ HasFailed self.old.at.shard self.new.at.shard) }
        ensures kept { OnErr result
            ((self.new.at.shard ≡ self.old.at.shard) ⊎ HasFailed self.old.at.shard self.new.at.shard) }
        ensures ended { self.new.ended ≡ self.old.ended }
    {
        self.at.apply(given)
    }

    /// Raises the floor to the version, if it isn't above it already, as `ShardAt::forget` does and refuses. It takes
    /// no memory.
    pub fn forget(&mut self, version: u64) -> Result<(), Refusal>
        ensures answers { AnswersExactly result (forget_fault self.old.at.shard version)
            (λ _. HasForgotten self.old.at.shard version self.new.at.shard) }
        ensures refused { OnErr result (self.new.at ≡ self.old.at) }
        ensures ended { self.new.ended ≡ self.old.ended }
    {
        self.at.forget(version)
    }

    /// The shard's thread pulls nothing any more, for the first reason that was given; but once the database is closed,
    /// for that, unless memory ran out in the shard. It takes no memory, and O(1) time.
    pub fn end(&mut self, why: Refusal)
        ensures ended { self.new.ended ≡ ended_by self.old.at.shard.is_failed self.old.ended why }
        ensures at { self.new.at ≡ self.old.at }
    {
        if self.ended.is_none() || (is_closed(why) && !self.at.is_failed()) {
            self.ended = Some(why);
        }
    }
}

// Whether it says that the database is closed.
fn is_closed(why: Refusal) -> bool
    ensures { result ≡ is_closed why }
{
    matches!(why, Refusal::Closed)
}
