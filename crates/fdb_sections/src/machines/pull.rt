// A shard's pull that runs: what its log keeps for the shard is applied, then dropped at the log, and then the shard
// forgets what is too old.
ghost use Rattle.std.specs.Prelude.{◌≡◌, None, IfSome, IfNone};
ghost use Rattle.fdb_sections.specs.declared.machines.pull.Phase.TheVariants as phase;
ghost use Rattle.fdb_sections.specs.Pulls.{next_of, HasPeeked, HasAppliedGiven, HasDropped, HasLetForget, peeked};

use crate::locked::log_state::LogState;
use crate::locked::shard_state::ShardState;
use crate::messages::peek_message::PeekMessage;
use crate::name::DatabaseName;
use fdb_keys::Refusal;
use fdb_txn::WINDOW;
use std::marker::Model;
use std::mem;

// How many messages are pulled at once.
const PULL_LIMIT: u32 = 256;

/// What a shard's pull wants next.
#[derive(Clone, Copy)]
pub enum PullNext {
    /// The log, once it has a message after the version, or has ended.
    Messages(u64),
    /// The shard, which is to apply what the log gave.
    Apply,
    /// The log, which is to drop what was applied.
    Drop,
    /// The shard, which is to forget what is too old.
    Forget,
    /// Nothing any more, for the reason.
    End(Refusal),
}

// How far it is with what the log gives.
#[derive(Clone, Copy)]
enum Phase {
    // The log gave nothing that isn't done with.
    Resting,
    // What it gave isn't applied yet.
    Given,
    // That is applied, and still kept by the log.
    Applied,
    // The log has dropped it.
    Dropped,
    // Nothing is pulled any more.
    Ended(Refusal),
}

/// A shard's pull from its log. The shard and the log stand under locks of their own, and are lent to it one at a time.
#[derive(Drop)]
pub struct PullMachine<B: DatabaseName> {
    tag: u32,
    // The version through which the log's messages were taken.
    through: u64,
    phase: Phase,
    given: Option<PeekMessage<B>>,
}

impl<B: DatabaseName> Model for PullMachine<B> {
    ghost use Rattle.fdb_sections.specs.Pulls.{PullMachine as Seen};

    ghost Value = { Seen };

    ghost view = { λ it. record { tag = it.tag; through = it.through; phase = it.phase; given = it.given } };
}

impl<B: DatabaseName> PullMachine<B> {
    /// The pull of the shard with the tag, which applied nothing. It takes no memory, and O(1) time.
    pub fn new(tag: u32) -> Self
        ensures { result ≡ record { tag = tag; through = 0; phase = phase.Resting; given = None } }
    {
        PullMachine {
            tag,
            through: 0,
            phase: Phase::Resting,
            given: None,
        }
    }

    /// What it wants next. It takes no memory, and O(1) time.
    pub fn next(&self) -> PullNext
        ensures { result ≡ next_of self.now }
    {
        match self.phase {
            Phase::Resting => PullNext::Messages(self.through),
            Phase::Given => PullNext::Apply,
            Phase::Applied => PullNext::Drop,
            Phase::Dropped => PullNext::Forget,
            Phase::Ended(why) => PullNext::End(why),
        }
    }

    /// Takes what the log has for the shard, at most 256 messages. Where that is nothing, the pull has ended, for the
    /// reason for which the log has, and as `Failed` where it hasn't or refuses to say. It takes the time of a peek.
    pub fn peek_at(&mut self, log: &LogState<B>)
        ensures { HasPeeked self.old log.now.at log.now.ended self.new }
    {
        match log.peek(self.tag, self.through, PULL_LIMIT) {
            Ok(given) => self.take(given, log.ended()),
            Err(_why) => self.phase = Phase::Ended(Refusal::Failed),
        }
    }

    // Takes what the log gave, which ended so, if it did.
    fn take(&mut self, given: PeekMessage<B>, ended: Option<Refusal>)
        ensures { self.new ≡ peeked self.old given ended }
    {
        if given.is_empty() {
            drop(given);
            self.phase = Phase::Ended(ended.unwrap_or(Refusal::Failed));
        } else {
            drop(mem::replace(&mut self.given, Some(given)));
            self.phase = Phase::Given;
        }
    }

    /// The shard applies what the log gave. Where it refuses that, the pull has ended as `Failed`. Without anything
    /// given nothing changes. It takes the time of `ShardState::apply`.
    pub fn apply_to(&mut self, shard: &mut ShardState<B>)
        ensures given { IfSome self.old.given (λ given.
            HasAppliedGiven self.old shard.old.at given shard.new.at self.new) }
        ensures none { IfNone self.old.given ((self.new ≡ self.old) × (shard.new.at ≡ shard.old.at)) }
        ensures ended { shard.new.ended ≡ shard.old.ended }
    {
        let Some(given) = mem::replace(&mut self.given, None) else {
            return;
        };
        let applied = shard.apply(&given);
        self.through = given.through();
        drop(given);
        self.phase = match applied {
            Ok(()) => Phase::Applied,
            Err(_why) => Phase::Ended(Refusal::Failed),
        };
    }

    /// The log drops what the shard applied. Where it refuses that, the pull has ended as `Failed`. Before anything is
    /// applied nothing changes. It takes no memory, and the time of `LogState::pop`.
    pub fn drop_at(&mut self, log: &mut LogState<B>)
        ensures dropped { HasDropped self.old log.old.at log.new.at self.new }
        ensures ended { log.new.ended ≡ log.old.ended }
    {
        let Phase::Applied = self.phase else {
            return;
        };
        self.phase = match log.pop(self.tag, self.through) {
            Ok(()) => Phase::Dropped,
            Err(_why) => Phase::Ended(Refusal::Failed),
        };
    }

    /// The shard forgets what lies more than the greatest window below the committed version, if it has come that far.
    /// Before the log has dropped what was applied nothing changes. It takes no memory, and the time of
    /// `ShardState::forget`.
    pub fn forget_in(&mut self, shard: &mut ShardState<B>, committed: u64)
        ensures forgot { HasLetForget self.old committed shard.old.at shard.new.at self.new }
        ensures ended { shard.new.ended ≡ shard.old.ended }
    {
        let Phase::Dropped = self.phase else {
            return;
        };
        let floor = committed.saturating_sub(WINDOW);
        if 0 < floor && floor <= shard.version() {
            let _ = shard.forget(floor);
        }
        self.phase = Phase::Resting;
    }
}
