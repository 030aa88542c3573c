ghost use Rattle.std.specs.Prelude.{◌≡◌, ◌&&◌, not, nat_lt, nat_le, None, Some, Err, IfSome, IfNone, OnErr};
ghost use Rattle.std.specs.Option.{is_none, option_or};
ghost use Rattle.fdb_keys.specs.Answers.{Answers, AnswersExactly};
ghost use Rattle.fdb_log.specs.Logs.{push_fault, tag_fault, peek_fault, peek_of, HasPopped};
ghost use Rattle.fdb_sections.specs.Turns.{front_fault, AnswersInTurn};

use crate::messages::log_message::LogMessage;
use crate::messages::peek_message::PeekMessage;
use crate::name::DatabaseName;
use crate::roles::log::{AckMessage, LogAt};
use fdb_keys::Refusal;

/// A log beside what its users wait for.
#[derive(Drop)]
pub struct LogState<B: DatabaseName> {
    /// The log.
    pub at: LogAt<B>,
    /// Why nothing is pushed any more, if that is so: the database closes, or a role failed.
    pub ended: Option<Refusal>,
}

impl<B: DatabaseName> LogState<B> {
    /// The log, to which may be pushed. It takes no memory, and O(1) time.
    pub fn new(at: LogAt<B>) -> Self
        ensures at { result.at ≡ at }
        ensures ended { result.ended ≡ None }
    {
        LogState { at, ended: None }
    }

    /// Whether a push that comes after the version waits on for those before it. It takes no memory, and O(1) time.
    pub fn is_before(&self, prev: u64) -> bool
        ensures { result
            ≡ is_none self.now.ended && not self.now.at.state.is_failed && nat_lt self.now.at.state.last prev }
    {
        self.ended.is_none() && !self.at.is_failed() && self.at.version() < prev
    }

    /// Whether who has the messages through the version waits on for more. It takes no memory, and O(1) time.
    pub fn is_behind(&self, version: u64) -> bool
        ensures { result
            ≡ is_none self.now.ended && not self.now.at.state.is_failed && nat_le self.now.at.state.last version }
    {
        self.ended.is_none() && !self.at.is_failed() && self.at.version() <= version
    }

    /// Takes a message, unless nothing is pushed any more, which is refused for its reason. Else it is refused as
    /// `LogAt::push` refuses it, and takes the time of a copy of the message.
    pub fn push(&mut self, message: &LogMessage<B>) -> Result<AckMessage<B>, Refusal>
        ensures over { IfSome self.old.ended (λ why. (result ≡ Err why) × (self.new ≡ self.old)) }
        ensures taken { IfNone self.old.ended (AnswersInTurn result (front_fault self.old.at.front message.now.front)
            (push_fault self.old.at.state message.now.message)
            (λ sent. (sent.front ≡ message.now.front)
            × (sent.ack ≡ record { log = self.old.at.state.log; index = message.now.message.index }))) }
        ensures ended { self.new.ended ≡ self.old.ended }
    {
        match self.ended {
            Some(why) => Err(why),
            None => self.at.push(message),
        }
    }

    /// The first `limit` of the tag's messages after a version, with the log's front, as `LogAt::peek` gives and
    /// refuses them.
    pub fn peek(&self, tag: u32, after: u64, limit: u32) -> Result<PeekMessage<B>, Refusal>
        ensures { Answers result (peek_fault self.now.at.state tag after) (λ given.
            (given.front ≡ self.now.at.front) × (given.peek ≡ peek_of self.now.at.state tag after limit)) }
    {
        self.at.peek(tag, after, limit)
    }

    /// Drops the tag's messages through a version. It takes no memory. Refused as `LogAt::pop` refuses it.
    pub fn pop(&mut self, tag: u32, through: u64) -> Result<(), Refusal>
        ensures answers { AnswersExactly result (tag_fault self.old.at.state tag through)
            (λ _. HasPopped self.old.at.state tag through self.new.at.state) }
        ensures ended { self.new.ended ≡ self.old.ended }
        ensures refused { OnErr result (self.new.at ≡ self.old.at) }
    {
        self.at.pop(tag, through)
    }

    /// Nothing is pushed any more, for the first reason that was given. It takes no memory, and O(1) time.
    pub fn end(&mut self, why: Refusal)
        ensures ended { self.new.ended ≡ option_or self.old.ended (Some why) }
        ensures at { self.new.at ≡ self.old.at }
    {
        if self.ended.is_none() {
            self.ended = Some(why);
        }
    }

    /// Why nothing is pushed any more, if that is so. It takes no memory, and O(1) time.
    pub fn ended(&self) -> Option<Refusal>
        ensures { result ≡ self.now.ended }
    {
        self.ended
    }

    /// Whether the log has failed. It takes no memory, and O(1) time.
    pub fn is_failed(&self) -> bool
        ensures { result ≡ self.now.at.state.is_failed }
    {
        self.at.is_failed()
    }
}
