ghost use Rattle.std.specs.Prelude.{◌≡◌, ◌==◌, ◌⊎◌, [], suc, length, IsSome, OnOk, OnErr};
ghost use Rattle.fdb_keys.specs.Answers.{Answers, AnswersExactly};
ghost use Rattle.fdb_log.specs.Logs.{IsNewLog, config_fault, push_fault, tag_fault, peek_fault, peek_of, HasTaken};
ghost use Rattle.fdb_log.specs.Logs.{HasFailed, HasPopped};
ghost use Rattle.fdb_sections.specs.Turns.{front_fault, AnswersInTurn};

use crate::known_front::KnownFront;
use crate::messages::log_message::LogMessage;
use crate::messages::peek_message::PeekMessage;
use crate::name::DatabaseName;
use fdb_book::Book;
use fdb_keys::Refusal;
use fdb_log::{LogAck, LogCore};
use std::alloc::Global;
use std::marker::Model;

/// A log's acknowledgement, which `LogAt::push` alone makes: the log took the last entry of the front.
#[derive(Drop)]
pub struct AckMessage<B: DatabaseName> {
    front: KnownFront<B>,
    ack: LogAck,
}

impl<B: DatabaseName> Model for AckMessage<B> {
    ghost use Rattle.fdb_sections.specs.Messages.{AckAtFront, IsLastAck};

    ghost Value = { AckAtFront };

    ghost view = { λ sent. record { front = sent.front; ack = sent.ack } };

    ghost invariant = { λ sent. IsLastAck B.config (record { front = sent.front; ack = sent.ack }) };
}

impl<B: DatabaseName> AckMessage<B> {
    /// What is acknowledged. It takes no memory, and O(1) time.
    pub(crate) fn ack(&self) -> LogAck
        ensures { result ≡ self.now.ack }
    {
        self.ack
    }

    /// Whether it comes with a front as long as this one. It takes no memory, and O(1) time.
    pub(crate) fn is_of(&self, front: &KnownFront<B>) -> bool
        ensures { result ≡ (length self.now.front == length front.now) }
    {
        self.front.len() == front.len()
    }
}

/// A log, which took the entries of its front.
#[derive(Drop)]
pub struct LogAt<B: DatabaseName> {
    front: KnownFront<B>,
    state: LogCore,
}

impl<B: DatabaseName> Model for LogAt<B> {
    ghost use Rattle.std.specs.Prelude.{◌≡◌, ◌<◌, false};
    ghost use Rattle.fdb_roles.specs.AtBook.{IsLogAt};
    ghost use Rattle.fdb_sections.specs.RolesAtFronts.{LogAtFront};

    ghost Value = { LogAtFront };

    ghost view = { λ at. record { front = at.front; state = at.state } };

    ghost invariant = { λ at. (at.state.log < B.config.logs)
        × (at.state.is_failed ≡ false → IsLogAt B.config at.front at.state.log at.state) };
}

impl<B: DatabaseName> LogAt<B> {
    /// The log with the number, which took nothing. There are as many logs as the configuration says, and a tag for
    /// each of its shards. Refused as `BadConfig` where there is no log with the number, or the configuration has no
    /// legal numbers of logs and shards, and as `NoMemory`.
    pub fn new(
        alloc: Global,
        book: &Book<B>,
        log: u32,
        logs: u32,
        tags: u32,
    ) -> Result<Self, Refusal>
        requires logs { logs ≡ B.config.logs }
        requires tags { tags ≡ suc (length B.config.shard_splits) }
        ensures { Answers result (config_fault log logs tags)
            (λ at. (at.front ≡ []) × IsNewLog log logs tags at.state) }
    {
        let state = LogCore::new(alloc, log, logs, tags)?;
        let front = KnownFront::empty(alloc, book)?;
        Ok(LogAt { front, state })
    }

    /// The version of the last entry that it took, 0 at first. It takes no memory, and O(1) time.
    pub(crate) fn version(&self) -> u64
        ensures { result ≡ self.now.state.last }
    {
        self.state.version()
    }

    /// Whether memory ran out in `push`. It takes no memory, and O(1) time.
    pub(crate) fn is_failed(&self) -> bool
        ensures { result ≡ self.now.state.is_failed }
    {
        self.state.is_failed()
    }

    /// Takes its message of the next entry. Refused as `Stale` where it took the message's entry before, as `NotYet`
    /// with the version of the last entry that it took where one in between is missing, as `Unknown` where the message
    /// is another log's, as `Failed` once it has failed, and as `NoMemory`. It stays where it was, unless memory ran
    /// out for the message: then it has failed. It takes the time of a copy of the message.
    pub(crate) fn push(&mut self, message: &LogMessage<B>) -> Result<AckMessage<B>, Refusal>
        ensures answers { AnswersInTurn result (front_fault self.old.front message.now.front)
            (push_fault self.old.state message.now.message)
            (λ sent. (sent.front ≡ message.now.front)
            × (sent.ack ≡ record { log = self.old.state.log; index = message.now.message.index })) }
        ensures next { OnOk result (self.new.front ≡ message.now.front) }
        ensures taken { OnOk result (HasTaken self.old.state message.now.message self.new.state) }
        ensures other_turn { IsSome (front_fault self.old.front message.now.front) → self.new ≡ self.old }
        ensures unfit { IsSome (push_fault self.old.state message.now.message) → self.new ≡ self.old }
        ensures refused { OnErr result ((self.new ≡ self.old)
            ⊎ ((self.new.front ≡ self.old.front) × HasFailed self.old.state self.new.state)) }
    {
        self.front.check_next(&message.front)?;
        let front = message.front.share()?;
        let sent = message.front.share()?;
        let ack = self.state.push(&message.message)?;
        self.front = front;
        Ok(AckMessage { front: sent, ack })
    }

    /// The first `limit` of the tag's messages after a version, with the log's front. A limit of 0 gives none. Refused
    /// as `Failed` once it has failed, as `BadConfig` where the tag isn't kept here or the version is above that of the
    /// last entry taken, as `TransactionTooOld` where it is below the one through which the tag was popped, and as
    /// `NoMemory`.
    pub(crate) fn peek(&self, tag: u32, after: u64, limit: u32) -> Result<PeekMessage<B>, Refusal>
        ensures { Answers result (peek_fault self.now.state tag after)
            (λ given. (given.front ≡ self.now.front) × (given.peek ≡ peek_of self.now.state tag after limit)) }
    {
        let peek = self.state.peek(tag, after, limit)?;
        let front = self.front.share()?;
        Ok(PeekMessage { front, peek })
    }

    /// Drops the tag's messages through a version. It takes no memory. Refused as `Failed` once it has failed, and as
    /// `BadConfig` where the tag isn't kept here or the version is above that of the last entry taken.
    pub(crate) fn pop(&mut self, tag: u32, through: u64) -> Result<(), Refusal>
        ensures answers { AnswersExactly result (tag_fault self.old.state tag through)
            (λ _. HasPopped self.old.state tag through self.new.state) }
        ensures stays { self.new.front ≡ self.old.front }
        ensures refused { OnErr result (self.new ≡ self.old) }
    {
        self.state.pop(tag, through)
    }
}
