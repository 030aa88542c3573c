ghost use Rattle.std.specs.Prelude.{◌≡◌, ◌<◌, ◌≤◌, ◌++◌, ℕ, [], ◌∷◌, length, true, false, replicate, slice_get};
ghost use Rattle.std.specs.Prelude.{IfOk, OnOk};
ghost use Rattle.std.specs.List.{AllByRecursion};
ghost use Rattle.std.specs.Option.{unwrap_or};
ghost use Rattle.fdb_txn.specs.Limits.{tag_limit};
ghost use Rattle.fdb_log.specs.Messages.{is_kept, tag_message};
ghost use Rattle.fdb_log.specs.Peeks.{through_after};
ghost use Rattle.fdb_log.specs.Places.{AreListed};
ghost use Rattle.fdb_log.specs.Waiting.{waiting_of};

use crate::held::Held;
use crate::keeper::Keeper;
use crate::message::{LogAck, LogMsg};
use crate::peek::Peek;
use crate::queue::Queue;
use crate::telling::push_told;
use fdb_keys::{Items, Refusal};
use fdb_txn::{LOG_LIMIT, TAG_LIMIT, TagMsg, check_turn};
use std::alloc::{AllocError, Global};
use std::marker::Model;

/// A log: for each tag that it keeps the messages that weren't popped, and the version through which it was popped.
///
/// A mutation with several tags that are kept here stands in several queues, which share its bytes.
#[derive(Drop)]
pub struct LogCore {
    alloc: Global,
    keeper: Keeper,
    last: u64,
    is_failed: bool,
    popped: Vec<u64>,
    // By the number of the tag: none is ever put into the queue of a tag that isn't kept here.
    queues: Vec<Queue>,
    held: Held,
}

impl Model for LogCore {
    ghost use Rattle.fdb_log.specs.Logs.{Log};
    ghost use Rattle.fdb_log.specs.Places.{IsWhole};

    ghost Value = { Log };

    ghost view = { λ core. record {
      log = core.keeper.log;
      logs = core.keeper.logs;
      tags = core.keeper.tags;
      last = core.last;
      is_failed = core.is_failed;
      popped = core.popped.items;
      queues = core.queues.items;
      waiting = core.held.waiting;
    } };

    ghost invariant = { λ core. IsWhole (record {
      log = core.keeper.log;
      logs = core.keeper.logs;
      tags = core.keeper.tags;
      last = core.last;
      is_failed = core.is_failed;
      popped = core.popped.items;
      queues = core.queues.items;
      waiting = core.held.waiting;
    }) core.held };
}

impl LogCore {
    ghost use Rattle.std.specs.Prelude.{◌≡◌, ◌<◌, ⊤, true, false, IsSome, IsNone, IfOk, OnErr};
    ghost use Rattle.fdb_keys.specs.Answers.{Answers, AnswersExactly};
    ghost use Rattle.fdb_log.specs.Logs.{IsNewLog, config_fault, push_fault, tag_fault, peek_fault, peek_of, HasTaken};
    ghost use Rattle.fdb_log.specs.Logs.{HasFailed, HasPopped, IsLog, keeps, given_after, held};
    ghost use Rattle.fdb_log.specs.Peeks.{IsPeek};

    /// The log with this number of so many logs, which has taken nothing yet. Of so many tags it keeps those whose
    /// number, divided by the number of logs, leaves the log's. Refused as `BadConfig` where there is no log with the
    /// number, above 16 logs, without a tag and above 64 tags, and as `NoMemory`.
    pub fn new(alloc: Global, log: u32, logs: u32, tags: u32) -> Result<Self, Refusal>
        ensures { Answers result (config_fault log logs tags) (IsNewLog log logs tags) }
    {
        if log >= logs || logs > LOG_LIMIT || tags < 1 || tags > TAG_LIMIT {
            return Err(Refusal::BadConfig);
        }
        Ok(LogCore {
            alloc,
            keeper: Keeper { log, logs, tags },
            last: 0,
            is_failed: false,
            popped: zeros(alloc, tags)?,
            queues: empty_queues(alloc, tags)?,
            held: Held::new(alloc, tags)?,
        })
    }

    /// Takes the log's message of an entry. Refused as `Unknown` where the message is another log's, as `Failed` once
    /// memory ran out in an earlier call, as `Stale` where the entry before the message's lies before the last one
    /// taken, as `NotYet` with that entry's version where it hasn't been taken, and as `NoMemory`. The log stays as it
    /// was where it is refused, but for `NoMemory`, after which it has failed. An entry's version is above that of the
    /// entry before it. It takes O(t + b + m log n) amortised for t tags in all, b mutations of the message, m tags of
    /// these and n mutations held.
    pub fn push(&mut self, message: &LogMsg) -> Result<LogAck, Refusal>
        requires { message.now.prev < message.now.version }
        ensures answers { Answers result (push_fault self.old message.now)
            (λ ack. ack ≡ record { log = self.old.log; index = message.now.index }) }
        ensures taken { IfOk result (λ _. HasTaken self.old message.now self.new) }
        ensures refused { IsSome (push_fault self.old message.now) → self.new ≡ self.old }
        ensures failed { IsNone (push_fault self.old message.now) → OnErr result (HasFailed self.old self.new) }
    {
        self.check_push(message)?;
        match take(
            self.alloc,
            self.keeper,
            &mut self.queues,
            &mut self.held,
            message,
        ) {
            Ok(()) => {
                self.last = message.version;
                Ok(LogAck {
                    log: self.keeper.log,
                    index: message.index,
                })
            }
            Err(_) => {
                self.is_failed = true;
                Err(Refusal::NoMemory)
            }
        }
    }

    /// The first `limit` of the tag's messages after a version, one for each entry that was taken. A limit of 0 gives
    /// none. Refused as `Failed` once memory ran out in `push`, as `BadConfig` where the tag isn't kept here or the
    /// version is above that of the last entry taken, as `TransactionTooOld` where it is below the one through which
    /// the tag was popped, and as `NoMemory`. It takes O(log n) comparisons for n messages of the tag, and O(m) time
    /// for m messages given, which share their mutations with the log.
    pub fn peek(&self, tag: u32, after: u64, limit: u32) -> Result<Peek, Refusal>
        ensures answers { Answers result (peek_fault self.now tag after)
            (λ peek. peek ≡ peek_of self.now tag after limit) }
        ensures chained { IfOk result IsPeek }
    {
        self.check_tag(tag, after)?;
        if after < self.popped[tag as usize] {
            return Err(Refusal::TransactionTooOld);
        }
        let messages = self.messages_after(tag, after, limit)?;
        let through = through_after(messages.as_slice(), after);
        Ok(Peek {
            tag,
            after,
            through,
            messages,
        })
    }

    /// Drops the tag's messages through a version; it drops nothing where the tag was popped through that version
    /// before. It takes no memory, and O(log n) for each of the tag's mutations that it drops, of n held. Refused as
    /// `Failed` once memory ran out in `push`, and as `BadConfig` where the tag isn't kept here or the version is above
    /// that of the last entry taken.
    pub fn pop(&mut self, tag: u32, through: u64) -> Result<(), Refusal>
        ensures answers { AnswersExactly result (tag_fault self.old tag through)
            (λ _. HasPopped self.old tag through self.new) }
        ensures refused { OnErr result (self.new ≡ self.old) }
    {
        self.check_tag(tag, through)?;
        let popped = &mut self.popped[tag as usize];
        *popped = (*popped).max(through);
        let queue = &mut self.queues[tag as usize];
        queue.pop_through(through);
        self.held.release(&self.popped, tag, through);
        Ok(())
    }

    /// The version of the last entry taken, 0 at first. No tag was popped above it unless memory ran out in `push`. It
    /// takes no memory, and O(1) time.
    pub fn version(&self) -> u64
        ensures value { result ≡ self.now.last }
        ensures legal { IsLog self.now }
    {
        self.last
    }

    /// The number of mutations that some tag of theirs kept here has not popped, unless memory ran out in `push`. It
    /// takes no memory, and O(1) time.
    pub fn held(&self) -> u64
        ensures { result ≡ held self.now }
    {
        self.held.count()
    }

    /// Whether memory ran out in `push`: then every call that may be refused is, as `Failed`, but a `push` of another
    /// log's message. It takes no memory, and O(1) time.
    pub fn is_failed(&self) -> bool
        ensures { result ≡ self.now.is_failed }
    {
        self.is_failed
    }

    // The first `limit` of the tag's messages after a version that isn't below the one through which it was popped.
    fn messages_after(&self, tag: u32, after: u64, limit: u32) -> Result<Items<TagMsg>, AllocError>
        requires works { self.now.is_failed ≡ false }
        requires here { keeps self.now tag ≡ true }
        ensures { IfOk result (λ given. given ≡ given_after self.now tag after limit) }
    {
        let queue = &self.queues[tag as usize];
        queue.after(self.alloc, after, limit)
    }

    fn check_push(&self, message: &LogMsg) -> Result<(), Refusal>
        ensures { AnswersExactly result (push_fault self.now message.now) (λ _. ⊤) }
    {
        if message.log != self.keeper.log {
            return Err(Refusal::Unknown);
        }
        if self.is_failed {
            return Err(Refusal::Failed);
        }
        check_turn(self.last, message.prev)
    }

    fn check_tag(&self, tag: u32, version: u64) -> Result<(), Refusal>
        ensures { AnswersExactly result (tag_fault self.now tag version) (λ _. ⊤) }
    {
        if self.is_failed {
            return Err(Refusal::Failed);
        }
        if !self.keeper.keeps(tag) || self.last < version {
            return Err(Refusal::BadConfig);
        }
        Ok(())
    }
}

// Gives each tag that is kept here what the message has for it, and holds its mutations until they are popped.
fn take(
    alloc: Global,
    keeper: Keeper,
    queues: &mut [Queue],
    held: &mut Held,
    message: &LogMsg,
) -> Result<(), AllocError>
    requires number { keeper.log < keeper.logs }
    requires few { keeper.tags ≤ tag_limit }
    requires queued { length queues.old ≡ keeper.tags }
    requires placed { length held.old.places ≡ keeper.tags }
    requires later { AllByRecursion (λ one. one.0.0 < message.now.version) held.old.waiting }
    ensures kept { OnOk result ((tag : ℕ) → is_kept keeper.log keeper.logs keeper.tags tag ≡ true
        → unwrap_or (slice_get queues.new tag) [] ≡ unwrap_or (slice_get queues.old tag) []
        ++ tag_message tag message.now ∷ []) }
    ensures elsewhere { OnOk result ((tag : ℕ) → is_kept keeper.log keeper.logs keeper.tags tag ≡ false
        → unwrap_or (slice_get queues.new tag) [] ≡ unwrap_or (slice_get queues.old tag) []) }
    ensures waiting { OnOk result (held.new.waiting ≡ held.old.waiting
        ++ waiting_of (is_kept keeper.log keeper.logs keeper.tags) message.now) }
    ensures placed { OnOk result (length held.new.places ≡ keeper.tags) }
    ensures listed { OnOk result ((popped : ℕ → ℕ) (last : ℕ) → last ≤ message.now.version
        → AreListed (is_kept keeper.log keeper.logs keeper.tags) popped last held.old
        → AreListed (is_kept keeper.log keeper.logs keeper.tags) popped message.now.version held.new) }
{
    push_told(alloc, keeper, queues, message)?;
    held.add(keeper, message)
}

// The version of the last message, and this one where there is none.
fn through_after(messages: &[TagMsg], version: u64) -> u64
    ensures { result ≡ through_after version messages.now }
{
    messages.last().map_or(version, |message| message.version)
}

fn zeros(alloc: Global, count: u32) -> Result<Vec<u64>, AllocError>
    ensures { IfOk result (λ zeros. zeros.items ≡ replicate count 0) }
{
    let mut zeros = Vec::new(alloc);
    for _tag in 0..count {
        zeros.push(0)?;
    }
    Ok(zeros)
}

fn empty_queues(alloc: Global, count: u32) -> Result<Vec<Queue>, AllocError>
    ensures { IfOk result (λ queues. queues.items ≡ replicate count []) }
{
    let mut queues = Vec::new(alloc);
    for _tag in 0..count {
        queues.push(Queue::new(alloc))?;
    }
    Ok(queues)
}
