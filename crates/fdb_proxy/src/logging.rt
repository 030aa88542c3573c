// A batch that is decided, and what it makes for the logs.
ghost use Rattle.std.specs.Prelude.{◌≡◌, ◌<◌, ◌^◌, ◌++◌, [], Some, None, true, false, map, length, replicate};
ghost use Rattle.std.specs.Prelude.{IsTrue, IfOk, OnErr, if◌then◌else◌};
ghost use Rattle.std.specs.List.{range_with_len};
ghost use Rattle.fdb_keys.specs.Answers.{Answers, AnswersExactly};
ghost use Rattle.fdb_keys.specs.declared.refusal.Refusal.TheVariants.{Stale};
ghost use Rattle.fdb_mutations.specs.Stamping.{stamped};
ghost use Rattle.fdb_mutations.specs.Stamps.{stamp_bytes};
ghost use Rattle.fdb_txn.specs.rules.Messages.{at_place};
ghost use Rattle.fdb_txn.specs.rules.Stamped.{stamped_by};
ghost use Rattle.fdb_storage.specs.LogMessages.{tagged};
ghost use Rattle.fdb_proxy.specs.Flags.{first_unset};
ghost use Rattle.fdb_proxy.specs.Logging.{answers_by, written, body_by, message_with, messages_by, is_awaited};
ghost use Rattle.fdb_proxy.specs.Logging.{with_acknowledgement};

use crate::bodies::spread;
use crate::flags::{first_unset, is_set, unset};
use crate::outcome::Outcome;
use crate::position::Position;
use fdb_keys::{Items, Refusal, SharedList};
use fdb_log::{LogAck, LogMsg, Tagged};
use fdb_mutations::{Mutation, Stamp};
use fdb_storage::ShardMap;
use fdb_txn::{Sealed, TxnId};
use std::alloc::{AllocError, Global};
use std::mem;

/// A batch with its position, what its clients are to be told, and for each log whether its acknowledgement came.
#[derive(Drop)]
pub(crate) struct Logging {
    pub(crate) position: Position,
    pub(crate) answers: Items<(TxnId, Outcome)>,
    pub(crate) acknowledged: Items<bool>,
}

impl Logging {
    /// The batch with these outcomes, before any acknowledgement of so many logs came.
    pub(crate) fn new(
        alloc: Global,
        position: Position,
        batch: &[Sealed],
        outcomes: &[Outcome],
        logs: u32,
    ) -> Result<Self, AllocError>
        requires { length batch.now ≡ length outcomes.now }
        ensures value { IfOk result (λ decided. decided ≡ record {
          position = position;
          answers = answers_by batch.now outcomes.now;
          acknowledged = replicate logs false;
        }) }
        ensures each { IfOk result (λ decided. length batch.now ≡ length decided.answers) }
    {
        Ok(Logging {
            position,
            answers: answers_by(alloc, batch, outcomes)?,
            acknowledged: unset(alloc, logs)?,
        })
    }

    /// The message for each log, of so many, of the batch: its mutations have the stamps of their commits. Once the
    /// tags are found, it takes O(m + l) time for m mutations of one tag each and l logs, O(l t) more for each mutation
    /// of t tags, and O(b) more for operands of b bytes that are stamped.
    pub(crate) fn messages(
        &self,
        alloc: Global,
        shards: &ShardMap,
        logs: u32,
        batch: &[Sealed],
    ) -> Result<Items<LogMsg>, Refusal>
        requires some { 0 < logs }
        requires each { length batch.now ≡ length self.now.answers }
        requires small { length batch.now < 2 ^ 32 }
        ensures { Answers result None (λ messages. messages ≡ messages_by shards.now logs batch.now self.now) }
    {
        let body = tagged_body(alloc, shards, batch, self.answers.as_slice())?;
        Ok(messages_with(alloc, logs, self.position, body)?)
    }

    /// Whether the batch waits for this acknowledgement.
    pub(crate) fn is_awaited(&self, ack: LogAck) -> bool
        ensures { result ≡ is_awaited self.now ack }
    {
        let log = ack.log as usize;
        ack.index == self.position.index
            && log < self.acknowledged.len()
            && !is_set(self.acknowledged.as_slice(), log)
    }

    /// The acknowledgement came, for which the batch waits.
    pub(crate) fn logged(&mut self, ack: LogAck)
        requires { IsTrue (is_awaited self.old ack) }
        ensures { self.new ≡ with_acknowledgement self.old ack }
    {
        self.acknowledged.set(ack.log as usize, true);
    }

    /// The least log whose acknowledgement hasn't come.
    pub(crate) fn first_missing(&self) -> Option<usize>
        ensures { result ≡ first_unset 0 self.now.acknowledged }
    {
        first_unset(self.acknowledged.as_slice())
    }
}

/// Takes an acknowledgement, where the batch waits for it.
pub(crate) fn logged(decided: &mut Logging, ack: LogAck) -> Result<(), Refusal>
    ensures answers { AnswersExactly result (if is_awaited decided.old ack then None else Some Stale)
        (λ _. decided.new ≡ with_acknowledgement decided.old ack) }
    ensures refused { OnErr result (decided.new ≡ decided.old) }
{
    if !decided.is_awaited(ack) {
        return Err(Refusal::Stale);
    }
    decided.logged(ack);
    Ok(())
}

// The id of each transaction, with what becomes of it.
fn answers_by(
    alloc: Global,
    batch: &[Sealed],
    outcomes: &[Outcome],
) -> Result<Items<(TxnId, Outcome)>, AllocError>
    requires { length batch.now ≡ length outcomes.now }
    ensures { IfOk result (λ answers. answers ≡ answers_by batch.now outcomes.now) }
{
    let mut answers = Items::new(alloc);
    for (txn, outcome) in batch.iter().zip(outcomes) {
        answers.push((txn.id(), *outcome))?;
    }
    Ok(answers)
}

// The mutation with the stamp, and with its tags.
fn tag_mutation(
    alloc: Global,
    shards: &ShardMap,
    place: u32,
    stamp: Stamp,
    mutation: &Mutation,
) -> Result<Tagged, Refusal>
    ensures { Answers result None (λ sent. sent
        ≡ tagged shards.now (place, stamped (stamp_bytes stamp.version stamp.place) mutation.now)) }
{
    // They hang on what the mutation names alone, which no stamp changes.
    let tags = shards.tags(mutation)?;
    let mutation = mutation.stamp(alloc, stamp)?;
    Ok(Tagged {
        place,
        mutation,
        tags,
    })
}

fn add_txn(
    alloc: Global,
    body: &mut Items<Tagged>,
    shards: &ShardMap,
    place: u32,
    stamp: Stamp,
    txn: &Sealed,
) -> Result<(), Refusal>
    ensures { Answers result None (λ _. body.new ≡ body.old
        ++ map (tagged shards.now) (at_place place (stamped_by stamp.version stamp.place txn.now.mutations))) }
{
    for mutation in txn.mutations() {
        body.push(tag_mutation(alloc, shards, place, stamp, mutation)?)?;
    }
    Ok(())
}

fn add_place(
    alloc: Global,
    body: &mut Items<Tagged>,
    shards: &ShardMap,
    place: u32,
    txn: &Sealed,
    outcome: Outcome,
) -> Result<(), Refusal>
    ensures { Answers result None
        (λ _. body.new ≡ body.old ++ map (tagged shards.now) (written outcome place txn.now)) }
{
    if let Outcome::Commit {
        version,
        place: number,
    } = outcome
    {
        let stamp = Stamp::of_place(version, number);
        add_txn(alloc, body, shards, place, stamp, txn)?;
    }
    Ok(())
}

// The stamped mutations of the transactions that commit, by place, with their tags.
fn tagged_body(
    alloc: Global,
    shards: &ShardMap,
    batch: &[Sealed],
    answers: &[(TxnId, Outcome)],
) -> Result<Items<Tagged>, Refusal>
    requires each { length batch.now ≡ length answers.now }
    requires small { length batch.now < 2 ^ 32 }
    ensures { Answers result None (λ body. body ≡ map (tagged shards.now) (body_by 0 batch.now answers.now)) }
{
    let mut body = Items::new(alloc);
    for (place, txn) in batch.iter().enumerate() {
        add_place(
            alloc,
            &mut body,
            shards,
            place as u32,
            txn,
            answers[place].1,
        )?;
    }
    Ok(body)
}

// The message for the log, at a position, with these mutations.
fn message_to(
    alloc: Global,
    log: u32,
    position: Position,
    body: Items<Tagged>,
) -> Result<LogMsg, AllocError>
    ensures { IfOk result (λ message. message ≡ record {
      log = log;
      index = position.index;
      version = position.version;
      prev = position.prev;
      body = body;
    }) }
{
    Ok(LogMsg {
        log,
        index: position.index,
        version: position.version,
        prev: position.prev,
        body: SharedList::new(alloc, body)?,
    })
}

// The message for each log, of so many, at a position, with its part of these mutations.
fn messages_with(
    alloc: Global,
    logs: u32,
    position: Position,
    body: Items<Tagged>,
) -> Result<Items<LogMsg>, AllocError>
    requires { 0 < logs }
    ensures { IfOk result (λ messages. messages ≡ map (message_with logs position body) (range_with_len 0 logs)) }
{
    let mut bodies = spread(alloc, logs, body)?;
    let mut messages = Items::new(alloc);
    for log in 0..logs {
        let body = mem::replace(&mut bodies[log as usize], Items::new(alloc));
        messages.push(message_to(alloc, log, position, body)?)?;
    }
    Ok(messages)
}
