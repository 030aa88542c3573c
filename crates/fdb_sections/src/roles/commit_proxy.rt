ghost use Rattle.std.specs.Prelude.{◌≡◌, ◌==◌, ◌≤◌, ◌⊎◌, ⊤, true, not, [], suc, take, map, length, None, Some};
ghost use Rattle.std.specs.Prelude.{IfOk, OnOk, OnErr, IfErr, IfSome, if◌then◌else◌};
ghost use Rattle.fdb_keys.specs.declared.refusal.Refusal.TheVariants.{NoMemory, Stale};
ghost use Rattle.fdb_keys.specs.Answers.{Answers, AnswersExactly, AnswersOrHandsBack, AnswersExactlyOrHandsBack};
ghost use Rattle.fdb_txn.specs.Limits.{place_limit};
ghost use Rattle.fdb_txn.specs.book.Book.{last_version};
ghost use Rattle.fdb_txn.specs.book.Transactions.{Transaction};
ghost use Rattle.fdb_proxy.specs.CommitProxies.{new_fault, IsNewProxy, submit_fault, submitting};
ghost use Rattle.fdb_proxy.specs.CommitProxies.{seal_fault, sealing, unsealing, all_logged_fault, with_logged};
ghost use Rattle.fdb_proxy.specs.CommitProxies.{parts_fault, parts_in, with_verdict};
ghost use Rattle.fdb_proxy.specs.CommitProxies.{decide_fault, deciding, messages_fault, messages_of, done_fault};
ghost use Rattle.fdb_proxy.specs.CommitProxies.{answers_in, finishing};
ghost use Rattle.fdb_proxy.specs.Conflicts.{set_at};
ghost use Rattle.fdb_sections.specs.CommitProxiesAtFronts.{verdict_fault, ack_fault};
ghost use Rattle.fdb_sections.specs.CommitProxiesAtFronts.{AreLastParts, AreLastMessages, AreOutcomes};
ghost use Rattle.fdb_sections.specs.CommitMachines.{sent_parts, sent_messages, report_fault};
ghost use Rattle.fdb_sections.specs.CommitMachines.{AreRepliesFrom, IsReplyTo};
ghost use Rattle.fdb_sections.specs.Messages.{IsLastPart, IsLastMessage};
ghost use Rattle.fdb_sections.specs.Receipts.{IsOutcome};
ghost use Rattle.fdb_sections.specs.Ticketing.{AnswersTicket, LeftByTicket};

use crate::known_front::KnownFront;
use crate::making::{add_last, beside};
use crate::messages::log_message::LogMessage;
use crate::messages::outcome_message::OutcomeMessage;
use crate::messages::part_message::PartMessage;
use crate::messages::reply::CommitReply;
use crate::messages::verdict_message::VerdictMessage;
use crate::name::DatabaseName;
use crate::roles::commit_proxy::ticketing::is_ticket_of;
use crate::roles::log::AckMessage;
use crate::roles::sequencer::Reported;
use fdb_book::Book;
use fdb_keys::{Items, RangeSet, Refusal, Refused};
use fdb_log::LogMsg;
use fdb_proxy::{CommitCore, Config, Decision, Outcome};
use fdb_resolver::Part;
use fdb_sequencer::Ticket;
use fdb_txn::{Batch, Sealed, TxnId};
use std::alloc::{AllocError, Global};
use std::collections::VecDeque;
use std::marker::Model;

pub(crate) mod ticketing;

/// What says that all logs took the last entry of the front, which `CommitProxyAt::logged_front` alone makes. Contracts
/// see the front.
#[derive(Drop)]
pub struct LoggedFront<B: DatabaseName> {
    front: KnownFront<B>,
}

impl<B: DatabaseName> Model for LoggedFront<B> {
    ghost use Rattle.std.specs.Prelude.{List};
    ghost use Rattle.fdb_txn.specs.declared.entry.Entry.{Entry as AnEntry};

    ghost Value = { List AnEntry };

    ghost view = { λ logged. logged.front };
}

impl<B: DatabaseName> LoggedFront<B> {
    /// The version of the last entry, 0 where there is none. It takes no memory, and O(1) time.
    pub(crate) fn version(&self) -> u64
        ensures { result ≡ last_version self.now }
    {
        self.front.version()
    }

    /// The front alone. It takes no memory, and O(1) time.
    pub(crate) fn into_front(self) -> KnownFront<B>
        ensures { result ≡ self }
    {
        let LoggedFront { front } = self;
        front
    }
}

/// A commit proxy, which has the entries of its front. The last one is that of its last ticket. Once its batch is
/// decided, it has the conflict sets of the batch's places.
#[derive(Drop)]
pub struct CommitProxyAt<B: DatabaseName> {
    front: KnownFront<B>,
    state: CommitCore,
    conflicts: Items<RangeSet>,
    alloc: Global,
}

impl<B: DatabaseName> Model for CommitProxyAt<B> {
    ghost use Rattle.fdb_sections.specs.CommitProxiesAtFronts.{AreSetsOf, CommitProxyAtFront, IsThere};

    ghost Value = { CommitProxyAtFront };

    ghost view = { λ at. record { front = at.front; state = at.state; conflicts = at.conflicts } };

    ghost invariant = { λ at. IsThere B.config at.front at.state.proxy
        × AreSetsOf B.config at.front at.state.proxy.stage at.conflicts };
}

impl<B: DatabaseName> CommitProxyAt<B> {
    /// The commit proxy with the number, which has no entry, and where nobody waits. Refused as `BadConfig` where the
    /// configuration isn't legal and where it has no proxy with the number, and as `NoMemory`.
    pub fn new(alloc: Global, book: &Book<B>, index: u32, config: &Config) -> Result<Self, Refusal>
        requires { config.now ≡ B.config }
        ensures { Answers result (new_fault index config.now)
            (λ at. (at.front ≡ []) × IsNewProxy index config.now at.state.proxy) }
    {
        let state = CommitCore::new(alloc, index, config)?;
        let (state, front) = beside(state, KnownFront::empty(alloc, book))?;
        Ok(CommitProxyAt {
            front,
            state,
            conflicts: Items::new(alloc),
            alloc,
        })
    }

    /// Takes a request, which waits for a batch after those that wait already. It takes no memory where there is room
    /// for one more. Refused as `Failed`, as `Repeated` where a request of its id is in flight or waits, with the place
    /// of that one, and as `NoMemory`. A refusal hands the request back, and nothing changes but the room.
    pub(crate) fn submit(&mut self, sealed: Sealed) -> Result<(), Refused<Sealed>>
        ensures answers { AnswersOrHandsBack result sealed (submit_fault self.old.state.proxy sealed)
            (λ _. self.new.state.proxy ≡ submitting self.old.state.proxy sealed) }
        ensures room { 1 ≤ self.old.state.spare → AnswersExactlyOrHandsBack result sealed
            (submit_fault self.old.state.proxy sealed) (λ _. ⊤) }
        ensures refused { OnErr result (self.new.state.proxy ≡ self.old.state.proxy) }
        ensures front { self.new.front ≡ self.old.front }
    {
        self.state.submit(sealed)
    }

    /// Whether a batch may be sealed. Refused as `Failed`, and as `WrongState` where a batch is in flight already. It
    /// takes no memory, and O(1) time.
    pub(crate) fn check_seal(&self) -> Result<(), Refusal>
        ensures { AnswersExactly result (seal_fault self.now.state.proxy) (λ _. ⊤) }
    {
        if self.state.is_failed() {
            return Err(Refusal::Failed);
        }
        if !self.state.is_idle() {
            return Err(Refusal::WrongState);
        }
        Ok(())
    }

    /// The first 4,096 of those that wait, in order, become the batch in flight, all of them where there are no more.
    /// Answers it, and shares its transactions. Refused as `Failed`, as `WrongState` where a batch is in flight
    /// already, and as `NoMemory`, and then nothing changes but the room.
    pub(crate) fn seal(&mut self) -> Result<Batch, Refusal>
        ensures answers { Answers result (seal_fault self.old.state.proxy)
            (λ batch. (batch ≡ take place_limit self.old.state.proxy.waiting)
            × (self.new.state.proxy ≡ sealing self.old.state.proxy)) }
        ensures refused { OnErr result (self.new.state.proxy ≡ self.old.state.proxy) }
        ensures front { self.new.front ≡ self.old.front }
    {
        self.state.seal()
    }

    /// Gives up a sealed batch, which has no entry yet: its requests wait again, before all others. At every other
    /// stage nothing changes but the room. It takes no memory, and O(1) time.
    pub(crate) fn unseal(&mut self)
        ensures proxy { self.new.state.proxy ≡ unsealing self.old.state.proxy }
        ensures front { self.new.front ≡ self.old.front }
    {
        self.state.unseal();
    }

    /// Drops those that wait, and answers their ids in order. Those in flight stay and aren't named. It takes no
    /// memory, and O(n) time for n requests, ranges and mutations that are dropped.
    pub(crate) fn refuse_all(&mut self) -> Items<TxnId>
        ensures ids { result ≡ map (λ (t : Transaction). t.id) self.old.state.proxy.waiting }
        ensures left { self.new.state.proxy ≡ record self.old.state.proxy { waiting = [] } }
        ensures front { self.new.front ≡ self.old.front }
    {
        self.state.refuse_all()
    }

    /// The proxy has failed from now on. It takes no memory, and O(1) time.
    pub(crate) fn fail(&mut self)
        ensures proxy { self.new.state.proxy ≡ record self.old.state.proxy { is_failed = true } }
        ensures front { self.new.front ≡ self.old.front }
    {
        self.state.fail();
    }

    /// Takes a log's acknowledgement. It takes no memory, and O(1) time. Refused as `Stale` where it comes with a front
    /// of another length than the own one, else as `Failed`, and as `Stale` unless the batch waits for it; then nothing
    /// changes.
    pub(crate) fn logged(&mut self, message: &AckMessage<B>) -> Result<(), Refusal>
        ensures answers { AnswersExactly result (ack_fault self.old.front self.old.state.proxy message.now)
            (λ _. self.new.state.proxy ≡ with_logged self.old.state.proxy message.now.ack) }
        ensures front { self.new.front ≡ self.old.front }
        ensures refused { OnErr result (self.new ≡ self.old) }
    {
        if !message.is_of(&self.front) {
            return Err(Refusal::Stale);
        }
        self.state.logged(message.ack())
    }

    /// What tells the sequencer that all logs have the batch: the front, whose last entry it has. Refused as `Failed`,
    /// as `WrongState` unless the batch is decided and isn't done, as `NotYet` with the least log that hasn't
    /// acknowledged it, and as `NoMemory`. It takes O(l) time for l logs.
    pub(crate) fn logged_front(&self) -> Result<LoggedFront<B>, Refusal>
        ensures { Answers result (all_logged_fault self.now.state.proxy) (λ logged. logged ≡ self.now.front) }
    {
        self.state.all_logged()?;
        let front = self.front.share()?;
        Ok(LoggedFront { front })
    }

    /// Whether a request waits for a batch. It takes no memory, and O(1) time.
    pub(crate) fn waits(&self) -> bool
        ensures { result ≡ not (length self.now.state.proxy.waiting == 0) }
    {
        self.state.waits()
    }

    /// How many requests are in the batch in flight, 0 where there is none. It takes no memory, and O(1) time.
    pub(crate) fn in_flight(&self) -> usize
        ensures { result ≡ length self.now.state.proxy.batch }
    {
        self.state.batch().len()
    }

    /// What each resolver is asked about the batch, one part for each of them in order: its part of the front's last
    /// entry. Refused as `Failed`, as `WrongState` unless the batch waits for verdicts, and as `NoMemory`.
    pub(crate) fn parts(&self) -> Result<Items<Part>, Refusal>
        ensures answers { Answers result (parts_fault self.now.state.proxy)
            (λ parts. parts ≡ parts_in self.now.state.proxy.stage) }
        ensures sent { IfOk result (AreLastParts B.config self.now.front) }
    {
        self.state.parts()
    }

    /// What the resolver of a part is sent: the part, with a share of the front. Refused only as `NoMemory`.
    pub(crate) fn part_message(&self, part: Part) -> Result<PartMessage<B>, Refusal>
        requires { IsLastPart B.config.resolver_splits (record { front = self.now.front; part = part }) }
        ensures { Answers result None (λ sent. sent ≡ record { front = self.now.front; part = part }) }
    {
        let front = self.front.share()?;
        Ok(PartMessage { front, part })
    }

    /// What each resolver is sent of the batch, in order: its part, with a share of the front. Refused as `parts` is.
    pub(crate) fn part_messages(&self, alloc: Global) -> Result<VecDeque<PartMessage<B>>, Refusal>
        ensures { Answers result (parts_fault self.now.state.proxy)
            (λ messages. messages.items ≡ sent_parts self.now.front (parts_in self.now.state.proxy.stage)) }
    {
        let parts = self.parts()?;
        let mut messages = VecDeque::new(alloc);
        for part in parts.into_vec() {
            add_last(&mut messages, self.part_message(part))?;
        }
        Ok(messages)
    }

    /// Takes a resolver's verdicts. It takes no memory. Refused as `Stale` where they come with a front of another
    /// length than the own one, else as `CommitCore::verdict` refuses them; then nothing changes.
    pub(crate) fn verdict(&mut self, message: VerdictMessage<B>) -> Result<(), Refusal>
        ensures answers { AnswersExactly result (verdict_fault self.old.front self.old.state.proxy message)
            (λ _. self.new.state.proxy ≡ with_verdict self.old.state.proxy message.verdicts) }
        ensures front { self.new.front ≡ self.old.front }
        ensures refused { OnErr result (self.new ≡ self.old) }
    {
        if message.front.len() != self.front.len() {
            return Err(Refusal::Stale);
        }
        self.front.know_one_book(&message.front);
        self.state.verdict(message.verdicts)
    }

    /// Decides the batch by the verdicts that came. Refused as `Failed`, as `WrongState` unless the batch waits for
    /// verdicts, as `NotYet` with the least resolver that is asked about some place and whose verdicts haven't come,
    /// and as `NoMemory`. Then nothing changes.
    pub(crate) fn decide(&mut self) -> Result<(), Refusal>
        ensures answers { Answers result (decide_fault self.old.state.proxy)
            (λ _. self.new.state.proxy ≡ deciding self.old.state.proxy) }
        ensures front { self.new.front ≡ self.old.front }
        ensures refused { OnErr result (self.new ≡ self.old) }
    {
        self.front.know_entries();
        let Decision { conflicts, .. } = self.state.decide()?;
        self.conflicts = conflicts;
        Ok(())
    }

    /// The message of the batch for each log: that of the front's last entry. Refused as `Failed`, as `WrongState`
    /// unless the batch is decided and isn't done, and as `NoMemory`.
    pub(crate) fn messages(&self) -> Result<Items<LogMsg>, Refusal>
        ensures answers { Answers result (messages_fault self.now.state.proxy)
            (λ messages. messages ≡ messages_of self.now.state.proxy) }
        ensures sent { IfOk result (AreLastMessages B.config self.now.front) }
    {
        self.state.messages()
    }

    /// What a log is sent: its message, with a share of the front. Refused only as `NoMemory`.
    pub(crate) fn log_message(&self, message: LogMsg) -> Result<LogMessage<B>, Refusal>
        requires { IsLastMessage B.config (record { front = self.now.front; message = message }) }
        ensures { Answers result None (λ sent. sent ≡ record { front = self.now.front; message = message }) }
    {
        let front = self.front.share()?;
        Ok(LogMessage { front, message })
    }

    /// What each log is sent of the batch, in order: its message, with a share of the front. Refused as `messages` is.
    pub(crate) fn log_messages(&self, alloc: Global) -> Result<VecDeque<LogMessage<B>>, Refusal>
        ensures { Answers result (messages_fault self.now.state.proxy)
            (λ messages. messages.items ≡ sent_messages self.now.front (messages_of self.now.state.proxy)) }
    {
        let of_batch = self.messages()?;
        let mut messages = VecDeque::new(alloc);
        for message in of_batch.into_vec() {
            add_last(&mut messages, self.log_message(message))?;
        }
        Ok(messages)
    }

    /// The batch is done: answers the id of each transaction with what became of it, by place, which is what the rule
    /// says of the front's last entry. The next batch may be sealed. It takes no memory. Refused as `Failed`, and as
    /// `WrongState` unless all logs have acknowledged the batch. Then nothing changes.
    pub(crate) fn done(&mut self) -> Result<Items<(TxnId, Outcome)>, Refusal>
        ensures answers { AnswersExactly result (done_fault self.old.state.proxy) (λ answers.
            (answers ≡ answers_in self.old.state.proxy.stage)
            × (self.new.state.proxy ≡ finishing self.old.state.proxy)) }
        ensures told { IfOk result (AreOutcomes B.config self.old.front self.old.conflicts) }
        ensures front { self.new.front ≡ self.old.front }
        ensures conflicts { self.new.conflicts ≡ self.old.conflicts }
        ensures refused { OnErr result (self.new.state.proxy ≡ self.old.state.proxy) }
    {
        self.state.done()
    }

    // A copy of the place's conflict set, which has no point unless there is one. Refused only where memory runs out.
    // It takes O(1) time where the set is shared.
    fn conflict(&self, place: u32) -> Result<RangeSet, AllocError>
        ensures { IfOk result (λ set. set ≡ set_at place self.now.conflicts) }
    {
        match self.conflicts.as_slice().get(place as usize) {
            Some(set) => set.clone(),
            None => Ok(RangeSet::new(self.alloc)),
        }
    }

    /// What the session of a place of the front's last entry is told, once that was reported: what became of it, and
    /// where it conflicts, with a share of the front. Refused only as `NoMemory`. It takes O(1) time where the set is
    /// shared.
    pub(crate) fn outcome_message(
        &self,
        reported: &Reported<B>,
        place: u32,
        outcome: Outcome,
    ) -> Result<OutcomeMessage<B>, Refusal>
        requires reported { reported.now ≡ self.now.front }
        requires by_rule { IsOutcome B.config.resolver_splits (record {
          front = self.now.front;
          place = place;
          outcome = outcome;
          conflict = set_at place self.now.conflicts;
        }) }
        ensures { Answers result None (λ told. told ≡ record {
          front = self.now.front;
          place = place;
          outcome = outcome;
          conflict = set_at place self.now.conflicts;
        }) }
    {
        let front = reported.share_front()?;
        let conflict = self.conflict(place)?;
        Ok(OutcomeMessage {
            front,
            place,
            outcome,
            conflict,
        })
    }

    // Refused as `Stale` unless it is the own front that was reported.
    fn check_reported(&self, reported: &Reported<B>) -> Result<(), Refusal>
        ensures { AnswersExactly result (if length reported.now == length self.now.front then None else Some Stale)
            (λ _. reported.now ≡ self.now.front) }
    {
        self.front.know_one_book(reported.front());
        if reported.front().len() == self.front.len() {
            Ok(())
        } else {
            Err(Refusal::Stale)
        }
    }

    /// The batch is done, whose front was reported: what the client of each of its places is told, by place. The next
    /// batch may be sealed. Refused as `Stale` where another front was reported, as `NoMemory`, and as `done` is; then
    /// the batch isn't done. A client for whose answer memory ran out is told that it isn't known what became of it.
    pub(crate) fn reported(
        &mut self,
        alloc: Global,
        reported: &Reported<B>,
    ) -> Result<VecDeque<CommitReply<B>>, Refusal>
        ensures taken { IfOk result (λ replies.
            (report_fault self.old.front self.old.state.proxy reported.now ≡ None)
            × AreRepliesFrom self.old.front 0 (answers_in self.old.state.proxy.stage) replies.items
            × (self.new.state.proxy ≡ finishing self.old.state.proxy)) }
        ensures why { IfErr result (λ why.
            (why ≡ NoMemory) ⊎ (report_fault self.old.front self.old.state.proxy reported.now ≡ Some why)) }
        ensures kept { OnErr result ((self.new.state.proxy ≡ self.old.state.proxy)
            ⊎ (self.new.state.proxy ≡ finishing self.old.state.proxy)) }
        ensures front { self.new.front ≡ self.old.front }
    {
        self.check_reported(reported)?;
        let mut replies = VecDeque::with_capacity(alloc, self.in_flight())?;
        let answers = self.done()?;
        self.add_replies(reported, answers, &mut replies)?;
        self.conflicts = Items::new(alloc);
        Ok(replies)
    }

    // Adds what the client of each place is told.
    fn add_replies(
        &self,
        reported: &Reported<B>,
        answers: Items<(TxnId, Outcome)>,
        replies: &mut VecDeque<CommitReply<B>>,
    ) -> Result<(), Refusal>
        requires reported { reported.now ≡ self.now.front }
        requires by_rule { AreOutcomes B.config self.now.front self.now.conflicts answers }
        requires nothing { replies.old.items ≡ [] }
        ensures added { OnOk result (AreRepliesFrom self.now.front 0 answers replies.new.items) }
        ensures why { IfErr result (λ why. why ≡ NoMemory) }
    {
        for (place, (_id, outcome)) in answers.into_vec().into_iter().enumerate() {
            let reply = self.reply_of(reported, place, outcome);
            add_last(replies, Ok(reply))?;
        }
        Ok(())
    }

    // What the client of a place is told.
    fn reply_of(&self, reported: &Reported<B>, place: usize, outcome: Outcome) -> CommitReply<B>
        requires reported { reported.now ≡ self.now.front }
        requires by_rule { IsOutcome B.config.resolver_splits (record {
          front = self.now.front;
          place = place;
          outcome = outcome;
          conflict = set_at place self.now.conflicts;
        }) }
        ensures { IsReplyTo self.now.front place outcome result }
    {
        let Ok(place) = u32::try_from(place) else {
            return CommitReply::Refused(Refusal::CommitUnknownResult);
        };
        match self.outcome_message(reported, place, outcome) {
            Ok(message) => CommitReply::Outcome(message),
            Err(_) => CommitReply::Refused(Refusal::CommitUnknownResult),
        }
    }

    /// The number of the last entry that it learnt, if there is one. It takes no memory, and O(1) time.
    pub(crate) fn entry(&self) -> Option<u32>
        ensures { IfSome result (λ index. length self.now.front ≡ suc index) }
    {
        let last = self.front.len().checked_sub(1)?;
        u32::try_from(last).ok()
    }

    /// Learns the ticket of the batch in flight, with the front whose last entry the batch has. Nothing is known of
    /// either: the ticket is compared with the front, and the front with the own one.
    ///
    /// Refused as `Failed`; as `Unknown` unless the front goes on behind the own one, its last entry has the ticket's
    /// number, version, previous version and horizon and the transactions of the batch, and the ticket tells the moves
    /// of all entries behind the own front; and as `WrongState` unless a batch is sealed. Then nothing changes but the
    /// room. A ticket that was learnt before is unknown, so none is `Stale`. Refused as `NoMemory` too: then the proxy
    /// has failed, and keeps the batch, whose entry stands. It takes O(n) time for n ranges and mutations of the batch,
    /// moves of the ticket, and entries behind the own front, beside what the state takes.
    pub(crate) fn learn(&mut self, ticket: &Ticket, front: KnownFront<B>) -> Result<(), Refusal>
        ensures answers { AnswersTicket result self.old.front front self.old.state.proxy ticket.now }
        ensures left { LeftByTicket result self.old ticket.now front self.new }
    {
        if self.state.is_failed() {
            return Err(Refusal::Failed);
        }
        if !is_ticket_of(&self.front, &front, self.state.batch(), ticket) {
            return Err(Refusal::Unknown);
        }
        self.front.know_one_book(&front);
        front.know_entries();
        front.know_horizons();
        self.state.learn(ticket)?;
        self.front = front;
        Ok(())
    }
}
