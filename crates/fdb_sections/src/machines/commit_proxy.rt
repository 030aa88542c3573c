// A commit proxy that runs: what it waits for, and what is ready to be sent.
ghost use Rattle.std.specs.Prelude.{◌≡◌, ◌-◌, ◌==◌, ◌++◌, ◌⊎◌, nat_lt, [], ◌∷◌, length, take, suc, None, Some, Err};
ghost use Rattle.std.specs.Prelude.{OnOk};
ghost use Rattle.std.specs.Prelude.{OnErr, IfErr, IfSome, IfNone, if◌then◌else◌};
ghost use Rattle.std.specs.Prelude.{OnSome, true, false};
ghost use Rattle.std.specs.Option.{option_map, option_to_list};
ghost use Rattle.fdb_keys.specs.Answers.{Answers, AnswersExactly};
ghost use Rattle.fdb_keys.specs.declared.refusal.Refusal.TheVariants.{NoMemory, WrongState, Failed};
ghost use Rattle.fdb_keys.specs.declared.refusal.Refusal.TheVariants.{CommitUnknownResult};
ghost use Rattle.fdb_txn.specs.Limits.{place_limit};
ghost use Rattle.fdb_txn.specs.book.History.{AreEntries};
ghost use Rattle.fdb_book.specs.Fronts.{IsPrefix};
ghost use Rattle.fdb_proxy.specs.CommitProxies.{new_fault, IsNewProxy};
ghost use Rattle.fdb_proxy.specs.CommitProxies.{sealing, with_verdict, decide_fault, all_logged_fault, answers_in};
ghost use Rattle.fdb_proxy.specs.CommitProxies.{finishing};
ghost use Rattle.fdb_sections.specs.declared.machines.commit_proxy.Next.TheVariants as next;
ghost use Rattle.fdb_sections.specs.declared.machines.commit_proxy.Phase.TheVariants as phase;
ghost use Rattle.fdb_sections.specs.CommitMachines.{is_refusing, is_at_rest, next_of, submit_fault, submitting};
ghost use Rattle.fdb_sections.specs.CommitMachines.{seal_fault};
ghost use Rattle.fdb_sections.specs.CommitMachines.{HasEntered, unissuing, rested, refusing, decided, judged};
ghost use Rattle.fdb_sections.specs.CommitMachines.{acknowledged, report_fault, AreRepliesFrom, IsAnswer, has_answer};
ghost use Rattle.fdb_sections.specs.CommitMachines.{IsRefusal, without_answer, answered, failing};
ghost use Rattle.fdb_sections.specs.CommitProxiesAtFronts.{verdict_fault, ack_fault};
ghost use Rattle.fdb_sections.specs.Receipts.{GrantAtFront};
ghost use Rattle.fdb_sections.specs.Ticketing.{AnswersTicket};

use crate::known_front::KnownFront;
use crate::making::{beside, take_first};
use crate::messages::batch_message::BatchMessage;
use crate::messages::commit_message::CommitMessage;
use crate::messages::log_message::LogMessage;
use crate::messages::part_message::PartMessage;
use crate::messages::reply::CommitReply;
use crate::messages::verdict_message::VerdictMessage;
use crate::name::DatabaseName;
use crate::roles::commit_proxy::{CommitProxyAt, LoggedFront};
use crate::roles::log::AckMessage;
use crate::roles::sequencer::{GrantMessage, Issued, Reported};
use fdb_book::Book;
use fdb_keys::{Refusal, Refused};
use fdb_proxy::Config;
use fdb_txn::Sealed;
use std::alloc::Global;
use std::collections::VecDeque;
use std::marker::Model;

/// What a commit proxy waits for, or what is to be done with what it hands out.
#[derive(Clone, Copy)]
pub enum Next {
    /// It waits for a request: nobody waits for an answer.
    Request,
    /// Requests wait, and are to be sealed.
    Seal,
    /// It waits for the entry of the batch that is sealed.
    Entry,
    /// A part is ready for its resolver.
    Part,
    /// It waits for the verdicts of the resolver with the number, where they are taken in the order of the resolvers.
    Verdicts(u32),
    /// A message is ready for its log.
    Message,
    /// It waits for the acknowledgement of the log with the number, where they are taken in the order of the logs.
    Acknowledgement(u32),
    /// The sequencer is to be told that all logs have the batch.
    Report,
    /// It waits for what says that the batch is reported.
    Reported,
    /// An answer is ready for who waits first.
    Answer,
    /// It has failed, and nobody waits.
    End,
}

// How far it is with the batch in flight.
#[derive(Clone, Copy)]
enum Phase {
    // There is none.
    Idle,
    // The batch has no entry yet.
    Sealed,
    // It waits for verdicts.
    Resolving,
    // The batch is decided, and waits for logs.
    Logging,
    // All logs have the batch.
    Logged,
    // What is to be reported of it was given.
    Reporting,
    // All who wait are refused.
    Refusing(Refusal),
    // The proxy has failed.
    Failed,
}

/// A commit proxy beside who waits for its answers, in the order of the requests, the batch in flight first, and beside
/// what is ready to be sent.
#[derive(Drop)]
pub struct CommitMachine<B: DatabaseName, W> {
    alloc: Global,
    at: CommitProxyAt<B>,
    // The longest front with which a request came.
    asked: KnownFront<B>,
    phase: Phase,
    resolvers: u32,
    logs: u32,
    // How many resolvers' verdicts, or then logs' acknowledgements, of the batch in flight haven't come.
    left: u32,
    waiting: VecDeque<W>,
    // How many of the first who wait are of a batch that has an entry, or for which the sequencer was asked for one.
    entered: usize,
    parts: VecDeque<PartMessage<B>>,
    messages: VecDeque<LogMessage<B>>,
    replies: VecDeque<CommitReply<B>>,
    // A front that shows that the book is full, where that is why all who wait are refused.
    full: Option<KnownFront<B>>,
}

impl<B: DatabaseName, W> Model for CommitMachine<B, W> {
    ghost use Rattle.fdb_sections.specs.Asking.{HasAsked};
    ghost use Rattle.fdb_sections.specs.CommitMachines.{CommitMachine as Seen};

    ghost Value = { Seen B W };

    ghost view = { λ it. record {
      front = it.at.front;
      proxy = it.at.state.proxy;
      resolvers = it.resolvers;
      logs = it.logs;
      phase = it.phase;
      left = it.left;
      waiting = it.waiting.items;
      entered = it.entered;
      parts = it.parts.items;
      messages = it.messages.items;
      replies = it.replies.items;
      full = it.full;
    } };

    // Each request that waits or is in flight is asked for at the longest front.
    ghost invariant = { λ it. HasAsked B.allows B.config.resolver_splits it.asked it.at.state.proxy };
}

// The longer one of both fronts is kept. It takes no memory, and O(1) time.
fn keep_longer<B: DatabaseName>(own: &mut KnownFront<B>, other: KnownFront<B>)
    ensures longer { IsPrefix own.old own.new × IsPrefix other own.new }
    ensures entries { AreEntries (suc (length B.config.resolver_splits)) 0 own.new }
{
    own.know_one_book(&other);
    own.know_entries();
    other.know_entries();
    if own.len() < other.len() {
        *own = other;
    }
}

// Hands a request to the proxy, unless all who wait are being refused: then it is dropped.
fn hand_on<B: DatabaseName>(
    at: &mut CommitProxyAt<B>,
    phase: Phase,
    sealed: Sealed,
) -> Result<(), Refusal>
    ensures taken { OnOk result ((submit_fault phase at.old.state.proxy sealed ≡ None)
        × (at.new.state.proxy ≡ submitting phase at.old.state.proxy sealed)) }
    ensures refused { OnErr result (at.new.state.proxy ≡ at.old.state.proxy) }
    ensures why { IfErr result (λ why.
        (why ≡ NoMemory) ⊎ (submit_fault phase at.old.state.proxy sealed ≡ Some why)) }
    ensures front { at.new.front ≡ at.old.front }
{
    if let Phase::Refusing(_) = phase {
        drop(sealed);
        return Ok(());
    }
    match at.submit(sealed) {
        Ok(()) => Ok(()),
        Err(refused) => Err(Refusal::from(refused)),
    }
}

impl<B: DatabaseName, W: Drop> CommitMachine<B, W> {
    /// The commit proxy with the number, which nobody has asked, of so many resolvers and logs. Refused as
    /// `CommitProxyAt::new` is.
    pub fn new(
        alloc: Global,
        book: &Book<B>,
        index: u32,
        config: &Config,
        resolvers: u32,
    ) -> Result<Self, Refusal>
        requires { config.now ≡ B.config }
        ensures { Answers result (new_fault index config.now) (λ it. IsNewProxy index config.now it.proxy
            × (it ≡ record {
              front = [];
              proxy = it.proxy;
              resolvers = resolvers;
              logs = config.now.logs;
              phase = phase.Idle;
              left = 0;
              waiting = [];
              entered = 0;
              parts = [];
              messages = [];
              replies = [];
              full = None;
            })) }
    {
        let at = CommitProxyAt::new(alloc, book, index, config)?;
        let (at, asked) = beside(at, KnownFront::empty(alloc, book))?;
        Ok(CommitMachine {
            alloc,
            at,
            asked,
            phase: Phase::Idle,
            resolvers,
            logs: config.logs,
            left: 0,
            waiting: VecDeque::new(alloc),
            entered: 0,
            parts: VecDeque::new(alloc),
            messages: VecDeque::new(alloc),
            replies: VecDeque::new(alloc),
            full: None,
        })
    }

    /// What it waits for, or what is ready. It takes no memory, and O(1) time.
    pub fn next(&self) -> Next
        ensures next { result ≡ next_of self.now }
        ensures end { result ≡ next.End → self.now.waiting ≡ [] }
    {
        if !self.replies.is_empty() {
            return Next::Answer;
        }
        match self.phase {
            Phase::Idle if self.at.waits() => Next::Seal,
            Phase::Idle => Next::Request,
            Phase::Sealed => Next::Entry,
            Phase::Resolving if !self.parts.is_empty() => Next::Part,
            Phase::Resolving => Next::Verdicts(self.resolvers.saturating_sub(self.left)),
            Phase::Logging if !self.messages.is_empty() => Next::Message,
            Phase::Logging => Next::Acknowledgement(self.logs.saturating_sub(self.left)),
            Phase::Logged => Next::Report,
            Phase::Reporting => Next::Reported,
            Phase::Refusing(_) => Next::Answer,
            Phase::Failed if !self.waiting.is_empty() => Next::Answer,
            Phase::Failed => Next::End,
        }
    }

    /// Takes a request, of who waits for its answer after all others. While all who wait are refused, it is dropped,
    /// and who asks waits for that. Refused as `CommitProxyAt::submit` refuses it, and as `NoMemory`; then who asks is
    /// handed back, and nothing changes. It takes O(1) expected time but for growth.
    pub fn submit(&mut self, asked: CommitMessage<B>, who: W) -> Result<(), Refused<W>>
        ensures taken { OnOk result ((submit_fault self.old.phase self.old.proxy asked.transaction ≡ None)
            × (self.new ≡ record self.old {
              proxy = submitting self.old.phase self.old.proxy asked.transaction;
              waiting = self.old.waiting ++ who ∷ [];
            })) }
        ensures refused { OnErr result (self.new ≡ self.old) }
        ensures back { IfErr result (λ refused. (refused.back ≡ who) × ((refused.why ≡ NoMemory)
            ⊎ (submit_fault self.old.phase self.old.proxy asked.transaction ≡ Some refused.why))) }
    {
        if self.waiting.reserve(1).is_err() {
            drop(asked);
            return Err(Refused {
                why: Refusal::NoMemory,
                back: who,
            });
        }
        let CommitMessage { front, sealed } = asked;
        keep_longer(&mut self.asked, front);
        if let Err(why) = hand_on(&mut self.at, self.phase, sealed) {
            return Err(Refused { why, back: who });
        }
        match self.waiting.push_back(who) {
            Ok(()) => Ok(()),
            Err(_full) => unreachable!(),
        }
    }

    // Whether no batch is in flight, and everybody has the answers of the one before.
    fn is_at_rest(&self) -> bool
        ensures { result ≡ is_at_rest self.now }
    {
        matches!(self.phase, Phase::Idle) && self.replies.is_empty()
    }

    /// Seals the batch of those who wait, at most 4,096 of them, and gives it, for which the sequencer is to be asked
    /// for an entry. Refused as `WrongState` while a batch is in flight, while answers are ready, and once it has
    /// failed, and as `NoMemory`; then nothing changes.
    pub fn seal(&mut self) -> Result<BatchMessage<B>, Refusal>
        ensures answers { Answers result (seal_fault self.old) (λ asked.
            (asked.batch ≡ take place_limit self.old.proxy.waiting)
            × (self.new ≡ record self.old {
              proxy = sealing self.old.proxy;
              entered = length (sealing self.old.proxy).batch;
              phase = phase.Sealed;
            })) }
        ensures refused { OnErr result (self.new ≡ self.old) }
    {
        if !self.is_at_rest() {
            return Err(Refusal::WrongState);
        }
        self.at.check_seal()?;
        let asked = self.asked.share()?;
        let batch = self.at.seal()?;
        self.entered = self.at.in_flight();
        self.phase = Phase::Sealed;
        Ok(BatchMessage::new(asked, batch))
    }

    /// Takes the entry that the sequencer gave the batch: each resolver's part is ready then. A refusal, which
    /// `CommitProxyAt::learn` gives, or for memory, is for who then has the proxy fail.
    pub fn issued(&mut self, issued: Issued<B>) -> Result<(), Refusal>
        ensures answers { (result ≡ Err NoMemory)
            ⊎ AnswersTicket result self.old.front issued.front self.old.proxy issued.ticket }
        ensures taken { OnOk result (HasEntered self.old issued.ticket issued.front self.new) }
        ensures waiting { self.new.waiting ≡ self.old.waiting }
        ensures entered { self.new.entered ≡ self.old.entered }
        ensures kept { OnErr result
            (self.new ≡ record self.old { front = self.new.front; proxy = self.new.proxy }) }
    {
        let Issued { ticket, front } = issued;
        self.at.learn(&ticket, front)?;
        self.parts = self.at.part_messages(self.alloc)?;
        self.left = self.resolvers;
        self.phase = Phase::Resolving;
        Ok(())
    }

    /// The sequencer gave the batch no entry: its requests wait again. At every other time nothing changes. It takes no
    /// memory, and O(1) time.
    pub fn unissued(&mut self)
        ensures { self.new ≡ unissuing self.old }
    {
        self.at.unseal();
        if let Phase::Sealed = self.phase {
            self.entered = 0;
            self.phase = Phase::Idle;
        }
    }

    /// All who wait are refused for the reason, which a front shows where the book is full. Refused as `WrongState`
    /// while a batch is in flight, while answers are ready, and once it has failed; then nothing changes. It takes no
    /// memory, and O(n) time for n requests, ranges and mutations that are dropped.
    pub fn refuse_all(&mut self, why: Refusal, full: Option<GrantMessage<B>>) -> Result<(), Refusal>
        ensures answers { AnswersExactly result (if is_at_rest self.old then None else Some WrongState)
            (λ _. self.new ≡ refusing self.old why (option_map (λ (granted : GrantAtFront). granted.front) full)) }
        ensures refused { OnErr result (self.new ≡ self.old) }
    {
        if !self.is_at_rest() {
            return Err(Refusal::WrongState);
        }
        self.at.refuse_all();
        self.full = match full {
            Some(granted) => Some(granted.into_front()),
            None => None,
        };
        self.phase = Phase::Refusing(why);
        self.rest();
        Ok(())
    }

    // All who were to be refused are told so, if nobody waits.
    fn rest(&mut self)
        ensures { self.new ≡ rested self.old }
    {
        if let Phase::Refusing(_) = self.phase
            && self.waiting.is_empty()
        {
            self.full = None;
            self.phase = Phase::Idle;
        }
    }

    /// Takes a resolver's verdicts. Once those of all resolvers came, the batch is decided, and each log's message is
    /// ready. Refused as `Stale` where they are late or come again, and then nothing changes; any other refusal is for
    /// who then has the proxy fail.
    pub fn verdict(&mut self, message: VerdictMessage<B>) -> Result<(), Refusal>
        ensures late { IfSome (verdict_fault self.old.front self.old.proxy message) (λ why.
            (result ≡ Err why) × (self.new ≡ self.old)) }
        ensures taken { OnOk result (self.new ≡ judged self.old (with_verdict self.old.proxy message.verdicts)) }
        ensures why { IfErr result (λ why. (verdict_fault self.old.front self.old.proxy message ≡ Some why)
            ⊎ (why ≡ NoMemory) ⊎ (decide_fault (with_verdict self.old.proxy message.verdicts) ≡ Some why)) }
        ensures waiting { self.new.waiting ≡ self.old.waiting }
        ensures entered { self.new.entered ≡ self.old.entered }
        ensures kept { OnErr result
            (self.new ≡ record self.old { proxy = self.new.proxy; left = self.new.left }) }
    {
        self.at.verdict(message)?;
        self.left = self.left.saturating_sub(1);
        if self.left > 0 {
            return Ok(());
        }
        self.decide()
    }

    // Decides the batch.
    fn decide(&mut self) -> Result<(), Refusal>
        ensures taken { OnOk result (self.new ≡ decided self.old) }
        ensures why { IfErr result (λ why. (why ≡ NoMemory) ⊎ (decide_fault self.old.proxy ≡ Some why)) }
        ensures waiting { self.new.waiting ≡ self.old.waiting }
        ensures entered { self.new.entered ≡ self.old.entered }
        ensures kept { OnErr result (self.new ≡ record self.old { proxy = self.new.proxy }) }
    {
        self.at.decide()?;
        self.messages = self.at.log_messages(self.alloc)?;
        self.left = self.logs;
        self.phase = Phase::Logging;
        Ok(())
    }

    /// Takes a log's acknowledgement. Refused as `CommitProxyAt::logged` refuses it, as `Stale` where it is late or
    /// comes again; then nothing changes. It takes no memory, and O(1) time.
    pub fn logged(&mut self, message: &AckMessage<B>) -> Result<(), Refusal>
        ensures answers { AnswersExactly result (ack_fault self.old.front self.old.proxy message.now)
            (λ _. self.new ≡ acknowledged self.old message.now) }
        ensures refused { OnErr result (self.new ≡ self.old) }
    {
        self.at.logged(message)?;
        self.left = self.left.saturating_sub(1);
        if self.left == 0 {
            self.phase = Phase::Logged;
        }
        Ok(())
    }

    /// What is to be reported to the sequencer, once all logs have the batch, for which it waits then. Refused as
    /// `CommitProxyAt::logged_front` refuses it, and then nothing changes.
    pub fn logged_front(&mut self) -> Result<LoggedFront<B>, Refusal>
        ensures answers { Answers result (all_logged_fault self.old.proxy) (λ logged.
            (logged ≡ self.old.front) × (self.new ≡ record self.old { phase = phase.Reporting })) }
        ensures refused { OnErr result (self.new ≡ self.old) }
    {
        let logged = self.at.logged_front()?;
        self.phase = Phase::Reporting;
        Ok(logged)
    }

    /// Takes what says that the batch is reported: the answers to its clients are ready, each by what became of its
    /// place, and the next batch may be sealed once they are given. A client for whose answer memory ran out is told
    /// that it isn't known what became of it. Refused as `Stale` where another front was reported, as `WrongState`
    /// unless all logs have acknowledged the batch, as `Failed`, and as `NoMemory`; that is for who then has the proxy
    /// fail.
    pub fn reported(&mut self, reported: &Reported<B>) -> Result<(), Refusal>
        ensures taken { OnOk result ((report_fault self.old.front self.old.proxy reported.now ≡ None)
            × AreRepliesFrom self.old.front 0 (answers_in self.old.proxy.stage) self.new.replies
            × (self.new ≡ record self.old {
              proxy = finishing self.old.proxy;
              replies = self.new.replies;
              entered = 0;
              phase = phase.Idle;
            })) }
        ensures why { IfErr result (λ why.
            (why ≡ NoMemory) ⊎ (report_fault self.old.front self.old.proxy reported.now ≡ Some why)) }
        ensures waiting { self.new.waiting ≡ self.old.waiting }
        ensures entered { OnErr result (self.new.entered ≡ self.old.entered) }
        ensures kept { OnErr result (self.new ≡ record self.old { proxy = self.new.proxy }) }
    {
        self.replies = self.at.reported(self.alloc, reported)?;
        self.entered = 0;
        self.phase = Phase::Idle;
        Ok(())
    }

    /// The next part that is ready, if there is one. It takes no memory, and O(1) time.
    pub fn ready_part(&mut self) -> Option<PartMessage<B>>
        ensures first { self.old.parts ≡ option_to_list result ++ self.new.parts }
        ensures none { IfNone result (self.old.parts ≡ []) }
        ensures rest { self.new ≡ record self.old { parts = self.new.parts } }
    {
        take_first(&mut self.parts)
    }

    /// The next log's message that is ready, if there is one. It takes no memory, and O(1) time.
    pub fn ready_message(&mut self) -> Option<LogMessage<B>>
        ensures first { self.old.messages ≡ option_to_list result ++ self.new.messages }
        ensures none { IfNone result (self.old.messages ≡ []) }
        ensures rest { self.new ≡ record self.old { messages = self.new.messages } }
    {
        take_first(&mut self.messages)
    }

    // Whether an answer is ready for who waits first, if anybody waits.
    fn has_answer(&self) -> bool
        ensures { result ≡ has_answer self.now }
    {
        !self.replies.is_empty() || matches!(self.phase, Phase::Refusing(_) | Phase::Failed)
    }

    /// Who waits first with the answer, if one is ready. A proxy that has failed, or refuses all, has one for everybody
    /// who waits: a failed one tells `CommitUnknownResult` whose batch has an entry or may have one, and `Failed` all
    /// others. It takes O(1) time, and no memory but for a share of a front that shows that the book is full; where
    /// that lacks memory, who waits is told of that.
    pub fn ready_answer(&mut self) -> Option<(W, CommitReply<B>)>
        ensures first { IfSome result (λ told. self.old.waiting ≡ told.0 ∷ self.new.waiting) }
        ensures answer { IfSome result (λ told. IsAnswer self.old told.1) }
        ensures rest { OnSome result (self.new ≡ answered self.old) }
        ensures none { IfNone result ((self.new ≡ self.old)
            × ((has_answer self.old ≡ false) ⊎ (self.old.waiting ≡ []))) }
    {
        if !self.has_answer() {
            return None;
        }
        let who = take_first(&mut self.waiting)?;
        let reply = self.take_reply();
        self.rest();
        Some((who, reply))
    }

    // The answer of who waits first.
    fn take_reply(&mut self) -> CommitReply<B>
        requires { has_answer self.old ≡ true }
        ensures answer { IsAnswer self.old result }
        ensures left { self.new ≡ without_answer self.old }
    {
        if let Some(reply) = take_first(&mut self.replies) {
            return reply;
        }
        match self.phase {
            Phase::Refusing(why) => self.refusal(why),
            Phase::Failed => CommitReply::Refused(self.loss()),
            _ => unreachable!(),
        }
    }

    // What who is refused is told.
    fn refusal(&self, why: Refusal) -> CommitReply<B>
        ensures { IsRefusal why self.now.full result }
    {
        match &self.full {
            Some(front) => match front.share() {
                Ok(front) => CommitReply::Full(front),
                Err(why) => CommitReply::Refused(why),
            },
            None => CommitReply::Refused(why),
        }
    }

    // Why who waits first has no outcome of a proxy that failed: it isn't known what becomes of those whose batch has
    // an entry, or may have one.
    fn loss(&mut self) -> Refusal
        ensures why { result ≡ (if self.old.entered == 0 then Failed else CommitUnknownResult) }
        ensures left { self.new ≡ record self.old { entered = self.old.entered - 1 } }
    {
        if self.entered == 0 {
            return Refusal::Failed;
        }
        self.entered -= 1;
        Refusal::CommitUnknownResult
    }

    /// The proxy has failed, and answers whether a batch of its has an entry, or may have one, that not all may come to
    /// know. It takes no memory, and O(n) time for n requests, ranges and mutations that are dropped.
    pub fn fail(&mut self) -> bool
        ensures entered { result ≡ nat_lt 0 self.old.entered }
        ensures failed { self.new ≡ failing self.old }
    {
        self.at.fail();
        self.at.refuse_all();
        self.phase = Phase::Failed;
        self.entered > 0
    }

    /// The number of the last entry that it learnt, if there is one. It takes no memory, and O(1) time.
    pub fn entry(&self) -> Option<u32>
        ensures { IfSome result (λ index. length self.now.front ≡ suc index) }
    {
        self.at.entry()
    }
}
