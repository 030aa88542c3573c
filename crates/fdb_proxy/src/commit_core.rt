use crate::config::Config;
use crate::decision::Decision;
use crate::logging::{Logging, logged};
use crate::outcome::Outcome;
use crate::requests::Requests;
use crate::resolving::verdict;
use crate::stage::Stage;
use crate::ticketing::{is_stale, resolve};
use fdb_keys::{Items, Refusal, Refused};
use fdb_log::{LogAck, LogMsg};
use fdb_owners::Owners;
use fdb_resolver::{Part, Verdicts};
use fdb_sequencer::Ticket;
use fdb_storage::ShardMap;
use fdb_txn::{Batch, Sealed, TxnId};
use std::alloc::Global;
use std::marker::Model;
use std::mem;

/// A commit proxy: it makes batches of what is submitted, asks resolvers about them, decides, and tells the logs.
///
/// A batch is sealed, and given up or, once it has a ticket, resolved; it is decided, logged and done. Then the next
/// one may be sealed. Once memory ran out while it learnt a ticket, or once it was told to fail, a proxy has failed:
/// every call that may be refused is, as `Failed`. A batch whose ticket it didn't learn, since memory ran out, has an
/// entry all the same. So it stays in flight for good: nothing gives it up, and its requests never wait again.
#[derive(Drop)]
pub struct CommitCore {
    alloc: Global,
    index: u32,
    logs: u32,
    shards: ShardMap,
    owners: Owners,
    // the version of the last ticket
    last: u64,
    requests: Requests,
    stage: Stage,
    is_failed: bool,
}

impl Model for CommitCore {
    ghost use Rattle.fdb_proxy.specs.CommitProxies.{ProxyWithRoom, IsCommitProxy};
    ghost use Rattle.fdb_proxy.specs.CommitFields.{proxy_of, with_room};

    ghost Value = { ProxyWithRoom };

    ghost view = { with_room };

    ghost invariant = { λ core. IsCommitProxy (proxy_of core) };
}

impl CommitCore {
    ghost use Rattle.std.specs.Prelude.{◌≡◌, ◌==◌, ◌≤◌, ⊤, true, not, [], take, length, IsSome, IsNone, IfOk, OnErr};
    ghost use Rattle.std.specs.Prelude.{None, map};
    ghost use Rattle.fdb_keys.specs.Answers.{Answers, AnswersExactly, AnswersOrHandsBack, AnswersExactlyOrHandsBack};
    ghost use Rattle.fdb_txn.specs.Limits.{place_limit};
    ghost use Rattle.fdb_txn.specs.book.Transactions.{Transaction};
    ghost use Rattle.fdb_owners.specs.Ownership.{resolvers_of};
    ghost use Rattle.fdb_proxy.specs.CommitProxies.{new_fault, IsNewProxy, is_idle, failed_fault, id_fault};
    ghost use Rattle.fdb_proxy.specs.CommitProxies.{submit_fault, submitting, seal_fault, sealing, unsealing};
    ghost use Rattle.fdb_proxy.specs.CommitProxies.{IsTicketFor, learn_fault, HasLearntTicket, HasFailed, parts_fault};
    ghost use Rattle.fdb_proxy.specs.CommitProxies.{parts_in, verdict_fault, with_verdict, decide_fault, decision_in};
    ghost use Rattle.fdb_proxy.specs.CommitProxies.{deciding, messages_fault, messages_of, logged_fault, with_logged};
    ghost use Rattle.fdb_proxy.specs.CommitProxies.{all_logged_fault, done_fault, answers_in, finishing};
    ghost use Rattle.fdb_proxy.specs.Logging.{messages_by};
    ghost use Rattle.fdb_proxy.specs.declared.stage.Stage.TheVariants as Stage;

    /// The commit proxy with the number, of so many roles as the configuration says. Nobody waits there yet. Refused as
    /// `BadConfig` where the configuration isn't legal and where it has no proxy with the number, and as `NoMemory`.
    pub fn new(alloc: Global, index: u32, config: &Config) -> Result<Self, Refusal>
        ensures { Answers result (new_fault index config.now) (λ core. IsNewProxy index config.now core.proxy) }
    {
        config.check()?;
        if index >= config.proxies {
            return Err(Refusal::BadConfig);
        }
        let splits = config.resolver_splits.as_slice();
        let owners = Owners::new(alloc, splits, splits.len() as u32 + 1)?;
        let shards = ShardMap::new(alloc, config.shard_splits.as_slice())?;
        Ok(CommitCore {
            alloc,
            index,
            logs: config.logs,
            shards,
            owners,
            last: 0,
            requests: Requests::new(alloc),
            stage: Stage::Idle,
            is_failed: false,
        })
    }

    /// Whether no batch is in flight. One is from `seal` on, until it is given up or done, and for good once memory ran
    /// out while its ticket was learnt. It takes no memory, and O(1) time.
    pub fn is_idle(&self) -> bool
        ensures { result ≡ is_idle self.now.proxy.stage }
    {
        matches!(self.stage, Stage::Idle)
    }

    /// The transactions of the batch that is sealed or in flight, by place, 4,096 at most: from `seal` on, until it is
    /// given up or done, and none where no batch is. It takes no memory, and O(1) time.
    pub fn batch(&self) -> &[Sealed]
        ensures value { result.now ≡ self.now.proxy.batch }
        ensures within { length self.now.proxy.batch ≤ place_limit }
    {
        self.requests.batch()
    }

    /// Whether a request waits for a batch. It takes no memory, and O(1) time.
    pub fn waits(&self) -> bool
        ensures { result ≡ not (length self.now.proxy.waiting == 0) }
    {
        !self.requests.nobody_waits()
    }

    /// How many resolvers the proxy asks, one more than the configuration has splits between them. It takes no memory,
    /// and O(1) time.
    pub fn resolvers(&self) -> u32
        ensures { result ≡ resolvers_of self.now.proxy.owners }
    {
        self.owners.resolvers()
    }

    /// Whether the proxy has failed: then every call that may be refused is, as `Failed`. It takes no memory, and O(1)
    /// time.
    pub fn is_failed(&self) -> bool
        ensures { result ≡ self.now.proxy.is_failed }
    {
        self.is_failed
    }

    /// Makes room for one more request, so that a `submit` that comes next takes no memory. It is promised of that one
    /// alone: what any other call that changes the proxy leaves of the room isn't said. Nothing else changes. It takes
    /// O(1) expected time, amortised over the requests that are submitted. Refused as `Failed`, and as `NoMemory`.
    pub fn reserve(&mut self) -> Result<(), Refusal>
        ensures answers { Answers result (failed_fault self.old.proxy) (λ _. 1 ≤ self.new.spare) }
        ensures same { self.new.proxy ≡ self.old.proxy }
    {
        self.check_works()?;
        self.requests.reserve()?;
        Ok(())
    }

    /// Takes a request, which waits for a batch after those that wait already. It takes no memory where there is room
    /// for one more. Refused as `Failed`; as `Repeated` where a request of its id is in flight or waits, with the place
    /// of that one, counted from the first place of the batch in flight on through those that wait (and no higher than
    /// 2^32 - 1); and as `NoMemory`. A refusal hands the request back, and nothing changes. It takes O(1) expected
    /// time, amortised where it makes room, and where it is refused as `Repeated` O(n) for n requests in flight and
    /// waiting.
    pub fn submit(&mut self, sealed: Sealed) -> Result<(), Refused<Sealed>>
        ensures answers { AnswersOrHandsBack result sealed (submit_fault self.old.proxy sealed)
            (λ _. self.new.proxy ≡ submitting self.old.proxy sealed) }
        ensures room { 1 ≤ self.old.spare → AnswersExactlyOrHandsBack result sealed
            (submit_fault self.old.proxy sealed) (λ _. ⊤) }
        ensures refused { OnErr result (self.new.proxy ≡ self.old.proxy) }
    {
        if let Err(why) = self.check_id(sealed.id()) {
            return Err(Refused { why, back: sealed });
        }
        match self.requests.submit(sealed) {
            Ok(()) => Ok(()),
            Err(failed) => Err(Refused {
                why: Refusal::NoMemory,
                back: failed.value,
            }),
        }
    }

    /// The proxy has failed from now on.
    pub fn fail(&mut self)
        ensures { self.new.proxy ≡ record self.old.proxy { is_failed = true } }
    {
        self.is_failed = true;
    }

    /// The first 4,096 of those that wait, in order, become the batch in flight, all of them where there are no more.
    /// Answers it, and shares its transactions. It takes O(n) time for n requests that wait, and copies transactions
    /// only where more than 4,096 wait, and where others wait behind a batch that was given up. Refused as `Failed`, as
    /// `WrongState` where a batch is in flight already, and as `NoMemory`, and then nothing changes.
    pub fn seal(&mut self) -> Result<Batch, Refusal>
        ensures answers { Answers result (seal_fault self.old.proxy)
            (λ batch. (batch ≡ take place_limit self.old.proxy.waiting) × (self.new.proxy ≡ sealing self.old.proxy)) }
        ensures refused { OnErr result (self.new.proxy ≡ self.old.proxy) }
    {
        self.check_works()?;
        let Stage::Idle = self.stage else {
            return Err(Refusal::WrongState);
        };
        let batch = self.requests.seal()?;
        self.stage.enter(Stage::Sealed);
        Ok(batch)
    }

    /// Gives up a sealed batch, which has no entry yet: its requests wait again, before all others. At every other
    /// stage nothing changes, also once memory ran out while the batch's ticket was learnt: its entry stands, and its
    /// requests must not come into another one. It takes no memory, and O(1) time.
    pub fn unseal(&mut self)
        ensures { self.new.proxy ≡ unsealing self.old.proxy }
    {
        if let Stage::Sealed = self.stage {
            self.requests.unseal();
            self.stage = Stage::Idle;
        }
    }

    /// Drops those that wait, and answers their ids in order. Those in flight stay and aren't named, so neither is a
    /// batch whose ticket was learnt, or for whose ticket memory ran out. It takes no memory, and O(n) expected time
    /// for n requests, ranges and mutations that are dropped.
    pub fn refuse_all(&mut self) -> Items<TxnId>
        ensures ids { result ≡ map (λ (t : Transaction). t.id) self.old.proxy.waiting }
        ensures left { self.new.proxy ≡ record self.old.proxy { waiting = [] } }
    {
        self.requests.refuse_all()
    }

    /// Learns the ticket of the batch: its moves, and what each resolver is asked about the batch. The ticket's version
    /// is above what the batch read at, and its moves, at versions that rise up to the ticket's, go to resolvers that
    /// exist. Its horizon lies below its version, and isn't below that of an earlier ticket: who owned what before the
    /// horizon is forgotten. Refused as `Failed`, as `WrongState` unless a batch is sealed, as `Stale` where the
    /// ticket's version or that of one of its moves isn't above the last ticket's, and then nothing changes; and as
    /// `NoMemory`. Then the proxy has failed and keeps the batch in flight, whose entry stands, so that it can't be
    /// unsealed. The ticket's version is its last one, and it may have learnt some of the ticket's moves, and forgotten
    /// owners from before its horizon; all else is as it was.
    pub fn learn(&mut self, ticket: &Ticket) -> Result<(), Refusal>
        requires { IsTicketFor self.old.proxy ticket.now }
        ensures answers { Answers result (learn_fault self.old.proxy ticket.now)
            (λ _. HasLearntTicket self.old.proxy ticket.now self.new.proxy) }
        ensures refused { IsSome (learn_fault self.old.proxy ticket.now) → self.new.proxy ≡ self.old.proxy }
        ensures failed { IsNone (learn_fault self.old.proxy ticket.now)
            → OnErr result (HasFailed self.old.proxy ticket.now self.new.proxy) }
    {
        self.check_ticket(ticket)?;
        self.last = ticket.version;
        let batch = self.requests.batch();
        match resolve(self.alloc, &mut self.owners, ticket, batch) {
            Ok(batch) => {
                self.stage.enter(Stage::Resolving(batch));
                Ok(())
            }
            Err(why) => {
                self.lose_ticket();
                Err(why)
            }
        }
    }

    /// Learns the ticket of the batch, as `learn` does, and answers what each resolver is asked about it, as `parts`
    /// does then: one part for each of them in order. Refused as `learn` is. Where memory runs out, also for the parts,
    /// the proxy has failed just as after `learn`. It takes the time of `learn`, and O(n) for the parts' n items, with
    /// their ranges.
    pub fn learn_with_parts(&mut self, ticket: &Ticket) -> Result<Items<Part>, Refusal>
        requires { IsTicketFor self.old.proxy ticket.now }
        ensures answers { Answers result (learn_fault self.old.proxy ticket.now)
            (λ parts. HasLearntTicket self.old.proxy ticket.now self.new.proxy
            × (parts ≡ parts_in self.new.proxy.stage)) }
        ensures refused { IsSome (learn_fault self.old.proxy ticket.now) → self.new.proxy ≡ self.old.proxy }
        ensures failed { IsNone (learn_fault self.old.proxy ticket.now)
            → OnErr result (HasFailed self.old.proxy ticket.now self.new.proxy) }
    {
        self.learn(ticket)?;
        match self.parts() {
            Ok(parts) => Ok(parts),
            Err(why) => {
                self.lose_ticket();
                Err(why)
            }
        }
    }

    /// What each resolver is asked about the batch, one part for each of them in order. Refused as `Failed`, as
    /// `WrongState` unless the batch waits for verdicts, and as `NoMemory`.
    pub fn parts(&self) -> Result<Items<Part>, Refusal>
        ensures { Answers result (parts_fault self.now.proxy) (λ parts. parts ≡ parts_in self.now.proxy.stage) }
    {
        self.check_works()?;
        let Stage::Resolving(batch) = &self.stage else {
            return Err(Refusal::WrongState);
        };
        let parts = batch.copy_parts()?;
        Ok(parts)
    }

    /// Takes a resolver's verdicts, with what it found. It takes no memory. Refused as `Failed`; as `Stale` unless the
    /// batch waits for just these: they are on its entry, on just the places of the resolver's part, and the resolver's
    /// first. Then nothing changes.
    pub fn verdict(&mut self, verdicts: Verdicts) -> Result<(), Refusal>
        ensures answers { AnswersExactly result (verdict_fault self.old.proxy verdicts)
            (λ _. self.new.proxy ≡ with_verdict self.old.proxy verdicts) }
        ensures refused { OnErr result (self.new ≡ self.old) }
    {
        self.check_works()?;
        match &mut self.stage {
            Stage::Resolving(batch) => verdict(batch, verdicts),
            _ => Err(Refusal::Stale),
        }
    }

    /// Decides the batch: a place commits where all resolvers that are asked about it say yes, is old where one says
    /// so, and else conflicts. Answers what becomes of each place, and of each one in conflict the points that some
    /// resolver found. It takes O(n) time for n places and verdicts, and for a place in conflict O(m log m) where more
    /// than one resolver found some of its m ranges. Refused as `Failed`, as `WrongState` unless the batch waits for
    /// verdicts, as `NotYet` with the least resolver that is asked about some place and whose verdicts haven't come,
    /// and as `NoMemory`. Then nothing changes.
    pub fn decide(&mut self) -> Result<Decision, Refusal>
        ensures answers { Answers result (decide_fault self.old.proxy) (λ decision.
            (decision ≡ decision_in self.old.proxy) × (self.new.proxy ≡ deciding self.old.proxy)) }
        ensures refused { OnErr result (self.new ≡ self.old) }
    {
        let (decision, decided) = self.decided()?;
        self.stage.enter(Stage::Logging(decided));
        Ok(decision)
    }

    /// Decides the batch, as `decide` does, and answers with what it decided the message of the batch for
    /// each log, as `messages` does then. Refused as `decide` is, also where memory runs out for the messages. Then
    /// nothing changes. Once the tags are found, it takes O(n + l) time for the n places, verdicts and mutations of one
    /// tag of the batch and l logs, O(l t) more for each mutation of t tags, and O(b) more for operands of b bytes that
    /// are stamped.
    pub fn decide_with_messages(&mut self) -> Result<(Decision, Items<LogMsg>), Refusal>
        ensures answers { Answers result (decide_fault self.old.proxy) (λ given.
            (given.0 ≡ decision_in self.old.proxy) × (self.new.proxy ≡ deciding self.old.proxy)
            × (given.1 ≡ messages_of self.new.proxy)) }
        ensures refused { OnErr result (self.new ≡ self.old) }
    {
        let (decision, decided) = self.decided()?;
        let messages = self.messages_by(&decided)?;
        self.stage.enter(Stage::Logging(decided));
        Ok((decision, messages))
    }

    /// The message of the batch for each log: the mutations of the places that commit of which the log keeps a tag, by
    /// place and then in the transaction's order. Each has the stamp of its commit, the batch's version and its place:
    /// no message has a `Stamped`. Once the tags are found, it takes O(n + l) time for the n places and mutations of
    /// one tag of the batch and l logs, O(l t) more for each mutation of t tags, and O(b) more for operands of b bytes
    /// that are stamped. Refused as `Failed`, as `WrongState` unless the batch is decided and isn't done, and as
    /// `NoMemory`.
    pub fn messages(&self) -> Result<Items<LogMsg>, Refusal>
        ensures { Answers result (messages_fault self.now.proxy) (λ messages. messages ≡ messages_of self.now.proxy) }
    {
        self.check_works()?;
        let Stage::Logging(decided) = &self.stage else {
            return Err(Refusal::WrongState);
        };
        self.messages_by(decided)
    }

    /// Takes a log's acknowledgement. It takes no memory. Refused as `Failed`; as `Stale` unless the batch waits for
    /// it: it is of its entry, of a log that there is, and the log's first. Then nothing changes.
    pub fn logged(&mut self, ack: LogAck) -> Result<(), Refusal>
        ensures answers { AnswersExactly result (logged_fault self.old.proxy ack)
            (λ _. self.new.proxy ≡ with_logged self.old.proxy ack) }
        ensures refused { OnErr result (self.new ≡ self.old) }
    {
        self.check_works()?;
        match &mut self.stage {
            Stage::Logging(decided) => logged(decided, ack),
            _ => Err(Refusal::Stale),
        }
    }

    /// Whether all logs have acknowledged the batch. It takes no memory. Refused as `Failed`, as `WrongState` unless
    /// the batch is decided and isn't done, and as `NotYet` with the least log whose acknowledgement hasn't come.
    pub fn all_logged(&self) -> Result<(), Refusal>
        ensures { AnswersExactly result (all_logged_fault self.now.proxy) (λ _. ⊤) }
    {
        self.check_works()?;
        let Stage::Logging(decided) = &self.stage else {
            return Err(Refusal::WrongState);
        };
        match decided.first_missing() {
            Some(missing) => Err(Refusal::NotYet(missing as u64)),
            None => Ok(()),
        }
    }

    /// The batch is done: answers the id of each transaction with what became of it, by place. The next batch may be
    /// sealed. It takes no memory, and O(n) expected time for n requests in flight and waiting, and ranges and
    /// mutations that are dropped. Refused as `Failed`, and as `WrongState` unless all logs have acknowledged the
    /// batch. Then nothing changes.
    pub fn done(&mut self) -> Result<Items<(TxnId, Outcome)>, Refusal>
        ensures answers { AnswersExactly result (done_fault self.old.proxy) (λ answers.
            (answers ≡ answers_in self.old.proxy.stage) × (self.new.proxy ≡ finishing self.old.proxy)) }
        ensures refused { OnErr result (self.new.proxy ≡ self.old.proxy) }
    {
        self.check_works()?;
        if !self.stage.is_logged() {
            return Err(Refusal::WrongState);
        }
        self.requests.finish();
        let stage = mem::replace(&mut self.stage, Stage::Idle);
        Ok(stage.into_answers(self.alloc))
    }

    // The batch has an entry, but its ticket wasn't learnt: the proxy has failed.
    fn lose_ticket(&mut self)
        ensures { self.new.proxy ≡ record self.old.proxy { stage = Stage.Entered; is_failed = true } }
    {
        self.stage.enter(Stage::Entered);
        self.is_failed = true;
    }

    // What is decided, and the batch once it is.
    fn decided(&self) -> Result<(Decision, Logging), Refusal>
        ensures answers { Answers result (decide_fault self.now.proxy) (λ given.
            (given.0 ≡ decision_in self.now.proxy)
            × (deciding self.now.proxy ≡ record self.now.proxy { stage = Stage.Logging given.1 })) }
        ensures each { IfOk result (λ given. length self.now.proxy.batch ≡ length given.1.answers) }
    {
        self.check_works()?;
        let Stage::Resolving(batch) = &self.stage else {
            return Err(Refusal::WrongState);
        };
        if let Some(missing) = batch.first_missing() {
            return Err(Refusal::NotYet(missing as u64));
        }
        let places = self.requests.batch();
        let outcomes = batch.outcomes(self.alloc, places.len())?;
        let conflicts = batch.conflicts(self.alloc, places.len())?;
        let decided = Logging::new(
            self.alloc,
            batch.position,
            places,
            outcomes.as_slice(),
            self.logs,
        )?;
        Ok((
            Decision {
                outcomes,
                conflicts,
            },
            decided,
        ))
    }

    // The message for each log of the batch that is decided so.
    fn messages_by(&self, decided: &Logging) -> Result<Items<LogMsg>, Refusal>
        requires { length self.now.proxy.batch ≡ length decided.now.answers }
        ensures { Answers result None (λ messages. messages
            ≡ messages_by self.now.proxy.shard_splits self.now.proxy.logs self.now.proxy.batch decided.now) }
    {
        let batch = self.requests.batch();
        decided.messages(self.alloc, &self.shards, self.logs, batch)
    }

    fn check_works(&self) -> Result<(), Refusal>
        ensures { AnswersExactly result (failed_fault self.now.proxy) (λ _. ⊤) }
    {
        if self.is_failed {
            return Err(Refusal::Failed);
        }
        Ok(())
    }

    // Whether a request of this id may be taken.
    fn check_id(&self, id: TxnId) -> Result<(), Refusal>
        ensures { AnswersExactly result (id_fault self.now.proxy id) (λ _. ⊤) }
    {
        self.check_works()?;
        match self.requests.place_of(id) {
            Some(place) => Err(Refusal::Repeated(place.min(u32::MAX as usize) as u32)),
            None => Ok(()),
        }
    }

    // Whether the ticket may be learnt.
    fn check_ticket(&self, ticket: &Ticket) -> Result<(), Refusal>
        ensures { AnswersExactly result (learn_fault self.now.proxy ticket.now) (λ _. ⊤) }
    {
        self.check_works()?;
        let Stage::Sealed = self.stage else {
            return Err(Refusal::WrongState);
        };
        if is_stale(self.last, ticket) {
            return Err(Refusal::Stale);
        }
        Ok(())
    }
}
