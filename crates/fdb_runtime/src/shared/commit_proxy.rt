//! A commit proxy that threads share.
ghost use Rattle.std.specs.Prelude.{◌≡◌, ◌<◌, [], ⊤, length, None};
ghost use Rattle.fdb_keys.specs.Answers.{Answers};
ghost use Rattle.fdb_proxy.specs.Configs.{config_fault};

use crate::gate::{Pass, Role};
use crate::shared::Shared;
use crate::shared::resolver::SharedResolver;
use crate::shared::role::{Act, Lent, SharedRole, end, help};
use crate::shared::slot::Slot;
use crate::threads::channel::receive;
use crate::threads::request::CommitRequest;
use crossbeam_channel::Receiver;
use fdb_book::Book;
use fdb_keys::Refusal;
use fdb_proxy::Config;
use fdb_sections::{
    AckMessage, CommitMachine, CommitReply, DatabaseName, GrantMessage, Issued, LogMessage, Next,
    SentPart, VerdictMessage,
};
use std::alloc::Global;
use std::sync::{Arc, Wait};

// For how many requests in one batch the threads of resolvers are woken. To judge fewer takes less time than that.
const MANY: usize = 64;

/// A commit proxy that threads share.
pub(crate) type SharedCommitProxy<B> = SharedRole<CommitRole<B>, CommitRequest<B>>;

/// A commit proxy, beside the slots of who waits for its answers, and the channels for verdicts.
#[derive(Drop)]
pub(crate) struct CommitRole<B: DatabaseName> {
    number: u32,
    machine: CommitMachine<B, Arc<Slot<CommitReply<B>>>>,
    // One channel for each resolver, in the order of their numbers.
    verdicts: Vec<Receiver<Option<VerdictMessage<B>>>>,
    // How many requests came at once, about as many as the batch has.
    taken: usize,
}

impl<B: DatabaseName> CommitRole<B> {
    /// The commit proxy with the number, which nobody has asked, of so many resolvers, from each of which its verdicts
    /// come at one of these ends, in the order of their numbers. Refused only as `NoMemory`.
    pub(crate) fn new(
        alloc: Global,
        book: &Book<B>,
        number: u32,
        config: &Config,
        resolvers: u32,
        verdicts: Vec<Receiver<Option<VerdictMessage<B>>>>,
    ) -> Result<Self, Refusal>
        requires config { config.now ≡ B.config }
        requires legal { config_fault B.config ≡ None }
        requires number { number < config.now.proxies }
        requires tied { length verdicts.items ≡ resolvers }
        ensures { Answers result None (λ _. ⊤) }
    {
        let machine = CommitMachine::new(alloc, book, number, config, resolvers)?;
        Ok(CommitRole {
            number,
            machine,
            verdicts,
            taken: 0,
        })
    }

    // Takes a request, or answers why it is refused.
    fn take<R: Wait>(&mut self, rt: &R, request: CommitRequest<B>) {
        let CommitRequest { asked, reply } = request;
        if let Err(refused) = self.machine.submit(asked, reply) {
            refused.back.put(rt, CommitReply::Refused(refused.why));
        }
    }

    // Does what the proxy wants next, and tells whether that is more than requests.
    fn step<R: Wait, G: Pass>(&mut self, rt: &R, lent: &Lent<'_, B, G>) -> Result<bool, Refusal> {
        match self.machine.next() {
            Next::Request => return Ok(false),
            Next::Seal => self.issue(rt, lent)?,
            Next::Part => self.send_part(rt, lent)?,
            Next::Verdicts(resolver) => self.take_verdicts(rt, lent, resolver)?,
            Next::Message => self.push_message(rt, lent.shared)?,
            Next::Report => self.report(rt, lent)?,
            Next::Answer => self.tell_all(rt),
            Next::Entry | Next::Acknowledgement(_) | Next::Reported | Next::End => {
                return Err(Refusal::Failed);
            }
        }
        Ok(true)
    }

    // Seals the batch, and has the sequencer give it its entry.
    fn issue<R: Wait, G: Pass>(&mut self, rt: &R, lent: &Lent<'_, B, G>) -> Result<(), Refusal> {
        let asked = self.machine.seal()?;
        match lent.shared.issue(rt, self.number, asked) {
            Ok(issued) => self.issued(lent.gate, issued),
            Err(why) => self.give_up(rt, lent.shared, why),
        }
    }

    // The batch has its entry.
    fn issued<G: Pass>(&mut self, gate: &G, issued: Issued<B>) -> Result<(), Refusal> {
        self.machine.issued(issued)?;
        if let Some(entry) = self.machine.entry() {
            gate.before(Role::CommitProxy(self.number), entry);
        }
        Ok(())
    }

    // The sequencer gave the batch no entry. Where that is for good, all that wait are told so, else the proxy fails.
    fn give_up<R: Wait>(
        &mut self,
        rt: &R,
        shared: &Shared<B>,
        why: Refusal,
    ) -> Result<(), Refusal> {
        self.machine.unissued();
        match why {
            Refusal::NoMemory | Refusal::Taken => Err(why),
            Refusal::BookFull => self.refuse_full(shared.granted(rt)),
            why => self.machine.refuse_all(why, None),
        }
    }

    // Refuses all who wait, as the book is full, which what the sequencer grants shows.
    fn refuse_full(&mut self, granted: Result<GrantMessage<B>, Refusal>) -> Result<(), Refusal> {
        match granted {
            Ok(granted) => self.machine.refuse_all(Refusal::BookFull, Some(granted)),
            Err(why) => self.machine.refuse_all(why, None),
        }
    }

    // Sends a resolver its part. This thread turns to the resolvers itself, to the first one at once: so the others'
    // threads are woken only where the batch is large, or where a gate may hold this one.
    fn send_part<R: Wait, G: Pass>(
        &mut self,
        rt: &R,
        lent: &Lent<'_, B, G>,
    ) -> Result<(), Refusal> {
        let Some(message) = self.machine.ready_part() else {
            return Err(Refusal::Failed);
        };
        let number = message.resolver();
        let sent = SentPart {
            proxy: self.number,
            message,
        };
        let resolver = resolver_of(lent.shared, number)?;
        resolver.put(rt, sent)?;
        if number > 0 && (self.taken >= MANY || lent.gate.may_wait()) {
            resolver.wake();
        }
        Ok(())
    }

    // Waits for the verdicts of the resolver with the number, with which this thread works where no other one does.
    fn take_verdicts<R: Wait, G: Pass>(
        &mut self,
        rt: &R,
        lent: &Lent<'_, B, G>,
        resolver: u32,
    ) -> Result<(), Refusal> {
        help(rt, lent, resolver_of(lent.shared, resolver)?);
        let Some(from) = self.verdicts.get(resolver as usize) else {
            return Err(Refusal::Failed);
        };
        match receive(rt, from) {
            Some(message) => self.machine.verdict(message),
            None => Err(Refusal::Failed),
        }
    }

    // Has a log take its message, in its turn.
    fn push_message<R: Wait>(&mut self, rt: &R, shared: &Shared<B>) -> Result<(), Refusal> {
        let Some(message) = self.machine.ready_message() else {
            return Err(Refusal::Failed);
        };
        let pushed = push(rt, shared, &message);
        drop(message);
        self.machine.logged(&pushed?)
    }

    // Says that the batch is committed, first to the sequencer.
    fn report<R: Wait, G: Pass>(&mut self, rt: &R, lent: &Lent<'_, B, G>) -> Result<(), Refusal> {
        let reported = lent.shared.report(rt, self.machine.logged_front()?)?;
        self.machine.reported(&reported)?;
        drop(reported);
        self.tell_all(rt);
        if let Some(entry) = self.machine.entry() {
            lent.gate.after(Role::CommitProxy(self.number), entry);
        }
        Ok(())
    }

    // Gives all answers that are ready to who waits for them.
    fn tell_all<R: Wait>(&mut self, rt: &R) {
        for _ in rt.forever() {
            let Some((who, reply)) = self.machine.ready_answer() else {
                return;
            };
            who.put(rt, reply);
        }
    }
}

impl<B: DatabaseName> Act<B, CommitRequest<B>> for CommitRole<B> {
    // Commits what it is asked to, batch by batch.
    fn act<R: Wait, G: Pass>(
        &mut self,
        rt: &R,
        lent: &Lent<'_, B, G>,
        items: &mut Vec<CommitRequest<B>>,
    ) -> Result<(), Refusal> {
        self.taken = items.len();
        for request in items.drain(..) {
            self.take(rt, request);
        }
        for _ in rt.forever() {
            if !self.step(rt, lent)? {
                break;
            }
        }
        Ok(())
    }

    // Whoever is in flight doesn't get to know what became of it, and all others are refused. Not all may come to know
    // of a batch that has an entry: resolvers and logs are told, who would wait for it for ever.
    fn fail<R: Wait>(&mut self, rt: &R, shared: &Shared<B>) {
        if self.machine.fail() {
            end_resolvers(rt, shared);
            end_logs(rt, shared);
        }
        self.tell_all(rt);
    }

    fn refuse<R: Wait>(rt: &R, _shared: &Shared<B>, item: CommitRequest<B>, why: Refusal) {
        item.reply.put(rt, CommitReply::Refused(why));
    }
}

// No resolver takes anything any more.
fn end_resolvers<B: DatabaseName, R: Wait>(rt: &R, shared: &Shared<B>) {
    for resolver in shared.resolvers() {
        end(rt, shared, resolver, Refusal::Failed);
    }
}

// The resolver with the number. Refused as `Failed` where there is none.
fn resolver_of<B: DatabaseName>(
    shared: &Shared<B>,
    number: u32,
) -> Result<&SharedResolver<B>, Refusal> {
    match shared.resolvers().get(number as usize) {
        Some(resolver) => Ok(resolver),
        None => Err(Refusal::Failed),
    }
}

// No log takes anything any more.
fn end_logs<B: DatabaseName, R: Wait>(rt: &R, shared: &Shared<B>) {
    for log in shared.logs() {
        log.end(rt, Refusal::Failed);
    }
}

// Has the message's log take it, in its turn.
fn push<B: DatabaseName, R: Wait>(
    rt: &R,
    shared: &Shared<B>,
    message: &LogMessage<B>,
) -> Result<AckMessage<B>, Refusal> {
    match shared.log(message.log()) {
        Some(log) => log.push(rt, message),
        None => Err(Refusal::Unknown),
    }
}
