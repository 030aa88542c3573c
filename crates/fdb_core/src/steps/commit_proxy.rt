// The steps of the commit proxies.
ghost use Rattle.std.specs.Prelude.{◌≡◌, ◌+◌, ◌≤◌, ◌⊎◌, ◌++◌, [], ◌∷◌, false, None, Err, OnOk, OnErr, MatchResult};
ghost use Rattle.std.specs.Prelude.{vec_len, vec_capacity};
ghost use Rattle.fdb_keys.specs.declared.refusal.Refusal.TheVariants.{NoMemory};
ghost use Rattle.fdb_machine.specs.invariant.Invariant.{Invariant};
ghost use Rattle.fdb_machine.specs.declared.step.AnyStep.TheVariants as step;
ghost use Rattle.fdb_machine.specs.machine.CommitProxySteps.{taken_by_sender};
ghost use Rattle.fdb_core.specs.refinement.Cluster.{machine_of};
ghost use Rattle.fdb_core.specs.refinement.Restoring.{Tied};
ghost use Rattle.fdb_core.specs.refinement.commit_proxy.Receiving.{IsReceiver, IsUnknown};
ghost use Rattle.fdb_core.specs.refinement.commit_proxy.Sealing.{IsTicketToSeal};
ghost use Rattle.fdb_core.specs.refinement.Steps.{Takes, transition_of};
ghost use Rattle.fdb_core.specs.refinement.Views.{sender_of};

use crate::cluster::Cluster;
use crate::roles::commit_proxy::Sender;
use crate::roles::commit_proxy::replying::{place_all, reply_all, tell_all};
use crate::roles::sequencer::{issue, take_report};
use fdb_keys::{Items, RangeSet, Refusal};
use fdb_log::{LogAck, LogMsg};
use fdb_machine::Answered;
use fdb_proxy::Decision;
use fdb_resolver::Part;
use fdb_sequencer::Ticket;
use fdb_txn::Entry;
use std::alloc::AllocError;

impl Cluster {
    // The ticket of the proxy's next batch. Refused as the seal is, and as `NoMemory`.
    fn plan_seal(&self, proxy: u32, advance: u64) -> Result<Ticket, Refusal>
        requires { Tied self.now }
        ensures { MatchResult result (IsTicketToSeal self.now proxy advance)
            (λ why. (why ≡ NoMemory) ⊎ (transition_of self.now (step.Seal proxy advance) ≡ Err why)) }
    {
        let at = proxy as usize;
        if at >= self.commit_proxies.len() {
            return Err(Refusal::Unknown);
        }
        if self.commit_proxies[at].state.is_failed() {
            return Err(Refusal::Failed);
        }
        if !self.commit_proxies[at].is_idle() {
            return Err(Refusal::WrongState);
        }
        let ticket = self.sequencer.plan(proxy, advance)?;
        if self.config.book as usize <= self.book.len() {
            return Err(Refusal::BookFull);
        }
        Ok(ticket)
    }

    pub(crate) fn seal(&mut self, proxy: u32, advance: u64) -> Result<Answered, Refusal>
        requires { Tied self.old }
        ensures { Takes self.old (step.Seal proxy advance) result self.new }
    {
        let ticket = self.plan_seal(proxy, advance)?;
        make_room(
            &mut self.book,
            &mut self.entry_proxies,
            &mut self.decided,
            &mut self.parts,
            &mut self.messages,
            &mut self.conflicts,
        )?;
        let commit_proxy = &mut self.commit_proxies[proxy as usize];
        let (batch, parts) = commit_proxy.seal(self.alloc, &ticket)?;
        let places = batch.as_slice().len() as u32;
        issue(&mut self.sequencer, &ticket);
        let Ticket {
            index,
            version,
            prev,
            horizon,
            pending: moves,
            ..
        } = ticket;
        self.book.push_reserved(Entry {
            version,
            prev,
            horizon,
            moves,
            batch,
        });
        add_undecided(
            proxy,
            parts,
            &mut self.entry_proxies,
            &mut self.decided,
            &mut self.parts,
            &mut self.messages,
        );
        self.conflicts.push_reserved(Items::new(self.alloc));
        Ok(Answered::Issued {
            index,
            version,
            prev,
            places,
        })
    }

    // How many entries the sender took.
    fn taken_by(&self, sender: Sender) -> Option<u32>
        ensures { result ≡ taken_by_sender (machine_of self.now) (sender_of sender) }
    {
        match sender {
            Sender::Resolver(resolver) => match self.resolvers.get(resolver as usize) {
                Some(role) => Some(role.taken),
                None => None,
            },
            Sender::Log(log) => match self.logs.get(log as usize) {
                Some(role) => Some(role.taken),
                None => None,
            },
        }
    }

    // The proxy of the entry, to which goes what the sender, which took the entry, says of it.
    fn receiver(&self, entry: u32, sender: Sender) -> Result<usize, Refusal>
        ensures { MatchResult result (IsReceiver (machine_of self.now) entry (sender_of sender))
            (IsUnknown (machine_of self.now) entry (sender_of sender)) }
    {
        let Some(taken) = self.taken_by(sender) else {
            return Err(Refusal::Unknown);
        };
        if taken <= entry || entry as usize >= self.entry_proxies.len() {
            return Err(Refusal::Unknown);
        }
        let at = self.entry_proxies[entry as usize] as usize;
        if at >= self.commit_proxies.len() {
            return Err(Refusal::Unknown);
        }
        Ok(at)
    }

    pub(crate) fn verdict(&mut self, entry: u32, resolver: u32) -> Result<Answered, Refusal>
        requires { Tied self.old }
        ensures { Takes self.old (step.Verdict entry resolver) result self.new }
    {
        let at = self.receiver(entry, Sender::Resolver(resolver))?;
        if self.commit_proxies[at].state.is_failed() {
            return Err(Refusal::Failed);
        }
        let verdicts = self.resolvers[resolver as usize].sent_on(self.alloc, entry as usize)?;
        let commit_proxy = &mut self.commit_proxies[at];
        commit_proxy.verdict(verdicts)?;
        Ok(Answered::Done)
    }

    pub(crate) fn logged(&mut self, entry: u32, log: u32) -> Result<Answered, Refusal>
        requires { Tied self.old }
        ensures { Takes self.old (step.Logged entry log) result self.new }
    {
        let at = self.receiver(entry, Sender::Log(log))?;
        if self.commit_proxies[at].state.is_failed() {
            return Err(Refusal::Failed);
        }
        let commit_proxy = &mut self.commit_proxies[at];
        commit_proxy.logged(LogAck { log, index: entry })?;
        Ok(Answered::Done)
    }

    #[tactic(auto, unfolding(fdb_machine::specs::machine::CommitProxySteps::decides))]
    pub(crate) fn decide(&mut self, proxy: u32) -> Result<Answered, Refusal>
        requires { Tied self.old }
        ensures { Takes self.old (step.Decide proxy) result self.new }
    {
        let at = proxy as usize;
        if at >= self.commit_proxies.len() {
            return Err(Refusal::Unknown);
        }
        if self.commit_proxies[at].state.is_failed() {
            return Err(Refusal::Failed);
        }
        let i = self.commit_proxies[at].entry as usize;
        let (decision, messages) = self.commit_proxies[at].decide()?;
        let Decision {
            outcomes,
            conflicts,
        } = decision;
        self.messages[i] = Some(messages);
        self.conflicts[i] = conflicts;
        self.decided[i] = true;
        Ok(Answered::Decided(outcomes))
    }

    #[tactic(auto, unfolding(fdb_machine::specs::machine::CommitProxySteps::reports))]
    pub(crate) fn report(&mut self, proxy: u32) -> Result<Answered, Refusal>
        requires { Tied self.old }
        ensures { Takes self.old (step.Report proxy) result self.new }
    {
        let at = proxy as usize;
        if at >= self.commit_proxies.len() {
            return Err(Refusal::Unknown);
        }
        if self.commit_proxies[at].state.is_failed() {
            return Err(Refusal::Failed);
        }
        self.commit_proxies[at].check_logged()?;
        let i = self.commit_proxies[at].entry as usize;
        take_report(&mut self.sequencer, self.book[i].version);
        let commit_proxy = &mut self.commit_proxies[at];
        commit_proxy.report();
        Ok(Answered::Version(self.sequencer.committed()))
    }

    #[tactic(auto, unfolding(fdb_machine::specs::machine::CommitProxySteps::answers))]
    pub(crate) fn answer(&mut self, proxy: u32) -> Result<Answered, Refusal>
        requires tied { Tied self.old }
        requires named { Invariant (machine_of self.old) }
        ensures { Takes self.old (step.Answer proxy) result self.new }
    {
        let at = proxy as usize;
        if at >= self.commit_proxies.len() {
            return Err(Refusal::Unknown);
        }
        let commit_proxy = &self.commit_proxies[at];
        if commit_proxy.state.is_failed() {
            return Err(Refusal::Failed);
        }
        if commit_proxy.is_idle() {
            return Err(Refusal::WrongState);
        }
        let (entry, is_reported) = (commit_proxy.entry, commit_proxy.is_reported);
        if !is_reported {
            return Err(Refusal::NotYet(self.book[entry as usize].version));
        }
        // Room comes first: once the batch is done, its clients must be told.
        let count = commit_proxy.in_flight.len();
        let mut told = Vec::with_capacity(self.alloc, count)?;
        self.acknowledged.reserve(count)?;
        let commit_proxy = &mut self.commit_proxies[at];
        let (transcripts, answers) = commit_proxy.finish(self.alloc)?;
        let answers = answers.as_slice();
        reply_all(&mut told, answers);
        tell_all(&mut self.sessions, transcripts.as_slice());
        place_all(&mut self.acknowledged, entry, transcripts, answers);
        Ok(Answered::Answers(Items::from_vec(told)))
    }
}

// There is room for one more entry and for what stands beside it, before a role changes.
fn make_room(
    book: &mut Vec<Entry>,
    entry_proxies: &mut Vec<u32>,
    decided: &mut Vec<bool>,
    pooled: &mut Vec<Items<Part>>,
    messages: &mut Vec<Option<Items<LogMsg>>>,
    conflicts: &mut Vec<Items<RangeSet>>,
) -> Result<(), AllocError>
    ensures book { book.new.items ≡ book.old.items }
    ensures entry_proxies { entry_proxies.new.items ≡ entry_proxies.old.items }
    ensures decided { decided.new.items ≡ decided.old.items }
    ensures parts { pooled.new.items ≡ pooled.old.items }
    ensures messages { messages.new.items ≡ messages.old.items }
    ensures conflicts { conflicts.new.items ≡ conflicts.old.items }
    ensures room { OnOk result ((vec_len book.new + 1 ≤ vec_capacity book.new)
        × (vec_len entry_proxies.new + 1 ≤ vec_capacity entry_proxies.new)
        × (vec_len decided.new + 1 ≤ vec_capacity decided.new) × (vec_len pooled.new + 1 ≤ vec_capacity pooled.new)
        × (vec_len messages.new + 1 ≤ vec_capacity messages.new)
        × (vec_len conflicts.new + 1 ≤ vec_capacity conflicts.new)) }
{
    book.reserve(1)?;
    entry_proxies.reserve(1)?;
    decided.reserve(1)?;
    pooled.reserve(1)?;
    messages.reserve(1)?;
    conflicts.reserve(1)
}

// One more entry is of the proxy and has the parts. It isn't decided, so there are no messages of it yet. There is room
// for all of it.
fn add_undecided(
    proxy: u32,
    parts: Items<Part>,
    entry_proxies: &mut Vec<u32>,
    decided: &mut Vec<bool>,
    pooled: &mut Vec<Items<Part>>,
    messages: &mut Vec<Option<Items<LogMsg>>>,
)
    requires entry_proxies { vec_len entry_proxies.old + 1 ≤ vec_capacity entry_proxies.old }
    requires decided { vec_len decided.old + 1 ≤ vec_capacity decided.old }
    requires parts { vec_len pooled.old + 1 ≤ vec_capacity pooled.old }
    requires messages { vec_len messages.old + 1 ≤ vec_capacity messages.old }
    ensures parts { pooled.new.items ≡ pooled.old.items ++ parts ∷ [] }
    ensures entry_proxies { entry_proxies.new.items ≡ entry_proxies.old.items ++ proxy ∷ [] }
    ensures decided { decided.new.items ≡ decided.old.items ++ false ∷ [] }
    ensures messages { messages.new.items ≡ messages.old.items ++ None ∷ [] }
{
    pooled.push_reserved(parts);
    entry_proxies.push_reserved(proxy);
    decided.push_reserved(false);
    messages.push_reserved(None);
}
