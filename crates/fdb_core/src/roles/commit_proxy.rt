// A commit proxy of the world.
pub(crate) mod replying;
mod sealing;
mod submitting;

ghost use Rattle.std.specs.Prelude.{◌≡◌, length};
ghost use Rattle.fdb_keys.specs.Answers.{Answers};
ghost use Rattle.fdb_proxy.specs.Configs.{config_fault};
ghost use Rattle.fdb_core.specs.refinement.commit_proxy.Ties.{IsNewCommitProxy};
ghost use Rattle.fdb_roles.specs.Lists.{Each};

use crate::roles::client::sessions::Sessions;
use crate::roles::commit_proxy::sealing::seal_first;
use crate::roles::commit_proxy::submitting::take_in;
use fdb_client::Transcript;
use fdb_keys::{Items, Refusal};
use fdb_log::{LogAck, LogMsg};
use fdb_proxy::{CommitCore, Config, Decision, Outcome};
use fdb_resolver::{Part, Verdicts};
use fdb_sequencer::Ticket;
use fdb_txn::{Batch, TxnId};
use std::alloc::Global;
use std::mem;

/// Who tells a commit proxy something of an entry.
#[derive(Clone, Copy)]
pub(crate) enum Sender {
    /// The resolver tells its verdicts.
    Resolver(u32),
    /// The log acknowledges the entry.
    Log(u32),
}

/// A commit proxy with what the transactions were answered that wait there and that are in flight, in the order in
/// which its state has them, and with the number of the batch's entry.
#[derive(Drop)]
pub(crate) struct CommitProxyRole {
    pub(crate) state: CommitCore,
    pub(crate) waiting: Items<Transcript>,
    pub(crate) in_flight: Items<Transcript>,
    pub(crate) entry: u32,
    // The version of the batch in flight is reported.
    pub(crate) is_reported: bool,
}

impl CommitProxyRole {
    ghost use Rattle.std.specs.Prelude.{◌≡◌, ◌≤◌, ◌<◌, ◌++◌, ⊤, true, false, [], ◌∷◌, List, ℕ, suc, length, None, Some};
    ghost use Rattle.std.specs.Prelude.{Err, map, drop, take, slice_get, OnOk, OnErr, IfSome, if◌then◌else◌};
    ghost use Rattle.std.specs.List.{AllByRecursion};
    ghost use Rattle.fdb_keys.specs.Answers.{Answers, AnswersExactly};
    ghost use Rattle.fdb_keys.specs.declared.refusal.Refusal.TheVariants.{Stale, WrongState};
    ghost use Rattle.fdb_txn.specs.Limits.{place_limit};
    ghost use Rattle.fdb_txn.specs.book.Book.{seen_before, last_version};
    ghost use Rattle.fdb_txn.specs.book.History.{AreEntries, HorizonsRise};
    ghost use Rattle.fdb_txn.specs.declared.entry.Entry.{Entry};
    ghost use Rattle.fdb_storage.specs.LogMessages.{log_messages};
    ghost use Rattle.fdb_proxy.specs.declared.config.Config.{Config};
    ghost use Rattle.fdb_proxy.specs.CommitProxies.{IsTicketFor, learn_fault, sealing, waiting_for};
    ghost use Rattle.fdb_proxy.specs.CommitProxies.{is_idle as has_no_batch};
    ghost use Rattle.fdb_proxy.specs.Configs.{config_fault};
    ghost use Rattle.fdb_proxy.specs.Requests.{place_of};
    ghost use Rattle.fdb_proxy.specs.Verdicts.{is_needed};
    ghost use Rattle.fdb_machine.specs.machine.CommitProxySteps.{is_idle, is_resolving, is_logging, is_reported};
    ghost use Rattle.fdb_machine.specs.machine.CommitProxySteps.{awaits, with_received};
    ghost use Rattle.fdb_machine.specs.machine.Machine.{first_missing};
    ghost use Rattle.fdb_machine.specs.machine.Roles.{FromResolver, FromLog};
    ghost use Rattle.fdb_core.specs.refinement.commit_proxy.Ties.{Known, seen_as, CommitProxyRefines, IsNewCommitProxy};
    ghost use Rattle.fdb_roles.specs.ProxyStages.{IsSaid};
    ghost use Rattle.fdb_machine.specs.machine.Sessions.{open_at};
    ghost use Rattle.fdb_core.specs.refinement.client.Submitting.{Submits};
    ghost use Rattle.fdb_core.specs.refinement.commit_proxy.Ties.{IsNextTicket, Seals, Decides, IsDone};
    ghost use Rattle.fdb_core.specs.refinement.commit_proxy.Ties.{IsLeftUnsealed};

    /// The commit proxy with the number, without a batch, at which nobody waits. Refused only as `NoMemory`.
    pub(crate) fn new(alloc: Global, index: u32, config: &Config) -> Result<Self, Refusal>
        requires legal { config_fault config.now ≡ None }
        requires within { index < config.now.proxies }
        ensures { Answers result None (IsNewCommitProxy config.now) }
    {
        let state = CommitCore::new(alloc, index, config)?;
        Ok(CommitProxyRole {
            state,
            waiting: Items::new(alloc),
            in_flight: Items::new(alloc),
            entry: 0,
            is_reported: false,
        })
    }

    /// Whether no batch is in flight.
    pub(crate) fn is_idle(&self) -> bool
        ensures { result ≡ has_no_batch self.now.state.proxy.stage }
    {
        self.state.is_idle()
    }

    /// The session's open transaction is finished. One that wrote nothing is handed out, and the session has none any
    /// more. Any other one waits here for a batch, and its session for what becomes of it. Refused as `NoTransaction`
    /// where there is none, as `Txn::finish` refuses it, and as `NoMemory`: then nothing changes but the room that was
    /// made.
    pub(crate) fn submit(
        &mut self,
        alloc: Global,
        sessions: &mut Sessions,
        session: u32,
    ) -> Result<Option<Transcript>, Refusal>
        requires works { self.old.state.proxy.is_failed ≡ false }
        requires new { IfSome (open_at sessions.old session) (λ transcript.
            place_of transcript.id (self.old.state.proxy.batch ++ self.old.state.proxy.waiting) ≡ None) }
        ensures submits { Submits session sessions.old self.old.state.proxy self.old.waiting result sessions.new
            self.new.state.proxy self.new.waiting }
        ensures others { self.new ≡ record self.old { state = self.new.state; waiting = self.new.waiting } }
    {
        self.state.reserve()?;
        let mut waiting = mem::replace(&mut self.waiting, Items::new(alloc)).into_vec();
        let submitted = take_in(&mut self.state, &mut waiting, sessions, session);
        self.waiting = Items::from_vec(waiting);
        submitted
    }

    /// The first of those who wait, at most as many as a batch may have, become the batch of the ticket's entry.
    /// Answers the batch, and the part of each resolver. Refused only as `NoMemory`. Then who waits is as before, and
    /// the state is, too, or has failed while it learnt the ticket.
    pub(crate) fn seal(
        &mut self,
        alloc: Global,
        ticket: &Ticket,
    ) -> Result<(Batch, Items<Part>), Refusal>
        requires { IsTicketFor (sealing self.old.state.proxy) ticket.now }
        ensures answers { (config : Config) (book : List Entry) (known : Known)
            → CommitProxyRefines config book known self.old → is_idle (seen_as self.old).stage ≡ true
            → IsNextTicket config book known ticket.now → AreEntries (suc (length config.resolver_splits)) 0 book
            → HorizonsRise 0 book
            → Answers result None
            (λ given. Seals config book known ticket.now self.old given.0 given.1 self.new) }
        ensures left { learn_fault (sealing self.old.state.proxy) ticket.now ≡ None
            → OnErr result (IsLeftUnsealed ticket.now self.old self.new) }
    {
        let mut first = mem::replace(&mut self.waiting, Items::new(alloc)).into_vec();
        match seal_first(alloc, &mut self.state, &mut first, ticket) {
            Ok((batch, parts, rest)) => {
                self.waiting = Items::from_vec(rest);
                self.in_flight = Items::from_vec(first);
                self.entry = ticket.index;
                Ok((batch, parts))
            }
            Err(why) => {
                self.waiting = Items::from_vec(first);
                Err(why)
            }
        }
    }

    /// A resolver's verdicts came. Refused as `Stale` where the batch doesn't wait for them, and then nothing changes.
    pub(crate) fn verdict(&mut self, verdicts: Verdicts) -> Result<(), Refusal>
        ensures answers { (config : Config) (book : List Entry) (known : Known) (entry : Entry)
            → CommitProxyRefines config book known self.old
            → IsSaid config.resolver_splits book verdicts entry →
            let sender = FromResolver verdicts.resolver in
            AnswersExactly result (if awaits (seen_as self.old) verdicts.index sender then None else Some Stale)
            (λ _. (seen_as self.new ≡ with_received (seen_as self.old) sender)
            × CommitProxyRefines config book known self.new) }
        ensures refused { OnErr result (self.new ≡ self.old) }
    {
        self.state.verdict(verdicts)
    }

    /// Decides the batch. Answers what becomes of each place, with the conflict sets, and the messages for the logs.
    /// Refused as `WrongState` unless the batch waits for verdicts, as `NotYet` with the least resolver that is asked
    /// about some place and whose verdicts haven't come, and as `NoMemory`. Then nothing changes.
    pub(crate) fn decide(&mut self) -> Result<(Decision, Items<LogMsg>), Refusal>
        ensures wrong { (config : Config) (book : List Entry) (known : Known)
            → CommitProxyRefines config book known self.old → is_resolving (seen_as self.old).stage ≡ false
            → result ≡ Err WrongState }
        ensures decides { (config : Config) (book : List Entry) (known : Known) (entry : Entry)
            → CommitProxyRefines config book known self.old → is_resolving (seen_as self.old).stage ≡ true
            → slice_get book self.old.entry ≡ Some entry
            → AreEntries (suc (length config.resolver_splits)) 0 book
            → Answers result (waiting_for (first_missing
            (λ resolver. is_needed config.resolver_splits resolver (seen_before book self.old.entry) entry) 0
            (seen_as self.old).verdicts_received))
            (λ given. Decides config book known entry self.old given.0 self.new
            × (given.1 ≡ log_messages config.resolver_splits config.shard_splits config.logs self.old.entry
            (seen_before book self.old.entry) entry)) }
        ensures refused { OnErr result (self.new ≡ self.old) }
    {
        self.state.decide_with_messages()
    }

    /// A log's acknowledgement came. Refused as `Stale` where the batch doesn't wait for it, and then nothing changes.
    pub(crate) fn logged(&mut self, ack: LogAck) -> Result<(), Refusal>
        ensures answers { (config : Config) (book : List Entry) (known : Known)
            → CommitProxyRefines config book known self.old → ack.log < config.logs →
            let sender = FromLog ack.log in
            AnswersExactly result (if awaits (seen_as self.old) ack.index sender then None else Some Stale)
            (λ _. (seen_as self.new ≡ with_received (seen_as self.old) sender)
            × CommitProxyRefines config book known self.new) }
        ensures refused { OnErr result (self.new ≡ self.old) }
    {
        self.state.logged(ack)
    }

    /// Whether all logs have acknowledged the batch, and its version isn't reported yet. Refused as `WrongState` unless
    /// the batch is decided and isn't reported, and as `NotYet` with the least log whose acknowledgement hasn't come.
    pub(crate) fn check_logged(&self) -> Result<(), Refusal>
        ensures wrong { (config : Config) (book : List Entry) (known : Known)
            → CommitProxyRefines config book known self.now → is_logging (seen_as self.now).stage ≡ false
            → result ≡ Err WrongState }
        ensures answers { (config : Config) (book : List Entry) (known : Known)
            → CommitProxyRefines config book known self.now → is_logging (seen_as self.now).stage ≡ true
            → AnswersExactly result
            (waiting_for (first_missing (λ log. true) 0 (seen_as self.now).acknowledgements_received)) (λ _. ⊤) }
    {
        if self.is_reported {
            return Err(Refusal::WrongState);
        }
        self.state.all_logged()
    }

    /// The version of the batch is reported.
    pub(crate) fn report(&mut self)
        ensures { self.new ≡ record self.old { is_reported = true } }
    {
        self.is_reported = true;
    }

    /// The batch, whose version is reported, is done. Answers its transcripts, and each one's id with what became of
    /// it, by place.
    pub(crate) fn finish(
        &mut self,
        alloc: Global,
    ) -> Result<(Items<Transcript>, Items<(TxnId, Outcome)>), Refusal>
        ensures { (config : Config) (book : List Entry) (known : Known) (entry : Entry)
            → CommitProxyRefines config book known self.old → is_reported (seen_as self.old).stage ≡ true
            → slice_get book self.old.entry ≡ Some entry
            → AnswersExactly result None
            (λ given. IsDone config book known entry self.old given.0 given.1 self.new) }
    {
        let answers = self.state.done()?;
        self.is_reported = false;
        let transcripts = mem::replace(&mut self.in_flight, Items::new(alloc));
        Ok((transcripts, answers))
    }
}

/// As many commit proxies as the configuration says, without batches. Refused only as `NoMemory`.
pub(crate) fn new_commit_proxies(
    alloc: Global,
    config: &Config,
) -> Result<Vec<CommitProxyRole>, Refusal>
    requires legal { config_fault config.now ≡ None }
    ensures { Answers result None (λ list. (length list.items ≡ config.now.proxies)
        × Each (λ _. IsNewCommitProxy config.now) list.items) }
{
    let mut list = Vec::new(alloc);
    for index in 0..config.proxies {
        list.push(CommitProxyRole::new(alloc, index, config)?)?;
    }
    Ok(list)
}
