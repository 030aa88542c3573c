ghost use Rattle.std.specs.Prelude.{◌≡◌, ℕ, Some, None, cond};
ghost use Rattle.std.specs.BTreeMap.{get as get_in, is_at};
ghost use Rattle.std.specs.Option.{IsSome};
ghost use Rattle.std.specs.Ordering.{nat_cmp};

use crate::roles::client::note::Note;
use crate::roles::client::read::Read;
use crate::roles::client::session::{Session, SessionState};
use fdb_client::{Finished, Snapshot, Transcript, Txn};
use fdb_keys::Refusal;
use fdb_machine::Answered;
use fdb_proxy::GrvCore;
use fdb_txn::TxnId;
use std::alloc::{AllocError, Global};
use std::collections::BTreeMap;
use std::marker::Model;

/// What each session is at, by its number. One that did nothing yet has no entry.
#[derive(Drop)]
pub(crate) struct Sessions {
    by_number: BTreeMap<u32, Session>,
}

impl Model for Sessions {
    ghost use Rattle.std.specs.Coded.{coded_ℕ, codes};
    ghost use Rattle.std.specs.FinMap.{code, from_entries};
    ghost use Rattle.fdb_machine.specs.machine.Sessions.{Sessions};

    ghost Value = { Sessions };

    ghost coded = { code coded_ℕ (Prim.hlevel codes) };

    ghost view = { λ sessions. from_entries sessions.by_number.entries };
}

impl Sessions {
    ghost use Rattle.std.specs.Prelude.{◌≡◌, true, [], ◌∷◌, ◌++◌, None, Some, IfSome, OnOk, OnErr, if◌then◌else◌};
    ghost use Rattle.std.specs.FinMap.{empty, get};
    ghost use Rattle.std.specs.Option.{option_copied, is_some};
    ghost use Rattle.fdb_keys.specs.Answers.{Answers};
    ghost use Rattle.fdb_client.specs.TxnState.{with_op};
    ghost use Rattle.fdb_client.specs.Programs.{program, copy, reply_on};
    ghost use Rattle.fdb_client.specs.declared.program.Reply.TheVariants as answer;
    ghost use Rattle.fdb_machine.specs.machine.ClientSteps.{answered_by};
    ghost use Rattle.fdb_core.specs.refinement.client.Noting.{noted_as, note_fault};
    ghost use Rattle.fdb_core.specs.refinement.client.Reading.{operation_of, call_fault};
    ghost use Rattle.fdb_roles.specs.Sessions.{OfOpen, Finishes};
    ghost use Rattle.fdb_machine.specs.machine.Conflicts.{last_told};
    ghost use Rattle.fdb_machine.specs.machine.GrvProxySteps.{has_no_number};
    ghost use Rattle.fdb_machine.specs.machine.Sessions.{Idle, Asking, Open, Waiting, session_of, open_at, with_state};
    ghost use Rattle.fdb_machine.specs.machine.Sessions.{is_busy, next_number, serve, tell};
    ghost use Rattle.fdb_core.specs.refinement.Views.{state_of};

    /// No session did anything yet. It takes no memory.
    pub(crate) fn new(alloc: Global) -> Self
        ensures { result ≡ empty }
    {
        Sessions {
            by_number: BTreeMap::new(alloc),
        }
    }

    // The session, if it did something.
    fn known(&self, session: u32) -> Option<&Session>
        ensures { option_copied result ≡ get self.now session }
    {
        self.by_number.get(&session)
    }

    /// Whether the session asks, or waits for what becomes of its transaction.
    pub(crate) fn is_busy(&self, session: u32) -> bool
        ensures { result ≡ is_busy (session_of self.now session).state }
    {
        match self.known(session) {
            Some(known) => known.is_busy(),
            None => false,
        }
    }

    /// The session's open transaction, if it has one.
    pub(crate) fn open(&self, session: u32) -> Option<&Txn>
        ensures { option_copied result ≡ open_at self.now session }
    {
        match self.known(session) {
            Some(known) => known.open(),
            None => None,
        }
    }

    // The number of the last transaction that the session began.
    fn last_number(&self, session: u32) -> Option<u64>
        ensures { result ≡ (session_of self.now session).last_number }
    {
        match self.known(session) {
            Some(known) => known.last_number(),
            None => None,
        }
    }

    /// Whether the session has used up all numbers of transactions.
    pub(crate) fn is_used_up(&self, session: u32) -> bool
        ensures { result ≡ has_no_number self.now session }
    {
        match self.last_number(session) {
            None => false,
            Some(last) => last == u64::MAX,
        }
    }

    /// The id of the session's last transaction, unless it waits for what becomes of it. It takes O(log n) time for n
    /// sessions.
    pub(crate) fn last_told(&self, session: u32) -> Option<TxnId>
        ensures { result ≡ last_told self.now session }
    {
        match self.known(session) {
            Some(known) => known.last_told(session),
            None => None,
        }
    }

    // The number of the session's next transaction.
    fn next_number(&self, session: u32) -> u64
        ensures { result ≡ next_number (session_of self.now session).last_number }
    {
        match self.last_number(session) {
            None => 0,
            Some(last) => last.saturating_add(1),
        }
    }

    // The session is at another state. Memory may run out only where it did nothing yet.
    fn set_state(&mut self, session: u32, state: SessionState) -> Result<(), AllocError>
        ensures ok { OnOk result (self.new ≡ with_state self.old session (state_of state)) }
        ensures first { OnErr result (get self.old session ≡ None) }
    {
        let last_number = self.last_number(session);
        self.by_number
            .insert(session, Session::new(last_number, state))?;
        Ok(())
    }

    /// The session asks at the read-version proxy. A transaction that it has open is dropped. Refused only as
    /// `NoMemory`, and then nothing changes.
    pub(crate) fn ask(&mut self, session: u32, proxy: &mut GrvCore) -> Result<(), Refusal>
        ensures answers { Answers result None (λ _. (self.new ≡ with_state self.old session Asking)
            × (proxy.new ≡ proxy.old ++ (session, 0) ∷ [])) }
        ensures err { OnErr result ((self.new ≡ self.old) × (proxy.new ≡ proxy.old)) }
    {
        let asking = Session::new(self.last_number(session), SessionState::Asking);
        let was = self.by_number.insert(session, asking)?;
        // Sessions of a world begin at the committed version, whatever they have seen.
        match proxy.ask(session, 0) {
            Ok(()) => {
                drop(was);
                Ok(())
            }
            Err(why) => {
                put_back(&mut self.by_number, session, was);
                Err(why)
            }
        }
    }

    /// The session waits for what becomes of its transaction. Memory may run out only where it did nothing yet.
    pub(crate) fn wait(&mut self, session: u32) -> Result<(), AllocError>
        ensures ok { OnOk result (self.new ≡ with_state self.old session Waiting) }
        ensures first { OnErr result (get self.old session ≡ None) }
    {
        self.set_state(session, SessionState::Waiting)
    }

    /// The session begins a transaction at the read version. Memory may run out only where it did nothing yet.
    pub(crate) fn begin(
        &mut self,
        alloc: Global,
        read_version: u64,
        session: u32,
    ) -> Result<(), AllocError>
        ensures ok { OnOk result (self.new ≡ serve read_version self.old session) }
        ensures first { OnErr result (get self.old session ≡ None) }
    {
        let number = self.next_number(session);
        let txn = Txn::begin(alloc, TxnId { session, number }, read_version);
        let next = Session::new(Some(number), SessionState::Open(txn));
        self.by_number.insert(session, next)?;
        Ok(())
    }

    /// The session's open transaction reads, as `Txn::get` and `Txn::get_range` do. Refused as `NoTransaction` where
    /// there is none.
    pub(crate) fn read<S: Snapshot>(
        &mut self,
        session: u32,
        snapshot: &S,
        read: Read<'_>,
        is_snapshot: bool,
    ) -> Result<Answered, Refusal>
        requires { IfSome (open_at self.old session) (λ transcript. S.at snapshot.now ≡ transcript.read_version) }
        ensures answers { OfOpen (open_at self.old session) result (λ transcript.
            let earlier = program transcript.ops in let done = operation_of read.entry is_snapshot in
            let reply = reply_on (copy (S.map snapshot.now) earlier) done in
            Answers result
            (call_fault result (S.key_fault snapshot.now) (S.range_fault snapshot.now) (S.map snapshot.now) earlier
            done)
            (λ given. (given ≡ answered_by reply)
            × (self.new ≡ with_state self.old session (Open (with_op transcript done reply))))) }
        ensures err { OnErr result (self.new ≡ self.old) }
    {
        let Some(known) = self.by_number.get_mut(&session) else {
            return Err(Refusal::NoTransaction);
        };
        known.read(snapshot, read, is_snapshot)
    }

    /// The session's open transaction notes it, as `note_by` does. Refused as `NoTransaction` where there is none.
    pub(crate) fn note(&mut self, session: u32, note: Note<'_>) -> Result<(), Refusal>
        ensures answers { OfOpen (open_at self.old session) result (λ transcript. Answers result (note_fault note.entry)
            (λ _. self.new ≡ with_state self.old session
            (Open (with_op transcript (noted_as note.entry) answer.Done)))) }
        ensures err { OnErr result (self.new ≡ self.old) }
    {
        let Some(known) = self.by_number.get_mut(&session) else {
            return Err(Refusal::NoTransaction);
        };
        known.note(note)
    }

    /// Finishes the session's open transaction, which it has no more, and gives what is left to do of it. Refused as
    /// `NoTransaction` where there is none, and as `Txn::finish` refuses it; then it stays open.
    pub(crate) fn finish(&mut self, session: u32) -> Result<Finished, Refusal>
        ensures answers { OfOpen (open_at self.old session) result (Finishes result) }
        ensures ok { OnOk result (self.new ≡ with_state self.old session Idle) }
        ensures err { OnErr result (self.new ≡ self.old) }
    {
        let Some(known) = self.by_number.get_mut(&session) else {
            return Err(Refusal::NoTransaction);
        };
        known.finish()
    }

    /// The transaction's session, which did something before, is told what became of it, and has none any more. It
    /// takes no memory.
    pub(crate) fn tell(&mut self, transcript: &Transcript)
        requires { is_some (get self.old transcript.now.id.session) ≡ true }
        ensures { self.new ≡ tell self.old transcript.now }
    {
        let Some(known) = self.by_number.get_mut(&transcript.id.session) else {
            return;
        };
        known.end();
    }
}

// The session, which has an entry, is again what it was, or has no entry again. It takes no memory.
fn put_back(by_number: &mut BTreeMap<u32, Session>, session: u32, was: Option<Session>)
    requires { IsSome (get_in nat_cmp by_number.old session) }
    ensures { (other : ℕ) → get_in nat_cmp by_number.new other
        ≡ cond (is_at (nat_cmp session) other) was (get_in nat_cmp by_number.old other) }
{
    match was {
        Some(known) => put_again(by_number, session, known),
        None => take_out(by_number, session),
    }
}

// The session, which has an entry, is what is known of it. It takes no memory.
fn put_again(by_number: &mut BTreeMap<u32, Session>, session: u32, known: Session)
    requires { IsSome (get_in nat_cmp by_number.old session) }
    ensures { (other : ℕ) → get_in nat_cmp by_number.new other
        ≡ cond (is_at (nat_cmp session) other) (Some known) (get_in nat_cmp by_number.old other) }
{
    let _put = by_number.insert(session, known);
}

// The session has no entry.
fn take_out(by_number: &mut BTreeMap<u32, Session>, session: u32)
    ensures { (other : ℕ) → get_in nat_cmp by_number.new other
        ≡ cond (is_at (nat_cmp session) other) None (get_in nat_cmp by_number.old other) }
{
    let _gone = by_number.remove(&session);
}
