use crate::roles::client::note::{Note, note_by};
use crate::roles::client::read::{Read, read_by};
use fdb_client::{Finished, Snapshot, Txn};
use fdb_keys::Refusal;
use fdb_machine::Answered;
use fdb_txn::TxnId;
use std::marker::Model;
use std::mem;

// What a session is at: it has no transaction; it asks for a read version; its transaction is open; it waits for what
// becomes of the one that it submitted.
#[derive(Drop)]
pub(crate) enum SessionState {
    Idle,
    Asking,
    Open(Txn),
    Waiting,
}

/// A session: the number of the last transaction that it began, if it began any, and what it is at.
#[derive(Drop)]
pub(crate) struct Session {
    last_number: Option<u64>,
    state: SessionState,
}

impl Model for Session {
    ghost use Rattle.fdb_machine.specs.machine.Sessions.{Session};
    ghost use Rattle.fdb_core.specs.refinement.Views.{state_of};

    ghost Value = { Session };

    ghost view = { λ session. record { last_number = session.last_number; state = state_of session.state } };
}

impl Session {
    ghost use Rattle.std.specs.Prelude.{◌≡◌, None, Some, IfSome, OnOk, OnErr, if◌then◌else◌};
    ghost use Rattle.std.specs.Option.{option_copied};
    ghost use Rattle.fdb_keys.specs.Answers.{Answers};
    ghost use Rattle.fdb_client.specs.TxnState.{with_op};
    ghost use Rattle.fdb_client.specs.Programs.{program, copy, reply_on};
    ghost use Rattle.fdb_client.specs.declared.program.Reply.TheVariants as answer;
    ghost use Rattle.fdb_client.specs.declared.program.Transcript.{Transcript};
    ghost use Rattle.fdb_machine.specs.machine.ClientSteps.{answered_by};
    ghost use Rattle.fdb_machine.specs.machine.Conflicts.{id_of};
    ghost use Rattle.fdb_machine.specs.machine.Sessions.{Idle, Open, open_of, is_busy, is_waiting, at_state};
    ghost use Rattle.fdb_core.specs.refinement.client.Noting.{noted_as, note_fault};
    ghost use Rattle.fdb_core.specs.refinement.client.Reading.{operation_of, call_fault};
    ghost use Rattle.fdb_roles.specs.Sessions.{OfOpen, Finishes};
    ghost use Rattle.fdb_core.specs.refinement.Views.{state_of};

    /// A session whose last transaction has the number, and which is at the state.
    pub(crate) fn new(last_number: Option<u64>, state: SessionState) -> Self
        ensures { result ≡ record { last_number = last_number; state = state_of state } }
    {
        Session { last_number, state }
    }

    /// The number of the last transaction that it began.
    pub(crate) fn last_number(&self) -> Option<u64>
        ensures { result ≡ self.now.last_number }
    {
        self.last_number
    }

    /// Whether it asks, or waits for what becomes of its transaction.
    pub(crate) fn is_busy(&self) -> bool
        ensures { result ≡ is_busy self.now.state }
    {
        matches!(self.state, SessionState::Asking | SessionState::Waiting)
    }

    /// The id of its last transaction, as that of the session with the number, unless it waits for what becomes of it.
    pub(crate) fn last_told(&self, session: u32) -> Option<TxnId>
        ensures { result ≡ (if is_waiting self.now.state then None else id_of session self.now.last_number) }
    {
        if matches!(self.state, SessionState::Waiting) {
            return None;
        }
        match self.last_number {
            Some(number) => Some(TxnId { session, number }),
            None => None,
        }
    }

    /// Its open transaction, if it has one.
    pub(crate) fn open(&self) -> Option<&Txn>
        ensures { option_copied result ≡ open_of self.now.state }
    {
        match &self.state {
            SessionState::Open(txn) => Some(txn),
            _ => None,
        }
    }

    /// Its open transaction reads.
    pub(crate) fn read<S: Snapshot>(
        &mut self,
        snapshot: &S,
        read: Read<'_>,
        is_snapshot: bool,
    ) -> Result<Answered, Refusal>
        requires { IfSome (open_of self.old.state) (λ transcript. S.at snapshot.now ≡ transcript.read_version) }
        ensures answers { OfOpen (open_of self.old.state) result (λ transcript.
            let earlier = program transcript.ops in let done = operation_of read.entry is_snapshot in
            let reply = reply_on (copy (S.map snapshot.now) earlier) done in
            Answers result
            (call_fault result (S.key_fault snapshot.now) (S.range_fault snapshot.now) (S.map snapshot.now) earlier
            done)
            (λ given. (given ≡ answered_by reply)
            × (self.new ≡ at_state self.old (Open (with_op transcript done reply))))) }
        ensures err { OnErr result (self.new ≡ self.old) }
    {
        match &mut self.state {
            SessionState::Open(txn) => read_by(txn, snapshot, read, is_snapshot),
            _ => Err(Refusal::NoTransaction),
        }
    }

    /// Its open transaction notes it.
    pub(crate) fn note(&mut self, note: Note<'_>) -> Result<(), Refusal>
        ensures answers { OfOpen (open_of self.old.state) result (λ transcript. Answers result (note_fault note.entry)
            (λ _. self.new ≡ at_state self.old
            (Open (with_op transcript (noted_as note.entry) answer.Done)))) }
        ensures err { OnErr result (self.new ≡ self.old) }
    {
        match &mut self.state {
            SessionState::Open(txn) => note_by(txn, note),
            _ => Err(Refusal::NoTransaction),
        }
    }

    /// Finishes its open transaction, which it has no more, and gives what is left to do of it. Where that is refused,
    /// the transaction stays open.
    pub(crate) fn finish(&mut self) -> Result<Finished, Refusal>
        ensures answers { OfOpen (open_of self.old.state) result (Finishes result) }
        ensures ok { OnOk result (self.new ≡ at_state self.old Idle) }
        ensures err { OnErr result (self.new ≡ self.old) }
    {
        match mem::replace(&mut self.state, SessionState::Idle) {
            SessionState::Open(txn) => self.finish_open(txn),
            other => {
                self.state = other;
                Err(Refusal::NoTransaction)
            }
        }
    }

    /// It has no transaction any more.
    pub(crate) fn end(&mut self)
        ensures { self.new ≡ at_state self.old Idle }
    {
        self.state = SessionState::Idle;
    }

    // Finishes the transaction, which is open again where that is refused.
    fn finish_open(&mut self, txn: Txn) -> Result<Finished, Refusal>
        ensures answers { Finishes result txn }
        ensures ended { OnOk result (self.new ≡ self.old) }
        ensures stays { OnErr result (self.new ≡ at_state self.old (Open txn)) }
    {
        match txn.finish() {
            Ok(finished) => Ok(finished),
            Err(refused) => {
                self.state = SessionState::Open(refused.back);
                Err(refused.why)
            }
        }
    }
}
