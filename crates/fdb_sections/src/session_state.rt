ghost use Rattle.std.specs.Prelude.{◌≡◌, ◌≤◌, ◌⊎◌, ⊤, max, [], None, Some, IfOk, IfErr, IfSome, IfNone, OnOk, OnErr};
ghost use Rattle.fdb_keys.specs.declared.refusal.Refusal.TheVariants.{Exhausted, NoMemory};
ghost use Rattle.std.specs.Option.{option_map};
ghost use Rattle.fdb_keys.specs.Answers.{Answers};
ghost use Rattle.std.specs.FinMap.{get};
ghost use Rattle.std.specs.Prelude.{if◌then◌else◌};
ghost use Rattle.fdb_txn.specs.book.Book.{seen_of};
ghost use Rattle.fdb_txn.specs.rules.SerialMap.{serial_map_at};
ghost use Rattle.fdb_client.specs.Programs.{program, copy};
ghost use Rattle.fdb_client.specs.Unreadable.{get_fault, scan_fault, unless_out};
ghost use Rattle.std.specs.Option.{option_or};
ghost use Rattle.fdb_mutations.specs.Mutations.{mutation_fault};
ghost use Rattle.fdb_mutations.specs.PairLaws.{given_of};
ghost use Rattle.fdb_txn.specs.book.Book.{last_version};
ghost use Rattle.fdb_book.specs.Fronts.{IsPrefix};
ghost use Rattle.fdb_client.specs.TxnState.{with_op};
ghost use Rattle.fdb_client.specs.declared.program.Transcript.{Transcript as ATranscript};
ghost use Rattle.fdb_client.specs.declared.program.Op.TheVariants as operation;
ghost use Rattle.fdb_client.specs.declared.program.Reply.TheVariants as answer;
ghost use Rattle.fdb_sections.specs.Sessions.{longer, begin_fault, beginning, learning, with_current};
ghost use Rattle.fdb_roles.specs.Sessions.{OfOpen};

use crate::known_front::KnownFront;
use crate::name::DatabaseName;
use crate::receipt::Receipt;
use crate::roles::sequencer::GrantMessage;
use bytes::Bytes;
use fdb_book::Book;
use fdb_client::{Snapshot, Txn};
use fdb_keys::{Items, Key, KeyRange, Refusal};
use fdb_mutations::Mutation;
use fdb_txn::TxnId;
use std::alloc::Global;
use std::marker::Model;
use std::mem;

mod absent;
mod current;
mod ending;
mod reading;
pub(crate) mod settling;
pub(crate) mod submitted;

// The pairs of the range after the transaction's own writes, as `Txn::get_range` gives them. What is given is said
// apart from why it is refused, so that callers need not look at the reasons.
fn range_of<S: Snapshot>(
    txn: &mut Txn,
    snapshot: &S,
    range: &KeyRange,
    limit: u32,
    reverse: bool,
    is_snapshot: bool,
) -> Result<Items<(Key, Bytes)>, Refusal>
    requires { S.at snapshot.now ≡ txn.old.read_version }
    ensures given { IfOk result (λ pairs.
        (pairs ≡ given_of (copy (S.map snapshot.now) (program txn.old.ops)) range.now limit reverse)
        × (txn.new ≡ with_op txn.old (operation.Range range.now limit reverse is_snapshot) (answer.Pairs pairs))) }
    ensures fault { Answers result (option_or (S.range_fault snapshot.now range.now) (unless_out result
        (scan_fault (copy (S.map snapshot.now) (program txn.old.ops)) (program txn.old.ops) range.now limit
        reverse))) (λ _. ⊤) }
    ensures refused { OnErr result (txn.new ≡ txn.old) }
{
    txn.get_range(snapshot, range, limit, reverse, is_snapshot)
}

// The longer of two fronts, once more. Refused only as `NoMemory`.
fn share_longer<B: DatabaseName>(
    own: &KnownFront<B>,
    theirs: &KnownFront<B>,
) -> Result<KnownFront<B>, Refusal>
    ensures answers { Answers result None (λ front. front ≡ longer own.now theirs.now) }
    ensures begins { IfOk result (λ front. IsPrefix own.now front × IsPrefix theirs.now front) }
    ensures reaches { IfOk result (λ front. (last_version own.now ≤ last_version front)
        × (last_version theirs.now ≤ last_version front)) }
{
    own.know_entries();
    theirs.know_entries();
    own.know_one_book(theirs);
    if own.len() < theirs.len() {
        theirs.share()
    } else {
        own.share()
    }
}

/// What a session owns: what it has seen of the book, the greatest version that it knows of a receipt, and its open
/// transaction.
#[derive(Drop)]
pub struct SessionState<B: DatabaseName> {
    number: u32,
    next_number: u64,
    front: KnownFront<B>,
    mark: u64,
    current: Option<Txn>,
}

impl<B: DatabaseName> Model for SessionState<B> {
    ghost use Rattle.fdb_sections.specs.Sessions.{Session, IsSession};

    ghost Value = { Session };

    ghost view = { λ it. record {
      number = it.number;
      next_number = it.next_number;
      front = it.front;
      mark = it.mark;
      current = it.current;
    } };

    ghost invariant = { λ it. IsSession B.config.resolver_splits (record {
      number = it.number;
      next_number = it.next_number;
      front = it.front;
      mark = it.mark;
      current = it.current;
    }) };
}

impl<B: DatabaseName> SessionState<B> {
    /// The session of the number, which has seen nothing and began nothing. Refused only as `NoMemory`.
    pub fn new(alloc: Global, book: &Book<B>, number: u32) -> Result<Self, Refusal>
        ensures { Answers result None (λ it. it
            ≡ record { number = number; next_number = 0; front = []; mark = 0; current = None }) }
    {
        let front = KnownFront::empty(alloc, book)?;
        Ok(SessionState {
            number,
            next_number: 0,
            front,
            mark: 0,
            current: None,
        })
    }

    /// Opens a transaction without operations, at the greater of the granted version and the mark, and answers that
    /// version, which the front then reaches. One that was open is abandoned. Refused as `Exhausted` once all numbers
    /// but the greatest one are used, and as `NoMemory`; then nothing changes.
    pub fn begin(&mut self, alloc: Global, granted: &GrantMessage<B>) -> Result<u64, Refusal>
        ensures answers { Answers result (begin_fault self.old) (λ version.
            (version ≡ max granted.now.committed self.old.mark) × (self.new ≡ beginning self.old granted.now)) }
        ensures begins { OnOk result (IsPrefix self.old.front self.new.front) }
        ensures reaches { IfOk result (λ version. version ≤ last_version self.new.front) }
        ensures why { IfErr result (λ why. (why ≡ Exhausted) ⊎ (why ≡ NoMemory)) }
        ensures refused { OnErr result (self.new ≡ self.old) }
    {
        if self.next_number == u64::MAX {
            return Err(Refusal::Exhausted);
        }
        let front = share_longer(&self.front, granted.front())?;
        let read_version = u64::max(granted.committed(), self.mark);
        let id = TxnId {
            session: self.number,
            number: self.next_number,
        };
        let txn = Txn::begin(alloc, id, read_version);
        self.front = front;
        self.next_number += 1;
        drop(mem::replace(&mut self.current, Some(txn)));
        Ok(read_version)
    }

    /// The version that the open transaction reads at, if there is one. It takes no memory, and O(1) time.
    pub fn read_version(&self) -> Option<u64>
        ensures value { result ≡ option_map (λ (transcript : ATranscript). transcript.read_version) self.now.current }
        ensures none { IfNone result (self.now.current ≡ None) }
    {
        match &self.current {
            Some(txn) => Some(txn.read_version()),
            None => None,
        }
    }

    /// The greatest version that the session knows of a receipt. It takes no memory.
    pub fn mark(&self) -> u64
        ensures { result ≡ self.now.mark }
    {
        self.mark
    }

    /// What the session has seen of the book. It takes no memory.
    pub(crate) fn front(&self) -> &KnownFront<B>
        ensures { result.now ≡ self.now.front }
    {
        &self.front
    }

    /// The open transaction buffers a copy of the mutation. Refused as `NoTransaction` where none is open, else as
    /// `Txn::write` refuses it; then nothing changes.
    pub fn write(&mut self, mutation: &Mutation) -> Result<(), Refusal>
        ensures answers { OfOpen self.old.current result (λ transcript. Answers result (mutation_fault mutation.now)
            (λ _. self.new
            ≡ with_current self.old (Some (with_op transcript (operation.Write mutation.now) answer.Done)))) }
        ensures refused { OnErr result (self.new ≡ self.old) }
    {
        match &mut self.current {
            Some(txn) => txn.write_copy(mutation),
            None => Err(Refusal::NoTransaction),
        }
    }

    /// The open transaction adds the range to its read set, whole. Refused as `NoTransaction` where none is open, and
    /// as `NoMemory`; then nothing changes.
    pub fn add_read(&mut self, range: &KeyRange) -> Result<(), Refusal>
        ensures answers { OfOpen self.old.current result (λ transcript. Answers result None
            (λ _. self.new
            ≡ with_current self.old (Some (with_op transcript (operation.AddRead range.now) answer.Done)))) }
        ensures refused { OnErr result (self.new ≡ self.old) }
    {
        match &mut self.current {
            Some(txn) => txn.add_read(range),
            None => Err(Refusal::NoTransaction),
        }
    }

    /// The open transaction adds the range to its write set, whole. Refused as `NoTransaction` where none is open, and
    /// as `NoMemory`; then nothing changes.
    pub fn add_write(&mut self, range: &KeyRange) -> Result<(), Refusal>
        ensures answers { OfOpen self.old.current result (λ transcript. Answers result None
            (λ _. self.new
            ≡ with_current self.old (Some (with_op transcript (operation.AddWrite range.now) answer.Done)))) }
        ensures refused { OnErr result (self.new ≡ self.old) }
    {
        match &mut self.current {
            Some(txn) => txn.add_write(range),
            None => Err(Refusal::NoTransaction),
        }
    }

    /// Learns of a receipt of the database: the front becomes the longer of both, and the mark the greater of itself
    /// and the version of the receipt's spot. Refused only as `NoMemory`, and then nothing changes.
    pub fn learn(&mut self, receipt: &Receipt<B>) -> Result<(), Refusal>
        ensures answers { Answers result None (λ _. self.new ≡ learning self.old receipt.now) }
        ensures begins { OnOk result (IsPrefix self.old.front self.new.front) }
        ensures refused { OnErr result (self.new ≡ self.old) }
    {
        let front = share_longer(&self.front, receipt.known_front())?;
        front.know_entries();
        let version = receipt.version();
        self.front = front;
        self.mark = u64::max(self.mark, version);
        Ok(())
    }

    /// The value of the key after the open transaction's own writes, on the serial map of the front at the read
    /// version, noted with the operation. Refused as `NoTransaction` where none is open, else as `Txn::get` is; then
    /// nothing changes.
    pub(crate) fn get<S: Snapshot>(
        &mut self,
        snapshot: &S,
        key: &Key,
        is_snapshot: bool,
    ) -> Result<Option<Bytes>, Refusal>
        requires version { IfSome self.old.current (λ transcript. S.at snapshot.now ≡ transcript.read_version) }
        requires run { IfSome self.old.current (λ transcript. S.map snapshot.now
            ≡ serial_map_at B.config.resolver_splits transcript.read_version (seen_of self.old.front).places) }
        ensures answers { OfOpen self.old.current result (λ transcript. Answers result
            (get_fault (program transcript.ops) key.now (S.key_fault snapshot.now key.now))
            (λ value. (value ≡ get (copy (S.map snapshot.now) (program transcript.ops)) key.now)
            × (self.new ≡ with_current self.old
            (Some (with_op transcript (operation.Get key.now is_snapshot) (answer.Value value)))))) }
        ensures refused { OnErr result (self.new ≡ self.old) }
    {
        match &mut self.current {
            Some(txn) => txn.get(snapshot, key, is_snapshot),
            None => Err(Refusal::NoTransaction),
        }
    }

    /// The pairs of the range after the open transaction's own writes, on the serial map of the front at the read
    /// version, as `Txn::get_range` gives them, noted with the operation. Refused as `NoTransaction` where none is
    /// open, else as `Txn::get_range` is; then nothing changes.
    pub(crate) fn get_range<S: Snapshot>(
        &mut self,
        snapshot: &S,
        range: &KeyRange,
        limit: u32,
        reverse: bool,
        is_snapshot: bool,
    ) -> Result<Items<(Key, Bytes)>, Refusal>
        requires version { IfSome self.old.current (λ transcript. S.at snapshot.now ≡ transcript.read_version) }
        requires run { IfSome self.old.current (λ transcript. S.map snapshot.now
            ≡ serial_map_at B.config.resolver_splits transcript.read_version (seen_of self.old.front).places) }
        ensures given { IfOk result (λ pairs. IfSome self.old.current (λ transcript.
            (pairs ≡ given_of (copy (S.map snapshot.now) (program transcript.ops)) range.now limit reverse)
            × (self.new ≡ with_current self.old (Some (with_op transcript
            (operation.Range range.now limit reverse is_snapshot) (answer.Pairs pairs)))))) }
        ensures fault { OfOpen self.old.current result (λ transcript. Answers result
            (option_or (S.range_fault snapshot.now range.now) (unless_out result
            (scan_fault (copy (S.map snapshot.now) (program transcript.ops)) (program transcript.ops) range.now limit
            reverse)))
            (λ _. ⊤)) }
        ensures refused { OnErr result (self.new ≡ self.old) }
    {
        match &mut self.current {
            Some(txn) => range_of(txn, snapshot, range, limit, reverse, is_snapshot),
            None => Err(Refusal::NoTransaction),
        }
    }
}
