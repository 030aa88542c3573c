// What a transaction keeps, and how each operation changes it.
ghost use Rattle.std.specs.Prelude.{◌≡◌, ◌<◌, ⊤, true, not, ◌&&◌, [], ◌∷◌, ◌++◌, Some, None, Err, IfOk, IfErr};
ghost use Rattle.std.specs.Prelude.{IsOk, IsErr, OnOk, OnErr, sum_by, if◌then◌else◌};
ghost use Rattle.std.specs.FinMap.{get};
ghost use Rattle.std.specs.Option.{option_copied, option_or};
ghost use Rattle.fdb_keys.specs.Answers.{Answers, AnswersOrHandsBack};
ghost use Rattle.fdb_keys.specs.Insertion.{with_range, with_ranges};
ghost use Rattle.fdb_keys.specs.Ranges.{single_range};
ghost use Rattle.fdb_keys.specs.Removal.{outside};
ghost use Rattle.fdb_keys.specs.declared.refusal.Refusal.TheVariants.{AccessedUnreadable, TransactionTooLarge};
ghost use Rattle.fdb_mutations.specs.Maps.{Map};
ghost use Rattle.fdb_mutations.specs.Mutations.{mutation_fault, mutation_size};
ghost use Rattle.fdb_mutations.specs.PairLaws.{given_of};
ghost use Rattle.fdb_mutations.specs.Pairs.{scanned};
ghost use Rattle.fdb_client.specs.Programs.{program, copy, decided, decided_ranges, add_reads, is_read_only};
ghost use Rattle.fdb_client.specs.Programs.{mutations_of};
ghost use Rattle.fdb_client.specs.Unreadable.{get_fault, scan_fault, unless_out, unreadable_in};
ghost use Rattle.fdb_txn.specs.Limits.{size_limit};
ghost use Rattle.fdb_client.specs.Finishing.{finish_fault, AsksFor, IsFinished};
ghost use Rattle.fdb_client.specs.declared.program.Op.TheVariants as operation;
ghost use Rattle.fdb_client.specs.declared.program.Reply.TheVariants as answer;

use crate::buffering::buffer;
use crate::conflict_set::ConflictSet;
use crate::finished::Finished;
use crate::own_writes::OwnWrites;
use crate::program::{Op, Reply, Transcript};
use crate::range_read::pairs_of;
use crate::reading::{pairs_copy, readable_value_of, scanned_part};
use crate::sealing::{check_written, sealed_of};
use crate::snapshot::Snapshot;
use bytes::Bytes;
use fdb_keys::{Items, Key, KeyRange, RangeSet, Refusal, Refused};
use fdb_mutations::{Mutation, copied};
use fdb_txn::{Sealed, TxnId};
use std::alloc::{AllocError, Global};

// For how many operations a transaction makes room at its first get or write. Most have few.
const FIRST_OPS: usize = 6;

#[derive(Drop)]
pub(crate) struct TxnState {
    pub(crate) alloc: Global,
    pub(crate) transcript: Transcript,
    // What its writes leave at each key.
    pub(crate) own: OwnWrites,
    // What it reads and what it writes.
    pub(crate) reads: ConflictSet,
    pub(crate) writes: ConflictSet,
    // Whether there is a mutation among its operations.
    pub(crate) mutates: bool,
    // Whether there is a `Stamped` among its operations. Where there is none, each key can be read.
    pub(crate) stamps: bool,
}

impl TxnState {
    ghost use Rattle.fdb_client.specs.TxnState.{AreKept, WritesNothing, with_op};

    // A transaction without operations.
    pub(crate) fn new(alloc: Global, id: TxnId, read_version: u64) -> Self
        ensures transcript { result.transcript ≡ record { id = id; read_version = read_version; ops = [] } }
        ensures kept { AreKept result }
    {
        TxnState {
            alloc,
            transcript: Transcript {
                id,
                read_version,
                ops: Items::new(alloc),
            },
            own: OwnWrites::new(alloc),
            reads: ConflictSet::new(alloc),
            writes: ConflictSet::new(alloc),
            mutates: false,
            stamps: false,
        }
    }

    // Notes an operation with its reply, which neither reads nor writes anything new. Where memory runs out, nothing
    // changes.
    fn note(&mut self, done: (Op, Reply)) -> Result<(), Refusal>
        requires kept { AreKept self.old }
        requires unwritten { WritesNothing done.0 }
        requires unread { add_reads (program self.old.transcript.ops) done.0 done.1 self.old.reads ≡ self.old.reads }
        ensures answers { Answers result None (λ _. self.new.transcript
            ≡ with_op self.old.transcript done.0 done.1) }
        ensures err { OnErr result (self.new ≡ self.old) }
        ensures kept { OnOk result (AreKept self.new) }
    {
        self.transcript.ops.push(done)?;
        Ok(())
    }

    // Notes an operation with its reply, which reads a key. Where memory runs out, nothing changes.
    fn note_key(&mut self, done: (Op, Reply), key: &Key) -> Result<(), Refusal>
        requires kept { AreKept self.old }
        requires unwritten { WritesNothing done.0 }
        requires read { add_reads (program self.old.transcript.ops) done.0 done.1 self.old.reads
            ≡ with_range (single_range key.now) self.old.reads }
        ensures answers { Answers result None (λ _. self.new.transcript
            ≡ with_op self.old.transcript done.0 done.1) }
        ensures err { OnErr result (self.new ≡ self.old) }
        ensures kept { OnOk result (AreKept self.new) }
    {
        let count = self.transcript.ops.len();
        self.transcript.ops.push(done)?;
        if let Err(why) = self.reads.add_key(key) {
            self.transcript.ops.truncate(count);
            return Err(why);
        }
        Ok(())
    }

    // Notes an operation with its reply, which reads a range. Where memory runs out, nothing changes.
    fn note_read(&mut self, done: (Op, Reply), range: &KeyRange) -> Result<(), Refusal>
        requires kept { AreKept self.old }
        requires unwritten { WritesNothing done.0 }
        requires read { add_reads (program self.old.transcript.ops) done.0 done.1 self.old.reads
            ≡ with_range range.now self.old.reads }
        ensures answers { Answers result None (λ _. self.new.transcript
            ≡ with_op self.old.transcript done.0 done.1) }
        ensures err { OnErr result (self.new ≡ self.old) }
        ensures kept { OnOk result (AreKept self.new) }
    {
        let count = self.transcript.ops.len();
        self.transcript.ops.push(done)?;
        if let Err(why) = self.reads.add(range) {
            self.transcript.ops.truncate(count);
            return Err(why);
        }
        Ok(())
    }

    // Notes an operation with its reply, which reads several ranges. Where memory runs out, nothing changes.
    fn note_reads(&mut self, done: (Op, Reply), ranges: &RangeSet) -> Result<(), Refusal>
        requires kept { AreKept self.old }
        requires unwritten { WritesNothing done.0 }
        requires read { add_reads (program self.old.transcript.ops) done.0 done.1 self.old.reads
            ≡ with_ranges ranges.now self.old.reads }
        ensures answers { Answers result None (λ _. self.new.transcript
            ≡ with_op self.old.transcript done.0 done.1) }
        ensures err { OnErr result (self.new ≡ self.old) }
        ensures kept { OnOk result (AreKept self.new) }
    {
        let count = self.transcript.ops.len();
        self.transcript.ops.push(done)?;
        if let Err(why) = self.reads.add_all(ranges) {
            self.transcript.ops.truncate(count);
            return Err(why);
        }
        Ok(())
    }

    // Whether its own writes decide the key.
    pub(crate) fn decides(&self, key: &Key) -> bool
        requires { AreKept self.now }
        ensures { result ≡ decided (program self.now.transcript.ops) key.now }
    {
        self.own.decides(key)
    }

    // Notes what the key was read as, which own writes decide or don't. Where memory runs out, nothing changes.
    fn note_get(
        &mut self,
        key: &Key,
        is_snapshot: bool,
        is_decided: bool,
        value: Option<&Bytes>,
    ) -> Result<(), Refusal>
        requires kept { AreKept self.old }
        requires decided { is_decided ≡ decided (program self.old.transcript.ops) key.now }
        ensures answers { Answers result None (λ _. self.new.transcript ≡ with_op self.old.transcript
            (operation.Get key.now is_snapshot) (answer.Value (option_copied value.entry))) }
        ensures err { OnErr result (self.new ≡ self.old) }
        ensures kept { OnOk result (AreKept self.new) }
    {
        self.transcript.ops.hold(FIRST_OPS)?;
        if !is_read(is_snapshot, is_decided) {
            return self.note(answered_get(key, is_snapshot, value)?);
        }
        self.note_key(answered_get(key, is_snapshot, value)?, key)
    }

    // What stands at the key after its own writes, and whether they decide the key. Refused where it can't be read.
    fn read<S: Snapshot>(&self, snapshot: &S, key: &Key) -> Result<(Option<Bytes>, bool), Refusal>
        requires { AreKept self.now }
        ensures value { Answers result
            (get_fault (program self.now.transcript.ops) key.now (S.key_fault snapshot.now key.now))
            (λ read. read.0 ≡ get (copy (S.map snapshot.now) (program self.now.transcript.ops)) key.now) }
        ensures decided { IfOk result (λ read. read.1 ≡ decided (program self.now.transcript.ops) key.now) }
    {
        readable_value_of(self.alloc, &self.own, snapshot, key)
    }

    // Reads the key after its own writes, and notes that. Where it is refused, nothing changes.
    pub(crate) fn get<S: Snapshot>(
        &mut self,
        snapshot: &S,
        key: &Key,
        is_snapshot: bool,
    ) -> Result<Option<Bytes>, Refusal>
        requires { AreKept self.old }
        ensures answers { Answers result
            (get_fault (program self.old.transcript.ops) key.now (S.key_fault snapshot.now key.now))
            (λ value. value ≡ get (copy (S.map snapshot.now) (program self.old.transcript.ops)) key.now) }
        ensures ok { IfOk result (λ value. self.new.transcript
            ≡ with_op self.old.transcript (operation.Get key.now is_snapshot) (answer.Value value)) }
        ensures err { OnErr result (self.new ≡ self.old) }
        ensures kept { OnOk result (AreKept self.new) }
    {
        let (value, is_decided) = self.read(snapshot, key)?;
        self.note_get(key, is_snapshot, is_decided, value.as_ref())?;
        Ok(value)
    }

    // The parts of the range that its own writes don't decide.
    fn undecided_in(&self, range: &KeyRange) -> Result<RangeSet, Refusal>
        requires { AreKept self.now }
        ensures { Answers result None
            (λ undecided. undecided ≡ outside (decided_ranges (program self.now.transcript.ops)) range.now) }
    {
        self.own.undecided_in(self.alloc, range)
    }

    // Whether no key of what a read of the range scanned, by the pairs that it was given, is unreadable. Without a
    // `Stamped` it takes no memory, and O(1) time.
    fn check_readable(
        &self,
        range: &KeyRange,
        limit: u32,
        reverse: bool,
        pairs: &[(Key, Bytes)],
    ) -> Result<(), Refusal>
        requires kept { AreKept self.now }
        requires given { (map : Map) × (pairs.now ≡ given_of map range.now limit reverse) }
        ensures { Answers result (unless_out result (if unreadable_in (program self.now.transcript.ops)
            (scanned range.now limit reverse pairs.now) then Some AccessedUnreadable else None)) (λ _. ⊤) }
    {
        if !self.stamps {
            return Ok(());
        }
        let part = scanned_part(self.alloc, range, limit, reverse, pairs)?;
        if self.own.is_unreadable_in(&part) {
            return Err(Refusal::AccessedUnreadable);
        }
        Ok(())
    }

    // Notes what the range was read as. Where memory runs out, nothing changes.
    fn note_range(
        &mut self,
        range: &KeyRange,
        limit: u32,
        reverse: bool,
        is_snapshot: bool,
        pairs: &Items<(Key, Bytes)>,
    ) -> Result<(), Refusal>
        requires kept { AreKept self.old }
        requires given { (map : Map) × (pairs.now ≡ given_of map range.now limit reverse) }
        ensures answers { Answers result None (λ _. self.new.transcript ≡ with_op self.old.transcript
            (operation.Range range.now limit reverse is_snapshot) (answer.Pairs pairs.now)) }
        ensures err { OnErr result (self.new ≡ self.old) }
        ensures kept { OnOk result (AreKept self.new) }
    {
        if is_snapshot {
            return self.note(answered_range(range, limit, reverse, true, pairs)?);
        }
        let scanned = scanned_part(self.alloc, range, limit, reverse, pairs.as_slice())?;
        let undecided = self.undecided_in(&scanned)?;
        self.note_reads(
            answered_range(range, limit, reverse, false, pairs)?,
            &undecided,
        )
    }

    // Reads the range after its own writes, and notes that. Where it is refused, nothing changes.
    pub(crate) fn get_range<S: Snapshot>(
        &mut self,
        snapshot: &S,
        range: &KeyRange,
        limit: u32,
        reverse: bool,
        is_snapshot: bool,
    ) -> Result<Items<(Key, Bytes)>, Refusal>
        requires { AreKept self.old }
        ensures answers { Answers result (option_or (S.range_fault snapshot.now range.now) (unless_out result
            (scan_fault (copy (S.map snapshot.now) (program self.old.transcript.ops))
            (program self.old.transcript.ops) range.now limit reverse))) (λ pairs. pairs
            ≡ given_of (copy (S.map snapshot.now) (program self.old.transcript.ops)) range.now limit reverse) }
        ensures ok { IfOk result (λ pairs. self.new.transcript ≡ with_op self.old.transcript
            (operation.Range range.now limit reverse is_snapshot) (answer.Pairs pairs)) }
        ensures err { OnErr result (self.new ≡ self.old) }
        ensures kept { OnOk result (AreKept self.new) }
    {
        let pairs = pairs_of(self.alloc, &self.own, snapshot, range, limit, reverse)?;
        self.check_readable(range, limit, reverse, pairs.as_slice())?;
        self.note_range(range, limit, reverse, is_snapshot, &pairs)?;
        Ok(pairs)
    }

    // Adds a range to the read set. Where memory runs out, nothing changes.
    pub(crate) fn add_read(&mut self, range: &KeyRange) -> Result<(), Refusal>
        requires { AreKept self.old }
        ensures answers { Answers result None
            (λ _. self.new.transcript ≡ with_op self.old.transcript (operation.AddRead range.now) answer.Done) }
        ensures err { OnErr result (self.new ≡ self.old) }
        ensures kept { OnOk result (AreKept self.new) }
    {
        let noted = range.clone()?;
        self.note_read((Op::AddRead(noted), Reply::Done), range)
    }

    // Adds a range to the write set. Where memory runs out, nothing changes.
    pub(crate) fn add_write(&mut self, range: &KeyRange) -> Result<(), Refusal>
        requires { AreKept self.old }
        ensures answers { Answers result None
            (λ _. self.new.transcript ≡ with_op self.old.transcript (operation.AddWrite range.now) answer.Done) }
        ensures err { OnErr result (self.new ≡ self.old) }
        ensures kept { OnOk result (AreKept self.new) }
    {
        let noted = range.clone()?;
        let count = self.transcript.ops.len();
        self.transcript
            .ops
            .push((Op::AddWrite(noted), Reply::Done))?;
        if let Err(why) = self.writes.add(range) {
            self.transcript.ops.truncate(count);
            return Err(why);
        }
        Ok(())
    }

    // Buffers a mutation. Where memory runs out, nothing changes.
    pub(crate) fn write(&mut self, mutation: &Mutation) -> Result<(), Refusal>
        requires kept { AreKept self.old }
        requires legal { mutation_fault mutation.now ≡ None }
        ensures answers { Answers result None
            (λ _. self.new.transcript ≡ with_op self.old.transcript (operation.Write mutation.now) answer.Done) }
        ensures err { OnErr result (self.new.transcript ≡ self.old.transcript) }
        ensures kept { AreKept self.new }
    {
        self.transcript.ops.hold(FIRST_OPS)?;
        let count = self.transcript.ops.len();
        push_write(&mut self.transcript.ops, mutation)?;
        if let Err(why) = buffer(self.alloc, &mut self.own, &mut self.writes, mutation) {
            self.transcript.ops.truncate(count);
            return Err(why);
        }
        self.mutates = true;
        self.stamps = self.stamps || mutation.is_stamped();
        Ok(())
    }

    /// Whether it writes nothing.
    pub(crate) fn is_read_only(&self) -> bool
        requires { AreKept self.now }
        ensures { result ≡ is_read_only self.now.transcript }
    {
        !self.mutates && self.writes.is_empty()
    }

    // What it asks to commit. It stays as it is, and open.
    pub(crate) fn request(&self) -> Result<Sealed, Refusal>
        requires { AreKept self.now }
        ensures answers { AsksFor self.now.transcript result }
        ensures known { size_limit < sum_by mutation_size (mutations_of (program self.now.transcript.ops))
            → result ≡ Err TransactionTooLarge }
    {
        check_written(self.transcript.ops.as_slice())?;
        let reads = self.reads.to_set(self.alloc)?;
        let writes = self.writes.to_set(self.alloc)?;
        sealed_of(self.alloc, &self.transcript, reads, writes)
    }

    // Its operations with their replies, alone, in no more room than they need: who keeps a transcript keeps many.
    pub(crate) fn into_transcript(self) -> Transcript
        ensures { result ≡ self.transcript }
    {
        let TxnState { transcript, .. } = self;
        let Transcript {
            id,
            read_version,
            ops,
        } = transcript;
        Transcript {
            id,
            read_version,
            ops: fitted(ops),
        }
    }

    // What is left to do of it: nothing, which takes no memory, or to commit it. A refusal hands it back.
    pub(crate) fn finish(self) -> Result<Finished, Refused<TxnState>>
        requires { AreKept self }
        ensures answers { AnswersOrHandsBack result self (finish_fault result self.transcript)
            (IsFinished self.transcript) }
        ensures known { size_limit < sum_by mutation_size (mutations_of (program self.transcript.ops))
            → IfErr result (λ refused. refused.why ≡ TransactionTooLarge) × IsErr result }
        ensures back { IfErr result (λ refused. refused.back ≡ self) }
        ensures read_only { is_read_only self.transcript ≡ true → IsOk result }
    {
        if self.is_read_only() {
            return Ok(Finished::ReadOnly(self.into_transcript()));
        }
        match self.request() {
            Ok(sealed) => Ok(Finished::ToCommit(sealed, self.into_transcript())),
            Err(why) => Err(Refused { why, back: self }),
        }
    }
}

// The list in no more room than it needs.
fn fitted<T>(items: Items<T>) -> Items<T>
    ensures { result ≡ items }
{
    let mut list = items.into_vec();
    list.shrink_to_fit();
    Items::from_vec(list)
}

// Whether a read of a key adds it to the read set.
fn is_read(is_snapshot: bool, is_decided: bool) -> bool
    ensures { result ≡ (not is_snapshot && not is_decided) }
{
    !is_snapshot && !is_decided
}

// Lists a write among the operations. Where memory runs out, nothing changes.
fn push_write(ops: &mut Items<(Op, Reply)>, mutation: &Mutation) -> Result<(), Refusal>
    ensures answers { Answers result None
        (λ _. ops.new ≡ ops.old ++ (operation.Write mutation.now, answer.Done) ∷ []) }
    ensures err { OnErr result (ops.new ≡ ops.old) }
{
    let noted = copy_of(mutation)?;
    ops.push((Op::Write(noted), Reply::Done))?;
    Ok(())
}

// A copy of the mutation.
fn copy_of(mutation: &Mutation) -> Result<Mutation, AllocError>
    ensures { IfOk result (λ copy. copy ≡ mutation.now) }
{
    let copy = mutation.clone()?;
    Ok(copy)
}

// The read of the key, with the value that it was answered. It is made in the call that notes it: where an operation
// falls out of scope, the prover goes over every kind of operation.
fn answered_get(key: &Key, snapshot: bool, value: Option<&Bytes>) -> Result<(Op, Reply), AllocError>
    ensures { IfOk result
        (λ done. done ≡ (operation.Get key.now snapshot, answer.Value (option_copied value.entry))) }
{
    let key = key.clone()?;
    let value = copied(value)?;
    Ok((Op::Get { key, snapshot }, Reply::Value(value)))
}

// The read of the range, with the pairs that it was answered.
fn answered_range(
    range: &KeyRange,
    limit: u32,
    reverse: bool,
    snapshot: bool,
    pairs: &Items<(Key, Bytes)>,
) -> Result<(Op, Reply), AllocError>
    ensures { IfOk result
        (λ done. done ≡ (operation.Range range.now limit reverse snapshot, answer.Pairs pairs.now)) }
{
    let range = range.clone()?;
    let pairs = pairs_copy(pairs)?;
    let op = Op::Range {
        range,
        limit,
        reverse,
        snapshot,
    };
    Ok((op, Reply::Pairs(pairs)))
}
