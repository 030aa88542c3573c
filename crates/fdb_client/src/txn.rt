use crate::conflict_set::ConflictSet;
use crate::finished::Finished;
use crate::program::Transcript;
use crate::snapshot::Snapshot;
use crate::txn_state::TxnState;
use bytes::Bytes;
use fdb_keys::{Items, Key, KeyRange, Refusal, Refused};
use fdb_mutations::Mutation;
use fdb_txn::{Sealed, TxnId};
use std::alloc::Global;
use std::marker::Model;

/// An open transaction, by the rules of FoundationDB's client. It reads at one version, buffers its writes, reads its
/// own writes, and keeps its operations with their replies, its read set and its write set.
///
/// A read or a write takes the logarithm of what it holds, and a read of a key also what its own atomic mutations of
/// the key take that no write decided.
#[derive(Drop)]
pub struct Txn {
    state: TxnState,
}

impl Model for Txn {
    ghost use Rattle.fdb_client.specs.TxnState.{AreKept};
    ghost use Rattle.fdb_client.specs.declared.program.Transcript.{Transcript};

    ghost Value = { Transcript };

    ghost view = { λ txn. txn.state.transcript };

    ghost invariant = { λ txn. AreKept txn.state };
}

impl Txn {
    ghost use Rattle.std.specs.Prelude.{◌≡◌, ◌<◌, true, [], None, Err, IfOk, IfErr, IsOk, IsErr, OnErr, sum_by};
    ghost use Rattle.std.specs.FinMap.{get};
    ghost use Rattle.std.specs.Option.{option_or};
    ghost use Rattle.fdb_keys.specs.Answers.{Answers, AnswersOrHandsBack};
    ghost use Rattle.fdb_keys.specs.Points.{Point};
    ghost use Rattle.fdb_keys.specs.Ranges.{in_set};
    ghost use Rattle.fdb_mutations.specs.Maps.{Map};
    ghost use Rattle.fdb_keys.specs.declared.refusal.Refusal.TheVariants.{TransactionTooLarge};
    ghost use Rattle.fdb_mutations.specs.Mutations.{mutation_fault, mutation_size};
    ghost use Rattle.fdb_mutations.specs.PairLaws.{given_of};
    ghost use Rattle.fdb_txn.specs.Limits.{size_limit};
    ghost use Rattle.fdb_client.specs.Finishing.{finish_fault, AsksFor, IsFinished};
    ghost use Rattle.fdb_client.specs.TxnState.{with_op};
    ghost use Rattle.fdb_client.specs.ProgramLaws.{IsExecuted};
    ghost use Rattle.fdb_client.specs.Programs.{program, replies_of, copy, decided, read_set, write_set, read_ranges};
    ghost use Rattle.fdb_client.specs.Programs.{mutations_of, write_ranges, is_read_only};
    ghost use Rattle.fdb_client.specs.Unreadable.{get_fault, scan_fault, unless_out};
    ghost use Rattle.fdb_client.specs.declared.program.Op.TheVariants as operation;
    ghost use Rattle.fdb_client.specs.declared.program.Reply.TheVariants as answer;

    /// A transaction without operations, under the id, that reads at the version. It takes no memory.
    pub fn begin(alloc: Global, id: TxnId, read_version: u64) -> Self
        ensures { result ≡ record { id = id; read_version = read_version; ops = [] } }
    {
        Txn {
            state: TxnState::new(alloc, id, read_version),
        }
    }

    /// The value of the key after the transaction's own writes, from a snapshot at its read version. Where its writes
    /// decide the key, as a set or a clear does, the snapshot isn't asked, and else it refuses as the snapshot does. An
    /// ordinary read, which is no snapshot read, of a key that isn't decided adds the key to the read set. Where it is
    /// refused, nothing is noted.
    ///
    /// Refused as `AccessedUnreadable`, before the snapshot is asked, where the key is unreadable: its value has a
    /// stamp, since the last of the transaction's sets, clears and stamped mutations that names it is a `Stamped`. A
    /// snapshot read is refused so too.
    pub fn get<S: Snapshot>(
        &mut self,
        snapshot: &S,
        key: &Key,
        is_snapshot: bool,
    ) -> Result<Option<Bytes>, Refusal>
        requires { S.at snapshot.now ≡ self.old.read_version }
        ensures answers { Answers result
            (get_fault (program self.old.ops) key.now (S.key_fault snapshot.now key.now))
            (λ value. value ≡ get (copy (S.map snapshot.now) (program self.old.ops)) key.now) }
        ensures ok { IfOk result
            (λ value. self.new ≡ with_op self.old (operation.Get key.now is_snapshot) (answer.Value value)) }
        ensures err { OnErr result (self.new ≡ self.old) }
    {
        self.state.get(snapshot, key, is_snapshot)
    }

    /// The pairs of the range after the transaction's own writes, from a snapshot at its read version: the first ones
    /// in the order of keys, or the last ones in the reverse order, at most `limit` of them, or all where it is 0. It
    /// refuses as the snapshot refuses the range. An ordinary read, which is no snapshot read, adds to the read set
    /// what it scanned and the own writes don't decide; it scanned the whole range, or, where it gave as many pairs as
    /// the limit allows, the range up to the last one's key, which is in it. Where it is refused, nothing is noted.
    ///
    /// Refused as `AccessedUnreadable` where it scanned a key that is unreadable, as `get` says, unless memory ran out
    /// before that was known: such a key counts as a pair, and a read that would give it is refused. The snapshot's
    /// refusals come first.
    ///
    /// It takes the snapshot's pages, and goes once over these and the own writes of what it scans: for n pairs and own
    /// writes there it takes O(n log m) comparisons of keys, where the transaction holds m keys and ranges. Each page
    /// but the first is asked for twice as many pairs as the one before, so that where own writes hide n pairs it asks
    /// for O(log n) pages. Where a `Stamped` was written, it goes over those own writes once more.
    pub fn get_range<S: Snapshot>(
        &mut self,
        snapshot: &S,
        range: &KeyRange,
        limit: u32,
        reverse: bool,
        is_snapshot: bool,
    ) -> Result<Items<(Key, Bytes)>, Refusal>
        requires { S.at snapshot.now ≡ self.old.read_version }
        ensures answers { Answers result (option_or (S.range_fault snapshot.now range.now) (unless_out result
            (scan_fault (copy (S.map snapshot.now) (program self.old.ops)) (program self.old.ops) range.now limit
            reverse)))
            (λ pairs. pairs ≡ given_of (copy (S.map snapshot.now) (program self.old.ops)) range.now limit reverse) }
        ensures ok { IfOk result (λ pairs. self.new
            ≡ with_op self.old (operation.Range range.now limit reverse is_snapshot) (answer.Pairs pairs)) }
        ensures err { OnErr result (self.new ≡ self.old) }
    {
        self.state
            .get_range(snapshot, range, limit, reverse, is_snapshot)
    }

    /// Buffers a mutation, whose key or range joins the write set. A `Stamped` makes its key unreadable, until a set or
    /// a clear names the key. Refused as `ValueTooLarge` and as `BadOperand` where `check` refuses it; then nothing
    /// changes.
    pub fn write(&mut self, mutation: Mutation) -> Result<(), Refusal>
        ensures answers { Answers result (mutation_fault mutation)
            (λ _. self.new ≡ with_op self.old (operation.Write mutation) answer.Done) }
        ensures err { OnErr result (self.new ≡ self.old) }
    {
        let answer = self.write_copy(&mutation);
        drop(mutation);
        answer
    }

    /// Buffers a copy of the mutation, as `write` buffers the mutation. It is checked before the copy takes memory. It
    /// takes what `write` takes.
    pub fn write_copy(&mut self, mutation: &Mutation) -> Result<(), Refusal>
        ensures answers { Answers result (mutation_fault mutation.now)
            (λ _. self.new ≡ with_op self.old (operation.Write mutation.now) answer.Done) }
        ensures err { OnErr result (self.new ≡ self.old) }
    {
        mutation.check()?;
        self.state.write(mutation)
    }

    /// Adds the range to the read set, whole, also where its keys are decided. An empty range adds nothing. Refused
    /// only as `NoMemory`, and then nothing changes.
    pub fn add_read(&mut self, range: &KeyRange) -> Result<(), Refusal>
        ensures answers { Answers result None
            (λ _. self.new ≡ with_op self.old (operation.AddRead range.now) answer.Done) }
        ensures err { OnErr result (self.new ≡ self.old) }
    {
        self.state.add_read(range)
    }

    /// Adds the range to the write set, whole. An empty range adds nothing. Refused only as `NoMemory`, and then
    /// nothing changes.
    pub fn add_write(&mut self, range: &KeyRange) -> Result<(), Refusal>
        ensures answers { Answers result None
            (λ _. self.new ≡ with_op self.old (operation.AddWrite range.now) answer.Done) }
        ensures err { OnErr result (self.new ≡ self.old) }
    {
        self.state.add_write(range)
    }

    /// Whether the transaction's own writes decide the key: then a read of the key asks no snapshot. It takes no
    /// memory, and O(log n) time for n keys and ranges that they hold.
    pub fn decides(&self, key: &Key) -> bool
        ensures { result ≡ decided (program self.now.ops) key.now }
    {
        self.state.decides(key)
    }

    /// The version that the transaction reads at. It takes no memory, and O(1) time.
    pub fn read_version(&self) -> u64
        ensures { result ≡ self.now.read_version }
    {
        self.state.transcript.read_version
    }

    /// The id, the read version, and the operations so far with their replies.
    pub fn transcript(&self) -> &Transcript
        ensures { result.now ≡ self.now }
    {
        &self.state.transcript
    }

    /// The read set: what its ordinary reads read of what wasn't decided, and the ranges that were added. Where its
    /// replies are those of the program on a map, these are the points that the program reads on that map. It takes no
    /// memory, and O(1) time.
    pub fn read_conflicts(&self) -> &ConflictSet
        ensures value { result.now ≡ read_ranges (program self.now.ops) (replies_of self.now.ops) }
        ensures points { (map : Map) → IsExecuted map self.now.ops → (x : Point)
            → in_set result.now x ≡ read_set map (program self.now.ops) x }
    {
        &self.state.reads
    }

    /// The write set: what its mutations name, and the ranges that were added. It takes no memory, and O(1) time.
    pub fn write_conflicts(&self) -> &ConflictSet
        ensures value { result.now ≡ write_ranges (program self.now.ops) }
        ensures points { (x : Point) → in_set result.now x ≡ write_set (program self.now.ops) x }
    {
        &self.state.writes
    }

    /// Whether the transaction writes nothing: it has no mutation, and its write set is empty. It takes no memory, and
    /// O(1) time.
    pub fn is_read_only(&self) -> bool
        ensures { result ≡ is_read_only self.now }
    {
        self.state.is_read_only()
    }

    /// What the transaction asks to commit: its id and its read version, its read set, its write set, and its
    /// mutations. The transaction stays as it is, and open.
    ///
    /// Refused as `TransactionTooLarge` where that has more than 10,000,000 bytes, unless memory ran out before that
    /// was known, and as `NoMemory`. Where the mutations alone have more, it is known without memory. It puts both sets
    /// together, which takes O(n log n) comparisons of bounds for n operations and what their range reads read, and
    /// copies each mutation, which shares its bytes.
    pub fn request(&self) -> Result<Sealed, Refusal>
        ensures answers { AsksFor self.now result }
        ensures known { size_limit < sum_by mutation_size (mutations_of (program self.now.ops))
            → result ≡ Err TransactionTooLarge }
    {
        self.state.request()
    }

    /// The id, the read version, and the operations with their replies, alone. It takes no memory.
    pub fn into_transcript(self) -> Transcript
        ensures { result ≡ self }
    {
        let Txn { state } = self;
        state.into_transcript()
    }

    /// What is left to do of it: nothing where it has no mutation and an empty write set, which takes no memory and is
    /// never refused, and else to commit it. Refused as `request` is; a refusal hands the transaction back. It takes
    /// the time of `request`.
    pub fn finish(self) -> Result<Finished, Refused<Txn>>
        ensures answers { AnswersOrHandsBack result self (finish_fault result self) (IsFinished self) }
        ensures known { size_limit < sum_by mutation_size (mutations_of (program self.ops))
            → IfErr result (λ refused. refused.why ≡ TransactionTooLarge) × IsErr result }
        ensures read_only { is_read_only self ≡ true → IsOk result }
    {
        let Txn { state } = self;
        match state.finish() {
            Ok(finished) => Ok(finished),
            Err(refused) => Err(Refused {
                why: refused.why,
                back: Txn {
                    state: refused.back,
                },
            }),
        }
    }
}
