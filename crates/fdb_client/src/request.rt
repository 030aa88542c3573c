// What a transcript asks to commit, beside a transaction that stands in a book.
ghost use Rattle.std.specs.Prelude.{◌≡◌, ◌↔◌, ◌++◌, List, [], None, true, IsTrue};
ghost use Rattle.fdb_keys.specs.Answers.{Answers};
ghost use Rattle.fdb_keys.specs.Insertion.{with_range};
ghost use Rattle.fdb_mutations.specs.Maps.{Map};
ghost use Rattle.fdb_mutations.specs.Mutations.{named_range};
ghost use Rattle.fdb_mutations.specs.PairLaws.{given_of};
ghost use Rattle.fdb_mutations.specs.Pairs.{scanned};
ghost use Rattle.fdb_client.specs.declared.program.Op.{Op};
ghost use Rattle.fdb_client.specs.declared.program.Reply.{Reply};
ghost use Rattle.fdb_client.specs.Programs.{program, replies_of, exec, reply_on, add_scanned, add_reads, add_decided};
ghost use Rattle.fdb_client.specs.Programs.{add_writes, add_mutation, decided_ranges, read_ranges, write_ranges};
ghost use Rattle.fdb_client.specs.Programs.{mutations_of, commit_request_of};
ghost use Rattle.fdb_client.specs.ProgramLaws.{is_ordinary, AgreeWhereOrdinary};

use crate::conflict_set::ConflictSet;
use crate::program::{Op, Reply, Transcript, is_ordinary_read};
use crate::reading::undecided_part;
use bytes::Bytes;
use fdb_keys::{Items, Key, KeyRange, RangeSet, Refusal, TreeRangeSet};
use fdb_mutations::{Mutation, Named};
use fdb_txn::Sealed;
use std::alloc::Global;

// Adds what the mutation names.
fn add_named(set: &mut ConflictSet, mutation: &Mutation) -> Result<(), Refusal>
    ensures { Answers result None (λ _. set.new ≡ with_range (named_range mutation.now) set.old) }
{
    match mutation.named() {
        Named::Key(key) => set.add_key(key),
        Named::Range(range) => set.add(range),
    }
}

// Adds what the operation writes.
fn add_written(writes: &mut ConflictSet, op: &Op) -> Result<(), Refusal>
    ensures { Answers result None (λ _. writes.new ≡ add_writes op.now writes.old) }
{
    match op {
        Op::Write(mutation) => add_named(writes, mutation),
        Op::AddWrite(range) => writes.add(range),
        Op::Get { .. } | Op::Range { .. } | Op::AddRead(_) => Ok(()),
    }
}

// The write set of the operations.
fn written(alloc: Global, ops: &[(Op, Reply)]) -> Result<ConflictSet, Refusal>
    ensures { Answers result None (λ writes. writes ≡ write_ranges (program ops.now)) }
{
    let mut writes = ConflictSet::new(alloc);
    for (op, _) in ops {
        add_written(&mut writes, op)?;
    }
    Ok(writes)
}

// The write set of the operations, as it is submitted.
fn write_set(alloc: Global, ops: &[(Op, Reply)]) -> Result<RangeSet, Refusal>
    ensures { Answers result None (λ writes. writes ≡ write_ranges (program ops.now)) }
{
    let writes = written(alloc, ops)?;
    writes.to_set(alloc)
}

// Whether the operations write no point.
fn has_no_write(alloc: Global, ops: &[(Op, Reply)]) -> Result<bool, Refusal>
    ensures { Answers result None (λ nothing. IsTrue nothing ↔ (write_ranges (program ops.now) ≡ [])) }
{
    let writes = written(alloc, ops)?;
    Ok(writes.is_empty())
}

// Adds the mutation of the operation, if it is a write.
fn add_listed(mutations: &mut Items<Mutation>, op: &Op) -> Result<(), Refusal>
    ensures { Answers result None (λ _. mutations.new ≡ add_mutation op.now mutations.old) }
{
    match op {
        Op::Write(mutation) => {
            mutations.push(mutation.clone()?)?;
            Ok(())
        }
        Op::Get { .. } | Op::Range { .. } | Op::AddRead(_) | Op::AddWrite(_) => Ok(()),
    }
}

// The mutations of the operations.
pub(crate) fn listed(alloc: Global, ops: &[(Op, Reply)]) -> Result<Items<Mutation>, Refusal>
    ensures { Answers result None (λ mutations. mutations ≡ mutations_of (program ops.now)) }
{
    let mut mutations = Items::new(alloc);
    mutations.hold(count_of_writes(ops))?;
    for (op, _) in ops {
        add_listed(&mut mutations, op)?;
    }
    Ok(mutations)
}

// How many of the operations are writes.
fn count_of_writes(ops: &[(Op, Reply)]) -> usize {
    ops.iter()
        .filter(|(op, _)| matches!(op, Op::Write(_)))
        .count()
}

// Whether the operations have no mutation.
fn has_no_mutation(alloc: Global, ops: &[(Op, Reply)]) -> Result<bool, Refusal>
    ensures { Answers result None (λ nothing. IsTrue nothing ↔ (mutations_of (program ops.now) ≡ [])) }
{
    let mutations = listed(alloc, ops)?;
    Ok(mutations.is_empty())
}

// Adds what the mutation names, where it is looked for each time that a key or a range is read.
fn add_decided_by(
    alloc: Global,
    decided: &mut TreeRangeSet,
    mutation: &Mutation,
) -> Result<(), Refusal>
    ensures { Answers result None (λ _. decided.new ≡ with_range (named_range mutation.now) decided.old) }
{
    match mutation.named() {
        Named::Key(key) => decided.add(&KeyRange::single(alloc, key)?),
        Named::Range(range) => decided.add(range),
    }
}

// Adds what the operation decides.
fn add_settled(alloc: Global, decided: &mut TreeRangeSet, op: &Op) -> Result<(), Refusal>
    ensures { Answers result None (λ _. decided.new ≡ add_decided op.now decided.old) }
{
    match op {
        Op::Write(mutation) if mutation.is_blind() => add_decided_by(alloc, decided, mutation),
        _ => Ok(()),
    }
}

// Adds what the operations decide, which follow on those whose decided keys these are.
fn add_all_settled(
    alloc: Global,
    decided: &mut TreeRangeSet,
    ops: &[(Op, Reply)],
) -> Result<(), Refusal>
    ensures { (earlier : List (Op × Reply)) → decided.old ≡ decided_ranges (program earlier)
        → Answers result None (λ _. decided.new ≡ decided_ranges (program (earlier ++ ops.now))) }
{
    for (op, _) in ops {
        add_settled(alloc, decided, op)?;
    }
    Ok(())
}

// Adds what a read of the range scanned, by the pairs that it was given, and no earlier operation decided.
fn add_scan(
    alloc: Global,
    reads: &mut ConflictSet,
    decided: &TreeRangeSet,
    range: &KeyRange,
    limit: u32,
    reverse: bool,
    pairs: &[(Key, Bytes)],
) -> Result<(), Refusal>
    requires { (map : Map) × (pairs.now ≡ given_of map range.now limit reverse) }
    ensures { (earlier : List Op) → decided.now ≡ decided_ranges earlier → Answers result None
        (λ _. reads.new ≡ add_scanned earlier (scanned range.now limit reverse pairs.now) reads.old) }
{
    let undecided = undecided_part(alloc, decided, range, limit, reverse, pairs)?;
    reads.add_all(&undecided)
}

// Adds what the operation read that no earlier one decided.
fn add_read(
    alloc: Global,
    reads: &mut ConflictSet,
    decided: &TreeRangeSet,
    op: &Op,
    reply: &Reply,
) -> Result<(), Refusal>
    requires { is_ordinary op.now ≡ true → (map : Map) × (reply.now ≡ reply_on map op.now) }
    ensures { (earlier : List Op) → decided.now ≡ decided_ranges earlier
        → Answers result None (λ _. reads.new ≡ add_reads earlier op.now reply.now reads.old) }
{
    match (op, reply) {
        (
            Op::Get {
                key,
                snapshot: false,
            },
            _,
        ) => {
            if decided.contains(key) {
                return Ok(());
            }
            reads.add_key(key)
        }
        (
            Op::Range {
                range,
                limit,
                reverse,
                snapshot: false,
            },
            Reply::Pairs(pairs),
        ) => add_scan(
            alloc,
            reads,
            decided,
            range,
            *limit,
            *reverse,
            pairs.as_slice(),
        ),
        (Op::AddRead(range), _) => reads.add(range),
        _ => Ok(()),
    }
}

// The read set of the operations, which were answered as on some map.
fn read(alloc: Global, ops: &[(Op, Reply)]) -> Result<ConflictSet, Refusal>
    requires { (map : Map) × AgreeWhereOrdinary (program ops.now) (replies_of ops.now) (exec map (program ops.now)) }
    ensures { Answers result None (λ reads. reads ≡ read_ranges (program ops.now) (replies_of ops.now)) }
{
    let mut reads = ConflictSet::new(alloc);
    let mut decided = TreeRangeSet::new(alloc);
    // Only a read asks what was decided, so what the operations before it decide is added once it comes.
    let mut settled = 0;
    for (number, (op, reply)) in ops.iter().enumerate() {
        if is_ordinary_read(op) {
            add_all_settled(alloc, &mut decided, &ops[settled..number])?;
            settled = number;
        }
        add_read(alloc, &mut reads, &decided, op, reply)?;
    }
    Ok(reads)
}

// The read set of such operations, as it is submitted.
fn read_set(alloc: Global, ops: &[(Op, Reply)]) -> Result<RangeSet, Refusal>
    requires { (map : Map) × AgreeWhereOrdinary (program ops.now) (replies_of ops.now) (exec map (program ops.now)) }
    ensures { Answers result None (λ reads. reads ≡ read_ranges (program ops.now) (replies_of ops.now)) }
{
    let reads = read(alloc, ops)?;
    reads.to_set(alloc)
}

// Whether the transaction has this id, this read version, these sets and these mutations.
fn has_parts(
    transaction: &Sealed,
    transcript: &Transcript,
    reads: &RangeSet,
    writes: &RangeSet,
    mutations: &[Mutation],
) -> bool
    ensures { IsTrue result ↔ (transaction.now ≡ record {
      id = transcript.now.id;
      read = transcript.now.read_version;
      reads = reads.now;
      writes = writes.now;
      mutations = mutations.now;
    }) }
{
    if transaction.id() != transcript.id {
        return false;
    }
    if transaction.read_version() != transcript.read_version {
        return false;
    }
    if transaction.reads() != reads {
        return false;
    }
    if transaction.writes() != writes {
        return false;
    }
    transaction.mutations() == mutations
}

/// Whether the transaction is just what the transcript asks to commit: it has the transcript's id and read version,
/// the read set and the write set of its operations, and their mutations in order. The transcript's ordinary operations
/// were answered as on some map. Refused only as `NoMemory`. It takes O(n log n) comparisons of bounds for n operations
/// and ranges that they read, beside the bytes of the mutations.
pub fn is_request_of(
    alloc: Global,
    transaction: &Sealed,
    transcript: &Transcript,
) -> Result<bool, Refusal>
    requires { (map : Map) × AgreeWhereOrdinary (program transcript.now.ops) (replies_of transcript.now.ops)
        (exec map (program transcript.now.ops)) }
    ensures { Answers result None (λ same. IsTrue same ↔ (transaction.now ≡ commit_request_of transcript.now)) }
{
    let ops = transcript.ops.as_slice();
    let reads = read_set(alloc, ops)?;
    let writes = write_set(alloc, ops)?;
    let mutations = listed(alloc, ops)?;
    Ok(has_parts(
        transaction,
        transcript,
        &reads,
        &writes,
        mutations.as_slice(),
    ))
}

/// Whether the transcript wrote nothing: it has no mutation, and its write set is empty. Refused only as `NoMemory`. It
/// takes O(n) time for n operations.
pub fn has_written_nothing(alloc: Global, transcript: &Transcript) -> Result<bool, Refusal>
    ensures { Answers result None (λ nothing. IsTrue nothing
        ↔ ((mutations_of (program transcript.now.ops) ≡ []) × (write_ranges (program transcript.now.ops) ≡ []))) }
{
    let ops = transcript.ops.as_slice();
    let has_no_write = has_no_write(alloc, ops)?;
    let has_no_mutation = has_no_mutation(alloc, ops)?;
    Ok(has_no_mutation && has_no_write)
}
