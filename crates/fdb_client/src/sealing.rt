// What an open transaction asks to commit, made of its transcript and its sets.
ghost use Rattle.std.specs.Prelude.{◌≡◌, ◌+◌, ◌^◌, ◌-◌, ⊤, List, None, Some, min, nat_lt, sum_by, if◌then◌else◌};
ghost use Rattle.std.specs.List.{AllByRecursion};
ghost use Rattle.fdb_keys.specs.Answers.{AnswersExactly};
ghost use Rattle.fdb_keys.specs.declared.refusal.Refusal.TheVariants.{TransactionTooLarge};
ghost use Rattle.fdb_mutations.specs.declared.mutation.Mutation.{Mutation as AMutation};
ghost use Rattle.fdb_mutations.specs.Mutations.{mutation_fault, mutation_size};
ghost use Rattle.fdb_txn.specs.Limits.{size_limit};
ghost use Rattle.fdb_client.specs.Finishing.{AsksFor};
ghost use Rattle.fdb_client.specs.Programs.{program, replies_of, add_mutation, mutations_of, read_ranges, write_ranges};

use crate::program::{Op, Reply, Transcript};
use crate::request::listed;
use fdb_keys::{RangeSet, Refusal, SharedList};
use fdb_txn::{SIZE_LIMIT, Sealed};
use std::alloc::Global;

// How many bytes the mutation of the operation has, if it is a write.
fn written_by(op: &Op) -> u64
    ensures { (mutations : List AMutation)
        → sum_by mutation_size (add_mutation op.now mutations) ≡ sum_by mutation_size mutations + result }
{
    match op {
        Op::Write(mutation) => mutation.size(),
        Op::Get { .. } | Op::Range { .. } | Op::AddRead(_) | Op::AddWrite(_) => 0,
    }
}

// How many bytes the mutations of the operations have. The sum stops at the greatest number, far above the limit.
fn written_size(ops: &[(Op, Reply)]) -> u64
    ensures { result ≡ min (sum_by mutation_size (mutations_of (program ops.now))) (2 ^ 64 - 1) }
{
    let mut total: u64 = 0;
    for (op, _) in ops {
        total = total.saturating_add(written_by(op));
    }
    total
}

// Refused as `TransactionTooLarge` where the mutations of the operations alone have too many bytes. It takes no memory.
pub(crate) fn check_written(ops: &[(Op, Reply)]) -> Result<(), Refusal>
    ensures { AnswersExactly result
        (if nat_lt size_limit (sum_by mutation_size (mutations_of (program ops.now))) then Some TransactionTooLarge
        else None) (λ _. ⊤) }
{
    if written_size(ops) > SIZE_LIMIT {
        return Err(Refusal::TransactionTooLarge);
    }
    Ok(())
}

// What the transcript asks to commit, with its read set and its write set.
pub(crate) fn sealed_of(
    alloc: Global,
    transcript: &Transcript,
    reads: RangeSet,
    writes: RangeSet,
) -> Result<Sealed, Refusal>
    requires reads { reads ≡ read_ranges (program transcript.now.ops) (replies_of transcript.now.ops) }
    requires writes { writes ≡ write_ranges (program transcript.now.ops) }
    requires legal { AllByRecursion (λ mutation. mutation_fault mutation ≡ None)
        (mutations_of (program transcript.now.ops)) }
    ensures { AsksFor transcript.now result }
{
    let mutations = listed(alloc, transcript.ops.as_slice())?;
    let mutations = SharedList::new(alloc, mutations)?;
    match Sealed::from_joined(
        transcript.id,
        transcript.read_version,
        reads,
        writes,
        mutations,
    ) {
        Ok(sealed) => Ok(sealed),
        Err(refused) => Err(refused.why),
    }
}
