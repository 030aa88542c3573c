// How large a transaction is. The sums stop at the greatest number, far above the limit.
ghost use Rattle.std.specs.Prelude.{◌≡◌, ◌+◌, ◌^◌, ◌-◌, ⊤, None, Some, min, nat_lt, sum_by, if◌then◌else◌};
ghost use Rattle.fdb_keys.specs.Answers.{AnswersExactly};
ghost use Rattle.fdb_keys.specs.declared.refusal.Refusal.TheVariants.{TransactionTooLarge};
ghost use Rattle.fdb_mutations.specs.Mutations.{mutation_size};
ghost use Rattle.fdb_txn.specs.Limits.{size_limit};
ghost use Rattle.fdb_txn.specs.book.Size.{bounds_size};

use crate::limits::SIZE_LIMIT;
use fdb_keys::{RangeSet, Refusal};
use fdb_mutations::Mutation;

fn bounds_size(set: &RangeSet) -> u64
    ensures { result ≡ min (bounds_size set.now) (2 ^ 64 - 1) }
{
    let mut total: u64 = 0;
    for range in set.iter() {
        let bounds = range.begin().len() + range.end().len();
        total = total.saturating_add(bounds as u64);
    }
    total
}

fn mutations_size(mutations: &[Mutation]) -> u64
    ensures { result ≡ min (sum_by mutation_size mutations.now) (2 ^ 64 - 1) }
{
    let mut total: u64 = 0;
    for mutation in mutations {
        total = total.saturating_add(mutation.size());
    }
    total
}

// The size without the write set.
pub(crate) fn least_size(reads: &RangeSet, mutations: &[Mutation]) -> u64
    ensures { result ≡ min (bounds_size reads.now + sum_by mutation_size mutations.now) (2 ^ 64 - 1) }
{
    bounds_size(reads).saturating_add(mutations_size(mutations))
}

pub(crate) fn size_of(reads: &RangeSet, writes: &RangeSet, mutations: &[Mutation]) -> u64
    ensures { result
        ≡ min (bounds_size reads.now + bounds_size writes.now + sum_by mutation_size mutations.now) (2 ^ 64 - 1) }
{
    bounds_size(reads)
        .saturating_add(bounds_size(writes))
        .saturating_add(mutations_size(mutations))
}

/// Whether a transaction of these sets and mutations may be sealed: refused as `TransactionTooLarge` where it has more
/// than 10,000,000 bytes, those of both bounds of each range and of the mutations. It takes no memory, and O(n) time
/// for n ranges and mutations.
pub fn check_size(
    reads: &RangeSet,
    writes: &RangeSet,
    mutations: &[Mutation],
) -> Result<(), Refusal>
    ensures { AnswersExactly result
        (if nat_lt size_limit (bounds_size reads.now + bounds_size writes.now + sum_by mutation_size mutations.now)
        then Some TransactionTooLarge else None) (λ _. ⊤) }
{
    if size_of(reads, writes, mutations) > SIZE_LIMIT {
        return Err(Refusal::TransactionTooLarge);
    }
    Ok(())
}
