// Joins what the mutations of a transaction name to its write set.
ghost use Rattle.std.specs.Prelude.{◌≡◌, ◌||◌, None, IfOk, map};
ghost use Rattle.fdb_keys.specs.Answers.{Answers};
ghost use Rattle.fdb_keys.specs.Points.{Point};
ghost use Rattle.fdb_keys.specs.Ranges.{in_set};
ghost use Rattle.fdb_mutations.specs.Mutations.{named_range};
ghost use Rattle.fdb_txn.specs.book.Transactions.{with_named, some_names};

use fdb_keys::{KeyRange, RangeSet, Refusal};
use fdb_mutations::Mutation;
use std::alloc::Global;

// The ranges of the keys that the mutations name.
fn named_ranges(alloc: Global, mutations: &[Mutation]) -> Result<Vec<KeyRange>, Refusal>
    ensures answers { Answers result None (λ ranges. ranges.items ≡ map named_range mutations.now) }
    ensures points { IfOk result (λ ranges. (x : Point) → in_set ranges.items x ≡ some_names mutations.now x) }
{
    let mut ranges = Vec::with_capacity(alloc, mutations.len())?;
    for mutation in mutations {
        ranges.push(mutation.range(alloc)?)?;
    }
    Ok(ranges)
}

// The write set with all that the mutations name, in O(n log n) comparisons of bounds for n ranges and mutations
// together.
pub(crate) fn with_named(
    alloc: Global,
    writes: &RangeSet,
    mutations: &[Mutation],
) -> Result<RangeSet, Refusal>
    ensures answers { Answers result None (λ set. set ≡ with_named writes.now mutations.now) }
    ensures points { IfOk result (λ set. (x : Point) → in_set set x
        ≡ (some_names mutations.now x || in_set writes.now x)) }
{
    let ranges = named_ranges(alloc, mutations)?;
    let mut set = writes.clone()?;
    set.add_all(ranges)?;
    Ok(set)
}
