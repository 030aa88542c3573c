// What places are refused with: the points that resolvers found, joined place by place.
ghost use Rattle.std.specs.Prelude.{◌≡◌, ◌==◌, ◌++◌, ℕ, List, [], ◌∷◌, None, IfOk, length, replicate};
ghost use Rattle.std.specs.List.{list_all};
ghost use Rattle.fdb_keys.specs.Answers.{Answers};
ghost use Rattle.fdb_resolver.specs.Rule.{Found};
ghost use Rattle.fdb_proxy.specs.Conflicts.{joined_by, conflicts_by};

use fdb_keys::{Items, RangeSet, Refusal};
use std::alloc::{AllocError, Global};

// Adds what was found at one place.
fn add_one(conflicts: &mut Items<RangeSet>, place: u32, found: &RangeSet) -> Result<(), Refusal>
    ensures { Answers result None (λ _. (count : ℕ) (all : List Found) (before : Found)
        → conflicts.old ≡ joined_by (all ++ before ∷ []) count
        → conflicts.new ≡ joined_by (all ++ (before ++ (place, found.now) ∷ []) ∷ []) count) }
{
    let at = place as usize;
    if at < conflicts.len() {
        let mut joined = conflicts.as_slice()[at].clone()?;
        joined.add_set(found)?;
        joined.share();
        conflicts.set(at, joined);
    }
    Ok(())
}

// Adds what one more resolver found.
fn add_found(conflicts: &mut Items<RangeSet>, found: &[(u32, RangeSet)]) -> Result<(), Refusal>
    ensures { Answers result None (λ _. (count : ℕ) (all : List Found)
        → conflicts.old ≡ joined_by all count → conflicts.new ≡ joined_by (all ++ found.now ∷ []) count) }
{
    for (place, set) in found {
        add_one(conflicts, *place, set)?;
    }
    Ok(())
}

// So many empty sets.
fn empty_sets(alloc: Global, count: usize) -> Result<Items<RangeSet>, AllocError>
    ensures { IfOk result (λ sets. sets ≡ replicate count []) }
{
    let mut sets = Items::new(alloc);
    for _place in 0..count {
        sets.push(RangeSet::new(alloc))?;
    }
    Ok(sets)
}

fn have_none(found: &[Items<(u32, RangeSet)>]) -> bool
    ensures { result ≡ list_all (λ (of : Found). length of == 0) found.now }
{
    found.iter().all(|of| of.is_empty())
}

/// The conflict set of each of so many places, by what each resolver found: no place at all where none found anything.
/// A copy of a set takes O(1) time. It takes O(r) time for r resolvers where none found anything, and else O(n) for the
/// n places, and O(m log m) for each set of m ranges that is joined with another. Refused only as `NoMemory`.
pub(crate) fn conflicts_of(
    alloc: Global,
    found: &[Items<(u32, RangeSet)>],
    count: usize,
) -> Result<Items<RangeSet>, Refusal>
    ensures { Answers result None (λ conflicts. conflicts ≡ conflicts_by found.now count) }
{
    if have_none(found) {
        return Ok(Items::new(alloc));
    }
    let mut conflicts = empty_sets(alloc, count)?;
    for of in found {
        add_found(&mut conflicts, of.as_slice())?;
    }
    Ok(conflicts)
}
