// Parts of a whole set, by who owned its keys.
ghost use Rattle.std.specs.Prelude.{◌≡◌, ◌&&◌, ◌∷◌, [], ℕ, None};
ghost use Rattle.fdb_keys.specs.Answers.{Answers};
ghost use Rattle.fdb_keys.specs.Ranges.{in_set};
ghost use Rattle.fdb_owners.specs.Parts.{ArePartsOf, owned_from};
ghost use Rattle.fdb_owners.specs.Pieces.{HaveHistories, IsPieces, history_at};

use crate::parts::{Owned, Span, add_range};
use crate::pieces::Pieces;
use crate::sole::sole_owner;
use fdb_keys::{Items, RangeSet, Refusal};
use std::alloc::Global;

// The whole set as the part of one resolver.
fn sole_part(alloc: Global, resolver: u32, set: &RangeSet) -> Result<Items<Owned>, Refusal>
    ensures { Answers result None (λ parts. parts ≡ record { resolver = resolver; ranges = set.now } ∷ []) }
{
    let ranges = set.clone()?;
    let mut parts = Items::new(alloc);
    parts.push(Owned { resolver, ranges })?;
    Ok(parts)
}

/// Each resolver that owned keys of the set at some version of the span, with those keys, by the resolvers' numbers.
/// Mostly one look finds that one resolver did, and its part is a copy of the whole set; else what each range gives comes
/// to the parts of those before it. Refused only as `NoMemory`.
pub(crate) fn spread(
    alloc: Global,
    pieces: &Pieces,
    set: &RangeSet,
    span: Span,
) -> Result<Items<Owned>, Refusal>
    requires known { HaveHistories pieces.now }
    ensures { Answers result None (λ parts. (resolvers last : ℕ) → IsPieces resolvers last pieces.now
        → ArePartsOf resolvers (λ i x. in_set set.now x
        && owned_from (history_at pieces.now x) i span.since span.through) parts) }
{
    if let Some(resolver) = sole_owner(pieces, set, span)? {
        let parts = sole_part(alloc, resolver, set)?;
        return Ok(parts);
    }
    let mut parts = Vec::new(alloc);
    for range in set.iter() {
        add_range(alloc, &mut parts, pieces, range, span)?;
    }
    Ok(Items::from_vec(parts))
}
