// One owner of all keys of a set, where one look finds it.
ghost use Rattle.std.specs.Prelude.{◌≡◌, ◌≢◌, ◌<◌, ◌==◌, ℕ, [], true, IfOk, IfSome, IfNone};
ghost use Rattle.fdb_keys.specs.Points.{Point};
ghost use Rattle.fdb_keys.specs.Ranges.{in_set};
ghost use Rattle.fdb_txn.specs.rules.Admission.{has_points};
ghost use Rattle.fdb_owners.specs.Histories.{AreFalling, owner_in};
ghost use Rattle.fdb_owners.specs.Parts.{owned_from, changes_within};
ghost use Rattle.fdb_owners.specs.Pieces.{HaveHistories, IsPieces, history_at};
ghost use Rattle.fdb_owners.specs.Spreads.{HasSole};

use crate::history::History;
use crate::parts::{Span, changes_within};
use crate::pieces::Pieces;
use fdb_interval::PointKey;
use fdb_keys::RangeSet;
use std::alloc::AllocError;

// The owner at all versions of the span, if nothing changed in it.
fn owner_throughout(history: &History, span: Span) -> Option<u32>
    requires { AreFalling history.now.changes }
    ensures owner { IfSome result (λ sole. sole ≡ owner_in history.now span.since) }
    ensures alone { IfSome result (λ sole. (i : ℕ)
        → owned_from history.now i span.since span.through ≡ (sole == i)) }
    ensures none { IfNone result (changes_within span.since span.through history.now.changes ≢ []) }
{
    if changes_within(history.changes.as_slice(), span).is_empty() {
        return Some(history.owner_at(span.since));
    }
    None
}

/// The resolver that alone owned all keys of the set at each version of the span, if no breakpoint lies between the
/// set's first begin and its last end, and nothing changed there in the span. There is none only where one of the two
/// isn't so, or the set is empty. It fails only where the text of that end has as many owners as can be
/// counted. It takes O(log n) comparisons for n breakpoints, and no memory.
pub(crate) fn sole_owner(
    pieces: &Pieces,
    set: &RangeSet,
    span: Span,
) -> Result<Option<u32>, AllocError>
    requires { HaveHistories pieces.now }
    ensures some { IfOk result (λ found. IfSome found (λ _. has_points set.now ≡ true)) }
    ensures within { IfOk result (λ found. IfSome found (λ sole. (resolvers last : ℕ)
        → IsPieces resolvers last pieces.now → sole < resolvers)) }
    ensures alone { IfOk result (λ found. IfSome found (λ sole. (i : ℕ) (x : Point) → in_set set.now x ≡ true
        → owned_from (history_at pieces.now x) i span.since span.through ≡ (sole == i))) }
    ensures none { IfOk result (λ found. IfNone found (HasSole pieces.now set.now span.since span.through → ⊥)) }
{
    let ranges = set.iter().as_slice();
    let (Some(first), Some(last)) = (ranges.first(), ranges.last()) else {
        return Ok(None);
    };
    let end = PointKey::new(last.end_text())?;
    match pieces.history_between(first.begin_text(), &end) {
        Some(history) => Ok(owner_throughout(history, span)),
        None => Ok(None),
    }
}
