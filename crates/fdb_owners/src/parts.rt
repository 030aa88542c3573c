// Parts of a range, by who owned its keys.
ghost use Rattle.std.specs.Prelude.{◌≡◌, ◌≤◌, ◌<◌, ◌&&◌, ◌||◌, ◌==◌, ℕ, Bool, length, nat_lt, nat_le, IsTrue, None};
ghost use Rattle.std.specs.Prelude.{OnOk, OnErr, [], slice_set, slice_index_or, IfSome, if◌then◌else◌};
ghost use Rattle.std.specs.List.{insert, prefix_len};
ghost use Rattle.fdb_keys.specs.Answers.{Answers};
ghost use Rattle.fdb_keys.specs.Insertion.{with_range};
ghost use Rattle.fdb_keys.specs.Points.{Point, point_lt};
ghost use Rattle.fdb_keys.specs.Ranges.{in_range, in_set, is_empty_range};
ghost use Rattle.fdb_keys.specs.Texts.{is_bound};
ghost use Rattle.fdb_interval.specs.Breakpoints.{breaks_inside, AreRising};
ghost use Rattle.fdb_owners.specs.Histories.{AreFalling};
ghost use Rattle.fdb_owners.specs.Parts.{AreRising as AreRisingParts, ArePartsOf, HasSomeOf, changes_within};
ghost use Rattle.fdb_owners.specs.Parts.{owned_from, with_part, with_owners, with_pieces, IsWay};
ghost use Rattle.fdb_owners.specs.Pieces.{HaveHistories, IsPieces, history_at};
ghost use Rattle.fdb_owners.specs.declared.history.Change.{Change};
ghost use Rattle.fdb_owners.specs.declared.parts.Owned.{Owned};

use crate::history::{Change, History, split_by};
use crate::knowing::know_bounds;
use crate::pieces::Pieces;
use fdb_interval::{KeyedRange, PointKey};
use fdb_keys::{Items, KeyRange, RangeSet, Refusal};
use std::alloc::Global;
use std::ops::Bound;

/// A resolver with its part of a range.
#[derive(Drop)]
pub struct Owned {
    /// The number of the resolver.
    pub resolver: u32,
    /// The keys of the range that it owns, or owned at some version. There is one at least.
    pub ranges: RangeSet,
}

impl Owned {
    ghost use Rattle.std.specs.Prelude.{◌≡◌, ◌||◌, None, OnErr};
    ghost use Rattle.fdb_keys.specs.Answers.{Answers};
    ghost use Rattle.fdb_keys.specs.Points.{Point};
    ghost use Rattle.fdb_keys.specs.Ranges.{in_set};
    ghost use Rattle.fdb_owners.specs.Parts.{HasSomeOf};

    /// Adds the keys of the part to the set, in O(m (m + n)) time for m ranges of the part and n of the set. An empty
    /// set becomes a copy of the part's, in O(m) time. Refused only as `NoMemory`. Then the set is half changed: it has
    /// all keys that it had, and may have any of the part's. Which ones isn't said, so whoever wants the set from
    /// before, or the whole one, has to make it anew.
    pub fn add_to(&self, set: &mut RangeSet) -> Result<(), Refusal>
        ensures answers { Answers result None
            (λ _. (x : Point) → in_set set.new x ≡ (in_set self.now.ranges x || in_set set.old x)) }
        ensures refused { OnErr result (HasSomeOf self.now.ranges set.old set.new) }
    {
        add_all(set, &self.ranges)
    }
}

fn add_all(set: &mut RangeSet, added: &RangeSet) -> Result<(), Refusal>
    ensures answers { Answers result None
        (λ _. (x : Point) → in_set set.new x ≡ (in_set added.now x || in_set set.old x)) }
    ensures refused { OnErr result (HasSomeOf added.now set.old set.new) }
{
    if set.is_empty() {
        *set = added.clone()?;
        return Ok(());
    }
    for range in added.iter() {
        set.add(range)?;
    }
    Ok(())
}

/// The versions from `since` through `through`.
#[derive(Clone, Copy)]
pub(crate) struct Span {
    pub(crate) since: u64,
    pub(crate) through: u64,
}

// How many parts are of resolvers with lesser numbers.
fn count_below(parts: &[Owned], resolver: u32) -> usize
    requires { AreRisingParts parts.now }
    ensures count { result ≡ prefix_len (λ (part : Owned). nat_lt part.resolver resolver) parts.now }
    ensures within { result ≤ length parts.now }
{
    parts.partition_point(
        |part: &Owned| -> bool
            ensures { result ≡ nat_lt part.now.resolver resolver }
        { part.resolver < resolver },
    )
}

// Adds the keys of the range to the part of the resolver, which is a new one where it had none.
fn add_part(
    alloc: Global,
    parts: &mut Vec<Owned>,
    resolver: u32,
    range: &KeyRange,
) -> Result<(), Refusal>
    requires { AreRisingParts parts.old.items }
    ensures { Answers result None (λ _. parts.new.items ≡ with_part resolver range.now parts.old.items) }
{
    let place = count_below(parts.as_slice(), resolver);
    if place < parts.len() && parts[place].resolver == resolver {
        return add_at(parts, place, range);
    }
    insert_at(alloc, parts, place, resolver, range)
}

// Adds the keys of the range to the part at the place.
fn add_at(parts: &mut Vec<Owned>, place: usize, range: &KeyRange) -> Result<(), Refusal>
    requires { place < length parts.old.items }
    ensures { Answers result None (λ _. (d : Owned) → parts.new.items ≡ slice_set parts.old.items place
        (record {
          resolver = (slice_index_or parts.old.items place d).resolver;
          ranges = with_range range.now (slice_index_or parts.old.items place d).ranges;
        })) }
{
    let part = &mut parts[place];
    part.ranges.add(range)?;
    Ok(())
}

// Puts in a part of the keys of the range alone.
fn insert_at(
    alloc: Global,
    parts: &mut Vec<Owned>,
    place: usize,
    resolver: u32,
    range: &KeyRange,
) -> Result<(), Refusal>
    requires { place ≤ length parts.old.items }
    ensures { Answers result None (λ _. parts.new.items ≡ insert parts.old.items place
        (record { resolver = resolver; ranges = with_range range.now [] })) }
{
    let mut ranges = RangeSet::new(alloc);
    ranges.add(range)?;
    parts.insert(place, Owned { resolver, ranges })?;
    Ok(())
}

/// The changes of the versions of the span but its first.
pub(crate) fn changes_within(changes: &[Change], span: Span) -> &[Change]
    requires { AreFalling changes.now }
    ensures { result.now ≡ changes_within span.since span.through changes.now }
{
    let (_later, through) = split_by(changes, span.through);
    let (within, _before) = split_by(through, span.since);
    within
}

// Adds the keys of the piece to the parts of those who owned them at some version of the span.
fn add_owners(
    alloc: Global,
    parts: &mut Vec<Owned>,
    history: &History,
    span: Span,
    piece: &KeyRange,
) -> Result<(), Refusal>
    requires rising { AreRisingParts parts.old.items }
    requires falling { AreFalling history.now.changes }
    ensures { Answers result None
        (λ _. parts.new.items ≡ with_owners history.now span.since span.through piece.now parts.old.items) }
{
    add_part(alloc, parts, history.owner_at(span.since), piece)?;
    for change in changes_within(history.changes.as_slice(), span) {
        add_part(alloc, parts, change.owner, piece)?;
    }
    Ok(())
}

// The keys from the begin up to the end.
fn piece_between(alloc: Global, begin: &PointKey, end: &PointKey) -> Result<KeyRange, Refusal>
    requires begin { IsTrue (is_bound begin.now) }
    requires end { IsTrue (is_bound end.now) }
    requires order { IsTrue (point_lt begin.now end.now) }
    ensures { Answers result None (λ piece. piece ≡ record { begin = begin.now; end = end.now }) }
{
    KeyRange::new(alloc, begin.text().as_slice(), end.text().as_slice())
}

// Adds the keys from the begin up to the end to the parts of those who owned them.
fn add_piece(
    alloc: Global,
    parts: &mut Vec<Owned>,
    history: &History,
    span: Span,
    begin: &PointKey,
    end: &PointKey,
) -> Result<(), Refusal>
    requires rising { AreRisingParts parts.old.items }
    requires falling { AreFalling history.now.changes }
    requires begin { IsTrue (is_bound begin.now) }
    requires end { IsTrue (is_bound end.now) }
    requires order { IsTrue (point_lt begin.now end.now) }
    ensures { Answers result None
        (λ _. parts.new.items ≡ with_owners history.now span.since span.through
        (record { begin = begin.now; end = end.now }) parts.old.items) }
{
    let piece = piece_between(alloc, begin, end)?;
    add_owners(alloc, parts, history, span, &piece)
}

// The history throughout the range, which has a point and this end, if no breakpoint is inside it.
fn history_throughout<'a>(
    pieces: &'a Pieces,
    range: &KeyRange,
    end: &PointKey,
) -> Option<&'a History>
    requires some { IsTrue (point_lt range.now.begin range.now.end) }
    requires end { end.now ≡ range.now.end }
    ensures history { IfSome result (λ found. found.now ≡ history_at pieces.now range.now.begin) }
    ensures inside { IfSome result (λ _. breaks_inside range.now pieces.now.breaks.entries ≡ []) }
    ensures rising { AreRising pieces.now.breaks.entries }
    ensures begin { IsTrue (is_bound range.now.begin) }
    ensures end { IsTrue (is_bound range.now.end) }
{
    know_bounds(range);
    pieces.history_between(range.begin_text(), end)
}

// Adds the keys of the range, which has a point, from breakpoint to breakpoint to the parts of those who owned them.
fn add_pieces(
    alloc: Global,
    parts: &mut Vec<Owned>,
    pieces: &Pieces,
    range: &KeyRange,
    span: Span,
) -> Result<(), Refusal>
    requires some { IsTrue (point_lt range.now.begin range.now.end) }
    requires way { IsWay (history_at pieces.now range.now.begin) range.now.begin
        (breaks_inside range.now pieces.now.breaks.entries) range.now.end }
    requires rising { AreRisingParts parts.old.items }
    ensures { Answers result None
        (λ _. parts.new.items ≡ with_pieces (history_at pieces.now range.now.begin) span.since span.through
        range.now.begin (breaks_inside range.now pieces.now.breaks.entries) range.now.end parts.old.items) }
{
    let keyed = KeyedRange::new(range)?;
    let mut history = pieces.history_at(keyed.begin());
    let mut begin = keyed.begin();
    let bounds = (Bound::Excluded(keyed.begin()), Bound::Excluded(keyed.end()));
    for (point, next) in pieces.breaks.range(bounds) {
        add_piece(alloc, parts, history, span, begin, point)?;
        history = next;
        begin = point;
    }
    add_piece(alloc, parts, history, span, begin, keyed.end())
}

// Adds the keys of the range, which has a point, to the parts of those who owned them. Nothing is copied where no
// breakpoint is inside it.
fn add_along(
    alloc: Global,
    parts: &mut Vec<Owned>,
    pieces: &Pieces,
    range: &KeyRange,
    span: Span,
) -> Result<(), Refusal>
    requires some { IsTrue (point_lt range.now.begin range.now.end) }
    requires known { HaveHistories pieces.now }
    requires rising { AreRisingParts parts.old.items }
    ensures { Answers result None (λ _. (resolvers last : ℕ) (held : ℕ → Point → Bool)
        → IsPieces resolvers last pieces.now → ArePartsOf resolvers held parts.old.items
        → ArePartsOf resolvers (λ i x. held i x || (in_range range.now x
        && owned_from (history_at pieces.now x) i span.since span.through)) parts.new.items) }
{
    let end = PointKey::new(range.end_text())?;
    match history_throughout(pieces, range, &end) {
        Some(history) => add_owners(alloc, parts, history, span, range),
        None => add_pieces(alloc, parts, pieces, range, span),
    }
}

/// Adds the keys of the range to the parts of those who owned them at some version of the span, where each resolver has
/// at most one part. It takes O(log n) for the n breakpoints. For each piece that the range meets and each of its owners
/// in the span it takes O(log m) to find the owner's part among m, and what its ranges take to add one to them; a new
/// part moves those behind it. Refused only as `NoMemory`.
pub(crate) fn add_range(
    alloc: Global,
    parts: &mut Vec<Owned>,
    pieces: &Pieces,
    range: &KeyRange,
    span: Span,
) -> Result<(), Refusal>
    requires known { HaveHistories pieces.now }
    requires rising { AreRisingParts parts.old.items }
    ensures { Answers result None (λ _. (resolvers last : ℕ) (held : ℕ → Point → Bool)
        → IsPieces resolvers last pieces.now → ArePartsOf resolvers held parts.old.items
        → ArePartsOf resolvers (λ i x. held i x || (in_range range.now x
        && owned_from (history_at pieces.now x) i span.since span.through)) parts.new.items) }
{
    if range.is_empty() {
        return Ok(());
    }
    add_along(alloc, parts, pieces, range, span)
}

/// Each resolver that owned keys of the range at some version of the span, with those keys, by the resolvers' numbers.
/// It takes what `add_range` takes. Refused only as `NoMemory`.
pub(crate) fn parts_of(
    alloc: Global,
    pieces: &Pieces,
    range: &KeyRange,
    span: Span,
) -> Result<Items<Owned>, Refusal>
    requires known { HaveHistories pieces.now }
    ensures { Answers result None (λ parts. (resolvers last : ℕ) → IsPieces resolvers last pieces.now
        → ArePartsOf resolvers (λ i x. in_range range.now x
        && owned_from (history_at pieces.now x) i span.since span.through) parts) }
{
    let mut parts = Vec::new(alloc);
    add_range(alloc, &mut parts, pieces, range, span)?;
    Ok(Items::from_vec(parts))
}
