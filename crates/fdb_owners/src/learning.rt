// What moves change of the pieces: first all that may lack memory and changes no history, then what takes none.
ghost use Rattle.std.specs.Prelude.{◌≡◌, ◌++◌, ◌∷◌, [], ◌<◌, ℕ, true, IfOk, IfErr, OnOk, OnErr, IsTrue, nat_le};
ghost use Rattle.std.specs.Prelude.{if◌then◌else◌};
ghost use Rattle.std.specs.BTreeMap.{insert_entry, is_at};
ghost use Rattle.std.specs.Cmp.Lexicographic.{slice_cmp};
ghost use Rattle.std.specs.List.{AllByRecursion};
ghost use Rattle.std.specs.Map.{set_value};
ghost use Rattle.std.specs.Ordering.{nat_cmp};
ghost use Rattle.fdb_keys.specs.Points.{Point};
ghost use Rattle.fdb_keys.specs.Texts.{is_bound};
ghost use Rattle.fdb_keys.specs.declared.refusal.Refusal.TheVariants.{NoMemory};
ghost use Rattle.fdb_interval.specs.Breakpoints.{AreRising};
ghost use Rattle.fdb_owners.specs.Histories.{owner_in};
ghost use Rattle.fdb_owners.specs.Learning.{IsSplit, HasBounds, changed, fresh_by, fresh_of, touched_by, with_fresh};
ghost use Rattle.fdb_owners.specs.Ownership.{target_after};
ghost use Rattle.fdb_owners.specs.Pieces.{history_at, has_break, joined, IsPieces};

use crate::deciding::decisive_moves;
use crate::history::{Change, History};
use crate::knowing::{know_bounds, know_rising};
use crate::pieces::Pieces;
use fdb_interval::{KeyedRange, PointKey};
use fdb_keys::{Items, KeyRange, Refusal};
use fdb_txn::Move;
use std::alloc::{AllocError, Global};
use std::collections::BTreeMap;
use std::ops::Bound;

/// Gives the keys of the moves' ranges over to their targets from the version on, a later move before an earlier one.
/// Where memory runs out, each key has the owners it had, and the breakpoints differ only by ones at which nothing
/// changes. The answer is how many breakpoints were touched: those that lie in a move's range. For each of those one
/// history is copied, however many moves hold it. m moves take O(m log m) comparisons, and each of them and each
/// breakpoint that is touched O(log n) among n breakpoints.
pub(crate) fn learn_moves(
    alloc: Global,
    pieces: &mut Pieces,
    version: u64,
    moves: &[Move],
) -> Result<u64, Refusal>
    ensures refusal { IfErr result (λ why. why ≡ NoMemory) }
    ensures owners { OnOk result ((x : Point) (v : ℕ) → owner_in (history_at pieces.new x) v
        ≡ (if nat_le version v then target_after moves.now x (owner_in (history_at pieces.old x) v)
        else owner_in (history_at pieces.old x) v)) }
    ensures pieces { OnOk result ((resolvers last : ℕ) → IsPieces resolvers last pieces.old → last < version
        → AllByRecursion (λ move. move.to < resolvers) moves.now → IsPieces resolvers version pieces.new) }
    ensures lowest { pieces.new.lowest ≡ pieces.old.lowest }
    ensures rising { AreRising pieces.old.breaks.entries → AreRising pieces.new.breaks.entries }
    ensures touched { IfOk result (λ touched. touched ≡ touched_by moves.now pieces.new.breaks.entries) }
    ensures histories { OnErr result ((x : Point) → history_at pieces.new x ≡ history_at pieces.old x) }
    ensures refused { OnErr result (joined pieces.new ≡ joined pieces.old) }
    ensures kept { OnErr result ((resolvers last : ℕ) → IsPieces resolvers last pieces.old
        → IsPieces resolvers last pieces.new) }
{
    let decisive = decisive_moves(alloc, moves)?;
    split_all(alloc, pieces, decisive.as_slice())?;
    let fresh = list_fresh(alloc, &pieces.breaks, version, decisive.as_slice())?;
    let count = fresh.len();
    put_all(&mut pieces.breaks, fresh);
    Ok(count as u64)
}

// Makes breakpoints at the bounds of the moves' ranges.
fn split_all(alloc: Global, pieces: &mut Pieces, moves: &[Move]) -> Result<(), AllocError>
    ensures split { IsSplit pieces.old pieces.new }
    ensures there { OnOk result (AllByRecursion (λ move. HasBounds pieces.new move.range) moves.now) }
{
    for one_move in moves {
        split_bounds(alloc, pieces, &one_move.range)?;
    }
    Ok(())
}

fn split_bounds(alloc: Global, pieces: &mut Pieces, range: &KeyRange) -> Result<(), AllocError>
    ensures split { IsSplit pieces.old pieces.new }
    ensures there { OnOk result (HasBounds pieces.new range.now) }
{
    know_bounds(range);
    let keyed = KeyedRange::new(range)?;
    split_at(alloc, pieces, keyed.begin())?;
    split_at(alloc, pieces, keyed.end())
}

// Makes a breakpoint at the point, if there is none, with the history of the piece that it lies in.
fn split_at(alloc: Global, pieces: &mut Pieces, point: &PointKey) -> Result<(), AllocError>
    requires { IsTrue (is_bound point.now) }
    ensures split { IsSplit pieces.old pieces.new }
    ensures there { OnOk result (has_break pieces.new point.now ≡ true) }
{
    if pieces.breaks.contains_key(point) {
        return Ok(());
    }
    let begin = point.clone()?;
    let history = copy_history(alloc, pieces.history_at(point))?;
    put_break(&mut pieces.breaks, begin, history)
}

fn put_break(
    breaks: &mut BTreeMap<PointKey, History>,
    point: PointKey,
    history: History,
) -> Result<(), AllocError>
    ensures ok { OnOk result (breaks.new.entries
        ≡ insert_entry (slice_cmp nat_cmp) breaks.old.entries point history) }
    ensures err { OnErr result (breaks.new.entries ≡ breaks.old.entries) }
    ensures rising { AreRising breaks.old.entries }
{
    breaks.insert(point, history)?;
    Ok(())
}

fn copy_history(alloc: Global, history: &History) -> Result<History, AllocError>
    ensures { IfOk result (λ copy. copy ≡ history.now) }
{
    let changes = Items::from_vec(Vec::from_slice(alloc, history.changes.as_slice())?);
    Ok(History {
        first: history.first,
        changes,
    })
}

// The history with the change before those that it has.
fn change_history(alloc: Global, history: &History, change: Change) -> Result<History, AllocError>
    ensures { IfOk result (λ made. made ≡ changed change.version change.owner history.now) }
{
    let mut changes = Vec::with_capacity(alloc, history.changes.len().saturating_add(1))?;
    changes.push(change)?;
    changes.extend_from_slice(history.changes.as_slice())?;
    Ok(History {
        first: history.first,
        changes: Items::from_vec(changes),
    })
}

// For each move in turn the breakpoints in its range, each with the history that it has then, by that move alone. Where
// the ranges share no key, each breakpoint is made once.
fn list_fresh(
    alloc: Global,
    breaks: &BTreeMap<PointKey, History>,
    version: u64,
    moves: &[Move],
) -> Result<Items<(PointKey, History)>, AllocError>
    ensures { IfOk result (λ fresh. fresh ≡ fresh_of version moves.now breaks.now.entries) }
{
    let mut fresh = Items::new(alloc);
    for one_move in moves {
        push_fresh(alloc, breaks, version, one_move, &mut fresh)?;
    }
    Ok(fresh)
}

// Adds the breakpoints in the move's range, each with the move's change.
fn push_fresh(
    alloc: Global,
    breaks: &BTreeMap<PointKey, History>,
    version: u64,
    one_move: &Move,
    fresh: &mut Items<(PointKey, History)>,
) -> Result<(), AllocError>
    ensures { OnOk result (fresh.new ≡ fresh.old ++ fresh_by version one_move.now breaks.now.entries) }
{
    let owner = one_move.to;
    let keyed = KeyedRange::new(&one_move.range)?;
    let bounds = (Bound::Included(keyed.begin()), Bound::Excluded(keyed.end()));
    for (point, history) in breaks.range(bounds) {
        push_changed(alloc, point, history, Change { version, owner }, fresh)?;
    }
    Ok(())
}

// Adds the breakpoint with the change.
fn push_changed(
    alloc: Global,
    point: &PointKey,
    history: &History,
    change: Change,
    fresh: &mut Items<(PointKey, History)>,
) -> Result<(), AllocError>
    ensures { OnOk result (fresh.new
        ≡ fresh.old ++ (point.now, changed change.version change.owner history.now) ∷ []) }
{
    let point = point.clone()?;
    let history = change_history(alloc, history, change)?;
    fresh.push((point, history))?;
    Ok(())
}

// Puts each of the histories in the place of that at its point. It takes no memory.
fn put_all(breaks: &mut BTreeMap<PointKey, History>, fresh: Items<(PointKey, History)>)
    ensures value { breaks.new.entries ≡ with_fresh breaks.old.entries fresh }
    ensures rising { AreRising breaks.old.entries }
    ensures rising_after { AreRising breaks.new.entries }
{
    know_rising(breaks);
    for (point, history) in fresh.into_vec() {
        put(breaks, &point, history);
    }
    know_rising(breaks);
}

fn put(breaks: &mut BTreeMap<PointKey, History>, point: &PointKey, history: History)
    ensures { breaks.new.entries
        ≡ set_value (is_at (slice_cmp nat_cmp point.now)) breaks.old.entries history }
{
    if let Some(place) = breaks.get_mut(point) {
        *place = history;
    }
}
