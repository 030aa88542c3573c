// The keys in pieces, each with its history.
ghost use Rattle.std.specs.Prelude.{◌≡◌, ◌<◌, ℕ, suc, length, IsTrue, IfOk};
ghost use Rattle.fdb_keys.specs.Points.{Point};
ghost use Rattle.fdb_txn.specs.rules.Owners.{first_owner};
ghost use Rattle.fdb_txn.specs.rules.Splits.{are_splits};
ghost use Rattle.fdb_txn.specs.Limits.{resolver_limit};
ghost use Rattle.fdb_interval.specs.Breakpoints.{AreRising};
ghost use Rattle.fdb_owners.specs.Histories.{owner_in};
ghost use Rattle.fdb_owners.specs.Pieces.{history_at, IsPieces};

use crate::history::History;
use bytes::Bytes;
use fdb_interval::PointKey;
use fdb_keys::{Key, is_before};
use std::alloc::{AllocError, Global};
use std::collections::BTreeMap;

/// Breakpoints, each with the history of the keys from it up to the next one, and the history of those before the
/// first.
#[derive(Drop)]
pub(crate) struct Pieces {
    pub(crate) lowest: History,
    pub(crate) breaks: BTreeMap<PointKey, History>,
}

impl Pieces {
    ghost use Rattle.std.specs.Prelude.{◌≡◌, ◌≢◌, [], IsTrue, IfSome, IfNone};
    ghost use Rattle.fdb_keys.specs.Points.{point_lt};
    ghost use Rattle.fdb_interval.specs.Breakpoints.{last_value, breaks_before, breaks_inside, AreRising};
    ghost use Rattle.fdb_owners.specs.Pieces.{history_at};

    /// The history of the point, in O(log n) comparisons for n breakpoints.
    pub(crate) fn history_at(&self, point: &PointKey) -> &History
        ensures value { result.now ≡ history_at self.now point.now }
        ensures rising { AreRising self.now.breaks.entries }
    {
        match self.breaks.range(..=point).next_back() {
            Some((_begin, history)) => history,
            None => &self.lowest,
        }
    }

    /// The history of the key, in O(log n) comparisons for n breakpoints, but in O(n) where its text has as many owners
    /// as can be counted. It takes no memory.
    pub(crate) fn history_of(&self, key: &Key) -> &History
        ensures { result.now ≡ history_at self.now key.now }
    {
        match PointKey::at(key) {
            Ok(point) => self.history_at(&point),
            Err(_) => self.history_by_walk(key.text()),
        }
    }

    // The history of the point, by a walk over all breakpoints, where its text has no room for one more owner.
    fn history_by_walk(&self, point: &Bytes) -> &History
        ensures { result.now ≡ history_at self.now point.now }
    {
        let mut history = &self.lowest;
        for (begin, next) in self.breaks.iter() {
            if !is_before(point.as_slice(), begin.text().as_slice()) {
                history = next;
            }
        }
        history
    }

    /// The history from the begin up to the end, which comes after it, if no breakpoint is between them. It takes
    /// O(log n) comparisons for n breakpoints.
    pub(crate) fn history_between(&self, begin: &Bytes, end: &PointKey) -> Option<&History>
        requires { IsTrue (point_lt begin.now end.now) }
        ensures history { IfSome result (λ found. found.now ≡ history_at self.now begin.now) }
        ensures inside { IfSome result (λ _. breaks_inside (record { begin = begin.now; end = end.now })
            self.now.breaks.entries ≡ []) }
        ensures none { IfNone result (breaks_inside (record { begin = begin.now; end = end.now })
            self.now.breaks.entries ≢ []) }
        ensures rising { AreRising self.now.breaks.entries }
    {
        match self.breaks.range(..end).next_back() {
            Some((point, _history)) if is_before(begin.as_slice(), point.text().as_slice()) => None,
            Some((_point, history)) => Some(history),
            None => Some(&self.lowest),
        }
    }

    /// The history right before the point, in O(log n) comparisons for n breakpoints.
    pub(crate) fn history_before(&self, point: &PointKey) -> &History
        ensures value { result.now ≡ last_value self.now.lowest (breaks_before point.now self.now.breaks.entries) }
        ensures rising { AreRising self.now.breaks.entries }
    {
        match self.breaks.range(..point).next_back() {
            Some((_begin, history)) => history,
            None => &self.lowest,
        }
    }
}

/// The pieces between the splits, which rise, each with a first owner of its own.
pub(crate) fn first_pieces(alloc: Global, splits: &[Key]) -> Result<Pieces, AllocError>
    requires rising { IsTrue (are_splits splits.now) }
    requires few { length splits.now < resolver_limit }
    ensures owners { IfOk result (λ pieces. (x : Point) (v : ℕ)
        → owner_in (history_at pieces x) v ≡ first_owner splits.now x) }
    ensures pieces { IfOk result (λ pieces. (last : ℕ) → IsPieces (suc (length splits.now)) last pieces) }
    ensures rising { IfOk result (λ pieces. AreRising pieces.breaks.entries) }
{
    let mut breaks = BTreeMap::new(alloc);
    for (place, split) in splits.iter().enumerate() {
        let history = History::new(alloc, place as u32 + 1);
        breaks.insert(PointKey::at(split)?, history)?;
    }
    Ok(Pieces {
        lowest: History::new(alloc, 0),
        breaks,
    })
}
