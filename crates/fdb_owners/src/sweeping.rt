// Histories cut, and breakpoints taken out where they tell nothing any more, little by little.
ghost use Rattle.fdb_interval.specs.Breakpoints.{AreRising};
ghost use Rattle.fdb_owners.specs.Pieces.{AgreeFrom, HaveHistories, KeepHistories};

use crate::pieces::Pieces;
use fdb_interval::PointKey;
use std::ops::Bound;

/// Goes on over so many breakpoints from behind the cursor: cuts their histories at the floor, and takes those out
/// where the history is the one before. The cursor then stands at the last one seen, and at none once no breakpoint is
/// left. It takes O(log n) for each of them, of n breakpoints.
pub(crate) fn sweep(pieces: &mut Pieces, cursor: &mut Option<PointKey>, floor: u64, looks: u64)
    requires { HaveHistories pieces.old }
    ensures agree { AgreeFrom floor pieces.old pieces.new }
    ensures kept { KeepHistories pieces.old pieces.new }
    ensures rising { AreRising pieces.old.breaks.entries → AreRising pieces.new.breaks.entries }
{
    for _look in 0..looks {
        let next = point_behind(pieces, cursor.as_ref());
        if let Some(point) = &next {
            look_at(pieces, point, floor);
        }
        *cursor = next;
    }
}

// The point of the next breakpoint, if there is one, and memory for its copy.
fn point_behind(pieces: &Pieces, cursor: Option<&PointKey>) -> Option<PointKey> {
    let next = match cursor {
        Some(cursor) => pieces
            .breaks
            .range((Bound::Excluded(cursor), Bound::Unbounded))
            .next(),
        None => pieces.breaks.iter().next(),
    };
    match next {
        Some((point, _history)) => point.clone().ok(),
        None => None,
    }
}

// Takes the breakpoint at the point out where the history is the one before, else cuts its history.
fn look_at(pieces: &mut Pieces, point: &PointKey, floor: u64)
    requires { HaveHistories pieces.old }
    ensures agree { AgreeFrom floor pieces.old pieces.new }
    ensures kept { KeepHistories pieces.old pieces.new }
    ensures rising { AreRising pieces.new.breaks.entries }
{
    let before = pieces.history_before(point);
    if pieces.history_at(point).is_same_from(before, floor) {
        pieces.breaks.remove(point);
    } else if let Some(history) = pieces.breaks.get_mut(point) {
        history.cut(floor);
    }
}
