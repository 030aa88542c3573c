// Dead breakpoints, taken out little by little.
ghost use Rattle.std.specs.Prelude.{◌≡◌, ◌++◌, ◌∷◌, [], ◌≤◌, OnOk, OnErr};
ghost use Rattle.fdb_keys.specs.Points.{Point};
ghost use Rattle.fdb_interval.specs.Breakpoints.{value_from, last_value, AreJoined, AreRising, IsWalk};
ghost use Rattle.fdb_interval.specs.Versions.{forgetting};

use crate::breakpoints::{remove_all, version_before};
use crate::point_key::PointKey;
use std::alloc::{AllocError, Global};
use std::collections::BTreeMap;

// Goes over so many breakpoints from the cursor on, and takes out those that are dead, since the versions on both
// sides are up to the floor. The cursor then stands where the next sweep goes on: at the first point again once no
// breakpoint is left, or where memory runs out.
pub(crate) fn sweep(
    alloc: Global,
    breaks: &mut BTreeMap<PointKey, u64>,
    cursor: &mut PointKey,
    floor: u64,
    steps: u64,
)
    ensures versions { (x : Point) → forgetting floor (value_from 0 breaks.new.entries) x
        ≡ forgetting floor (value_from 0 breaks.old.entries) x }
    ensures joined { AreJoined floor 0 breaks.old.entries → AreJoined floor 0 breaks.new.entries }
    ensures last { last_value 0 breaks.old.entries ≤ floor → last_value 0 breaks.new.entries ≤ floor }
{
    let walk = list_dead(alloc, breaks, cursor, floor, steps);
    remove_all(breaks, walk.dead.as_slice());
    *cursor = walk.end;
}

// The dead breakpoints that a walk went over, and where it ended.
#[derive(Drop)]
struct Walk {
    dead: Vec<PointKey>,
    end: PointKey,
}

// Walks over so many breakpoints from the point on.
fn list_dead(
    alloc: Global,
    breaks: &BTreeMap<PointKey, u64>,
    from: &PointKey,
    floor: u64,
    steps: u64,
) -> Walk
    ensures dead { IsWalk floor from.now breaks.now.entries result.dead.items }
    ensures rising { AreRising breaks.now.entries }
{
    let mut dead = Vec::new(alloc);
    let mut before = version_before(breaks, from);
    let mut left = steps;
    for (point, version) in breaks.range(from..) {
        if left == 0 {
            return Walk {
                dead,
                end: copy_or_first(point),
            };
        }
        left -= 1;
        if before.max(*version) <= floor && push_copy(&mut dead, point).is_err() {
            return Walk {
                dead,
                end: PointKey::first(),
            };
        }
        before = *version;
    }
    Walk {
        dead,
        end: PointKey::first(),
    }
}

fn push_copy(points: &mut Vec<PointKey>, point: &PointKey) -> Result<(), AllocError>
    ensures ok { OnOk result (points.new.items ≡ points.old.items ++ point.now ∷ []) }
    ensures err { OnErr result (points.new.items ≡ points.old.items) }
{
    points.push(point.clone()?)?;
    Ok(())
}

// The first point serves where there is no memory for a copy.
fn copy_or_first(point: &PointKey) -> PointKey {
    match point.clone() {
        Ok(point) => point,
        Err(_) => PointKey::first(),
    }
}
