// Whether a range has a newer version, and where.
ghost use Rattle.std.specs.Prelude.{◌≡◌, ◌++◌, ◌||◌, [], nat_lt, IfOk, OnOk, IsTrue, if◌then◌else◌};
ghost use Rattle.std.specs.List.{list_any};
ghost use Rattle.fdb_keys.specs.Points.{point_lt};
ghost use Rattle.fdb_keys.specs.Removal.{range_between};
ghost use Rattle.fdb_interval.specs.Breakpoints.{value_from, breaks_inside, AreRising};
ghost use Rattle.fdb_interval.specs.Newer.{newer_pieces};

use crate::breakpoints::{is_newer_by_keys, version_between, version_by};
use crate::keyed_range::KeyedRange;
use crate::point_key::PointKey;
use fdb_keys::{KeyRange, is_before, push_between};
use std::alloc::{AllocError, Global};
use std::collections::BTreeMap;
use std::ops::Bound;

// Whether some point of the range, which has one, has a version above this one. Mostly one look-up before its end tells.
pub(crate) fn is_any_newer(breaks: &BTreeMap<PointKey, u64>, range: &KeyRange, version: u64) -> bool
    requires { IsTrue (point_lt range.now.begin range.now.end) }
    ensures value { result ≡ (nat_lt version (value_from 0 breaks.now.entries range.now.begin)
        || list_any (λ entry. nat_lt version entry.1) (breaks_inside range.now breaks.now.entries)) }
    ensures rising { AreRising breaks.now.entries }
{
    match PointKey::new(range.end_text()) {
        Ok(end) => is_newer_before(breaks, range, &end, version),
        Err(_) => is_newer_by_walk(breaks, range, version),
    }
}

// The same, by the key of the range's end.
fn is_newer_before(
    breaks: &BTreeMap<PointKey, u64>,
    range: &KeyRange,
    end: &PointKey,
    version: u64,
) -> bool
    requires some { IsTrue (point_lt range.now.begin range.now.end) }
    requires end { end.now ≡ range.now.end }
    ensures value { result ≡ (nat_lt version (value_from 0 breaks.now.entries range.now.begin)
        || list_any (λ entry. nat_lt version entry.1) (breaks_inside range.now breaks.now.entries)) }
    ensures rising { AreRising breaks.now.entries }
{
    match version_between(breaks, range.begin(), end) {
        Some(found) => version < found,
        None => is_newer_in_parts(breaks, range, version),
    }
}

// The same, where a breakpoint may be inside the range.
fn is_newer_in_parts(breaks: &BTreeMap<PointKey, u64>, range: &KeyRange, version: u64) -> bool
    requires { IsTrue (point_lt range.now.begin range.now.end) }
    ensures { result ≡ (nat_lt version (value_from 0 breaks.now.entries range.now.begin)
        || list_any (λ entry. nat_lt version entry.1) (breaks_inside range.now breaks.now.entries)) }
{
    match KeyedRange::new(range) {
        Ok(keyed) => is_newer_by_keys(breaks, &keyed, version),
        Err(_) => is_newer_by_walk(breaks, range, version),
    }
}

// The same by a walk over all breakpoints, where the bounds' texts have no room for one more owner.
fn is_newer_by_walk(breaks: &BTreeMap<PointKey, u64>, range: &KeyRange, version: u64) -> bool
    ensures value { result ≡ (nat_lt version (value_from 0 breaks.now.entries range.now.begin)
        || list_any (λ entry. nat_lt version entry.1) (breaks_inside range.now breaks.now.entries)) }
    ensures rising { AreRising breaks.now.entries }
{
    let mut at_begin = 0;
    let mut is_inside = false;
    for (point, held) in breaks.iter() {
        if !is_before(range.begin(), point.as_slice()) {
            at_begin = *held;
        } else if version < *held && is_before(point.as_slice(), range.end()) {
            is_inside = true;
        }
    }
    version < at_begin || is_inside
}

// The parts of the range, which has a point, that have versions above this one, in order.
pub(crate) fn list_newer(
    alloc: Global,
    breaks: &BTreeMap<PointKey, u64>,
    range: &KeyRange,
    version: u64,
) -> Result<Vec<KeyRange>, AllocError>
    requires { IsTrue (point_lt range.now.begin range.now.end) }
    ensures value { IfOk result (λ pieces. pieces.items ≡ newer_pieces version
        (value_from 0 breaks.now.entries range.now.begin) range.now.begin
        (breaks_inside range.now breaks.now.entries) range.now.end) }
    ensures rising { IfOk result (λ _. AreRising breaks.now.entries) }
{
    let keyed = KeyedRange::new(range)?;
    list_newer_by_keys(alloc, breaks, &keyed, version)
}

// The same, by the keys of the bounds. Where a breakpoint parts two newer versions, one part goes on.
fn list_newer_by_keys(
    alloc: Global,
    breaks: &BTreeMap<PointKey, u64>,
    range: &KeyedRange,
    version: u64,
) -> Result<Vec<KeyRange>, AllocError>
    requires { IsTrue (point_lt range.now.begin range.now.end) }
    ensures value { IfOk result (λ pieces. pieces.items ≡ newer_pieces version
        (value_from 0 breaks.now.entries range.now.begin) range.now.begin
        (breaks_inside range.now breaks.now.entries) range.now.end) }
    ensures rising { IfOk result (λ _. AreRising breaks.now.entries) }
{
    let mut pieces = Vec::new(alloc);
    let mut here = range.begin();
    let mut held = version_by(breaks, here);
    let bounds = (Bound::Excluded(range.begin()), Bound::Excluded(range.end()));
    for (point, next) in breaks.range(bounds) {
        if held <= version || *next <= version {
            push_if(version < held, here, point, &mut pieces)?;
            here = point;
            held = *next;
        }
    }
    push_if(version < held, here, range.end(), &mut pieces)?;
    Ok(pieces)
}

// Adds the points from one up to but not including another to the list, as a range, if they are newer.
fn push_if(
    is_newer: bool,
    begin: &PointKey,
    end: &PointKey,
    pieces: &mut Vec<KeyRange>,
) -> Result<(), AllocError>
    ensures { OnOk result (pieces.new.items
        ≡ pieces.old.items ++ (if is_newer then range_between begin.now end.now else [])) }
{
    if is_newer {
        push_between(begin.text(), end.text(), pieces)?;
    }
    Ok(())
}
