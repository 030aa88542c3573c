// Breakpoints, each with the version that goes from it up to the next one.
ghost use Rattle.std.specs.Prelude.{◌≡◌, ◌++◌, ◌∷◌, ◌||◌, ℕ, length, nat_lt, false, [], None, IfSome, IfOk, OnOk};
ghost use Rattle.std.specs.Prelude.{OnErr, IsTrue, is_some, if◌then◌else◌};
ghost use Rattle.std.specs.BTreeMap.{insert_entry, is_at, values};
ghost use Rattle.std.specs.Cmp.Lexicographic.{slice_cmp};
ghost use Rattle.std.specs.List.{filter, list_any};
ghost use Rattle.std.specs.Map.{keys_of, lookup};
ghost use Rattle.std.specs.Ordering.{nat_cmp};
ghost use Rattle.fdb_keys.specs.Points.{Point, point_lt};
ghost use Rattle.fdb_keys.specs.Ranges.{in_range};
ghost use Rattle.fdb_interval.specs.Breakpoints.{value_from, last_value, breaks_before, breaks_inside};
ghost use Rattle.fdb_keys.specs.RangeMaps.{without_points};
ghost use Rattle.fdb_interval.specs.Breakpoints.{AreJoined, AreRising};

use crate::keyed_range::KeyedRange;
use crate::point_key::PointKey;
use fdb_keys::KeyRange;
use std::alloc::{AllocError, Global};
use std::collections::BTreeMap;
use std::ops::Bound;

// The version at the point.
pub(crate) fn version_by(breaks: &BTreeMap<PointKey, u64>, point: &PointKey) -> u64
    ensures { result ≡ value_from 0 breaks.now.entries point.now }
{
    match breaks.range(..=point).next_back() {
        Some((_begin, version)) => *version,
        None => 0,
    }
}

// The version right before the point.
pub(crate) fn version_before(breaks: &BTreeMap<PointKey, u64>, point: &PointKey) -> u64
    ensures value { result ≡ last_value 0 (breaks_before point.now breaks.now.entries) }
    ensures rising { AreRising breaks.now.entries }
{
    match breaks.range(..point).next_back() {
        Some((_begin, version)) => *version,
        None => 0,
    }
}

// The version at the range's begin, which goes on up to its end, and whether a breakpoint is at the begin.
#[derive(Clone, Copy)]
struct Throughout {
    version: u64,
    begins: bool,
}

// The version throughout the range, which has a point, if no breakpoint is inside it.
fn version_throughout(breaks: &BTreeMap<PointKey, u64>, range: &KeyedRange) -> Option<Throughout>
    requires { IsTrue (point_lt range.now.begin range.now.end) }
    ensures version { IfSome result (λ found. found.version ≡ value_from 0 breaks.now.entries range.now.begin) }
    ensures before { IfSome result (λ found. found.begins ≡ false
        → found.version ≡ last_value 0 (breaks_before range.now.begin breaks.now.entries)) }
    ensures inside { IfSome result (λ _. breaks_inside range.now breaks.now.entries ≡ []) }
    ensures rising { AreRising breaks.now.entries }
{
    match breaks.range(..range.end()).next_back() {
        Some((point, _version)) if is_before(range.begin(), point) => None,
        Some((point, version)) => Some(Throughout {
            version: *version,
            begins: !is_before(point, range.begin()),
        }),
        None => Some(Throughout {
            version: 0,
            begins: false,
        }),
    }
}

// What a range meets: the version throughout it, if no breakpoint is inside it, and that of the breakpoint at its end,
// if there is one.
#[derive(Clone, Copy)]
struct Met {
    throughout: Option<Throughout>,
    at_end: Option<u64>,
}

// What the range, which has a point, meets. Mostly one look-up tells both.
fn meet(breaks: &BTreeMap<PointKey, u64>, range: &KeyedRange) -> Met
    requires { IsTrue (point_lt range.now.begin range.now.end) }
    ensures version { IfSome result.throughout (λ found. found.version
        ≡ value_from 0 breaks.now.entries range.now.begin) }
    ensures before { IfSome result.throughout (λ found. found.begins ≡ false
        → found.version ≡ last_value 0 (breaks_before range.now.begin breaks.now.entries)) }
    ensures inside { IfSome result.throughout (λ _. breaks_inside range.now breaks.now.entries ≡ []) }
    ensures at_end { result.at_end ≡ lookup (is_at (slice_cmp nat_cmp range.now.end)) breaks.now.entries }
    ensures rising { AreRising breaks.now.entries }
{
    match breaks.range(..=range.end()).next_back() {
        Some((point, version)) if !is_before(point, range.end()) => Met {
            throughout: version_throughout(breaks, range),
            at_end: Some(*version),
        },
        Some((point, _version)) if is_before(range.begin(), point) => Met {
            throughout: None,
            at_end: None,
        },
        Some((point, version)) => Met {
            throughout: Some(Throughout {
                version: *version,
                begins: !is_before(point, range.begin()),
            }),
            at_end: None,
        },
        None => Met {
            throughout: Some(Throughout {
                version: 0,
                begins: false,
            }),
            at_end: None,
        },
    }
}

#[tactic(auto, unfolding(fdb_keys::specs::Points::point_lt))]
fn is_before(a: &PointKey, b: &PointKey) -> bool
    ensures { result ≡ point_lt a.now b.now }
{
    a.cmp(b).is_lt()
}

// The version throughout the points from a text up to an end, of which there are some, if no breakpoint is inside them.
// The text needs no owner for that.
pub(crate) fn version_between(
    breaks: &BTreeMap<PointKey, u64>,
    begin: &[u8],
    end: &PointKey,
) -> Option<u64>
    requires { IsTrue (point_lt begin.now end.now) }
    ensures version { IfSome result (λ version. version ≡ value_from 0 breaks.now.entries begin.now) }
    ensures inside { IfSome result (λ _. breaks_inside (record { begin = begin.now; end = end.now }) breaks.now.entries
        ≡ []) }
    ensures rising { AreRising breaks.now.entries }
{
    match breaks.range(..end).next_back() {
        Some((point, _version)) if point.is_after(begin) => None,
        Some((_point, version)) => Some(*version),
        None => Some(0),
    }
}

// Whether some point of the range, which has one, has a version above this one.
pub(crate) fn is_newer_by_keys(
    breaks: &BTreeMap<PointKey, u64>,
    range: &KeyedRange,
    version: u64,
) -> bool
    requires { IsTrue (point_lt range.now.begin range.now.end) }
    ensures { result ≡ (nat_lt version (value_from 0 breaks.now.entries range.now.begin)
        || list_any (λ entry. nat_lt version entry.1) (breaks_inside range.now breaks.now.entries)) }
{
    version < version_by(breaks, range.begin()) || is_newer_inside(breaks, range, version)
}

// Whether a breakpoint inside the range has a greater version.
fn is_newer_inside(breaks: &BTreeMap<PointKey, u64>, range: &KeyedRange, version: u64) -> bool
    requires { IsTrue (point_lt range.now.begin range.now.end) }
    ensures value { result ≡ list_any (λ entry. nat_lt version entry.1) (breaks_inside range.now breaks.now.entries) }
    ensures rising { AreRising breaks.now.entries }
{
    let bounds = (Bound::Excluded(range.begin()), Bound::Excluded(range.end()));
    for (_begin, held) in breaks.range(bounds) {
        if version < *held {
            return true;
        }
    }
    false
}

// How many of the versions are above the floor.
pub(crate) fn count_above(breaks: &BTreeMap<PointKey, u64>, floor: u64) -> usize
    ensures value { result ≡ length (filter (λ version. nat_lt floor version) (values breaks.now)) }
    ensures rising { AreRising breaks.now.entries }
{
    let mut count = 0;
    for version in breaks.values() {
        if floor < *version {
            count += 1;
        }
    }
    count
}

// Gives each point of the range, which has one, the version. Where memory runs out, nothing changes.
pub(crate) fn assign(
    alloc: Global,
    breaks: &mut BTreeMap<PointKey, u64>,
    range: &KeyRange,
    version: u64,
) -> Result<(), AllocError>
    requires { IsTrue (point_lt range.now.begin range.now.end) }
    ensures versions { OnOk result ((x : Point) → value_from 0 breaks.new.entries x
        ≡ (if in_range range.now x then version else value_from 0 breaks.old.entries x)) }
    ensures joined { OnOk result ((floor : ℕ)
        → AreJoined floor 0 breaks.old.entries → AreJoined floor 0 breaks.new.entries) }
    ensures last { OnOk result (last_value 0 breaks.new.entries ≡ last_value 0 breaks.old.entries) }
    ensures err { OnErr result (breaks.new.entries ≡ breaks.old.entries) }
{
    let keyed = KeyedRange::new(range)?;
    assign_keyed(alloc, breaks, keyed, version)
}

// The same, by the keys of the bounds.
fn assign_keyed(
    alloc: Global,
    breaks: &mut BTreeMap<PointKey, u64>,
    range: KeyedRange,
    version: u64,
) -> Result<(), AllocError>
    requires { IsTrue (point_lt range.begin range.end) }
    ensures versions { OnOk result ((x : Point) → value_from 0 breaks.new.entries x
        ≡ (if in_range range x then version else value_from 0 breaks.old.entries x)) }
    ensures joined { OnOk result ((floor : ℕ)
        → AreJoined floor 0 breaks.old.entries → AreJoined floor 0 breaks.new.entries) }
    ensures last { OnOk result (last_value 0 breaks.new.entries ≡ last_value 0 breaks.old.entries) }
    ensures err { OnErr result (breaks.new.entries ≡ breaks.old.entries) }
{
    let Met { throughout, at_end } = meet(breaks, &range);
    let before = version_before_range(breaks, &range, throughout);
    let behind = version_behind(breaks, &range, throughout, at_end);
    let mut gone = list_swallowed(alloc, breaks, &range, throughout)?;
    push_if(&mut gone, range.begin(), before == version)?;
    push_if(&mut gone, range.end(), behind == version)?;
    put_both(breaks, range, version, at_end, behind)?;
    remove_all(breaks, gone.as_slice());
    Ok(())
}

// The version right before the range, by the version throughout it, if there is one.
fn version_before_range(
    breaks: &BTreeMap<PointKey, u64>,
    range: &KeyedRange,
    throughout: Option<Throughout>,
) -> u64
    requires { IfSome throughout (λ found. found.begins ≡ false
        → found.version ≡ last_value 0 (breaks_before range.now.begin breaks.now.entries)) }
    ensures { result ≡ last_value 0 (breaks_before range.now.begin breaks.now.entries) }
{
    match throughout {
        Some(found) if !found.begins => found.version,
        _ => version_before(breaks, range.begin()),
    }
}

// The version at the range's end, by that of the breakpoint there and the version throughout the range, if there are.
fn version_behind(
    breaks: &BTreeMap<PointKey, u64>,
    range: &KeyedRange,
    throughout: Option<Throughout>,
    at_end: Option<u64>,
) -> u64
    requires some { IsTrue (point_lt range.now.begin range.now.end) }
    requires rising { AreRising breaks.now.entries }
    requires version { IfSome throughout (λ found. found.version
        ≡ value_from 0 breaks.now.entries range.now.begin) }
    requires inside { IfSome throughout (λ _. breaks_inside range.now breaks.now.entries ≡ []) }
    requires at_end { at_end ≡ lookup (is_at (slice_cmp nat_cmp range.now.end)) breaks.now.entries }
    ensures { result ≡ value_from 0 breaks.now.entries range.now.end }
{
    match at_end {
        Some(version) => version,
        None => match throughout {
            Some(found) => found.version,
            None => version_by(breaks, range.end()),
        },
    }
}

// The breakpoints inside the range, of which there are none if it has one version throughout.
fn list_swallowed(
    alloc: Global,
    breaks: &BTreeMap<PointKey, u64>,
    range: &KeyedRange,
    throughout: Option<Throughout>,
) -> Result<Vec<PointKey>, AllocError>
    requires some { IsTrue (point_lt range.now.begin range.now.end) }
    requires inside { IfSome throughout (λ _. breaks_inside range.now breaks.now.entries ≡ []) }
    ensures { IfOk result (λ inside. inside.items ≡ keys_of (breaks_inside range.now breaks.now.entries)) }
{
    if throughout.is_some() {
        return Ok(Vec::new(alloc));
    }
    list_inside(alloc, breaks, range)
}

// The breakpoints inside the range.
fn list_inside(
    alloc: Global,
    breaks: &BTreeMap<PointKey, u64>,
    range: &KeyedRange,
) -> Result<Vec<PointKey>, AllocError>
    requires { IsTrue (point_lt range.now.begin range.now.end) }
    ensures { IfOk result (λ inside. inside.items ≡ keys_of (breaks_inside range.now breaks.now.entries)) }
{
    let mut inside = Vec::new(alloc);
    let bounds = (Bound::Excluded(range.begin()), Bound::Excluded(range.end()));
    for (begin, _version) in breaks.range(bounds) {
        inside.push(begin.clone()?)?;
    }
    Ok(inside)
}

// Adds the point to the list, if it is wanted there.
fn push_if(points: &mut Vec<PointKey>, point: &PointKey, is_wanted: bool) -> Result<(), AllocError>
    ensures { OnOk result (points.new.items ≡ points.old.items ++ (if is_wanted then point.now ∷ [] else [])) }
{
    if is_wanted {
        points.push(point.clone()?)?;
    }
    Ok(())
}

// Puts the version at the range's begin, and at its end, if no breakpoint is there, the version behind it. Where
// memory runs out, nothing changes.
fn put_both(
    breaks: &mut BTreeMap<PointKey, u64>,
    range: KeyedRange,
    version: u64,
    at_end: Option<u64>,
    behind: u64,
) -> Result<(), AllocError>
    requires { at_end ≡ lookup (is_at (slice_cmp nat_cmp range.end)) breaks.old.entries }
    ensures ok { OnOk result (breaks.new.entries ≡ insert_entry (slice_cmp nat_cmp)
        (if is_some (lookup (is_at (slice_cmp nat_cmp range.end)) breaks.old.entries) then breaks.old.entries
        else insert_entry (slice_cmp nat_cmp) breaks.old.entries range.end behind)
        range.begin version) }
    ensures err { OnErr result (breaks.new.entries ≡ breaks.old.entries) }
{
    let (begin, end) = range.into_bounds();
    if at_end.is_some() {
        put(breaks, begin, version)
    } else {
        put_beside_new(breaks, begin, version, end, behind)
    }
}

fn put(
    breaks: &mut BTreeMap<PointKey, u64>,
    point: PointKey,
    version: u64,
) -> Result<(), AllocError>
    ensures ok { OnOk result (breaks.new.entries
        ≡ insert_entry (slice_cmp nat_cmp) breaks.old.entries point version) }
    ensures err { OnErr result (breaks.new.entries ≡ breaks.old.entries) }
{
    breaks.insert(point, version)?;
    Ok(())
}

// Puts both versions, the second one at an end that has none, or neither.
fn put_beside_new(
    breaks: &mut BTreeMap<PointKey, u64>,
    begin: PointKey,
    version: u64,
    end: PointKey,
    behind: u64,
) -> Result<(), AllocError>
    requires { lookup (is_at (slice_cmp nat_cmp end)) breaks.old.entries ≡ None }
    ensures ok { OnOk result (breaks.new.entries ≡ insert_entry (slice_cmp nat_cmp)
        (insert_entry (slice_cmp nat_cmp) breaks.old.entries end behind) begin version) }
    ensures err { OnErr result (breaks.new.entries ≡ breaks.old.entries) }
{
    put(breaks, end.clone()?, behind)?;
    if let Err(why) = put(breaks, begin, version) {
        breaks.remove(&end);
        return Err(why);
    }
    Ok(())
}

// Takes out the breakpoints at the keys.
pub(crate) fn remove_all(breaks: &mut BTreeMap<PointKey, u64>, keys: &[PointKey])
    ensures { breaks.new.entries ≡ without_points keys.now breaks.old.entries }
{
    for key in keys {
        breaks.remove(key);
    }
}
