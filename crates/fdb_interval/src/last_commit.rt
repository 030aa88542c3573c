ghost use Rattle.std.specs.Prelude.{◌≡◌, IsTrue, IfOk, if◌then◌else◌};
ghost use Rattle.fdb_keys.specs.Points.{Point, point_lt};
ghost use Rattle.fdb_keys.specs.Ranges.{in_range};
ghost use Rattle.fdb_interval.specs.Breakpoints.{value_from, last_value, AreJoined};

use crate::breakpoints::{assign, count_above};
use crate::newer::{is_any_newer, list_newer};
use crate::point_key::PointKey;
use crate::sweeping::sweep;
use fdb_keys::{KeyRange, RangeSet, Refusal};
use std::alloc::{AllocError, Global};
use std::collections::BTreeMap;
use std::marker::Model;

// How many breakpoints an expiry looks at for each mark since the last one, and how many more. A mark makes at most
// two. So where as many die as are made, no more than half of those that are kept die in one round over all.
const LOOKS_FOR_A_MARK: u64 = 4;

const LOOKS: u64 = 8;

/// For each point of the keys the version of the last write that was marked there, 0 where there was none.
#[derive(Drop)]
pub struct LastCommit {
    alloc: Global,
    // Versions up to it count as 0.
    floor: u64,
    // The version that goes from each point up to the next one.
    breaks: BTreeMap<PointKey, u64>,
    // How many marks there were since the last expiry, and where that one stopped looking for dead breakpoints.
    marked: u64,
    cursor: PointKey,
}

impl Model for LastCommit {
    ghost use Rattle.std.specs.Prelude.{◌≤◌};
    ghost use Rattle.fdb_interval.specs.Breakpoints.{Breakpoints, last_value, AreJoined};

    ghost Value = { Breakpoints };

    ghost view = { λ last. record { floor = last.floor; breaks = last.breaks.entries } };

    ghost invariant = { λ last. AreJoined last.floor 0 last.breaks.entries
        × (last_value 0 last.breaks.entries ≤ last.floor) };
}

impl LastCommit {
    ghost use Rattle.std.specs.Prelude.{◌≡◌, ◌<◌, ◌≤◌, ◌↔◌, IsTrue, true, None, OnErr, List, length};
    ghost use Rattle.std.specs.Prelude.{◌&&◌, nat_lt, if◌then◌else◌};
    ghost use Rattle.fdb_keys.specs.Answers.{Answers};
    ghost use Rattle.fdb_keys.specs.Points.{Point, point_lt};
    ghost use Rattle.fdb_keys.specs.Ranges.{in_range, in_set};
    ghost use Rattle.fdb_interval.specs.Pieces.{Piece, ArePieces};
    ghost use Rattle.fdb_interval.specs.Versions.{version_at, forgetting, piece_count};

    /// Nothing is marked: each point has version 0. It takes no memory.
    pub fn new(alloc: Global) -> Self
        ensures { (x : Point) → version_at result x ≡ 0 }
    {
        LastCommit {
            alloc,
            floor: 0,
            breaks: BTreeMap::new(alloc),
            marked: 0,
            cursor: PointKey::first(),
        }
    }

    /// Whether some point of the range has a version above `version`. An empty range has no point. It takes
    /// O(log n) for the n pieces, and O(1) for each piece that meets the range, but O(n) where the text of a bound has
    /// as many owners as can be counted. It takes no memory.
    pub fn newer_than(&self, range: &KeyRange, version: u64) -> bool
        ensures { IsTrue result ↔ ((x : Point) × (in_range range.now x ≡ true) × (version < version_at self.now x)) }
    {
        if range.is_empty() {
            return false;
        }
        is_any_newer(&self.breaks, range, version.max(self.floor))
    }

    /// The points of the range that have a version above `version`; none where the range is empty. It takes O(log n)
    /// for the n pieces, O(1) for each breakpoint inside the range, and O(k log k) comparisons of bounds for the k
    /// ranges that are found. Refused only as `NoMemory`.
    pub fn newer_in(&self, range: &KeyRange, version: u64) -> Result<RangeSet, Refusal>
        ensures { Answers result None (λ set. (x : Point)
            → in_set set x ≡ (in_range range.now x && nat_lt version (version_at self.now x))) }
    {
        let mut newer = RangeSet::new(self.alloc);
        if range.is_empty() {
            return Ok(newer);
        }
        let bar = version.max(self.floor);
        newer.add_all(list_newer(self.alloc, &self.breaks, range, bar)?)?;
        Ok(newer)
    }

    /// Marks each point of the range with `version`, which no point's version may exceed. Other points keep
    /// theirs. It takes O(log n) for the n pieces, and as much for each piece that the range swallows. Refused
    /// only as `NoMemory`, and then nothing changes.
    pub fn mark(&mut self, range: &KeyRange, version: u64) -> Result<(), Refusal>
        requires { (x : Point) → version_at self.old x ≤ version }
        ensures answers { Answers result None
            (λ _. (x : Point)
            → version_at self.new x ≡ (if in_range range.now x then version else version_at self.old x)) }
        ensures err { OnErr result (self.new ≡ self.old) }
    {
        if range.is_empty() || version == 0 {
            return Ok(());
        }
        if version <= self.floor {
            self.mark_anew(range, version)
        } else {
            self.mark_above(range, version)
        }
    }

    // Marks the range with a version above the floor.
    fn mark_above(&mut self, range: &KeyRange, version: u64) -> Result<(), Refusal>
        requires some { IsTrue (point_lt range.now.begin range.now.end) }
        requires above { self.old.floor < version }
        requires greatest { (x : Point) → version_at self.old x ≤ version }
        ensures answers { Answers result None
            (λ _. (x : Point)
            → version_at self.new x ≡ (if in_range range.now x then version else version_at self.old x)) }
        ensures err { OnErr result (self.new ≡ self.old) }
    {
        assign(self.alloc, &mut self.breaks, range, version)?;
        self.marked = self.marked.saturating_add(1);
        Ok(())
    }

    // Marks the range where every version is forgotten.
    fn mark_anew(&mut self, range: &KeyRange, version: u64) -> Result<(), Refusal>
        requires some { IsTrue (point_lt range.now.begin range.now.end) }
        requires above { 0 < version }
        ensures answers { Answers result None
            (λ _. (x : Point) → version_at self.new x ≡ (if in_range range.now x then version else 0)) }
        ensures err { OnErr result (self.new ≡ self.old) }
    {
        let breaks = marked_alone(self.alloc, range, version)?;
        self.floor = 0;
        self.breaks = breaks;
        Ok(())
    }

    /// Forgets the versions up to `version`: a point with such a version has 0, and each greater version
    /// stays as it is. It takes O(m log n) for the m marks since the last expiry and the n pieces. As long as ranges
    /// are marked, no more than about twice as many breakpoints are kept as the pieces have; where none is, the others
    /// go a few at each expiry. It takes memory for a moment, and leaves more for the next expiry where there is none.
    pub fn expire(&mut self, version: u64)
        ensures { (x : Point) → version_at self.new x ≡ forgetting version (version_at self.old) x }
    {
        self.floor = self.floor.max(version);
        let steps = self
            .marked
            .saturating_mul(LOOKS_FOR_A_MARK)
            .saturating_add(LOOKS);
        sweep(
            self.alloc,
            &mut self.breaks,
            &mut self.cursor,
            self.floor,
            steps,
        );
        self.marked = 0;
    }

    /// The number of maximal ranges with one version other than 0. It takes O(n) for the n pieces, and no memory.
    pub fn pieces(&self) -> usize
        ensures count { result ≡ piece_count self.now }
        ensures pieces { (pieces : List Piece) × ArePieces (version_at self.now) pieces × (result ≡ length pieces) }
    {
        count_above(&self.breaks, self.floor)
    }

    /// The number of breakpoints that are kept, also of those that no piece has any more and no expiry has come to. It
    /// takes O(1), and no memory.
    pub fn breakpoints(&self) -> usize
        ensures { result ≡ length self.now.breaks }
    {
        self.breaks.len()
    }
}

// The breakpoints where the range, which has a point, is marked alone.
fn marked_alone(
    alloc: Global,
    range: &KeyRange,
    version: u64,
) -> Result<BTreeMap<PointKey, u64>, AllocError>
    requires { IsTrue (point_lt range.now.begin range.now.end) }
    ensures versions { IfOk result (λ breaks. (x : Point) → value_from 0 breaks.entries x
        ≡ (if in_range range.now x then version else 0)) }
    ensures joined { IfOk result (λ breaks. AreJoined 0 0 breaks.entries) }
    ensures last { IfOk result (λ breaks. last_value 0 breaks.entries ≡ 0) }
{
    let mut breaks = BTreeMap::new(alloc);
    assign(alloc, &mut breaks, range, version)?;
    Ok(breaks)
}
