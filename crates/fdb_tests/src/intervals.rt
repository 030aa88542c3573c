// Marks with known answers.
ghost use Rattle.std.specs.Prelude.{◌≤◌, IfOk};
ghost use Rattle.fdb_keys.specs.Points.{Point};
ghost use Rattle.fdb_interval.specs.Versions.{version_at};

use crate::asserting::same;
use fdb_interval::{KeyedRange, LastCommit, PointKey};
use fdb_keys::{Key, KeyRange, Refusal};
use fdb_making::{both, coded, made_of, set_of};
use std::alloc::Global;
use std::cmp::Ordering;

type Text = &'static [u8];

// How many acts there are, and for how many versions a mark stays.
const ACTS: u64 = 10_000;

const MARKS_STAY: u64 = 8;

// The keys of the first range are marked with 100, and then those of the second one with 200.
fn marked(alloc: Global, first: &KeyRange, second: &KeyRange) -> Result<LastCommit, Refusal>
    ensures { IfOk result (λ last. (x : Point) → version_at last x ≤ 200) }
{
    let mut last = LastCommit::new(alloc);
    last.mark(first, 100)?;
    last.mark(second, 200)?;
    Ok(last)
}

// The same of the keys from b to d, and of those from c to e.
fn two_marks(alloc: Global) -> Result<LastCommit, Refusal>
    ensures { IfOk result (λ last. (x : Point) → version_at last x ≤ 200) }
{
    let (first, second) = both(
        KeyRange::new(alloc, b"b", b"d"),
        KeyRange::new(alloc, b"c", b"e"),
    )?;
    marked(alloc, &first, &second)
}

fn is_newer(
    last: &LastCommit,
    alloc: Global,
    begin: Text,
    end: Text,
    version: u64,
) -> Result<bool, Refusal> {
    let range = KeyRange::new(alloc, begin, end)?;
    Ok(last.newer_than(&range, version))
}

// Whether the keys from the begin up to the end have a mark above the version.
type Row = (Text, Text, u64, bool);

// Later marks win where they stand.
const MARKED: [Row; 4] = [
    (b"b", b"c", 99, true),
    (b"b", b"c", 100, false),
    (b"c", b"d", 199, true),
    (b"e", b"f", 0, false),
];

// Versions above the expired one, which is 100, are kept.
const EXPIRED: [Row; 2] = [(b"b", b"c", 100, false), (b"d", b"e", 150, true)];

// The place of the first row that is answered otherwise.
fn first_wrong(last: &LastCommit, alloc: Global, rows: &[Row]) -> Option<usize> {
    for (place, (begin, end, version, wanted)) in rows.iter().enumerate() {
        if is_newer(last, alloc, begin, end, *version) != Ok(*wanted) {
            return Some(place);
        }
    }
    None
}

// The first wrong row after the two marks, and the first one after the expiry.
fn first_wrongs(alloc: Global) -> Result<[Option<usize>; 2], Refusal> {
    let mut last = two_marks(alloc)?;
    let of_marked = first_wrong(&last, alloc, MARKED.as_slice());
    last.expire(100);
    Ok([of_marked, first_wrong(&last, alloc, EXPIRED.as_slice())])
}

// The keys from a to b and those from d to e are marked.
fn marks_with_a_gap(alloc: Global) -> Result<LastCommit, Refusal> {
    let (first, second) = both(
        KeyRange::new(alloc, b"a", b"b"),
        KeyRange::new(alloc, b"d", b"e"),
    )?;
    marked(alloc, &first, &second)
}

// The keys from the begin up to the end, a version, and the ranges of those that have a mark above it.
type NewerRow = (Text, Text, u64, &'static [(Text, Text)]);

// After the two marks.
static NEWER: [NewerRow; 5] = [
    (b"a", b"f", 99, &[(b"b", b"e")]),
    (b"b", b"f", 100, &[(b"c", b"e")]),
    (b"a", b"c", 99, &[(b"b", b"c")]),
    (b"d", b"f", 0, &[(b"d", b"e")]),
    (b"c", b"c", 0, &[]),
];

// After the marks with a gap.
static NEWER_WITH_A_GAP: [NewerRow; 2] = [
    (b"a", b"f", 99, &[(b"a", b"b"), (b"d", b"e")]),
    (b"b", b"d", 0, &[]),
];

// Whether just the keys of the ranges have a mark above the version.
fn are_newer(last: &LastCommit, alloc: Global, row: &NewerRow) -> Result<bool, Refusal> {
    let (begin, end, version, wanted) = row;
    let range = KeyRange::new(alloc, begin, end)?;
    let (newer, wanted) = both(last.newer_in(&range, *version), set_of(alloc, wanted))?;
    Ok(newer == wanted)
}

// The place of the first row that is answered otherwise.
fn first_other(last: &LastCommit, alloc: Global, rows: &[NewerRow]) -> Option<usize> {
    for (place, row) in rows.iter().enumerate() {
        if are_newer(last, alloc, row) != Ok(true) {
            return Some(place);
        }
    }
    None
}

#[test]
fn newer_keys_are_those_of_marks_within_the_range(rt: HostRuntime) {
    let alloc = rt.alloc();
    let touching = made_of(
        two_marks(alloc),
        |last| Ok(first_other(last, alloc, NEWER.as_slice())),
    );
    let apart = made_of(
        marks_with_a_gap(alloc),
        |last| Ok(first_other(last, alloc, NEWER_WITH_A_GAP.as_slice())),
    );
    same(&rt, [touching, apart], [Ok(None), Ok(None)]);
}

// How many pieces there are after the two marks, after the expiry of the first one, and once the keys of the range are
// marked like those of the second one; whether its begin is seen then; and how many are left once all is expired.
fn pieces_on_the_way(alloc: Global, range: &KeyRange) -> Result<([usize; 4], bool), Refusal> {
    let mut last = two_marks(alloc)?;
    let of_marked = last.pieces();
    last.expire(100);
    let of_expired = last.pieces();
    last.mark(range, 200)?;
    let of_joined = last.pieces();
    let is_seen = is_newer(&last, alloc, b"a", b"b", 199)?;
    last.expire(200);
    let pieces = [of_marked, of_expired, of_joined, last.pieces()];
    Ok((pieces, is_seen))
}

#[test]
fn later_marks_win_and_versions_above_the_expired_one_are_kept(rt: HostRuntime) {
    same(&rt, first_wrongs(rt.alloc()), Ok([None, None]));
}

#[test]
fn equal_neighbours_are_one_piece_and_expired_ones_are_none(rt: HostRuntime) {
    let alloc = rt.alloc();
    same(&rt, LastCommit::new(alloc).pieces(), 0);
    let found = made_of(
        KeyRange::new(alloc, b"a", b"c"),
        |range| pieces_on_the_way(alloc, range),
    );
    same(&rt, found, Ok(([2, 1, 1, 0], true)));
}

// The range of the key that stands for the number.
fn key_range(alloc: Global, number: u16) -> Result<KeyRange, Refusal> {
    let [high, low] = number.to_be_bytes();
    KeyRange::new(alloc, &[high, low], &[high, low, 0])
}

// One more key is marked with the version, and what is older than marks stay is forgotten.
fn mark_and_expire(last: &mut LastCommit, key: &KeyRange, version: u64) -> Result<(), Refusal>
    requires { (x : Point) → version_at last.old x ≤ version }
    ensures { (x : Point) → version_at last.new x ≤ version }
{
    last.mark(key, version)?;
    last.expire(version.saturating_sub(MARKS_STAY));
    Ok(())
}

// Whether no more than twice the breakpoints of the pieces are kept, and a few. A piece that meets no other one has
// two.
fn is_small(last: &LastCommit) -> bool {
    last.breakpoints() <= last.pieces().saturating_mul(4).saturating_add(16)
}

// The first version at which too many breakpoints are kept, while one key after another is marked.
fn first_large(alloc: Global) -> Result<Option<u64>, Refusal> {
    let mut last = LastCommit::new(alloc);
    for version in 0..ACTS {
        let key = key_range(alloc, version as u16)?;
        mark_and_expire(&mut last, &key, version)?;
        if !is_small(&last) {
            return Ok(Some(version));
        }
    }
    Ok(None)
}

#[test]
fn breakpoints_of_expired_marks_go(rt: HostRuntime) {
    same(&rt, first_large(rt.alloc()), Ok(None));
}

// How the first bound of a range is ordered beside the second one, and this one beside the first, as keys of a map.
fn order_of(alloc: Global, begin: Text, end: Text) -> Result<(Ordering, Ordering), Refusal> {
    let range = KeyRange::new(alloc, begin, end)?;
    let keyed = KeyedRange::new(&range)?;
    let (begin, end) = (keyed.begin(), keyed.end());
    Ok((begin.cmp(end), end.cmp(begin)))
}

// Bounds of which the first one comes before the second: by their first eight bytes, by what stands behind these, or
// since the second one goes on from the first.
const RISING: &[(Text, Text)] = &[
    (b"", b"a"),
    (b"a", b"b"),
    (b"a", b"a\0"),
    (b"a\0", b"a\0\0"),
    (b"a", b"a\0\0\0\0\0\0\0\0"),
    (b"abcdefg", b"abcdefgh"),
    (b"abcdefgh", b"abcdefgh\0"),
    (b"abcdefg\xff", b"abcdefh"),
    (b"abcdefghi", b"abcdefghj"),
];

#[test]
fn keys_of_maps_are_ordered_by_their_bytes(rt: HostRuntime) {
    let alloc = rt.alloc();
    for (begin, end) in RISING {
        let found = coded(order_of(alloc, begin, end));
        same(&rt, found, Ok((Ordering::Less, Ordering::Greater)));
        let alike = coded(order_of(alloc, end, end));
        same(&rt, alike, Ok((Ordering::Equal, Ordering::Equal)));
    }
}

// Whether the key of a map has the text of the key that it is made of.
fn keeps_its_text(key: &Key) -> Result<bool, Refusal> {
    let point = PointKey::at(key)?;
    Ok(point.text() == key.text())
}

#[test]
fn keys_of_maps_keep_their_texts(rt: HostRuntime) {
    let kept = made_of(Key::new(rt.alloc(), b"abcdefghij"), keeps_its_text);
    same(&rt, coded(kept), Ok(true));
}
