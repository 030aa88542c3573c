// Parts with known verdicts.
ghost use Rattle.std.specs.Prelude.{◌≡◌, true, IfOk};
ghost use Rattle.std.specs.List.{AllByRecursion};
ghost use Rattle.fdb_txn.specs.rules.Admission.{has_points};
ghost use Rattle.fdb_resolver.specs.Parts.{AreRising, IsPart};

use crate::asserting::same;
use fdb_keys::{Items, RangeSet, Refusal};
use fdb_making::{are_ranges, coded, numbers_of, one_key, set_of, shared};
use fdb_resolver::{Item, Part, ResolverCore, Verdict};
use std::alloc::Global;

// The bounds of ranges.
type Bounds = &'static [(&'static [u8], &'static [u8])];

/// A place: its read version, the key that it reads, if there is one, and the key that it writes.
pub type Place = (u64, Option<&'static [u8]>, &'static [u8]);

/// A part of the entry with index 7: the resolver, the version, the previous version and the horizon, and the places.
/// Then the verdicts, and whether they are given, or the code of the refusal and the number that it names.
pub type Row = (
    u32,
    [u64; 3],
    &'static [Place],
    &'static [(u32, Verdict)],
    Result<bool, (u32, u64)>,
);

// Each list is taken by a new resolver 0.
const CASES: &[&[Row]] = &[
    // A later place conflicts with an earlier one.
    &[(
        0,
        [100, 0, 0],
        &[(0, Some(b"a"), b"a"), (0, Some(b"a"), b"a")],
        &[(0, Verdict::Yes), (1, Verdict::Conflict)],
        Ok(true),
    )],
    // A read of what an earlier entry wrote conflicts.
    &[
        (
            0,
            [100, 0, 0],
            &[(0, Some(b"a"), b"z")],
            &[(0, Verdict::Yes)],
            Ok(true),
        ),
        (
            0,
            [200, 100, 0],
            &[(0, Some(b"z"), b"z")],
            &[(0, Verdict::Conflict)],
            Ok(true),
        ),
    ],
    // Reads below the horizon are old, as those below the first window are.
    &[
        (0, [100, 0, 0], &[], &[], Ok(true)),
        (
            0,
            [5_000_100, 100, 100],
            &[(100, Some(b"a"), b"b")],
            &[(0, Verdict::Yes)],
            Ok(true),
        ),
        (
            0,
            [5_000_101, 5_000_100, 101],
            &[(100, Some(b"a"), b"c"), (100, None, b"d")],
            &[(0, Verdict::Old), (1, Verdict::Yes)],
            Ok(true),
        ),
    ],
    // Reads just at the horizon are judged, wherever it lies.
    &[
        (
            0,
            [100, 0, 0],
            &[(0, None, b"z")],
            &[(0, Verdict::Yes)],
            Ok(true),
        ),
        (
            0,
            [300, 100, 200],
            &[(200, Some(b"z"), b"b"), (199, Some(b"z"), b"c")],
            &[(0, Verdict::Yes), (1, Verdict::Old)],
            Ok(true),
        ),
    ],
    // Versions up to the horizon are forgotten, and greater ones are kept: a later part with a lesser horizon shows it.
    &[
        (
            0,
            [100, 0, 0],
            &[(0, None, b"a")],
            &[(0, Verdict::Yes)],
            Ok(true),
        ),
        (
            0,
            [101, 100, 0],
            &[(0, None, b"z")],
            &[(0, Verdict::Yes)],
            Ok(true),
        ),
        (0, [200, 101, 100], &[], &[], Ok(true)),
        (
            0,
            [300, 200, 0],
            &[(50, Some(b"a"), b"b"), (50, Some(b"z"), b"c")],
            &[(0, Verdict::Yes), (1, Verdict::Conflict)],
            Ok(true),
        ),
    ],
    // Parts out of turn are refused.
    &[
        (
            0,
            [100, 0, 0],
            &[(0, Some(b"a"), b"z")],
            &[(0, Verdict::Yes)],
            Ok(true),
        ),
        (
            0,
            [100, 0, 0],
            &[(0, Some(b"a"), b"z")],
            &[],
            Err((9003, 0)),
        ),
        (
            0,
            [200, 150, 0],
            &[(0, Some(b"z"), b"z")],
            &[],
            Err((9002, 150)),
        ),
    ],
    // Refused parts change nothing.
    &[
        (
            1,
            [100, 0, 0],
            &[(0, Some(b"a"), b"z")],
            &[],
            Err((9016, 0)),
        ),
        (
            0,
            [100, 0, 0],
            &[(0, Some(b"z"), b"a")],
            &[(0, Verdict::Yes)],
            Ok(true),
        ),
    ],
];

// Its places write a and z.
const WRITTEN: &Row = &(
    0,
    [100, 0, 0],
    &[(0, None, b"a"), (0, None, b"z")],
    &[(0, Verdict::Yes), (1, Verdict::Yes)],
    Ok(true),
);

// Ranges that are read then, and what is found of them.
const FOUND: &[(Bounds, Bounds)] = &[
    // One key of a range of three.
    (&[(b"Z", b"b")], &[(b"a", b"a\0")]),
    (&[(b"a", b"a\0"), (b"b", b"c")], &[(b"a", b"a\0")]),
    // Both keys, and nothing between them.
    (&[(b"", b"~")], &[(b"a", b"a\0"), (b"z", b"z\0")]),
    // A part of a key's range.
    (
        &[(b"a", b"a\0"), (b"y", b"zz")],
        &[(b"a", b"a\0"), (b"z", b"z\0")],
    ),
    // Nothing.
    (&[(b"a\0", b"z")], &[]),
];

fn item(alloc: Global, place: u32, of: &Place) -> Result<Item, Refusal>
    ensures place { IfOk result (λ item. item.place ≡ place) }
    ensures reads { IfOk result (λ item. has_points item.reads ≡ true → item.has_reads ≡ true) }
{
    let (read_version, key, write) = *of;
    let writes = one_key(alloc, write)?;
    match key {
        Some(key) => {
            let reads = one_key(alloc, key)?;
            Ok(Item {
                place,
                read_version,
                has_reads: true,
                reads,
                writes,
            })
        }
        None => Ok(Item {
            place,
            read_version,
            has_reads: false,
            reads: RangeSet::new(alloc),
            writes,
        }),
    }
}

// At most two.
fn items_of(alloc: Global, places: &[Place]) -> Result<Items<Item>, Refusal>
    ensures rising { IfOk result (λ items. AreRising items) }
    ensures reads { IfOk result (λ items.
        AllByRecursion (λ (item : Item). has_points item.reads ≡ true → item.has_reads ≡ true) items) }
{
    let mut items = Items::new(alloc);
    if let Some(first) = places.get(0) {
        items.push(item(alloc, 0, first)?)?;
        if let Some(second) = places.get(1) {
            items.push(item(alloc, 1, second)?)?;
        }
    }
    Ok(items)
}

/// The part.
pub fn part(alloc: Global, row: &Row) -> Result<Part, Refusal>
    ensures { IfOk result (λ part. IsPart part) }
{
    let (resolver, [version, prev, horizon], places, _, _) = *row;
    let items = shared(alloc, items_of(alloc, places)?)?;
    if prev >= version {
        return Err(Refusal::Chain);
    }
    Ok(Part {
        resolver,
        index: 7,
        version,
        prev,
        horizon,
        items,
    })
}

// Whether the set is that of the key that the place reads.
fn is_read(places: &[Place], found: &(u32, RangeSet)) -> bool {
    let (place, set) = found;
    match places.get(*place as usize) {
        Some((_, Some(b"a"), _)) => are_ranges(set.iter().as_slice(), &[(b"a", b"a\0")]),
        Some((_, Some(b"z"), _)) => are_ranges(set.iter().as_slice(), &[(b"z", b"z\0")]),
        _ => false,
    }
}

// Whether just of the places in conflict the key is found that each reads.
fn are_found(found: &[(u32, RangeSet)], row: &Row) -> bool {
    let conflicts = row
        .3
        .iter()
        .filter(|(_, verdict)| *verdict == Verdict::Conflict)
        .count();
    found.len() == conflicts && found.iter().all(|one| is_read(row.2, one))
}

// Whether it gives the verdicts, and what is found with them.
fn take(core: &mut ResolverCore, alloc: Global, row: &Row) -> Result<bool, Refusal> {
    let part = part(alloc, row)?;
    let verdicts = core.take(&part)?;
    let numbers = (verdicts.resolver, verdicts.index);
    Ok(
        numbers == (0, 7)
            && verdicts.answers.as_slice() == row.3
            && are_found(verdicts.conflicts.as_slice(), row),
    )
}

// The part of a later entry with one place, that reads the ranges at version 0.
fn part_of_reads(alloc: Global, bounds: &[(&[u8], &[u8])]) -> Result<Part, Refusal>
    ensures { IfOk result (λ part. IsPart part) }
{
    let mut items = Items::new(alloc);
    items.push(Item {
        place: 0,
        read_version: 0,
        has_reads: true,
        reads: set_of(alloc, bounds)?,
        writes: RangeSet::new(alloc),
    })?;
    let items = shared(alloc, items)?;
    Ok(Part {
        resolver: 0,
        index: 8,
        version: 200,
        prev: 100,
        horizon: 0,
        items,
    })
}

// Whether just these ranges are found, of place 0.
fn are_alone(found: &[(u32, RangeSet)], wanted: &[(&[u8], &[u8])]) -> bool {
    match found {
        [one] => {
            let (place, set) = one;
            *place == 0 && are_ranges(set.iter().as_slice(), wanted)
        }
        _ => wanted.is_empty(),
    }
}

// The keys a and z were written at version 100. Whether of reads of these ranges just those are found.
fn finds(
    alloc: Global,
    reads: &[(&[u8], &[u8])],
    wanted: &[(&[u8], &[u8])],
) -> Result<bool, Refusal> {
    let mut core = ResolverCore::new(alloc, 0);
    let _written = take(&mut core, alloc, WRITTEN)?;
    let verdicts = core.take(&part_of_reads(alloc, reads)?)?;
    Ok(are_alone(verdicts.conflicts.as_slice(), wanted))
}

#[test]
fn conflicts_have_what_is_newer_of_the_reads(rt: HostRuntime) {
    for (reads, wanted) in FOUND {
        same(&rt, coded(finds(rt.alloc(), reads, wanted)), Ok(true));
    }
}

#[test]
fn parts_have_verdicts(rt: HostRuntime) {
    for rows in CASES {
        let mut core = ResolverCore::new(rt.alloc(), 0);
        for row in *rows {
            let told = match take(&mut core, rt.alloc(), row) {
                Ok(gives) => Ok(gives),
                Err(why) => Err(numbers_of(why)),
            };
            same(&rt, told, row.4);
        }
    }
}
