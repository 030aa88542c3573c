// Keys, ranges and sets of ranges with known answers.
use crate::asserting::same;
use fdb_keys::{
    Items, Key, KeyRange, RangeSet, Refusal, Refused, TreeRangeSet, is_before, push_between,
};
use fdb_making::{
    after, are_ranges, both, code_of, equals_copy, has_bounds, keys_of, made_of, set_of, shared,
    text_of,
};
use std::alloc::Global;

type Text = &'static [u8];

// Bounds of a range.
type Bounds = (Text, Text);

// The key of as many bytes.
fn long_key(alloc: Global, count: usize) -> Result<Key, Refusal> {
    let text = text_of(alloc, b'a', count)?;
    Key::new(alloc, text.as_slice())
}

#[test]
fn keys_are_short_and_come_before_ff(rt: HostRuntime) {
    let alloc = rt.alloc();
    let found = [
        code_of(long_key(alloc, 10_000)),
        code_of(long_key(alloc, 10_001)),
        code_of(Key::new(alloc, &[0xff])),
    ];
    same(&rt, found, [0, 2102, 2004]);
}

#[test]
fn texts_come_before_longer_and_greater_ones(rt: HostRuntime) {
    let found = [
        is_before(b"a", b"a\0"),
        is_before(b"a", b"b"),
        is_before(b"ab", b"b"),
        is_before(b"a", b"a"),
        is_before(b"b", b"a"),
        is_before(b"", b"a"),
    ];
    same(&rt, found, [true, true, true, false, false, true]);
}

#[test]
fn ranges_are_ordered_and_end_at_ff(rt: HostRuntime) {
    let alloc = rt.alloc();
    let found = [
        code_of(KeyRange::new(alloc, b"a", &[0xff])),
        code_of(KeyRange::new(alloc, b"a", &[0xff, 0])),
        code_of(KeyRange::new(alloc, b"b", b"a")),
    ];
    same(&rt, found, [0, 2004, 2005]);
}

// Whether the key lies in the range from a to c, and in the tree of that range.
fn a_to_c_contains(alloc: Global, key: Text) -> Result<[bool; 2], Refusal> {
    let sets = both(
        KeyRange::new(alloc, b"a", b"c"),
        tree_of(alloc, &[(b"a", b"c")]),
    );
    let ((range, tree), key) = both(sets, Key::new(alloc, key))?;
    Ok([range.contains(&key), tree.contains(&key)])
}

// Whether the keys from a to c meet the other range, whether they lie in it, and whether the other one is empty.
fn a_to_c_beside(alloc: Global, other: Bounds) -> Result<[bool; 3], Refusal> {
    let (range, other) = both(
        KeyRange::new(alloc, b"a", b"c"),
        KeyRange::new(alloc, other.0, other.1),
    )?;
    Ok([
        range.meets(&other),
        range.is_within(&other),
        other.is_empty(),
    ])
}

static BESIDE: [(Bounds, [bool; 3]); 4] = [
    // Touching ranges do not meet.
    ((b"c", b"d"), [false, false, false]),
    ((b"b", b"d"), [true, false, false]),
    ((b"", b"c"), [true, true, false]),
    ((b"a", b"b"), [true, false, false]),
];

#[test]
fn range_has_its_begin_and_not_its_end(rt: HostRuntime) {
    let alloc = rt.alloc();
    let found = [a_to_c_contains(alloc, b"a"), a_to_c_contains(alloc, b"c")];
    same(&rt, found, [Ok([true, true]), Ok([false, false])]);
    for (other, wanted) in BESIDE.as_slice() {
        same(&rt, a_to_c_beside(alloc, *other), Ok(*wanted));
    }
}

// Whether the range alone lies between its bounds, and nothing between these turned round.
fn is_between(alloc: Global, range: &KeyRange) -> Result<bool, Refusal> {
    let (begin, end) = (range.begin(), range.end());
    let mut ranges = Vec::new(alloc);
    push_between(range.begin_text(), range.end_text(), &mut ranges)?;
    push_between(range.end_text(), range.begin_text(), &mut ranges)?;
    Ok(are_ranges(ranges.as_slice(), &[(begin, end)]))
}

#[test]
fn between_two_bounds_is_a_range_or_nothing(rt: HostRuntime) {
    let alloc = rt.alloc();
    let found = made_of(
        KeyRange::new(alloc, b"a", b"c"),
        |range| is_between(alloc, range),
    );
    same(&rt, found, Ok(true));
}

// Whether the range of the key a alone ends right after it.
fn is_single(alloc: Global) -> Result<bool, Refusal> {
    let key = Key::new(alloc, b"a")?;
    let range = KeyRange::single(alloc, &key)?;
    Ok(key.bytes() == b"a".as_slice() && has_bounds(&range, b"a", b"a\0"))
}

// The range of each key alone.
static SINGLES: [Bounds; 5] = [
    (b"b", b"b\0"),
    (b"", b"\0"),
    (b"aa", b"aa\0"),
    (b"a\0", b"a\0\0"),
    (b"b", b"b\0"),
];

// Whether several keys, of which not all ends stand in one piece of memory, have these ranges.
fn are_singles(alloc: Global) -> Result<bool, Refusal> {
    let keys = keys_of(alloc, &[b"b", b"", b"aa", b"a\0", b"b"]);
    let ranges = made_of(keys, |keys| KeyRange::singles(alloc, keys.as_slice()))?;
    Ok(are_ranges(&ranges, SINGLES.as_slice()))
}

// Whether the key lies in the range, and the parts of this through it and behind it have the bounds.
fn are_parts(
    alloc: Global,
    range: &KeyRange,
    key: &Key,
    reverse: bool,
    bounds: [Bounds; 2],
) -> Result<bool, Refusal> {
    if !range.contains(key) {
        return Ok(false);
    }
    let (through, behind) = both(
        range.through(alloc, reverse, key),
        range.behind(alloc, reverse, key),
    )?;
    let [first, second] = bounds;
    Ok(has_bounds(&through, first.0, first.1) && has_bounds(&behind, second.0, second.1))
}

// Whether the keys from a to d are so cut at b.
fn is_cut(alloc: Global, reverse: bool, bounds: [Bounds; 2]) -> Result<bool, Refusal> {
    let (range, key) = both(KeyRange::new(alloc, b"a", b"d"), Key::new(alloc, b"b"))?;
    are_parts(alloc, &range, &key, reverse, bounds)
}

#[test]
fn range_is_cut_at_a_key(rt: HostRuntime) {
    let alloc = rt.alloc();
    let found = [
        is_single(alloc),
        are_singles(alloc),
        is_cut(alloc, false, [(b"a", b"b\0"), (b"b\0", b"d")]),
        is_cut(alloc, true, [(b"b", b"d"), (b"a", b"b")]),
    ];
    same(&rt, found, [Ok(true), Ok(true), Ok(true), Ok(true)]);
}

fn add_to_tree(tree: &mut TreeRangeSet, alloc: Global, bounds: Bounds) -> Result<(), Refusal> {
    let range = KeyRange::new(alloc, bounds.0, bounds.1)?;
    tree.add(&range)
}

// The set of the ranges, which are added one after another.
fn tree_of(alloc: Global, bounds: &[Bounds]) -> Result<TreeRangeSet, Refusal> {
    let mut tree = TreeRangeSet::new(alloc);
    for bounds in bounds {
        add_to_tree(&mut tree, alloc, *bounds)?;
    }
    Ok(tree)
}

// The keys from a to d, of which the first come in two ranges that touch.
fn a_to_d(alloc: Global) -> Result<RangeSet, Refusal> {
    set_of(alloc, &[(b"a", b"c"), (b"c", b"d"), (b"e", b"e")])
}

// A set of ranges.
#[derive(Clone, Copy)]
enum Made {
    // The set of the keys from a to d.
    Set,
    // The range from a to d without the other one.
    Minus(Bounds),
    // That set, out of which the range was taken.
    Without(Bounds),
    // What of the range from a to z is not in the tree of the ranges.
    Outside(&'static [Bounds]),
    // The set of the first ranges, to which the others are added at once.
    Joined(&'static [Bounds], &'static [Bounds]),
    // The set of the first ranges, to which that of the others is added.
    Both(&'static [Bounds], &'static [Bounds]),
}

fn minus(alloc: Global, other: Bounds) -> Result<RangeSet, Refusal> {
    let (range, other) = both(
        KeyRange::new(alloc, b"a", b"d"),
        KeyRange::new(alloc, other.0, other.1),
    )?;
    range.minus(alloc, &other)
}

fn without(alloc: Global, other: Bounds) -> Result<RangeSet, Refusal> {
    let other = KeyRange::new(alloc, other.0, other.1)?;
    after(a_to_d(alloc), |set| set.remove(&other))
}

fn outside(alloc: Global, bounds: &[Bounds]) -> Result<RangeSet, Refusal> {
    let (range, tree) = both(KeyRange::new(alloc, b"a", b"z"), tree_of(alloc, bounds))?;
    tree.outside(alloc, &range)
}

fn make_ranges(alloc: Global, bounds: &[Bounds]) -> Result<Vec<KeyRange>, Refusal> {
    let mut ranges = Vec::new(alloc);
    for (begin, end) in bounds {
        ranges.push(KeyRange::new(alloc, begin, end)?)?;
    }
    Ok(ranges)
}

fn joined(alloc: Global, bounds: &[Bounds], others: &[Bounds]) -> Result<RangeSet, Refusal> {
    let (mut set, others) = both(set_of(alloc, bounds), make_ranges(alloc, others))?;
    set.add_all(others)?;
    Ok(set)
}

fn both_sets(alloc: Global, bounds: &[Bounds], others: &[Bounds]) -> Result<RangeSet, Refusal> {
    let (mut set, others) = both(set_of(alloc, bounds), set_of(alloc, others))?;
    set.add_set(&others)?;
    Ok(set)
}

fn set_made(alloc: Global, how: Made) -> Result<RangeSet, Refusal> {
    match how {
        Made::Set => a_to_d(alloc),
        Made::Minus(other) => minus(alloc, other),
        Made::Without(other) => without(alloc, other),
        Made::Outside(bounds) => outside(alloc, bounds),
        Made::Joined(bounds, others) => joined(alloc, bounds, others),
        Made::Both(bounds, others) => both_sets(alloc, bounds, others),
    }
}

// Whether it is empty, and whether it is the set of just these ranges.
fn is_set(alloc: Global, how: Made, wanted: &[Bounds]) -> Result<[bool; 2], Refusal> {
    let set = set_made(alloc, how)?;
    let has_none = set.is_empty() && !set.has_points();
    Ok([has_none, are_ranges(set.iter().as_slice(), wanted)])
}

// The sets with their ranges. Ranges that touch are joined.
static SETS: [(Made, &'static [Bounds]); 11] = [
    (Made::Set, &[(b"a", b"d")]),
    (Made::Minus((b"b", b"c")), &[(b"a", b"b"), (b"c", b"d")]),
    (Made::Minus((b"d", b"e")), &[(b"a", b"d")]),
    (Made::Minus((b"a", b"e")), &[]),
    (Made::Without((b"b", b"c")), &[(b"a", b"b"), (b"c", b"d")]),
    (
        Made::Outside(&[(b"b", b"c"), (b"d", b"e")]),
        &[(b"a", b"b"), (b"c", b"d"), (b"e", b"z")],
    ),
    // Added ranges come in any order: one touches a range of the set, one lies in it, and one is empty.
    (
        Made::Joined(
            &[(b"f", b"k"), (b"s", b"t")],
            &[
                (b"p", b"q"),
                (b"g", b"h"),
                (b"m", b"m"),
                (b"k", b"l"),
                (b"a", b"b"),
            ],
        ),
        &[(b"a", b"b"), (b"f", b"l"), (b"p", b"q"), (b"s", b"t")],
    ),
    // Those that overlap or touch one another are joined, and with all of the set that they reach.
    (
        Made::Joined(
            &[(b"c", b"d"), (b"e", b"f"), (b"x", b"y")],
            &[(b"d", b"g"), (b"b", b"c"), (b"a", b"b"), (b"f", b"h")],
        ),
        &[(b"a", b"h"), (b"x", b"y")],
    ),
    (Made::Joined(&[(b"a", b"b")], &[]), &[(b"a", b"b")]),
    // A set that is added to an empty one, and to another one.
    (Made::Both(&[], &[(b"a", b"b")]), &[(b"a", b"b")]),
    (
        Made::Both(&[(b"a", b"b"), (b"x", b"y")], &[(b"b", b"c")]),
        &[(b"a", b"c"), (b"x", b"y")],
    ),
];

#[test]
fn sets_have_just_their_ranges(rt: HostRuntime) {
    for (how, wanted) in SETS.as_slice() {
        same(
            &rt,
            is_set(rt.alloc(), *how, wanted),
            Ok([wanted.is_empty(), true]),
        );
    }
}

// Whether the tree is the one range, and so is the list that it gives.
fn is_one(alloc: Global, tree: &TreeRangeSet, bounds: Bounds) -> bool {
    let has_one = match tree.iter().next() {
        Some(range) => has_bounds(range, bounds.0, bounds.1) && tree.iter().count() == 1,
        None => false,
    };
    match tree.to_set(alloc) {
        Ok(set) => has_one && !tree.is_empty() && are_ranges(set.iter().as_slice(), &[bounds]),
        Err(_why) => false,
    }
}

// Whether the tree of the ranges, to which the others are added at once, is the one range.
fn joins(
    alloc: Global,
    bounds: &[Bounds],
    others: &[Bounds],
    wanted: Bounds,
) -> Result<bool, Refusal> {
    let (others, mut tree) = both(set_of(alloc, others), tree_of(alloc, bounds))?;
    Ok(tree.add_all(&others).is_ok() && is_one(alloc, &tree, wanted))
}

// The ranges of a tree, those that are added to it at once, and the range that it is then.
static TREES: [(&'static [Bounds], &'static [Bounds], Bounds); 5] = [
    // Ranges that touch are joined, and an empty one adds nothing.
    (
        &[(b"a", b"c"), (b"c", b"d"), (b"e", b"e")],
        &[],
        (b"a", b"d"),
    ),
    // A range swallows those that it touches.
    (
        &[(b"a", b"b"), (b"e", b"g"), (b"c", b"d"), (b"b", b"f")],
        &[],
        (b"a", b"g"),
    ),
    // A range in a tree adds nothing.
    (&[(b"a", b"d"), (b"b", b"c")], &[], (b"a", b"d")),
    (&[(b"b", b"c")], &[(b"a", b"b"), (b"c", b"d")], (b"a", b"d")),
    (&[(b"b", b"c")], &[], (b"b", b"c")),
];

// Whether the range, which is added to the tree from a to b and to an empty one, makes the keys from a to c of the
// first one and those from b to c of the other.
fn joins_both(alloc: Global, first: &mut TreeRangeSet, range: &KeyRange) -> bool {
    let mut second = TreeRangeSet::new(alloc);
    TreeRangeSet::add_to_both(first, &mut second, range).is_ok()
        && is_one(alloc, first, (b"a", b"c"))
        && is_one(alloc, &second, (b"b", b"c"))
}

// Whether the keys from b to c do so.
fn are_both_added(alloc: Global) -> Result<bool, Refusal> {
    let (range, mut first) = both(
        KeyRange::new(alloc, b"b", b"c"),
        tree_of(alloc, &[(b"a", b"b")]),
    )?;
    Ok(joins_both(alloc, &mut first, &range))
}

#[test]
fn trees_join_the_ranges_that_touch(rt: HostRuntime) {
    let alloc = rt.alloc();
    for (bounds, others, wanted) in TREES.as_slice() {
        same(&rt, joins(alloc, bounds, others, *wanted), Ok(true));
    }
    same(&rt, are_both_added(alloc), Ok(true));
}

// The list of the one byte.
fn one_item(alloc: Global, byte: u8) -> Result<Items<u8>, Refusal> {
    let mut items = Items::new(alloc);
    items.hold(1)?;
    items.push(byte)?;
    Ok(items)
}

// Whether a key, a set and a list equal their copies.
fn equal_copies(alloc: Global) -> Result<[bool; 3], Refusal> {
    let ((key, set), items) = both(
        both(Key::new(alloc, b"a"), a_to_d(alloc)),
        one_item(alloc, 7),
    )?;
    Ok([
        equals_copy(&key, key.clone()),
        equals_copy(&set, set.clone()),
        equals_copy(&items, items.clone()),
    ])
}

// The items of the vector of 1 and 2, for which no room is made.
fn two_items(alloc: Global) -> Result<Vec<u8>, Refusal> {
    let mut items = Items::from_vec(vec![in alloc; 1u8, 2]?);
    items.hold(7)?;
    Ok(items.into_vec())
}

// Whether a list has its one item, and that of a vector has those of the vector.
fn have_items(alloc: Global) -> Result<[bool; 2], Refusal> {
    let (one, two) = both(one_item(alloc, 7), two_items(alloc))?;
    Ok([
        one.as_slice() == [7].as_slice() && one.len() == 1 && !one.is_empty(),
        two.as_slice() == [1, 2].as_slice(),
    ])
}

// Whether a list that is shared has its one item, equals its copy, and isn't empty as one of no items is.
fn shares_items(alloc: Global) -> Result<[bool; 3], Refusal> {
    let (items, none) = both(
        shared(alloc, one_item(alloc, 7)?),
        shared(alloc, Items::<u8>::new(alloc)),
    )?;
    Ok([
        items.as_slice() == [7].as_slice() && items.len() == 1,
        equals_copy(&items, items.clone()),
        none.is_empty() && !items.is_empty(),
    ])
}

#[test]
fn copies_are_equal_and_items_come_in_order(rt: HostRuntime) {
    let alloc = rt.alloc();
    same(&rt, equal_copies(alloc), Ok([true, true, true]));
    same(&rt, have_items(alloc), Ok([true, true]));
    same(&rt, shares_items(alloc), Ok([true, true, true]));
}

// The set of the ranges, which are shared, and a copy of it with one range more.
fn shared_and_grown(alloc: Global, bounds: &[Bounds]) -> Result<(RangeSet, RangeSet), Refusal> {
    let (mut set, range) = both(set_of(alloc, bounds), KeyRange::new(alloc, b"f", b"g"))?;
    set.share();
    let mut copy = set.clone()?;
    copy.add(&range)?;
    Ok((set, copy))
}

// Whether the shared set of the ranges stays as it was and equals one that isn't shared, and the copy has these.
fn grow_apart(alloc: Global, bounds: &[Bounds], grown: &[Bounds]) -> Result<[bool; 3], Refusal> {
    let ((set, copy), own) = both(shared_and_grown(alloc, bounds), set_of(alloc, bounds))?;
    Ok([
        are_ranges(set.iter().as_slice(), bounds),
        set == own && set != copy,
        are_ranges(copy.iter().as_slice(), grown),
    ])
}

// The ranges of a set, and those of its copy with the range from f to g: of one range, of several, and of none.
static GROWN: [(&[Bounds], &[Bounds]); 3] = [
    (&[(b"a", b"d")], &[(b"a", b"d"), (b"f", b"g")]),
    (
        &[(b"a", b"d"), (b"h", b"i")],
        &[(b"a", b"d"), (b"f", b"g"), (b"h", b"i")],
    ),
    (&[], &[(b"f", b"g")]),
];

#[test]
fn a_copy_of_a_shared_set_grows_alone(rt: HostRuntime) {
    let alloc = rt.alloc();
    for (bounds, grown) in GROWN.as_slice() {
        same(
            &rt,
            grow_apart(alloc, bounds, grown),
            Ok([true, true, true]),
        );
    }
}

// Whether the key behind the key a is a0, and how behind a key of so many bytes it ends.
fn next_of(alloc: Global, count: usize) -> Result<(bool, u32), Refusal> {
    let key = Key::new(alloc, b"a")?;
    let next = key.next(alloc)?;
    let long = long_key(alloc, count)?;
    Ok((next.bytes() == b"a\0".as_slice(), code_of(long.next(alloc))))
}

#[test]
fn behind_a_key_lies_the_next_one(rt: HostRuntime) {
    let alloc = rt.alloc();
    let found = [next_of(alloc, 9_999), next_of(alloc, 10_000)];
    same(&rt, found, [Ok((true, 0)), Ok((true, 2102))]);
}

// The bounds of the range of a prefix, and whether it has the prefix itself and the prefix with one byte more.
fn prefix_has(alloc: Global, prefix: Text, end: Text, longer: Text) -> Result<[bool; 3], Refusal> {
    let key = Key::new(alloc, prefix)?;
    let range = KeyRange::prefix(alloc, &key)?;
    Ok([
        has_bounds(&range, prefix, end),
        range.contains_text(prefix),
        range.contains_text(longer),
    ])
}

#[test]
fn range_of_a_prefix_ends_behind_all_that_begin_with_it(rt: HostRuntime) {
    let alloc = rt.alloc();
    let found = [
        prefix_has(alloc, b"", &[0xff], b"z"),
        prefix_has(alloc, b"a", b"b", b"az"),
        prefix_has(alloc, &[b'a', 0xff], b"b", &[b'a', 0xff, 0xff]),
        prefix_has(alloc, &[0xfe, 0xff, 0xff], &[0xff], &[0xfe, 0xff, 0xff, 0]),
        prefix_has(alloc, b"a", b"b", b"b"),
    ];
    let all = Ok([true, true, true]);
    same(&rt, found, [all, all, all, all, Ok([true, true, false])]);
}

// Whether it may be tried anew, and whether it may be committed, and the code that is left of it and what it handed
// back.
fn retries_of(why: Refusal) -> (bool, bool, u32) {
    let refused = Refused { why, back: 7u8 };
    (
        why.is_retryable(),
        why.is_maybe_committed(),
        Refusal::from(refused).code(),
    )
}

#[test]
fn refusals_tell_what_may_be_tried_anew(rt: HostRuntime) {
    let found = [
        retries_of(Refusal::NotCommitted),
        retries_of(Refusal::TransactionTooOld),
        retries_of(Refusal::FutureVersion),
        retries_of(Refusal::CommitUnknownResult),
        retries_of(Refusal::Closed),
    ];
    let wanted = [
        (true, false, 1020),
        (true, false, 1007),
        (true, false, 1009),
        (false, true, 1021),
        (false, false, 9013),
    ];
    same(&rt, found, wanted);
}

// Whether a refusal is written as the text, alone and with what is handed back.
fn is_written(alloc: Global, why: Refusal, text: &str) -> bool {
    let refused = Refused { why, back: 7u8 };
    match (format!(in alloc; "{why}"), format!(in alloc; "{refused}")) {
        (Ok(alone), Ok(with_back)) => alone.as_str() == text && with_back.as_str() == text,
        _ => false,
    }
}

// The code and the name of a refusal, and whether it is written as the text.
fn told(alloc: Global, why: Refusal, text: &str) -> (u32, &'static str, bool) {
    (why.code(), why.name(), is_written(alloc, why, text))
}

#[test]
fn refusals_have_codes_and_texts(rt: HostRuntime) {
    let text = "something that comes before this, numbered 5, has not come yet";
    let found = told(rt.alloc(), Refusal::NotYet(5), text);
    same(&rt, found, (9002, "NotYet", true));
    let text = "a versionstamped key is read before its commit";
    let found = told(rt.alloc(), Refusal::AccessedUnreadable, text);
    same(&rt, found, (1036, "AccessedUnreadable", true));
}
