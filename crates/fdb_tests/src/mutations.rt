// Mutations and plain maps with known answers.
use crate::asserting::same;
use bytes::Bytes;
use fdb_keys::{Items, Key, KeyRange, Refusal};
use fdb_making::{
    apply, ask, ask_both, code_of, equals_copy, filled, has_bounds, made_of, text_of,
};
use fdb_mutations::{Mutation, PlainMap, Stamp, copied, one_more, page_of};
use std::alloc::Global;

type Text = &'static [u8];

// A mutation of the value of a.
#[derive(Clone, Copy)]
enum Kind {
    Set,
    Add,
    And,
    Or,
    Xor,
    Max,
    Min,
    ByteMax,
    ByteMin,
    CompareAndClear,
}

fn mutation_of(alloc: Global, kind: Kind, operand: &[u8]) -> Result<Mutation, Refusal> {
    match kind {
        Kind::Set => Mutation::set(alloc, b"a", operand),
        Kind::Add => Mutation::add(alloc, b"a", operand),
        Kind::And => Mutation::and(alloc, b"a", operand),
        Kind::Or => Mutation::or(alloc, b"a", operand),
        Kind::Xor => Mutation::xor(alloc, b"a", operand),
        Kind::Max => Mutation::max(alloc, b"a", operand),
        Kind::Min => Mutation::min(alloc, b"a", operand),
        Kind::ByteMax => Mutation::byte_max(alloc, b"a", operand),
        Kind::ByteMin => Mutation::byte_min(alloc, b"a", operand),
        Kind::CompareAndClear => Mutation::compare_and_clear(alloc, b"a", operand),
    }
}

// The code of the refusal, or 0 where the mutation is a legal one, and the size.
fn code_and_size(mutation: Result<Mutation, Refusal>) -> Result<(u32, u64), u32> {
    ask(
        mutation,
        |mutation| (code_of(mutation.check()), mutation.size()),
    )
}

// The same of one with as many bytes.
fn of_long(alloc: Global, kind: Kind, count: usize) -> Result<(u32, u64), u32> {
    match text_of(alloc, 1, count) {
        Ok(operand) => code_and_size(mutation_of(alloc, kind, operand.as_slice())),
        Err(why) => Err(why.code()),
    }
}

static LONG: [(Kind, usize, (u32, u64)); 6] = [
    // Values have at most 100,000 bytes.
    (Kind::Set, 100_000, (0, 100_001)),
    (Kind::Set, 100_001, (2103, 100_002)),
    // Added numbers have 1 to 16 bytes.
    (Kind::Add, 0, (9008, 1)),
    (Kind::Add, 16, (0, 17)),
    (Kind::Add, 17, (9008, 18)),
    (Kind::Add, 100_001, (2103, 100_002)),
];

#[test]
fn values_and_operands_have_their_limits(rt: HostRuntime) {
    let alloc = rt.alloc();
    for (kind, count, wanted) in LONG.as_slice() {
        same(&rt, of_long(alloc, *kind, *count), Ok(*wanted));
    }
    same(
        &rt,
        code_and_size(Mutation::set(alloc, b"b", b"one")),
        Ok((0, 4)),
    );
}

// The same of a stamped value with as many bytes, whose stamp is to stand at the offset.
fn stamped_long(alloc: Global, count: usize, offset: u32) -> Result<(u32, u64), u32> {
    match text_of(alloc, 1, count) {
        Ok(operand) => { code_and_size(Mutation::stamped(alloc, b"a", operand.as_slice(), offset)) }
        Err(why) => Err(why.code()),
    }
}

// How many bytes an operand has, the offset of its stamp, and what that comes to.
static STAMPED: [(usize, u32, (u32, u64)); 9] = [
    (10, 0, (0, 11)),
    (9, 0, (9008, 10)),
    (0, 0, (9008, 1)),
    (12, 2, (0, 13)),
    (12, 3, (9008, 13)),
    (12, u32::MAX, (9008, 13)),
    // Values have at most 100,000 bytes, and that is looked at first.
    (100_000, 99_990, (0, 100_001)),
    (100_000, 99_991, (9008, 100_001)),
    (100_001, u32::MAX, (2103, 100_002)),
];

#[test]
fn stamps_have_room_in_their_operands(rt: HostRuntime) {
    for (count, offset, wanted) in STAMPED.as_slice() {
        same(
            &rt,
            (count, stamped_long(rt.alloc(), *count, *offset)),
            (count, Ok(*wanted)),
        );
    }
}

// What the mutation with the stamp of version 258 and place 3 makes of a where that has no value.
fn stamped_at_a(
    alloc: Global,
    mutation: Result<Mutation, Refusal>,
) -> Result<Option<Bytes>, Refusal> {
    let mutation = mutation?;
    let stamped = mutation.stamp(alloc, Stamp::new(258, 3));
    drop(mutation);
    made_of(
        stamped.map_err(Refusal::from),
        |stamped| made_at_a(alloc, stamped),
    )
}

// The same on a map that had a value there.
fn put_stamped(
    alloc: Global,
    mutation: Result<Mutation, Refusal>,
) -> Result<Option<Bytes>, Refusal> {
    let mut map = filled(alloc)?;
    let mutation = mutation?;
    let put = map.apply_stamped(&mutation, Stamp::of_place(258, 3));
    drop(mutation);
    put?;
    let key = Key::new(alloc, b"a")?;
    Ok(copied(map.get(&key))?)
}

// An operand, the offset of its stamp, and what it becomes.
static BECOMES: [(Text, u32, Text); 4] = [
    (b"0123456789", 0, &[0, 0, 0, 0, 0, 0, 1, 2, 0, 3]),
    (
        b"x0123456789y",
        1,
        &[b'x', 0, 0, 0, 0, 0, 0, 1, 2, 0, 3, b'y'],
    ),
    (
        b"xy0123456789",
        2,
        &[b'x', b'y', 0, 0, 0, 0, 0, 0, 1, 2, 0, 3],
    ),
    // Of one without room as much is left as lies beside its stamp.
    (b"0123", 2, &[b'0', b'1', 0, 0, 0, 0, 0, 0, 1, 2, 0, 3]),
];

// Whether the mutation waits for a stamp, and whether it does once it has one.
fn waits(
    alloc: Global,
    mutation: Result<Mutation, Refusal>,
) -> Result<(bool, Result<bool, u32>), u32> {
    ask(mutation, |mutation| {
        let stamped = mutation.stamp(alloc, Stamp::new(258, 3));
        (
            mutation.is_stamped(),
            ask(
                stamped.map_err(Refusal::from),
                |stamped| stamped.is_stamped(),
            ),
        )
    })
}

#[test]
fn stamped_values_wait_until_they_are_stamped(rt: HostRuntime) {
    let alloc = rt.alloc();
    same(
        &rt,
        [
            waits(alloc, Mutation::stamped(alloc, b"a", b"0123456789", 0)),
            waits(alloc, Mutation::set(alloc, b"a", b"0123456789")),
        ],
        [Ok((true, Ok(false))), Ok((false, Ok(false)))],
    );
}

#[test]
fn stamps_take_the_place_of_ten_bytes(rt: HostRuntime) {
    let alloc = rt.alloc();
    for (operand, offset, wanted) in BECOMES.as_slice() {
        let wanted = Ok(Some(Bytes::from_static(*wanted)));
        let made = stamped_at_a(alloc, Mutation::stamped(alloc, b"a", operand, *offset));
        let put = put_stamped(alloc, Mutation::stamped(alloc, b"a", operand, *offset));
        assert!(rt; made == wanted && put == wanted, "at {offset}");
    }
    let set = stamped_at_a(alloc, Mutation::set(alloc, b"a", b"0123456789"));
    assert!(rt; set == Ok(Some(Bytes::from_static(b"0123456789"))));
    same(
        &rt,
        [
            Stamp::new(u64::MAX, u16::MAX).bytes(),
            Stamp::of_place(1, 65_537).bytes(),
        ],
        [[255; 10], [0, 0, 0, 0, 0, 0, 0, 1, 0, 1]],
    );
}

// What the mutation makes of a value, or of no value.
fn turned(
    alloc: Global,
    kind: Kind,
    operand: Text,
    value: Option<Text>,
) -> Result<Option<Bytes>, Refusal> {
    let value = value.map(Bytes::from_static);
    made_of(
        mutation_of(alloc, kind, operand),
        |mutation| mutation.apply_value(alloc, value.as_ref()),
    )
}

// A mutation with its operand, a value, and what it makes of that.
static VALUES: [(Kind, Text, Option<Text>, Option<Text>); 17] = [
    // Sums have the length of the operand.
    (Kind::Add, &[1, 0], Some(&[0xff]), Some(&[0, 1])),
    (Kind::Add, &[1], Some(&[0xff, 7]), Some(&[0])),
    (Kind::Add, &[5], None, Some(&[5])),
    // Bits are those of the fitted value.
    (Kind::And, &[0x0f, 0x0f], Some(&[0xff]), Some(&[0x0f, 0])),
    (Kind::Or, &[], Some(&[7]), Some(&[])),
    (Kind::Xor, &[0xff], Some(&[0x0f, 1]), Some(&[0xf0])),
    // The operand stands where no value did.
    (Kind::And, &[0x0f], None, Some(&[0x0f])),
    (Kind::Xor, &[0xff], None, Some(&[0xff])),
    (Kind::Min, &[5], None, Some(&[5])),
    // Numbers are compared from the last byte.
    (Kind::Max, &[1, 2], Some(&[0xff, 1]), Some(&[1, 2])),
    (Kind::Min, &[1, 2], Some(&[0xff, 1]), Some(&[0xff, 1])),
    (Kind::Min, &[5, 0], Some(&[9]), Some(&[5, 0])),
    // Bytes are compared from the first one.
    (Kind::ByteMax, &[1, 2], Some(&[0xff, 1]), Some(&[0xff, 1])),
    (Kind::ByteMin, &[1, 2], Some(&[0xff, 1]), Some(&[1, 2])),
    // Only an equal value is cleared.
    (Kind::CompareAndClear, &[7], Some(&[7]), None),
    (Kind::CompareAndClear, &[7], Some(&[8]), Some(&[8])),
    // A set gives its value.
    (Kind::Set, &[1, 2], Some(&[3]), Some(&[1, 2])),
];

// What the mutation makes of a where that has no value.
fn made_at_a(alloc: Global, mutation: &Mutation) -> Result<Option<Bytes>, Refusal> {
    let key = Key::new(alloc, b"a")?;
    mutation.value_after(alloc, &key, None)
}

#[test]
fn mutations_make_values_of_values(rt: HostRuntime) {
    let alloc = rt.alloc();
    for (kind, operand, value, wanted) in VALUES.as_slice() {
        same(
            &rt,
            turned(alloc, *kind, operand, *value),
            Ok(wanted.map(Bytes::from_static)),
        );
    }
    let added = made_of(
        Mutation::add(alloc, b"a", &[5]),
        |mutation| made_at_a(alloc, mutation),
    );
    same(&rt, added, Ok(Some(Bytes::from_static(&[5]))));
}

// The pairs of the keys from a up to the end.
fn pairs(
    map: &PlainMap,
    alloc: Global,
    end: Text,
    limit: u32,
    reverse: bool,
) -> Result<Items<(Key, Bytes)>, Refusal> {
    let range = KeyRange::new(alloc, b"a", end)?;
    map.range(&range, limit, reverse)
}

// Whether there is just this one pair.
fn is_pair(pairs: &[(Key, Bytes)], key: Text, value: u8) -> bool {
    match pairs {
        [(found, there)] => found.bytes() == key && there.as_slice() == [value].as_slice(),
        _ => false,
    }
}

// Whether the call gave just this one pair.
fn gave(answer: Result<Items<(Key, Bytes)>, Refusal>, key: Text, value: u8) -> bool {
    match answer {
        Ok(pairs) => is_pair(pairs.as_slice(), key, value),
        Err(_why) => false,
    }
}

// How many pairs before c a page has, and whether there is a further one.
fn page_before_c(map: &PlainMap, alloc: Global, limit: u32) -> Result<(usize, bool), Refusal> {
    let range = KeyRange::new(alloc, b"", b"c")?;
    let page = map.page(&range, limit, false)?;
    Ok((page.0.len(), page.1))
}

// The same, cut out of one pair more.
fn cut_before_c(map: &PlainMap, alloc: Global, limit: u32) -> Result<(usize, bool), Refusal> {
    let range = KeyRange::new(alloc, b"", b"c")?;
    let pairs = map.range(&range, one_more(limit), false)?;
    let page = page_of(pairs, limit);
    Ok((page.0.len(), page.1))
}

// Whether the keys before c are read in both orders, and c alone is left when those are cleared.
fn is_read(alloc: Global) -> Result<[bool; 3], Refusal> {
    let mut map = filled(alloc)?;
    let forward = gave(pairs(&map, alloc, b"c", 1, false), b"a", 1);
    let backward = gave(pairs(&map, alloc, b"c", 1, true), b"b", 2);
    let is_cleared = apply(&mut map, Mutation::clear_range(alloc, b"a", b"c")).is_ok();
    let others = gave(pairs(&map, alloc, b"z", 0, false), b"c", 3);
    Ok([forward, backward, is_cleared && others])
}

// Pages of at most 1, of at most 2 and of all pairs, read and cut.
fn pages(alloc: Global) -> Result<[Result<(usize, bool), Refusal>; 6], Refusal> {
    let map = filled(alloc)?;
    Ok([
        page_before_c(&map, alloc, 1),
        page_before_c(&map, alloc, 2),
        page_before_c(&map, alloc, 0),
        cut_before_c(&map, alloc, 1),
        cut_before_c(&map, alloc, 2),
        cut_before_c(&map, alloc, 0),
    ])
}

#[test]
fn maps_are_read_in_both_orders_and_by_pages(rt: HostRuntime) {
    let alloc = rt.alloc();
    same(&rt, is_read(alloc), Ok([true, true, true]));
    same(
        &rt,
        pages(alloc),
        Ok([
            Ok((1, true)),
            Ok((2, false)),
            Ok((2, false)),
            Ok((1, true)),
            Ok((2, false)),
            Ok((2, false)),
        ]),
    );
}

// The mutation cut to the keys from m up to t.
fn clipped(alloc: Global, mutation: &Mutation) -> Result<Option<Mutation>, Refusal> {
    let range = KeyRange::new(alloc, b"m", b"t")?;
    mutation.clip(&range)
}

// Whether there is a clear of the keys from m up to t, if one is wanted, and else nothing.
fn is_clear(mutation: Option<&Mutation>, is_wanted: bool) -> bool {
    match mutation {
        Some(Mutation::ClearRange { range }) => is_wanted && has_bounds(range, b"m", b"t"),
        Some(_) => false,
        None => !is_wanted,
    }
}

// Whether the mutation is so cut.
fn is_cut(
    alloc: Global,
    mutation: Result<Mutation, Refusal>,
    is_wanted: bool,
) -> Result<bool, u32> {
    ask(
        made_of(mutation, |mutation| clipped(alloc, mutation)),
        |cut| is_clear(cut.as_ref(), is_wanted),
    )
}

// Whether a set of a equals its copy, and a clear of a.
fn are_equal(alloc: Global) -> Result<[bool; 2], u32> {
    ask_both(
        Mutation::set(alloc, b"a", b"one"),
        Mutation::clear(alloc, b"a"),
        |set, clear| [equals_copy(set, set.clone()), set == clear],
    )
}

#[test]
fn mutations_are_cut_and_copied(rt: HostRuntime) {
    let alloc = rt.alloc();
    let cut = [
        is_cut(alloc, Mutation::clear_range(alloc, b"a", b"z"), true),
        is_cut(alloc, Mutation::set(alloc, b"b", b"one"), false),
    ];
    same(&rt, cut, [Ok(true), Ok(true)]);
    same(&rt, are_equal(alloc), Ok([true, false]));
    let bytes = Some(Bytes::from_static(b"one"));
    same(
        &rt,
        equals_copy(&bytes, fdb_mutations::copied(bytes.as_ref())),
        true,
    );
}
