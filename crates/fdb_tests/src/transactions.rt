// Transactions, batches, entries and what parts the keys, with known answers.
ghost use Rattle.std.specs.Prelude.{◌≡◌, All, None, IfOk};
ghost use Rattle.fdb_mutations.specs.Mutations.{mutation_fault};

use crate::asserting::same;
use fdb_keys::{Items, Key, KeyRange, RangeSet, Refusal, SharedList};
use fdb_making::{
    are_ranges, ask, ask_both, both, code_of, equals_copy, has_bounds, keys_of, legal_set, made_of,
    one_set, push, seal, set_of, shared, text_of,
};
use fdb_mutations::Mutation;
use fdb_txn::{
    Batch, Entry, Move, PLACE_LIMIT, Room, Sealed, Splits, Spot, TxnId, check_size, check_turn,
};
use std::alloc::{AllocError, Global};

// The version of an entry and the resolver to which its move goes, and whether it equals that of version 50 whose move
// goes to resolver 1.
const ENTRIES: &[(u64, u32, bool)] = &[(50, 1, true), (51, 1, false), (50, 2, false)];

const SPOTS: [Spot; 3] = [
    Spot::Entry {
        index: 0,
        place: 0,
        version: 50,
    },
    Spot::Entry {
        index: 0,
        place: 1,
        version: 50,
    },
    Spot::ReadOnly { version: 50 },
];

// How many bytes the last of a hundred sets has, and the size of the transaction with them, or why it is refused with
// how many mutations are back then: it has at most 10,000,000 bytes.
const SIZES: &[(usize, Result<u64, (u32, usize)>)] = &[
    (99_996, Ok(10_000_000)),
    (99_997, Err((2101, 100))),
];

// The same, and the code of the refusal where it is looked at before the transaction is sealed.
const CHECKS: &[(usize, u32)] = &[(99_996, 0), (99_997, 2101)];

// Splits, of which there may be as many pieces, and the code of their refusal: they rise, and none is empty.
const SPLITS: &[(&[&[u8]], usize, u32)] = &[
    (&[b"b", b"m"], 3, 0),
    (&[b"b", b"m"], 2, 9009),
    (&[b"", b"m"], 3, 9009),
    (&[b"m", b"b"], 3, 9009),
    (&[b"m", b"m"], 3, 9009),
];

// The pieces that the splits at b and m make, by their numbers: a key in each, and the bounds.
const PIECES: &[(usize, &[u8], [&[u8]; 2])] = &[
    (0, b"a", [b"", b"b"]),
    (1, b"b", [b"b", b"m"]),
    (2, b"z", [b"m", &[0xff]]),
];

// A transaction that read the keys from b to c, and writes the key a and the keys from x to y.
fn sealed(alloc: Global, number: u64) -> Result<Sealed, Refusal> {
    let reads = set_of(alloc, &[(b"b", b"c")])?;
    let writes = set_of(alloc, &[(b"x", b"y")])?;
    let mutations = one_set(alloc, b"a", b"one")?;
    let id = TxnId { session: 3, number };
    seal(alloc, id, 40, reads, writes, mutations)
}

// Sets of the keys `00` to `63` to 99,996 bytes each, but of the last one to as many.
fn hundred_sets(alloc: Global, last: usize) -> Result<Items<Mutation>, Refusal>
    ensures { IfOk result (λ mutations. All (λ mutation. mutation_fault mutation ≡ None) mutations) }
{
    let mut mutations = Items::new(alloc);
    for key in 0..100u8 {
        let count = if key < 99 { 99_996 } else { last };
        let value = text_of(alloc, b'v', count)?;
        push(&mut mutations, legal_set(alloc, &[key], value.as_slice())?)?;
    }
    Ok(mutations)
}

// The size of the transaction with those sets alone, or why it is refused; then all its mutations are back.
fn size_of_hundred(alloc: Global, last: usize) -> Result<Result<u64, (u32, usize)>, Refusal> {
    let mutations = shared(alloc, hundred_sets(alloc, last)?)?;
    let id = TxnId {
        session: 0,
        number: 0,
    };
    let (reads, writes) = (RangeSet::new(alloc), RangeSet::new(alloc));
    match Sealed::new(alloc, id, 0, reads, writes, mutations) {
        Ok(sealed) => Ok(Ok(sealed.size())),
        Err(refused) => Ok(Err((refused.why.code(), refused.back.mutations.len()))),
    }
}

// The write set of those sets.
fn writes_of_hundred(alloc: Global) -> Result<RangeSet, Refusal> {
    let mut writes = RangeSet::new(alloc);
    for key in 0..100u8 {
        writes.add(&KeyRange::new(alloc, &[key], &[key, 0])?)?;
    }
    Ok(writes)
}

// The code of what is answered before the sets alone are sealed.
fn check_hundred(alloc: Global, last: usize) -> Result<u32, Refusal> {
    let (writes, mutations) = both(writes_of_hundred(alloc), hundred_sets(alloc, last))?;
    let reads = RangeSet::new(alloc);
    Ok(code_of(check_size(&reads, &writes, mutations.as_slice())))
}

// The transactions with the numbers 0 and 1 of one session.
fn two_places(alloc: Global) -> Result<Batch, Refusal> {
    let mut places = Items::new(alloc);
    for number in 0..2 {
        push(&mut places, sealed(alloc, number)?)?;
    }
    if places.len() > PLACE_LIMIT {
        return Err(Refusal::BookFull);
    }
    Ok(Batch::new(shared(alloc, places)?))
}

fn one_move(alloc: Global, to: u32) -> Result<SharedList<Move>, Refusal> {
    let range = KeyRange::new(alloc, b"m", b"n")?;
    let mut moves = Items::new(alloc);
    push(&mut moves, Move { range, to })?;
    shared(alloc, moves)
}

// An entry of two places, with a move to the resolver.
fn entry(alloc: Global, version: u64, to: u32) -> Result<Entry, Refusal> {
    let moves = one_move(alloc, to)?;
    let batch = two_places(alloc)?;
    Ok(Entry {
        version,
        prev: 0,
        horizon: 0,
        moves,
        batch,
    })
}

// Whether the copies are those of the entry's moves.
fn are_moves_of(entry: &Entry, copies: Result<Items<Move>, AllocError>) -> bool {
    match copies {
        Ok(copies) => copies.as_slice() == entry.moves.as_slice(),
        Err(_error) => false,
    }
}

fn sets_a_to_one(mutations: &[Mutation]) -> bool {
    match mutations {
        [Mutation::Set { key, value }] => key.bytes() == b"a".as_slice()
            && value.as_slice() == b"one".as_slice(),
        _ => false,
    }
}

// What the transaction has.
fn told_of(sealed: &Sealed) -> (TxnId, u64, [bool; 3]) {
    let reads = are_ranges(sealed.reads().iter().as_slice(), &[(b"b", b"c")]);
    let writes = are_ranges(
        sealed.writes().iter().as_slice(),
        &[(b"a", b"a\0"), (b"x", b"y")],
    );
    let has = [reads, writes, sets_a_to_one(sealed.mutations())];
    (sealed.id(), sealed.read_version(), has)
}

fn are_in_order(places: &[Sealed]) -> bool {
    match places {
        [first, second] => [first.id().number, second.id().number] == [0, 1],
        _ => false,
    }
}

// The codes for the splits, where they are checked and where they are made.
fn split_codes(alloc: Global, texts: &[&[u8]], most: usize) -> Result<[u32; 2], u32> {
    ask(keys_of(alloc, texts), |keys| {
        let check = code_of(Splits::check(keys.as_slice(), most));
        [check, code_of(Splits::new(alloc, keys.as_slice(), most))]
    })
}

// Whether the key lies in the piece of the number, also as a range's begin, and the piece has the bounds.
fn is_piece(
    alloc: Global,
    splits: &Splits,
    number: usize,
    key: &[u8],
    bounds: [&[u8]; 2],
) -> Result<bool, u32> {
    ask_both(
        Key::new(alloc, key),
        splits.piece(alloc, number),
        |key, range| {
            splits.piece_of(key) == number
                && splits.piece_of_text(key.bytes()) == number
                && has_bounds(range, bounds[0], bounds[1])
        },
    )
}

// The number of splits, whether each piece is the one, and the code for one more.
fn told_of_splits(alloc: Global, splits: &Splits) -> (usize, bool, u32) {
    let mut are_pieces = true;
    for (number, key, bounds) in PIECES {
        are_pieces = are_pieces && is_piece(alloc, splits, *number, key, *bounds) == Ok(true);
    }
    (
        splits.as_slice().len(),
        are_pieces,
        code_of(splits.piece(alloc, PIECES.len())),
    )
}

// The code of the refusal of the item and the item that is handed back, or nothing where it waits.
fn refused_item(room: &mut Room<u32>, prev: u64, item: u32) -> Option<(u32, u32)> {
    match room.put(prev, item) {
        Ok(()) => None,
        Err(refused) => Some((refused.why.code(), refused.back)),
    }
}

// The keys of the mutations join the writes.
#[test]
fn sealed_transactions_have_what_was_given(rt: HostRuntime) {
    let alloc = rt.alloc();
    let found = ask_both(
        sealed(alloc, 7),
        two_places(alloc),
        |sealed, batch| (told_of(sealed), are_in_order(batch.as_slice())),
    );
    let id = TxnId {
        session: 3,
        number: 7,
    };
    same(&rt, found, Ok(((id, 40, [true; 3]), true)));
}

#[test]
fn entries_are_equal_by_versions_and_moves(rt: HostRuntime) {
    let alloc = rt.alloc();
    let copies = ask(entry(alloc, 50, 1), |entry| {
        let moves = Move::copies(alloc, entry.moves.as_slice());
        [
            equals_copy(entry, entry.clone()),
            are_moves_of(entry, moves),
        ]
    });
    same(&rt, copies, Ok([true; 2]));
    for (version, to, equal) in ENTRIES {
        let found = ask_both(
            entry(alloc, 50, 1),
            entry(alloc, *version, *to),
            |first, other| first == other,
        );
        same(&rt, (*version, *to, found), (*version, *to, Ok(*equal)));
    }
}

#[test]
fn spots_of_one_version_differ(rt: HostRuntime) {
    let [first, second, read_only] = SPOTS;
    same(
        &rt,
        [first == first, first == second, first == read_only],
        [true, false, false],
    );
}

#[test]
fn transactions_have_at_most_10_000_000_bytes(rt: HostRuntime) {
    for (last, wanted) in SIZES {
        same(&rt, size_of_hundred(rt.alloc(), *last), Ok(*wanted));
    }
    for (last, code) in CHECKS {
        same(&rt, check_hundred(rt.alloc(), *last), Ok(*code));
    }
}

#[test]
fn splits_part_the_keys(rt: HostRuntime) {
    let alloc = rt.alloc();
    for (texts, most, code) in SPLITS {
        same(&rt, split_codes(alloc, texts, *most), Ok([*code; 2]));
    }
    let splits = made_of(
        keys_of(alloc, &[b"b", b"m"]),
        |keys| Splits::new(alloc, keys.as_slice(), 3),
    );
    let found = ask(splits, |splits| told_of_splits(alloc, splits));
    same(&rt, found, Ok((2, true, 9009)));
}

#[test]
fn items_wait_for_the_one_before(rt: HostRuntime) {
    let mut room = Room::new(rt.alloc());
    let refused = [
        refused_item(&mut room, 100, 1),
        refused_item(&mut room, 0, 2),
        refused_item(&mut room, 0, 3),
    ];
    let turn = code_of(check_turn(100, 100));
    let ready = [room.ready(0), room.ready(0), room.ready(100)];
    let wanted = ([None, None, Some((9003, 3))], 0, [Some(2), None, Some(1)]);
    same(&rt, (refused, turn, ready), wanted);
}
