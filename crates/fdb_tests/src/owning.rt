// Owners with known answers: of two resolvers, of which the second owns the keys from m on at first.
ghost use Rattle.std.specs.Prelude.{◌≡◌, ◌<◌, ◌≤◌, ◌^◌, All, IfOk};
ghost use Rattle.fdb_owners.specs.Ownership.{resolvers_of};

use crate::asserting::same;
use fdb_keys::{Items, Key, KeyRange, RangeSet, Refusal};
use fdb_making::{are_ranges, ask, ask_mut, both, code_of, keys_of, made_of, push, set_of};
use fdb_owners::{Owned, Owners};
use fdb_txn::Move;
use std::alloc::Global;

// Ranges, by their bounds.
type Bounds = &'static [(&'static [u8], &'static [u8])];

// A part of a resolver, of these ranges.
type PartOf = (u32, Bounds);

// The version below which all expired, and who owned the key p at some version above the next one and at most the last
// one, while it went over at version 300.
const READERS: &[(u64, u64, u64, &[PartOf])] = &[
    // Reads from before the move are asked of both.
    (
        0,
        100,
        300,
        &[(0, &[(b"p", b"p\0")]), (1, &[(b"p", b"p\0")])],
    ),
    (0, 299, 300, &[(0, &[(b"p", b"p\0")])]),
    // Owners from an expired version on are kept.
    (300, 300, 400, &[(0, &[(b"p", b"p\0")])]),
];

fn two_resolvers(alloc: Global) -> Result<Owners, Refusal>
    ensures resolvers { IfOk result (λ owners. resolvers_of owners ≡ 2) }
    ensures floor { IfOk result (λ owners. owners.floor ≡ 0) }
{
    let mut splits = Items::new(alloc);
    push(&mut splits, Key::new(alloc, b"m")?)?;
    let owners = Owners::new(alloc, splits.as_slice(), 2)?;
    Ok(owners)
}

// The keys from m to t go over to the first resolver.
fn one_move(alloc: Global) -> Result<Items<Move>, Refusal>
    ensures { IfOk result (λ moves. All (λ move. move.to < 2) moves) }
{
    let range = KeyRange::new(alloc, b"m", b"t")?;
    let mut moves = Items::new(alloc);
    push(&mut moves, Move { range, to: 0 })?;
    Ok(moves)
}

// The owners that learnt that move at version 300.
fn moved(alloc: Global) -> Result<Owners, Refusal>
    ensures resolvers { IfOk result (λ owners. resolvers_of owners ≡ 2) }
    ensures floor { IfOk result (λ owners. owners.floor ≡ 0) }
{
    let moves = one_move(alloc)?;
    let mut owners = two_resolvers(alloc)?;
    owners.learn(300, moves.as_slice())?;
    Ok(owners)
}

// The same, of which what is below the version has expired.
fn expired(alloc: Global, version: u64) -> Result<Owners, Refusal>
    ensures { IfOk result (λ owners. owners.floor ≤ version) }
{
    let mut owners = moved(alloc)?;
    owners.expire(version);
    Ok(owners)
}

// Whether these are just those parts.
fn are_parts(parts: &[Owned], wanted: &[PartOf]) -> bool {
    parts.len() == wanted.len()
        && parts.iter().zip(wanted).all(|(part, (resolver, ranges))| {
            part.resolver == *resolver && are_ranges(part.ranges.iter().as_slice(), ranges)
        })
}

// Whether the call gave just those parts.
fn gave(answer: Result<Items<Owned>, Refusal>, wanted: &[PartOf]) -> Result<bool, u32> {
    match answer {
        Ok(parts) => Ok(are_parts(parts.as_slice(), wanted)),
        Err(why) => Err(why.code()),
    }
}

// Those who owned the key p at some version above `from` and at most `version`.
fn readers_of_p(
    owners: &Owners,
    alloc: Global,
    from: u64,
    version: u64,
) -> Result<Items<Owned>, Refusal>
    requires order { from < version }
    requires floor { owners.now.floor ≤ from }
{
    match KeyRange::new(alloc, b"p", b"p\0") {
        Ok(range) => owners.readers(&range, from, version),
        Err(why) => Err(why),
    }
}

// Whether they are just those parts, after what is below another version has expired.
fn owned_p(
    alloc: Global,
    below: u64,
    from: u64,
    version: u64,
    wanted: &[PartOf],
) -> Result<bool, u32> {
    if from < below || version <= from {
        return Ok(false);
    }
    match expired(alloc, below) {
        Ok(owners) => gave(readers_of_p(&owners, alloc, from, version), wanted),
        Err(why) => Err(why.code()),
    }
}

// Whether the first resolver owns the keys from a to t, and the second those from t to z.
fn are_writers_to_z(owners: &Owners, alloc: Global) -> Result<bool, u32> {
    let parts = made_of(
        KeyRange::new(alloc, b"a", b"z"),
        |range| owners.writers(range),
    );
    gave(parts, &[(0, &[(b"a", b"t")]), (1, &[(b"t", b"z")])])
}

#[test]
fn moved_keys_belong_to_the_target(rt: HostRuntime) {
    let alloc = rt.alloc();
    let found = ask_mut(moved(alloc), |owners| {
        (
            owners.version(),
            ask(Key::new(alloc, b"p"), |key| owners.owner(key)),
            are_writers_to_z(owners, alloc),
            code_of(owners.learn(300, &[])),
        )
    });
    same(&rt, found, Ok((300, Ok(0), Ok(true), 9003)));
    for (expired, from, version, wanted) in READERS {
        let found = owned_p(alloc, *expired, *from, *version, wanted);
        same(&rt, (*from, found), (*from, Ok(true)));
    }
}

// Whether the keys from m to t went over at version 300, a set, the version above which and the one up to which it was
// read, its parts by who owned the keys then, and those by who owns them now.
type Asked = (bool, Bounds, u64, u64, &'static [PartOf], &'static [PartOf]);

const SETS: &[Asked] = &[
    (
        false,
        &[(b"a", b"c")],
        0,
        100,
        &[(0, &[(b"a", b"c")])],
        &[(0, &[(b"a", b"c")])],
    ),
    (
        false,
        &[(b"n", b"p")],
        0,
        100,
        &[(1, &[(b"n", b"p")])],
        &[(1, &[(b"n", b"p")])],
    ),
    // The ranges of a set lie on one side of the split, or on both.
    (
        false,
        &[(b"a", b"b"), (b"c", b"m")],
        0,
        100,
        &[(0, &[(b"a", b"b"), (b"c", b"m")])],
        &[(0, &[(b"a", b"b"), (b"c", b"m")])],
    ),
    (
        false,
        &[(b"a", b"b"), (b"n", b"p")],
        0,
        100,
        &[(0, &[(b"a", b"b")]), (1, &[(b"n", b"p")])],
        &[(0, &[(b"a", b"b")]), (1, &[(b"n", b"p")])],
    ),
    // All ranges of a resolver are in its one part.
    (
        false,
        &[(b"a", b"b"), (b"c", b"d"), (b"n", b"p")],
        0,
        100,
        &[(0, &[(b"a", b"b"), (b"c", b"d")]), (1, &[(b"n", b"p")])],
        &[(0, &[(b"a", b"b"), (b"c", b"d")]), (1, &[(b"n", b"p")])],
    ),
    (
        false,
        &[(b"a", b"z")],
        0,
        100,
        &[(0, &[(b"a", b"m")]), (1, &[(b"m", b"z")])],
        &[(0, &[(b"a", b"m")]), (1, &[(b"m", b"z")])],
    ),
    (false, &[], 0, 100, &[], &[]),
    // Keys that went over had one owner up to the version before, two in a span over it, and one from it on.
    (
        true,
        &[(b"n", b"p")],
        100,
        299,
        &[(1, &[(b"n", b"p")])],
        &[(0, &[(b"n", b"p")])],
    ),
    (
        true,
        &[(b"n", b"p")],
        100,
        300,
        &[(0, &[(b"n", b"p")]), (1, &[(b"n", b"p")])],
        &[(0, &[(b"n", b"p")])],
    ),
    (
        true,
        &[(b"n", b"p")],
        299,
        300,
        &[(0, &[(b"n", b"p")])],
        &[(0, &[(b"n", b"p")])],
    ),
    (
        true,
        &[(b"m", b"t")],
        300,
        400,
        &[(0, &[(b"m", b"t")])],
        &[(0, &[(b"m", b"t")])],
    ),
    (
        true,
        &[(b"s", b"u")],
        300,
        400,
        &[(0, &[(b"s", b"t")]), (1, &[(b"t", b"u")])],
        &[(0, &[(b"s", b"t")]), (1, &[(b"t", b"u")])],
    ),
    (
        true,
        &[(b"t", b"z")],
        100,
        400,
        &[(1, &[(b"t", b"z")])],
        &[(1, &[(b"t", b"z")])],
    ),
    (
        true,
        &[(b"a", b"c")],
        100,
        400,
        &[(0, &[(b"a", b"c")])],
        &[(0, &[(b"a", b"c")])],
    ),
];

// The owners before the move, or those that learnt it.
fn before_or_after(alloc: Global, is_moved: bool) -> Result<Owners, Refusal>
    ensures { IfOk result (λ owners. owners.floor ≡ 0) }
{
    if is_moved {
        return moved(alloc);
    }
    two_resolvers(alloc)
}

// Whether the parts of the set are just those: by who owned its keys at some version above `from` and at most
// `version`, and by who owns them now.
fn are_parted(
    owners: &Owners,
    set: &RangeSet,
    from: u64,
    version: u64,
    readers: &[PartOf],
    writers: &[PartOf],
) -> (Result<bool, u32>, Result<bool, u32>)
    requires order { from < version }
    requires floor { owners.now.floor ≤ from }
{
    (
        gave(owners.readers_of(set, from, version), readers),
        gave(owners.writers_of(set), writers),
    )
}

// The same as a row asks it.
fn are_parted_by(
    alloc: Global,
    row: &Asked,
) -> Result<(Result<bool, u32>, Result<bool, u32>), u32> {
    let (is_moved, bounds, from, version, readers, writers) = *row;
    if version <= from {
        return Err(0);
    }
    match (before_or_after(alloc, is_moved), set_of(alloc, bounds)) {
        (Ok(owners), Ok(set)) => Ok(are_parted(&owners, &set, from, version, readers, writers)),
        (Err(why), _) | (_, Err(why)) => Err(why.code()),
    }
}

#[test]
fn a_set_is_parted_by_its_owners(rt: HostRuntime) {
    let alloc = rt.alloc();
    for row in SETS {
        same(&rt, are_parted_by(alloc, row), Ok((Ok(true), Ok(true))));
    }
}

// How often the keys p and z changed owners: before anything is learnt, after the move, and once its version has
// expired.
fn changes_on_the_way(alloc: Global, p: &Key, z: &Key) -> Result<[(usize, usize); 3], Refusal> {
    let first = two_resolvers(alloc)?;
    let of_first = (first.changes(p), first.changes(z));
    let mut owners = moved(alloc)?;
    let of_moved = (owners.changes(p), owners.changes(z));
    owners.expire(300);
    Ok([of_first, of_moved, (owners.changes(p), owners.changes(z))])
}

#[test]
fn changes_of_owners_count_until_they_expire(rt: HostRuntime) {
    let alloc = rt.alloc();
    let keys = both(Key::new(alloc, b"p"), Key::new(alloc, b"z"));
    let found = made_of(keys, |(p, z)| changes_on_the_way(alloc, p, z));
    same(&rt, found, Ok([(0, 0), (1, 0), (0, 0)]));
}

#[test]
fn three_resolvers_need_two_splits(rt: HostRuntime) {
    let alloc = rt.alloc();
    let owners = made_of(
        keys_of(alloc, &[b"m"]),
        |splits| Owners::new(alloc, splits.as_slice(), 3),
    );
    same(&rt, code_of(owners), 9009);
}

// Whether all moves are of one range, or by turns of one key, each of another one, and of a range around the keys in
// the middle, each of a lesser one; and how many moves there are.
type Many = (bool, u32);

const MANY: &[Many] = &[(true, 65_536), (false, 4_000)];

// How many keys the moves by turns are of, how many of these are looked up, and how far apart.
const KEYS: u32 = 4_000;

const LOOKED_UP: u32 = 40;

const STEP: u32 = 97;

// The keys of the move with the number, from the first up to but not including the second, and its target.
fn move_by(many: Many, number: u32) -> (u32, u32, u32)
    ensures { result.2 < 2 }
{
    let pair = number / 2;
    let to = pair % 2;
    if many.0 {
        return (1_000, 2_000, to);
    }
    if number.is_multiple_of(2) {
        return (number, number.saturating_add(1), to);
    }
    (pair, KEYS.saturating_sub(pair), to)
}

fn push_move(
    moves: &mut Items<Move>,
    alloc: Global,
    begin: u32,
    end: u32,
    to: u32,
) -> Result<(), Refusal>
    requires { to < 2 }
    ensures { IfOk result (λ _. All (λ move. move.to < 2) moves.old → All (λ move. move.to < 2) moves.new) }
{
    let range = KeyRange::new(alloc, &begin.to_be_bytes(), &end.to_be_bytes())?;
    push(moves, Move { range, to })
}

fn many_moves(alloc: Global, many: Many) -> Result<Items<Move>, Refusal>
    ensures { IfOk result (λ moves. All (λ move. move.to < 2) moves) }
{
    let mut moves = Items::new(alloc);
    for number in 0..many.1 {
        let (begin, end, to) = move_by(many, number);
        push_move(&mut moves, alloc, begin, end, to)?;
    }
    Ok(moves)
}

// The target of the last move that holds the key, else the first resolver.
fn target_of(many: Many, key: u32) -> u32 {
    for number in (0..many.1).rev() {
        let (begin, end, to) = move_by(many, number);
        if begin <= key && key < end {
            return to;
        }
    }
    0
}

// Whether the targets own the keys that are looked up.
fn own_targets(owners: &Owners, alloc: Global, many: Many) -> Result<bool, u32> {
    for place in 0..LOOKED_UP {
        let number = place.saturating_mul(STEP);
        let owner = ask(
            Key::new(alloc, &number.to_be_bytes()),
            |key| owners.owner(key),
        )?;
        if owner != target_of(many, number) {
            return Ok(false);
        }
    }
    Ok(true)
}

// The owners that learnt the moves at version 300.
fn learnt(alloc: Global, many: Many) -> Result<Owners, Refusal> {
    let moves = many_moves(alloc, many)?;
    let mut owners = two_resolvers(alloc)?;
    owners.learn(300, moves.as_slice())?;
    Ok(owners)
}

#[test]
fn many_moves_of_one_version_are_learnt_at_once(rt: HostRuntime) {
    let alloc = rt.alloc();
    for many in MANY {
        let found = ask_mut(learnt(alloc, *many), |owners| {
            let before = own_targets(owners, alloc, *many);
            owners.expire(300);
            (before, own_targets(owners, alloc, *many))
        });
        same(&rt, found, Ok((Ok(true), Ok(true))));
    }
}

// How many acts there are, for how many versions a key stays with the second resolver, and for how many its owners are
// known.
const ACTS: u64 = 10_000;

const KEYS_STAY: u64 = 8;

const KNOWN: u64 = 8;

// The breakpoints that the owners need then: each of the last 16 keys went over at another version, or came back at one
// that is known; behind them is one more, and one is the split.
const NEEDED: usize = 18;

// One more key goes over, and the one before so many comes back.
fn passing_moves(alloc: Global, key: u32) -> Result<Items<Move>, Refusal>
    requires { key < 2 ^ 31 }
    ensures { IfOk result (λ moves. All (λ move. move.to < 2) moves) }
{
    let back = key.saturating_sub(KEYS_STAY as u32);
    let mut moves = Items::new(alloc);
    push_move(&mut moves, alloc, back, back + 1, 0)?;
    push_move(&mut moves, alloc, key, key + 1, 1)?;
    Ok(moves)
}

// The owners learn that at the version, and forget what is older than is known.
fn learn_and_expire(owners: &mut Owners, version: u64, moves: &[Move]) -> Result<(), Refusal>
    requires resolvers { resolvers_of owners.old ≡ 2 }
    requires targets { All (λ move. move.to < 2) moves.now }
    ensures { resolvers_of owners.new ≡ 2 }
{
    owners.learn(version, moves)?;
    owners.expire(version.saturating_sub(KNOWN));
    Ok(())
}

// The first version at which more than twice the breakpoints that are needed are kept, and a few.
fn first_large(alloc: Global) -> Result<Option<u64>, Refusal> {
    let mut owners = two_resolvers(alloc)?;
    for version in 1..=ACTS {
        let moves = passing_moves(alloc, version as u32)?;
        learn_and_expire(&mut owners, version, moves.as_slice())?;
        if owners.breakpoints() > 2 * NEEDED + 16 {
            return Ok(Some(version));
        }
    }
    Ok(None)
}

#[test]
fn breakpoints_of_expired_moves_go(rt: HostRuntime) {
    same(&rt, first_large(rt.alloc()), Ok(None));
}
