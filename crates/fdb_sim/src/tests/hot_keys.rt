// The keys at which most transactions conflict.
use crate::tests::threads::same;
use fdb_keys::{Key, KeyRange, RangeSet, Refusal};
use fdb_load::{HotKeys, name_of};
use std::alloc::Global;
use std::test::Fail;

// Adds the key of the ring with the number.
fn add_key(alloc: Global, conflict: &mut RangeSet, number: u8) -> Result<(), Refusal> {
    let key = Key::new(alloc, &name_of(b'r', number))?;
    let range = KeyRange::single(alloc, &key)?;
    drop(key);
    conflict.add(&range)
}

// One more transaction conflicts at the keys of the ring with these numbers.
fn note(alloc: Global, hot: &mut HotKeys, numbers: &[u8]) -> Result<(), Refusal> {
    let mut conflict = RangeSet::new(alloc);
    for number in numbers {
        add_key(alloc, &mut conflict, *number)?;
    }
    hot.note(&conflict)
}

// What is told once transactions conflicted at the keys with these numbers.
fn told(alloc: Global, conflicts: &[&[u8]]) -> Result<Vec<u8>, Refusal> {
    let mut hot = HotKeys::new(alloc);
    for numbers in conflicts {
        note(alloc, &mut hot, numbers)?;
    }
    let mut err: Vec<u8> = Vec::new(alloc);
    match hot.tell(&mut err) {
        Ok(()) => Ok(err),
        Err(_error) => Err(Refusal::NoMemory),
    }
}

// At which keys transactions conflict, and what is told of that.
const ROWS: &[(&[&[u8]], &str)] = &[
    (&[], ""),
    (&[&[12]], "1 transactions conflict at r/12\n"),
    // Six keys, of which the last of those that come once isn't told.
    (
        &[&[7], &[3, 7], &[9, 1], &[5, 2, 3], &[7]],
        "3 transactions conflict at r/07\n2 transactions conflict at r/03\n1 transactions conflict at r/01\n\
        1 transactions conflict at r/02\n1 transactions conflict at r/05\n",
    ),
];

#[test]
fn the_five_hottest_keys_are_told(rt: HostRuntime) -> Result<(), Fail> {
    for (conflicts, wanted) in ROWS {
        let lines = told(rt.alloc(), conflicts)?;
        same(&rt, lines.as_slice() == wanted.as_bytes(), true);
    }
    Ok(())
}
