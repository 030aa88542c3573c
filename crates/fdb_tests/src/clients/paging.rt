// How many pages a read of a range asks for, of a map that counts them.
use super::begin;
use crate::asserting::same;
use bytes::Bytes;
use fdb_client::{Page, PlainSnapshot, Snapshot, Txn};
use fdb_keys::{Key, KeyRange, Refusal};
use fdb_making::{apply, coded, made_of};
use fdb_mutations::{Mutation, PlainMap};
use std::alloc::Global;
use std::sync::atomic::{AtomicU32, Ordering};

// A plain map, read at a version, whose pages are counted.
#[derive(Clone, Copy)]
struct CountedSnapshot<'a> {
    plain: PlainSnapshot<'a>,
    pages: &'a AtomicU32,
}

impl<'a> Snapshot for CountedSnapshot<'a> {
    ghost use Rattle.std.specs.Prelude.{None, refl};

    ghost at = { λ snapshot. snapshot.plain.version };

    ghost map = { λ snapshot. snapshot.plain.map.now };

    ghost key_fault = { λ snapshot key. None };

    ghost range_fault = { λ snapshot range. None };

    ghost serves_parts = { λ snapshot part range inside served. refl };

    fn version(&self) -> u64 {
        self.plain.version
    }

    fn get(&self, key: &Key) -> Result<Option<Bytes>, Refusal> {
        self.plain.get(key)
    }

    fn page(&self, range: &KeyRange, limit: u32, reverse: bool) -> Result<Page, Refusal> {
        self.pages.fetch_add(1, Ordering::SeqCst);
        self.plain.page(range, limit, reverse)
    }
}

// The map with a pair for each of the keys 1 to 100, of one byte each.
fn hundred_pairs(alloc: Global) -> Result<PlainMap, Refusal> {
    let mut map = PlainMap::new(alloc);
    for byte in 1..=100u8 {
        apply(&mut map, Mutation::set(alloc, &[byte], b"x"))?;
    }
    Ok(map)
}

// What a transaction clears, the direction in which it reads one pair, and how many pages it asks for: of one pair, and
// then each of twice as many as the page before, until one has a pair that isn't cleared.
#[derive(Clone, Copy)]
struct Row {
    cleared: (&'static [u8], &'static [u8]),
    reverse: bool,
    pages: u32,
}

const ROWS: &[Row] = &[
    Row {
        cleared: (&[50], &[51]),
        reverse: false,
        pages: 1,
    },
    Row {
        cleared: (&[1], &[2]),
        reverse: false,
        pages: 2,
    },
    Row {
        cleared: (&[1], &[4]),
        reverse: false,
        pages: 3,
    },
    Row {
        cleared: (&[1], &[100]),
        reverse: false,
        pages: 7,
    },
    Row {
        cleared: (&[2], &[101]),
        reverse: true,
        pages: 7,
    },
];

// How many pages a read of the range for one pair asks for, once the transaction has cleared that, and how many pairs
// it is given.
fn read_in(
    txn: &mut Txn,
    map: &PlainMap,
    cleared: Mutation,
    range: &KeyRange,
    reverse: bool,
) -> Result<(u32, usize), Refusal> {
    let pages = AtomicU32::new(0);
    txn.write(cleared)?;
    let plain = PlainSnapshot {
        version: txn.read_version(),
        map,
    };
    let counted = CountedSnapshot {
        plain,
        pages: &pages,
    };
    let pairs = txn.get_range(&counted, range, 1, reverse, false)?;
    Ok((pages.load(Ordering::SeqCst), pairs.len()))
}

// The same of a row, in a transaction that is lent, so that no exit on the way drops it.
fn read_one(alloc: Global, map: &PlainMap, row: Row) -> Result<(u32, usize), Refusal> {
    let all = KeyRange::new(alloc, &[1], &[200])?;
    let cleared = Mutation::clear_range(alloc, row.cleared.0, row.cleared.1)?;
    let mut txn = begin(alloc);
    let found = read_in(&mut txn, map, cleared, &all, row.reverse);
    drop(txn);
    found
}

#[test]
fn reads_behind_own_clears_ask_for_few_pages(rt: HostRuntime) {
    let alloc = rt.alloc();
    for row in ROWS {
        let found = made_of(hundred_pairs(alloc), |map| read_one(alloc, map, *row));
        same(&rt, coded(found), Ok((row.pages, 1)));
    }
}
