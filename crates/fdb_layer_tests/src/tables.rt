// A table with an index: sessions in two threads put and remove the same records at once, and find them by their values
// meanwhile. In the end the index has an entry for each record and no other one.
ghost use Rattle.std.specs.Prelude.{◌≡◌};

use crate::asserting::same;
use fdb_hosts::{Done, Host, Named, thread_of};
use fdb_keys::{Key, Refusal};
use fdb_layers::{IndexedTable, PutRecord, RemoveRecord, find_by_value};
use fdb_making::{both, coded, count_config};
use fdb_runtime::{Blank, Bytes, ClusterName, Config, Database, NoGate, Record, Session, Tries};
use std::alloc::Global;
use std::marker::Brand;
use std::sync::{Arc, Wait};
use std::test::Fail;
use std::thread;

// How often each session goes over all IDs.
const TIMES: u32 = 10;

const IDS: [&[u8]; 3] = [b"ann", b"bob", b"cid"];

// Puts the value for the ID, and gives the bytes that it had before.
fn put<B: ClusterName, R: Wait>(
    rt: &R,
    alloc: Global,
    session: &mut Session<B, IndexedTable>,
    id: &[u8],
    value: u32,
) -> Result<Option<Bytes>, Refusal> {
    let id = Bytes::copy_from_slice(alloc, id)?;
    let mut work = PutRecord {
        id,
        value,
        had: None,
    };
    drop(session.transact(rt, alloc, Tries::at_most(1_000), &mut work)?);
    Ok(work.had)
}

// Removes the ID's record.
fn remove<B: ClusterName, R: Wait>(
    rt: &R,
    alloc: Global,
    session: &mut Session<B, IndexedTable>,
    id: &[u8],
) -> Done {
    let id = Bytes::copy_from_slice(alloc, id)?;
    let mut work = RemoveRecord { id, had: None };
    drop(session.transact(rt, alloc, Tries::at_most(1_000), &mut work)?);
    Ok(())
}

// Whether the ID's record holds the value, as the open transaction reads it.
fn holds<B: ClusterName, R: Wait>(
    rt: &R,
    alloc: Global,
    session: &mut Session<B, IndexedTable>,
    id: &[u8],
    value: u32,
) -> Result<bool, Refusal> {
    let mut text = Vec::new(alloc);
    text.extend_from_slice(b"t/")?;
    text.extend_from_slice(id)?;
    let key = Key::new(alloc, text.as_slice())?;
    match session.get(rt, alloc, &key, false)? {
        Some(held) => Ok(held.as_slice() == value.to_be_bytes().as_slice()),
        None => Ok(false),
    }
}

// How many records the value finds, and whether each of them holds it, in one transaction.
fn find<B: ClusterName, R: Wait>(
    rt: &R,
    alloc: Global,
    session: &mut Session<B, IndexedTable>,
    value: u32,
) -> Result<(usize, bool), Refusal> {
    session.begin(rt, alloc)?;
    let ids = find_by_value(rt, alloc, session, value)?;
    let mut hold = true;
    for id in ids.as_slice() {
        hold &= holds(rt, alloc, session, id.as_slice(), value)?;
    }
    Ok((ids.len(), hold))
}

// Puts all records, the last one before it removes that, so many times, and each time finds them by the value. Whether
// all that was found held it.
fn put_often<B: ClusterName, R: Wait>(
    rt: &R,
    alloc: Global,
    session: &mut Session<B, IndexedTable>,
    value: u32,
) -> Result<bool, Refusal> {
    let mut hold = true;
    for time in 0..TIMES {
        let value = value.saturating_add(time);
        for id in IDS {
            drop(put(rt, alloc, session, id, value)?);
        }
        let (_, all) = find(rt, alloc, session, value)?;
        hold &= all;
        remove(rt, alloc, session, IDS[2])?;
    }
    Ok(hold)
}

// The same, after which the session is dropped.
fn put_and_end<B: ClusterName, R: Wait>(
    rt: &R,
    alloc: Global,
    session: Session<B, IndexedTable>,
) -> Result<bool, Refusal> {
    let mut session = session;
    let hold = put_often(rt, alloc, &mut session, 100);
    drop(session);
    hold
}

fn play<B: Named, R: Host>(
    rt: &R,
    alloc: Global,
    database: &mut Database<B, IndexedTable>,
) -> Done {
    let (mut one, other) = both(database.session(alloc), database.session(alloc))?;
    let handle = *rt;
    let there = thread_of(thread::spawn(rt, move || put_and_end(&handle, alloc, other)))?;
    let here = put_often(rt, alloc, &mut one, 200);
    let there = there.join(rt);
    let first = coded(put(rt, alloc, &mut one, IDS[0], 7));
    let had = coded(put(rt, alloc, &mut one, IDS[0], 8));
    let found = both(find(rt, alloc, &mut one, 7), find(rt, alloc, &mut one, 8));
    drop(one);
    same(rt, (coded(here), coded(there)), (Ok(true), Ok(true)));
    same(rt, coded(found), Ok(((0, true), (1, true))));
    same(rt, first.is_ok(), true);
    same(rt, last_byte(had), Ok(Some(7)));
    Ok(())
}

// The last byte of what was there.
fn last_byte(had: Result<Option<Bytes>, u32>) -> Result<Option<u8>, u32> {
    match had? {
        Some(value) => Ok(value.as_slice().last().copied()),
        None => Ok(None),
    }
}

// Whether the entry is that of the record: its key has the record's value and then its ID.
fn is_entry(entry: &Key, record: &(Key, Bytes)) -> bool {
    match (
        entry.bytes().split_at_checked(6),
        record.0.bytes().split_at_checked(2),
    ) {
        (Some((front, id)), Some((_, own))) => id == own && front.ends_with(record.1.as_slice()),
        _ => false,
    }
}

// How many pairs there are, and whether the second half of them are records of which the first half has an entry each.
fn indexed<B: ClusterName>(record: &Record<B, IndexedTable>) -> (usize, bool) {
    let pairs = record.pairs();
    let (entries, records) = pairs.split_at(pairs.len() / 2);
    let found = records.iter().all(|record| entries
        .iter()
        .any(|(entry, _)| is_entry(entry, record)));
    (pairs.len(), found)
}

fn use_table<B: Named, R: Host>(rt: &R, alloc: Global, blank: Blank, config: &Config) -> Done
    requires cells { blank ≡ B.cells }
    requires config { config.now ≡ B.config }
{
    let gate = Arc::new(alloc, NoGate)?;
    let mut database: Database<B, IndexedTable> = Database::start(
        rt, alloc, blank, config, 100, &gate,
    )?;
    let played = play(rt, alloc, &mut database);
    let record = database.close(rt)?;
    record.know_layer();
    let found = indexed(&record);
    drop(record);
    same(rt, (coded(played), found), (Ok(()), (4, true)));
    Ok(())
}

#[test]
fn the_index_finds_each_record_whoever_puts_it(rt: HostRuntime) -> Result<(), Fail> {
    let alloc = rt.alloc();
    let config = count_config(alloc, 2, 1, 1_000);
    let blank = Blank::new(alloc, 1_000)?;
    use_table::<Brand, HostRuntime>(&rt, alloc, blank, &config)?;
    Ok(())
}
