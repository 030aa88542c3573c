// A table's transactions, by the layer's calls and by bare calls.
use crate::layers::form::{Form, Given};
use fdb_keys::{Items, Key, KeyRange, Refusal};
use fdb_layers::{IndexedTable, PutRecord, find_by_value};
use fdb_runtime::{Bytes, ClusterName, Everything, ReadOptions, Session, Tries};
use std::alloc::Global;
use std::sync::Wait;

/// By the layer's work, and its read. It is tried once, since the only session is turned down by nobody.
pub(crate) struct WorkedTable;

impl Form<IndexedTable> for WorkedTable {
    fn put<B: ClusterName, R: Wait>(
        rt: &R,
        alloc: Global,
        session: &mut Session<B, IndexedTable>,
        given: Given,
    ) -> Result<(), Refusal> {
        let Given { text, value } = given;
        let mut work = PutRecord {
            id: text,
            value,
            had: None,
        };
        drop(session.transact(rt, alloc, Tries::at_most(1), &mut work)?);
        Ok(())
    }

    fn get<B: ClusterName, R: Wait>(
        rt: &R,
        alloc: Global,
        session: &mut Session<B, IndexedTable>,
        value: u32,
    ) -> Result<usize, Refusal> {
        session.begin(rt, alloc)?;
        let ids = find_by_value(rt, alloc, session, value)?;
        drop(session.commit(rt, alloc)?);
        Ok(ids.len())
    }
}

/// By bare calls.
pub(crate) struct BareTable;

impl Form<Everything> for BareTable {
    fn put<B: ClusterName, R: Wait>(
        rt: &R,
        alloc: Global,
        session: &mut Session<B>,
        given: Given,
    ) -> Result<(), Refusal> {
        session.begin(rt, alloc)?;
        update(
            rt,
            alloc,
            session,
            given.text.as_slice(),
            &given.value.to_be_bytes(),
        )?;
        drop(session.commit(rt, alloc)?);
        Ok(())
    }

    fn get<B: ClusterName, R: Wait>(
        rt: &R,
        alloc: Global,
        session: &mut Session<B>,
        value: u32,
    ) -> Result<usize, Refusal> {
        session.begin(rt, alloc)?;
        let ids = find(rt, alloc, session, &value.to_be_bytes())?;
        drop(session.commit(rt, alloc)?);
        Ok(ids.len())
    }
}

// The open transaction sets the record's value, and has the index find it by that alone.
fn update<B: ClusterName, R: Wait>(
    rt: &R,
    alloc: Global,
    session: &mut Session<B>,
    id: &[u8],
    value: &[u8],
) -> Result<(), Refusal> {
    let row = key_of(alloc, b"t/", id, &[])?;
    let had = session.get(rt, alloc, &row, false)?;
    if let Some(had) = had {
        session.clear(&key_of(alloc, b"i/", had.as_slice(), id)?)?;
    }
    let entry = key_of(alloc, b"i/", value, id)?;
    session.set(alloc, &row, value)?;
    session.set(alloc, &entry, &[])
}

// The IDs that the open transaction finds by the value.
fn find<B: ClusterName, R: Wait>(
    rt: &R,
    alloc: Global,
    session: &mut Session<B>,
    value: &[u8],
) -> Result<Items<Bytes>, Refusal> {
    let prefix = key_of(alloc, b"i/", value, &[])?;
    let range = KeyRange::prefix(alloc, &prefix)?;
    let pairs = session.get_range(rt, alloc, &range, ReadOptions::all())?;
    ids_of(alloc, prefix.bytes(), pairs.as_slice())
}

// What stands behind the prefix in the key of each pair.
fn ids_of(alloc: Global, prefix: &[u8], pairs: &[(Key, Bytes)]) -> Result<Items<Bytes>, Refusal> {
    let mut ids = Items::new(alloc);
    for (key, _) in pairs {
        let id = key.bytes().strip_prefix(prefix).unwrap_or(&[]);
        ids.push(Bytes::copy_from_slice(alloc, id)?)?;
    }
    Ok(ids)
}

// The key of the three parts.
fn key_of(alloc: Global, front: &[u8], middle: &[u8], back: &[u8]) -> Result<Key, Refusal> {
    let mut text = Vec::new(alloc);
    text.extend_from_slice(front)?;
    text.extend_from_slice(middle)?;
    text.extend_from_slice(back)?;
    Key::new(alloc, text.as_slice())
}
