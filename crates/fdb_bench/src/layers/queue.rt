// A queue's transactions, by the layer's work and by bare calls.
use crate::layers::form::{Form, Given};
use fdb_keys::{Key, KeyRange, Refusal, is_before};
use fdb_layers::{Pop, Push, StampedQueue};
use fdb_runtime::{Bytes, ClusterName, Everything, ReadOptions, Session, Tries, TxnId};
use std::alloc::Global;
use std::sync::Wait;

// How many bytes of a value come before its item.
const STAMP_SIZE: usize = 10;

/// By the layer's work. It is tried once, since the only session is turned down by nobody.
pub(crate) struct WorkedQueue;

impl Form<StampedQueue> for WorkedQueue {
    fn put<B: ClusterName, R: Wait>(
        rt: &R,
        alloc: Global,
        session: &mut Session<B, StampedQueue>,
        given: Given,
    ) -> Result<(), Refusal> {
        let mut work = Push { item: given.text };
        drop(session.transact(rt, alloc, Tries::at_most(1), &mut work)?);
        Ok(())
    }

    fn get<B: ClusterName, R: Wait>(
        rt: &R,
        alloc: Global,
        session: &mut Session<B, StampedQueue>,
        _value: u32,
    ) -> Result<usize, Refusal> {
        let mut work = Pop { item: None };
        drop(session.transact(rt, alloc, Tries::at_most(1), &mut work)?);
        Ok(count_of(&work.item))
    }
}

/// By bare calls.
pub(crate) struct BareQueue;

impl Form<Everything> for BareQueue {
    fn put<B: ClusterName, R: Wait>(
        rt: &R,
        alloc: Global,
        session: &mut Session<B>,
        given: Given,
    ) -> Result<(), Refusal> {
        session.begin(rt, alloc)?;
        push(alloc, session, given.text.as_slice())?;
        drop(session.commit(rt, alloc)?);
        Ok(())
    }

    fn get<B: ClusterName, R: Wait>(
        rt: &R,
        alloc: Global,
        session: &mut Session<B>,
        _value: u32,
    ) -> Result<usize, Refusal> {
        session.begin(rt, alloc)?;
        let item = pop(rt, alloc, session)?;
        drop(session.commit(rt, alloc)?);
        Ok(count_of(&item))
    }
}

fn count_of(item: &Option<Bytes>) -> usize {
    match item {
        Some(_item) => 1,
        None => 0,
    }
}

// The open transaction pushes the item, under a key of its own.
fn push<B: ClusterName>(
    alloc: Global,
    session: &mut Session<B>,
    item: &[u8],
) -> Result<(), Refusal> {
    let Some(id) = session.open_id() else {
        return Err(Refusal::NoTransaction);
    };
    let key = key_of(alloc, id)?;
    let mut operand = Vec::new(alloc);
    operand.extend_from_slice(&[0; STAMP_SIZE])?;
    operand.extend_from_slice(item)?;
    session.stamped(alloc, &key, operand.as_slice(), 0)
}

// The key under which the transaction of the id pushes.
fn key_of(alloc: Global, id: TxnId) -> Result<Key, Refusal> {
    let mut text = Vec::new(alloc);
    text.extend_from_slice(b"queue/")?;
    text.extend_from_slice(&id.session.to_be_bytes())?;
    text.extend_from_slice(&id.number.to_be_bytes())?;
    Key::new(alloc, text.as_slice())
}

// The open transaction pops the item that was committed first, if there is one.
fn pop<B: ClusterName, R: Wait>(
    rt: &R,
    alloc: Global,
    session: &mut Session<B>,
) -> Result<Option<Bytes>, Refusal> {
    let range = KeyRange::prefix(alloc, &Key::new(alloc, b"queue/")?)?;
    let pairs = session.get_range(rt, alloc, &range, ReadOptions::all())?;
    let Some((key, value)) = oldest(pairs.as_slice()) else {
        return Ok(None);
    };
    session.clear(key)?;
    let item = value.as_slice().get(STAMP_SIZE..).unwrap_or(&[]);
    let item = Bytes::copy_from_slice(alloc, item)?;
    Ok(Some(item))
}

// The pair with the least value, if there is any.
fn oldest(pairs: &[(Key, Bytes)]) -> Option<&(Key, Bytes)> {
    let mut oldest = pairs.first()?;
    for pair in pairs {
        if is_before(pair.1.as_slice(), oldest.1.as_slice()) {
            oldest = pair;
        }
    }
    Some(oldest)
}
