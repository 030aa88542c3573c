//! The records of a running database's table: work that puts one or removes one.
ghost use Rattle.std.specs.Prelude.{◌≡◌, ◌++◌, ℕ, List, IfOk, OnOk};
ghost use Rattle.std.specs.Int.{to_be_bytes, w32};
ghost use Rattle.fdb_layers.specs.Operations.{DoesMore};
ghost use Rattle.fdb_layers.specs.Table.{clearing, entry_key, forgetting, putting, record_key, removing, setting};
ghost use Rattle.fdb_runtime.specs.Works.{IsSameSession, IsStillOpen};

use crate::operations::{clear, read, set};
use crate::table::IndexedTable;
use fdb_keys::{Key, Refusal};
use fdb_runtime::{Bytes, ClusterName, Session, Work};
use std::alloc::Global;
use std::sync::Wait;

// The key of an ID's record.
fn record_key(alloc: Global, id: &[u8]) -> Result<Key, Refusal>
    ensures { IfOk result (λ key. key ≡ record_key id.now) }
{
    let mut text = Vec::with_capacity(alloc, id.len().saturating_add(2))?;
    text.extend_from_slice(b"t/")?;
    text.extend_from_slice(id)?;
    let key = Key::new(alloc, text.as_slice())?;
    Ok(key)
}

// The key of the index entry of a value and an ID.
fn entry_key(alloc: Global, value: &[u8], id: &[u8]) -> Result<Key, Refusal>
    ensures { IfOk result (λ key. key ≡ entry_key value.now id.now) }
{
    let mut text = Vec::new(alloc);
    text.extend_from_slice(b"i/")?;
    text.extend_from_slice(value)?;
    text.extend_from_slice(id)?;
    let key = Key::new(alloc, text.as_slice())?;
    Ok(key)
}

// The index forgets the value that the ID's record had, if it had one.
fn forget<B: ClusterName>(
    alloc: Global,
    session: &mut Session<B, IndexedTable>,
    id: &[u8],
    had: &Option<Bytes>,
) -> Result<(), Refusal>
    requires open { IsStillOpen session.old.current session.old.current }
    ensures same { IsSameSession session.old session.new }
    ensures open { OnOk result (IsStillOpen session.old.current session.new.current) }
    ensures forgets { OnOk result
        (DoesMore session.old.current (forgetting id.now had.now) session.new.current) }
{
    match had {
        Some(value) => {
            let entry = entry_key(alloc, value.as_slice(), id)?;
            clear(session, &entry)
        }
        None => Ok(()),
    }
}

// The record is set to the value, and the index finds it by that.
fn put<B: ClusterName>(
    alloc: Global,
    session: &mut Session<B, IndexedTable>,
    row: &Key,
    id: &[u8],
    value: &[u8],
) -> Result<(), Refusal>
    requires row { row.now ≡ record_key id.now }
    ensures same { IsSameSession session.old session.new }
    ensures open { OnOk result (IsStillOpen session.old.current session.new.current) }
    ensures puts { OnOk result (DoesMore session.old.current (setting id.now value.now) session.new.current) }
{
    let entry = entry_key(alloc, value, id)?;
    set(alloc, session, row, value)?;
    set(alloc, session, &entry, &[])
}

// The record is cleared, if there was one.
fn remove<B: ClusterName>(
    alloc: Global,
    session: &mut Session<B, IndexedTable>,
    id: &[u8],
    had: &Option<Bytes>,
) -> Result<(), Refusal>
    requires open { IsStillOpen session.old.current session.old.current }
    ensures same { IsSameSession session.old session.new }
    ensures open { OnOk result (IsStillOpen session.old.current session.new.current) }
    ensures removes { OnOk result
        (DoesMore session.old.current (clearing id.now had.now) session.new.current) }
{
    match had {
        Some(_) => {
            let row = record_key(alloc, id)?;
            clear(session, &row)
        }
        None => Ok(()),
    }
}

/// Puts a record: the value that the ID has from then on.
#[derive(Drop)]
pub struct PutRecord {
    /// The record's ID.
    pub id: Bytes,
    /// Its value, of which the index has the four bytes, the highest one first.
    pub value: u32,
    /// What the ID had before, once the work has run.
    pub had: Option<Bytes>,
}

impl<B: ClusterName> Work<B, IndexedTable> for PutRecord {
    ghost Task = { List ℕ × ℕ };

    ghost task = { λ put. (put.id, put.value) };

    ghost does = { λ put transcript. transcript.ops ≡ putting put.id put.had (to_be_bytes w32 put.value) };

    fn run<R: Wait>(
        &mut self,
        rt: &R,
        alloc: Global,
        session: &mut Session<B, IndexedTable>,
    ) -> Result<(), Refusal> {
        let row = record_key(alloc, self.id.as_slice())?;
        self.had = read(rt, alloc, session, &row)?;
        forget(alloc, session, self.id.as_slice(), &self.had)?;
        put(
            alloc,
            session,
            &row,
            self.id.as_slice(),
            &self.value.to_be_bytes(),
        )
    }
}

/// Removes a record, if there is one.
#[derive(Drop)]
pub struct RemoveRecord {
    /// The record's ID.
    pub id: Bytes,
    /// What the ID had before, once the work has run.
    pub had: Option<Bytes>,
}

impl<B: ClusterName> Work<B, IndexedTable> for RemoveRecord {
    ghost Task = { List ℕ };

    ghost task = { λ removal. removal.id };

    ghost does = { λ removal transcript. transcript.ops ≡ removing removal.id removal.had };

    fn run<R: Wait>(
        &mut self,
        rt: &R,
        alloc: Global,
        session: &mut Session<B, IndexedTable>,
    ) -> Result<(), Refusal> {
        let row = record_key(alloc, self.id.as_slice())?;
        self.had = read(rt, alloc, session, &row)?;
        forget(alloc, session, self.id.as_slice(), &self.had)?;
        remove(alloc, session, self.id.as_slice(), &self.had)
    }
}
