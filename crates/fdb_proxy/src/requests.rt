// The transactions that were submitted to a commit proxy.
ghost use Rattle.std.specs.Prelude.{◌≡◌, ◌+◌, ◌≤◌, ◌&&◌, ◌++◌, [], None, Some, take, length, map, not, vec_len};
ghost use Rattle.std.specs.Prelude.{vec_capacity, IfOk, OnOk, OnErr};
ghost use Rattle.fdb_txn.specs.Limits.{place_limit};
ghost use Rattle.fdb_txn.specs.book.Transactions.{Transaction};
ghost use Rattle.fdb_proxy.specs.Names.{has};
ghost use Rattle.fdb_proxy.specs.RequestFields.{places_of};
ghost use Rattle.fdb_proxy.specs.Requests.{place_of, is_named};

use crate::names::Names;
use fdb_keys::{Items, SharedList};
use fdb_txn::{Batch, PLACE_LIMIT, Sealed, TxnId};
use std::alloc::{AllocError, AllocFailed, Global};
use std::marker::Model;
use std::mem;

/// The requests of a commit proxy: those of the batch in flight by place, and those that wait for a batch in order.
///
/// A sealed batch is shared with whoever sealed it. So most batches are made with no copy of a transaction.
///
/// Who gives the batch up, or refuses those that wait, must not need memory for that. So there is always room for the
/// ids of all, and while somebody waits there is as much again for the ids of the batch.
///
/// No two requests have the same id. Whether one has an id is told by the names alone, so that the list is gone through
/// only for the place of a request that is there.
#[derive(Drop)]
pub(crate) struct Requests {
    // the batch that was sealed last, until its transactions are dropped
    last_batch: Option<Batch>,
    // whether the last batch is in flight; else its transactions are the first that wait
    is_in_flight: bool,
    // those that wait behind the last batch
    list: Vec<Sealed>,
    // both empty, and kept for their room
    ids: Vec<TxnId>,
    room: Vec<TxnId>,
    // the ids of all
    names: Names,
}

impl Model for Requests {
    ghost use Rattle.fdb_proxy.specs.Requests.{Requests};
    ghost use Rattle.fdb_proxy.specs.RequestFields.{requests_of, AreRequests};

    ghost Value = { Requests };

    ghost view = { requests_of };

    ghost invariant = { AreRequests };
}

impl Requests {
    ghost use Rattle.std.specs.Prelude.{◌≡◌, ◌==◌, ◌≤◌, ◌++◌, [], ◌∷◌, None, take, drop, length, map, IsOk};
    ghost use Rattle.std.specs.Prelude.{IfOk, IfErr, OnOk, OnErr};
    ghost use Rattle.fdb_txn.specs.Limits.{place_limit};
    ghost use Rattle.fdb_txn.specs.book.Transactions.{Transaction};
    ghost use Rattle.fdb_proxy.specs.Requests.{Holds, place_of};

    /// No request. It takes no memory.
    pub(crate) fn new(alloc: Global) -> Self
        ensures { Holds result [] [] }
    {
        Requests {
            last_batch: None,
            is_in_flight: false,
            list: Vec::new(alloc),
            ids: Vec::new(alloc),
            room: Vec::new(alloc),
            names: Names::new(alloc),
        }
    }

    /// Makes room for one more request. Nothing else changes, also where memory runs out.
    pub(crate) fn reserve(&mut self) -> Result<(), AllocError>
        ensures ok { OnOk result (1 ≤ self.new.spare) }
        ensures same { Holds self.new self.old.batch self.old.waiting }
        ensures ready { 1 ≤ self.old.spare → IsOk result }
    {
        self.list.reserve(1)?;
        let first = places_of(&self.last_batch).len();
        self.ids.reserve(first + self.list.len() + 1)?;
        self.names.reserve()?;
        self.room.reserve(first)
    }

    /// One more waits, the last one, whose id no other has. It takes no memory where there is room for one more. Where
    /// memory runs out, the error hands the transaction back and nothing changes.
    pub(crate) fn submit(&mut self, sealed: Sealed) -> Result<(), AllocFailed<Sealed>>
        requires { place_of sealed.id (self.old.batch ++ self.old.waiting) ≡ None }
        ensures ok { OnOk result (Holds self.new self.old.batch (self.old.waiting ++ sealed ∷ [])) }
        ensures err { OnErr result (Holds self.new self.old.batch self.old.waiting) }
        ensures back { IfErr result (λ failed. failed.value ≡ sealed) }
        ensures ready { 1 ≤ self.old.spare → IsOk result }
    {
        if self.reserve().is_err() {
            return Err(AllocFailed { value: sealed });
        }
        self.names.add(sealed.id());
        self.list.push_reserved(sealed);
        Ok(())
    }

    /// The place of the first request with the id, counted from the first place of the batch. It takes O(1) expected
    /// time where there is none, and else O(n) for n requests.
    pub(crate) fn place_of(&self, id: TxnId) -> Option<usize>
        ensures { result ≡ place_of id (self.now.batch ++ self.now.waiting) }
    {
        if !self.names.contains(id) {
            return None;
        }
        place_in(places_of(&self.last_batch), &self.list, id)
    }

    /// The transactions of the batch, by place.
    pub(crate) fn batch(&self) -> &[Sealed]
        ensures value { result.now ≡ self.now.batch }
        ensures within { length self.now.batch ≤ place_limit }
    {
        if self.is_in_flight {
            places_of(&self.last_batch)
        } else {
            &[]
        }
    }

    /// Whether nobody waits for a batch.
    pub(crate) fn nobody_waits(&self) -> bool
        ensures { result ≡ (length self.now.waiting == 0) }
    {
        self.list.is_empty() && (self.is_in_flight || places_of(&self.last_batch).is_empty())
    }

    /// The first 4,096 of those that wait become the batch, all of them where there are no more. Answers the batch,
    /// which shares its transactions. Where memory runs out, nothing changes.
    ///
    /// It takes O(n) time for n requests that wait. Transactions are copied only where more than 4,096 wait, and where
    /// others wait behind a batch that was given up; else it takes O(1) memory beside the room for the ids.
    pub(crate) fn seal(&mut self) -> Result<Batch, AllocError>
        requires { self.old.batch ≡ [] }
        ensures batch { IfOk result (λ batch. batch ≡ take place_limit self.old.waiting) }
        ensures ok { OnOk result
            (Holds self.new (take place_limit self.old.waiting) (drop place_limit self.old.waiting)) }
        ensures err { OnErr result (Holds self.new self.old.batch self.old.waiting) }
    {
        let first = places_of(&self.last_batch).len();
        self.room.reserve(PLACE_LIMIT.min(first + self.list.len()))?;
        // nobody is in the batch, so that all wait; whoever comes to the front waits too, until nothing can fail any
        // more
        self.is_in_flight = false;
        let batch = share_last_batch(&mut self.last_batch, &mut self.list)?;
        self.is_in_flight = true;
        Ok(batch)
    }

    /// The batch is given up: its transactions wait again, before all others. It takes no memory.
    pub(crate) fn unseal(&mut self)
        ensures { Holds self.new [] (self.old.batch ++ self.old.waiting) }
    {
        self.is_in_flight = false;
    }

    /// Those that wait are dropped. Answers their ids, in order. It takes no memory.
    pub(crate) fn refuse_all(&mut self) -> Items<TxnId>
        ensures ids { result ≡ map (λ (t : Transaction). t.id) self.old.waiting }
        ensures left { Holds self.new self.old.batch [] }
    {
        let alloc = *self.list.allocator();
        if self.nobody_waits() {
            return Items::new(alloc);
        }
        if !self.is_in_flight {
            push_ids(&mut self.ids, places_of(&self.last_batch));
            drop_last_batch(&mut self.last_batch, &mut self.names);
        }
        push_ids(&mut self.ids, &self.list);
        self.names.remove_all(&self.list);
        self.list.clear();
        let room = mem::replace(&mut self.room, Vec::new(alloc));
        Items::from_vec(mem::replace(&mut self.ids, room))
    }

    /// The batch is done: its transactions are dropped. It takes no memory.
    pub(crate) fn finish(&mut self)
        ensures { Holds self.new [] self.old.waiting }
    {
        if self.is_in_flight {
            drop_last_batch(&mut self.last_batch, &mut self.names);
            self.is_in_flight = false;
        }
    }
}

fn place_in(first: &[Sealed], others: &[Sealed], id: TxnId) -> Option<usize>
    ensures { result ≡ place_of id (first.now ++ others.now) }
{
    first
        .iter()
        .chain(others.iter())
        .position(|transaction| transaction.id() == id)
}

// Adds the ids of the transactions, for which there is room.
fn push_ids(ids: &mut Vec<TxnId>, transactions: &[Sealed])
    requires { vec_len ids.old + length transactions.now ≤ vec_capacity ids.old }
    ensures ids { ids.new.items ≡ ids.old.items ++ map (λ (t : Transaction). t.id) transactions.now }
    ensures room { vec_capacity ids.new ≡ vec_capacity ids.old }
{
    for transaction in transactions {
        ids.push_reserved(transaction.id());
    }
}

// The transactions of the last batch, by place.
fn places_of(last_batch: &Option<Batch>) -> &[Sealed]
    ensures value { result.now ≡ places_of last_batch.now }
    ensures within { length (places_of last_batch.now) ≤ place_limit }
{
    match last_batch {
        Some(batch) => batch.as_slice(),
        None => &[],
    }
}

// The last batch is dropped, and its ids are taken out of the names.
fn drop_last_batch(last_batch: &mut Option<Batch>, names: &mut Names)
    ensures none { last_batch.new ≡ None }
    ensures names { (id : TxnId) → has names.new id
        ≡ (not (is_named (places_of last_batch.old) id) && has names.old id) }
{
    names.remove_all(places_of(last_batch));
    *last_batch = None;
}

// Brings the first 4,096 of all into the last batch, and answers a batch that shares them. The order of all stays, also
// where memory runs out. It takes O(n) time for n of them.
fn share_last_batch(
    last_batch: &mut Option<Batch>,
    list: &mut Vec<Sealed>,
) -> Result<Batch, AllocError>
    ensures batch { IfOk result (λ batch. last_batch.new ≡ Some batch) }
    ensures first { OnOk result (places_of last_batch.new
        ≡ take place_limit (places_of last_batch.old ++ list.old.items)) }
    ensures within { length (places_of last_batch.new) ≤ place_limit }
    ensures same { places_of last_batch.new ++ list.new.items ≡ places_of last_batch.old ++ list.old.items }
{
    if let Some(batch) = last_batch {
        let count = batch.as_slice().len();
        if list.is_empty() || count == PLACE_LIMIT {
            return Ok(batch.clone()?);
        }
    }
    let batch = gather(places_of(last_batch), list)?;
    let shared: Result<Batch, AllocError> = batch.clone();
    *last_batch = Some(batch);
    shared
}

// The first 4,096 of all, and the others are left in the list. Where memory runs out, nothing changes. A batch that is
// shared doesn't grow, and a list is shared only as a whole: else the first ones are copied.
fn gather(first: &[Sealed], list: &mut Vec<Sealed>) -> Result<Batch, AllocError>
    requires { length first.now ≤ place_limit }
    ensures first { IfOk result (λ batch. batch ≡ take place_limit (first.now ++ list.old.items)) }
    ensures same { IfOk result (λ batch. batch ++ list.new.items ≡ first.now ++ list.old.items) }
    ensures err { OnErr result (list.new.items ≡ list.old.items) }
{
    if first.is_empty() && list.len() <= PLACE_LIMIT {
        return Ok(Batch::new(share_all(list)?));
    }
    let count = (PLACE_LIMIT - first.len()).min(list.len());
    let places = copies(*list.allocator(), first, &list[..count])?;
    drop(list.drain(..count));
    Ok(Batch::new(places))
}

// All of the list, which is empty then, in O(1) time. Where memory runs out, nothing changes.
fn share_all(list: &mut Vec<Sealed>) -> Result<SharedList<Sealed>, AllocError>
    ensures all { IfOk result (λ shared. shared ≡ list.old.items) }
    ensures ok { OnOk result (list.new.items ≡ []) }
    ensures err { OnErr result (list.new.items ≡ list.old.items) }
{
    let alloc = *list.allocator();
    let all = mem::replace(list, Vec::new(alloc));
    match SharedList::new(alloc, Items::from_vec(all)) {
        Ok(shared) => Ok(shared),
        Err(failed) => {
            *list = failed.value.into_vec();
            Err(AllocError)
        }
    }
}

fn copies(
    alloc: Global,
    first: &[Sealed],
    others: &[Sealed],
) -> Result<SharedList<Sealed>, AllocError>
    ensures { IfOk result (λ copies. copies ≡ first.now ++ others.now) }
{
    let mut copies = Items::new(alloc);
    push_copies(&mut copies, first)?;
    push_copies(&mut copies, others)?;
    Ok(SharedList::new(alloc, copies)?)
}

fn push_copies(copies: &mut Items<Sealed>, transactions: &[Sealed]) -> Result<(), AllocError>
    ensures { OnOk result (copies.new ≡ copies.old ++ transactions.now) }
{
    for transaction in transactions {
        copies.push(transaction.clone()?)?;
    }
    Ok(())
}
