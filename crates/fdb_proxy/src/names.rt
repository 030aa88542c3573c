// The ids of the requests that a commit proxy holds.
use fdb_txn::{Sealed, TxnId};
use std::alloc::{AllocError, Global};
use std::collections::HashSet;

/// The ids of some requests, each of which is found by its hash.
///
/// An id is kept as its session and its number, since a pair has a hash and an id has none.
#[derive(Drop)]
pub(crate) struct Names {
    ids: HashSet<(u32, u64)>,
}

impl Names {
    ghost use Rattle.std.specs.Prelude.{◌≡◌, ◌≤◌, ◌&&◌, ◌||◌, false, not, IsOk, OnOk};
    ghost use Rattle.fdb_txn.specs.Equality.{txn_id_eq};
    ghost use Rattle.fdb_txn.specs.declared.txn_id.TxnId.{TxnId};
    ghost use Rattle.fdb_proxy.specs.Names.{has, room_of};
    ghost use Rattle.fdb_proxy.specs.Requests.{is_named};

    /// No id. It takes no memory.
    pub(crate) fn new(alloc: Global) -> Self
        ensures { (id : TxnId) → has result id ≡ false }
    {
        Names {
            ids: HashSet::new(alloc),
        }
    }

    /// Whether the id is one of them, in O(1) expected time.
    pub(crate) fn contains(&self, id: TxnId) -> bool
        ensures { result ≡ has self.now id }
    {
        self.ids.contains(&(id.session, id.number))
    }

    /// Makes room for one more. No id comes or goes.
    pub(crate) fn reserve(&mut self) -> Result<(), AllocError>
        ensures ok { OnOk result (1 ≤ room_of self.new) }
        ensures same { (id : TxnId) → has self.new id ≡ has self.old id }
        ensures ready { 1 ≤ room_of self.old → IsOk result }
    {
        self.ids.reserve(1)
    }

    /// Adds the id, for which there is room. It takes no memory, and O(1) expected time.
    pub(crate) fn add(&mut self, id: TxnId)
        requires { 1 ≤ room_of self.old }
        ensures { (other : TxnId) → has self.new other ≡ (txn_id_eq id other || has self.old other) }
    {
        // where there is room it always comes in
        let _ = self.ids.insert((id.session, id.number));
    }

    /// Takes the ids of the transactions out. It takes no memory, and O(n) expected time for n transactions.
    pub(crate) fn remove_all(&mut self, transactions: &[Sealed])
        ensures { (id : TxnId) → has self.new id ≡ (not (is_named transactions.now id) && has self.old id) }
    {
        for transaction in transactions {
            self.remove(transaction.id());
        }
    }

    fn remove(&mut self, id: TxnId)
        ensures { (other : TxnId) → has self.new other ≡ (not (txn_id_eq id other) && has self.old other) }
    {
        self.ids.remove(&(id.session, id.number));
    }
}
