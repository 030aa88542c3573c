// The conflict set of a session's last transaction.
ghost use Rattle.std.specs.Prelude.{◌≡◌, ◌↔◌, IsTrue};
ghost use Rattle.std.specs.Option.{option_copied};
ghost use Rattle.fdb_machine.specs.machine.Conflicts.{IsConflictOf};
ghost use Rattle.fdb_core.specs.refinement.Cluster.{machine_of};
ghost use Rattle.fdb_core.specs.refinement.Conflicts.{HasPoint, IsFoundIn, IsFound};
ghost use Rattle.fdb_core.specs.refinement.Restoring.{Tied};

use crate::cluster::Cluster;
use fdb_keys::{Items, RangeSet};
use fdb_txn::{Entry, Sealed, TxnId};

// Whether it is the transaction with the id, and conflicts.
fn is_conflict(sealed: &Sealed, conflict: &RangeSet, id: TxnId) -> bool
    ensures { IsTrue result ↔ (HasPoint conflict.now × (sealed.now.id ≡ id)) }
{
    conflict.has_points() && sealed.id() == id
}

// The set of the transaction with the id, if it is among those of the batch that conflict. It takes O(1) time where
// the batch has no sets, and O(n) for n places.
fn find_in<'a>(batch: &[Sealed], conflicts: &'a [RangeSet], id: TxnId) -> Option<&'a RangeSet>
    ensures { IsFoundIn batch.now conflicts.now id (option_copied result) }
{
    let count = usize::min(batch.len(), conflicts.len());
    for place in 0..count {
        let conflict = &conflicts[place];
        if is_conflict(&batch[place], conflict, id) {
            return Some(conflict);
        }
    }
    None
}

// The same of all entries, the last one first.
fn find<'a>(book: &[Entry], conflicts: &'a [Items<RangeSet>], id: TxnId) -> Option<&'a RangeSet>
    ensures { IsFound book.now conflicts.now id (option_copied result) }
{
    let count = usize::min(book.len(), conflicts.len());
    for behind in 0..count {
        let i = count - 1 - behind;
        if let Some(conflict) = find_in(book[i].batch.as_slice(), conflicts[i].as_slice(), id) {
            return Some(conflict);
        }
    }
    None
}

impl Cluster {
    /// The conflict set of the session's last transaction, where that was refused for a conflict and the session was
    /// told so.
    pub(crate) fn conflict(&self, session: u32) -> Option<&RangeSet>
        requires { Tied self.now }
        ensures { IsConflictOf (machine_of self.now) session (option_copied result) }
    {
        match self.sessions.last_told(session) {
            Some(id) => find(self.book.as_slice(), self.conflicts.as_slice(), id),
            None => None,
        }
    }
}
