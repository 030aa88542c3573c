// Ids that stand twice: in a front's entries, or in a batch.
ghost use Rattle.std.specs.Prelude.{◌≡◌, ◌<◌, ◌^◌, nat_lt, length};
ghost use Rattle.fdb_txn.specs.book.Once.{times_with_id, times_in_book};
ghost use Rattle.fdb_book.specs.Ids.{repeated_place};

use crate::front::Front;
use crate::name::BookName;
use fdb_txn::{Sealed, TxnId};

// Whether a transaction of the batch has the id.
fn has_id(batch: &[Sealed], id: TxnId) -> bool
    ensures { result ≡ nat_lt 0 (times_with_id id batch.now) }
{
    for sealed in batch {
        if sealed.id() == id {
            return true;
        }
    }
    false
}

impl<B: BookName> Front<B> {
    // Whether a transaction of the entries has the id.
    fn has_txn(&self, id: TxnId) -> bool
        ensures { result ≡ nat_lt 0 (times_in_book id self.now) }
    {
        for index in 0..self.len {
            if has_id(self.entry_at(index).batch.as_slice(), id) {
                return true;
            }
        }
        false
    }

    // The first place of the batch whose id is in the entries or before it in the batch. It looks at all of them, and
    // takes no memory.
    pub(crate) fn repeated_place(&self, batch: &[Sealed]) -> Option<u32>
        requires few { length batch.now < 2 ^ 32 }
        ensures { result ≡ repeated_place self.now batch.now }
    {
        for place in 0..batch.len() {
            let id = batch[place].id();
            if self.has_txn(id) || has_id(&batch[..place], id) {
                return Some(place as u32);
            }
        }
        None
    }
}
