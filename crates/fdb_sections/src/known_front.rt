ghost use Rattle.std.specs.Prelude.{◌≡◌, ◌<◌, ◌≤◌, ◌^◌, [], suc, take, length, slice_get, None, IfOk, OnErr};
ghost use Rattle.std.specs.Option.{option_copied};
ghost use Rattle.fdb_keys.specs.Answers.{Answers, AnswersExactly};
ghost use Rattle.std.specs.List.{AllByRecursion};
ghost use Rattle.fdb_txn.specs.declared.entry.Move.{Move as AMove};
ghost use Rattle.fdb_txn.specs.book.Book.{last_version};
ghost use Rattle.fdb_txn.specs.book.History.{AreEntries, HorizonsRise, IsBook, IsSealed};
ghost use Rattle.fdb_book.specs.Fronts.{IsPrefix};
ghost use Rattle.fdb_roles.specs.Layers.{IsBookOf};
ghost use Rattle.fdb_sections.specs.Asking.{AreAsked, HoldsOnRun};
ghost use Rattle.fdb_sections.specs.Issuing.{AppendsToFront};
ghost use Rattle.fdb_sections.specs.Turns.{front_fault, HasOneMore};

use crate::name::{ClusterName, DatabaseName, Layered};
use fdb_book::{Book, Front, agree, append_and_share, empty};
use fdb_keys::Refusal;
use fdb_roles::{Layer, a_book_keeps_what_each_transaction_keeps};
use fdb_txn::Entry;
use std::alloc::Global;
use std::marker::Model;

/// A front of which it is known that its entries are the database's: their transactions are sealed, each of them was
/// asked for by a transcript that the database allows and that was answered as on the run, and their moves go to
/// resolvers that the database has. It is all that is known of the book where a lock is taken or a message received.
#[derive(Drop)]
pub struct KnownFront<B: DatabaseName> {
    front: Front<B>,
}

impl<B: DatabaseName> Model for KnownFront<B> {
    ghost use Rattle.std.specs.Prelude.{List, suc, length};
    ghost use Rattle.fdb_txn.specs.declared.entry.Entry.{Entry as AnEntry};
    ghost use Rattle.fdb_txn.specs.book.History.{AreEntries};
    ghost use Rattle.fdb_sections.specs.Asking.{EachAsked};

    ghost Value = { List AnEntry };

    ghost view = { λ known. known.front };

    ghost invariant = { λ known. AreEntries (suc (length B.config.resolver_splits)) 0 known.front
        × ∥ EachAsked B.allows B.config.resolver_splits known.front ∥₁ };
}

impl<B: DatabaseName> KnownFront<B> {
    /// The front of no entries. Refused only as `NoMemory`.
    pub(crate) fn empty(alloc: Global, book: &Book<B>) -> Result<Self, Refusal>
        ensures { Answers result None (λ front. front ≡ []) }
    {
        Ok(KnownFront {
            front: empty(alloc, book)?,
        })
    }

    /// The front, lent. It takes no memory, and O(1) time.
    pub fn front(&self) -> &Front<B>
        ensures value { result.now ≡ self.now }
        ensures entries { AreEntries (suc (length B.config.resolver_splits)) 0 self.now }
    {
        &self.front
    }

    /// How many entries it shows.
    pub(crate) fn len(&self) -> usize
        ensures { result ≡ length self.now }
    {
        self.front.len()
    }

    /// The version of the last entry, 0 where there is none.
    pub(crate) fn version(&self) -> u64
        ensures { result ≡ last_version self.now }
    {
        self.front.version()
    }

    /// The entry with the number, if it shows it.
    pub(crate) fn entry(&self, index: usize) -> Option<&Entry>
        ensures { option_copied result ≡ slice_get self.now index }
    {
        self.front.entry(index)
    }

    /// The same front once more. Refused only as `NoMemory`.
    pub(crate) fn share(&self) -> Result<Self, Refusal>
        ensures { Answers result None (λ front. front ≡ self.now) }
    {
        Ok(KnownFront {
            front: self.front.share()?,
        })
    }

    /// The front of the first entries. Refused only as `NoMemory`.
    pub(crate) fn cut(&self, len: usize) -> Result<Self, Refusal>
        requires { len ≤ length self.now }
        ensures { Answers result None (λ front. front ≡ take len self.now) }
    {
        Ok(KnownFront {
            front: self.front.cut(len)?,
        })
    }

    /// Appends an entry to the book behind the front, which has it last from then on, and gives a share of the longer
    /// front to hand on. Its transactions are asked for at another front of the book. Refused as `Chain` where the
    /// entry doesn't go on from the front or has a transaction that didn't read below it, as `Repeated` where an id
    /// stands in the front or earlier in the entry, as `BookFull`, as `NoMemory`, and as `Taken` where another entry
    /// stands in the book; then the front is as it was. It takes O(b log s) for b transactions of the entry and s
    /// sessions, at a front that is no share of another.
    pub(crate) fn append(
        &mut self,
        alloc: Global,
        book: &Book<B>,
        entry: Entry,
        asked: &Self,
    ) -> Result<Self, Refusal>
        requires moves { AllByRecursion (λ (move : AMove). move.to < suc (length B.config.resolver_splits))
            entry.moves }
        requires asked { ∥ AreAsked B.allows B.config.resolver_splits asked.now entry.batch ∥₁ }
        ensures answers { AppendsToFront (length B.cells) self.old entry result }
        ensures longer { IfOk result (λ share. self.new ≡ share) }
        ensures refused { OnErr result (self.new ≡ self.old) }
    {
        know_sealed(&entry);
        match append_and_share(alloc, book, &mut self.front, entry) {
            Ok(share) => {
                let _order = agree(&asked.front, &share);
                Ok(KnownFront { front: share })
            }
            Err(refused) => Err(refused.why),
        }
    }

    /// Its entries are the database's. It does nothing but say so.
    pub(crate) fn know_entries(&self)
        ensures { AreEntries (suc (length B.config.resolver_splits)) 0 self.now }
    {
        let _front = &self.front;
    }

    /// They are a book of transactions that the database allows, each answered as on the run. It does nothing but say
    /// so.
    pub fn know_allowed(&self)
        ensures { ∥ IsBookOf B.allows B.config.resolver_splits self.now ∥₁ }
    {
        let _count = self.front.len();
    }

    /// Their horizons never fall. It does nothing but say so.
    pub(crate) fn know_horizons(&self)
        ensures { HorizonsRise 0 self.now }
    {
        let _count = self.front.len();
    }

    /// They are a book. It does nothing but say so.
    pub(crate) fn know_book(&self)
        ensures { IsBook (suc (length B.config.resolver_splits)) self.now }
    {
        let _count = self.front.len();
    }

    /// They are so many that a number holds them. It does nothing but say so.
    pub(crate) fn know_len(&self)
        ensures { length self.now < 2 ^ 64 }
    {
        let _count = self.front.len();
    }

    /// Both are fronts of one book, so the longer one begins with the shorter one. It does nothing but say so.
    pub(crate) fn know_one_book(&self, other: &Self)
        ensures shorter { length self.now ≤ length other.now → IsPrefix self.now other.now }
        ensures longer { length other.now ≤ length self.now → IsPrefix other.now self.now }
    {
        let _order = agree(&self.front, &other.front);
    }

    /// Whether another front has just one entry more. Refused as `Stale` where it has no more, and as `NotYet` with the
    /// own last version where it has more than one more. It takes no memory.
    pub(crate) fn check_next(&self, other: &Self) -> Result<(), Refusal>
        ensures answers { AnswersExactly result (front_fault self.now other.now) (λ _. HasOneMore self.now other.now) }
        ensures entries { AreEntries (suc (length B.config.resolver_splits)) 0 other.now }
        ensures horizons { HorizonsRise 0 other.now }
    {
        other.know_entries();
        other.know_horizons();
        let own = self.len();
        let theirs = other.len();
        self.know_one_book(other);
        if theirs <= own {
            return Err(Refusal::Stale);
        }
        if theirs != own + 1 {
            return Err(Refusal::NotYet(self.version()));
        }
        Ok(())
    }
}

impl<B: ClusterName, L: Layer> KnownFront<Layered<B, L>> {
    /// What each transaction of the layer keeps holds of the serial map of the front at every version. It does nothing
    /// but say so.
    pub fn know_layer(&self)
        ensures { HoldsOnRun L.holds B.config.resolver_splits self.now }
    {
        a_book_keeps_what_each_transaction_keeps::<L>();
        self.know_allowed();
    }
}

// The entry's transactions are sealed: the write set of each has what its mutations name. It does nothing but say so.
fn know_sealed(entry: &Entry)
    ensures { IsSealed entry.now }
{
    let _transactions = entry.batch.as_slice();
}
