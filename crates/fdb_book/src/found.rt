ghost use Rattle.fdb_book.specs.Fronts.{AreKnownUpTo, shown};

use crate::book::Book;
use crate::facts::Facts;
use crate::front::Front;
use crate::name::BookName;
use fdb_txn::Entry;
use std::marker::{Model, PhantomData};

/// What was found in the cell behind a front: an entry, with what shows that it stands there for good. It is made only
/// where the cell is seen to hold it. Contracts see the front's entries with that one behind them, and the front that
/// shows them, which there is where that entry could be appended.
#[derive(Drop)]
pub struct Found<B: BookName> {
    facts: Facts<Entry>,
    // The number of its cell.
    index: usize,
    front: Option<Front<B>>,
    name: PhantomData<B>,
}

impl<B: BookName> Model for Found<B> {
    ghost use Rattle.fdb_book.specs.Appending.{Found as AFound};
    ghost use Rattle.fdb_book.specs.Fronts.{AreKnownUpTo, shown};

    ghost Value = { AFound };

    ghost view = { λ found. record { entries = shown found.facts.known; front = found.front } };

    ghost invariant = { λ found. AreKnownUpTo B.cells found.facts.known found.index };
}

impl<B: BookName> Found<B> {
    ghost use Rattle.std.specs.Prelude.{◌≡◌, ◌++◌, [], ◌∷◌, List};
    ghost use Rattle.fdb_txn.specs.declared.entry.Entry.{Entry as AnEntry};

    /// The entry, lent by the book. It takes no memory, and O(1) time.
    pub fn entry<'a>(&self, book: &'a Book<B>) -> &'a Entry
        ensures { (before : List AnEntry) × (self.now.entries ≡ before ++ result.now ∷ []) }
    {
        self.facts.value(self.index, &book.cells[self.index])
    }

    /// The front one longer by the entry, where that could be appended. It takes no memory, and O(1) time.
    pub fn into_front(self) -> Option<Front<B>>
        ensures { result ≡ self.front }
    {
        self.front
    }

    // What these facts show, the last of them of the cell with the number, and the front, where there is one.
    pub(crate) fn new(facts: Facts<Entry>, index: usize, front: Option<Front<B>>) -> Self
        requires { AreKnownUpTo B.cells facts.known index }
        ensures { result ≡ record { entries = shown facts.known; front = front } }
    {
        Found {
            facts,
            index,
            front,
            name: PhantomData,
        }
    }
}
