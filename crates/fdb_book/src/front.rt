ghost use Rattle.std.specs.Prelude.{◌≡◌, ◌<◌, ◌≤◌, [], map, take, length, slice_get, Some, None};
ghost use Rattle.std.specs.Arc.{arc_value};
ghost use Rattle.std.specs.Option.{option_copied};
ghost use Rattle.once_cell.specs.Once.{cell_name};
ghost use Rattle.fdb_keys.specs.Answers.{Answers};
ghost use Rattle.fdb_txn.specs.book.Book.{last_version, last_horizon};
ghost use Rattle.fdb_book.specs.Fronts.{IsLinkedBook};
ghost use Rattle.fdb_book.specs.Ids.{Covers};

use crate::book::Book;
use crate::facts::Facts;
use crate::name::BookName;
use fdb_keys::Refusal;
use fdb_txn::Entry;
use once_cell::race::OnceBox;
use std::alloc::Global;
use std::collections::BTreeMap;
use std::marker::{Model, PhantomData};
use std::sync::Arc;

/// What someone has seen of a book: its first entries, up to some number of them. Contracts see it as the list of
/// these entries. It holds a share of the book's cells and a token of what they hold, so no entry is copied with it.
#[derive(Drop)]
pub struct Front<B: BookName> {
    pub(crate) cells: Arc<Vec<OnceBox<Entry>>>,
    pub(crate) facts: Facts<Entry>,
    pub(crate) len: usize,
    // The greatest number of each session, where it is known: a share and a cut begin without them.
    pub(crate) latest: BTreeMap<u32, u64>,
    pub(crate) knows_ids: bool,
    pub(crate) name: PhantomData<B>,
}

impl<B: BookName> Model for Front<B> {
    ghost use Rattle.std.specs.Prelude.{List, map};
    ghost use Rattle.std.specs.Arc.{arc_value};
    ghost use Rattle.once_cell.specs.Once.{cell_name};
    ghost use Rattle.fdb_book.specs.Fronts.{IsFront, shown};
    ghost use Rattle.fdb_txn.specs.declared.entry.Entry.{Entry as AnEntry};

    ghost Value = { List AnEntry };

    ghost view = { λ front. shown front.facts.known };

    ghost invariant = { λ front. IsFront B.cells (map cell_name (arc_value front.cells).items) front.facts.known
        front.len front.knows_ids front.latest };
}

/// The front of no entries. Refused as `NoMemory` where memory runs out.
pub fn empty<B: BookName>(alloc: Global, book: &Book<B>) -> Result<Front<B>, Refusal>
    ensures { Answers result None (λ front. front ≡ []) }
{
    Ok(Front {
        cells: Arc::try_clone(&book.cells)?,
        facts: Facts::none(),
        len: 0,
        latest: BTreeMap::new(alloc),
        knows_ids: true,
        name: PhantomData,
    })
}

impl<B: BookName> Front<B> {
    /// How many entries the front shows. They are a book of sealed transactions, wherever their moves go.
    pub fn len(&self) -> usize
        ensures len { result ≡ length self.now }
        ensures book { IsLinkedBook self.now }
    {
        self.len
    }

    /// The version of the last entry, 0 where there is none.
    pub fn version(&self) -> u64
        ensures { result ≡ last_version self.now }
    {
        if self.len == 0 {
            return 0;
        }
        self.entry_at(self.len - 1).version
    }

    /// The horizon of the last entry, 0 where there is none.
    pub fn horizon(&self) -> u64
        ensures { result ≡ last_horizon self.now }
    {
        if self.len == 0 {
            return 0;
        }
        self.entry_at(self.len - 1).horizon
    }

    /// The entry of this number, from 0, and none where the front shows no more than that many.
    pub fn entry(&self, index: usize) -> Option<&Entry>
        ensures { option_copied result ≡ slice_get self.now index }
    {
        if index < self.len {
            Some(self.entry_at(index))
        } else {
            None
        }
    }

    /// A copy of each entry, in order, which shares its transactions. Refused as `NoMemory` where memory runs out.
    pub fn entries(&self) -> Result<Vec<Entry>, Refusal>
        ensures { Answers result None (λ entries. entries.items ≡ self.now) }
    {
        let alloc = *self.cells.allocator();
        let mut entries = Vec::with_capacity(alloc, self.len)?;
        for index in 0..self.len {
            entries.push(self.entry_at(index).clone()?)?;
        }
        Ok(entries)
    }

    /// The front of the first entries, as many as are asked for. It takes the same time whatever their number. Refused
    /// as `NoMemory` where memory runs out.
    pub fn cut(&self, len: usize) -> Result<Self, Refusal>
        requires { len ≤ length self.now }
        ensures { Answers result None (λ front. front ≡ take len self.now) }
    {
        let cells = Arc::try_clone(&self.cells)?;
        Ok(self.cut_with(cells, len))
    }

    /// The same front once more, as for another thread. No entry is copied, and it takes the same time whatever their
    /// number. Refused as `NoMemory` where memory runs out.
    pub fn share(&self) -> Result<Self, Refusal>
        ensures { Answers result None (λ front. front ≡ self.now) }
    {
        self.cut(self.len)
    }

    // The front of the first entries, over this share of the book's cells. It takes no memory.
    pub(crate) fn cut_with(&self, cells: Arc<Vec<OnceBox<Entry>>>, len: usize) -> Self
        requires cells { map cell_name (arc_value cells).items ≡ B.cells }
        requires within { len ≤ length self.now }
        ensures { result ≡ take len self.now }
    {
        let alloc = *self.cells.allocator();
        Front {
            cells,
            facts: self.facts.first(len),
            len,
            latest: BTreeMap::new(alloc),
            knows_ids: false,
            name: PhantomData,
        }
    }

    // The entry of this number.
    pub(crate) fn entry_at(&self, index: usize) -> &Entry
        requires { index < length self.now }
        ensures { slice_get self.now index ≡ Some result.now }
    {
        self.facts.value(index, &self.cells[index])
    }
}
