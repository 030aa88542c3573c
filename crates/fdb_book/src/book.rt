ghost use Rattle.std.specs.Prelude.{◌≡◌};

use crate::blank::Blank;
use crate::name::BookName;
use fdb_txn::Entry;
use once_cell::race::OnceBox;
use std::marker::{Model, PhantomData};
use std::sync::Arc;

/// A book of set-once cells, each with room for one entry. Contracts see it as the list of the cells' names.
#[derive(Drop)]
pub struct Book<B: BookName> {
    pub(crate) cells: Arc<Vec<OnceBox<Entry>>>,
    name: PhantomData<B>,
}

impl<B: BookName> Model for Book<B> {
    ghost use Rattle.std.specs.Prelude.{◌≡◌, ℕ, List, map};
    ghost use Rattle.std.specs.Arc.{arc_value};
    ghost use Rattle.once_cell.specs.Once.{cell_name};

    ghost Value = { List ℕ };

    ghost view = { λ book. map cell_name (arc_value book.cells).items };

    ghost invariant = { λ book. map cell_name (arc_value book.cells).items ≡ B.cells };
}

impl<B: BookName> Book<B> {
    /// The book of these cells, which the name `B` lists. Whoever makes the blank hands it to a function over `B`, and
    /// picks the name at that call. It takes no memory.
    pub fn open(blank: Blank) -> Self
        requires { blank ≡ B.cells }
        ensures { result ≡ B.cells }
    {
        Book {
            cells: blank.cells,
            name: PhantomData,
        }
    }
}
