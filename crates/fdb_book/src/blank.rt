ghost use Rattle.std.specs.Prelude.{◌≡◌, length, IfOk};
ghost use Rattle.fdb_keys.specs.Answers.{Answers};
ghost use Rattle.fdb_book.specs.Fronts.{capacity_fault};

use fdb_keys::Refusal;
use fdb_txn::{BOOK_LIMIT, Entry};
use once_cell::race::OnceBox;
use std::alloc::{AllocError, Global};
use std::marker::Model;
use std::sync::Arc;

/// The cells of a book to come, each of them empty. Contracts see it as the list of the cells' names.
#[derive(Drop)]
pub struct Blank {
    pub(crate) cells: Arc<Vec<OnceBox<Entry>>>,
}

impl Model for Blank {
    ghost use Rattle.std.specs.Prelude.{ℕ, List, map};
    ghost use Rattle.std.specs.Arc.{arc_value};
    ghost use Rattle.once_cell.specs.Once.{cell_name};

    ghost Value = { List ℕ };

    ghost view = { λ blank. map cell_name (arc_value blank.cells).items };
}

impl Blank {
    /// Makes the cells of a book with room for this many entries. Refused as `BadConfig` outside 1 to 1,048,576, and as
    /// `NoMemory` where memory runs out.
    pub fn new(alloc: Global, capacity: u32) -> Result<Self, Refusal>
        ensures { Answers result (capacity_fault capacity) (λ blank. length blank ≡ capacity) }
    {
        if capacity == 0 || capacity > BOOK_LIMIT {
            return Err(Refusal::BadConfig);
        }
        let cells = Arc::new(alloc, empty_cells(alloc, capacity)?)?;
        Ok(Blank { cells })
    }

    /// How many entries there is room for. It takes no memory, and O(1) time.
    pub fn capacity(&self) -> usize
        ensures { result ≡ length self.now }
    {
        self.cells.len()
    }
}

fn empty_cells(alloc: Global, count: u32) -> Result<Vec<OnceBox<Entry>>, AllocError>
    ensures { IfOk result (λ cells. length cells.items ≡ count) }
{
    let mut cells = Vec::with_capacity(alloc, count as usize)?;
    for _made in 0..count {
        cells.push(OnceBox::new(alloc))?;
    }
    Ok(cells)
}
