ghost use Rattle.std.specs.Prelude.{ℕ, List, []};

use std::marker::Brand;

/// Names a book by its cells: fronts under one name are of one book.
pub trait BookName {
    // The names of the book's cells, in order.
    ghost cells: { List ℕ };
}

impl BookName for Brand {
    ghost cells = { [] };
}
