//! What fronts show, and why appends are refused.
ghost use Rattle.fdb_book.specs.Examples.{WorkedAppends, WorkedHorizons, WorkedCapacities};
ghost use Rattle.fdb_book.specs.Laws.{FrontsAreBooks};

use fdb_txn::laws::books_are_entries;

/// What a front shows is a book of sealed transactions, as its length says, where its moves go to resolvers that exist:
/// so it is a list of entries from version 0 on.
pub fn fronts_are_books()
    ensures { FrontsAreBooks }
{
    books_are_entries();
}

/// Why appends and books are refused, by examples: which refusal comes first, and how many cells a book has.
pub fn worked_refusals()
    ensures appends { WorkedAppends }
    ensures horizons { WorkedHorizons }
    ensures capacities { WorkedCapacities }
{}
