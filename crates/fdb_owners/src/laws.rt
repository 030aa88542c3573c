//! What owners have to do with the moves of a book, for the proofs of the crates that use them.
ghost use Rattle.fdb_owners.specs.OwnersLaws.{OwnedAtSomeVersion, NewGoesOn, LearningGoesOn, ExpiringGoesOn};
ghost use Rattle.fdb_owners.specs.OwnersLaws.{OwnedByTheBook};
ghost use Rattle.fdb_owners.specs.Examples.{WorkedOwners, WorkedRefusals};

/// A resolver owned a point between two versions exactly where it was the owner at one of them.
pub fn points_are_owned_exactly_where_at_some_version()
    ensures { OwnedAtSomeVersion }
{}

/// Owners that learn the moves of a book's entries one after another are, from the floor on, those of the book.
pub fn owners_are_by_the_book()
    ensures new { NewGoesOn }
    ensures learning { LearningGoesOn }
    ensures expiring { ExpiringGoesOn }
    ensures owned { OwnedByTheBook }
{}

/// Who owns a key when, and how often that changes, by examples.
pub fn worked_owners()
    ensures { WorkedOwners }
{}

/// Which splits are refused for how many resolvers, and which versions aren't learnt, by examples.
pub fn worked_refusals()
    ensures { WorkedRefusals }
{}
