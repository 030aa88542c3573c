//! What sessions come to and are told, for the reader of their definitions.
ghost use Rattle.fdb_sections.specs.Examples.{WorkedConflicts, WorkedEndings, WorkedFullBooks, WorkedPlaces};
ghost use Rattle.fdb_sections.specs.Examples.{WorkedReasons, WorkedRefusals};
ghost use Rattle.fdb_sections.specs.ReceiptLaws.{ReceiptsTellTheMap};
ghost use Rattle.fdb_sections.specs.Examples.{WorkedSessions, WorkedTurnedDown, WorkedUnreadable, WorkedUntaken};

/// What a session comes to that begins and learns, which transactions are turned down, why a session is refused,
/// when its transaction is open again, when it is told that the book is full, with which points a refusal comes, why a
/// shard's thread ended, what a read is told of an unreadable key, and what calls are refused by, by examples.
pub fn worked_examples()
    ensures sessions { WorkedSessions }
    ensures turned_down { WorkedTurnedDown }
    ensures reasons { WorkedReasons }
    ensures untaken { WorkedUntaken }
    ensures full_books { WorkedFullBooks }
    ensures conflicts { WorkedConflicts }
    ensures places { WorkedPlaces }
    ensures endings { WorkedEndings }
    ensures unreadable { WorkedUnreadable }
    ensures refusals { WorkedRefusals }
{}

/// A receipt of a transaction that stands in an entry tells of the run: its reads were answered on the serial map right
/// before its place, the map right after it is what its mutations, with their stamps, leave of that one, and who only
/// set a key finds the value there.
pub fn receipts_tell_the_map()
    ensures { ReceiptsTellTheMap }
{}
