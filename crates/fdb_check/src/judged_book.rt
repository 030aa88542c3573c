// A book of which it is known what becomes of its places.
ghost use Rattle.fdb_check.specs.Checking.{FindsSerialized};

use crate::comparing::check_placed;
use crate::entries::check_book;
use crate::fault::CheckFault;
use crate::judged::judge_book;
use fdb_keys::{Items, Key, Refusal};
use fdb_proxy::Outcome;
use fdb_roles::Placed;
use fdb_txn::Entry;
use std::alloc::Global;
use std::marker::Model;

/// A book whose entries follow on one another, with what becomes of their places by the rule over the splits. It is
/// made by one call, from the splits and the book alone, and it stays as it is.
#[derive(Drop)]
pub struct JudgedBook<'a> {
    splits: &'a [Key],
    book: &'a [Entry],
    // what becomes of the places of each entry, by its number
    outcomes: Items<Items<Outcome>>,
}

impl<'a> Model for JudgedBook<'a> {
    ghost use Rattle.std.specs.Prelude.{suc, length};
    ghost use Rattle.fdb_check.specs.Judged.{AreJudged, FollowOn, JudgedBook};

    ghost Value = { JudgedBook };

    ghost view = { λ judged. record { splits = judged.splits.now; book = judged.book.now } };

    ghost invariant = { λ judged. FollowOn (suc (length judged.splits.now)) 0 0 judged.book.now
        × AreJudged judged.splits.now judged.book.now judged.outcomes };
}

impl<'a> JudgedBook<'a> {
    ghost use Rattle.std.specs.Prelude.{◌≡◌, suc, length};
    ghost use Rattle.fdb_txn.specs.book.History.{AreEntries, HorizonsRise};
    ghost use Rattle.fdb_check.specs.Judged.{AreJudged, JudgesBook};

    /// Judges the book: the splits part the keys among resolvers, and what becomes of each place of the entries is
    /// what the rule over all resolvers says. Refused as `BadConfig` exactly where the keys are no splits into at most
    /// 64 pieces; else as `Chain` exactly where the entries are none of a book: their versions rise from 0, each
    /// previous version is that of the entry before, horizons never fall, and each lies below its entry's version; each
    /// transaction reads below its entry's version, and moves go to resolvers that exist. Else it is refused only as
    /// `NoMemory`. A refused call leaves nothing behind.
    ///
    /// It takes O(n + e r) time for e entries with n moves, places and ranges of their sets, and r resolvers, beside
    /// what the owners take to learn the moves and to part the ranges, and the resolvers to take their parts. It keeps
    /// O(p) memory for p places.
    pub fn new(alloc: Global, splits: &'a [Key], book: &'a [Entry]) -> Result<Self, Refusal>
        ensures { JudgesBook result splits.entry.now book.entry.now }
    {
        check_book(splits, book)?;
        let outcomes = judge_book(alloc, splits, book)?;
        Ok(JudgedBook {
            splits,
            book,
            outcomes,
        })
    }

    /// The entries, which follow on one another. It takes no memory, and O(1) time.
    pub fn book(&self) -> &[Entry]
        ensures lent { result.now ≡ self.now.book }
        ensures entries { AreEntries (suc (length self.now.splits)) 0 self.now.book }
        ensures horizons { HorizonsRise 0 self.now.book }
    {
        self.book
    }

    /// What becomes of the places of each entry, by its number. It takes no memory, and O(1) time.
    pub(crate) fn outcomes(&self) -> &[Items<Outcome>]
        ensures { AreJudged self.now.splits self.now.book result.now }
    {
        self.outcomes.as_slice()
    }

    /// Compares transcripts with the run of the book's committed transactions, one at a time, as `serial_check` does.
    /// Answers the number of transcripts exactly where each is serialized at its spot; a fault `Txn` names the first
    /// one that isn't, in the order of the run; and else it fails only as `NoMemory`. The book stays judged.
    ///
    /// It takes O(t log t + t log e) time for t transcripts and e entries; O(p + m log k) to run the p places with
    /// their m mutations up to the last spot, for k keys of the map; and for each transcript what `is_answered_on` and
    /// `is_request_of` take.
    pub fn check(&self, alloc: Global, placed: &[Placed]) -> Result<u64, CheckFault>
        ensures { FindsSerialized result self.now.splits self.now.book placed.now }
    {
        check_placed(alloc, self.outcomes.as_slice(), self.book, placed)
    }
}
