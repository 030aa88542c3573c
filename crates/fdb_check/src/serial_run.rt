// The run of a judged book, entry by entry.
ghost use Rattle.std.specs.Prelude.{◌≡◌, ◌<◌, length, MatchResult};
ghost use Rattle.fdb_txn.specs.book.Book.{seen_before};
ghost use Rattle.fdb_txn.specs.rules.SerialMap.{serial_map};

use crate::fault::CheckFault;
use crate::judged_book::JudgedBook;
use crate::run::{Run, new_run, run_entry};
use fdb_mutations::PlainMap;
use std::alloc::Global;
use std::marker::Model;

/// The run of a judged book's committed transactions, one at a time, between two of its entries.
#[derive(Drop)]
pub struct SerialRun<'a> {
    judged: &'a JudgedBook<'a>,
    // at the first place of the next entry
    run: Run<'a>,
}

impl<'a> Model for SerialRun<'a> {
    ghost use Rattle.fdb_check.specs.Running.{SerialRun, HasComeTo};

    ghost Value = { SerialRun };

    ghost view = { λ it. record { judged = it.judged.now; entries = it.run.entry } };

    ghost invariant = { λ it. HasComeTo it.judged.now.splits it.judged.now.book it.run.entry 0 it.run };
}

impl<'a> SerialRun<'a> {
    ghost use Rattle.fdb_check.specs.Running.{after_next};

    /// The run before the first entry. It takes no memory, and O(1) time.
    pub fn new(alloc: Global, judged: &'a JudgedBook<'a>) -> SerialRun<'a>
        ensures { result ≡ record { judged = judged.entry.now; entries = 0 } }
    {
        SerialRun {
            judged,
            run: new_run(alloc, judged.outcomes()),
        }
    }

    /// How many entries it has run. It takes no memory, and O(1) time.
    pub fn entries(&self) -> usize
        ensures { result ≡ self.now.entries }
    {
        self.run.entry
    }

    /// The serial map after the entries that it has run: what their committed transactions make of the empty map, one
    /// at a time, by entry and place. It takes no memory, and O(1) time.
    pub fn map(&self) -> &PlainMap
        ensures { result.now
            ≡ serial_map self.now.judged.splits (seen_before self.now.judged.book self.now.entries).places }
    {
        &self.run.map
    }

    /// Runs the next entry; at the end of the book the run is given back as it is. It fails only as `NoMemory`, and
    /// never at the end of the book. The run is then gone, since it was passed by value; the judged book stays, and a
    /// new run of it may begin.
    ///
    /// It takes O(p + m log k) time for the p places of the entry and the m mutations of those that commit, for k keys
    /// of the map, beside the bytes that they write; a clear counts once for each key that it takes away.
    pub fn next_entry(self) -> Result<SerialRun<'a>, CheckFault>
        ensures { MatchResult result (λ run. run ≡ after_next self.entry)
            (λ fault. (fault ≡ CheckFault.NoMemory) × (self.entry.entries < length self.entry.judged.book)) }
    {
        let SerialRun { judged, mut run } = self;
        run_entry(&mut run, judged.book())?;
        Ok(SerialRun { judged, run })
    }
}
