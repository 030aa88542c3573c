ghost use Rattle.std.specs.Prelude.{◌≡◌, ◌≢◌, ◌<◌, ◌++◌, [], ◌∷◌, nat_lt, length, None, IfOk, OnErr};
ghost use Rattle.std.specs.Arc.{arc_value};
ghost use Rattle.std.specs.Option.{MatchOption};
ghost use Rattle.std.specs.List.{list_all};
ghost use Rattle.fdb_keys.specs.Answers.{Answers};
ghost use Rattle.fdb_keys.specs.declared.refusal.Refusal.TheVariants.{NoMemory, Taken};
ghost use Rattle.fdb_txn.specs.book.History.{IsSealed};
ghost use Rattle.fdb_book.specs.Appending.{has_next_horizon, goes_on, append_fault, Appends};
ghost use Rattle.fdb_book.specs.Fronts.{AreOfFirst, shown};
ghost use Rattle.fdb_book.specs.Ids.{Covers};

use crate::book::Book;
use crate::facts::Facts;
use crate::found::Found;
use crate::front::Front;
use crate::latest::{try_with_ids, with_ids};
use crate::name::BookName;
use fdb_keys::{Refusal, Refused};
use fdb_txn::{Entry, Sealed};
use once_cell::race::OnceBox;
use std::alloc::{AllocError, Global};
use std::collections::BTreeMap;
use std::marker::PhantomData;
use std::mem;
use std::sync::Arc;

/// Appends an entry to the book behind the front, and gives the front one entry longer. Refused, in this order,
///
/// - as `Chain` where the entry's previous version isn't the front's, or its version isn't above that or above each of
///   its read versions, or its horizon is below the front's, or isn't below its version;
/// - as `Repeated`, with the first such place, where the id of one of its transactions stands in the front or before it
///   in the batch;
/// - as `BookFull` where the front has an entry in each cell;
/// - as `NoMemory` where memory runs out;
/// - as `Taken` where another entry stands in the cell. What shows that it does is handed out, and with it the front
///   one longer by that entry, wherever that one could be appended, as it could where `append` put all entries there.
///
/// An equal entry that stands in the cell is as good as the given one. No clause says what a refused call leaves in the
/// cell; that the right entry can still be appended is tested.
///
/// It takes O(s + b log s) for b transactions of the entry and s sessions with a transaction in the book, to copy the
/// greatest number of each session; at a front that is a share, or that was cut, it goes over all transactions that the
/// front shows. Where the number of some transaction of the entry isn't above those of its session before, or memory
/// runs out for the numbers, it goes over all of them for each of the entry's.
pub fn append<B: BookName>(
    alloc: Global,
    book: &Book<B>,
    front: &Front<B>,
    entry: Entry,
) -> Result<Front<B>, Refused<Option<Found<B>>>>
    ensures { Appends (length B.cells) front.now entry result }
{
    let _ = &book.cells;
    match front.prepare(alloc, &entry) {
        Ok(latest) => front.set_next(alloc, entry, latest),
        Err(why) => Err(Refused { why, back: None }),
    }
}

/// Appends as `append` does, but to the front itself, which is one entry longer from then on, and gives a share of it
/// to hand on. It makes the share before it sets the cell: so the entry doesn't come to stand where memory runs out for
/// the share. Refused as `append` is, in the same order; then the front is as it was, and a refusal hands out what one
/// of `append` does.
///
/// It takes O(b log s) for b transactions of the entry and s sessions with a transaction in the book, since it adds to
/// the front's own numbers. The first one at a front that is a share or that was cut, and the next one after a refusal
/// as `NoMemory`, `Repeated` or `Taken`, goes over all transactions that the front shows. One that is refused as
/// `Chain` or `BookFull`, and one with a number that isn't above those of its session, takes as long as an `append`.
pub fn append_and_share<B: BookName>(
    alloc: Global,
    book: &Book<B>,
    front: &mut Front<B>,
    entry: Entry,
) -> Result<Front<B>, Refused<Option<Found<B>>>>
    ensures answers { Appends (length B.cells) front.old entry result }
    ensures longer { IfOk result (λ share. front.new ≡ share) }
    ensures refused { OnErr result (front.new ≡ front.old) }
{
    let _ = &book.cells;
    match front.prepare_in_place(alloc, &entry) {
        Ok(latest) => front.go_on(alloc, entry, latest),
        Err(why) => Err(Refused { why, back: None }),
    }
}

impl<B: BookName> Front<B> {
    // Answers why the entry may not be appended. Where it may, gives the greatest number of each session with those of
    // the entry. Whoever looks at a batch knows that its transactions are sealed.
    fn prepare(&self, alloc: Global, entry: &Entry) -> Result<BTreeMap<u32, u64>, Refusal>
        ensures answers { Answers result (append_fault (length B.cells) self.now entry.now)
            (λ latest. Covers latest (self.now ++ entry.now ∷ [])) }
        ensures sealed { IsSealed entry.now }
    {
        let latest = self.copy_latest(alloc);
        self.prepare_with(latest, entry)
    }

    // The same with the front's own numbers, which it knows no longer then.
    fn prepare_in_place(
        &mut self,
        alloc: Global,
        entry: &Entry,
    ) -> Result<BTreeMap<u32, u64>, Refusal>
        ensures answers { Answers result (append_fault (length B.cells) self.old entry.now)
            (λ latest. Covers latest (self.old ++ entry.now ∷ [])) }
        ensures sealed { IsSealed entry.now }
        ensures same { self.new ≡ self.old }
    {
        // An entry that doesn't go on, or for which there is no cell, leaves the front its numbers.
        if self.len == self.cells.len() || !goes_on(self.version(), self.horizon(), entry) {
            return self.prepare(alloc, entry);
        }
        let latest = self.take_latest(alloc);
        self.prepare_with(latest, entry)
    }

    // The same with numbers that cover the front's ids, or where memory ran out for them.
    fn prepare_with(
        &self,
        latest: Result<BTreeMap<u32, u64>, AllocError>,
        entry: &Entry,
    ) -> Result<BTreeMap<u32, u64>, Refusal>
        requires { IfOk latest (λ latest. Covers latest self.now) }
        ensures answers { Answers result (append_fault (length B.cells) self.now entry.now)
            (λ latest. Covers latest (self.now ++ entry.now ∷ [])) }
        ensures sealed { IsSealed entry.now }
    {
        let batch = entry.batch.as_slice();
        if !goes_on(self.version(), self.horizon(), entry) {
            return Err(Refusal::Chain);
        }
        let taken = try_with_ids(latest, batch);
        if !matches!(&taken, Ok((_, true))) {
            if let Some(place) = self.repeated_place(batch) {
                return Err(Refusal::Repeated(place));
            }
        }
        if self.len == self.cells.len() {
            return Err(Refusal::BookFull);
        }
        Ok(taken?.0)
    }

    // A copy of the greatest numbers, made of the entries where they aren't known.
    fn copy_latest(&self, alloc: Global) -> Result<BTreeMap<u32, u64>, AllocError>
        ensures { IfOk result (λ latest. Covers latest self.now) }
    {
        if self.knows_ids {
            self.latest.clone()
        } else {
            self.latest_of_entries(alloc)
        }
    }

    // The greatest numbers, which the front knows no longer then, made of the entries where they aren't known.
    fn take_latest(&mut self, alloc: Global) -> Result<BTreeMap<u32, u64>, AllocError>
        ensures ids { IfOk result (λ latest. Covers latest self.old) }
        ensures same { self.new ≡ self.old }
    {
        if self.knows_ids {
            self.knows_ids = false;
            Ok(mem::replace(&mut self.latest, BTreeMap::new(alloc)))
        } else {
            self.latest_of_entries(alloc)
        }
    }

    // The greatest number of each session, of the entries.
    fn latest_of_entries(&self, alloc: Global) -> Result<BTreeMap<u32, u64>, AllocError>
        ensures { IfOk result (λ latest. Covers latest self.now) }
    {
        let mut latest = BTreeMap::new(alloc);
        for index in 0..self.len {
            let batch = self.entry_at(index).batch.as_slice();
            latest = with_ids(latest, batch)?.0;
        }
        Ok(latest)
    }

    // Sets the next cell to the entry, which may be appended, or finds what it holds.
    fn set_next(
        &self,
        alloc: Global,
        entry: Entry,
        latest: BTreeMap<u32, u64>,
    ) -> Result<Self, Refused<Option<Found<B>>>>
        requires fits { append_fault (length B.cells) self.now entry ≡ None }
        requires sealed { IsSealed entry }
        requires ids { Covers latest (self.now ++ entry ∷ []) }
        ensures { Appends (length B.cells) self.now entry result }
    {
        // All that may be refused comes before the cell is set.
        let Ok((cells, entry)) = make_room(alloc, &self.cells, entry) else {
            return Err(Refused {
                why: Refusal::NoMemory,
                back: None,
            });
        };
        let (facts, other) = self.fill_next(entry);
        let len = self.len + 1;
        let Some(other) = other else {
            return Ok(Front {
                cells,
                facts,
                len,
                latest,
                knows_ids: true,
                name: PhantomData,
            });
        };
        match self.prepare(alloc, other) {
            Ok(latest) => {
                let seen = facts.first(len);
                let front = Front {
                    cells,
                    facts,
                    len,
                    latest,
                    knows_ids: true,
                    name: PhantomData,
                };
                Err(Refused {
                    why: Refusal::Taken,
                    back: Some(Found::new(seen, self.len, Some(front))),
                })
            }
            Err(Refusal::NoMemory) => Err(Refused {
                why: Refusal::NoMemory,
                back: None,
            }),
            Err(_) => Err(Refused {
                why: Refusal::Taken,
                back: Some(Found::new(facts, self.len, None)),
            }),
        }
    }

    // Goes on by the entry in the same way, and gives a share, of which the part that takes memory is made first.
    fn go_on(
        &mut self,
        alloc: Global,
        entry: Entry,
        latest: BTreeMap<u32, u64>,
    ) -> Result<Self, Refused<Option<Found<B>>>>
        requires fits { append_fault (length B.cells) self.old entry ≡ None }
        requires sealed { IsSealed entry }
        requires ids { Covers latest (self.old ++ entry ∷ []) }
        ensures answers { Appends (length B.cells) self.old entry result }
        ensures longer { IfOk result (λ share. self.new ≡ share) }
        ensures refused { OnErr result (self.new ≡ self.old) }
    {
        let Ok(cells) = Arc::try_clone(&self.cells) else {
            return Err(Refused {
                why: Refusal::NoMemory,
                back: None,
            });
        };
        match self.set_next(alloc, entry, latest) {
            Ok(longer) => {
                let share = longer.cut_with(cells, longer.len);
                *self = longer;
                Ok(share)
            }
            Err(refused) => Err(refused),
        }
    }

    // Fills the next cell, or reads what it holds. Gives what is known with it, and the entry that was found there
    // where it isn't equal to the given one.
    fn fill_next(&self, entry: Box<Entry>) -> (Facts<Entry>, Option<&Entry>)
        requires { length self.now < length B.cells }
        ensures first { AreOfFirst B.cells result.0.known }
        ensures entry { MatchOption result.1 (shown result.0.known ≡ self.now ++ entry.value ∷ [])
            (λ other. (shown result.0.known ≡ self.now ++ other.now ∷ []) × (other.now ≢ entry.value)) }
    {
        let cell = &self.cells[self.len];
        match self.facts.fill(cell, entry) {
            Ok(facts) => (facts, None),
            Err((entry, facts)) => {
                let found = facts.value(self.len, cell);
                if *found == *entry {
                    (facts, None)
                } else {
                    (facts, Some(found))
                }
            }
        }
    }
}

// Whether the entry goes on from the version and the horizon.
fn goes_on(last: u64, horizon: u64, entry: &Entry) -> bool
    ensures { result ≡ goes_on last horizon entry.now }
{
    entry.prev == last
        && last < entry.version
        && has_next_horizon(horizon, entry)
        && reads_below(entry.batch.as_slice(), entry.version)
}

// Whether the entry's horizon goes on from this one.
fn has_next_horizon(horizon: u64, entry: &Entry) -> bool
    ensures { result ≡ has_next_horizon horizon entry.now }
{
    horizon <= entry.horizon && entry.horizon < entry.version
}

// Whether each of the transactions read below the version.
fn reads_below(batch: &[Sealed], version: u64) -> bool
    ensures { result ≡ list_all (λ t. nat_lt t.read version) batch.now }
{
    for sealed in batch {
        if sealed.read_version() >= version {
            return false;
        }
    }
    true
}

// A share of the cells, and the entry in a box.
fn make_room(
    alloc: Global,
    cells: &Arc<Vec<OnceBox<Entry>>>,
    entry: Entry,
) -> Result<(Arc<Vec<OnceBox<Entry>>>, Box<Entry>), AllocError>
    ensures { IfOk result (λ made. (arc_value made.0 ≡ arc_value cells.now) × (made.1.value ≡ entry)) }
{
    let shared = Arc::try_clone(cells)?;
    Ok((shared, Box::new(alloc, entry)?))
}
