// Shards that are lent to a reader for the whole of a call, one after another: they hold a range together.
ghost use Rattle.std.specs.Prelude.{◌≡◌, ◌≤◌, ⊤, false, None, IfOk};
ghost use Rattle.fdb_keys.specs.Answers.{Answers, AnswersExactly};
ghost use Rattle.fdb_mutations.specs.Pairs.{pairs_in};
ghost use Rattle.fdb_txn.specs.book.Book.{last_version};
ghost use Rattle.fdb_sections.specs.LentShards.{lent_shards, lending_fault, next_fault, row_begin, row_fault};
ghost use Rattle.fdb_sections.specs.ShardViews.{run_of};

use crate::known_front::KnownFront;
use crate::name::DatabaseName;
use crate::roles::shard::ShardAt;
use crate::roles::shard::reader::Reader;
use bytes::Bytes;
use fdb_client::{Page, Snapshot};
use fdb_keys::{Items, Key, KeyRange, Refusal, is_before};
use fdb_mutations::{one_more, page_of};
use std::marker::Model;

// Refused where the shard doesn't begin at the point, or has no key from there on, and where it doesn't serve the
// version.
fn check_next<B: DatabaseName>(at: &ShardAt<B>, version: u64, from: &[u8]) -> Result<(), Refusal>
    ensures { AnswersExactly result (next_fault version from.now at.now) (λ _. ⊤) }
{
    let range = at.range();
    if !range.contains_text(from) || is_before(range.begin(), from) {
        return Err(Refusal::Unknown);
    }
    at.check_version(version)
}

// Refused where the shards don't hold what comes from the one point on up to the other one, each from where the one
// before it ends, and where one of them doesn't serve the version.
fn check_row<B: DatabaseName>(
    shards: &[&ShardAt<B>],
    version: u64,
    from: &[u8],
    until: &[u8],
) -> Result<(), Refusal>
    ensures { AnswersExactly result (row_fault version until.now from.now (lent_shards shards.now)) (λ _. ⊤) }
{
    match shards {
        [] if is_before(from, until) => Err(Refusal::KeyOutsideLegalRange),
        [] => Ok(()),
        [first, others @ ..] => {
            let at: &ShardAt<B> = *first;
            check_next(at, version, from)?;
            check_row(others, version, at.range().end(), until)
        }
    }
}

// Where the first of the shards begins, if it holds the begin of the range, and else that.
fn row_begin<'a, B: DatabaseName>(shards: &'a [&'a ShardAt<B>], range: &'a KeyRange) -> &'a [u8]
    ensures { result.now ≡ row_begin range.now (lent_shards shards.now) }
{
    match shards {
        [first, ..] => {
            let at: &ShardAt<B> = *first;
            let own = at.range();
            if own.contains_text(range.begin()) {
                own.begin()
            } else {
                range.begin()
            }
        }
        [] => range.begin(),
    }
}

/// Shards that hold a range together, lent to who reads them at a version: their answers are those of the serial map of
/// the reader's front.
#[derive(Drop)]
pub(crate) struct LentShards<'a, B: DatabaseName> {
    reader: Reader<'a, B>,
    range: &'a KeyRange,
    shards: &'a [&'a ShardAt<B>],
}

impl<'a, B: DatabaseName> Model for LentShards<'a, B> {
    ghost use Rattle.fdb_sections.specs.LentShards.{LentShards as Seen, lent_shards, AreInARow, HoldAll};

    ghost Value = { Seen };

    ghost view = { λ it. record {
      version = it.reader.version;
      front = it.reader.front.now;
      range = it.range.now;
    } };

    ghost invariant = { λ it. AreInARow it.reader.version (lent_shards it.shards.now)
        × HoldAll it.range.now (lent_shards it.shards.now) };
}

impl<'a, B: DatabaseName> LentShards<'a, B> {
    /// The shards, each of which begins where the one before it ends, lent to the reader of the range. Refused as
    /// `Unknown` where the first one doesn't hold the range's begin, and where one doesn't begin where the one before
    /// it ends; as `Failed` where memory ran out in one, as `TransactionTooOld` where the version is below its floor
    /// and as `FutureVersion` where it is above its version; and as `KeyOutsideLegalRange` where some of the range
    /// comes behind the last one. It takes no memory, and O(s) time for s shards.
    pub(crate) fn new(
        reader: Reader<'a, B>,
        range: &'a KeyRange,
        shards: &'a [&'a ShardAt<B>],
    ) -> Result<Self, Refusal>
        ensures answers { AnswersExactly result (lending_fault reader.entry.version range.now (lent_shards shards.now))
            (λ _. ⊤) }
        ensures value { IfOk result (λ it. it
            ≡ record { version = reader.entry.version; front = reader.entry.front.now; range = range.now }) }
    {
        check_row(
            shards,
            reader.version(),
            row_begin(shards, range),
            range.end(),
        )?;
        Ok(LentShards {
            reader,
            range,
            shards,
        })
    }

    /// The reader's front. It takes no memory, and O(1) time.
    pub(crate) fn front(&self) -> &KnownFront<B>
        ensures value { result.now ≡ self.now.front }
        ensures reached { self.now.version ≤ last_version self.now.front }
    {
        self.reader.front()
    }

    /// The range that the shards hold. It takes no memory, and O(1) time.
    pub(crate) fn range(&self) -> &KeyRange
        ensures { result.now ≡ self.now.range }
    {
        self.range
    }

    /// All pairs of the range in key order, as they stand on the serial map. Refused only as `NoMemory`. It takes O(s)
    /// time for s shards, and that of a `Shard::page` of all that each of them has of the range.
    pub(crate) fn pairs(&self) -> Result<Items<(Key, Bytes)>, Refusal>
        ensures { Answers result None (λ pairs. pairs
            ≡ pairs_in (run_of B.config self.now.version self.now.front) self.now.range false) }
    {
        let pairs = self.reader.first_pairs(self.shards, self.range, 0, false)?;
        Ok(Items::from_vec(pairs))
    }
}

/// What lies outside of the range is refused as `KeyOutsideLegalRange`.
impl<'a, B: DatabaseName> Snapshot for LentShards<'a, B> {
    ghost use Rattle.fdb_sections.specs.LentShards.{key_fault, range_fault as range_fault_of, part_lent};
    ghost use Rattle.fdb_sections.specs.ShardViews.{run_of};

    ghost at = { λ it. it.version };

    ghost map = { λ it. run_of B.config it.version it.front };

    ghost key_fault = { key_fault };

    ghost range_fault = { range_fault_of };

    ghost serves_parts = { part_lent };

    fn version(&self) -> u64 {
        self.reader.version()
    }

    fn get(&self, key: &Key) -> Result<Option<Bytes>, Refusal> {
        if !self.range.contains(key) {
            return Err(Refusal::KeyOutsideLegalRange);
        }
        self.reader.get_of(self.shards, key)
    }

    fn page(&self, range: &KeyRange, limit: u32, reverse: bool) -> Result<Page, Refusal> {
        if !range.is_within(self.range) {
            return Err(Refusal::KeyOutsideLegalRange);
        }
        let found = self
            .reader
            .first_pairs(self.shards, range, one_more(limit), reverse)?;
        let (pairs, more) = page_of(Items::from_vec(found), limit);
        Ok(Page { pairs, more })
    }
}
