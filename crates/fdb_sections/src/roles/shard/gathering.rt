// The first pairs of a range, gathered from shards that are lent one after another.
ghost use Rattle.std.specs.Prelude.{◌≡◌, ◌≤◌, None, OnErr, IsTrue, if◌then◌else◌};
ghost use Rattle.std.specs.Option.{is_none, is_some};
ghost use Rattle.fdb_keys.specs.Answers.{Answers, AnswersExactly};
ghost use Rattle.fdb_keys.specs.Texts.{is_bound};
ghost use Rattle.fdb_txn.specs.book.Book.{last_version};
ghost use Rattle.fdb_roles.specs.Wanted.{left_of, AreFew};
ghost use Rattle.fdb_sections.specs.Gathering.{most_of, gathered_of, some_between, holds_first, part_behind};
ghost use Rattle.fdb_sections.specs.Gathering.{part_fault, take_fault, page_fault, HasTakenPart, HasTaken, IsPageOf};
ghost use Rattle.fdb_sections.specs.ShardViews.{run_of};

use crate::known_front::KnownFront;
use crate::name::DatabaseName;
use crate::roles::shard::ShardAt;
use crate::roles::shard::reader::{Reader, left_of};
use bytes::Bytes;
use fdb_client::Page;
use fdb_keys::{Items, Key, KeyRange, Refusal, is_before};
use fdb_mutations::{one_more, page_of};
use std::alloc::Global;
use std::marker::Model;

// The most pairs that a page has.
const PAGE_LIMIT: u32 = 256;

// How many pairs a page has at most that is asked for so many, where 0 asks for all.
fn most_of(limit: u32) -> u32
    ensures { result ≡ most_of limit }
{
    if limit == 0 || limit > PAGE_LIMIT {
        PAGE_LIMIT
    } else {
        limit
    }
}

// The points from the one up to but not including the other one, if there are any.
fn some_between(alloc: Global, begin: &[u8], end: &[u8]) -> Result<Option<KeyRange>, Refusal>
    requires begin { IsTrue (is_bound begin.now) }
    requires end { IsTrue (is_bound end.now) }
    ensures { Answers result None (λ part. part ≡ some_between begin.now end.now) }
{
    if is_before(begin, end) {
        Ok(Some(KeyRange::new(alloc, begin, end)?))
    } else {
        Ok(None)
    }
}

// The range, if it has a point.
fn all_of(range: &KeyRange) -> Result<Option<KeyRange>, Refusal>
    ensures { Answers result None (λ part. part ≡ some_between range.now.begin range.now.end) }
{
    if range.is_empty() {
        Ok(None)
    } else {
        Ok(Some(range.clone()?))
    }
}

// Whether a shard of this range holds what is read first of the part.
fn holds_first(part: &KeyRange, own: &KeyRange, reverse: bool) -> bool
    ensures { result ≡ holds_first reverse part.now own.now }
{
    if reverse {
        is_before(own.begin(), part.end()) && !is_before(own.end(), part.end())
    } else {
        own.contains_text(part.begin())
    }
}

// What of the part is read behind a shard of this range.
fn part_behind(
    alloc: Global,
    part: &KeyRange,
    own: &KeyRange,
    reverse: bool,
) -> Result<Option<KeyRange>, Refusal>
    ensures { Answers result None (λ behind. behind ≡ part_behind reverse part.now own.now) }
{
    if reverse {
        some_between(alloc, part.begin(), own.begin())
    } else {
        some_between(alloc, own.end(), part.end())
    }
}

// What of the part is read behind the shard. Refused where the shard doesn't hold what is read first of it, and where
// it doesn't serve the version.
fn check_part<B: DatabaseName>(
    alloc: Global,
    version: u64,
    part: &KeyRange,
    at: &ShardAt<B>,
    reverse: bool,
) -> Result<Option<KeyRange>, Refusal>
    ensures { Answers result (part_fault version reverse part.now at.now)
        (λ behind. behind ≡ part_behind reverse part.now at.now.shard.range) }
{
    if !holds_first(part, at.range(), reverse) {
        return Err(Refusal::Unknown);
    }
    at.check_version(version)?;
    part_behind(alloc, part, at.range(), reverse)
}

// What is left, unless as many are there as are wanted.
fn unless_full(left: Option<KeyRange>, wanted: u32, count: usize) -> Option<KeyRange>
    ensures { result ≡ (if is_none (left_of wanted count) then None else left) }
{
    if left_of(wanted, count).is_none() {
        return None;
    }
    left
}

// Adds to the pairs what the shard has of the part, as many as are gathered at most for the limit, and gives what is to
// be looked at then. Refused as `check_part` is, and as `NoMemory`; then the pairs are as they were.
fn take_part<B: DatabaseName>(
    reader: &Reader<'_, B>,
    pairs: &mut Vec<(Key, Bytes)>,
    part: &KeyRange,
    at: &ShardAt<B>,
    limit: u32,
    reverse: bool,
) -> Result<Option<KeyRange>, Refusal>
    requires { AreFew (gathered_of limit) pairs.old.items }
    ensures answers { Answers result (part_fault reader.now.version reverse part.now at.now) (λ left.
        HasTakenPart (run_of B.config reader.now.version reader.now.front.now) (gathered_of limit) reverse part.now
        at.now pairs.old.items pairs.new.items left) }
    ensures refused { OnErr result (pairs.new.items ≡ pairs.old.items) }
{
    let behind = check_part(reader.alloc(), reader.version(), part, at, reverse)?;
    let wanted = one_more(most_of(limit));
    reader.add_pairs_of(pairs, at, part, wanted, reverse)?;
    Ok(unless_full(behind, wanted, pairs.len()))
}

/// The first pairs of a range at a version, gathered for a page from shards that are lent one after another: what is
/// given is what the serial map of the reader's front has there, whichever shards are lent.
///
/// Contracts see what was asked for, and the rest of the range that is to be looked at yet, if more pairs are wanted.
#[derive(Drop)]
pub struct Gathering<'a, B: DatabaseName> {
    reader: Reader<'a, B>,
    range: &'a KeyRange,
    limit: u32,
    reverse: bool,
    rest: Option<KeyRange>,
    pairs: Vec<(Key, Bytes)>,
}

impl<'a, B: DatabaseName> Model for Gathering<'a, B> {
    ghost use Rattle.fdb_sections.specs.Gathering.{Gathering as Seen, IsGathered};

    ghost Value = { Seen };

    ghost view = { λ it. record {
      version = it.reader.version;
      front = it.reader.front.now;
      range = it.range.now;
      limit = it.limit;
      is_reverse = it.reverse;
      rest = it.rest;
    } };

    ghost invariant = { λ it. IsGathered B.config (record {
      version = it.reader.version;
      front = it.reader.front.now;
      range = it.range.now;
      limit = it.limit;
      is_reverse = it.reverse;
      rest = it.rest;
    }) it.pairs.items };
}

impl<'a, B: DatabaseName> Gathering<'a, B> {
    /// Nothing was gathered yet, for a page of the range in the order of keys, or in the reverse order: of so many
    /// pairs at most, but of no more than 256, and of 256 where the limit is 0. Refused only as `NoMemory`. It takes
    /// O(1) time, and copies no byte of the range.
    pub fn new(
        alloc: Global,
        version: u64,
        front: &'a KnownFront<B>,
        range: &'a KeyRange,
        limit: u32,
        reverse: bool,
    ) -> Result<Self, Refusal>
        requires { version ≤ last_version front.now }
        ensures { Answers result None (λ it. it ≡ record {
          version = version;
          front = front.now;
          range = range.now;
          limit = limit;
          is_reverse = reverse;
          rest = some_between range.now.begin range.now.end;
        }) }
    {
        Ok(Gathering {
            reader: Reader::new(alloc, version, front),
            range,
            limit,
            reverse,
            rest: all_of(range)?,
            pairs: Vec::new(alloc),
        })
    }

    /// Whether the page may lack pairs that it is to have: the rest of the range is to be looked at. It takes no
    /// memory, and O(1) time.
    pub fn wants_more(&self) -> bool
        ensures { result ≡ is_some self.now.rest }
    {
        self.rest.is_some()
    }

    /// Takes from the shard what it has of the rest, in the order in which the pairs are read, and no more than are
    /// wanted yet. The rest is then what lies behind the shard, if more are wanted.
    ///
    /// Refused as `Unknown` where nothing more is wanted, and where the shard doesn't hold what is read first of the
    /// rest: its begin, or, in the reverse order, what comes right before its end. Else as `Failed` where memory ran
    /// out in the shard, as `TransactionTooOld` where the version is below its floor, as `FutureVersion` where it is
    /// above its version, and as `NoMemory`. Then nothing changes. It takes the time of one `Shard::page` of what it
    /// adds, which is no more than 257 pairs, and memory for these and for copies of two bounds.
    pub fn take_from(&mut self, at: &ShardAt<B>) -> Result<(), Refusal>
        ensures answers { Answers result (take_fault self.old at.now) (λ _. HasTaken self.old at.now self.new) }
        ensures refused { OnErr result (self.new ≡ self.old) }
    {
        let Some(rest) = &self.rest else {
            return Err(Refusal::Unknown);
        };
        let left = take_part(
            &self.reader,
            &mut self.pairs,
            rest,
            at,
            self.limit,
            self.reverse,
        )?;
        self.rest = left;
        Ok(())
    }

    /// The page, with whether the range has a further pair on the serial map. Refused as `KeyOutsideLegalRange` where
    /// more is wanted. It takes no memory, and O(1) time beside the drop of a pair.
    pub fn into_page(self) -> Result<Page, Refusal>
        ensures { AnswersExactly result (page_fault self.entry.rest) (λ page. IsPageOf B.config self.entry page) }
    {
        if self.rest.is_some() {
            return Err(Refusal::KeyOutsideLegalRange);
        }
        let (pairs, more) = page_of(Items::from_vec(self.pairs), most_of(self.limit));
        Ok(Page { pairs, more })
    }
}
