ghost use Rattle.std.specs.Prelude.{◌≡◌, ◌≤◌, suc, false, length, None, IfOk};
ghost use Rattle.fdb_keys.specs.Answers.{Answers};
ghost use Rattle.fdb_mutations.specs.Pairs.{pairs_in};
ghost use Rattle.fdb_txn.specs.book.Book.{last_version};
ghost use Rattle.fdb_txn.specs.book.History.{IsBook, AreEntries};
ghost use Rattle.fdb_roles.specs.Layers.{IsBookOf};
ghost use Rattle.fdb_sections.specs.Asking.{HoldsOnRun};
ghost use Rattle.fdb_sections.specs.LentShards.{lent_shards, lending_fault};
ghost use Rattle.fdb_sections.specs.Reading.{RefusedBy};
ghost use Rattle.fdb_sections.specs.Records.{every_key, is_end_of_keys, is_every_key, record_fault};
ghost use Rattle.fdb_sections.specs.ShardViews.{run_of};

use crate::known_front::KnownFront;
use crate::name::{ClusterName, DatabaseName, Layered};
use crate::roles::sequencer::GrantMessage;
use crate::roles::shard::ShardAt;
use crate::roles::shard::lent_shards::LentShards;
use crate::roles::shard::reader::Reader;
use bytes::Bytes;
use fdb_book::Front;
use fdb_client::Snapshot;
use fdb_keys::{Items, Key, KeyRange, Refusal};
use fdb_roles::Layer;
use std::alloc::Global;
use std::marker::Model;

// The range that has every key. Refused only as `NoMemory`.
#[tactic(auto, unfolding(fdb_keys::specs::Points::point_lt))]
fn every_key(alloc: Global) -> Result<KeyRange, Refusal>
    ensures { Answers result None (λ range. range ≡ every_key) }
{
    KeyRange::new(alloc, &[], &[0xff])
}

// Whether the text is the end of that range.
fn is_end_of_keys(text: &[u8]) -> bool
    ensures { result ≡ is_end_of_keys text.now }
{
    match text {
        [byte] => *byte == 0xff,
        _ => false,
    }
}

// Whether the range is that one.
fn is_every_key(range: &KeyRange) -> bool
    ensures { result ≡ is_every_key range.now }
{
    range.begin().is_empty() && is_end_of_keys(range.end())
}

/// What a database holds at a version: a front of its book that reaches the version, and all its pairs there.
#[derive(Drop)]
pub struct Record<B: DatabaseName> {
    front: KnownFront<B>,
    committed: u64,
    pairs: Items<(Key, Bytes)>,
}

impl<B: DatabaseName> Model for Record<B> {
    ghost use Rattle.fdb_sections.specs.Records.{RecordAtFront, IsRecord};

    ghost Value = { RecordAtFront };

    ghost view = { λ it. record { front = it.front; committed = it.committed; pairs = it.pairs } };

    ghost invariant = { λ it. IsRecord B.config
        (record { front = it.front; committed = it.committed; pairs = it.pairs }) };
}

impl<B: DatabaseName> Record<B> {
    /// What the shards have of every key at the version that was granted. They are all shards, in the order of their
    /// ranges. Refused as `Unknown` and `KeyOutsideLegalRange` where they don't hold every key, one after another, as
    /// `Failed` where memory ran out in one, as `TransactionTooOld` and `FutureVersion` where one doesn't serve the
    /// version, and as `NoMemory`. It takes O(s) time for s shards, beside that of reading all their pairs.
    pub fn at(
        alloc: Global,
        granted: &GrantMessage<B>,
        shards: &[&ShardAt<B>],
    ) -> Result<Self, Refusal>
        ensures value { IfOk result (λ it. it ≡ record {
          front = granted.now.front;
          committed = granted.now.committed;
          pairs = pairs_in (run_of B.config granted.now.committed granted.now.front) every_key false;
        }) }
        ensures fault { RefusedBy result
            (lending_fault granted.now.committed every_key (lent_shards shards.now)) }
    {
        let range = every_key(alloc)?;
        let reader = Reader::new(alloc, granted.committed(), granted.front());
        let lent = LentShards::new(reader, &range, shards)?;
        Self::of(&lent)
    }

    // What shards have that were lent for every key. Refused as `KeyOutsideLegalRange` where they were lent for
    // another range, and as `NoMemory`. It takes the time of `LentShards::pairs`.
    fn of(lent: &LentShards<B>) -> Result<Self, Refusal>
        ensures { Answers result (record_fault lent.now.range) (λ it. it ≡ record {
          front = lent.now.front;
          committed = lent.now.version;
          pairs = pairs_in (run_of B.config lent.now.version lent.now.front) every_key false;
        }) }
    {
        if !is_every_key(lent.range()) {
            return Err(Refusal::KeyOutsideLegalRange);
        }
        let pairs = lent.pairs()?;
        let front = lent.front().share()?;
        let committed = lent.version();
        Ok(Record {
            front,
            committed,
            pairs,
        })
    }

    /// The front of the book: a book, on which `serial_check` may be called. It takes no memory, and O(1) time.
    pub fn front(&self) -> &Front<B>
        ensures value { result.now ≡ self.now.front }
        ensures book { IsBook (suc (length B.config.resolver_splits)) result.now }
        ensures entries { AreEntries (suc (length B.config.resolver_splits)) 0 result.now }
    {
        self.front.know_book();
        self.front.front()
    }

    /// The version, which the front reaches. It takes no memory, and O(1) time.
    pub fn committed(&self) -> u64
        ensures value { result ≡ self.now.committed }
        ensures reached { result ≤ last_version self.now.front }
    {
        self.committed
    }

    /// The pairs of all keys at the version, in key order: those of the serial map of the front there. It takes no
    /// memory, and O(1) time.
    pub fn pairs(&self) -> &[(Key, Bytes)]
        ensures value { result.now ≡ self.now.pairs }
        ensures serial { result.now ≡ pairs_in (run_of B.config self.now.committed self.now.front) every_key false }
    {
        self.pairs.as_slice()
    }

    /// Says that the front is a book of transactions that the database allows, each answered as on the serial map at
    /// its read version, and does nothing else. It takes no memory, and O(1) time.
    pub fn know_allowed(&self)
        ensures { ∥ IsBookOf B.allows B.config.resolver_splits self.now.front ∥₁ }
    {
        self.front.know_allowed();
    }
}

impl<B: ClusterName, L: Layer> Record<Layered<B, L>> {
    /// Says that what each transaction of the layer keeps holds of the serial map of the front, at every version, and
    /// does nothing else. It takes no memory, and O(1) time.
    pub fn know_layer(&self)
        ensures { HoldsOnRun L.holds B.config.resolver_splits self.now.front }
    {
        self.front.know_layer();
    }
}
