// A shard, read by who has seen a front of its own.
ghost use Rattle.std.specs.Prelude.{◌≡◌, ◌≤◌};
ghost use Rattle.fdb_keys.specs.Answers.{Answers};
ghost use Rattle.fdb_mutations.specs.Pairs.{pairs_in, first_of};
ghost use Rattle.fdb_txn.specs.book.Book.{last_version};
ghost use Rattle.fdb_sections.specs.ShardViews.{range_fault, run_map};

use crate::known_front::KnownFront;
use crate::name::DatabaseName;
use crate::roles::shard::ShardAt;
use bytes::Bytes;
use fdb_client::{Page, Snapshot};
use fdb_keys::{Key, KeyRange, Refusal};
use std::marker::Model;

/// A shard, read at a version by who has seen the front: its answers are those of that front's serial map.
#[derive(Drop)]
pub(crate) struct ShardView<'a, B: DatabaseName> {
    version: u64,
    front: &'a KnownFront<B>,
    at: &'a ShardAt<B>,
}

impl<'a, B: DatabaseName> Model for ShardView<'a, B> {
    ghost use Rattle.fdb_sections.specs.ShardViews.{ShardView as View, HasTheRunOf};

    ghost Value = { View };

    ghost view = { λ it. record { version = it.version; front = it.front.now; at = it.at.now } };

    ghost invariant = { λ it. HasTheRunOf B.config it.version it.at.now.front it.front.now };
}

impl<'a, B: DatabaseName> ShardView<'a, B> {
    /// The shard read at a version that the reader's front reaches. It takes no memory.
    pub(crate) fn new(version: u64, front: &'a KnownFront<B>, at: &'a ShardAt<B>) -> Self
        requires { version ≤ last_version front.now }
        ensures { result ≡ record { version = version; front = front.now; at = at.now } }
    {
        front.know_entries();
        at.front.know_entries();
        at.front.know_one_book(front);
        ShardView { version, front, at }
    }

    /// The first pairs of the range, in the order of keys or in the reverse order, and at most `limit` of them unless
    /// that is 0. Refused as a page of it is. It takes the time of one `Shard::page`.
    pub(crate) fn first_pairs(
        &self,
        range: &KeyRange,
        limit: u32,
        reverse: bool,
    ) -> Result<Vec<(Key, Bytes)>, Refusal>
        ensures { Answers result (range_fault self.now range.now) (λ pairs. pairs.items
            ≡ first_of limit (pairs_in (run_map B.config self.now) range.now reverse)) }
    {
        let at = self.at;
        let found = at.shard.page(range, self.version, limit, reverse)?;
        Ok(found.pairs.into_vec())
    }
}

/// A key that the shard doesn't hold is refused as `KeyOutsideLegalRange`, and so is a range of which it holds a part
/// alone; a version below its floor as `TransactionTooOld`, one above its version as `FutureVersion`; and all as
/// `Failed` once memory ran out in it, before any of these.
impl<'a, B: DatabaseName> Snapshot for ShardView<'a, B> {
    ghost use Rattle.fdb_sections.specs.ShardViews.{key_fault, range_fault as range_fault_of, run_map, part_served};

    ghost at = { λ view. view.version };

    ghost map = { λ view. run_map B.config view };

    ghost key_fault = { key_fault };

    ghost range_fault = { range_fault_of };

    ghost serves_parts = { part_served };

    fn version(&self) -> u64 {
        self.version
    }

    fn get(&self, key: &Key) -> Result<Option<Bytes>, Refusal> {
        let at = self.at;
        at.shard.get(key, self.version)
    }

    fn page(&self, range: &KeyRange, limit: u32, reverse: bool) -> Result<Page, Refusal> {
        let at = self.at;
        let found = at.shard.page(range, self.version, limit, reverse)?;
        Ok(found)
    }
}
