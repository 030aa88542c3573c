// The shards, read at a version.
ghost use Rattle.std.specs.Prelude.{◌≡◌, ⊤, ◌++◌, ◌&&◌, ℕ, nat_lt, slice_get, None, Some, IsTrue};
ghost use Rattle.std.specs.List.{list_any};
ghost use Rattle.fdb_keys.specs.Answers.{Answers, AnswersExactly};
ghost use Rattle.fdb_keys.specs.Ranges.{ranges_meet};
ghost use Rattle.fdb_keys.specs.Texts.{is_bound};
ghost use Rattle.fdb_core.specs.declared.roles.shard.ShardRole.{ShardRole as Role};
ghost use Rattle.fdb_mutations.specs.Pairs.{pairs_in, first_of};
ghost use Rattle.fdb_core.specs.refinement.shard.Reads.{range_fault, run_map, pairs_held};
ghost use Rattle.fdb_roles.specs.Wanted.{left_of, AreFew};

use crate::roles::shard::ShardRole;
use bytes::Bytes;
use fdb_client::{Page, Snapshot};
use fdb_keys::{Items, Key, KeyRange, Refusal};
use fdb_mutations::{one_more, page_of};
use fdb_proxy::Config;
use fdb_storage::ShardMap;
use fdb_txn::Entry;
use std::alloc::Global;
use std::marker::Model;

/// The shards, read at a version. The book is that whose run they answer from.
#[derive(Drop)]
pub(crate) struct ShardReads<'a> {
    pub(crate) alloc: Global,
    pub(crate) version: u64,
    pub(crate) config: &'a Config,
    pub(crate) book: &'a [Entry],
    pub(crate) shard_map: &'a ShardMap,
    pub(crate) shards: &'a [ShardRole],
}

impl<'a> Model for ShardReads<'a> {
    ghost use Rattle.std.specs.Prelude.{◌≡◌};
    ghost use Rattle.fdb_core.specs.refinement.shard.Reads.{ShardReads as Reads, AreReadable};

    ghost Value = { Reads };

    ghost view = { λ reads. record {
      version = reads.version;
      config = reads.config.now;
      book = reads.book.now;
      shards = reads.shards.now;
    } };

    ghost invariant = { λ reads. (reads.shard_map.now ≡ reads.config.now.shard_splits)
        × AreReadable (record {
          version = reads.version;
          config = reads.config.now;
          book = reads.book.now;
          shards = reads.shards.now;
        }) };
}

impl<'a> ShardReads<'a> {
    // Refused where a shard that holds some of the range has failed or doesn't serve the version. Each point of the
    // range has a shard, since its end is no later than the end of the keys.
    fn check_range(&self, range: &KeyRange) -> Result<(), Refusal>
        ensures answers { AnswersExactly result (range_fault self.now range.now) (λ _. ⊤) }
        ensures legal { IsTrue (is_bound range.now.end) }
    {
        know_end(range);
        if is_failed(self.shards, range) {
            return Err(Refusal::Failed);
        }
        if is_forgotten(self.shards, self.version, range) {
            return Err(Refusal::TransactionTooOld);
        }
        if is_ahead(self.shards, self.version, range) {
            return Err(Refusal::FutureVersion);
        }
        Ok(())
    }

    // The first pairs of the range, so many at most unless that is 0: shard after shard, each asked for no more than is
    // still wanted.
    fn first_pairs(
        &self,
        range: &KeyRange,
        wanted: u32,
        reverse: bool,
    ) -> Result<Items<(Key, Bytes)>, Refusal>
        requires legal { IsTrue (is_bound range.now.end) }
        requires served { range_fault self.now range.now ≡ None }
        ensures { Answers result None
            (λ pairs. pairs ≡ first_of wanted (pairs_in (run_map self.now) range.now reverse)) }
    {
        let mut pairs = Vec::new(self.alloc);
        let count = self.shards.len();
        for step in 0..count {
            let number = if reverse { count - 1 - step } else { step };
            self.add_pairs_of(&mut pairs, &self.shards[number], range, wanted, reverse)?;
        }
        Ok(Items::from_vec(pairs))
    }

    // Adds to pairs what the shard has of the range, so that they are so many at most unless that is 0.
    fn add_pairs_of(
        &self,
        pairs: &mut Vec<(Key, Bytes)>,
        role: &ShardRole,
        range: &KeyRange,
        wanted: u32,
        reverse: bool,
    ) -> Result<(), Refusal>
        requires few { AreFew wanted pairs.old.items }
        requires legal { IsTrue (is_bound range.now.end) }
        requires served { range_fault self.now range.now ≡ None }
        ensures { (i : ℕ) → slice_get self.now.shards i ≡ Some role.now → Answers result None (λ _.
            pairs.new.items ≡ first_of wanted (pairs.old.items ++ pairs_held self.now i range.now reverse)) }
    {
        if let Some(limit) = left_of(wanted, pairs.len()) {
            pairs.append(&mut self.pairs_of(role, range, limit, reverse)?)?;
        }
        Ok(())
    }

    // The first pairs that the shard has of the range, so many at most unless that is 0.
    fn pairs_of(
        &self,
        role: &ShardRole,
        range: &KeyRange,
        limit: u32,
        reverse: bool,
    ) -> Result<Vec<(Key, Bytes)>, Refusal>
        requires legal { IsTrue (is_bound range.now.end) }
        requires served { range_fault self.now range.now ≡ None }
        ensures { (i : ℕ) → slice_get self.now.shards i ≡ Some role.now → Answers result None (λ pairs.
            pairs.items ≡ first_of limit (pairs_held self.now i range.now reverse)) }
    {
        match range.clip(role.state.range())? {
            Some(part) => {
                let page = role.state.page(&part, self.version, limit, reverse)?;
                Ok(page.pairs.into_vec())
            }
            None => Ok(Vec::new(self.alloc)),
        }
    }
}

impl<'a> Snapshot for ShardReads<'a> {
    ghost use Rattle.fdb_core.specs.refinement.shard.Reads.{key_fault, range_fault as range_fault_of, run_map};
    ghost use Rattle.fdb_core.specs.refinement.shard.RangeFaults.{part_served};

    ghost at = { λ reads. reads.version };

    ghost map = { run_map };

    ghost key_fault = { key_fault };

    ghost range_fault = { range_fault_of };

    ghost serves_parts = { part_served };

    fn version(&self) -> u64 {
        self.version
    }

    fn get(&self, key: &Key) -> Result<Option<Bytes>, Refusal> {
        let number = self.shard_map.shard_of(key) as usize;
        self.shards[number].state.get(key, self.version)
    }

    fn page(&self, range: &KeyRange, limit: u32, reverse: bool) -> Result<Page, Refusal> {
        self.check_range(range)?;
        let found = self.first_pairs(range, one_more(limit), reverse)?;
        let (pairs, more) = page_of(found, limit);
        Ok(Page { pairs, more })
    }
}

// A range's end is legal. It does nothing else.
fn know_end(range: &KeyRange)
    ensures { IsTrue (is_bound range.now.end) }
{
    let _end = range.end();
}

// Whether a shard that holds some of the range has failed.
fn is_failed(shards: &[ShardRole], range: &KeyRange) -> bool
    ensures { result ≡ list_any (λ (role : Role).
        ranges_meet role.state.range range.now && role.state.is_failed) shards.now }
{
    shards.iter().any(|role| role.state.range().meets(range) && role.state.is_failed())
}

// Whether a shard that holds some of the range no longer serves the version.
fn is_forgotten(shards: &[ShardRole], version: u64, range: &KeyRange) -> bool
    ensures { result ≡ list_any (λ (role : Role).
        ranges_meet role.state.range range.now && nat_lt version role.state.floor) shards.now }
{
    shards.iter().any(|role| role.state.range().meets(range) && version < role.state.floor())
}

// Whether a shard that holds some of the range doesn't serve the version yet.
fn is_ahead(shards: &[ShardRole], version: u64, range: &KeyRange) -> bool
    ensures { result ≡ list_any (λ (role : Role).
        ranges_meet role.state.range range.now && nat_lt role.state.version version) shards.now }
{
    shards.iter().any(|role| role.state.range().meets(range) && role.state.version() < version)
}

// How many pairs are still wanted of so many, of which there are some already: 0 where all are wanted, and none where
// that many are there.
fn left_of(wanted: u32, count: usize) -> Option<u32>
    ensures { result ≡ left_of wanted count }
{
    if wanted == 0 {
        return Some(0);
    }
    if count < wanted as usize {
        Some(wanted - count as u32)
    } else {
        None
    }
}
