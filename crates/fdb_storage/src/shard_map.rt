ghost use Rattle.std.specs.Prelude.{◌≡◌, ◌++◌, [], ◌∷◌, None, map, OnOk, if◌then◌else◌};
ghost use Rattle.fdb_keys.specs.Answers.{Answers};
ghost use Rattle.fdb_keys.specs.Ranges.{ranges_meet};
ghost use Rattle.fdb_txn.specs.rules.Splits.{piece};
ghost use Rattle.fdb_storage.specs.ShardMaps.{shards_of};

use fdb_keys::{Items, Key, KeyRange, Refusal};
use fdb_mutations::{Mutation, Named};
use fdb_txn::{SHARD_LIMIT, Splits};
use std::alloc::{AllocError, Global};
use std::marker::Model;

/// Which shard holds which key: shards are numbered from 0 in the order of their keys. A shard's tag is its number.
#[derive(Drop)]
pub struct ShardMap {
    alloc: Global,
    splits: Splits,
    ranges: Items<KeyRange>,
}

impl Model for ShardMap {
    ghost use Rattle.std.specs.Prelude.{List};
    ghost use Rattle.fdb_keys.specs.Points.{Point};
    ghost use Rattle.fdb_storage.specs.ShardMaps.{IsShardMap};

    ghost Value = { List Point };

    ghost view = { λ shards. shards.splits };

    ghost invariant = { λ shards. IsShardMap shards.splits shards.ranges };
}

impl ShardMap {
    ghost use Rattle.std.specs.Prelude.{◌≡◌, ◌≤◌, ◌<◌, ℕ, true, false, length, None, filter, IsTrue, IfOk};
    ghost use Rattle.fdb_keys.specs.Answers.{Answers};
    ghost use Rattle.fdb_keys.specs.Points.{point_lt};
    ghost use Rattle.fdb_keys.specs.Ranges.{in_range, ranges_meet};
    ghost use Rattle.fdb_txn.specs.rules.Owners.{first_owner};
    ghost use Rattle.fdb_txn.specs.rules.Splits.{end_of_keys, piece, piece_fault, splits_fault};
    ghost use Rattle.fdb_txn.specs.Limits.{shard_limit};
    ghost use Rattle.fdb_storage.specs.ShardMaps.{shards_of, tags_of};

    /// The shards between the splits, one more than there are. Refused as `BadConfig` where these are more than 64,
    /// where a split is empty and where one doesn't come after the one before it, and as `NoMemory`.
    pub fn new(alloc: Global, splits: &[Key]) -> Result<Self, Refusal>
        ensures { Answers result (splits_fault shard_limit splits.now) (λ shards. shards ≡ splits.now) }
    {
        let splits = Splits::new(alloc, splits, SHARD_LIMIT)?;
        let ranges = pieces_of(alloc, &splits)?;
        Ok(ShardMap {
            alloc,
            splits,
            ranges,
        })
    }

    /// The tags of the mutation, in their order: those of the shards that hold a point that it names. Refused only as
    /// `NoMemory`.
    pub fn tags(&self, mutation: &Mutation) -> Result<Items<u32>, Refusal>
        ensures { Answers result None (λ tags. tags ≡ tags_of self.now mutation.now) }
    {
        match mutation.named() {
            Named::Key(key) => {
                let mut tags = Items::new(self.alloc);
                tags.push(self.shard_of(key))?;
                Ok(tags)
            }
            Named::Range(range) => {
                let tags = self.tags_met(range)?;
                Ok(tags)
            }
        }
    }

    /// The number of the shard that holds the key, in O(log n) comparisons for n shards. It takes no memory.
    pub fn shard_of(&self, key: &Key) -> u32
        ensures number { result ≡ first_owner self.now key.now }
        ensures within { result ≤ length self.now }
        ensures held { IsTrue (in_range (piece self.now result) key.now) }
        ensures alone { (other : ℕ) → other ≤ length self.now → IsTrue (in_range (piece self.now other) key.now)
            → other ≡ result }
    {
        self.splits.piece_of(key) as u32
    }

    /// The number of the shard that holds the range's begin, and so of the first one that the range meets, in O(log n)
    /// comparisons for n shards. The range meets none before it. It takes no memory.
    pub fn first_met(&self, range: &KeyRange) -> u32
        ensures number { result ≡ first_owner self.now range.now.begin }
        ensures within { result ≤ length self.now }
        ensures held { point_lt range.now.begin end_of_keys ≡ true
            → IsTrue (in_range (piece self.now result) range.now.begin) }
        ensures first { (other : ℕ) → other < result → ranges_meet (piece self.now other) range.now ≡ false }
    {
        self.splits.piece_of_text(range.begin()) as u32
    }

    /// The range of the shard with the tag, in O(1) time beside the copies of its two bounds. Refused as `BadConfig`
    /// where no shard has it, and as `NoMemory`.
    pub fn range(&self, tag: u32) -> Result<KeyRange, Refusal>
        ensures { Answers result (piece_fault self.now tag) (λ range. range ≡ piece self.now tag) }
    {
        self.splits.piece(self.alloc, tag as usize)
    }

    // The tags of the shards whose range meets this one.
    fn tags_met(&self, range: &KeyRange) -> Result<Items<u32>, AllocError>
        ensures { IfOk result (λ tags.
            tags ≡ filter (λ (tag : ℕ). ranges_meet (piece self.now tag) range.now) (shards_of self.now)) }
    {
        let mut tags = Items::new(self.alloc);
        for (tag, held) in self.ranges.as_slice().iter().enumerate() {
            add_met(&mut tags, tag as u32, held, range)?;
        }
        Ok(tags)
    }
}

// The range of each shard between the splits.
fn pieces_of(alloc: Global, splits: &Splits) -> Result<Items<KeyRange>, Refusal>
    ensures { Answers result None (λ ranges. ranges ≡ map (piece splits.now) (shards_of splits.now)) }
{
    let mut ranges = Items::new(alloc);
    for number in 0..splits.as_slice().len() + 1 {
        ranges.push(splits.piece(alloc, number)?)?;
    }
    Ok(ranges)
}

// Adds the tag if the two ranges meet.
fn add_met(
    tags: &mut Items<u32>,
    tag: u32,
    held: &KeyRange,
    range: &KeyRange,
) -> Result<(), AllocError>
    ensures { OnOk result (tags.new ≡ tags.old ++ (if ranges_meet held.now range.now then tag ∷ [] else [])) }
{
    if held.meets(range) {
        tags.push(tag)?;
    }
    Ok(())
}
