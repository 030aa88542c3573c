ghost use Rattle.std.specs.Prelude.{◌≡◌, ℕ, Option, None};
ghost use Rattle.std.specs.FinMap.{get};
ghost use Rattle.fdb_keys.specs.Answers.{Answers};
ghost use Rattle.fdb_keys.specs.Points.{Point};
ghost use Rattle.fdb_keys.specs.Ranges.{Range};
ghost use Rattle.fdb_keys.specs.declared.refusal.Refusal.{Refusal as Fault};
ghost use Rattle.fdb_mutations.specs.Maps.{Map};
ghost use Rattle.fdb_client.specs.Merging.{IsPartOf};
ghost use Rattle.fdb_client.specs.Pages.{IsPage};

use bytes::Bytes;
use fdb_keys::{Key, KeyRange, Refusal};
use fdb_mutations::Page;

/// What is read at one version: all answers are those of one map. What can't answer refuses, as a shard does that
/// doesn't serve the version.
pub trait Snapshot {
    // The version, the map, and why a key or a range is not read.
    ghost at: { Self → ℕ };

    ghost map: { Self → Map };

    ghost key_fault: { Self → Point → Option Fault };

    ghost range_fault: { Self → Range → Option Fault };

    /// The version that is read at.
    fn version(&self) -> u64
        ensures { result ≡ at self.now };

    /// The value of the key, if it has one.
    fn get(&self, key: &Key) -> Result<Option<Bytes>, Refusal>
        ensures { Answers result (key_fault self.now key.now) (λ value. value ≡ get (map self.now) key.now) };

    /// The first pairs of the range, in the order of keys or in the reverse order: at most `limit` of them, or any
    /// number where `limit` is 0. A page may have fewer than there are, but at least one if there is one.
    fn page(&self, range: &KeyRange, limit: u32, reverse: bool) -> Result<Page, Refusal>
        ensures { Answers result (range_fault self.now range.now) (IsPage (map self.now) range.now limit reverse) };

    // A part of a range that isn't refused isn't refused.
    ghost serves_parts: { (snapshot : Self) (part range : Range) → IsPartOf part range
        → range_fault snapshot range ≡ None → range_fault snapshot part ≡ None };
}
