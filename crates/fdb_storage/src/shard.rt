use crate::applying::apply_messages;
use crate::copying::copy_part;
use crate::paging::page_of;
use crate::stamped::have_stamped;
use crate::version_map::VersionMap;
use bytes::Bytes;
use fdb_keys::{Key, KeyRange, Refusal};
use fdb_log::Peek;
use fdb_mutations::{Page, PlainMap, copied};
use fdb_txn::check_turn;
use std::alloc::Global;
use std::marker::Model;

/// A shard: it holds a range of keys, and answers at each version from its floor through its version.
#[derive(Drop)]
pub struct Shard {
    alloc: Global,
    tag: u32,
    range: KeyRange,
    version: u64,
    floor: u64,
    is_failed: bool,
    // The keys of the range, each with the versions that are still told apart.
    map: VersionMap,
}

impl Model for Shard {
    ghost use Rattle.fdb_storage.specs.Shards.{Shard as ShardValue, IsShard};

    ghost Value = { ShardValue };

    ghost view = { λ shard. record {
      tag = shard.tag;
      range = shard.range;
      version = shard.version;
      floor = shard.floor;
      is_failed = shard.is_failed;
      keys = shard.map.keys.entries;
    } };

    ghost invariant = { λ shard. IsShard shard.version shard.floor shard.is_failed shard.map.keys.entries
        shard.map.live.keys };
}

impl Shard {
    ghost use Rattle.std.specs.Prelude.{◌≡◌, ⊤, min, false, IsSome, IsNone, IfOk, OnErr};
    ghost use Rattle.fdb_keys.specs.Answers.{Answers, AnswersExactly};
    ghost use Rattle.fdb_log.specs.Peeks.{IsPeek};
    ghost use Rattle.fdb_storage.specs.Shards.{IsNewShard, apply_fault, key_fault, range_fault, forget_fault};
    ghost use Rattle.fdb_storage.specs.Shards.{part_fault, read_fault, serving_fault, value_at, kept_of, IsPage};
    ghost use Rattle.fdb_storage.specs.Shards.{HasApplied};
    ghost use Rattle.fdb_storage.specs.VersionMaps.{versions_of};
    ghost use Rattle.fdb_storage.specs.Shards.{HasCopied, IsKeptOutside, HasFailed, HasForgotten};

    /// The shard with the tag and the range, which has applied nothing and serves version 0 alone. It takes no memory.
    pub fn new(alloc: Global, tag: u32, range: KeyRange) -> Self
        ensures { IsNewShard tag range result }
    {
        Shard {
            alloc,
            tag,
            range,
            version: 0,
            floor: 0,
            is_failed: false,
            map: VersionMap::new(alloc),
        }
    }

    /// Applies the messages of the shard's tag after its version. Refused as `Unknown` where they are another tag's, as
    /// `Failed` once memory ran out in an earlier call, as `BadOperand` where a mutation in them is a `Stamped`, which
    /// still waits for its stamp, as `Stale` where they begin after an earlier version than the shard's, as `NotYet`
    /// with the version after which they begin where that is a later one, and as `NoMemory`. The shard stays as it was
    /// where it is refused, but for `NoMemory`, after which it has failed. A mutation of a key takes O(log n)
    /// comparisons for n keys and versions, and one that clears a range as many and O(log n) for each key that it
    /// clears, whatever was cleared there before.
    pub fn apply(&mut self, peek: &Peek) -> Result<(), Refusal>
        requires { IsPeek peek.now }
        ensures answers { Answers result (apply_fault self.old peek.now) (λ _. HasApplied self.old peek.now self.new) }
        ensures refused { IsSome (apply_fault self.old peek.now) → self.new ≡ self.old }
        ensures failed { IsNone (apply_fault self.old peek.now) → OnErr result (HasFailed self.old self.new) }
    {
        self.check_peek(peek)?;
        match apply_messages(
            self.alloc,
            &mut self.map,
            &self.range,
            self.version,
            peek.messages.as_slice(),
        ) {
            Ok(()) => {
                self.version = peek.through;
                Ok(())
            }
            Err(_) => {
                self.is_failed = true;
                Err(Refusal::NoMemory)
            }
        }
    }

    /// The value of the key at the version, if it has one there. Refused as `Failed` once memory ran out in `apply`, as
    /// `KeyOutsideLegalRange` where the shard doesn't hold the key, as `TransactionTooOld` where the version is below
    /// the floor, as `FutureVersion` where it is above the shard's, and as `NoMemory`. It takes O(log n) comparisons
    /// for n keys, and as many for the key's versions.
    pub fn get(&self, key: &Key, version: u64) -> Result<Option<Bytes>, Refusal>
        ensures { Answers result (key_fault self.now key.now version)
            (λ value. value ≡ value_at self.now version key.now) }
    {
        self.check(self.range.contains(key), version)?;
        let value = copied(self.map.value_at(key, version))?;
        Ok(value)
    }

    /// The first pairs of the range at the version: in the order of keys or in the reverse order, and at most `limit`
    /// of them unless that is 0. Refused as `get` is, where the shard doesn't hold all of the range, and as `NoMemory`.
    /// It takes O(log n) comparisons for n keys, and O(log v) for the v versions of each pair given, of one more, and
    /// of each key between them at which nothing stands.
    pub fn page(
        &self,
        range: &KeyRange,
        version: u64,
        limit: u32,
        reverse: bool,
    ) -> Result<Page, Refusal>
        ensures { Answers result (range_fault self.now range.now version)
            (IsPage self.now range.now version limit reverse) }
    {
        self.check(range.is_within(&self.range), version)?;
        page_of(self.alloc, &self.map.keys, range, version, limit, reverse)
    }

    /// Gives the map the values that the shard has at the version in its part of the range. The map is to have no value
    /// there yet: what it has afterwards at a key of that part where it had one isn't said. It changes nothing
    /// elsewhere, also where it is refused, and nothing where the shard holds nothing of the range: then no version is
    /// refused. Refused as `Failed` once memory ran out in `apply`, else, where it holds some of the range, as
    /// `TransactionTooOld` where the version is below the floor and as `FutureVersion` where it is above the shard's,
    /// and then nothing changes; and as `NoMemory`. Then the map's values in that part are of no use: it may have some
    /// of the shard's. It takes the time of a page of that part, and of as many sets of the map.
    pub fn copy_into(
        &self,
        map: &mut PlainMap,
        range: &KeyRange,
        version: u64,
    ) -> Result<(), Refusal>
        ensures answers { Answers result (part_fault self.now range.now version)
            (λ _. HasCopied self.now range.now version map.old map.new) }
        ensures refused { IsSome (part_fault self.now range.now version) → map.new ≡ map.old }
        ensures outside { IsKeptOutside self.now range.now map.old map.new }
    {
        self.check_part(range, version)?;
        match range.clip(&self.range)? {
            Some(part) => copy_part(self.alloc, &self.map.keys, map, &part, version),
            None => Ok(()),
        }
    }

    /// Raises the floor to the version, if it isn't above it already: earlier versions are no longer served. It takes
    /// no memory, and O(log n) comparisons for n keys and versions and each version that is no longer told apart.
    /// Refused as `Failed` once memory ran out in `apply`, and as `FutureVersion` where the version is above the
    /// shard's.
    pub fn forget(&mut self, version: u64) -> Result<(), Refusal>
        ensures answers { AnswersExactly result (forget_fault self.old version)
            (λ _. HasForgotten self.old version self.new) }
        ensures refused { OnErr result (self.new ≡ self.old) }
    {
        if self.is_failed {
            return Err(Refusal::Failed);
        }
        if self.version < version {
            return Err(Refusal::FutureVersion);
        }
        self.floor = self.floor.max(version);
        self.map.forget(self.floor);
        Ok(())
    }

    /// How many versions of the key have to be kept: those above the floor and up to the shard's version at which
    /// another value stands than at the version before, and one more where a value stands at the floor. Nothing is said
    /// once memory ran out in `apply`. It takes no memory, and O(log n) comparisons for n keys and as many for the
    /// key's versions.
    pub fn kept(&self, key: &Key) -> usize
        ensures { self.now.is_failed ≡ false → result ≡ kept_of self.now key.now }
    {
        self.map.kept_from(self.alloc, key, self.floor)
    }

    /// How many versions of all keys are kept, also of those that no read needs any more, or the greatest number where
    /// they are more. It takes no memory, and O(n) for n keys.
    pub fn versions(&self) -> usize
        ensures { result ≡ min usize.MAX (versions_of self.now.keys) }
    {
        self.map.versions()
    }

    /// The range of keys that the shard holds.
    pub fn range(&self) -> &KeyRange
        ensures { result.now ≡ self.now.range }
    {
        &self.range
    }

    /// The greatest version that the shard serves.
    pub fn version(&self) -> u64
        ensures { result ≡ self.now.version }
    {
        self.version
    }

    /// The least version that the shard serves.
    pub fn floor(&self) -> u64
        ensures { result ≡ self.now.floor }
    {
        self.floor
    }

    /// Whether memory ran out in `apply`: then every call that may be refused is, as `Failed`, but an `apply` of
    /// another tag's messages. It takes no memory, and O(1) time.
    pub fn is_failed(&self) -> bool
        ensures { result ≡ self.now.is_failed }
    {
        self.is_failed
    }

    fn check_peek(&self, peek: &Peek) -> Result<(), Refusal>
        ensures { AnswersExactly result (apply_fault self.now peek.now) (λ _. ⊤) }
    {
        if peek.tag != self.tag {
            return Err(Refusal::Unknown);
        }
        if self.is_failed {
            return Err(Refusal::Failed);
        }
        if have_stamped(peek.messages.as_slice()) {
            return Err(Refusal::BadOperand);
        }
        check_turn(self.version, peek.after)
    }

    // Refused where what is read isn't all held here, and where the version isn't served.
    fn check(&self, is_held: bool, version: u64) -> Result<(), Refusal>
        ensures { AnswersExactly result (read_fault self.now is_held version) (λ _. ⊤) }
    {
        if self.is_failed {
            return Err(Refusal::Failed);
        }
        if !is_held {
            return Err(Refusal::KeyOutsideLegalRange);
        }
        self.check_version(version)
    }

    // Refused where the shard holds some of the range and the version isn't served.
    fn check_part(&self, range: &KeyRange, version: u64) -> Result<(), Refusal>
        ensures { AnswersExactly result (part_fault self.now range.now version) (λ _. ⊤) }
    {
        if self.is_failed {
            return Err(Refusal::Failed);
        }
        if range.meets(&self.range) {
            return self.check_version(version);
        }
        Ok(())
    }

    // Refused where the version isn't served.
    fn check_version(&self, version: u64) -> Result<(), Refusal>
        ensures { AnswersExactly result (serving_fault version self.now.floor self.now.version) (λ _. ⊤) }
    {
        if version < self.floor {
            return Err(Refusal::TransactionTooOld);
        }
        if self.version < version {
            return Err(Refusal::FutureVersion);
        }
        Ok(())
    }
}
