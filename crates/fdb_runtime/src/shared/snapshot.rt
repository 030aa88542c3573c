//! What a session reads of the shards that threads share: one shard's lock is held at a time, for a page at most.
ghost use Rattle.std.specs.Prelude.{◌≡◌, ◌≤◌, IfOk};
ghost use Rattle.fdb_txn.specs.book.Book.{last_version};
ghost use Rattle.fdb_client.specs.Pages.{IsPage};
ghost use Rattle.fdb_sections.specs.ShardViews.{run_of};

use crate::shared::Shared;
use crate::shared::shard::SharedShard;
use bytes::Bytes;
use fdb_client::{Page, Snapshot};
use fdb_keys::{Key, KeyRange, Refusal};
use fdb_sections::{DatabaseName, Gathering, KnownFront};
use std::alloc::Global;
use std::sync::Wait;

/// The shards of a database, read at a version that the reader's front reaches: what is answered is that front's serial
/// map. No lock is held between two pages of a range.
#[derive(Drop)]
pub(crate) struct SharedShards<'a, B: DatabaseName, R: Wait> {
    alloc: Global,
    rt: &'a R,
    shared: &'a Shared<B>,
    version: u64,
    front: &'a KnownFront<B>,
    ghost reached: { version ≤ last_version front.now },
}

impl<'a, B: DatabaseName, R: Wait> SharedShards<'a, B, R> {
    /// It takes no memory, and O(1) time.
    pub(crate) fn new(
        alloc: Global,
        rt: &'a R,
        shared: &'a Shared<B>,
        version: u64,
        front: &'a KnownFront<B>,
    ) -> Self
        requires { version ≤ last_version front.now }
        ensures version { result.version ≡ version }
        ensures front { result.front.now ≡ front.now }
    {
        SharedShards {
            alloc,
            rt,
            shared,
            version,
            front,
        }
    }

    // The shards that a page of the range may look at: from the one on that has its begin, or, in the reverse order, up
    // to the one that has what comes right before its end.
    fn shards_of(&self, range: &KeyRange, reverse: bool) -> Result<&[SharedShard<B>], Refusal> {
        if reverse {
            self.shared.shards_until(range)
        } else {
            Ok(self.shared.shards_from(range))
        }
    }

    // A page of the range, as `page` gives it, refused for whatever reason is given.
    fn page_of(&self, range: &KeyRange, limit: u32, reverse: bool) -> Result<Page, Refusal>
        ensures { IfOk result (IsPage (run_of B.config self.now.version self.now.front.now) range.now limit reverse) }
    {
        let shards = self.shards_of(range, reverse)?;
        let mut gathering = Gathering::new(
            self.alloc,
            self.version,
            self.front,
            range,
            limit,
            reverse,
        )?;
        take_of_all(self.rt, shards, self.version, reverse, &mut gathering)?;
        gathering.into_page()
    }

    /// Why a page of the range was refused: for the reason of the first shard that the range meets and that doesn't
    /// serve the version, as `SharedShard::is_passed` gives it, and as `NoMemory` where all of them do. It takes no
    /// memory, and waits until each of them has come to the version.
    pub(crate) fn why_unread(&self, range: &KeyRange) -> Refusal {
        if range.is_empty() {
            return Refusal::NoMemory;
        }
        for shard in self.shared.shards_from(range) {
            match shard.is_passed(self.rt, self.version, range) {
                Ok(true) => {}
                Ok(false) => return Refusal::NoMemory,
                Err(why) => return why,
            }
        }
        Refusal::NoMemory
    }
}

// Takes from the shards, one after another, until the page wants no more: from the last one backwards where `reverse`.
fn take_of_all<B: DatabaseName, R: Wait>(
    rt: &R,
    shards: &[SharedShard<B>],
    version: u64,
    reverse: bool,
    gathering: &mut Gathering<'_, B>,
) -> Result<(), Refusal>
    ensures { gathering.new ≡ record gathering.old { rest = gathering.new.rest } }
{
    let count = shards.len();
    for turn in 0..count {
        if !gathering.wants_more() {
            return Ok(());
        }
        let index = if reverse { count - 1 - turn } else { turn };
        take_of(rt, &shards[index], version, gathering)?;
    }
    Ok(())
}

// Takes from the shard, once it has come to the version. Its lock is held no longer. Refused as `at_version` and as
// `Gathering::take_from` are.
fn take_of<B: DatabaseName, R: Wait>(
    rt: &R,
    shard: &SharedShard<B>,
    version: u64,
    gathering: &mut Gathering<'_, B>,
) -> Result<(), Refusal>
    ensures { gathering.new ≡ record gathering.old { rest = gathering.new.rest } }
{
    let held = shard.at_version(rt, version)?;
    gathering.take_from(&held.at)
}

/// A key isn't read of it, but refused as `KeyOutsideLegalRange`. A page of a range waits until each of the shards that
/// it looks at has come to the version, and holds the lock of one of them at a time, for no more than 257 pairs. What
/// is refused on the way is answered as `NoMemory`; `why_unread` tells the reason.
impl<'a, B: DatabaseName, R: Wait> Snapshot for SharedShards<'a, B, R> {
    ghost use Rattle.std.specs.Prelude.{Some, None};
    ghost use Rattle.fdb_keys.specs.declared.refusal.Refusal.TheVariants.{KeyOutsideLegalRange};
    ghost use Rattle.fdb_sections.specs.ShardViews.{run_of};

    ghost at = { λ it. it.version };

    ghost map = { λ it. run_of B.config it.version it.front.now };

    ghost key_fault = { λ it key. Some KeyOutsideLegalRange };

    ghost range_fault = { λ it range. None };

    ghost serves_parts = { λ it part range inside none. none };

    fn version(&self) -> u64 {
        self.version
    }

    fn get(&self, key: &Key) -> Result<Option<Bytes>, Refusal> {
        Err(Refusal::KeyOutsideLegalRange)
    }

    fn page(&self, range: &KeyRange, limit: u32, reverse: bool) -> Result<Page, Refusal> {
        match self.page_of(range, limit, reverse) {
            Ok(page) => Ok(page),
            Err(_why) => Err(Refusal::NoMemory),
        }
    }
}
