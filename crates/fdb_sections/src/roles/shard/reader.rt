// Who reads at a version that its front reaches, of shards that are lent to it.
ghost use Rattle.std.specs.Prelude.{◌≡◌, ◌≤◌, ◌++◌, None, IsTrue, true, OnErr};
ghost use Rattle.std.specs.FinMap.{get};
ghost use Rattle.fdb_keys.specs.Answers.{Answers};
ghost use Rattle.fdb_mutations.specs.Pairs.{first_of};
ghost use Rattle.fdb_storage.specs.Shards.{read_fault};
ghost use Rattle.fdb_txn.specs.book.Book.{last_version};
ghost use Rattle.fdb_roles.specs.Wanted.{left_of, AreFew};
ghost use Rattle.fdb_sections.specs.LentShards.{lent_shards, is_held, pairs_at, pairs_held, AreInARow};
ghost use Rattle.fdb_sections.specs.ShardViews.{run_of};

use crate::known_front::KnownFront;
use crate::name::DatabaseName;
use crate::roles::shard::ShardAt;
use crate::roles::shard::view::ShardView;
use bytes::Bytes;
use fdb_client::{Page, Snapshot};
use fdb_keys::{Key, KeyRange, Refusal};
use std::alloc::Global;

/// How many pairs are still wanted of so many, of which there are some already: 0 where all are wanted, and none where
/// that many are there.
pub(crate) fn left_of(wanted: u32, count: usize) -> Option<u32>
    ensures { result ≡ left_of wanted count }
{
    if wanted == 0 {
        return Some(0);
    }
    if count < wanted as usize {
        Some(wanted - count as u32)
    } else {
        None
    }
}

/// Who reads at a version that its front reaches: what it is answered is that front's serial map.
#[derive(Drop)]
pub(crate) struct Reader<'a, B: DatabaseName> {
    alloc: Global,
    version: u64,
    front: &'a KnownFront<B>,
    ghost reached: { version ≤ last_version front.now },
}

impl<'a, B: DatabaseName> Reader<'a, B> {
    /// It takes no memory, and O(1) time.
    pub(crate) fn new(alloc: Global, version: u64, front: &'a KnownFront<B>) -> Self
        requires { version ≤ last_version front.now }
        ensures version { result.version ≡ version }
        ensures front { result.front.now ≡ front.now }
    {
        Reader {
            alloc,
            version,
            front,
        }
    }

    /// The version that is read at.
    pub(crate) fn version(&self) -> u64
        ensures { result ≡ self.now.version }
    {
        self.version
    }

    /// The allocator that it reads with.
    pub(crate) fn alloc(&self) -> Global {
        self.alloc
    }

    /// The reader's front. It takes no memory, and O(1) time.
    pub(crate) fn front(&self) -> &KnownFront<B>
        ensures value { result.now ≡ self.now.front.now }
        ensures reached { self.now.version ≤ last_version self.now.front.now }
    {
        self.front
    }

    /// The value of a key that one of the shards holds. They serve the version, one after another. Refused only as
    /// `NoMemory`. It takes O(s) time for s shards, and one `Shard::get`.
    pub(crate) fn get_of(&self, shards: &[&ShardAt<B>], key: &Key) -> Result<Option<Bytes>, Refusal>
        requires row { AreInARow self.now.version (lent_shards shards.now) }
        requires held { IsTrue (is_held (lent_shards shards.now) key.now) }
        ensures { Answers result None
            (λ value. value ≡ get (run_of B.config self.now.version self.now.front.now) key.now) }
    {
        match shards {
            [] => Ok(None),
            [first, others @ ..] => {
                let at: &ShardAt<B> = *first;
                if at.range().contains(key) {
                    let view = ShardView::new(self.version, self.front, at);
                    view.get(key)
                } else {
                    self.get_of(others, key)
                }
            }
        }
    }

    /// The first pairs of the range that the shards hold, so many at most unless that is 0: from the last one backwards
    /// where `reverse`. The shards serve the version, one after another. Each is asked for no more than is still
    /// wanted, in that order. Refused only as `NoMemory`. It takes O(s) time for s shards, and that of one
    /// `Shard::page` of what is given for each that is asked.
    pub(crate) fn first_pairs(
        &self,
        shards: &[&ShardAt<B>],
        range: &KeyRange,
        wanted: u32,
        reverse: bool,
    ) -> Result<Vec<(Key, Bytes)>, Refusal>
        requires { AreInARow self.now.version (lent_shards shards.now) }
        ensures { Answers result None (λ pairs. pairs.items ≡ first_of wanted
            (pairs_held (run_of B.config self.now.version self.now.front.now) range.now reverse
            (lent_shards shards.now))) }
    {
        let mut pairs = Vec::new(self.alloc);
        self.add_pairs(&mut pairs, shards, range, wanted, reverse)?;
        Ok(pairs)
    }

    // Adds to pairs what the shards have of the range, so that they are so many at most unless that is 0. The shards
    // are few, so it may call itself for each.
    fn add_pairs(
        &self,
        pairs: &mut Vec<(Key, Bytes)>,
        shards: &[&ShardAt<B>],
        range: &KeyRange,
        wanted: u32,
        reverse: bool,
    ) -> Result<(), Refusal>
        requires few { AreFew wanted pairs.old.items }
        requires row { AreInARow self.now.version (lent_shards shards.now) }
        ensures { Answers result None (λ _. pairs.new.items ≡ first_of wanted (pairs.old.items
            ++ pairs_held (run_of B.config self.now.version self.now.front.now) range.now reverse
            (lent_shards shards.now))) }
    {
        let [first, others @ ..] = shards else {
            return Ok(());
        };
        let at: &ShardAt<B> = *first;
        if reverse {
            self.add_pairs(pairs, others, range, wanted, reverse)?;
            return self.add_pairs_of(pairs, at, range, wanted, reverse);
        }
        self.add_pairs_of(pairs, at, range, wanted, reverse)?;
        self.add_pairs(pairs, others, range, wanted, reverse)
    }

    /// The same of one shard, which is asked only where more are wanted. A refusal leaves the pairs as they were.
    pub(crate) fn add_pairs_of(
        &self,
        pairs: &mut Vec<(Key, Bytes)>,
        at: &ShardAt<B>,
        range: &KeyRange,
        wanted: u32,
        reverse: bool,
    ) -> Result<(), Refusal>
        requires few { AreFew wanted pairs.old.items }
        requires served { read_fault at.now.shard true self.now.version ≡ None }
        ensures answers { Answers result None (λ _. pairs.new.items ≡ first_of wanted (pairs.old.items
            ++ pairs_at (run_of B.config self.now.version self.now.front.now) range.now reverse at.now)) }
        ensures refused { OnErr result (pairs.new.items ≡ pairs.old.items) }
    {
        if let Some(limit) = left_of(wanted, pairs.len()) {
            pairs.append(&mut self.pairs_of(at, range, limit, reverse)?)?;
        }
        Ok(())
    }

    // The first pairs that the shard has of the range, so many at most unless that is 0.
    fn pairs_of(
        &self,
        at: &ShardAt<B>,
        range: &KeyRange,
        limit: u32,
        reverse: bool,
    ) -> Result<Vec<(Key, Bytes)>, Refusal>
        requires { read_fault at.now.shard true self.now.version ≡ None }
        ensures { Answers result None (λ pairs. pairs.items ≡ first_of limit
            (pairs_at (run_of B.config self.now.version self.now.front.now) range.now reverse at.now)) }
    {
        match range.clip(at.range())? {
            Some(part) => {
                let view = ShardView::new(self.version, self.front, at);
                view.first_pairs(&part, limit, reverse)
            }
            None => Ok(Vec::new(self.alloc)),
        }
    }
}

/// A reader without a shard: all is refused as `KeyOutsideLegalRange`.
impl<'a, B: DatabaseName> Snapshot for Reader<'a, B> {
    ghost use Rattle.std.specs.Prelude.{Some};
    ghost use Rattle.fdb_keys.specs.declared.refusal.Refusal.TheVariants.{KeyOutsideLegalRange};
    ghost use Rattle.fdb_sections.specs.ShardViews.{run_of};

    ghost at = { λ it. it.version };

    ghost map = { λ it. run_of B.config it.version it.front.now };

    ghost key_fault = { λ it key. Some KeyOutsideLegalRange };

    ghost range_fault = { λ it range. Some KeyOutsideLegalRange };

    ghost serves_parts = { λ it part range inside none. none };

    fn version(&self) -> u64 {
        self.version
    }

    fn get(&self, key: &Key) -> Result<Option<Bytes>, Refusal> {
        Err(Refusal::KeyOutsideLegalRange)
    }

    fn page(&self, range: &KeyRange, limit: u32, reverse: bool) -> Result<Page, Refusal> {
        Err(Refusal::KeyOutsideLegalRange)
    }
}
