// What a session reads at shards: on the serial map of its own front, whatever front a shard has.
ghost use Rattle.std.specs.Prelude.{◌≡◌, ◌≤◌, None, Some, Err, IfOk, IfSome, OnErr};
ghost use Rattle.fdb_keys.specs.Answers.{Answers};
ghost use Rattle.fdb_keys.specs.declared.refusal.Refusal.TheVariants.{NoTransaction, KeyOutsideLegalRange};
ghost use Rattle.fdb_txn.specs.book.Book.{last_version};
ghost use Rattle.fdb_storage.specs.Shards.{key_fault};
ghost use Rattle.fdb_client.specs.Programs.{program};
ghost use Rattle.fdb_client.specs.Unreadable.{get_fault, range_read_fault};
ghost use Rattle.fdb_client.specs.declared.program.Op.TheVariants as operation;
ghost use Rattle.fdb_client.specs.declared.program.Reply.TheVariants as answer;
ghost use Rattle.fdb_roles.specs.Sessions.{OfOpen};
ghost use Rattle.fdb_sections.specs.LentShards.{lent_shards, lending_fault};
ghost use Rattle.fdb_sections.specs.Reading.{HasRead, own_writes_decide, RefusedBy};
ghost use Rattle.fdb_sections.specs.ShardViews.{run_of};

use crate::known_front::KnownFront;
use crate::name::DatabaseName;
use crate::roles::shard::ShardAt;
use crate::roles::shard::lent_shards::LentShards;
use crate::roles::shard::reader::Reader;
use crate::roles::shard::view::ShardView;
use crate::session_state::SessionState;
use bytes::Bytes;
use fdb_keys::{Items, Key, KeyRange, Refusal};
use std::alloc::Global;

impl<B: DatabaseName> SessionState<B> {
    /// Whether the open transaction's own writes decide the key: then a read of the key asks no shard. False where none
    /// is open. It takes no memory, and O(log n) time for n keys and ranges that they hold.
    pub fn decides(&self, key: &Key) -> bool
        ensures { result ≡ own_writes_decide self.now.current key.now }
    {
        match &self.current {
            Some(txn) => txn.decides(key),
            None => false,
        }
    }

    /// The version that the open transaction reads at, and the front once more, which reaches it. Refused as
    /// `NoTransaction` where none is open, and as `NoMemory`.
    pub(crate) fn share_open(&self) -> Result<(u64, KnownFront<B>), Refusal>
        ensures answers { OfOpen self.now.current result (λ transcript. Answers result None
            (λ shared. shared ≡ (transcript.read_version, self.now.front))) }
        ensures reached { IfOk result (λ shared. shared.0 ≤ last_version shared.1) }
    {
        match &self.current {
            Some(txn) => {
                let front = self.front.share()?;
                Ok((txn.read_version(), front))
            }
            None => Err(Refusal::NoTransaction),
        }
    }

    /// The value of the key after the open transaction's own writes, on the serial map of the session's front at the
    /// read version, noted with the operation. The shard is asked where the own writes don't decide the key. Refused as
    /// `NoTransaction` where none is open, as `NoMemory`, as `AccessedUnreadable` where the own writes leave the key
    /// unreadable, and, where the shard is asked, as the shard refuses a read of the key at that version. Then nothing
    /// changes. It takes what `Txn::get` takes, and a read of the shard.
    pub fn get_at(
        &mut self,
        at: &ShardAt<B>,
        key: &Key,
        is_snapshot: bool,
    ) -> Result<Option<Bytes>, Refusal>
        ensures answered { IfOk result (λ value. HasRead B.config.resolver_splits self.old
            (operation.Get key.now is_snapshot) (answer.Value value) self.new) }
        ensures none { self.old.current ≡ None → result ≡ Err NoTransaction }
        ensures fault { IfSome self.old.current (λ transcript. RefusedBy result
            (get_fault (program transcript.ops) key.now
            (key_fault at.now.shard key.now transcript.read_version))) }
        ensures refused { OnErr result (self.new ≡ self.old) }
    {
        let (version, front) = self.share_open()?;
        let view = ShardView::new(version, &front, at);
        self.get(&view, key, is_snapshot)
    }

    /// The value of the key that the open transaction's own writes decide, which no shard is asked for, noted with the
    /// operation. Refused as `NoTransaction` where none is open, as `NoMemory`, as `AccessedUnreadable` where its
    /// writes leave the key unreadable, and as `KeyOutsideLegalRange` where they don't decide it. Then nothing changes.
    /// It takes what `Txn::get` takes.
    pub fn get_decided(
        &mut self,
        alloc: Global,
        key: &Key,
        is_snapshot: bool,
    ) -> Result<Option<Bytes>, Refusal>
        ensures answered { IfOk result (λ value. HasRead B.config.resolver_splits self.old
            (operation.Get key.now is_snapshot) (answer.Value value) self.new) }
        ensures none { self.old.current ≡ None → result ≡ Err NoTransaction }
        ensures fault { IfSome self.old.current (λ transcript. RefusedBy result
            (get_fault (program transcript.ops) key.now (Some KeyOutsideLegalRange))) }
        ensures refused { OnErr result (self.new ≡ self.old) }
    {
        let (version, front) = self.share_open()?;
        // A reader without a shard refuses whatever it is asked.
        let reader = Reader::new(alloc, version, &front);
        self.get(&reader, key, is_snapshot)
    }

    /// The pairs of the range after the open transaction's own writes, on the serial map of the session's front at the
    /// read version, as `Txn::get_range` gives them, noted with the operation. The shards are asked one after another.
    /// Refused as `NoTransaction` where none is open, as `NoMemory`, as `LentShards::new` refuses to lend the shards
    /// for the range at that version, and else as `AccessedUnreadable` where what it scanned has a key that the own
    /// writes leave unreadable. Then nothing changes. It takes what `Txn::get_range` takes, with pages of the shards.
    pub fn get_range_at(
        &mut self,
        alloc: Global,
        shards: &[&ShardAt<B>],
        range: &KeyRange,
        limit: u32,
        reverse: bool,
        is_snapshot: bool,
    ) -> Result<Items<(Key, Bytes)>, Refusal>
        ensures answered { IfOk result (λ pairs. HasRead B.config.resolver_splits self.old
            (operation.Range range.now limit reverse is_snapshot) (answer.Pairs pairs) self.new) }
        ensures none { self.old.current ≡ None → result ≡ Err NoTransaction }
        ensures fault { IfSome self.old.current (λ transcript. RefusedBy result
            (range_read_fault (run_of B.config transcript.read_version self.old.front) (program transcript.ops)
            range.now limit reverse
            (lending_fault transcript.read_version range.now (lent_shards shards.now)))) }
        ensures refused { OnErr result (self.new ≡ self.old) }
    {
        let (version, front) = self.share_open()?;
        let reader = Reader::new(alloc, version, &front);
        let lent = LentShards::new(reader, range, shards)?;
        self.get_range(&lent, range, limit, reverse, is_snapshot)
    }
}
