//! A session whose commits are submitted, and of which it is told later.
ghost use Rattle.std.specs.Prelude.{◌≡◌, ◌≤◌, ◌⊎◌, max, [], None, Some, Err, IfOk, IfErr, IfSome, IfNone, OnOk, OnErr};
ghost use Rattle.std.specs.Prelude.{if◌then◌else◌, suc, length};
ghost use Rattle.std.specs.Option.{option_map};
ghost use Rattle.fdb_keys.specs.Answers.{Answers};
ghost use Rattle.fdb_keys.specs.declared.refusal.Refusal.TheVariants.{NoTransaction, WrongState};
ghost use Rattle.fdb_keys.specs.declared.refusal.Refusal.TheVariants.{Exhausted, NoMemory, KeyOutsideLegalRange};
ghost use Rattle.fdb_mutations.specs.Mutations.{mutation_fault};
ghost use Rattle.fdb_txn.specs.book.Book.{last_version};
ghost use Rattle.fdb_txn.specs.book.History.{IsBook};
ghost use Rattle.fdb_book.specs.Fronts.{IsPrefix};
ghost use Rattle.fdb_storage.specs.Shards.{key_fault};
ghost use Rattle.fdb_client.specs.Programs.{program};
ghost use Rattle.fdb_client.specs.Unreadable.{get_fault, range_read_fault};
ghost use Rattle.fdb_client.specs.TxnState.{with_op};
ghost use Rattle.fdb_client.specs.declared.program.Op.TheVariants as operation;
ghost use Rattle.fdb_client.specs.declared.program.Reply.TheVariants as answer;
ghost use Rattle.fdb_client.specs.declared.program.Transcript.{Transcript as ATranscript};
ghost use Rattle.fdb_roles.specs.Sessions.{OfOpen};
ghost use Rattle.fdb_sections.specs.Asking.{HoldsOnRun};
ghost use Rattle.fdb_sections.specs.Clients.{unless_submitted, Asks};
ghost use Rattle.fdb_sections.specs.Commits.{CommitEnds, IsToldSo};
ghost use Rattle.fdb_sections.specs.LentShards.{lent_shards, lending_fault};
ghost use Rattle.fdb_sections.specs.Reading.{HasRead, own_writes_decide, RefusedBy};
ghost use Rattle.fdb_sections.specs.Sessions.{begin_fault, beginning, learning, with_current};
ghost use Rattle.fdb_sections.specs.ShardViews.{run_of};

use crate::known_front::KnownFront;
use crate::messages::commit_message::CommitMessage;
use crate::messages::reply::CommitReply;
use crate::name::{ClusterName, DatabaseName, Layered};
use crate::receipt::Receipt;
use crate::roles::sequencer::GrantMessage;
use crate::roles::shard::ShardAt;
use crate::session_state::SessionState;
use crate::session_state::settling::Ended;
use crate::session_state::submitted::Submitted;
use bytes::Bytes;
use fdb_book::Book;
use fdb_client::{Snapshot, Transcript};
use fdb_keys::{Items, Key, KeyRange, RangeSet, Refusal, Refused};
use fdb_mutations::Mutation;
use fdb_roles::Layer;
use std::alloc::Global;
use std::marker::Model;
use std::mem;

mod current;

/// What a session comes to that is to commit.
#[derive(Drop)]
pub enum Asked<B: DatabaseName> {
    /// Its transaction wrote nothing, and has its receipt.
    Acknowledged(Receipt<B>),
    /// Its commit proxy is to be sent the request.
    ToCommit(CommitMessage<B>),
}

/// A session beside what it submitted, as long as it isn't told what became of that.
#[derive(Drop)]
pub struct Client<B: DatabaseName> {
    state: SessionState<B>,
    submitted: Option<Submitted>,
}

impl<B: DatabaseName> Model for Client<B> {
    ghost use Rattle.std.specs.Option.{option_map};
    ghost use Rattle.fdb_sections.specs.declared.session_state.submitted.Submitted.{Submitted as AsSubmitted};
    ghost use Rattle.fdb_sections.specs.Clients.{Client as Seen, IsClient};

    ghost Value = { Seen };

    ghost view = { λ it. record {
      session = it.state;
      submitted = option_map (λ (one : AsSubmitted). one.transaction) it.submitted;
    } };

    ghost invariant = { λ it. IsClient B.config.resolver_splits (record {
      session = it.state;
      submitted = option_map (λ (one : AsSubmitted). one.transaction) it.submitted;
    }) };
}

impl<B: DatabaseName> Client<B> {
    /// The session of the number, which has seen nothing and began nothing. Refused only as `NoMemory`.
    pub fn new(alloc: Global, book: &Book<B>, number: u32) -> Result<Self, Refusal>
        ensures { Answers result None (λ it. it ≡ record {
          session = record { number = number; next_number = 0; front = []; mark = 0; current = None };
          submitted = None;
        }) }
    {
        Ok(Client {
            state: SessionState::new(alloc, book, number)?,
            submitted: None,
        })
    }

    /// Says that what the session has seen is a book, in which no transaction stands twice, and does nothing else. It
    /// takes no memory, and O(1) time.
    pub fn know_front(&self)
        ensures { IsBook (suc (length B.config.resolver_splits)) self.now.session.front }
    {
        self.state.front().know_book();
    }

    /// The greatest version that the session knows of a receipt. It takes no memory, and O(1) time.
    pub fn mark(&self) -> u64
        ensures { result ≡ self.now.session.mark }
    {
        self.state.mark()
    }

    /// The version that the open transaction reads at, if there is one. It takes no memory, and O(1) time.
    pub fn read_version(&self) -> Option<u64>
        ensures value { result
            ≡ option_map (λ (transcript : ATranscript). transcript.read_version) self.now.session.current }
        ensures none { IfNone result (self.now.session.current ≡ None) }
    {
        self.state.read_version()
    }

    /// Opens a transaction without operations, at the greater of the granted version and the session's mark, and
    /// answers that version, which the session's front then reaches. One that was open is abandoned. Refused as
    /// `WrongState` while the session isn't told what became of the one that it submitted, as `Exhausted` once all
    /// numbers but the greatest one are used, and as `NoMemory`; then nothing changes.
    pub fn begin(&mut self, alloc: Global, granted: &GrantMessage<B>) -> Result<u64, Refusal>
        ensures answers { Answers result (unless_submitted self.old (begin_fault self.old.session)) (λ version.
            (version ≡ max granted.now.committed self.old.session.mark)
            × (self.new ≡ record self.old { session = beginning self.old.session granted.now })) }
        ensures opened { IfOk result (λ version. (version ≡ max granted.now.committed self.old.session.mark)
            × (self.new.session ≡ beginning self.old.session granted.now)) }
        ensures begins { OnOk result (IsPrefix self.old.session.front self.new.session.front) }
        ensures reaches { IfOk result (λ version. version ≤ last_version self.new.session.front) }
        ensures why { self.old.submitted ≡ None → IfErr result (λ why. (why ≡ Exhausted) ⊎ (why ≡ NoMemory)) }
        ensures submitted { self.new.submitted ≡ self.old.submitted }
        ensures refused { OnErr result (self.new ≡ self.old) }
    {
        if self.submitted.is_some() {
            return Err(Refusal::WrongState);
        }
        self.state.begin(alloc, granted)
    }

    /// The open transaction buffers a copy of the mutation. Refused as `NoTransaction` where none is open, else as
    /// `Txn::write` refuses it; then nothing changes.
    pub fn write(&mut self, mutation: &Mutation) -> Result<(), Refusal>
        ensures answers { OfOpen self.old.session.current result (λ transcript.
            Answers result (mutation_fault mutation.now) (λ _. self.new ≡ record self.old {
              session = with_current self.old.session
                  (Some (with_op transcript (operation.Write mutation.now) answer.Done));
            })) }
        ensures submitted { self.new.submitted ≡ self.old.submitted }
        ensures refused { OnErr result (self.new ≡ self.old) }
    {
        self.state.write(mutation)
    }

    /// The open transaction adds the range to its read set, whole. Refused as `NoTransaction` where none is open, and
    /// as `NoMemory`; then nothing changes.
    pub fn add_read(&mut self, range: &KeyRange) -> Result<(), Refusal>
        ensures answers { OfOpen self.old.session.current result (λ transcript.
            Answers result None (λ _. self.new ≡ record self.old {
              session = with_current self.old.session
                  (Some (with_op transcript (operation.AddRead range.now) answer.Done));
            })) }
        ensures submitted { self.new.submitted ≡ self.old.submitted }
        ensures refused { OnErr result (self.new ≡ self.old) }
    {
        self.state.add_read(range)
    }

    /// The open transaction adds the range to its write set, whole. Refused as `NoTransaction` where none is open, and
    /// as `NoMemory`; then nothing changes.
    pub fn add_write(&mut self, range: &KeyRange) -> Result<(), Refusal>
        ensures answers { OfOpen self.old.session.current result (λ transcript.
            Answers result None (λ _. self.new ≡ record self.old {
              session = with_current self.old.session
                  (Some (with_op transcript (operation.AddWrite range.now) answer.Done));
            })) }
        ensures submitted { self.new.submitted ≡ self.old.submitted }
        ensures refused { OnErr result (self.new ≡ self.old) }
    {
        self.state.add_write(range)
    }

    /// Learns of a receipt of the database: the front becomes the longer of both, and the mark the greater of itself
    /// and the version of the receipt's spot. Refused as `WrongState` while the session isn't told what became of the
    /// transaction that it submitted, and as `NoMemory`; then nothing changes.
    pub fn learn(&mut self, receipt: &Receipt<B>) -> Result<(), Refusal>
        ensures answers { Answers result (unless_submitted self.old None)
            (λ _. self.new ≡ record self.old { session = learning self.old.session receipt.now }) }
        ensures begins { OnOk result (IsPrefix self.old.session.front self.new.session.front) }
        ensures submitted { self.new.submitted ≡ self.old.submitted }
        ensures refused { OnErr result (self.new ≡ self.old) }
    {
        if self.submitted.is_some() {
            return Err(Refusal::WrongState);
        }
        self.state.learn(receipt)
    }

    /// Whether the open transaction's own writes decide the key: then a read of the key asks no shard. False where none
    /// is open. It takes no memory, and O(log n) time for n keys and ranges that they hold.
    pub fn decides(&self, key: &Key) -> bool
        ensures { result ≡ own_writes_decide self.now.session.current key.now }
    {
        self.state.decides(key)
    }

    /// The value of the key after the open transaction's own writes, on the serial map of the session's front at the
    /// read version, noted with the operation. The shard is asked where the own writes don't decide the key. Refused as
    /// `NoTransaction` where none is open, as `NoMemory`, as `AccessedUnreadable` where the own writes leave the key
    /// unreadable, and, where the shard is asked, as the shard refuses a read of the key at that version; then nothing
    /// changes. It takes what `Txn::get` takes, and a read of the shard.
    pub fn get_at(
        &mut self,
        at: &ShardAt<B>,
        key: &Key,
        is_snapshot: bool,
    ) -> Result<Option<Bytes>, Refusal>
        ensures answered { IfOk result (λ value. HasRead B.config.resolver_splits self.old.session
            (operation.Get key.now is_snapshot) (answer.Value value) self.new.session) }
        ensures none { self.old.session.current ≡ None → result ≡ Err NoTransaction }
        ensures fault { IfSome self.old.session.current (λ transcript. RefusedBy result
            (get_fault (program transcript.ops) key.now
            (key_fault at.now.shard key.now transcript.read_version))) }
        ensures submitted { self.new.submitted ≡ self.old.submitted }
        ensures refused { OnErr result (self.new ≡ self.old) }
    {
        self.state.get_at(at, key, is_snapshot)
    }

    /// The value of the key that the open transaction's own writes decide, which no shard is asked for, noted with the
    /// operation. Refused as `NoTransaction` where none is open, as `NoMemory`, as `AccessedUnreadable` where its
    /// writes leave the key unreadable, and as `KeyOutsideLegalRange` where they don't decide it; then nothing changes.
    /// It takes what `Txn::get` takes.
    pub fn get_decided(
        &mut self,
        alloc: Global,
        key: &Key,
        is_snapshot: bool,
    ) -> Result<Option<Bytes>, Refusal>
        ensures answered { IfOk result (λ value. HasRead B.config.resolver_splits self.old.session
            (operation.Get key.now is_snapshot) (answer.Value value) self.new.session) }
        ensures none { self.old.session.current ≡ None → result ≡ Err NoTransaction }
        ensures fault { IfSome self.old.session.current (λ transcript. RefusedBy result
            (get_fault (program transcript.ops) key.now (Some KeyOutsideLegalRange))) }
        ensures submitted { self.new.submitted ≡ self.old.submitted }
        ensures refused { OnErr result (self.new ≡ self.old) }
    {
        self.state.get_decided(alloc, key, is_snapshot)
    }

    /// The pairs of the range after the open transaction's own writes, on the serial map of the session's front at the
    /// read version, as `Txn::get_range` gives them, noted with the operation. The shards are asked one after another.
    /// Refused as `NoTransaction` where none is open, as `NoMemory`, as `LentShards::new` refuses to lend the shards
    /// for the range at that version, and else as `AccessedUnreadable` where what it scanned has a key that the own
    /// writes leave unreadable; then nothing changes. It takes what `Txn::get_range` takes, with pages of the shards.
    pub fn get_range_at(
        &mut self,
        alloc: Global,
        shards: &[&ShardAt<B>],
        range: &KeyRange,
        limit: u32,
        reverse: bool,
        is_snapshot: bool,
    ) -> Result<Items<(Key, Bytes)>, Refusal>
        ensures answered { IfOk result (λ pairs. HasRead B.config.resolver_splits self.old.session
            (operation.Range range.now limit reverse is_snapshot) (answer.Pairs pairs) self.new.session) }
        ensures none { self.old.session.current ≡ None → result ≡ Err NoTransaction }
        ensures fault { IfSome self.old.session.current (λ transcript. RefusedBy result
            (range_read_fault (run_of B.config transcript.read_version self.old.session.front)
            (program transcript.ops) range.now limit reverse
            (lending_fault transcript.read_version range.now (lent_shards shards.now)))) }
        ensures submitted { self.new.submitted ≡ self.old.submitted }
        ensures refused { OnErr result (self.new ≡ self.old) }
    {
        self.state
            .get_range_at(alloc, shards, range, limit, reverse, is_snapshot)
    }

    /// The version that the open transaction reads at, and the session's front once more, which reaches it. Refused as
    /// `NoTransaction` where none is open, and as `NoMemory`.
    pub fn share_open(&self) -> Result<(u64, KnownFront<B>), Refusal>
        ensures answers { OfOpen self.now.session.current result (λ transcript. Answers result None
            (λ shared. shared ≡ (transcript.read_version, self.now.session.front))) }
        ensures reached { IfOk result (λ shared. shared.0 ≤ last_version shared.1) }
    {
        self.state.share_open()
    }

    /// The pairs of the range after the open transaction's own writes on a snapshot, as `Txn::get_range` gives them,
    /// noted with the operation. The snapshot is the serial map of the session's front at the read version. Refused as
    /// `NoTransaction` where none is open, else as `Txn::get_range` is; then nothing changes.
    pub fn get_range_on<S: Snapshot>(
        &mut self,
        snapshot: &S,
        range: &KeyRange,
        limit: u32,
        reverse: bool,
        is_snapshot: bool,
    ) -> Result<Items<(Key, Bytes)>, Refusal>
        requires version { IfSome self.old.session.current
            (λ transcript. S.at snapshot.now ≡ transcript.read_version) }
        requires run { IfSome self.old.session.current (λ transcript. S.map snapshot.now
            ≡ run_of B.config transcript.read_version self.old.session.front) }
        ensures answered { IfOk result (λ pairs. HasRead B.config.resolver_splits self.old.session
            (operation.Range range.now limit reverse is_snapshot) (answer.Pairs pairs) self.new.session) }
        ensures none { self.old.session.current ≡ None → result ≡ Err NoTransaction }
        ensures fault { IfSome self.old.session.current
            (λ transcript. RefusedBy result (range_read_fault (S.map snapshot.now) (program transcript.ops) range.now
            limit reverse (S.range_fault snapshot.now range.now))) }
        ensures submitted { self.new.submitted ≡ self.old.submitted }
        ensures refused { OnErr result (self.new ≡ self.old) }
    {
        self.state
            .get_range(snapshot, range, limit, reverse, is_snapshot)
    }

    /// Ends the open transaction, which the database has to allow. Where it wrote nothing, it has its receipt, at its
    /// read version. Else it is submitted: it gives the request for the session's commit proxy, and `settle` is to be
    /// called with what that tells, or with `NoMemory` where the request couldn't be sent.
    ///
    /// Refused as `NoTransaction` where none is open, as `TransactionTooLarge` where it has more than 10,000,000 bytes,
    /// and as `NoMemory`; then nothing changes. It takes the time of `Txn::request`.
    pub fn commit(&mut self) -> Result<Asked<B>, Refusal>
        requires { IfSome self.old.session.current B.allows }
        ensures { Asks B.config self.old result self.new }
    {
        let front = self.state.front().share()?;
        match self.state.submit() {
            Ok(Ended::Acknowledged(receipt)) => {
                Ok(Asked::Acknowledged(self.state.acknowledge(receipt)))
            }
            Ok(Ended::ToCommit(request, submitted)) => {
                let asked = CommitMessage::new(front, request);
                drop(mem::replace(&mut self.submitted, Some(submitted)));
                Ok(Asked::ToCommit(asked))
            }
            Err(why) => Err(why),
        }
    }

    /// Ends the transaction that was submitted by what the session's commit proxy tells: it gives its receipt, or says
    /// why there is none and hands the transcript back, with the points at which it conflicts where it is refused as
    /// `NotCommitted`. The transaction is open again where the proxy never took the request, since memory ran out. Who
    /// is told that it has no place in the book, and whose front shows one, is answered `CommitUnknownResult`. Refused
    /// as `WrongState` where none is submitted; then nothing changes, and nothing is handed back. It takes O(1) time
    /// where there is a receipt, and at the most O(n) for the n transactions of the entries that the front shows above
    /// the read version where there is none.
    pub fn settle(
        &mut self,
        alloc: Global,
        book: u32,
        told: CommitReply<B>,
    ) -> Result<Receipt<B>, Refused<Option<(Transcript, RangeSet)>>>
        requires book { book ≡ B.config.book }
        ensures none { self.old.submitted ≡ None
            → (result ≡ Err (record { why = WrongState; back = None })) × (self.new ≡ self.old) }
        ensures ends { IfSome self.old.submitted (λ transcript. (self.new.submitted ≡ None)
            × CommitEnds B.config self.old.session transcript result self.new.session) }
        ensures told { IfSome self.old.submitted (λ transcript.
            IsToldSo B.config self.old.session transcript told result self.new.session) }
    {
        match mem::replace(&mut self.submitted, None) {
            Some(submitted) => self.state.end(alloc, book, submitted, told),
            None => {
                drop(told);
                Err(Refused {
                    why: Refusal::WrongState,
                    back: None,
                })
            }
        }
    }
}

impl<B: ClusterName, L: Layer> Client<Layered<B, L>> {
    /// Says that what each transaction of the layer keeps holds of the serial map of what the session has seen, at
    /// every version, and does nothing else. It takes no memory, and O(1) time.
    pub fn know_layer(&self)
        ensures { HoldsOnRun L.holds B.config.resolver_splits self.now.session.front }
    {
        self.state.front().know_layer();
    }
}
