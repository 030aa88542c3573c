ghost use Rattle.std.specs.Prelude.{◌≡◌, ◌≤◌, ◌⊎◌, true, [], suc, length, None, Some, Err, IfOk, IfErr, IfSome};
ghost use Rattle.std.specs.Prelude.{OnOk, OnErr};
ghost use Rattle.fdb_keys.specs.declared.refusal.Refusal.TheVariants.{NoTransaction, NoMemory, AccessedUnreadable};
ghost use Rattle.fdb_book.specs.Fronts.{IsPrefix};
ghost use Rattle.fdb_txn.specs.book.History.{IsBook};
ghost use Rattle.fdb_keys.specs.Answers.{Answers};
ghost use Rattle.fdb_txn.specs.book.Book.{last_version};
ghost use Rattle.fdb_mutations.specs.Mutations.{mutation_fault};
ghost use Rattle.fdb_client.specs.TxnState.{with_op};
ghost use Rattle.fdb_client.specs.declared.program.Op.TheVariants as operation;
ghost use Rattle.fdb_client.specs.declared.program.Reply.TheVariants as answer;
ghost use Rattle.fdb_roles.specs.Sessions.{OfOpen};
ghost use Rattle.fdb_sections.specs.Asking.{HoldsOnRun};
ghost use Rattle.fdb_sections.specs.Commits.{CommitAnswers};
ghost use Rattle.fdb_client.specs.Programs.{program};
ghost use Rattle.fdb_client.specs.Unreadable.{unreadable};
ghost use Rattle.fdb_sections.specs.Reading.{HasRead, RefusesUnreadable, TellsUnreadable, scans_unreadable};
ghost use Rattle.fdb_sections.specs.ShardViews.{run_of};
ghost use Rattle.fdb_sections.specs.Refusals.{is_of_begin, is_of_read};
ghost use Rattle.fdb_sections.specs.Sessions.{learning, with_current};

use crate::gate::NoGate;
use crate::options::ReadOptions;
use crate::shared::Shared;
use crate::shared::role::{Lent, ask};
use crate::shared::snapshot::SharedShards;
use crate::threads::reply::Slots;
use crate::threads::request::{BeginRequest, CommitRequest};
use bytes::Bytes;
use fdb_client::Transcript;
use fdb_keys::{Items, Key, KeyRange, RangeSet, Refusal, Refused};
use fdb_mutations::Mutation;
use fdb_roles::Layer;
use fdb_sections::{
    Asked, Client, ClusterName, CommitReply, DatabaseName, GrantMessage, GrantReply, Layered,
    Receipt,
};
use std::alloc::Global;
use std::marker::Model;
use std::sync::{Arc, Wait};

mod current;
mod writing;

// What a session is told that can't begin. What begins aren't refused for is a role's fault.
fn begin_refusal(why: Refusal) -> Refusal
    ensures { is_of_begin result ≡ true }
{
    match why {
        Refusal::NoMemory | Refusal::Exhausted | Refusal::Closed => why,
        _ => Refusal::Failed,
    }
}

// The same of one whose open transaction can't read.
fn read_refusal(why: Refusal) -> Refusal
    ensures listed { is_of_read result ≡ true }
    ensures open { result ≡ NoTransaction → ⊥ }
    ensures hidden { why ≡ AccessedUnreadable ⊎ why ≡ NoMemory → result ≡ why }
    ensures told { result ≡ AccessedUnreadable → why ≡ AccessedUnreadable }
{
    match why {
        Refusal::AccessedUnreadable => why,
        _ => shard_refusal(why),
    }
}

// And what it is told where a shard refuses it: no shard knows of unreadable keys.
fn shard_refusal(why: Refusal) -> Refusal
    ensures listed { is_of_read result ≡ true }
    ensures open { result ≡ NoTransaction → ⊥ }
    ensures memory { why ≡ NoMemory → result ≡ why }
    ensures readable { result ≡ AccessedUnreadable → ⊥ }
{
    match why {
        Refusal::TransactionTooOld | Refusal::NoMemory | Refusal::Closed => why,
        _ => Refusal::Failed,
    }
}

// And what it is told where a read of a range of the shards is refused: they refuse all as if memory had run out.
fn range_refusal<B: DatabaseName, R: Wait>(
    shards: &SharedShards<'_, B, R>,
    range: &KeyRange,
    why: Refusal,
) -> Refusal
    ensures hidden { why ≡ AccessedUnreadable → result ≡ why }
    ensures told { result ≡ AccessedUnreadable → why ≡ AccessedUnreadable }
{
    match why {
        Refusal::NoMemory => shard_refusal(shards.why_unread(range)),
        _ => why,
    }
}

/// Who runs transactions on a database, one at a time. It owns its share of what the database's threads share, so it
/// may move to a thread of its own, and outlive the database: then it is refused as `Closed`.
///
/// Contracts see its number, the number of its next transaction, what it has seen of the book, its mark, which is the
/// greatest version that it knows of a receipt, and the transcript of its open transaction, if there is one.
#[derive(Drop)]
pub struct Session<B: DatabaseName> {
    number: u32,
    shared: Arc<Shared<B>>,
    client: Client<B>,
    slots: Slots<B>,
}

impl<B: DatabaseName> Model for Session<B> {
    ghost use Rattle.std.specs.Prelude.{◌≡◌, None};
    ghost use Rattle.fdb_sections.specs.Sessions.{Session as Seen};

    ghost Value = { Seen };

    ghost view = { λ it. it.client.session };

    // No call ends before the session is told what became of what it submitted.
    ghost invariant = { λ it. it.client.submitted ≡ None };
}

impl<B: DatabaseName> Session<B> {
    // The session of the number, which has seen nothing and began nothing.
    pub(crate) fn new(alloc: Global, number: u32, shared: Arc<Shared<B>>) -> Result<Self, Refusal>
        ensures { Answers result None (λ it. it
            ≡ record { number = number; next_number = 0; front = []; mark = 0; current = None }) }
    {
        let slots = Slots::new(alloc)?;
        let client = Client::new(alloc, shared.book(), number)?;
        Ok(Session {
            number,
            shared,
            client,
            slots,
        })
    }

    /// Says that what the session has seen is a book, in which no transaction stands twice, and does nothing else. It
    /// takes no memory, and O(1) time.
    pub fn know_front(&self)
        ensures { IsBook (suc (length B.config.resolver_splits)) self.now.front }
    {
        self.client.know_front();
    }

    /// Opens a transaction, and answers the version that it reads at: a committed one that isn't below the mark. One
    /// that was open is abandoned. It waits for a read-version proxy.
    ///
    /// Refused as `Exhausted` once all numbers of transactions are used, as `Closed` once the database is closed, as
    /// `Failed`, and as `NoMemory`, and as nothing else; then nothing changes.
    pub fn begin<R: Wait>(&mut self, rt: &R, alloc: Global) -> Result<u64, Refusal>
        ensures version { IfOk result (λ version.
            (self.old.mark ≤ version) × (version ≤ last_version self.new.front)) }
        ensures begins { IfOk result (λ version. IsPrefix self.old.front self.new.front) }
        ensures opened { IfOk result (λ version. self.new ≡ record self.old {
          next_number = suc self.old.next_number;
          front = self.new.front;
          current = Some (record {
            id = record { session = self.old.number; number = self.old.next_number };
            read_version = version;
            ops = [];
          });
        }) }
        ensures refusals { IfErr result (λ why. is_of_begin why ≡ true) }
        ensures refused { OnErr result (self.new ≡ self.old) }
    {
        let granted = self.ask_version(rt)?;
        self.client.begin(alloc, &granted)
    }

    // Asks its read-version proxy.
    fn ask_version<R: Wait>(&self, rt: &R) -> Result<GrantMessage<B>, Refusal>
        ensures { IfErr result (λ why. is_of_begin why ≡ true) }
    {
        match self.ask_proxy(rt) {
            Ok(granted) => Ok(granted),
            Err(why) => Err(begin_refusal(why)),
        }
    }

    // The same, refused for whatever reason the proxy gives.
    fn ask_proxy<R: Wait>(&self, rt: &R) -> Result<GrantMessage<B>, Refusal> {
        let proxies = self.shared.begins();
        if proxies.is_empty() {
            return Err(Refusal::Failed);
        }
        let proxy = &proxies[self.number as usize % proxies.len()];
        let request = BeginRequest {
            session: self.number,
            mark: self.client.mark(),
            reply: self.slots.grants()?,
        };
        let lent = Lent {
            shared: &*self.shared,
            gate: &NoGate,
        };
        ask(rt, &lent, proxy, request)?;
        match self.slots.next_grant(rt) {
            Some(GrantReply::Granted(granted)) => Ok(granted),
            Some(GrantReply::Refused(why)) => Err(why),
            None => Err(Refusal::Failed),
        }
    }

    /// The open transaction buffers a copy of the mutation. It waits for nobody. Refused as `NoTransaction` where none
    /// is open, as `ValueTooLarge` and `BadOperand` where the mutation isn't legal, and as `NoMemory`; then nothing
    /// changes.
    pub fn write(&mut self, mutation: &Mutation) -> Result<(), Refusal>
        ensures answers { OfOpen self.old.current result (λ transcript. Answers result (mutation_fault mutation.now)
            (λ _. self.new
            ≡ with_current self.old (Some (with_op transcript (operation.Write mutation.now) answer.Done)))) }
        ensures refused { OnErr result (self.new ≡ self.old) }
    {
        self.client.write(mutation)
    }

    /// The open transaction adds the range to its read set, whole. It waits for nobody. Refused as `NoTransaction`
    /// where none is open, and as `NoMemory`; then nothing changes.
    pub fn add_read(&mut self, range: &KeyRange) -> Result<(), Refusal>
        ensures answers { OfOpen self.old.current result (λ transcript. Answers result None
            (λ _. self.new
            ≡ with_current self.old (Some (with_op transcript (operation.AddRead range.now) answer.Done)))) }
        ensures refused { OnErr result (self.new ≡ self.old) }
    {
        self.client.add_read(range)
    }

    /// The open transaction adds the range to its write set, whole. It waits for nobody. Refused as `NoTransaction`
    /// where none is open, and as `NoMemory`; then nothing changes.
    pub fn add_write(&mut self, range: &KeyRange) -> Result<(), Refusal>
        ensures answers { OfOpen self.old.current result (λ transcript. Answers result None
            (λ _. self.new
            ≡ with_current self.old (Some (with_op transcript (operation.AddWrite range.now) answer.Done)))) }
        ensures refused { OnErr result (self.new ≡ self.old) }
    {
        self.client.add_write(range)
    }

    /// Learns of a receipt of the database: what the session has seen becomes the longer of both fronts, and the mark
    /// the greater of itself and the version of the receipt's spot. It waits for nobody. Refused only as `NoMemory`,
    /// and then nothing changes.
    pub fn learn(&mut self, receipt: &Receipt<B>) -> Result<(), Refusal>
        ensures answers { Answers result None (λ _. self.new ≡ learning self.old receipt.now) }
        ensures begins { OnOk result (IsPrefix self.old.front self.new.front) }
        ensures refused { OnErr result (self.new ≡ self.old) }
    {
        self.client.learn(receipt)
    }

    /// The value of the key after the open transaction's own writes: on the serial map of what the session has seen of
    /// the book, at the transaction's read version. It is noted in the transcript. A snapshot read conflicts with
    /// nobody, and is promised nothing else. It waits for the key's shard, unless the own writes decide the key.
    ///
    /// Refused as `NoTransaction` exactly where none is open; as `AccessedUnreadable` exactly where its own writes
    /// leave the key unreadable, since a stamp that is known at the commit alone stands there, and then no shard is
    /// asked; else as `TransactionTooOld` where the shard doesn't serve the version any more, as `Closed` once the
    /// database is closed, as `Failed`, and as `NoMemory`, which may come before any of the others but the first, and
    /// as nothing else. Then nothing changes. It takes the time of one `Shard::get` under the shard's lock, and of a
    /// share of a front.
    pub fn get<R: Wait>(
        &mut self,
        rt: &R,
        alloc: Global,
        key: &Key,
        is_snapshot: bool,
    ) -> Result<Option<Bytes>, Refusal>
        ensures answered { IfOk result (λ value. HasRead B.config.resolver_splits self.old
            (operation.Get key.now is_snapshot) (answer.Value value) self.new) }
        ensures hidden { IfSome self.old.current (λ transcript.
            RefusesUnreadable result (unreadable (program transcript.ops) key.now)) }
        ensures told { IfSome self.old.current (λ transcript.
            TellsUnreadable result (unreadable (program transcript.ops) key.now)) }
        ensures none { self.old.current ≡ None → result ≡ Err NoTransaction }
        ensures open { IfErr result (λ why. why ≡ NoTransaction → self.old.current ≡ None) }
        ensures refusals { IfErr result (λ why. is_of_read why ≡ true) }
        ensures refused { OnErr result (self.new ≡ self.old) }
    {
        let Some(version) = self.client.read_version() else {
            return Err(Refusal::NoTransaction);
        };
        match self.get_open(rt, alloc, version, key, is_snapshot) {
            Ok(value) => Ok(value),
            Err(why) => Err(read_refusal(why)),
        }
    }

    // The same in the transaction that is open, at its read version, refused for whatever reason is given.
    fn get_open<R: Wait>(
        &mut self,
        rt: &R,
        alloc: Global,
        version: u64,
        key: &Key,
        is_snapshot: bool,
    ) -> Result<Option<Bytes>, Refusal>
        ensures answered { IfOk result (λ value. HasRead B.config.resolver_splits self.old
            (operation.Get key.now is_snapshot) (answer.Value value) self.new) }
        ensures hidden { IfSome self.old.current (λ transcript.
            RefusesUnreadable result (unreadable (program transcript.ops) key.now)) }
        ensures told { IfSome self.old.current (λ transcript.
            TellsUnreadable result (unreadable (program transcript.ops) key.now)) }
        ensures refused { OnErr result (self.new ≡ self.old) }
    {
        if self.client.decides(key) {
            return self.client.get_decided(alloc, key, is_snapshot);
        }
        let Some(shard) = self.shared.shard(self.shared.tag_of(key)) else {
            return Err(Refusal::Failed);
        };
        match shard.at_version(rt, version) {
            Ok(held) => self.client.get_at(&held.at, key, is_snapshot),
            Err(why) => Err(shard_refusal(why)),
        }
    }

    /// The pairs of the range after the open transaction's own writes, as the options say: the first `limit` of them in
    /// key order, from the last one backwards where `reverse`, and all where `limit` is 0. They are those of the serial
    /// map of what the session has seen of the book, at the transaction's read version. It is noted in the transcript.
    /// It reads page by page, of no more than 256 pairs, and waits for each of the shards that a page looks at. It
    /// holds the lock of one shard at a time, while that gives its part of one page, and none between two pages.
    ///
    /// Refused as `get` is, but as `AccessedUnreadable` only where what it scanned has a key that its own writes leave
    /// unreadable, which counts as a pair that is there. Such a read is never answered, but what the shards refuse and
    /// `NoMemory` may come before. Then nothing changes.
    ///
    /// Each shard is asked for no more than the limit needs, in the order in which the pairs are given, and asked again
    /// as often as it has more than a page, or the own writes hide what it gave, then for twice as many pairs. Each
    /// asking takes O(log s) comparisons for s shards, O(log n) for the n keys of the shard, and O(log v) for the v
    /// versions of each pair that it gives, of one more, and of each key between them at which nothing stands. Where it
    /// is refused for another reason than an unreadable key, it asks each shard that the range meets once more whether
    /// it serves the version.
    pub fn get_range<R: Wait>(
        &mut self,
        rt: &R,
        alloc: Global,
        range: &KeyRange,
        options: ReadOptions,
    ) -> Result<Items<(Key, Bytes)>, Refusal>
        ensures answered { IfOk result (λ pairs. HasRead B.config.resolver_splits self.old
            (operation.Range range.now options.limit options.reverse options.snapshot) (answer.Pairs pairs) self.new) }
        ensures told { IfSome self.old.current (λ transcript.
            TellsUnreadable result (scans_unreadable (run_of B.config transcript.read_version self.old.front)
            (program transcript.ops) range.now options.limit options.reverse)) }
        ensures none { self.old.current ≡ None → result ≡ Err NoTransaction }
        ensures open { IfErr result (λ why. why ≡ NoTransaction → self.old.current ≡ None) }
        ensures refusals { IfErr result (λ why. is_of_read why ≡ true) }
        ensures refused { OnErr result (self.new ≡ self.old) }
    {
        if self.client.read_version().is_none() {
            return Err(Refusal::NoTransaction);
        }
        let ReadOptions {
            limit,
            reverse,
            snapshot,
        } = options;
        match self.range_open(rt, alloc, range, limit, reverse, snapshot) {
            Ok(pairs) => Ok(pairs),
            Err(why) => Err(read_refusal(why)),
        }
    }

    // The same in the transaction that is open, at its read version, refused for whatever reason is given.
    fn range_open<R: Wait>(
        &mut self,
        rt: &R,
        alloc: Global,
        range: &KeyRange,
        limit: u32,
        reverse: bool,
        is_snapshot: bool,
    ) -> Result<Items<(Key, Bytes)>, Refusal>
        ensures answered { IfOk result (λ pairs. HasRead B.config.resolver_splits self.old
            (operation.Range range.now limit reverse is_snapshot) (answer.Pairs pairs) self.new) }
        ensures told { IfSome self.old.current (λ transcript.
            TellsUnreadable result (scans_unreadable (run_of B.config transcript.read_version self.old.front)
            (program transcript.ops) range.now limit reverse)) }
        ensures refused { OnErr result (self.new ≡ self.old) }
    {
        let (version, front) = self.client.share_open()?;
        let shards = SharedShards::new(alloc, rt, &self.shared, version, &front);
        match self
            .client
            .get_range_on(&shards, range, limit, reverse, is_snapshot)
        {
            Ok(pairs) => Ok(pairs),
            Err(why) => Err(range_refusal(&shards, range, why)),
        }
    }

    /// Commits the open transaction, which the database's layer has to allow, and gives its receipt, after which none
    /// is open. What wrote nothing is committed at its read version, by the session alone. Everything else waits for
    /// the session's commit proxy.
    ///
    /// Refused as `NoTransaction` where none is open, as `TransactionTooLarge` where it has more than 10,000,000 bytes,
    /// and as `NoMemory` before its proxy took it; then nothing changes, it may be committed once more, and none is
    /// handed back. Every other refusal ends the transaction and hands its transcript back: `NotCommitted` where
    /// another one wrote what it read, and `TransactionTooOld` where it read at too old a version, which both may be
    /// tried anew; `BookFull`, `Exhausted`, `Repeated` and `Chain` where it got no entry, `Closed` once the database is
    /// closed, and `Failed`: after these six no place of what the session has seen is it. It has no effect after any of
    /// these eight. After `CommitUnknownResult` it may have been committed or not. With the transcript it hands back
    /// the points at which the transaction conflicts where it is refused as `NotCommitted`, and none else.
    pub fn commit<R: Wait>(
        &mut self,
        rt: &R,
        alloc: Global,
    ) -> Result<Receipt<B>, Refused<Option<(Transcript, RangeSet)>>>
        requires { IfSome self.old.current B.allows }
        ensures { CommitAnswers B.config self.old result self.new }
    {
        let reply = match self.slots.outcomes() {
            Ok(reply) => reply,
            Err(why) => return Err(Refused { why, back: None }),
        };
        match self.client.commit() {
            Ok(Asked::Acknowledged(receipt)) => Ok(receipt),
            Ok(Asked::ToCommit(asked)) => {
                let request = CommitRequest { asked, reply };
                let told = ask_commit(rt, &self.shared, &self.slots, self.number, request);
                self.client.settle(alloc, self.shared.limit(), told)
            }
            Err(why) => Err(Refused { why, back: None }),
        }
    }
}

impl<B: ClusterName, L: Layer> Session<Layered<B, L>> {
    /// Says that what each transaction of the layer keeps holds of the serial map of what the session has seen, at
    /// every version, and does nothing else: so of each map that a read of it was of. It takes no memory, and O(1)
    /// time.
    pub fn know_layer(&self)
        ensures { HoldsOnRun L.holds B.config.resolver_splits self.now.front }
    {
        self.client.know_layer();
    }
}

// What the session's commit proxy tells of the request, or why it didn't take that.
fn ask_commit<B: DatabaseName, R: Wait>(
    rt: &R,
    shared: &Shared<B>,
    slots: &Slots<B>,
    number: u32,
    request: CommitRequest<B>,
) -> CommitReply<B> {
    let proxies = shared.commits();
    if proxies.is_empty() {
        return CommitReply::Refused(Refusal::Failed);
    }
    let proxy = &proxies[number as usize % proxies.len()];
    if let Err(refused) = proxy.put(rt, request) {
        return CommitReply::Refused(Refusal::from(refused));
    }
    proxy.wake();
    slots
        .next_outcome(rt)
        .unwrap_or(CommitReply::Refused(Refusal::CommitUnknownResult))
}
