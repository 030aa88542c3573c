ghost use Rattle.std.specs.Prelude.{◌≡◌, ◌⊎◌, ⊤, suc, length, None, OnOk, OnErr, IfOk, IfErr};
ghost use Rattle.fdb_keys.specs.Answers.{Answers, AnswersExactly};
ghost use Rattle.fdb_keys.specs.declared.refusal.Refusal.TheVariants.{Failed, NoMemory};
ghost use Rattle.fdb_proxy.specs.Configs.{config_fault};
ghost use Rattle.fdb_runtime.specs.Databases.{start_fault, session_fault, new_session};
ghost use Rattle.fdb_runtime.specs.Databases.{AnswersMove, is_bad_move};
ghost use Rattle.fdb_runtime.specs.Statuses.{IsOfFront};
ghost use Rattle.fdb_sequencer.specs.Sequencer.{set_window_fault};

use crate::gate::Gate;
use crate::session::Session;
use crate::shared::Shared;
use crate::shared::shard::{hold_all, lent_of};
use crate::status::{Status, status_of};
use crate::threads::gated::Gated;
use crate::threads::team::Team;
use crate::threads::workers::Workers;
use fdb_book::{Blank, Book};
use fdb_keys::{KeyRange, Refusal};
use fdb_proxy::Config;
use fdb_sections::{DatabaseName, GrantMessage, Record, ShardState};
use fdb_txn::Move;
use std::alloc::Global;
use std::marker::Model;
use std::sync::{Arc, MutexGuard, Wait};
use std::thread::Threads;

/// A running database: a thread for each resolver, shard and proxy of either kind. It stays on the thread that started
/// it, and has to be closed on every path, which ends its threads. Contracts see how many sessions it has given.
pub struct Database<B: DatabaseName> {
    shared: Arc<Shared<B>>,
    team: Team,
    sessions: u32,
}

impl<B: DatabaseName> Model for Database<B> {
    ghost use Rattle.std.specs.Prelude.{ℕ};

    ghost Value = { ℕ };

    ghost view = { λ database. database.sessions };
}

impl<B: DatabaseName + Send + Sync + 'static> Database<B> {
    /// Starts a database on the cells of a blank. The name `B` lists these cells and has the configuration: who makes
    /// the blank hands it to a function over `B`, and picks the name at that call. An entry's version is `advance`
    /// above the one before it, 1 at least and 5,000,000 at most.
    ///
    /// Refused as `BadConfig` where the configuration isn't legal, or the blank hasn't room for just as many entries as
    /// it says, and as `NoMemory`. A refusal ends the threads that were started, and the blank is used up.
    pub fn start<G: Gate + 'static, R: Threads + Wait + Copy + Send + Sync + 'static>(
        rt: &R,
        alloc: Global,
        blank: Blank,
        config: &Config,
        advance: u64,
        gate: &Arc<G>,
    ) -> Result<Self, Refusal>
        requires cells { blank ≡ B.cells }
        requires config { config.now ≡ B.config }
        ensures { Answers result (start_fault config.now (length blank)) (λ database. database ≡ 0) }
    {
        check_start(&blank, config)?;
        Self::start_legal(rt, alloc, blank, config, advance, gate)
    }

    // The same where the configuration is legal. Refused only as `NoMemory`.
    fn start_legal<G: Gate + 'static, R: Threads + Wait + Copy + Send + Sync + 'static>(
        rt: &R,
        alloc: Global,
        blank: Blank,
        config: &Config,
        advance: u64,
        gate: &Arc<G>,
    ) -> Result<Self, Refusal>
        requires cells { blank ≡ B.cells }
        requires config { config.now ≡ B.config }
        requires legal { config_fault config.now ≡ None }
        ensures { Answers result None (λ database. database ≡ 0) }
    {
        let shared = Shared::new(rt, alloc, Book::open(blank), config, advance)?;
        let shared = Arc::new(alloc, shared)?;
        let mut team = Team::new(alloc);
        match start_team(rt, &shared, gate, config, &mut team) {
            Ok(()) => Ok(Database {
                shared,
                team,
                sessions: 0,
            }),
            Err(why) => {
                team.stop(rt, &*shared);
                Err(why)
            }
        }
    }

    /// The next session, numbered from 0 on, which has seen nothing. Session `s` uses the proxies numbered `s` modulo
    /// how many there are. Refused as `Exhausted` once all numbers are used, and as `NoMemory`; then nothing changes.
    pub fn session(&mut self, alloc: Global) -> Result<Session<B>, Refusal>
        ensures answers { Answers result (session_fault self.old) (λ session. session ≡ new_session self.old) }
        ensures counted { OnOk result (self.new ≡ suc self.old) }
        ensures refused { OnErr result (self.new ≡ self.old) }
    {
        let number = self.sessions;
        let Some(next) = number.checked_add(1) else {
            return Err(Refusal::Exhausted);
        };
        let shared = Arc::try_clone(&self.shared)?;
        let session = Session::new(alloc, number, shared)?;
        self.sessions = next;
        Ok(session)
    }

    /// Hands the keys of the range over to the resolver with the number, from the version of the next entry on. It
    /// waits for the sequencer alone, and changes nothing that a session is told but which transactions are turned down
    /// for what another resolver said.
    ///
    /// Refused as `BadConfig` where there is no such resolver or the range is empty, as `MovesFull` after 65,536 moves,
    /// and as `NoMemory`; then nothing changes. It takes O(1) time.
    pub fn move_range<R: Wait>(&self, rt: &R, range: &KeyRange, to: u32) -> Result<(), Refusal>
        ensures { AnswersMove (is_bad_move B.config (record { range = range.now; to = to })) result }
    {
        let range = range.clone()?;
        self.shared.move_to(rt, Move { range, to })
    }

    /// Sets how many versions the window has, which are 5,000,000 at first. From the next entry on, a transaction that
    /// reads is too old where its read version lies more than so many below the version of its entry, or where it would
    /// have been too old in an entry before: what has become too old stays so where the window grows. It waits for the
    /// sequencer alone, and changes nothing else that a session is told.
    ///
    /// Refused as `BadConfig` unless the window has 1 to 5,000,000 versions; then nothing changes. It takes no memory,
    /// and O(1) time.
    pub fn set_window<R: Wait>(&self, rt: &R, window: u64) -> Result<(), Refusal>
        ensures { AnswersExactly result (set_window_fault window) (λ _. ⊤) }
    {
        self.shared.set_window(rt, window)
    }

    /// What the database tells of itself: its committed version, how many entries its book has room for yet, how far
    /// its shards have come, and which logs and shards have failed. It waits for the sequencer, and for each log and
    /// each shard, and holds one lock at a time, in O(1) time. Refused only as `NoMemory`.
    pub fn status<R: Wait>(&self, rt: &R) -> Result<Status, Refusal>
        ensures { IfOk result (λ status. IsOfFront B.config status.committed status.entries_left) }
    {
        status_of(rt, &*self.shared)
    }

    /// Closes the database, and gives what it holds. What waits is refused as `Closed`, batches in flight end where no
    /// role has failed, and shards pull through the committed version. It waits for the end of all threads, and the
    /// database is gone whatever is answered.
    ///
    /// Refused as `Failed` where a log or a shard has failed, and as `NoMemory`.
    pub fn close<R: Threads + Wait>(self, rt: &R) -> Result<Record<B>, Refusal>
        ensures { IfErr result (λ why. (why ≡ Failed) ⊎ (why ≡ NoMemory)) }
    {
        let Database {
            shared,
            team,
            sessions: _,
        } = self;
        team.stop(rt, &*shared);
        match record_of(rt, &*shared) {
            Ok(record) => Ok(record),
            Err(why) => Err(lost(why)),
        }
    }
}

// Why the configuration can't be that of a database on the cells, if it can't: it isn't legal, or there is room for
// another number of entries. It takes no memory.
fn check_start(blank: &Blank, config: &Config) -> Result<(), Refusal>
    ensures answers { AnswersExactly result (start_fault config.now (length blank.now)) (λ _. ⊤) }
    ensures legal { OnOk result (config_fault config.now ≡ None) }
{
    if blank.capacity() != config.book as usize {
        return Err(Refusal::BadConfig);
    }
    config.check()
}

// Starts all threads. Refused only as `NoMemory`; then some may have been started, and workers of others are gone.
fn start_team<
    B: DatabaseName + Send + Sync + 'static,
    G: Gate + 'static,
    R: Threads + Wait + Copy + Send + Sync + 'static,
>(
    rt: &R,
    shared: &Arc<Shared<B>>,
    gate: &Arc<G>,
    config: &Config,
    team: &mut Team,
) -> Result<(), Refusal>
    requires config { config.now ≡ B.config }
    requires legal { config_fault config.now ≡ None }
    ensures { Answers result None (λ _. ⊤) }
{
    let gated = Gated::share(shared, gate)?;
    let mut workers = Workers::new(shared.alloc);
    workers.add_all(config)?;
    team.start(rt, &gated, &mut workers)
}

// What a closed database is refused as that doesn't give its record.
fn lost(why: Refusal) -> Refusal
    ensures { (result ≡ Failed) ⊎ (result ≡ NoMemory) }
{
    match why {
        Refusal::NoMemory => Refusal::NoMemory,
        _ => Refusal::Failed,
    }
}

// What the shards have of every key at the committed version, where no log has failed.
fn record_of<B: DatabaseName, R: Wait>(rt: &R, shared: &Shared<B>) -> Result<Record<B>, Refusal> {
    check_logs(rt, shared)?;
    let granted = shared.granted(rt)?;
    record_at(rt, shared, &granted)
}

// Refused as `Failed` where a log has failed. It takes no memory.
fn check_logs<B: DatabaseName, R: Wait>(rt: &R, shared: &Shared<B>) -> Result<(), Refusal> {
    for log in shared.logs() {
        if log.is_failed(rt) {
            return Err(Refusal::Failed);
        }
    }
    Ok(())
}

// What the shards have of every key at a version that was granted.
fn record_at<B: DatabaseName, R: Wait>(
    rt: &R,
    shared: &Shared<B>,
    granted: &GrantMessage<B>,
) -> Result<Record<B>, Refusal> {
    let held = hold_all(rt, shared.alloc, shared.shards())?;
    record_held(shared.alloc, granted, held.as_slice())
}

// The same of the shards whose locks are held.
fn record_held<B: DatabaseName>(
    alloc: Global,
    granted: &GrantMessage<B>,
    held: &[MutexGuard<'_, ShardState<B>>],
) -> Result<Record<B>, Refusal> {
    let shards = lent_of(alloc, held)?;
    Record::at(alloc, granted, shards.as_slice())
}
