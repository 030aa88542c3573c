// Threads that run at once, as a gate sees that holds some of them back.
ghost use Rattle.std.specs.Prelude.{◌≡◌};

use crate::asserting::same;
use fdb_book::Blank;
use fdb_hosts::{Done, Host, Named, byte_of, put, two_sessions, wait_for};
use fdb_keys::Refusal;
use fdb_making::{coded, count_config, keys_of};
use fdb_runtime::{ClusterName, Config, Database, Gate, NoGate, Role, Session};
use fdb_txn::Spot;
use std::alloc::Global;
use std::marker::Brand;
use std::sync::atomic::{AtomicBool, AtomicU64, Ordering};
use std::sync::{Arc, Wait};
use std::test::Fail;
use std::thread;
use std::thread::Threads;
use std::time::{Clock, Duration};

// How many entries each of two resolvers has passed. On entry 0 resolver 0 waits for resolver 1 to have passed it, on
// entry 1 the other way round.
#[derive(Drop)]
struct CrossedResolvers<C: Clock + Send + Sync + Drop> {
    clock: C,
    passed: [AtomicU64; 2],
    missed: AtomicBool,
}

impl<C: Clock + Send + Sync + Drop> Gate for CrossedResolvers<C> {
    fn before(&self, role: Role, entry: u32) {
        let other = match (role, entry) {
            (Role::Resolver(0), 0) => &self.passed[1],
            (Role::Resolver(1), 1) => &self.passed[0],
            _ => return,
        };
        if !wait_for(&self.clock, other, u64::from(entry) + 1) {
            self.missed.store(true, Ordering::SeqCst);
        }
    }

    fn after(&self, role: Role, _entry: u32) {
        match role {
            Role::Resolver(0) => {
                self.passed[0].fetch_add(1, Ordering::SeqCst);
            }
            Role::Resolver(1) => {
                self.passed[1].fetch_add(1, Ordering::SeqCst);
            }
            _ => {}
        }
    }
}

// Each of two commit proxies waits, before what it does first, for the other one to be there.
#[derive(Drop)]
struct MeetingProxies<C: Clock + Send + Sync + Drop> {
    clock: C,
    came: [AtomicU64; 2],
    missed: AtomicBool,
}

impl<C: Clock + Send + Sync + Drop> Gate for MeetingProxies<C> {
    fn before(&self, role: Role, _entry: u32) {
        let (own, other) = match role {
            Role::CommitProxy(0) => (&self.came[0], &self.came[1]),
            Role::CommitProxy(1) => (&self.came[1], &self.came[0]),
            _ => return,
        };
        own.fetch_add(1, Ordering::SeqCst);
        if !wait_for(&self.clock, other, 1) {
            self.missed.store(true, Ordering::SeqCst);
        }
    }

    fn after(&self, _role: Role, _entry: u32) {}
}

// The commit proxy waits on entry 1 until it may go on.
#[derive(Drop)]
struct HeldProxy<C: Clock + Send + Sync + Drop> {
    clock: C,
    came: AtomicU64,
    may_go_on: AtomicU64,
    missed: AtomicBool,
}

impl<C: Clock + Send + Sync + Drop> Gate for HeldProxy<C> {
    fn before(&self, role: Role, entry: u32) {
        if (role, entry) != (Role::CommitProxy(0), 1) {
            return;
        }
        self.came.store(1, Ordering::SeqCst);
        if !wait_for(&self.clock, &self.may_go_on, 1) {
            self.missed.store(true, Ordering::SeqCst);
        }
    }

    fn after(&self, _role: Role, _entry: u32) {}
}

// Commits one write, and answers the spot's entry and version.
fn commit_one<B: ClusterName, R: Wait>(
    rt: &R,
    alloc: Global,
    session: &mut Session<B>,
    key: &[u8],
) -> Result<(u32, u64), Refusal> {
    match put(rt, alloc, session, key, 1)? {
        Spot::Entry { index, version, .. } => Ok((index, version)),
        Spot::ReadOnly { version } => Ok((u32::MAX, version)),
    }
}

// Two transactions, one after another.
fn commit_two<B: ClusterName, R: Wait>(
    rt: &R,
    alloc: Global,
    session: &mut Session<B>,
) -> Result<[(u32, u64); 2], Refusal> {
    let first = commit_one(rt, alloc, session, b"a")?;
    let second = commit_one(rt, alloc, session, b"z")?;
    Ok([first, second])
}

// The same in a session of its own.
fn commit_alone<B: Named, R: Host>(
    rt: &R,
    alloc: Global,
    database: &mut Database<B>,
) -> Result<[(u32, u64); 2], Refusal> {
    let mut session = database.session(alloc)?;
    let told = commit_two(rt, alloc, &mut session);
    drop(session);
    told
}

// What a session is told where resolvers wait for each other, and whether the database could be closed.
fn commit_crossed<B: Named, R: Host>(
    rt: &R,
    alloc: Global,
    blank: Blank,
    config: &Config,
    gate: &Arc<CrossedResolvers<R>>,
) -> Result<(Result<[(u32, u64); 2], u32>, bool), Refusal>
    requires cells { blank ≡ B.cells }
    requires config { config.now ≡ B.config }
{
    let mut database: Database<B> = Database::start(rt, alloc, blank, config, 100, gate)?;
    let told = commit_alone(rt, alloc, &mut database);
    let record = database.close(rt);
    Ok((coded(told), record.is_ok()))
}

fn cross<B: Named, R: Host>(rt: &R, alloc: Global, blank: Blank, config: &Config) -> Done
    requires cells { blank ≡ B.cells }
    requires config { config.now ≡ B.config }
{
    let gate = Arc::new(
        alloc,
        CrossedResolvers {
            clock: *rt,
            passed: [AtomicU64::new(0), AtomicU64::new(0)],
            missed: AtomicBool::new(false),
        },
    )?;
    let told = commit_crossed::<B, R>(rt, alloc, blank, config, &gate)?;
    same(rt, told, (Ok([(0, 100), (1, 200)]), true));
    same(rt, gate.missed.load(Ordering::SeqCst), false);
    // Who says nothing of that may hold a thread back. What is for use never does.
    same(rt, (gate.may_wait(), NoGate.may_wait()), (true, false));
    Ok(())
}

#[test]
fn two_resolvers_wait_for_each_other(rt: HostRuntime) -> Result<(), Fail> {
    let alloc = rt.alloc();
    let mut config = count_config(alloc, 1, 1, 10);
    config.resolver_splits = keys_of(alloc, &[b"m"])?;
    let blank = Blank::new(alloc, 10)?;
    cross::<Brand, HostRuntime>(&rt, alloc, blank, &config)?;
    Ok(())
}

// Two sessions commit at once. The entries are 0 and 1, in either order.
fn commit_at_once<B: Named, R: Threads + Wait + Sync>(
    rt: &R,
    alloc: Global,
    first: &mut Session<B>,
    second: &mut Session<B>,
) -> Result<u32, Refusal> {
    let (one, two) = thread::join(
        rt,
        || commit_one(rt, alloc, first, b"a"),
        || commit_one(rt, alloc, second, b"z"),
    );
    Ok(one?.0.wrapping_add(two?.0))
}

// The same in sessions of the database.
fn commit_both<B: Named, R: Host>(
    rt: &R,
    alloc: Global,
    database: &mut Database<B>,
) -> Result<u32, Refusal> {
    let (mut first, mut second) = two_sessions(alloc, database)?;
    let sum = commit_at_once(rt, alloc, &mut first, &mut second);
    drop((first, second));
    sum
}

// What two sessions are told where commit proxies wait for each other, and whether the database could be closed.
fn commit_met<B: Named, R: Host>(
    rt: &R,
    alloc: Global,
    blank: Blank,
    config: &Config,
    gate: &Arc<MeetingProxies<R>>,
) -> Result<(Result<u32, u32>, bool), Refusal>
    requires cells { blank ≡ B.cells }
    requires config { config.now ≡ B.config }
{
    let mut database: Database<B> = Database::start(rt, alloc, blank, config, 100, gate)?;
    let told = commit_both(rt, alloc, &mut database);
    let record = database.close(rt);
    Ok((coded(told), record.is_ok()))
}

fn meet<B: Named, R: Host>(rt: &R, alloc: Global, blank: Blank, config: &Config) -> Done
    requires cells { blank ≡ B.cells }
    requires config { config.now ≡ B.config }
{
    let gate = Arc::new(
        alloc,
        MeetingProxies {
            clock: *rt,
            came: [AtomicU64::new(0), AtomicU64::new(0)],
            missed: AtomicBool::new(false),
        },
    )?;
    let told = commit_met::<B, R>(rt, alloc, blank, config, &gate)?;
    same(rt, told, (Ok(1), true));
    same(rt, gate.missed.load(Ordering::SeqCst), false);
    Ok(())
}

#[test]
fn two_commit_proxies_wait_for_each_other(rt: HostRuntime) -> Result<(), Fail> {
    let alloc = rt.alloc();
    let config = count_config(alloc, 2, 1, 10);
    let blank = Blank::new(alloc, 10)?;
    meet::<Brand, HostRuntime>(&rt, alloc, blank, &config)?;
    Ok(())
}

// Reads what the first entry wrote while the second one is held, and then lets it go.
fn read_meanwhile<B: ClusterName, C: Clock + Send + Sync + Drop, R: Wait>(
    rt: &R,
    alloc: Global,
    gate: &HeldProxy<C>,
    session: &mut Session<B>,
) -> Result<(bool, u64, Option<u8>), Refusal> {
    let came = wait_for(&gate.clock, &gate.came, 1);
    let version = session.begin(rt, alloc);
    let value = byte_of(rt, alloc, session, b"a");
    gate.may_go_on.store(1, Ordering::SeqCst);
    Ok((came, version?, value?))
}

type Meanwhile = ([(u32, u64); 2], (bool, u64, Option<u8>));

fn commit_and_read<B: Named, C: Clock + Send + Sync + Drop, R: Threads + Wait + Sync>(
    rt: &R,
    alloc: Global,
    gate: &HeldProxy<C>,
    writer: &mut Session<B>,
    reader: &mut Session<B>,
) -> Result<Meanwhile, Refusal> {
    let (read, committed) = thread::join(
        rt,
        || read_meanwhile(rt, alloc, gate, reader),
        || commit_two(rt, alloc, writer),
    );
    Ok((committed?, read?))
}

// The same in sessions of the database.
fn read_in_two<B: Named, R: Host>(
    rt: &R,
    alloc: Global,
    gate: &HeldProxy<R>,
    database: &mut Database<B>,
) -> Result<Meanwhile, Refusal> {
    let (mut first, mut second) = two_sessions(alloc, database)?;
    let told = commit_and_read(rt, alloc, gate, &mut first, &mut second);
    drop((first, second));
    told
}

// What two sessions are told where the commit proxy is held, and whether the database could be closed.
fn read_held<B: Named, R: Host>(
    rt: &R,
    alloc: Global,
    blank: Blank,
    config: &Config,
    gate: &Arc<HeldProxy<R>>,
) -> Result<(Result<Meanwhile, u32>, bool), Refusal>
    requires cells { blank ≡ B.cells }
    requires config { config.now ≡ B.config }
{
    let mut database: Database<B> = Database::start(rt, alloc, blank, config, 100, gate)?;
    let told = read_in_two(rt, alloc, &**gate, &mut database);
    let record = database.close(rt);
    Ok((coded(told), record.is_ok()))
}

fn hold<B: Named, R: Host>(rt: &R, alloc: Global, blank: Blank, config: &Config) -> Done
    requires cells { blank ≡ B.cells }
    requires config { config.now ≡ B.config }
{
    let gate = Arc::new(
        alloc,
        HeldProxy {
            clock: *rt,
            came: AtomicU64::new(0),
            may_go_on: AtomicU64::new(0),
            missed: AtomicBool::new(false),
        },
    )?;
    let told = read_held::<B, R>(rt, alloc, blank, config, &gate)?;
    let wanted = Ok(([(0, 100), (1, 200)], (true, 100, Some(1))));
    same(rt, told, (wanted, true));
    same(rt, gate.missed.load(Ordering::SeqCst), false);
    Ok(())
}

#[test]
fn a_session_reads_while_the_commit_proxy_is_held(rt: HostRuntime) -> Result<(), Fail> {
    let alloc = rt.alloc();
    let config = count_config(alloc, 1, 1, 10);
    let blank = Blank::new(alloc, 10)?;
    hold::<Brand, HostRuntime>(&rt, alloc, blank, &config)?;
    Ok(())
}
