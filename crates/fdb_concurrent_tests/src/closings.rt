// A database that is closed while a commit is under way and another one waits.
ghost use Rattle.std.specs.Prelude.{◌≡◌};

use crate::asserting::same;
use fdb_book::Blank;
use fdb_hosts::{Done, Host, Named, commit_code, length_of, thread_of, wait_for, write};
use fdb_keys::Refusal;
use fdb_making::{both, coded, count_config};
use fdb_mutations::Mutation;
use fdb_runtime::{ClusterName, Config, Database, Gate, Role, Session};
use std::alloc::Global;
use std::marker::Brand;
use std::sync::atomic::{AtomicBool, AtomicU64, Ordering};
use std::sync::{Arc, Wait};
use std::test::Fail;
use std::thread;
use std::thread::{JoinHandle, Threads};
use std::time::{Clock, Duration};

// How often the last session asks for a read version, once a millisecond, before it gives up.
const TURNS: u32 = 10_000;

// The resolver waits on entry 0 until it may go on.
#[derive(Drop)]
struct HeldResolver<C: Clock + Send + Sync + Drop> {
    clock: C,
    // Whether the resolver has come to entry 0.
    came: AtomicU64,
    // Whether another session is about to commit.
    waits: AtomicU64,
    may_go_on: AtomicU64,
    missed: AtomicBool,
}

impl<C: Clock + Send + Sync + Drop> HeldResolver<C> {
    fn new(clock: C) -> Self {
        HeldResolver {
            clock,
            came: AtomicU64::new(0),
            waits: AtomicU64::new(0),
            may_go_on: AtomicU64::new(0),
            missed: AtomicBool::new(false),
        }
    }

    // Waits for the word to be set, and notes where it isn't.
    fn await_word(&self, word: &AtomicU64) {
        if !wait_for(&self.clock, word, 1) {
            self.missed.store(true, Ordering::SeqCst);
        }
    }
}

impl<C: Clock + Send + Sync + Drop> Gate for HeldResolver<C> {
    fn before(&self, role: Role, entry: u32) {
        if (role, entry) == (Role::Resolver(0), 0) {
            self.came.store(1, Ordering::SeqCst);
            if !wait_for(&self.clock, &self.may_go_on, 1) {
                self.missed.store(true, Ordering::SeqCst);
            }
        }
    }

    fn after(&self, _role: Role, _entry: u32) {}
}

// What a session does: it commits first, it commits while that commit is under way, or it asks for read versions until
// it is refused.
#[derive(Clone, Copy)]
enum Part {
    First,
    Second,
    Last,
}

const PARTS: &[Part] = &[Part::First, Part::Second, Part::Last];

// The code that a session was answered in the end, 0 for none, and whether a transcript was handed back.
type Told = (u32, bool);

// Opens a transaction that writes the key.
fn open<B: ClusterName, R: Wait>(
    rt: &R,
    alloc: Global,
    session: &mut Session<B>,
    key: &[u8],
) -> Done {
    session.begin(rt, alloc)?;
    write(session, Mutation::set(alloc, key, &[1]))
}

fn commit_first<B: ClusterName, R: Wait>(rt: &R, alloc: Global, session: &mut Session<B>) -> Told {
    match open(rt, alloc, session, b"a") {
        Ok(()) => commit_code(rt, alloc, session),
        Err(why) => (why.code(), false),
    }
}

fn commit_second<B: ClusterName, C: Clock + Send + Sync + Drop, R: Wait>(
    rt: &R,
    alloc: Global,
    session: &mut Session<B>,
    gate: &HeldResolver<C>,
) -> Told {
    gate.await_word(&gate.came);
    let opened = open(rt, alloc, session, b"b");
    gate.waits.store(1, Ordering::SeqCst);
    match opened {
        Ok(()) => commit_code(rt, alloc, session),
        Err(why) => (why.code(), false),
    }
}

// Asks until it is refused, and then lets the resolver go on.
fn begin_until_refused<B: ClusterName, C: Clock + Send + Sync + Drop, R: Wait>(
    rt: &R,
    alloc: Global,
    session: &mut Session<B>,
    gate: &HeldResolver<C>,
) -> Told {
    gate.await_word(&gate.waits);
    let code = begin_code(rt, alloc, session, gate);
    gate.may_go_on.store(1, Ordering::SeqCst);
    (code, false)
}

fn begin_code<B: ClusterName, C: Clock + Send + Sync + Drop, R: Wait>(
    rt: &R,
    alloc: Global,
    session: &mut Session<B>,
    gate: &HeldResolver<C>,
) -> u32 {
    for _turn in 0..TURNS {
        if let Err(why) = session.begin(rt, alloc) {
            return why.code();
        }
        thread::sleep(&gate.clock, Duration::from_millis(1));
    }
    0
}

// What the session is told that does its part.
fn play_part<B: ClusterName, C: Clock + Send + Sync + Drop, R: Wait>(
    rt: &R,
    alloc: Global,
    session: &mut Session<B>,
    part: Part,
    gate: &HeldResolver<C>,
) -> Told {
    match part {
        Part::First => commit_first(rt, alloc, session),
        Part::Second => commit_second(rt, alloc, session, gate),
        Part::Last => begin_until_refused(rt, alloc, session, gate),
    }
}

// The same, after which the session is dropped.
fn play<B: ClusterName, C: Clock + Send + Sync + Drop, R: Wait>(
    rt: &R,
    alloc: Global,
    session: Session<B>,
    part: Part,
    gate: &HeldResolver<C>,
) -> Told {
    let mut session = session;
    let told = play_part(rt, alloc, &mut session, part, gate);
    drop(session);
    told
}

fn spawn<B: Named, R: Host>(
    rt: &R,
    alloc: Global,
    session: Session<B>,
    part: Part,
    gate: Arc<HeldResolver<R>>,
) -> Result<JoinHandle<Told>, Refusal> {
    let handle = *rt;
    thread_of(thread::spawn(rt, move || play(&handle, alloc, session, part, &*gate)))
}

// A share of the gate.
fn shared<C: Clock + Send + Sync + Drop>(
    gate: &Arc<HeldResolver<C>>,
) -> Result<Arc<HeldResolver<C>>, Refusal> {
    match Arc::try_clone(gate) {
        Ok(gate) => Ok(gate),
        Err(_) => Err(Refusal::NoMemory),
    }
}

// Starts the thread of a part, if it got its session.
fn start_one<B: Named, R: Host>(
    rt: &R,
    alloc: Global,
    session: Result<Session<B>, Refusal>,
    part: Part,
    gate: &Arc<HeldResolver<R>>,
) -> Result<JoinHandle<Told>, Refusal> {
    let (session, gate) = both(session, shared(gate))?;
    spawn(rt, alloc, session, part, gate)
}

// Starts a thread for each part. Where it is refused, those are left that were started.
fn start_all<B: Named, R: Host>(
    rt: &R,
    alloc: Global,
    database: &mut Database<B>,
    gate: &Arc<HeldResolver<R>>,
    clients: &mut Vec<JoinHandle<Told>>,
) -> Done {
    clients.reserve(PARTS.len())?;
    for part in PARTS {
        let client = start_one(rt, alloc, database.session(alloc), *part, gate)?;
        clients.push(client)?;
    }
    Ok(())
}

// What each of them was told.
fn join_all<R: Threads>(
    rt: &R,
    alloc: Global,
    clients: Vec<JoinHandle<Told>>,
) -> Result<Vec<Told>, Refusal> {
    let mut told = Vec::with_capacity(alloc, clients.len())?;
    for client in clients {
        told.push(client.join(rt))?;
    }
    Ok(told)
}

// What the three are to be told.
const WANTED: &[Told] = &[(0, false), (9013, true), (9013, false)];

// Whether that is what they were told.
fn are_wanted(told: Result<Vec<Told>, Refusal>) -> Result<bool, u32> {
    match told {
        Ok(told) => Ok(told.as_slice() == WANTED),
        Err(why) => Err(why.code()),
    }
}

// Whether all are started, whether they are told what they are to be, and how many entries the record has.
type Closed = (Result<(), u32>, Result<bool, u32>, Result<usize, u32>);

fn close_held<B: Named, R: Host>(
    rt: &R,
    alloc: Global,
    blank: Blank,
    config: &Config,
    gate: &Arc<HeldResolver<R>>,
) -> Result<Closed, Refusal>
    requires cells { blank ≡ B.cells }
    requires config { config.now ≡ B.config }
{
    let mut database: Database<B> = Database::start(rt, alloc, blank, config, 100, gate)?;
    let mut clients = Vec::new(alloc);
    let started = start_all(rt, alloc, &mut database, gate, &mut clients);
    gate.await_word(&gate.waits);
    let record = database.close(rt);
    let told = join_all(rt, alloc, clients);
    Ok((coded(started), are_wanted(told), coded(length_of(record))))
}

fn close_in_the_middle<B: Named, R: Host>(
    rt: &R,
    alloc: Global,
    blank: Blank,
    config: &Config,
) -> Done
    requires cells { blank ≡ B.cells }
    requires config { config.now ≡ B.config }
{
    let gate = Arc::new(alloc, HeldResolver::new(*rt))?;
    let closed = close_held::<B, R>(rt, alloc, blank, config, &gate)?;
    same(rt, closed, (Ok(()), Ok(true), Ok(1)));
    same(rt, gate.missed.load(Ordering::SeqCst), false);
    Ok(())
}

#[test]
fn a_database_is_closed_while_it_commits(rt: HostRuntime) -> Result<(), Fail> {
    let alloc = rt.alloc();
    let config = count_config(alloc, 1, 1, 10);
    let blank = Blank::new(alloc, 10)?;
    close_in_the_middle::<Brand, HostRuntime>(&rt, alloc, blank, &config)?;
    Ok(())
}
