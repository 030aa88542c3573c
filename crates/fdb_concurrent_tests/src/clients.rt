// Clients in threads of their own, which all count at the same keys, so that they overtake each other, also while the
// window changes.
ghost use Rattle.std.specs.Prelude.{◌≡◌};

use crate::asserting::same;
use bytes::Bytes;
use fdb_book::Blank;
use fdb_hosts::{Done, Host, Named, byte_of, receipt_of, serial_in, thread_of, write};
use fdb_keys::{Key, Refusal};
use fdb_making::{both, coded, count_config, keys_of};
use fdb_mutations::Mutation;
use fdb_runtime::{ClusterName, Config, Database, NoGate, Placed, Record, Session, Spot};
use std::alloc::Global;
use std::marker::Brand;
use std::sync::atomic::{AtomicU64, Ordering};
use std::sync::{Arc, Wait};
use std::test::Fail;
use std::thread;
use std::thread::{JoinHandle, Threads};
use std::time::Duration;

const CLIENTS: u8 = 8;

const ROUNDS: u8 = 5;

// The keys that are counted at, each once in a round. They lie on several shards and resolvers.
const LETTERS: [u8; 4] = [b'a', b'h', b'o', b'v'];

// How many transactions there are: one for each client, round, and key.
const TRANSACTIONS: u64 = 160;

// How far each entry's version lies above the one before it, and a window in which there is no other entry.
const ADVANCE: u64 = 1_000;

// The window at first.
const WINDOW: u64 = 5_000_000;

// How often the window is set to the small one and back where it changes.
const CHANGES: u32 = 20;

// What all clients were told so far.
#[derive(Drop)]
struct Tally {
    // The greatest version of a commit that was acknowledged.
    greatest: AtomicU64,
    // How many transactions began at a version below one that had been acknowledged before.
    behind: AtomicU64,
    acknowledged: AtomicU64,
    aborted: AtomicU64,
    // Of how many commits it is unknown what became of them.
    unknown: AtomicU64,
}

impl Tally {
    fn new() -> Self {
        Tally {
            greatest: AtomicU64::new(0),
            behind: AtomicU64::new(0),
            acknowledged: AtomicU64::new(0),
            aborted: AtomicU64::new(0),
            unknown: AtomicU64::new(0),
        }
    }

    // A transaction read at the version, before whose begin the other one was acknowledged.
    fn begin(&self, version: u64, acknowledged: u64) {
        if version < acknowledged {
            self.behind.fetch_add(1, Ordering::SeqCst);
        }
    }

    // A commit was acknowledged with the version.
    fn acknowledge(&self, version: u64) {
        self.greatest.fetch_max(version, Ordering::SeqCst);
        self.acknowledged.fetch_add(1, Ordering::SeqCst);
    }

    // A commit was refused. What no commit is to be refused as here is given on.
    fn refuse(&self, why: Refusal) -> Done {
        match why {
            Refusal::NotCommitted | Refusal::TransactionTooOld => {
                self.aborted.fetch_add(1, Ordering::SeqCst);
            }
            Refusal::CommitUnknownResult => {
                self.unknown.fetch_add(1, Ordering::SeqCst);
            }
            why => return Err(why),
        }
        Ok(())
    }
}

fn version_of(spot: Spot) -> u64 {
    match spot {
        Spot::Entry { version, .. } | Spot::ReadOnly { version } => version,
    }
}

// Commits, notes what it is answered, and adds what is acknowledged to the rest.
fn commit_one<B: ClusterName, R: Wait>(
    rt: &R,
    alloc: Global,
    session: &mut Session<B>,
    tally: &Tally,
    placed: &mut Vec<Placed>,
) -> Done {
    match receipt_of(session.commit(rt, alloc)) {
        Ok(receipt) => {
            tally.acknowledge(version_of(receipt.spot()));
            placed.push(receipt.into_placed())?;
            Ok(())
        }
        Err(why) => tally.refuse(why),
    }
}

// One transaction: it reads the key, and writes one more than that.
fn count_one<B: ClusterName, R: Wait>(
    rt: &R,
    alloc: Global,
    session: &mut Session<B>,
    tally: &Tally,
    placed: &mut Vec<Placed>,
    letter: u8,
) -> Done {
    let acknowledged = tally.greatest.load(Ordering::SeqCst);
    let version = session.begin(rt, alloc)?;
    tally.begin(version, acknowledged);
    let count = byte_of(rt, alloc, session, &[letter])?.unwrap_or(0);
    let more = count.saturating_add(1);
    write(session, Mutation::set(alloc, &[letter], &[more]))?;
    commit_one(rt, alloc, session, tally, placed)
}

// One at each key.
fn play_round<B: ClusterName, R: Wait>(
    rt: &R,
    alloc: Global,
    session: &mut Session<B>,
    tally: &Tally,
    placed: &mut Vec<Placed>,
) -> Done {
    for letter in LETTERS {
        count_one(rt, alloc, session, tally, placed, letter)?;
    }
    Ok(())
}

// All rounds of a client: what was acknowledged.
fn play_rounds<B: ClusterName, R: Wait>(
    rt: &R,
    alloc: Global,
    session: &mut Session<B>,
    tally: &Tally,
) -> Result<Vec<Placed>, Refusal> {
    let mut placed = Vec::new(alloc);
    for _round in 0..ROUNDS {
        play_round(rt, alloc, session, tally, &mut placed)?;
    }
    Ok(placed)
}

// The same, after which the session is dropped.
fn play_client<B: ClusterName, R: Wait>(
    rt: &R,
    alloc: Global,
    session: Session<B>,
    tally: &Tally,
) -> Result<Vec<Placed>, Refusal> {
    let mut session = session;
    let told = play_rounds(rt, alloc, &mut session, tally);
    drop(session);
    told
}

type Client = JoinHandle<Result<Vec<Placed>, Refusal>>;

// A share of the tally.
fn share(tally: &Arc<Tally>) -> Result<Arc<Tally>, Refusal> {
    match Arc::try_clone(tally) {
        Ok(tally) => Ok(tally),
        Err(_) => Err(Refusal::NoMemory),
    }
}

// Starts a client, if it got its session.
fn start_client<B: Named, R: Host>(
    rt: &R,
    alloc: Global,
    session: Result<Session<B>, Refusal>,
    tally: &Arc<Tally>,
) -> Result<Client, Refusal> {
    let (session, tally) = both(session, share(tally))?;
    let handle = *rt;
    thread_of(thread::spawn(rt, move || play_client(&handle, alloc, session, &*tally)))
}

// Starts all clients. Where one is refused, those are left that were started.
fn start_clients<B: Named, R: Host>(
    rt: &R,
    alloc: Global,
    database: &mut Database<B>,
    tally: &Arc<Tally>,
    clients: &mut Vec<Client>,
) -> Done {
    for _client in 0..CLIENTS {
        clients.reserve(1)?;
        let client = start_client(rt, alloc, database.session(alloc), tally)?;
        clients.push(client)?;
    }
    Ok(())
}

// Adds what one client was acknowledged.
fn append(placed: &mut Vec<Placed>, more: Result<Vec<Placed>, Refusal>) -> Done {
    for one in more? {
        placed.push(one)?;
    }
    Ok(())
}

// Waits for all of them, and gives what was acknowledged, or the first refusal, if there is one.
fn join_clients<R: Threads>(
    rt: &R,
    alloc: Global,
    clients: Vec<Client>,
) -> Result<Vec<Placed>, Refusal> {
    let mut told = Ok(());
    let mut placed = Vec::new(alloc);
    for client in clients {
        told = told.and(append(&mut placed, client.join(rt)));
    }
    told?;
    Ok(placed)
}

// Sets the window to the small one and back so often, about once in two milliseconds.
fn set_back_and_forth<B: Named, R: Host>(rt: &R, database: &Database<B>, changes: u32) -> Done {
    for _change in 0..changes {
        for window in [ADVANCE, WINDOW] {
            database.set_window(rt, window)?;
            thread::sleep(rt, Duration::from_millis(1));
        }
    }
    Ok(())
}

// Starts all clients, and waits for them, while the window changes so often.
fn play_clients<B: Named, R: Host>(
    rt: &R,
    alloc: Global,
    database: &mut Database<B>,
    tally: &Arc<Tally>,
    changes: u32,
) -> Result<Vec<Placed>, Refusal> {
    let mut clients = Vec::new(alloc);
    let started = start_clients(rt, alloc, database, tally, &mut clients);
    let set = set_back_and_forth(rt, database, changes);
    let ended = join_clients(rt, alloc, clients);
    started.and(set).and(ended)
}

// The sum of what is counted at all keys.
fn sum_of(pairs: &[(Key, Bytes)]) -> u64 {
    let mut sum: u64 = 0;
    for (_key, value) in pairs {
        let count = value.as_slice().first().copied().unwrap_or(0);
        sum = sum.saturating_add(u64::from(count));
    }
    sum
}

// How many transactions the record has, that sum, and how many were acknowledged, if all of these are serialized in the
// record's book where they say.
type Held = (u64, u64, Option<u64>);

fn held_by<B: ClusterName>(
    alloc: Global,
    config: &Config,
    record: &Record<B>,
    placed: &[Placed],
) -> Result<Held, Refusal>
    requires { config.now ≡ B.config }
{
    let mut count: u64 = 0;
    let entries = record.front().entries()?;
    for entry in entries.as_slice() {
        count = count.saturating_add(entry.batch.as_slice().len() as u64);
    }
    let serial = serial_in(alloc, config, entries.as_slice(), placed)?;
    Ok((count, sum_of(record.pairs()), serial))
}

// The same, of the record and what was acknowledged if there are both.
fn held_if<B: ClusterName>(
    alloc: Global,
    config: &Config,
    record: Result<Record<B>, Refusal>,
    placed: Result<Vec<Placed>, Refusal>,
) -> Result<Held, Refusal>
    requires { config.now ≡ B.config }
{
    let (record, placed) = both(record, placed)?;
    let held = held_by(alloc, config, &record, placed.as_slice());
    drop((record, placed));
    held
}

// Every transaction is in the book, and is acknowledged or turned down. Just those that are acknowledged are counted,
// all are serialized, and the first one in the book is among them, since none overtook it.
fn check<R: Host>(rt: &R, tally: &Tally, held: Result<Held, Refusal>) {
    let acknowledged = tally.acknowledged.load(Ordering::SeqCst);
    let aborted = tally.aborted.load(Ordering::SeqCst);
    let ended = acknowledged.saturating_add(aborted);
    let unknown = tally.unknown.load(Ordering::SeqCst);
    let behind = tally.behind.load(Ordering::SeqCst);
    same(
        rt,
        (ended, unknown, behind, acknowledged > 0),
        (TRANSACTIONS, 0, 0, true),
    );
    same(
        rt,
        coded(held),
        Ok((TRANSACTIONS, acknowledged, Some(acknowledged))),
    );
}

fn count<B: Named, R: Host>(
    rt: &R,
    alloc: Global,
    blank: Blank,
    config: &Config,
    changes: u32,
) -> Done
    requires cells { blank ≡ B.cells }
    requires config { config.now ≡ B.config }
{
    let gate = Arc::new(alloc, NoGate)?;
    let tally = Arc::new(alloc, Tally::new())?;
    let mut database: Database<B> = Database::start(rt, alloc, blank, config, ADVANCE, &gate)?;
    let placed = play_clients(rt, alloc, &mut database, &tally, changes);
    let held = held_if(alloc, config, database.close(rt), placed);
    check(rt, &*tally, held);
    Ok(())
}

// On a database of so many proxies of each kind, two logs, four resolvers and three shards, where the window changes so
// often.
fn count_on<R: Host>(rt: &R, alloc: Global, proxies: u32, changes: u32) -> Done {
    let mut config = count_config(alloc, proxies, 2, 200);
    config.resolver_splits = keys_of(alloc, &[b"b", b"l", b"s"])?;
    config.shard_splits = keys_of(alloc, &[b"k", b"t"])?;
    let blank = Blank::new(alloc, 200)?;
    count::<Brand, R>(rt, alloc, blank, &config, changes)
}

#[test]
fn eight_clients_share_one_commit_proxy(rt: HostRuntime) -> Result<(), Fail> {
    count_on(&rt, rt.alloc(), 1, 0)?;
    Ok(())
}

// Each client's commits and read versions come from other proxies than those of the next one.
#[test]
fn no_read_version_is_below_what_was_acknowledged(rt: HostRuntime) -> Result<(), Fail> {
    count_on(&rt, rt.alloc(), 3, 0)?;
    Ok(())
}

#[test]
fn clients_commit_while_the_window_changes(rt: HostRuntime) -> Result<(), Fail> {
    count_on(&rt, rt.alloc(), 3, CHANGES)?;
    Ok(())
}
