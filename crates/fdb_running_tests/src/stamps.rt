// Stamped values on a running database: a whole batch of them, and what a session reads of its own.
ghost use Rattle.std.specs.Prelude.{◌≡◌};

use crate::asserting::same;
use bytes::Bytes;
use fdb_hosts::{Done, Host, Named, receipt_of, thread_of, wait_for, write};
use fdb_keys::{Items, Key, KeyRange, Refusal};
use fdb_making::{both, code_of, coded, count_config, keys_of};
use fdb_mutations::Mutation;
use fdb_runtime::{
    Blank, ClusterName, Config, Database, Gate, NoGate, ReadOptions, Role, Session, Spot, Stamp,
};
use fdb_txn::PLACE_LIMIT;
use std::alloc::Global;
use std::marker::Brand;
use std::process::Abort;
use std::sync::atomic::{AtomicU64, Ordering};
use std::sync::{Arc, Wait};
use std::test::Fail;
use std::thread;
use std::thread::{JoinHandle, Threads};
use std::time::{Clock, Duration};

// As many as a batch has places.
const CLIENTS: u16 = 4_096;

// How long the last of them has for its request, once it says that it commits, in milliseconds.
const PAUSE: u64 = 1_500;

// The commit proxy waits on entry 0 until all clients commit, so that they all get the next one.
#[derive(Drop)]
struct HeldProxy<C: Clock + Send + Sync + Drop> {
    clock: C,
    came: AtomicU64,
    committing: AtomicU64,
    may_go_on: AtomicU64,
}

impl<C: Clock + Send + Sync + Drop> Gate for HeldProxy<C> {
    fn before(&self, role: Role, entry: u32) {
        if (role, entry) != (Role::CommitProxy(0), 0) {
            return;
        }
        self.came.store(1, Ordering::SeqCst);
        for _time in 0..4 {
            if wait_for(&self.clock, &self.may_go_on, 1) {
                return;
            }
        }
    }

    fn after(&self, _role: Role, _entry: u32) {}
}

type Held<C> = Arc<HeldProxy<C>>;

// The version and the place of a commit.
type Told = Result<(u64, u32), Refusal>;

type Client = JoinHandle<Told>;

// The key of the client with the number.
fn key_of(number: u16) -> [u8; 3] {
    let [high, low] = number.to_be_bytes();
    [b'k', high, low]
}

// Stamps the key of the client, and commits.
fn stamp_one<B: ClusterName, C: Clock + Send + Sync + Drop, R: Wait>(
    rt: &R,
    alloc: Global,
    gate: &HeldProxy<C>,
    session: &mut Session<B>,
    number: u16,
) -> Told {
    session.begin(rt, alloc)?;
    write(
        session,
        Mutation::stamped(alloc, &key_of(number), &[0; 10], 0),
    )?;
    gate.committing.fetch_add(1, Ordering::SeqCst);
    let receipt = receipt_of(session.commit(rt, alloc))?;
    let spot = receipt.spot();
    drop(receipt);
    match spot {
        Spot::Entry { version, place, .. } => Ok((version, place)),
        Spot::ReadOnly { version } => Ok((version, u32::MAX)),
    }
}

// The same, after which the session is dropped.
fn stamp_in<B: ClusterName, C: Clock + Send + Sync + Drop, R: Wait>(
    rt: &R,
    alloc: Global,
    gate: &HeldProxy<C>,
    session: Session<B>,
    number: u16,
) -> Told {
    let mut session = session;
    let told = stamp_one(rt, alloc, gate, &mut session, number);
    drop(session);
    told
}

// A share of the gate.
fn share<C: Clock + Send + Sync + Drop>(gate: &Held<C>) -> Result<Held<C>, Refusal> {
    match Arc::try_clone(gate) {
        Ok(gate) => Ok(gate),
        Err(_) => Err(Refusal::NoMemory),
    }
}

// Starts a client, if it got its session.
fn start_client<B: Named, R: Host>(
    rt: &R,
    alloc: Global,
    gate: &Held<R>,
    session: Result<Session<B>, Refusal>,
    number: u16,
) -> Result<Client, Refusal> {
    let (session, gate) = both(session, share(gate))?;
    let handle = *rt;
    thread_of(thread::spawn(
        rt,
        move || stamp_in(&handle, alloc, &*gate, session, number),
    ))
}

// Starts the clients from one number up to another. Where one is refused, those are left that were started.
fn start_clients<B: Named, R: Host>(
    rt: &R,
    alloc: Global,
    database: &mut Database<B>,
    gate: &Held<R>,
    clients: &mut Vec<Client>,
    first: u16,
    end: u16,
) -> Done {
    for number in first..end {
        clients.reserve(1)?;
        let client = start_client(rt, alloc, gate, database.session(alloc), number)?;
        clients.push(client)?;
    }
    Ok(())
}

// Waits for all of them, and gives what each was told, in order.
fn join_clients<R: Threads>(
    rt: &R,
    alloc: Global,
    clients: Vec<Client>,
) -> Result<Vec<(u64, u32)>, Refusal> {
    let mut first = Ok(());
    let mut told = Vec::new(alloc);
    for client in clients {
        match client.join(rt) {
            Ok(one) => told.push(one)?,
            Err(why) => first = first.and(Err(why)),
        }
    }
    first?;
    Ok(told)
}

// One client commits alone, whose batch is held until all others commit.
fn stamp_all<B: Named, R: Host>(
    rt: &R,
    alloc: Global,
    database: &mut Database<B>,
    gate: &Held<R>,
) -> Result<Vec<(u64, u32)>, Refusal> {
    let mut clients = Vec::new(alloc);
    let first = start_clients(rt, alloc, database, gate, &mut clients, 0, 1);
    let came = wait_for(rt, &gate.came, 1);
    let others = start_clients(rt, alloc, database, gate, &mut clients, 1, CLIENTS + 1);
    let committing = wait_for(rt, &gate.committing, u64::from(CLIENTS) + 1);
    thread::sleep(rt, Duration::from_millis(PAUSE));
    gate.may_go_on.store(1, Ordering::SeqCst);
    let ended = join_clients(rt, alloc, clients);
    same(rt, (came, committing), (true, true));
    first.and(others).and(ended)
}

// Whether the value under each client's key is the stamp of what the client was told.
fn are_told(pairs: &[(Key, Bytes)], told: &[(u64, u32)]) -> bool {
    pairs.len() == told.len()
        && pairs.iter().zip(told).all(|(pair, told)| {
            pair.1.as_slice() == Stamp::of_place(told.0, told.1).bytes().as_slice()
        })
}

// How many of the stamps of one version there are, each place of a batch once.
fn count_places(told: &[(u64, u32)], version: u64, seen: &mut Vec<bool>) -> usize {
    let mut count: usize = 0;
    for (at, place) in told {
        if let Some(there) = seen.get_mut(*place as usize)
            && *at == version
            && !*there
        {
            *there = true;
            count = count.saturating_add(1);
        }
    }
    count
}

// The values in the order of their bytes are those in the order of their commits.
fn are_in_order(pairs: &[(Key, Bytes)], told: &[(u64, u32)]) -> bool {
    pairs.iter().zip(told).all(|(pair, one)| {
        pairs.iter().zip(told).step_by(97).all(|(other, more)| (pair.1.as_slice()
            < other.1.as_slice())
            == (*one < *more))
    })
}

// What is read back of the clients' keys, beside what the clients were told: the first one's batch has one place, and
// the others' has all places.
fn read_back<B: ClusterName, R: Wait + Abort>(
    rt: &R,
    alloc: Global,
    session: &mut Session<B>,
    told: &[(u64, u32)],
) -> Done {
    session.begin(rt, alloc)?;
    let range = KeyRange::new(alloc, b"k", b"l")?;
    let pairs = session.get_range(rt, alloc, &range, ReadOptions::all())?;
    let mut seen: Vec<bool> = Vec::new(alloc);
    seen.resize(PLACE_LIMIT, false)?;
    let count = count_places(told, 200, &mut seen);
    let first = told.first().copied();
    let are = are_told(pairs.as_slice(), told);
    let rise = are_in_order(pairs.as_slice(), told);
    drop(pairs);
    same(
        rt,
        (first, count, are, rise),
        (Some((100, 0)), PLACE_LIMIT, true, true),
    );
    Ok(())
}

// The same in a session of its own.
fn read_alone<B: Named, R: Host>(
    rt: &R,
    alloc: Global,
    database: &mut Database<B>,
    told: &[(u64, u32)],
) -> Done {
    let mut session = database.session(alloc)?;
    let read = read_back(rt, alloc, &mut session, told);
    drop(session);
    read
}

fn stamp_and_read<B: Named, R: Host>(
    rt: &R,
    alloc: Global,
    database: &mut Database<B>,
    gate: &Held<R>,
) -> Done {
    let told = stamp_all(rt, alloc, database, gate)?;
    let read = read_alone(rt, alloc, database, told.as_slice());
    drop(told);
    read
}

fn use_batch<B: Named, R: Host>(rt: &R, alloc: Global, blank: Blank, config: &Config) -> Done
    requires cells { blank ≡ B.cells }
    requires config { config.now ≡ B.config }
{
    let gate = Arc::new(
        alloc,
        HeldProxy {
            clock: *rt,
            came: AtomicU64::new(0),
            committing: AtomicU64::new(0),
            may_go_on: AtomicU64::new(0),
        },
    )?;
    let mut database: Database<B> = Database::start(rt, alloc, blank, config, 100, &gate)?;
    let told = stamp_and_read(rt, alloc, &mut database, &gate);
    let record = database.close(rt);
    same(rt, (coded(told), record.is_ok()), (Ok(()), true));
    drop(record);
    Ok(())
}

// The keys lie at several logs and shards.
#[test]
fn a_whole_batch_is_stamped(rt: HostRuntime) -> Result<(), Fail> {
    let alloc = rt.alloc();
    let mut config = count_config(alloc, 1, 2, 100);
    config.shard_splits = keys_of(alloc, &[b"k\x04", b"k\x0a"])?;
    let blank = Blank::new(alloc, 100)?;
    use_batch::<Brand, HostRuntime>(&rt, alloc, blank, &config)?;
    Ok(())
}

// Where a range begins and ends, how many pairs are asked for, whether from its end, and the code of the read.
type Asked = (&'static [u8], &'static [u8], u32, bool, u32);

// The key n is stamped, and m and o have values.
const HIDDEN: &[Asked] = &[
    (b"a", b"z", 0, false, 1036),
    (b"a", b"z", 1, false, 0),
    (b"a", b"z", 2, false, 1036),
    (b"a", b"z", 1, true, 0),
    (b"a", b"z", 2, true, 1036),
    (b"n", b"z", 1, false, 1036),
    (b"a", b"n", 0, false, 0),
    (b"n\0", b"z", 0, false, 0),
];

// The code of a read of the range.
fn range_code<B: ClusterName, R: Wait>(
    rt: &R,
    alloc: Global,
    session: &mut Session<B>,
    asked: &Asked,
    is_snapshot: bool,
) -> Result<u32, Refusal> {
    let (begin, end, limit, reverse, _code) = *asked;
    let range = KeyRange::new(alloc, begin, end)?;
    let options = ReadOptions {
        limit,
        reverse,
        snapshot: is_snapshot,
    };
    Ok(code_of(session.get_range(rt, alloc, &range, options)))
}

// The codes of a get of the key, as an ordinary read and as a snapshot read.
fn get_codes<B: ClusterName, R: Wait>(
    rt: &R,
    alloc: Global,
    session: &mut Session<B>,
    key: &[u8],
) -> Result<(u32, u32), Refusal> {
    let key = Key::new(alloc, key)?;
    let plain = code_of(session.get(rt, alloc, &key, false));
    let snapshot = code_of(session.get(rt, alloc, &key, true));
    Ok((plain, snapshot))
}

// What the session is told of its own stamp: no read gives it, whatever else it does to the key but to set or clear it.
fn read_own<B: ClusterName, R: Wait + Abort>(
    rt: &R,
    alloc: Global,
    session: &mut Session<B>,
) -> Done {
    session.begin(rt, alloc)?;
    write(session, Mutation::set(alloc, b"m", &[1]))?;
    write(session, Mutation::set(alloc, b"o", &[2]))?;
    let short = code_of(write(session, Mutation::stamped(alloc, b"n", &[0; 12], 3)));
    write(session, Mutation::stamped(alloc, b"n", &[0; 12], 2))?;
    write(session, Mutation::compare_and_clear(alloc, b"n", &[0; 12]))?;
    write(session, Mutation::add(alloc, b"n", &[1]))?;
    let hidden = get_codes(rt, alloc, session, b"n")?;
    same(rt, (short, hidden), (9008, (1036, 1036)));
    for asked in HIDDEN {
        for is_snapshot in [false, true] {
            let code = range_code(rt, alloc, session, asked, is_snapshot)?;
            same(rt, (asked.2, asked.3, code), (asked.2, asked.3, asked.4));
        }
    }
    write(session, Mutation::clear(alloc, b"n"))?;
    let cleared = get_codes(rt, alloc, session, b"n")?;
    let all = range_code(rt, alloc, session, &HIDDEN[0], false)?;
    same(rt, (cleared, all), ((0, 0), 0));
    Ok(())
}

fn play_own<B: Named, R: Host>(rt: &R, alloc: Global, database: &mut Database<B>) -> Done {
    let mut session = database.session(alloc)?;
    let told = read_own(rt, alloc, &mut session);
    drop(session);
    told
}

fn use_own<B: Named, R: Host>(rt: &R, alloc: Global, blank: Blank, config: &Config) -> Done
    requires cells { blank ≡ B.cells }
    requires config { config.now ≡ B.config }
{
    let gate = Arc::new(alloc, NoGate)?;
    let mut database: Database<B> = Database::start(rt, alloc, blank, config, 100, &gate)?;
    let told = play_own(rt, alloc, &mut database);
    let record = database.close(rt);
    same(rt, (coded(told), record.is_ok()), (Ok(()), true));
    drop(record);
    Ok(())
}

#[test]
fn what_is_stamped_is_hidden(rt: HostRuntime) -> Result<(), Fail> {
    let alloc = rt.alloc();
    let config = count_config(alloc, 1, 1, 10);
    let blank = Blank::new(alloc, 10)?;
    use_own::<Brand, HostRuntime>(&rt, alloc, blank, &config)?;
    Ok(())
}
