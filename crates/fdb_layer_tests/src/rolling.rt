// Databases whose books are full: what they hold is carried over to the next one, and clients go on there.
ghost use Rattle.std.specs.Prelude.{◌≡◌, ⊤, ℕ, OnOk};
ghost use Rattle.fdb_runtime.specs.Works.{IsSameSession, IsStillOpen};

use crate::asserting::same;
use fdb_hosts::{Done, Host, Named, thread_of};
use fdb_keys::{Key, Refusal};
use fdb_layers::carry_over;
use fdb_making::{both, coded, count_config, text_of};
use fdb_runtime::{
    Blank, Bytes, ClusterName, Config, Database, Everything, NoGate, Record, Session, Tries, Work,
};
use std::alloc::Global;
use std::marker::Brand;
use std::sync::{Arc, Wait};
use std::test::Fail;
use std::thread;
use std::thread::JoinHandle;

// How many entries each book takes.
const BOOK: u32 = 60;

// What a client was told: how many receipts it got, and how often its last answer left open whether it was committed.
#[derive(Clone, Copy, Debug, PartialEq, Eq)]
struct Told {
    receipts: u64,
    unknown: u64,
}

const NOTHING: Told = Told {
    receipts: 0,
    unknown: 0,
};

// The number that stands at the key of the client's counter, 0 where none does.
fn number_of(value: &[u8]) -> u64 {
    match value.first_chunk::<8>() {
        Some(bytes) => u64::from_le_bytes(*bytes),
        None => 0,
    }
}

// The same by a read of the open transaction.
fn number_at<B: ClusterName, R: Wait>(
    rt: &R,
    alloc: Global,
    session: &mut Session<B>,
    key: &Key,
) -> Result<u64, Refusal>
    ensures same { IsSameSession session.old session.new }
    ensures open { OnOk result (IsStillOpen session.old.current session.new.current) }
{
    match session.get(rt, alloc, key, false)? {
        Some(value) => Ok(number_of(value.as_slice())),
        None => Ok(0),
    }
}

// Adds one to the client's counter.
#[derive(Drop)]
struct AddOne {
    client: u8,
}

impl<B: ClusterName> Work<B, Everything> for AddOne {
    ghost Task = { ℕ };

    ghost task = { λ work. work.client };

    ghost does = { λ work transcript. ⊤ };

    fn run<R: Wait>(
        &mut self,
        rt: &R,
        alloc: Global,
        session: &mut Session<B>,
    ) -> Result<(), Refusal> {
        let key = Key::new(alloc, &[self.client])?;
        let had = number_at(rt, alloc, session, &key)?;
        session.set(alloc, &key, &had.saturating_add(1).to_le_bytes())
    }
}

// Adds one, and waits for the receipt.
fn add_one<B: ClusterName, R: Wait>(
    rt: &R,
    alloc: Global,
    session: &mut Session<B>,
    client: u8,
) -> Done {
    let mut work = AddOne { client };
    drop(session.transact(rt, alloc, Tries::at_most(1_000), &mut work)?);
    Ok(())
}

// Adds one again and again, until the database takes no more.
fn count_on<B: ClusterName, R: Wait>(
    rt: &R,
    alloc: Global,
    session: &mut Session<B>,
    client: u8,
    told: &mut Told,
) -> Done {
    for _time in 0..10_000_u32 {
        match add_one(rt, alloc, session, client) {
            Ok(()) => told.receipts = told.receipts.saturating_add(1),
            Err(Refusal::BookFull) | Err(Refusal::Closed) => return Ok(()),
            Err(Refusal::CommitUnknownResult) => {
                told.unknown = told.unknown.saturating_add(1);
                return Ok(());
            }
            Err(why) => return Err(why),
        }
    }
    Ok(())
}

// The same, after which the session is dropped, and what the client was told in all.
fn count_and_end<B: ClusterName, R: Wait>(
    rt: &R,
    alloc: Global,
    session: Session<B>,
    client: u8,
    told: Told,
) -> Result<Told, Refusal> {
    let mut session = session;
    let mut told = told;
    let counted = count_on(rt, alloc, &mut session, client, &mut told);
    drop(session);
    counted?;
    Ok(told)
}

// A client in a thread of its own.
fn start_client<B: Named, R: Host>(
    rt: &R,
    alloc: Global,
    session: Result<Session<B>, Refusal>,
    client: u8,
    told: Told,
) -> Result<JoinHandle<Result<Told, Refusal>>, Refusal> {
    let session = session?;
    let handle = *rt;
    thread_of(thread::spawn(
        rt,
        move || count_and_end(&handle, alloc, session, client, told),
    ))
}

// What a client was told, if its thread was started.
fn joined<R: Host>(
    rt: &R,
    started: Result<JoinHandle<Result<Told, Refusal>>, Refusal>,
) -> Result<Told, Refusal> {
    match started {
        Ok(thread) => thread.join(rt),
        Err(why) => Err(why),
    }
}

// Whether the book has room for so many entries at the most.
fn has_few_left<B: Named, R: Host>(
    rt: &R,
    database: &Database<B>,
    few: u32,
) -> Result<bool, Refusal> {
    let status = database.status(rt)?;
    Ok(status.entries_left <= few)
}

// Waits until the book has room for so many entries at the most.
fn watch<B: Named, R: Host>(rt: &R, database: &Database<B>, few: u32) -> Done {
    for _look in 0..1_000_000_u32 {
        if has_few_left(rt, database, few)? {
            return Ok(());
        }
    }
    Err(Refusal::WrongState)
}

// Two clients go on counting, the database is closed once its book has room for so few entries, and what it holds is
// given with what the clients were told.
fn count_and_close<B: Named, R: Host>(
    rt: &R,
    alloc: Global,
    database: Database<B>,
    told: [Told; 2],
    few: u32,
) -> Result<(Record<B>, [Told; 2]), Refusal> {
    let mut database = database;
    let one = start_client(rt, alloc, database.session(alloc), 0, told[0]);
    let other = start_client(rt, alloc, database.session(alloc), 1, told[1]);
    let watched = watch(rt, &database, few);
    let closed = database.close(rt);
    let (one, other) = (joined(rt, one), joined(rt, other));
    let record = closed?;
    match (watched, one, other) {
        (Ok(()), Ok(one), Ok(other)) => Ok((record, [one, other])),
        (Err(why), _, _) | (_, Err(why), _) | (_, _, Err(why)) => Err(why),
    }
}

// Whether the database takes what the record holds.
fn carried<A: Named, B: Named, R: Host>(
    rt: &R,
    alloc: Global,
    record: &Record<A>,
    database: &mut Database<B>,
) -> Done {
    let mut session = database.session(alloc)?;
    let carried = carry_over(rt, alloc, record, &mut session);
    drop(session);
    match carried {
        Ok(_version) => Ok(()),
        Err(why) => Err(why),
    }
}

// The number of the client's counter in the record.
fn number_in<B: ClusterName>(record: &Record<B>, client: u8) -> u64 {
    match record.pairs().get(usize::from(client)) {
        Some((key, value)) if key.bytes() == [client].as_slice() => number_of(value.as_slice()),
        _ => 0,
    }
}

// Whether the client's counter has its receipts, and at most as many more as answers left open.
fn is_counted<B: ClusterName>(record: &Record<B>, client: u8, told: Told) -> bool {
    let number = number_in(record, client);
    told.receipts <= number && number <= told.receipts.saturating_add(told.unknown)
}

// The third database takes what the second one held, and in the end nothing that a client was told is lost. The first
// two took 110 entries at the least, one of them of the pairs that were carried over.
fn use_third<A: Named, B: Named, R: Host>(
    rt: &R,
    alloc: Global,
    blank: Blank,
    config: &Config,
    record: &Record<A>,
    told: [Told; 2],
) -> Done
    requires cells { blank ≡ B.cells }
    requires config { config.now ≡ B.config }
{
    let gate = Arc::new(alloc, NoGate)?;
    let mut database: Database<B> = Database::start(rt, alloc, blank, config, 100, &gate)?;
    let carried = coded(carried(rt, alloc, record, &mut database));
    let (record, told) = count_and_close(rt, alloc, database, told, 10)?;
    let counted = (
        is_counted(&record, 0, told[0]),
        is_counted(&record, 1, told[1]),
    );
    let pairs = record.pairs().len();
    drop(record);
    same(rt, carried, Ok(()));
    same(rt, (counted, pairs), ((true, true), 2));
    let receipts = told[0].receipts.saturating_add(told[1].receipts);
    same(rt, receipts >= 100, true);
    Ok(())
}

// The second database takes what the first one held, and goes on until its book is full.
fn use_second<A: Named, B: Named, R: Host>(
    rt: &R,
    alloc: Global,
    blank: Blank,
    config: &Config,
    record: &Record<A>,
    told: [Told; 2],
) -> Done
    requires cells { blank ≡ B.cells }
    requires config { config.now ≡ B.config }
{
    let gate = Arc::new(alloc, NoGate)?;
    let mut database: Database<B> = Database::start(rt, alloc, blank, config, 100, &gate)?;
    let carried = coded(carried(rt, alloc, record, &mut database));
    let (record, told) = count_and_close(rt, alloc, database, told, 0)?;
    let blank = Blank::new(alloc, BOOK)?;
    let third = use_third::<B, Brand, R>(rt, alloc, blank, config, &record, told);
    drop(record);
    same(rt, carried, Ok(()));
    third
}

// The first database is closed before its book is full.
fn use_first<B: Named, R: Host>(rt: &R, alloc: Global, blank: Blank, config: &Config) -> Done
    requires cells { blank ≡ B.cells }
    requires config { config.now ≡ B.config }
{
    let gate = Arc::new(alloc, NoGate)?;
    let database: Database<B> = Database::start(rt, alloc, blank, config, 100, &gate)?;
    let (record, told) = count_and_close(rt, alloc, database, [NOTHING, NOTHING], 10)?;
    let blank = Blank::new(alloc, BOOK)?;
    let second = use_second::<B, Brand, R>(rt, alloc, blank, config, &record, told);
    drop(record);
    second
}

#[test]
fn no_receipt_is_lost_over_three_databases(rt: HostRuntime) -> Result<(), Fail> {
    let alloc = rt.alloc();
    let config = count_config(alloc, 2, 1, BOOK);
    let blank = Blank::new(alloc, BOOK)?;
    use_first::<Brand, HostRuntime>(&rt, alloc, blank, &config)?;
    Ok(())
}

// Sets the key of one byte to that byte, 100,000 times over.
fn set_large<B: ClusterName, R: Wait>(
    rt: &R,
    alloc: Global,
    session: &mut Session<B>,
    byte: u8,
) -> Done {
    session.begin(rt, alloc)?;
    let key = Key::new(alloc, &[byte])?;
    let value = text_of(alloc, byte, 100_000)?;
    session.set(alloc, &key, value.as_slice())?;
    drop(session.commit(rt, alloc)?);
    Ok(())
}

// Sets so many keys so, from the first one on.
fn fill<B: Named, R: Host>(
    rt: &R,
    alloc: Global,
    database: &mut Database<B>,
    first: u8,
    count: u8,
) -> Done {
    let mut session = database.session(alloc)?;
    for byte in 0..count {
        set_large(rt, alloc, &mut session, first.saturating_add(byte))?;
    }
    drop(session);
    Ok(())
}

// Whether the pair is a key of one byte, which stands there 100,000 times over.
fn is_large(pair: &(Key, Bytes), byte: u8) -> bool {
    let (key, value) = pair;
    key.bytes() == [byte].as_slice()
        && value.len() == 100_000
        && value.as_slice().iter().all(|it| *it == byte)
}

// How many of the first pairs are such, by the keys 0, 1 and so on.
fn count_large(pairs: &[(Key, Bytes)]) -> u8 {
    let mut count: u8 = 0;
    for pair in pairs {
        if is_large(pair, count) {
            count = count.saturating_add(1);
        }
    }
    count
}

// The next database, where another session has set so many keys before, takes what the record holds, or is refused. How
// many pairs it has then, and how many of the first ones are large.
fn use_next<A: Named, B: Named, R: Host>(
    rt: &R,
    alloc: Global,
    blank: Blank,
    config: &Config,
    record: &Record<A>,
    others: u8,
) -> Result<(Result<(), u32>, usize, u8), Refusal>
    requires cells { blank ≡ B.cells }
    requires config { config.now ≡ B.config }
{
    let gate = Arc::new(alloc, NoGate)?;
    let mut database: Database<B> = Database::start(rt, alloc, blank, config, 100, &gate)?;
    let filled = fill(rt, alloc, &mut database, 200, others);
    let carried = coded(carried(rt, alloc, record, &mut database));
    let record = database.close(rt)?;
    let pairs = record.pairs().len();
    let large = count_large(record.pairs());
    drop(record);
    filled?;
    Ok((carried, pairs, large))
}

// The same of a record of so many keys.
fn carry<B: Named, R: Host>(
    rt: &R,
    alloc: Global,
    blank: Blank,
    config: &Config,
    count: u8,
    others: u8,
) -> Result<(Result<(), u32>, usize, u8), Refusal>
    requires cells { blank ≡ B.cells }
    requires config { config.now ≡ B.config }
{
    let gate = Arc::new(alloc, NoGate)?;
    let mut database: Database<B> = Database::start(rt, alloc, blank, config, 100, &gate)?;
    let filled = fill(rt, alloc, &mut database, 0, count);
    let record = database.close(rt)?;
    let blank = Blank::new(alloc, BOOK)?;
    let arrived = use_next::<B, Brand, R>(rt, alloc, blank, config, &record, others);
    drop(record);
    filled?;
    arrived
}

#[test]
fn large_pairs_arrive_whole(rt: HostRuntime) -> Result<(), Fail> {
    let alloc = rt.alloc();
    let config = count_config(alloc, 1, 1, BOOK);
    let blank = Blank::new(alloc, BOOK)?;
    let arrived = carry::<Brand, HostRuntime>(&rt, alloc, blank, &config, 30, 0)?;
    same(&rt, arrived, (Ok(()), 30, 30));
    Ok(())
}

#[test]
fn a_record_of_no_pairs_is_carried_over(rt: HostRuntime) -> Result<(), Fail> {
    let alloc = rt.alloc();
    let config = count_config(alloc, 1, 1, BOOK);
    let blank = Blank::new(alloc, BOOK)?;
    let arrived = carry::<Brand, HostRuntime>(&rt, alloc, blank, &config, 0, 0)?;
    same(&rt, arrived, (Ok(()), 0, 0));
    Ok(())
}

#[test]
fn pairs_of_others_are_told(rt: HostRuntime) -> Result<(), Fail> {
    let alloc = rt.alloc();
    let config = count_config(alloc, 1, 1, BOOK);
    let blank = Blank::new(alloc, BOOK)?;
    let arrived = carry::<Brand, HostRuntime>(&rt, alloc, blank, &config, 2, 1)?;
    same(&rt, arrived, (Err(1020), 3, 2));
    Ok(())
}
