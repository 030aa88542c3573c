// Clients in threads of their own, each with keys that no other one writes, and one sum that all add to.
ghost use Rattle.std.specs.Prelude.{◌≡◌};

use crate::asserting::same;
use bytes::Bytes;
use fdb_book::Blank;
use fdb_hosts::{Done, Host, Named, byte_of, move_keys, receipt_of, thread_of, write};
use fdb_keys::{Key, Refusal};
use fdb_making::{both, coded, count_config, keys_of};
use fdb_mutations::Mutation;
use fdb_runtime::{ClusterName, Config, Database, NoGate, Record, Session};
use std::alloc::Global;
use std::marker::Brand;
use std::sync::{Arc, Wait};
use std::test::Fail;
use std::thread;
use std::thread::{JoinHandle, Threads};
use std::time::Duration;

const CLIENTS: u8 = 4;

const ROUNDS: u8 = 10;
// How many keys a client has.
const KEYS: usize = 5;

const SUM: &[u8] = b"sum";
// How many transactions there are, and how many pairs in the end.
const TRANSACTIONS: u8 = 200;

const PAIRS: usize = 21;

// How many moves are made where keys are moved.
const MOVES: u32 = 100;

// What a client's keys have, as it was acknowledged.
type Model = [Option<u8>; KEYS];

// How the keys begin that a client has. They lie on several shards and resolvers.
const LETTERS: [u8; KEYS] = [b'a', b'f', b'k', b'p', b'u'];

// One transaction: the client reads a key and writes it, and adds to the sum.
fn play_round<B: ClusterName, R: Wait>(
    rt: &R,
    alloc: Global,
    session: &mut Session<B>,
    key: &[u8],
    round: u8,
) -> Result<Option<u8>, Refusal> {
    session.begin(rt, alloc)?;
    let seen = byte_of(rt, alloc, session, key)?;
    write(session, Mutation::set(alloc, key, &[round]))?;
    write(session, Mutation::add(alloc, SUM, &[1]))?;
    let receipt = receipt_of(session.commit(rt, alloc))?;
    drop(receipt);
    Ok(seen)
}

// All transactions of a client: what its keys have then, and whether each read was what was acknowledged last.
fn play_rounds<B: ClusterName, R: Wait>(
    rt: &R,
    alloc: Global,
    session: &mut Session<B>,
    client: u8,
) -> Result<(Model, bool), Refusal> {
    let mut model = [None; KEYS];
    let mut is_known = true;
    for round in 0..ROUNDS {
        for (letter, value) in LETTERS.iter().zip(&mut model) {
            let seen = play_round(rt, alloc, session, &[*letter, client], round)?;
            is_known = is_known && seen == *value;
            *value = Some(round);
        }
    }
    Ok((model, is_known))
}

// The same, after which the session is dropped.
fn play_client<B: ClusterName, R: Wait>(
    rt: &R,
    alloc: Global,
    session: Session<B>,
    client: u8,
) -> Result<(Model, bool), Refusal> {
    let mut session = session;
    let told = play_rounds(rt, alloc, &mut session, client);
    drop(session);
    told
}

type Client = JoinHandle<Result<(Model, bool), Refusal>>;

// Starts a client, if it got its session.
fn start_client<B: Named, R: Host>(
    rt: &R,
    alloc: Global,
    session: Result<Session<B>, Refusal>,
    client: u8,
) -> Result<Client, Refusal> {
    let session = session?;
    let handle = *rt;
    thread_of(thread::spawn(rt, move || play_client(&handle, alloc, session, client)))
}

// Starts all clients.
fn start_clients<B: Named, R: Host>(
    rt: &R,
    alloc: Global,
    database: &mut Database<B>,
    clients: &mut Vec<Client>,
) -> Result<(), Refusal> {
    for client in 0..CLIENTS {
        clients.reserve(1)?;
        let thread = start_client(rt, alloc, database.session(alloc), client)?;
        clients.push(thread)?;
    }
    Ok(())
}

// What each client's keys have, and whether all reads were what they were to be.
fn join_clients<R: Threads>(
    rt: &R,
    alloc: Global,
    clients: Vec<Client>,
) -> Result<(Vec<Model>, bool), Refusal> {
    let mut models = Vec::new(alloc);
    let mut are_known = true;
    for client in clients {
        let (model, is_known) = client.join(rt)?;
        models.push(model)?;
        are_known = are_known && is_known;
    }
    Ok((models, are_known))
}

// Hands keys that clients use to one resolver after another, a move about each millisecond.
fn move_back_and_forth<B: Named, R: Host>(
    rt: &R,
    alloc: Global,
    database: &Database<B>,
    moves: u32,
) -> Result<(), Refusal> {
    for number in 0..moves {
        move_keys(rt, alloc, database, b"c", b"q", number % 4)?;
        thread::sleep(rt, Duration::from_millis(1));
    }
    Ok(())
}

// The same of clients that are started on the database, while so many moves are made.
fn play_clients<B: Named, R: Host>(
    rt: &R,
    alloc: Global,
    database: &mut Database<B>,
    moves: u32,
) -> Result<(Vec<Model>, bool), Refusal> {
    let mut clients = Vec::new(alloc);
    let started = start_clients(rt, alloc, database, &mut clients);
    let moved = move_back_and_forth(rt, alloc, database, moves);
    let ended = join_clients(rt, alloc, clients);
    started.and(moved).and(ended)
}

// Whether the record has the pair.
fn has_pair(pairs: &[(Key, Bytes)], key: &[u8], value: u8) -> bool {
    pairs.iter().any(|(at, bytes)| at.bytes() == key && bytes.as_slice() == [value].as_slice())
}

// Whether a client's keys have what it was acknowledged last.
fn has_model(pairs: &[(Key, Bytes)], client: u8, model: &Model) -> bool {
    LETTERS.iter().zip(model).all(|(letter, value)| match value {
        Some(value) => has_pair(pairs, &[*letter, client], *value),
        None => false,
    })
}

// The same of all clients.
fn has_all(pairs: &[(Key, Bytes)], models: &[Model]) -> bool {
    (0..CLIENTS)
        .zip(models)
        .all(|(client, model)| has_model(pairs, client, model))
}

// How many transactions and pairs a record has, whether the sum is that of all that were acknowledged, and whether all
// keys have what was acknowledged last.
type Held = (usize, usize, bool, bool);

fn held_by<B: ClusterName>(record: &Record<B>, models: &[Model]) -> Result<Held, Refusal> {
    let mut count = 0;
    for entry in record.front().entries()? {
        count = entry.batch.as_slice().len().saturating_add(count);
    }
    let pairs = record.pairs();
    let is_sum = has_pair(pairs, SUM, TRANSACTIONS);
    Ok((count, pairs.len(), is_sum, has_all(pairs, models)))
}

// Whether all reads were what they were to be, and what the record has.
fn told_of<B: ClusterName>(
    played: Result<(Vec<Model>, bool), Refusal>,
    record: Result<Record<B>, Refusal>,
) -> Result<(bool, Held), Refusal> {
    let (played, record) = both(played, record)?;
    let (models, are_known) = played;
    let held = held_by(&record, models.as_slice());
    drop((models, record));
    Ok((are_known, held?))
}

fn count<B: Named, R: Host>(
    rt: &R,
    alloc: Global,
    blank: Blank,
    config: &Config,
    moves: u32,
) -> Done
    requires cells { blank ≡ B.cells }
    requires config { config.now ≡ B.config }
{
    let gate = Arc::new(alloc, NoGate)?;
    let mut database: Database<B> = Database::start(rt, alloc, blank, config, 1_000, &gate)?;
    let played = play_clients(rt, alloc, &mut database, moves);
    let record = database.close(rt);
    let wanted = (true, (usize::from(TRANSACTIONS), PAIRS, true, true));
    same(rt, coded(told_of(played, record)), Ok(wanted));
    Ok(())
}

// On a database of three proxies of each kind, two logs, four resolvers and three shards.
fn count_on_many<R: Host>(rt: &R, alloc: Global, moves: u32) -> Done {
    let mut config = count_config(alloc, 3, 2, 1_000);
    config.resolver_splits = keys_of(alloc, &[b"b", b"l", b"s"])?;
    config.shard_splits = keys_of(alloc, &[b"k", b"t"])?;
    let blank = Blank::new(alloc, 1_000)?;
    count::<Brand, R>(rt, alloc, blank, &config, moves)
}

#[test]
fn four_clients_read_what_they_wrote(rt: HostRuntime) -> Result<(), Fail> {
    count_on_many(&rt, rt.alloc(), 0)?;
    Ok(())
}

#[test]
fn four_clients_read_what_they_wrote_while_keys_are_moved(rt: HostRuntime) -> Result<(), Fail> {
    count_on_many(&rt, rt.alloc(), MOVES)?;
    Ok(())
}
