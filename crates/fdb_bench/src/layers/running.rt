// A running database with one of each role, and one session of it.
ghost use Rattle.std.specs.Prelude.{◌≡◌};

use crate::layers::form::{Form, Took};
use crate::layers::rounds::{ROUND, play};
use crate::numbers::Fault;
use fdb_keys::{Items, Refusal};
use fdb_runtime::{Blank, ClusterName, Config, Database, Layer, NoGate};
use std::alloc::Global;
use std::marker::Brand;
use std::sync::{Arc, Wait};
use std::thread::Threads;
use std::time::Clock;

// How far each entry's version is above that of the one before it: 5,000 entries lie in the window.
const ADVANCE: u64 = 1_000;

/// How long a session of a new database takes to put so often and to get as often, in this form.
pub(crate) fn measure<
    F: Form<L>,
    L: Layer + Send + Sync + 'static,
    R: Threads + Wait + Clock + Copy + Send + Sync + 'static,
>(rt: &R, alloc: Global, transactions: u32) -> Result<Took, Fault> {
    let config = Config {
        proxies: 1,
        logs: 1,
        resolver_splits: Items::new(alloc),
        shard_splits: Items::new(alloc),
        book: room_for(transactions),
    };
    let blank = Blank::new(alloc, config.book)?;
    use_database::<Brand, F, L, R>(rt, alloc, blank, &config, transactions)
}

// How many entries there are at most: each transaction has one of its own, and those of the first round have.
fn room_for(transactions: u32) -> u32 {
    transactions.saturating_add(ROUND).saturating_mul(2)
}

// What stops no thread of the database.
fn gate_of(alloc: Global) -> Result<Arc<NoGate>, Refusal> {
    let gate = Arc::new(alloc, NoGate)?;
    Ok(gate)
}

// Starts a database, measures its first session, and closes the database whatever came of that.
fn use_database<
    B: ClusterName + Send + Sync + 'static,
    F: Form<L>,
    L: Layer + Send + Sync + 'static,
    R: Threads + Wait + Clock + Copy + Send + Sync + 'static,
>(rt: &R, alloc: Global, blank: Blank, config: &Config, transactions: u32) -> Result<Took, Fault>
    requires cells { blank ≡ B.cells }
    requires config { config.now ≡ B.config }
{
    let gate = gate_of(alloc)?;
    let mut database: Database<B, L> = Database::start(rt, alloc, blank, config, ADVANCE, &gate)?;
    let took = play_on::<F, B, L, R>(rt, alloc, &mut database, transactions);
    drop(database.close(rt)?);
    took
}

// The same by a session of the database, which is dropped then.
fn play_on<
    F: Form<L>,
    B: ClusterName + Send + Sync + 'static,
    L: Layer + Send + Sync + 'static,
    R: Wait + Clock,
>(rt: &R, alloc: Global, database: &mut Database<B, L>, transactions: u32) -> Result<Took, Fault> {
    let mut session = database.session(alloc)?;
    let took = play::<F, B, L, R>(rt, alloc, &mut session, transactions);
    drop(session);
    took
}
