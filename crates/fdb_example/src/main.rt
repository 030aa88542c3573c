//! Two clients pay from one account to another, each in a thread of its own. Then all accounts are read, and what the
//! clients were told is checked.
#![tactic(auto)]

ghost use Rattle.std.specs.Prelude.{◌≡◌};

mod payment;

use crate::payment::{Opening, Payment};
use fdb_runtime::{
    Blank, Bytes, CheckFault, ClusterName, Config, Database, Everything, Items, Key, KeyRange,
    NoGate, Placed, ReadOptions, Record, Refusal, Session, Tries, Work, serial_check,
};
use std::alloc::Global;
use std::marker::Brand;
use std::process::ExitCode;
use std::sync::{Arc, Wait};
use std::thread;
use std::thread::Threads;

/// How often a transaction is tried.
const TRIES: u32 = 1_000;

/// How many payments each client makes.
const PAYMENTS: u32 = 5;

/// What is found in the end.
#[derive(Clone, Copy)]
struct Found {
    /// What the accounts have.
    alice: u8,
    bob: u8,
    /// How many transactions are serialized where they were told.
    count: u64,
}

/// Runs the work, and keeps what the session is told.
fn run<B: ClusterName, W: Work<B, Everything>, R: Wait>(
    rt: &R,
    alloc: Global,
    session: &mut Session<B>,
    work: &mut W,
    told: &mut Vec<Placed>,
) -> Result<(), Refusal> {
    let receipt = session.transact(rt, alloc, Tries::at_most(TRIES), work)?;
    told.push(receipt.into_placed())?;
    Ok(())
}

/// Opens an account with 20 units.
fn open<B: ClusterName, R: Wait>(
    rt: &R,
    alloc: Global,
    session: &mut Session<B>,
    told: &mut Vec<Placed>,
) -> Result<(), Refusal> {
    let account = Key::new(alloc, b"account/alice")?;
    let mut opening = Opening {
        account,
        amount: 20,
    };
    run(rt, alloc, session, &mut opening, told)
}

/// Who pays whom.
fn alice_pays_bob(alloc: Global) -> Result<Payment, Refusal> {
    let payer = Key::new(alloc, b"account/alice")?;
    let payee = Key::new(alloc, b"account/bob")?;
    Ok(Payment { payer, payee })
}

/// Makes all payments of a client.
fn pay<B: ClusterName, R: Wait>(
    rt: &R,
    alloc: Global,
    session: &mut Session<B>,
    told: &mut Vec<Placed>,
) -> Result<(), Refusal> {
    let mut payment = alice_pays_bob(alloc)?;
    for _payment in 0..PAYMENTS {
        run(rt, alloc, session, &mut payment, told)?;
    }
    Ok(())
}

/// What a client does in a thread of its own, and what it is told.
fn client<B: ClusterName, R: Wait>(
    rt: &R,
    alloc: Global,
    session: Session<B>,
) -> (Result<(), Refusal>, Vec<Placed>) {
    let mut session = session;
    let mut told = Vec::new(alloc);
    let paid = pay(rt, alloc, &mut session, &mut told);
    drop(session);
    (paid, told)
}

/// Both clients pay at once, and what the other one is told is kept with what this one is.
fn pay_at_once<
    B: ClusterName + Send + Sync + 'static,
    R: Threads + Wait + Copy + Send + Sync + 'static,
>(
    rt: &R,
    alloc: Global,
    session: &mut Session<B>,
    other: Session<B>,
    told: &mut Vec<Placed>,
) -> Result<(), Refusal> {
    let handle = *rt;
    let thread = match thread::spawn(rt, move || client(&handle, alloc, other)) {
        Ok(thread) => thread,
        Err(_not_run) => return Err(Refusal::NoMemory),
    };
    let paid = pay(rt, alloc, session, told);
    let (others_paid, others_told) = thread.join(rt);
    for placed in others_told {
        told.push(placed)?;
    }
    paid?;
    others_paid
}

/// The amounts of the first two accounts, of which one read gives all.
fn amounts<B: ClusterName, R: Wait>(
    rt: &R,
    alloc: Global,
    session: &mut Session<B>,
) -> Result<(u8, u8), Refusal> {
    session.begin(rt, alloc)?;
    let accounts = KeyRange::prefix(alloc, &Key::new(alloc, b"account/")?)?;
    let pairs = session.get_range(rt, alloc, &accounts, ReadOptions::all())?;
    let alice = amount_at(pairs.as_slice(), 0);
    let bob = amount_at(pairs.as_slice(), 1);
    Ok((alice, bob))
}

/// The amount of the account that stands there, 0 where none does.
fn amount_at(pairs: &[(Key, Bytes)], at: usize) -> u8 {
    match pairs.get(at) {
        Some((_account, value)) => value.as_slice().first().copied().unwrap_or(0),
        None => 0,
    }
}

/// What the session does, with another one that pays at once.
fn play<B: ClusterName + Send + Sync + 'static, R: Threads + Wait + Copy + Send + Sync + 'static>(
    rt: &R,
    alloc: Global,
    database: &mut Database<B>,
    session: &mut Session<B>,
    told: &mut Vec<Placed>,
) -> Result<(u8, u8), Refusal> {
    open(rt, alloc, session, told)?;
    let other = database.session(alloc)?;
    pay_at_once(rt, alloc, session, other, told)?;
    amounts(rt, alloc, session)
}

/// The same with a session of the database.
fn play_on<
    B: ClusterName + Send + Sync + 'static,
    R: Threads + Wait + Copy + Send + Sync + 'static,
>(
    rt: &R,
    alloc: Global,
    database: &mut Database<B>,
    told: &mut Vec<Placed>,
) -> Result<(u8, u8), Refusal> {
    let mut session = database.session(alloc)?;
    let played = play(rt, alloc, database, &mut session, told);
    drop(session);
    played
}

/// How many transactions are serialized in the record's book where they were told, if all are.
fn checked<B: ClusterName>(
    alloc: Global,
    config: &Config,
    record: &Record<B>,
    told: &[Placed],
) -> Result<u64, Refusal>
    requires config { config.now ≡ B.config }
{
    config.check()?;
    let entries = record.front().entries()?;
    match serial_check(alloc, config, entries.as_slice(), told) {
        Ok(count) => Ok(count),
        Err(CheckFault::NoMemory) => Err(Refusal::NoMemory),
        Err(_other) => Err(Refusal::Failed),
    }
}

/// Starts a database, plays on it, closes it whatever came of that, and checks what was told.
fn use_database<
    B: ClusterName + Send + Sync + 'static,
    R: Threads + Wait + Copy + Send + Sync + 'static,
>(rt: &R, alloc: Global, blank: Blank, config: &Config) -> Result<Found, Refusal>
    requires cells { blank ≡ B.cells }
    requires config { config.now ≡ B.config }
{
    let gate = Arc::new(alloc, NoGate)?;
    let mut database: Database<B> = Database::start(rt, alloc, blank, config, 1_000, &gate)?;
    let mut told = Vec::new(alloc);
    let played = play_on(rt, alloc, &mut database, &mut told);
    let record = database.close(rt)?;
    let count = checked(alloc, config, &record, told.as_slice())?;
    let (alice, bob) = played?;
    Ok(Found { alice, bob, count })
}

/// Makes the configuration and the cells of its book, which name the database.
fn run_example<R: Threads + Wait + Copy + Send + Sync + 'static>(
    rt: &R,
    alloc: Global,
) -> Result<Found, Refusal> {
    let config = Config {
        proxies: 1,
        logs: 1,
        resolver_splits: Items::new(alloc),
        shard_splits: Items::new(alloc),
        book: 1_000,
    };
    let blank = Blank::new(alloc, 1_000)?;
    use_database::<Brand, R>(rt, alloc, blank, &config)
}

/// Prints what is found.
fn print_found(rt: &HostRuntime, found: Found) -> ExitCode {
    let Found { alice, bob, count } = found;
    let _ = println!(rt; "alice has {alice}, and bob has {bob}");
    let _ = println!(rt; "{count} transactions are serialized where they were told");
    ExitCode::SUCCESS
}

fn print_refusal(rt: &HostRuntime, why: Refusal) -> ExitCode {
    let _ = eprintln!(rt; "{why}");
    ExitCode::FAILURE
}

fn main(rt: HostRuntime) -> ExitCode {
    match run_example(&rt, rt.alloc()) {
        Ok(found) => print_found(&rt, found),
        Err(why) => print_refusal(&rt, why),
    }
}
