//! Measures parts of the transaction system: what they do, and how long it takes by the clock.
#![tactic(auto)]

mod answered;
mod client;
mod commit;
mod layers;
mod log;
mod numbers;
mod resolver;
mod scan;
mod sealed;
mod serial;
mod sets;
mod storage;

use crate::layers::Beside;
use crate::numbers::{Fault, number_of, operations_of, transactions_of};
use std::env;
use std::process::ExitCode;
use std::sync::Wait;
use std::thread::Threads;
use std::time::{Clock, Duration};

const USAGE: &str = "fdb_bench resolver ITEMS PERCENT
    A resolver takes so many items in batches of 100, each with a read range and a write range. So many percent of them,
    0, or 1 to 50, conflict.
fdb_bench commit RESOLVERS BATCH TRANSACTIONS MOVES
    A commit proxy commits so many transactions, after it learnt so many moves.
fdb_bench serial TRANSACTIONS
    So many transactions of a world, each of which sets a key, are checked against a run of one at a time.
fdb_bench storage SETS KEYS BYTES
    A shard applies so many sets of so many keys to values of so many bytes, in entries of 100, answers as many gets,
    and a tenth as many pages of ten pairs.
fdb_bench log ENTRIES
    A log and its shard take so many entries of ten sets of 1,000 keys each.
fdb_bench client TRANSACTIONS OPERATIONS
    A client begins and finishes so many transactions, each with so many gets of 1,000 keys and as many sets.
fdb_bench scan PAIRS OWN
    A transaction reads a range of so many pairs, after it set so many other keys of it, and is finished; then one that
    set none of them.
fdb_bench sets RANGES
    A new set of ranges takes so many ranges of one key each at once.
fdb_bench sealed MUTATIONS
    So many sets of a key each are sealed as one transaction.
fdb_bench answered OPERATIONS
    The transcript of so many operations, half of them gets of 1,000 keys and half sets, is compared with its map.
fdb_bench layers TRANSACTIONS
    A session of a running database pushes so many items on a queue of at most 100, and pops as many; it updates so many
    of a table's 100 records, and finds as many values by the index, of ten records each. Each is done by the layer's
    work, and then by bare calls.
";

fn main(rt: HostRuntime) -> ExitCode {
    match run(&rt, &rt) {
        Ok(()) => ExitCode::SUCCESS,
        Err(fault) => {
            let _ = eprintln!(rt; "fdb_bench: {fault}");
            ExitCode::from(2)
        }
    }
}

// Measures what the process's words say, or prints what can be measured. A database's threads are started and waited
// for by the second handle.
fn run<R: Threads + Wait + Clock + Copy + Send + Sync + 'static>(
    rt: &HostRuntime,
    threads: &R,
) -> Result<(), Fault> {
    let alloc = rt.alloc();
    let args: Vec<String> = env::args(rt)?.skip(1).collect(alloc)?;
    let words: Vec<&str> = args.iter().map(|word| word.as_str()).collect(alloc)?;
    obey(rt, threads, words.as_slice())
}

fn obey<R: Threads + Wait + Clock + Copy + Send + Sync + 'static>(
    rt: &HostRuntime,
    threads: &R,
    words: &[&str],
) -> Result<(), Fault> {
    match words {
        ["layers", transactions] => run_layers(rt, threads, transactions),
        _ => obey_alone(rt, words),
    }
}

// The same of what is measured with no database.
fn obey_alone(rt: &HostRuntime, words: &[&str]) -> Result<(), Fault> {
    match words {
        ["resolver", items, percent] => run_resolver(rt, items, percent),
        ["commit", resolvers, batch, transactions, moves] => {
            run_commit(rt, resolvers, batch, transactions, moves)
        }
        ["serial", transactions] => run_serial(rt, transactions),
        ["storage", sets, keys, bytes] => run_storage(rt, sets, keys, bytes),
        ["log", entries] => run_log(rt, entries),
        ["client", transactions, operations] => run_client(rt, transactions, operations),
        ["scan", pairs, own] => run_scan(rt, pairs, own),
        ["sets", ranges] => run_sets(rt, ranges),
        ["sealed", mutations] => run_sealed(rt, mutations),
        ["answered", operations] => run_answered(rt, operations),
        _ => show_usage(rt),
    }
}

fn show_usage(rt: &HostRuntime) -> Result<(), Fault> {
    print!(rt; "{}", USAGE)?;
    Ok(())
}

fn run_resolver(rt: &HostRuntime, items: &str, percent: &str) -> Result<(), Fault> {
    let (items, percent) = (number_of(items)?, number_of(percent)?);
    let took = resolver::measure(rt, rt.alloc(), items, percent)?;
    report(
        rt,
        "resolver",
        &[("items", items), ("percent", percent)],
        took,
    )
}

fn run_commit(
    rt: &HostRuntime,
    resolvers: &str,
    batch: &str,
    transactions: &str,
    moves: &str,
) -> Result<(), Fault> {
    let setting = commit::Setting {
        resolvers: number_of(resolvers)?,
        batch: number_of(batch)?,
        transactions: number_of(transactions)?,
        moves: number_of(moves)?,
    };
    let took = commit::measure(rt, rt.alloc(), &setting)?;
    let numbers = [
        ("resolvers", setting.resolvers),
        ("batch", setting.batch),
        ("transactions", setting.transactions),
        ("moves", setting.moves),
    ];
    report(rt, "commit", &numbers, took)
}

fn run_serial(rt: &HostRuntime, transactions: &str) -> Result<(), Fault> {
    let transactions = number_of(transactions)?;
    let took = serial::measure(rt, rt.alloc(), transactions)?;
    report(rt, "serial", &[("transactions", transactions)], took)
}

fn run_storage(rt: &HostRuntime, sets: &str, keys: &str, bytes: &str) -> Result<(), Fault> {
    let setting = storage::Setting {
        sets: number_of(sets)?,
        keys: number_of(keys)?,
        bytes: number_of(bytes)?,
    };
    let took = storage::measure(rt, rt.alloc(), &setting)?;
    let numbers = [
        ("sets", setting.sets),
        ("keys", setting.keys),
        ("bytes", setting.bytes),
    ];
    report(rt, "storage apply", &numbers, took.applying)?;
    report(rt, "storage get", &numbers, took.getting)?;
    report(rt, "storage page", &numbers, took.paging)
}

fn run_log(rt: &HostRuntime, entries: &str) -> Result<(), Fault> {
    let entries = number_of(entries)?;
    let took = log::measure(rt, rt.alloc(), entries)?;
    report(rt, "log", &[("entries", entries)], took)
}

fn run_client(rt: &HostRuntime, transactions: &str, operations: &str) -> Result<(), Fault> {
    let setting = client::Setting {
        transactions: number_of(transactions)?,
        operations: operations_of(operations)?,
    };
    let took = client::measure(rt, rt.alloc(), &setting)?;
    let numbers = [
        ("transactions", setting.transactions),
        ("operations", setting.operations),
    ];
    report(rt, "client", &numbers, took)
}

fn run_scan(rt: &HostRuntime, pairs: &str, own: &str) -> Result<(), Fault> {
    let setting = scan::Setting {
        pairs: number_of(pairs)?,
        own: operations_of(own)?,
    };
    scan_once(rt, &setting)?;
    scan_once(rt, &scan::Setting { own: 0, ..setting })
}

fn scan_once(rt: &HostRuntime, setting: &scan::Setting) -> Result<(), Fault> {
    let took = scan::measure(rt, rt.alloc(), setting)?;
    let numbers = [("pairs", setting.pairs), ("own", setting.own)];
    report(rt, "scan read", &numbers, took.reading)?;
    report(rt, "scan finish", &numbers, took.finishing)
}

fn run_sets(rt: &HostRuntime, ranges: &str) -> Result<(), Fault> {
    let ranges = number_of(ranges)?;
    let took = sets::measure(rt, rt.alloc(), ranges)?;
    report(rt, "sets", &[("ranges", ranges)], took)
}

fn run_sealed(rt: &HostRuntime, mutations: &str) -> Result<(), Fault> {
    let mutations = number_of(mutations)?;
    let took = sealed::measure(rt, rt.alloc(), mutations)?;
    report(rt, "sealed", &[("mutations", mutations)], took)
}

fn run_answered(rt: &HostRuntime, operations: &str) -> Result<(), Fault> {
    let operations = operations_of(operations)?;
    let took = answered::measure(rt, rt.alloc(), operations)?;
    report(rt, "answered", &[("operations", operations)], took)
}

fn run_layers<R: Threads + Wait + Clock + Copy + Send + Sync + 'static>(
    rt: &HostRuntime,
    threads: &R,
    transactions: &str,
) -> Result<(), Fault> {
    let transactions = transactions_of(transactions)?;
    let queue = layers::measure_queue(threads, rt.alloc(), transactions)?;
    let names = [
        "layers push",
        "layers push bare",
        "layers pop",
        "layers pop bare",
    ];
    report_beside(rt, names, transactions, &queue)?;
    let table = layers::measure_table(threads, rt.alloc(), transactions)?;
    let names = [
        "layers update",
        "layers update bare",
        "layers find",
        "layers find bare",
    ];
    report_beside(rt, names, transactions, &table)
}

// Reports what a layer's transactions take by work and by bare calls, first those that put, and then those that get.
fn report_beside(
    rt: &HostRuntime,
    names: [&str; 4],
    transactions: u32,
    beside: &Beside,
) -> Result<(), Fault> {
    let Beside { by_work, bare } = beside;
    let numbers = [("transactions", transactions)];
    report(rt, names[0], &numbers, by_work.putting)?;
    report(rt, names[1], &numbers, bare.putting)?;
    report(rt, names[2], &numbers, by_work.getting)?;
    report(rt, names[3], &numbers, bare.getting)
}

// Prints one line of JSON: what was measured, its numbers, and the time in microseconds.
fn report(
    rt: &HostRuntime,
    name: &str,
    numbers: &[(&str, u32)],
    took: Duration,
) -> Result<(), Fault> {
    print!(rt; "{{\"measured\":\"{name}\",")?;
    for (of, number) in numbers {
        print!(rt; "\"{of}\":{number},")?;
    }
    println!(rt; "\"microseconds\":{}}}", took.as_micros())?;
    Ok(())
}
