// Six scripts, of each of which memory may run out at any growth. `tools/refused_growths` runs this with
// each growth refused in turn.
use crate::tests::tables::{Played, batches, moves, ranges, read_table, resolvers, shards};
use fdb_play::run_script;
use std::alloc::{AllocError, Global};
use std::str;
use std::test::Fail;

const TABLES: [&str; 6] = [
    batches::FRESHNESS,
    resolvers::WRITE_SKEW,
    moves::THERE_AND_BACK,
    ranges::GAP_FILLED,
    ranges::GAP_UNTOUCHED,
    shards::TWO_LOGS_AND_SHARDS,
];

/// What a line prints that memory doesn't suffice for.
const NO_MEMORY: &str = "refused 9001 NoMemory";

/// How a script went.
#[derive(Clone, Copy, PartialEq, Debug)]
enum Went {
    /// Each line was answered as the table says.
    Wholly,
    /// So was each line before the first one that memory didn't suffice for, and the check found nothing.
    Refused,
    Wrongly,
}

// How the lines compare with those of the table.
fn compare(printed: &str, wanted: &str) -> Went {
    let mut answers = wanted.lines();
    for line in printed.lines() {
        if line == NO_MEMORY {
            return Went::Refused;
        }
        if answers.next() != Some(line) {
            return Went::Wrongly;
        }
    }
    match answers.next() {
        None => Went::Wholly,
        Some(_) => Went::Wrongly,
    }
}

// Whether the script ended by a check that held, or for want of memory.
fn ends_well(printed: &str, status: u8) -> bool {
    match printed.lines().next_back() {
        Some(line) if status == 0 => line.starts_with("checked "),
        Some(line) if status == 2 => line == NO_MEMORY,
        _ => false,
    }
}

fn judge(script: &Played, out: &[u8], status: u8) -> Went {
    match str::from_utf8(out) {
        Ok(printed) if ends_well(printed, status) => compare(printed, script.output.as_str()),
        _ => Went::Wrongly,
    }
}

// Plays the table. There is room for the output before, so a growth that is refused is the script's own.
fn play(alloc: Global, table: &str) -> Result<Went, AllocError> {
    let script = read_table(alloc, table)?;
    let mut out: Vec<u8> = Vec::with_capacity(alloc, 4_096)?;
    let mut reader = script.script.as_bytes();
    Ok(match run_script(alloc, &mut reader, &mut out) {
        Ok(status) => judge(&script, out.as_slice(), status),
        Err(_) => Went::Wrongly,
    })
}

#[test]
fn scripts_hold_where_a_growth_is_refused(rt: HostRuntime) -> Result<(), Fail> {
    let mut refused = 0_u32;
    for table in TABLES {
        match play(rt.alloc(), table) {
            Ok(Went::Wholly) => {}
            Ok(Went::Wrongly) => assert!(&rt; false, "{table:?}"),
            // The test's own room was refused.
            Ok(Went::Refused) | Err(_) => refused = refused.saturating_add(1),
        }
    }
    println!(&rt; "{refused} scripts were refused a growth")?;
    Ok(())
}
