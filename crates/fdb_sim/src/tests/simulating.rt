// Simulated databases, each by an order of acts that is drawn from a seed.
use fdb_keys::{Items, Key, Refusal};
use fdb_runtime::{Blank, Config};
use fdb_simulate::{Plan, Simulation, Tally, run_simulation, simulate};
use std::alloc::Global;
use std::fmt::Debug;
use std::marker::Brand;
use std::process::Abort;
use std::str;
use std::test::Fail;

// The test fails where it isn't what is wanted.
fn same<T: PartialEq + Debug + Drop>(rt: &impl Abort, given: T, wanted: T) {
    assert_eq!(rt; given, wanted);
}

// So many proxies of each kind and two of each other role, among which the four keys are divided.
fn config_of(alloc: Global, proxies: u32, book: u32) -> Result<Config, Refusal> {
    let mut resolver_splits = Items::new(alloc);
    resolver_splits.push(Key::new(alloc, &[b'k', 2])?)?;
    let mut shard_splits = Items::new(alloc);
    shard_splits.push(Key::new(alloc, &[b'k', 1])?)?;
    Ok(Config {
        proxies,
        logs: 2,
        resolver_splits,
        shard_splits,
        book,
    })
}

// Eight clients of four keys. With every second seed a role fails on the way, with every third one the database is
// closed, and with every fourth one versions are so far apart that five of them lie in the window.
fn plan_of(seed: u64) -> Plan {
    Plan {
        seed,
        steps: 2_000,
        clients: 8,
        keys: 4,
        advance: if seed % 4 == 3 { 1_000_000 } else { 1_000 },
        fails_at: if seed % 2 == 1 {
            Some(seed.saturating_mul(9))
        } else {
            None
        },
        closes_at: if seed % 3 == 2 {
            Some(seed.saturating_mul(8))
        } else {
            None
        },
    }
}

// A play over three proxies of each kind.
fn play(alloc: Global, plan: &Plan, book: u32) -> Result<Tally, Refusal> {
    play_over(alloc, plan, 3, book)
}

fn play_over(alloc: Global, plan: &Plan, proxies: u32, book: u32) -> Result<Tally, Refusal> {
    let config = config_of(alloc, proxies, book)?;
    let blank = Blank::new(alloc, book)?;
    simulate::<Brand>(alloc, blank, &config, plan)
}

// Whether nobody waits in the end, and all that the clients were told agrees with the book and is explained. Where no
// role failed and the database wasn't closed, something was acknowledged.
fn is_right(alloc: Global, seed: u64) -> bool {
    let plan = plan_of(seed);
    match play(alloc, &plan, 4_096) {
        Ok(tally) => tally.is_right() && (is_disturbed(&plan) || tally.acknowledged > 0),
        Err(_why) => false,
    }
}

// Whether a role fails on the way, or the database is closed.
fn is_disturbed(plan: &Plan) -> bool {
    plan.fails_at.is_some() || plan.closes_at.is_some()
}

#[test]
fn two_hundred_seeds_are_played_to_their_end(rt: HostRuntime) -> Result<(), Fail> {
    let alloc = rt.alloc();
    let right = (0..200).filter(|seed| is_right(alloc, *seed)).count();
    same(&rt, right, 200);
    Ok(())
}

// Many proxies have many messages on their way, most of which wait for those of others.
fn is_right_of_many(alloc: Global, seed: u64) -> bool {
    let plan = Plan {
        clients: 64,
        ..plan_of(seed)
    };
    match play_over(alloc, &plan, 16, 4_096) {
        Ok(tally) => tally.is_right(),
        Err(_why) => false,
    }
}

#[test]
fn many_proxies_are_played_to_their_end(rt: HostRuntime) -> Result<(), Fail> {
    let alloc = rt.alloc();
    let right = (0..20)
        .filter(|seed| is_right_of_many(alloc, *seed))
        .count();
    same(&rt, right, 20);
    Ok(())
}

// What came of a run, in numbers.
fn numbers_of(played: Result<Tally, Refusal>) -> [u64; 6] {
    match played {
        Ok(tally) => [
            tally.acknowledged,
            tally.turned_down,
            tally.unknown,
            tally.refused,
            tally.acts,
            tally.entries,
        ],
        Err(_why) => [u64::MAX; 6],
    }
}

#[test]
fn a_seed_is_played_in_the_same_way_again(rt: HostRuntime) -> Result<(), Fail> {
    let alloc = rt.alloc();
    let first = numbers_of(play(alloc, &plan_of(7), 4_096));
    let again = numbers_of(play(alloc, &plan_of(7), 4_096));
    same(&rt, (first == again, first[4] < u64::MAX), (true, true));
    Ok(())
}

#[test]
fn a_book_is_filled(rt: HostRuntime) -> Result<(), Fail> {
    let alloc = rt.alloc();
    let told = match play(alloc, &plan_of(6), 6) {
        Ok(tally) => (tally.is_right(), tally.entries, tally.refused > 0),
        Err(_why) => (false, 0, false),
    };
    same(&rt, told, (true, 6, true));
    Ok(())
}

// How many transactions of plays that are right were turned down, how many reads came too late, of how many
// transactions nothing is known, and how many reads were of an own stamp.
fn sum_of(alloc: Global, plans: [Plan; 4]) -> [u64; 4] {
    let mut sum: [u64; 4] = [0; 4];
    for plan in plans {
        if let Ok(tally) = play(alloc, &plan, 4_096)
            && tally.is_right()
        {
            sum[0] = sum[0].saturating_add(tally.turned_down);
            sum[1] = sum[1].saturating_add(tally.forgotten);
            sum[2] = sum[2].saturating_add(tally.unknown);
            sum[3] = sum[3].saturating_add(tally.unreadable);
        }
    }
    sum
}

// Many clients; nothing fails, and two versions lie in the window.
fn far_apart(seed: u64) -> Plan {
    Plan {
        seed,
        steps: 10_000,
        clients: 48,
        keys: 4,
        advance: 2_500_000,
        fails_at: None,
        closes_at: None,
    }
}

#[test]
fn what_is_refused_comes_of_conflicts_age_and_failures(rt: HostRuntime) -> Result<(), Fail> {
    let alloc = rt.alloc();
    let far = [6, 12, 18, 24].map(far_apart);
    let failing = [1, 5, 13, 17].map(plan_of);
    let [turned_down, forgotten, _unknown, unreadable] = sum_of(alloc, far);
    let [_turned_down, _forgotten, unknown, _unreadable] = sum_of(alloc, failing);
    same(
        &rt,
        (turned_down > 0, forgotten > 0, unknown > 0, unreadable > 0),
        (true, true, true, true),
    );
    Ok(())
}

// The status of what is asked for by the seed, and the line that it prints.
fn printed_by(rt: &HostRuntime, seed: u64) -> Result<(u8, Vec<u8>), Fail> {
    let asked = Simulation {
        seed,
        steps: 4_000,
        clients: 16,
        resolvers: 2,
        proxies: 2,
    };
    let mut out: Vec<u8> = Vec::new(rt.alloc());
    let status = run_simulation(rt.alloc(), &asked, &mut out)?;
    Ok((status, out))
}

// The number with which the text begins.
fn number_at(text: &str) -> u64 {
    let mut number: u64 = 0;
    for byte in text.as_bytes() {
        if !byte.is_ascii_digit() {
            return number;
        }
        let digit = u64::from(byte.saturating_sub(b'0'));
        number = number.saturating_mul(10).saturating_add(digit);
    }
    number
}

// The number behind the name in the line, 0 where the name isn't there.
fn number_in(line: &[u8], name: &str) -> u64 {
    match str::from_utf8(line).unwrap_or("").split_once(name) {
        Some((_before, rest)) => number_at(rest),
        None => 0,
    }
}

// The names of what some seeds have.
const COUNTS: [&str; 6] = [
    "\"aborted\":",
    "\"acknowledged\":",
    "\"checked\":",
    "\"entries\":",
    "\"refused\":",
    "\"unknown\":",
];

fn counts_in(line: &[u8]) -> [u64; 6] {
    COUNTS.map(|name| number_in(line, name))
}

// Seeds in whose plays somebody is acknowledged.
const WITH_RECEIPTS: [u64; 8] = [0, 1, 2, 3, 4, 5, 6, 7];

#[test]
fn each_count_is_printed_of_some_seeds(rt: HostRuntime) -> Result<(), Fail> {
    let mut had: [bool; 6] = [false; 6];
    for seed in WITH_RECEIPTS {
        let (status, line) = printed_by(&rt, seed)?;
        let counts = counts_in(line.as_slice());
        same(
            &rt,
            (seed, status, counts[1] > 0, counts[1] == counts[2]),
            (seed, 0, true, true),
        );
        for (has, count) in had.iter_mut().zip(counts) {
            *has = *has || count > 0;
        }
    }
    same(&rt, had, [true; 6]);
    Ok(())
}

// Two seeds each that differ in their lowest bit, in their higher half alone, and in their highest bit alone.
const SEEDS: [(u64, u64); 3] = [(2, 3), (7, 7 | 1 << 32), (7, 7 | 1 << 63)];

#[test]
fn other_seeds_print_other_counts(rt: HostRuntime) -> Result<(), Fail> {
    for (seed, other) in SEEDS {
        let (_status, line) = printed_by(&rt, seed)?;
        let (_status, again) = printed_by(&rt, seed)?;
        let (_status, other) = printed_by(&rt, other)?;
        let counts = counts_in(line.as_slice());
        let is_other = counts != counts_in(other.as_slice());
        let is_again = line.as_slice() == again.as_slice();
        same(&rt, (seed, is_other, is_again), (seed, true, true));
    }
    Ok(())
}
