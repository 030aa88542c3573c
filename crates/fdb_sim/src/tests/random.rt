// Runs of drawn steps.
use fdb_play::{CODES, Nobody, Report, Tally, run_random, run_steps};
use std::alloc::Global;
use std::test::Fail;

/// How many steps a run has.
const STEPS: u32 = 4_000;

// Whether a step was refused with the code.
fn has_refused(tally: &Tally, code: u32) -> bool {
    CODES
        .iter()
        .zip(tally.refusals.iter())
        .any(|(known, count)| *known == code && *count > 0)
}

// Where steps that set the window are counted among all kinds.
const WINDOWS: usize = 22;

// How often this or that came that each run should have: steps of each kind that were accepted, of which the reads of a
// snapshot are two, refusals of the usual codes, windows that were refused, and each outcome of a transaction.
fn has_all(tally: &Tally) -> bool {
    let codes = [1009, 1036, 9002, 9003, 9008, 9014, 9016];
    tally.accepted.iter().all(|count| *count > 0)
        && codes.iter().all(|code| has_refused(tally, *code))
        && tally.refused_kinds[WINDOWS] > 0
        && tally.committed > 20
        && tally.read_only > 0
        && tally.conflicting > 0
        && tally.too_old > 0
}

// The sum of the counts.
fn sum_of(counts: &[u32]) -> u64 {
    counts
        .iter()
        .fold(0, |sum: u64, count| sum.saturating_add(u64::from(*count)))
}

// Whether each step is counted once, a refused one with its code and its kind, and the report says what is counted.
fn is_told(tally: &Tally, report: &Report) -> bool {
    let refused = sum_of(tally.refusals.as_slice());
    let accepted = sum_of(tally.accepted.as_slice());
    u64::from(report.refused) == refused
        && sum_of(tally.refused_kinds.as_slice()) == refused
        && refused.saturating_add(accepted) == u64::from(report.steps)
        && report.aborted == sum_of(&[tally.conflicting, tally.too_old])
        && report.acknowledged == sum_of(&[tally.committed, tally.read_only])
}

// Whether the check held, and compared all transactions that were answered with their spot.
fn is_checked(report: &Report) -> bool {
    report.ok && report.checked == report.acknowledged && report.steps == STEPS
}

fn is_whole(alloc: Global, seed: u64) -> bool {
    match run_steps(alloc, seed, STEPS, &mut Nobody) {
        Ok((tally, report)) => {
            has_all(&tally) && is_told(&tally, &report) && is_checked(&report)
        }
        Err(_stop) => false,
    }
}

#[test]
fn steps_of_all_kinds_are_taken(rt: HostRuntime) {
    for seed in 2..4 {
        assert!(rt; is_whole(rt.alloc(), seed), "at {seed}");
    }
}

// The status of a run without a clock, with what it prints.
fn output_of(rt: &HostRuntime, seed: u64) -> Result<(u8, Vec<u8>), Fail> {
    let mut out: Vec<u8> = Vec::new(rt.alloc());
    let mut err: Vec<u8> = Vec::new(rt.alloc());
    let none: Option<&HostRuntime> = None;
    let status = run_random(rt.alloc(), seed, 1_000, none, &mut out, &mut err)?;
    Ok((status, out))
}

#[test]
fn a_seed_gives_one_line(rt: HostRuntime) -> Result<(), Fail> {
    let first = output_of(&rt, 1)?;
    let again = output_of(&rt, 1)?;
    let other = output_of(&rt, 2)?;
    assert!(rt; first.0 == 0 && first.1.as_slice() == again.1.as_slice());
    assert!(rt; first.1.as_slice() != other.1.as_slice());
    assert!(rt; first.1.starts_with(b"{\"aborted\":") && first.1.ends_with(b",\"steps\":1000}\n"));
    Ok(())
}

// Two seeds each that differ in their lowest bits, in their higher half alone, and in their highest bit alone.
const SEEDS: [(u64, u64); 4] = [(2, 3), (4, 6), (7, 7 | 1 << 32), (7, 7 | 1 << 63)];

#[test]
fn other_seeds_give_other_lines(rt: HostRuntime) -> Result<(), Fail> {
    for (seed, other) in SEEDS {
        let (status, line) = output_of(&rt, seed)?;
        let (other_status, other_line) = output_of(&rt, other)?;
        assert!(rt; (status, other_status) == (0, 0));
        assert!(rt; line.as_slice() != other_line.as_slice(), "at {seed}");
    }
    Ok(())
}
