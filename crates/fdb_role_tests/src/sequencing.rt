// Sequencers with known answers.
use crate::asserting::same;
use fdb_keys::{KeyRange, Refusal};
use fdb_making::{ask_mut, code_of, has_bounds, is_done, made_of};
use fdb_sequencer::{Dated, SequencerCore, Ticket};
use fdb_txn::Move;
use std::alloc::Global;
use std::process::Abort;

const GREATEST_VERSION: u64 = 4_611_686_018_427_387_904;

// So many proxies and resolvers, the last version, and the code for them.
const CONFIGURATIONS: &[(u32, u32, u64, u32)] = &[
    (16, 64, GREATEST_VERSION, 0),
    (0, 1, 0, 9009),
    (17, 1, 0, 9009),
    (1, 0, 0, 9009),
    (1, 65, 0, 9009),
    (1, 1, GREATEST_VERSION + 1, 9009),
];

// The proxy, the index, the version and the previous version of a ticket, and whether it tells a move.
type Numbers = (u32, u32, u64, u64, bool);

// What is asked of a sequencer, with what it is to give.
enum Act {
    // The numbers of the ticket that the proxy gets for the advance.
    Plan(u32, u64, Numbers),
    // Whether the ticket that proxy 0 gets for the advance equals the one that was planned before.
    EqualsPlanned(u64),
    // The ticket that the proxy gets for an advance of 100 tells it the moves of `[m, t)` to these resolvers at the
    // version, and has those to these others pending.
    Tells(u32, u64, &'static [u32], &'static [u32]),
    // The ticket that was planned before.
    Accept,
    // The proxy's tickets for an advance of 100, so many one after another.
    Take(u32, u32),
    // The version and the horizon of proxy 0's ticket for the advance, which is taken.
    TakeOne(u64, [u64; 2]),
    Window(u64),
    // Moves from m to the end to the resolver, so many one after another.
    Move(&'static [u8], u32, u32),
    Report(u64),
    Committed(u64),
}

// Whether it gives what it is to give, or the code of the refusal.
type Told = Result<bool, u32>;

const YES: Told = Ok(true);

// Each of a sequencer of two proxies and so many resolvers, from a last version on, after the proxy's ticket for the
// advance was planned.
const CASES: &[(u32, u64, (u32, u64), &[(Act, Told)])] = &[
    // Advances are at least one and at most five million.
    (
        3,
        0,
        (0, 100),
        &[
            (Act::Plan(1, 0, (1, 0, 1, 0, false)), YES),
            (Act::Plan(1, 9_000_000, (1, 0, 5_000_000, 0, false)), YES),
            (Act::Plan(2, 1, (2, 0, 1, 0, false)), Err(9009)),
        ],
    ),
    // Tickets follow on one another.
    (
        3,
        0,
        (0, 100),
        &[
            (Act::Plan(1, 100, (1, 0, 100, 0, false)), YES),
            (Act::Take(1, 1), YES),
            (Act::Plan(0, 50, (0, 1, 150, 100, false)), YES),
        ],
    ),
    // They are accepted once.
    (
        3,
        0,
        (0, 100),
        &[(Act::Accept, YES), (Act::Accept, Err(9003))],
    ),
    // One ticket of an index is accepted.
    (
        3,
        0,
        (1, 200),
        &[(Act::Take(0, 1), YES), (Act::Accept, Err(9003))],
    ),
    // Versions end at the greatest.
    (
        3,
        GREATEST_VERSION - 1,
        (0, 1),
        &[
            (
                Act::Plan(0, 1, (0, 0, GREATEST_VERSION, GREATEST_VERSION - 1, false)),
                YES,
            ),
            (Act::Accept, YES),
            (
                Act::Plan(0, 1, (0, 1, GREATEST_VERSION, GREATEST_VERSION, false)),
                Err(9005),
            ),
        ],
    ),
    // The greatest report is kept.
    (
        3,
        300,
        (0, 100),
        &[
            (Act::Committed(0), YES),
            (Act::Report(200), YES),
            (Act::Report(100), YES),
            (Act::Report(301), Err(9009)),
            (Act::Committed(200), YES),
        ],
    ),
    // Tickets of one plan are equal.
    (
        3,
        0,
        (0, 100),
        &[
            (Act::EqualsPlanned(100), YES),
            (Act::EqualsPlanned(101), Ok(false)),
        ],
    ),
    // Windows are at least one and at most five million, and horizons never fall, also where the window grows.
    (
        3,
        0,
        (0, 100),
        &[
            (Act::Window(0), Err(9009)),
            (Act::Window(5_000_001), Err(9009)),
            (Act::Window(150), YES),
            (Act::TakeOne(100, [100, 0]), YES),
            (Act::TakeOne(150, [250, 100]), YES),
            (Act::Window(5_000_000), YES),
            (Act::TakeOne(1, [251, 100]), YES),
            (Act::Window(1), YES),
            (Act::TakeOne(1, [252, 251]), YES),
        ],
    ),
    // A ticket from before another window is stale where that makes another horizon.
    (
        3,
        0,
        (0, 100),
        &[
            (Act::Window(99), YES),
            (Act::Accept, Err(9003)),
            (Act::Window(100), YES),
            (Act::Accept, YES),
        ],
    ),
    // Moves go to resolvers that exist, and aren't empty.
    (
        2,
        0,
        (0, 100),
        &[
            (Act::Move(b"t", 2, 1), Err(9009)),
            (Act::Move(b"m", 0, 1), Err(9009)),
            (Act::Move(b"t", 1, 1), YES),
        ],
    ),
    // Each proxy is told each move once, and a ticket from before a move is stale.
    (
        3,
        0,
        (0, 100),
        &[
            (Act::Move(b"t", 0, 1), YES),
            (Act::Accept, Err(9003)),
            (Act::Tells(0, 100, &[0], &[0]), YES),
            (Act::Take(0, 1), YES),
            (Act::Tells(1, 100, &[0], &[]), YES),
            (Act::Take(1, 1), YES),
            (Act::Tells(1, 0, &[], &[]), YES),
            (Act::Tells(0, 0, &[], &[]), YES),
        ],
    ),
    // Moves of one entry stay in order.
    (
        3,
        0,
        (0, 100),
        &[
            (Act::Move(b"t", 2, 1), YES),
            (Act::Move(b"t", 1, 1), YES),
            (Act::Tells(0, 100, &[2, 1], &[2, 1]), YES),
            (Act::Take(1, 1), YES),
            (Act::Tells(0, 100, &[2, 1], &[]), YES),
        ],
    ),
    // Moves end at the most.
    (
        3,
        0,
        (0, 100),
        &[
            (Act::Move(b"t", 1, 65_536), YES),
            (Act::Move(b"t", 1, 1), Err(9012)),
            (Act::Take(0, 1_000), YES),
            (Act::Take(1, 1_000), YES),
        ],
    ),
];

fn has_numbers(ticket: &Ticket, wanted: Numbers) -> bool {
    let tells_moves = !ticket.moves.is_empty() || !ticket.pending.is_empty();
    (
        ticket.proxy,
        ticket.index,
        ticket.version,
        ticket.prev,
        tells_moves,
    ) == wanted
}

// Makes so many moves from m to the end.
fn make_moves(
    core: &mut SequencerCore,
    alloc: Global,
    end: &[u8],
    to: u32,
    count: u32,
) -> Result<bool, Refusal> {
    for _number in 0..count {
        let range = KeyRange::new(alloc, b"m", end)?;
        core.move_to(Move { range, to })?;
    }
    Ok(true)
}

// Takes so many tickets of the proxy.
fn take_tickets(core: &mut SequencerCore, proxy: u32, count: u32) -> Result<bool, Refusal> {
    for _number in 0..count {
        let ticket = core.plan(proxy, 100)?;
        core.accept(&ticket)?;
    }
    Ok(true)
}

// Whether proxy 0's ticket for the advance, which is taken, has the version and the horizon.
fn take_one(core: &mut SequencerCore, advance: u64, wanted: [u64; 2]) -> Result<bool, Refusal> {
    let ticket = core.plan(0, advance)?;
    core.accept(&ticket)?;
    Ok([ticket.version, ticket.horizon] == wanted)
}

// Whether these are moves of `[m, t)` to the resolvers, in order.
fn go_to(moves: &[Move], targets: &[u32]) -> bool {
    moves.len() == targets.len()
        && moves.iter().zip(targets).all(|(one_move, to)| one_move.to == *to
            && has_bounds(&one_move.range, b"m", b"t"))
}

// Whether these are the moves to the resolvers at the version, and none where there is no resolver.
fn are_at(dated: &[Dated], version: u64, targets: &[u32]) -> bool {
    match dated {
        [] => targets.is_empty(),
        [one] => one.version == version
            && !targets.is_empty()
            && go_to(one.moves.as_slice(), targets),
        _ => false,
    }
}

fn tells(ticket: &Ticket, version: u64, told: &[u32], pending: &[u32]) -> bool {
    are_at(ticket.moves.as_slice(), version, told) && go_to(ticket.pending.as_slice(), pending)
}

// Whether the act gives what it is to give.
fn act_on(
    core: &mut SequencerCore,
    alloc: Global,
    planned: &Ticket,
    act: &Act,
) -> Result<bool, Refusal> {
    match *act {
        Act::Plan(proxy, advance, numbers) => {
            made_of(
                core.plan(proxy, advance),
                |ticket| Ok(has_numbers(ticket, numbers)),
            )
        }
        Act::EqualsPlanned(advance) => made_of(
            core.plan(0, advance),
            |ticket| Ok(ticket == planned),
        ),
        Act::Tells(proxy, version, told, pending) => {
            made_of(
                core.plan(proxy, 100),
                |ticket| Ok(tells(ticket, version, told, pending)),
            )
        }
        Act::Accept => is_done(core.accept(planned)),
        Act::Take(proxy, count) => take_tickets(core, proxy, count),
        Act::TakeOne(advance, wanted) => take_one(core, advance, wanted),
        Act::Window(window) => is_done(core.set_window(window)),
        Act::Move(end, to, count) => make_moves(core, alloc, end, to, count),
        Act::Report(version) => is_done(core.report(version)),
        Act::Committed(version) => Ok(core.committed() == version),
    }
}

// Plans the proxy's ticket for the advance, and then goes through the acts.
fn play(
    rt: &impl Abort,
    alloc: Global,
    core: &mut SequencerCore,
    plan: (u32, u64),
    acts: &[(Act, Told)],
) -> Result<(), Refusal> {
    let planned = core.plan(plan.0, plan.1)?;
    for (act, wanted) in acts {
        let told = match act_on(core, alloc, &planned, act) {
            Ok(gives) => Ok(gives),
            Err(why) => Err(why.code()),
        };
        same(rt, told, *wanted);
    }
    Ok(())
}

#[test]
fn sequencers_give_tickets(rt: HostRuntime) {
    let alloc = rt.alloc();
    for (resolvers, last, plan, acts) in CASES {
        let core = SequencerCore::new(alloc, 2, *resolvers, *last);
        let played = ask_mut(core, |core| play(&rt, alloc, core, *plan, acts).is_ok());
        same(&rt, played, Ok(true));
    }
}

#[test]
fn configurations_are_within_their_limits(rt: HostRuntime) {
    for (proxies, resolvers, last, code) in CONFIGURATIONS {
        let core = SequencerCore::new(rt.alloc(), *proxies, *resolvers, *last);
        same(&rt, code_of(core), *code);
    }
}
