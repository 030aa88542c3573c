// The transactions of one session, in rounds: some put, and then as many get.
use crate::layers::form::{Form, Given, Took};
use crate::numbers::{Fault, text_of};
use fdb_keys::Refusal;
use fdb_runtime::{Bytes, ClusterName, Layer, Session};
use std::alloc::Global;
use std::sync::Wait;
use std::time::{Clock, Duration, Instant};

/// How many transactions of a round put. So a queue never has more items, and a table has as many records.
pub(crate) const ROUND: u32 = 100;

// How many values the records of a table have.
const VALUES: u32 = 10;

/// How long the session takes to put so often, and to get as often. What is put is made outside of that time. A first
/// round isn't counted.
pub(crate) fn play<F: Form<L>, B: ClusterName, L: Layer, R: Wait + Clock>(
    rt: &R,
    alloc: Global,
    session: &mut Session<B, L>,
    transactions: u32,
) -> Result<Took, Fault> {
    let _uncounted = play_round::<F, B, L, R>(rt, alloc, session, 0, ROUND)?;
    let mut took = Took {
        putting: Duration::ZERO,
        getting: Duration::ZERO,
        got: 0,
    };
    let mut left = transactions;
    for round in 0..transactions.div_ceil(ROUND) {
        let first = round.saturating_add(1).saturating_mul(ROUND);
        let one = play_round::<F, B, L, R>(rt, alloc, session, first, left.min(ROUND))?;
        took = sum_of(&took, &one);
        left = left.saturating_sub(ROUND);
    }
    Ok(took)
}

fn sum_of(one: &Took, other: &Took) -> Took {
    Took {
        putting: one.putting.saturating_add(other.putting),
        getting: one.getting.saturating_add(other.getting),
        got: one.got.saturating_add(other.got),
    }
}

// The same of one round, whose transactions are numbered from this one on.
fn play_round<F: Form<L>, B: ClusterName, L: Layer, R: Wait + Clock>(
    rt: &R,
    alloc: Global,
    session: &mut Session<B, L>,
    first: u32,
    count: u32,
) -> Result<Took, Fault> {
    let givens = givens_of(alloc, first, count)?;
    let begin = Instant::now(rt)?;
    put_all::<F, B, L, R>(rt, alloc, session, givens)?;
    let putting = begin.elapsed(rt)?;
    let begin = Instant::now(rt)?;
    let got = get_all::<F, B, L, R>(rt, alloc, session, count)?;
    let getting = begin.elapsed(rt)?;
    Ok(Took {
        putting,
        getting,
        got,
    })
}

// What the transactions of a round put.
fn givens_of(alloc: Global, first: u32, count: u32) -> Result<Vec<Given>, Refusal> {
    let mut givens = Vec::new(alloc);
    for place in 0..count {
        givens.push(given_of(alloc, first.saturating_add(place))?)?;
    }
    Ok(givens)
}

// What the transaction with the number puts. A record's value is one above that of the round before.
fn given_of(alloc: Global, number: u32) -> Result<Given, Refusal> {
    let text = Bytes::copy_from_slice(alloc, &text_of(number % ROUND))?;
    let value = number.saturating_add(number / ROUND) % VALUES;
    Ok(Given { text, value })
}

fn put_all<F: Form<L>, B: ClusterName, L: Layer, R: Wait>(
    rt: &R,
    alloc: Global,
    session: &mut Session<B, L>,
    givens: Vec<Given>,
) -> Result<(), Refusal> {
    for given in givens {
        F::put(rt, alloc, session, given)?;
    }
    Ok(())
}

// How much so many transactions get, with one value after another.
fn get_all<F: Form<L>, B: ClusterName, L: Layer, R: Wait>(
    rt: &R,
    alloc: Global,
    session: &mut Session<B, L>,
    count: u32,
) -> Result<usize, Refusal> {
    let mut got: usize = 0;
    for place in 0..count {
        got = got.saturating_add(F::get(rt, alloc, session, place % VALUES)?);
    }
    Ok(got)
}
