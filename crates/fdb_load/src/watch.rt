// What the main thread does while clients run: it moves keys between resolvers, and tells how far the clients are.
ghost use Rattle.std.specs.Prelude.{◌<◌, IfErr};
ghost use Rattle.fdb_load.specs.Stops.{StopsWith};

use crate::names::range_of;
use crate::tally::Tally;
use crate::workload::Workload;
use fdb_keys::Refusal;
use fdb_print::{Sink, Stop};
use fdb_runtime::{ClusterName, Database};
use rand_core::Rng;
use rand_pcg::Pcg32;
use std::alloc::Global;
use std::sync::Wait;
use std::time::{Clock, Duration, Instant};
use std::{io, thread};

/// How often keys are moved, where there is more than one resolver.
#[derive(Clone, Copy)]
pub struct Pace {
    /// How many milliseconds lie between two moves at least.
    pub millis: u64,
    /// How many tries end between them at least. So moves don't pile up where entries are slow to come, each of which
    /// takes all that were asked for before it.
    pub tries: u64,
}

/// What is watched.
#[derive(Clone, Copy)]
pub(crate) struct Run {
    /// How many clients run.
    pub(crate) clients: u64,
    /// How many transactions they try.
    pub(crate) txns: u64,
    /// What these do.
    pub(crate) workload: Workload,
    /// How many resolvers there are.
    pub(crate) resolvers: u32,
    /// How often keys are moved.
    pub(crate) pace: Pace,
    /// Whether it tells how far the clients are.
    pub(crate) progress: bool,
}

/// Watches until all clients have ended. It goes on where they go on by themselves, so where a move is refused or a
/// write fails it ends at once, and they don't.
pub(crate) fn watch<B: ClusterName + Send + Sync + 'static, R: Wait + Clock, E: Sink>(
    rt: &R,
    alloc: Global,
    database: &Database<B>,
    run: &Run,
    tally: &Tally,
    err: &mut E,
) -> Result<(), Stop>
    ensures { IfErr result (StopsWith E.errors) }
{
    let mut random = Pcg32::new(u64::MAX, 0);
    let mut next = run.pace.tries;
    let mut teller = Teller::new(rt);
    for _look in rt.forever() {
        if tally.ended() >= run.clients {
            return Ok(());
        }
        if tally.tried() >= next {
            next = tally.tried().saturating_add(run.pace.tries);
            move_some(rt, alloc, database, run, &mut random)?;
        }
        if run.progress {
            teller.tell(rt, run.txns, tally, err)?;
        }
        thread::sleep(rt, Duration::from_millis(run.pace.millis));
    }
    Ok(())
}

// Hands a random range of the workload's keys over to a random resolver, if there is more than one.
fn move_some<B: ClusterName + Send + Sync + 'static, R: Wait>(
    rt: &R,
    alloc: Global,
    database: &Database<B>,
    run: &Run,
    random: &mut Pcg32,
) -> Result<(), Stop>
    ensures { IfErr result (StopsWith (λ _. ⊥)) }
{
    if run.resolvers < 2 {
        return Ok(());
    }
    let keys = u32::from(run.workload.keys());
    let begin = random.next_u32() % keys;
    let end = begin + 1 + random.next_u32() % (keys - begin);
    let to = random.next_u32() % run.resolvers;
    match range_of(alloc, run.workload, begin as u8, end as u8) {
        Ok(range) => refused(database.move_range(rt, &range, to)),
        Err(why) => Err(Stop::Refused(why)),
    }
}

fn refused(answer: Result<(), Refusal>) -> Result<(), Stop>
    ensures { IfErr result (StopsWith (λ _. ⊥)) }
{
    match answer {
        Ok(()) => Ok(()),
        Err(why) => Err(Stop::Refused(why)),
    }
}

// When it told last, and how many transactions were committed then. A clock that can't be read tells nothing.
#[derive(Clone, Copy)]
struct Teller {
    last: Option<Instant>,
    committed: u64,
}

impl Teller {
    fn new<R: Clock>(rt: &R) -> Self {
        Teller {
            last: Instant::now(rt).ok(),
            committed: 0,
        }
    }

    // Tells once a second how many transactions ended, and how many were committed a second since then.
    fn tell<R: Clock, E: Sink>(
        &mut self,
        rt: &R,
        txns: u64,
        tally: &Tally,
        err: &mut E,
    ) -> io::Result<()>
        ensures { IfErr result E.errors }
    {
        let Some(millis) = self.millis(rt) else {
            return Ok(());
        };
        if millis < 1_000 {
            return Ok(());
        }
        let tried = tally.tried();
        let committed = tally.committed();
        let rate = rate_of(committed.saturating_sub(self.committed), millis);
        *self = Teller {
            last: Instant::now(rt).ok(),
            committed,
        };
        writeln!(
            err,
            "{tried} of {txns} transactions, {rate} committed a second"
        )
    }

    // How many milliseconds ago it told last.
    fn millis<R: Clock>(&self, rt: &R) -> Option<u128> {
        let last = self.last?;
        Some(last.elapsed(rt).ok()?.as_millis())
    }
}

// How many a second, where so many came in so many milliseconds.
fn rate_of(count: u64, millis: u128) -> u128
    requires { 0 < millis }
{
    u128::from(count) * 1_000 / millis
}
