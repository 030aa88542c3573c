// Who watches a run. What is drawn and answered doesn't depend on it.
use fdb_print::Sink;
use std::io;
use std::time::{Clock, Duration, Instant};

/// Someone who is told how far a run is.
pub trait Watch {
    ghost use Rattle.std.specs.Prelude.{⊤, IfErr};
    ghost use Rattle.std.specs.declared.io.Error.{Error};

    // The errors that telling may answer, which may be all.
    ghost errors: { Error → Type 0 } = { λ _. ⊤ };

    /// So many of so many steps are done.
    fn tell(&mut self, done: u32, steps: u32) -> Result<(), io::Error>
        ensures { IfErr result errors };
}

/// Nobody watches.
#[derive(Clone, Copy)]
pub struct Nobody;

impl Watch for Nobody {
    ghost errors = { λ _. ⊥ };

    fn tell(&mut self, _done: u32, _steps: u32) -> Result<(), io::Error> {
        Ok(())
    }
}

/// How many steps are taken between two looks at the clock.
const STEPS: u32 = 256;

/// Prints about once a second how many steps are done. A clock that fails tells no time, and then nothing is printed.
#[derive(Drop)]
pub struct Teller<'a, C, E> {
    clock: &'a C,
    err: &'a mut E,
    told: Option<Instant>,
}

impl<'a, C: Clock, E: Sink> Teller<'a, C, E> {
    /// Prints to `err`, for the first time when a second has passed since now.
    pub fn new(clock: &'a C, err: &'a mut E) -> Self {
        Teller {
            clock,
            err,
            told: now(clock),
        }
    }

    // Whether a second has passed since it was told last; if so, it is told now.
    fn is_due(&mut self) -> bool {
        let now = now(self.clock);
        match (now, self.told) {
            (Some(now), Some(told)) => {
                let is_due = now.duration_since(told) >= Duration::from_secs(1);
                if is_due {
                    self.told = Some(now);
                }
                is_due
            }
            _ => false,
        }
    }
}

// The time, unless the clock fails.
fn now<C: Clock>(clock: &C) -> Option<Instant> {
    match Instant::now(clock) {
        Ok(now) => Some(now),
        Err(_error) => None,
    }
}

impl<'a, C: Clock, E: Sink> Watch for Teller<'a, C, E> {
    ghost errors = { E.errors };

    fn tell(&mut self, done: u32, steps: u32) -> Result<(), io::Error> {
        if done % STEPS != 0 || !self.is_due() {
            return Ok(());
        }
        writeln!(self.err, "{done} of {steps} steps")
    }
}
