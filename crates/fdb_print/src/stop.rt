ghost use Rattle.std.specs.Prelude.{◌≡◌};
ghost use Rattle.fdb_print.specs.declared.stop.Stop.TheVariants.{NoMemory, Io};

use fdb_keys::Refusal;
use std::alloc::{AllocError, AllocFailed};
use std::io;

/// Why a script ends before its last line.
#[derive(Drop)]
pub enum Stop {
    /// The line of this number is none of the grammar, 0 where there is no line at all.
    BadLine(u64),
    /// The configuration was refused.
    Refused(Refusal),
    /// There is no memory for a line, for a step or for the text of an answer.
    NoMemory,
    /// The input or the output failed.
    Io(io::Error),
}

impl From<AllocError> for Stop {
    ghost from_gives = { λ _ stop. stop ≡ NoMemory };

    fn from(_error: AllocError) -> Stop {
        Stop::NoMemory
    }
}

impl<T: Drop> From<AllocFailed<T>> for Stop {
    ghost from_gives = { λ _ stop. stop ≡ NoMemory };

    fn from(_error: AllocFailed<T>) -> Stop {
        Stop::NoMemory
    }
}

impl From<io::Error> for Stop {
    ghost from_gives = { λ error stop. stop ≡ Io error };

    fn from(error: io::Error) -> Stop {
        Stop::Io(error)
    }
}
