ghost use Rattle.std.specs.Prelude.{◌≡◌};
ghost use Rattle.fdb_keys.specs.declared.refusal.Refusal.TheVariants.{NoMemory};
ghost use Rattle.fdb_play.specs.declared.random.ended.Ended.TheVariants.{Io, Refused};

use fdb_keys::Refusal;
use std::alloc::AllocError;
use std::io;

/// Why a run ends before its report.
#[derive(Drop)]
pub enum Ended {
    /// The world was refused, or memory ran out.
    Refused(Refusal),
    /// The one who watches could not be told how far the run is.
    Io(io::Error),
}

impl From<Refusal> for Ended {
    ghost from_gives = { λ refusal ended. ended ≡ Refused refusal };

    fn from(refusal: Refusal) -> Ended {
        Ended::Refused(refusal)
    }
}

impl From<AllocError> for Ended {
    ghost from_gives = { λ _ ended. ended ≡ Refused NoMemory };

    fn from(_error: AllocError) -> Ended {
        Ended::Refused(Refusal::NoMemory)
    }
}

impl From<io::Error> for Ended {
    ghost from_gives = { λ error ended. ended ≡ Io error };

    fn from(error: io::Error) -> Ended {
        Ended::Io(error)
    }
}
