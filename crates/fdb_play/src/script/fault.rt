ghost use Rattle.std.specs.Prelude.{◌≡◌};
ghost use Rattle.fdb_play.specs.script.Faults.{fault_of};
ghost use Rattle.fdb_play.specs.declared.script.fault.Fault.TheVariants.{NoMemory};

use fdb_keys::Refusal;
use std::alloc::{AllocError, AllocFailed};

/// Why a line gives no step and no configuration.
#[derive(Clone, Copy)]
pub enum Fault {
    /// The line is none of the grammar.
    Bad,
    /// A key or a range of the line is refused.
    Refused(Refusal),
    /// There is no memory for what the line says.
    NoMemory,
}

impl From<AllocError> for Fault {
    ghost from_gives = { λ _ fault. fault ≡ NoMemory };

    fn from(_error: AllocError) -> Fault {
        Fault::NoMemory
    }
}

impl<T: Drop> From<AllocFailed<T>> for Fault {
    ghost from_gives = { λ _ fault. fault ≡ NoMemory };

    fn from(_error: AllocFailed<T>) -> Fault {
        Fault::NoMemory
    }
}

impl From<Refusal> for Fault {
    ghost from_gives = { λ refusal fault. fault ≡ fault_of refusal };

    fn from(refusal: Refusal) -> Fault {
        match refusal {
            Refusal::NoMemory => Fault::NoMemory,
            other => Fault::Refused(other),
        }
    }
}
