use fdb_keys::Refusal;

/// Why a client ends before it has made all its tries.
#[derive(Clone, Copy)]
pub(crate) enum Halt {
    /// A call was refused in a way that ends the run.
    Refused(Refusal),
    /// A key has a value that no transaction of the workload gives it.
    Broken,
}

impl From<Refusal> for Halt {
    ghost use Rattle.std.specs.Prelude.{◌≡◌};
    ghost use Rattle.fdb_load.specs.declared.halt.Halt.TheVariants as halt;

    ghost from_gives = { λ why made. made ≡ halt.Refused why };

    fn from(why: Refusal) -> Halt {
        Halt::Refused(why)
    }
}
