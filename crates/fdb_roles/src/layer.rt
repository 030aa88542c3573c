ghost use Rattle.std.specs.FinMap.{empty};
ghost use Rattle.fdb_mutations.specs.Maps.{Map};
ghost use Rattle.fdb_client.specs.declared.program.Transcript.{Transcript};
ghost use Rattle.fdb_roles.specs.Layers.{Keeps, BookKeeps};

/// What is built on the store: which transactions there are, what they keep of the map that they share, and that they
/// keep it.
pub trait Layer {
    /// The transcripts of its transactions.
    ghost allows: { Transcript → Type 0 };

    /// What holds of the map between any two of its transactions.
    ghost holds: { Map → Type 0 };

    /// It holds of the empty map.
    fn starts()
        ensures { holds empty };

    /// Each of its transactions keeps it, where the reads were answered as on the map.
    fn keeps()
        ensures { Keeps allows holds };
}

/// What each transaction of a layer keeps, the run keeps: of a book of whose transactions each one is the layer's, and
/// was answered as on the serial map at its read version, the serial map has it at every version.
pub fn a_book_keeps_what_each_transaction_keeps<L: Layer>()
    ensures { BookKeeps L.allows L.holds }
{
    L::starts();
    L::keeps();
}
