//! What logs refuse, and how many mutations they hold, for those who read the definitions.
ghost use Rattle.fdb_log.specs.Examples.{WorkedPushes, WorkedPeeks, WorkedPops, WorkedNumbers};
ghost use Rattle.fdb_log.specs.Examples.{WorkedHeldOfTwo, WorkedHeldOfOne};

/// Why calls are refused, by examples: each limit, and which refusal comes first.
pub fn worked_refusals()
    ensures pushes { WorkedPushes }
    ensures peeks { WorkedPeeks }
    ensures pops { WorkedPops }
    ensures numbers { WorkedNumbers }
{}

/// How many mutations are held, by examples: those of a log with one tag of its own, and a mutation that two tags of
/// one log have.
pub fn worked_held()
    ensures of_two { WorkedHeldOfTwo }
    ensures of_one { WorkedHeldOfOne }
{}
