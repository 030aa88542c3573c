//! What the check's run of a book leaves, for who reads its contracts.
ghost use Rattle.fdb_check.specs.RunExamples.{WorkedRuns};

/// What runs of a batch leave, by examples: two stamps of one batch differ, what doesn't commit leaves nothing, and
/// what waits for no stamp stays as it is.
pub fn worked_runs()
    ensures { WorkedRuns }
{}
