//! What is counted of drawn steps, and what lines of a script write, for the reader of the definitions.
ghost use Rattle.fdb_play.specs.random.Examples.{WorkedCounts, WorkedNotes, WorkedReports, WorkedSteps};
ghost use Rattle.fdb_play.specs.random.Runs.{RunsCountSteps};
ghost use Rattle.fdb_play.specs.script.Examples.{WorkedStampedLines};

/// What is counted of a run has each of its steps once: as refused, with its code, or as accepted, with its kind.
pub fn a_run_counts_each_step_once()
    ensures { RunsCountSteps }
{}

/// What is counted of a step that is refused, and of one that is answered this or that, and what comes to be printed
/// of it, by examples.
pub fn worked_examples()
    ensures counts { WorkedCounts }
    ensures notes { WorkedNotes }
    ensures steps { WorkedSteps }
    ensures reports { WorkedReports }
{}

/// Which lines write a stamped value, and which write nothing, by examples.
pub fn worked_lines()
    ensures { WorkedStampedLines }
{}
