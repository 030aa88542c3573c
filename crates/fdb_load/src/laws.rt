//! What workloads leave, for the reader of its definitions.
ghost use Rattle.fdb_load.specs.Examples.{WorkedPlaces, WorkedRings, WorkedSums, WorkedWorkloads};

/// Which sum numbers have, where steps from key to key lead, what workloads leave, and which places are before others,
/// by examples.
pub fn worked_examples()
    ensures sums { WorkedSums }
    ensures rings { WorkedRings }
    ensures workloads { WorkedWorkloads }
    ensures places { WorkedPlaces }
{}
