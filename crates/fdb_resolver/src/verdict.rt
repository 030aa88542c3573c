use fdb_keys::{Items, RangeSet};

/// What a resolver says of a transaction.
#[derive(Clone, Copy, PartialEq, Eq)]
pub enum Verdict {
    /// It may commit.
    Yes,
    /// Something that it read was written since its read version.
    Conflict,
    /// Its reads lie too far back to be judged.
    Old,
}

/// What a resolver says of a part.
#[derive(Drop)]
pub struct Verdicts {
    /// The number of the resolver.
    pub resolver: u32,
    /// The number of the entry.
    pub index: u32,
    /// For each place that it was asked about, in order, the place's number and the verdict.
    pub answers: Items<(u32, Verdict)>,
    /// For each place in conflict, in order, the place's number and the points that it read and that were written since
    /// its read version, as far as the resolver knows. A copy of a set takes O(1) time.
    pub conflicts: Items<(u32, RangeSet)>,
}
