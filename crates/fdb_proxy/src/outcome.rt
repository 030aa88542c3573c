/// What became of a submitted transaction.
#[derive(Clone, Copy, Debug, PartialEq, Eq)]
pub enum Outcome {
    /// It is committed, at a version and a place of the version's batch.
    Commit { version: u64, place: u32 },
    /// Something that it read was written since its read version.
    Conflict,
    /// Its reads lie too far back to be judged.
    Old,
}
