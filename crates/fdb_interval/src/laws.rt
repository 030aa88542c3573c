//! What the definitions say of examples.
ghost use Rattle.fdb_interval.specs.Examples.{WorkedNewer, WorkedPieces, WorkedVersions};

/// Which version is at a point, and how many pieces there are, by examples.
pub fn worked_versions()
    ensures { WorkedVersions }
{}

/// Which ranges with versions are pieces, and which aren't, by examples.
pub fn worked_pieces()
    ensures { WorkedPieces }
{}

/// Which parts of a range have newer versions, by examples.
pub fn worked_newer()
    ensures { WorkedNewer }
{}
