//! What holds of programs, for the proofs of the crates that use transactions.
ghost use Rattle.fdb_client.specs.KeyExamples.{WorkedKeyReads};
ghost use Rattle.fdb_client.specs.ProgramLaws.{CommitRequestsAreWhole, ProgramsAgree, OneMoreIsExecuted};
ghost use Rattle.fdb_client.specs.ReadExamples.{WorkedRangeReads};
ghost use Rattle.fdb_client.specs.UnreadableExamples.{WorkedUnreadable, WorkedLeft, WorkedKeyFaults};
ghost use Rattle.fdb_client.specs.UnreadableExamples.{WorkedRangeFaults};
ghost use Rattle.fdb_client.specs.Unreadable.{UnreadableCountAsPairs, StampsNeverShow};
ghost use Rattle.fdb_client.specs.WriteExamples.{WorkedWrites};

use fdb_mutations::laws::scanned_decides_what_is_given;

/// What is submitted of a transcript holds just the points that its program reads, on a map that it was executed on,
/// and those that it writes, and its mutations leave any map as executing the program leaves it.
pub fn commit_requests_have_what_their_programs_read_and_write()
    ensures { CommitRequestsAreWhole }
{}

/// On maps that have the same at every point that a program reads on one of them, the program's ordinary
/// replies are the same, and so is its read set.
pub fn programs_agree_on_maps_that_agree_where_they_read()
    ensures { ProgramsAgree }
{}

/// A transcript whose operations were each answered as on one map is the execution of its program on that map: with
/// one operation more it stays so, if that replies what the program replies there.
pub fn transcripts_of_one_map_are_its_executions()
    ensures { OneMoreIsExecuted }
{}

/// Unreadable keys count as pairs: a read of a range is refused just where one of the pairs that it would give, if each
/// unreadable key had one, is that of an unreadable key.
pub fn unreadable_keys_count_as_pairs()
    ensures { UnreadableCountAsPairs }
{
    scanned_decides_what_is_given();
}

/// What a stamp is never shows in a transaction's own reads: where none of them reads an unreadable key, the replies
/// are the same with the stamp of any commit.
pub fn stamps_never_show()
    ensures { StampsNeverShow }
{}

/// What programs that read some ranges and keys are answered, and read; what programs write, and what is submitted of a
/// transcript.
pub fn worked_programs()
    ensures ranges { WorkedRangeReads }
    ensures keys { WorkedKeyReads }
    ensures writes { WorkedWrites }
{}

/// Which keys are unreadable after some programs, what their writes leave, and which reads of keys and of ranges are
/// refused for it.
pub fn worked_unreadable_keys()
    ensures unreadable { WorkedUnreadable }
    ensures left { WorkedLeft }
    ensures keys { WorkedKeyFaults }
    ensures ranges { WorkedRangeFaults }
{}
