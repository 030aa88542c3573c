//! Which shards a mutation concerns, and what messages leave, for the proofs of the crates that use these types.
ghost use Rattle.fdb_storage.specs.Examples.{WorkedReads, WorkedParts, WorkedStamped, WorkedApplies};
ghost use Rattle.fdb_storage.specs.Examples.{WorkedFloors};
ghost use Rattle.fdb_storage.specs.LogMessages.{LogsAreSentTheMessages, MessagesAboveAVersion};
ghost use Rattle.fdb_storage.specs.ShardMaps.{TagsAreTheShards};
ghost use Rattle.fdb_storage.specs.StampedMessages.{NoStampedIsSent};
ghost use Rattle.fdb_storage.specs.ValueExamples.{WorkedValues, WorkedPages, WorkedApplied, WorkedForgotten};
ghost use Rattle.fdb_storage.specs.ValueExamples.{WorkedFollowed, WorkedKept, WorkedCopied, WorkedReplays};

/// A mutation has the tag of a shard exactly where it names a point of the shard's range.
pub fn tags_are_the_shards_that_a_mutation_concerns()
    ensures { TagsAreTheShards }
{}

/// The message of an entry for a log has, for each tag that the log keeps, the mutations of the entry's committed
/// transactions that meet the range of the tag's shard: it is the message of the entry for that shard. Of a shard's
/// messages, those above the version of an entry are those of the entries after it.
pub fn logs_are_sent_the_messages_of_their_tags()
    ensures sent { LogsAreSentTheMessages }
    ensures above { MessagesAboveAVersion }
{}

/// No shard is sent a mutation that waits for a stamp: the messages of entries have none, whatever was seen before
/// them.
pub fn no_shard_is_sent_what_waits_for_a_stamp()
    ensures { NoStampedIsSent }
{}

/// Why calls are refused, by examples: which refusal comes first, and where a shard serves.
pub fn worked_refusals()
    ensures reads { WorkedReads }
    ensures parts { WorkedParts }
    ensures stamped { WorkedStamped }
    ensures applies { WorkedApplies }
    ensures floors { WorkedFloors }
{}

/// What a shard answers at each version, which pages it gives, what it answers once it applied messages or raised its
/// floor, how many versions it keeps, what is copied of it, and what peeks one after another cover, by examples.
pub fn worked_examples()
    ensures values { WorkedValues }
    ensures followed { WorkedFollowed }
    ensures pages { WorkedPages }
    ensures applied { WorkedApplied }
    ensures forgotten { WorkedForgotten }
    ensures kept { WorkedKept }
    ensures copied { WorkedCopied }
    ensures replays { WorkedReplays }
{}
