//! What the rule over the book says of resolvers' verdicts and of the messages for logs, for the proofs of the crates
//! that use the proxies.
ghost use Rattle.fdb_proxy.specs.CallExamples.{WorkedSubmitting, WorkedSealing, WorkedVerdict, WorkedDeciding};
ghost use Rattle.fdb_proxy.specs.CallExamples.{WorkedConflicts, WorkedLogged, WorkedFinishing};
ghost use Rattle.fdb_proxy.specs.ConfigExamples.{WorkedConfigs, WorkedNumbers, WorkedGrants, WorkedSpans};
ghost use Rattle.fdb_proxy.specs.Examples.{WorkedSubmits, WorkedSeals, WorkedStages, WorkedTickets, WorkedVerdicts};
ghost use Rattle.fdb_proxy.specs.Examples.{WorkedDecisions, WorkedLogging};
ghost use Rattle.fdb_proxy.specs.MessageLaws.{MessagesHoldTheCommitted};
ghost use Rattle.fdb_proxy.specs.StampExamples.{WorkedStamps};
ghost use Rattle.fdb_proxy.specs.VerdictLaws.{BatchesAreJudgedByTheRule, EntriesAreJudgedByTheRule, ItemsWhereAsked};
ghost use Rattle.fdb_proxy.specs.VerdictLaws.{BatchesAreDecidedByTheRule, EntriesAreDecidedByTheRule};
ghost use Rattle.fdb_proxy.specs.VerdictLaws.{BatchesAreFoundByTheRule, UnaskedFindNothing};
ghost use Rattle.fdb_proxy.specs.VerdictLaws.{ConflictsAreJoinedByTheRule};

/// A resolver that is sent its part of a batch, and has forgotten what lies below the horizon, says of the batch
/// what the rule over the book says, and keeps the versions of which that rule speaks; so it does of an entry.
pub fn what_a_resolver_says_of_its_part_is_the_rule()
    ensures batches { BatchesAreJudgedByTheRule }
    ensures entries { EntriesAreJudgedByTheRule }
{}

/// A part has items exactly where its resolver is asked about some place of the batch.
pub fn parts_have_items_where_their_resolver_is_asked()
    ensures { ItemsWhereAsked }
{}

/// The verdicts of the resolvers that are asked decide each place of a batch, and so of an entry, as the rule
/// over all resolvers does; who isn't asked may be silent.
pub fn verdicts_of_the_asked_decide_as_the_rule()
    ensures batches { BatchesAreDecidedByTheRule }
    ensures entries { EntriesAreDecidedByTheRule }
{}

/// What a resolver that is sent its part of a batch finds of places in conflict is what the rule finds at it, and who
/// is asked about no place finds nothing. Joined, it is of each place the conflict set by the rule, and of an old one
/// nothing.
pub fn what_resolvers_find_is_joined_to_the_conflict_sets()
    ensures found { BatchesAreFoundByTheRule }
    ensures unasked { UnaskedFindNothing }
    ensures joined { ConflictsAreJoinedByTheRule }
{}

/// Once the rule's outcomes of an entry are decided, each log is sent just the mutations of the entry's committed
/// transactions of which it keeps a tag, each with the stamp of its commit.
pub fn logs_are_sent_what_the_committed_write()
    ensures { MessagesHoldTheCommitted }
{}

/// Why a commit proxy's calls are refused, and what verdicts decide, by examples: which refusal comes first, which
/// batches are given up, at which stages one is in flight, which verdicts and acknowledgements are stale, and what a
/// batch waits for.
pub fn worked_refusals()
    ensures submits { WorkedSubmits }
    ensures seals { WorkedSeals }
    ensures stages { WorkedStages }
    ensures tickets { WorkedTickets }
    ensures verdicts { WorkedVerdicts }
    ensures decisions { WorkedDecisions }
    ensures logging { WorkedLogging }
{}

/// What a commit proxy is after a call, by examples: who waits and who is in flight, what it heard of resolvers and of
/// logs, and what becomes of a batch.
pub fn worked_calls()
    ensures submitting { WorkedSubmitting }
    ensures sealing { WorkedSealing }
    ensures verdict { WorkedVerdict }
    ensures deciding { WorkedDeciding }
    ensures conflicts { WorkedConflicts }
    ensures logged { WorkedLogged }
    ensures finishing { WorkedFinishing }
{}

/// What logs are told of mutations that wait for a stamp, by examples: the stamps of two places of a batch differ, what
/// doesn't commit is not told, and what doesn't wait stays as it is.
pub fn worked_stamps()
    ensures { WorkedStamps }
{}

/// Which configurations are legal, which proxies there are, which versions those who ask are granted, and who is asked
/// about reads, by examples.
pub fn worked_examples()
    ensures configs { WorkedConfigs }
    ensures numbers { WorkedNumbers }
    ensures grants { WorkedGrants }
    ensures spans { WorkedSpans }
{}
