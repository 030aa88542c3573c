//! What the machine promises, at every step and over every run.
ghost use Rattle.fdb_machine.specs.headline.AnswerExamples.{OtherVersionsAreNoAnswers, OtherVerdictsAreNoAnswers};
ghost use Rattle.fdb_machine.specs.headline.AnswerExamples.{EarlyDecisionsAreNoAnswers, EarlyMessagesAreNoAnswers};
ghost use Rattle.fdb_machine.specs.headline.AnswerExamples.{OtherOutcomesAreNoAnswers, MessagesAreDue};
ghost use Rattle.fdb_machine.specs.headline.Answers.{AnsweredByTheTrace};
ghost use Rattle.fdb_machine.specs.headline.Books.{TracesTellBooks, EntriesAreAnsweredOnce};
ghost use Rattle.fdb_machine.specs.headline.Due.{WhatIsDueIsAccepted, DecisionsWait};
ghost use Rattle.fdb_machine.specs.headline.Examples.{OnlyTheFirstIsSerialized, ReadOnlyAtItsVersion, AfterAVersion};
ghost use Rattle.fdb_machine.specs.headline.Examples.{OnlyOrdinaryReadsCount, BegunByServing, ForgetfulRolesDoNotKeep};
ghost use Rattle.fdb_machine.specs.headline.Examples.{ReadOffTheTrace, Traced, ShardsGoOnAndForget};
ghost use Rattle.fdb_machine.specs.headline.Examples.{EachServedVersionCounts};
ghost use Rattle.fdb_machine.specs.headline.Failing.{AnswersAreTheMachines, FailedRolesAnswer, FailedRolesStayFailed};
ghost use Rattle.fdb_machine.specs.headline.Failing.{NoneFailsWithMemory, OnlyTheTakerFails, RolesFailForMemory};
ghost use Rattle.fdb_machine.specs.headline.Failing.{RefusedStepsLeaveTheMachine, WorkingRolesAnswer};
ghost use Rattle.fdb_machine.specs.headline.FailureExamples.{FailedRolesRefuse, ReadsAskTheirShards, ReadersUseNoProxy};
ghost use Rattle.fdb_machine.specs.headline.FailureExamples.{TheStepsOwnRoleFails, WhoAnswersHasNotFailed};
ghost use Rattle.fdb_machine.specs.headline.FailureExamples.{FailedProxiesTellNothing};
ghost use Rattle.fdb_machine.specs.headline.Headline.{AcknowledgedAreSerialized};
ghost use Rattle.fdb_machine.specs.headline.KeepingExamples.{FailuresAreShown, OtherLogsAreInNoWorld};
ghost use Rattle.fdb_machine.specs.headline.KeepingExamples.{OtherMessagesAreInNoWorld, OtherResolversAreInNoWorld};
ghost use Rattle.fdb_machine.specs.headline.KeepingExamples.{OtherSequencersAreInNoWorld, OtherShardsAreInNoWorld};
ghost use Rattle.fdb_machine.specs.headline.MoveExamples.{TheSpanBeginsAtTheHorizon, TheLaterMoveCounts};
ghost use Rattle.fdb_machine.specs.headline.MoveExamples.{MovesTakeEffectWithTheNextEntry};
ghost use Rattle.fdb_machine.specs.headline.HeadlineExamples.{EachLogCounts, EachShardServes, LaterWritersAreAfter};
ghost use Rattle.fdb_machine.specs.headline.HeadlineExamples.{NobodyIsToldTwice, OnlyTheAskedForIsSerialized};
ghost use Rattle.fdb_machine.specs.headline.HeadlineExamples.{OnlyTheCommittedAreSerialized, SessionsAreAtOnePlace};
ghost use Rattle.fdb_machine.specs.headline.Promises.{RefusalsChangeNothing, GrantsCommitted};
ghost use Rattle.fdb_machine.specs.headline.Promises.{CommittedIsGreatestReported, GetsFromTheRun, GetsRefused};
ghost use Rattle.fdb_machine.specs.headline.Promises.{RangeReadsFromTheRun, RangeReadsRefused, AcknowledgedAreLogged};
ghost use Rattle.fdb_machine.specs.headline.Promises.{UnreadableKeysAskNoShard};
ghost use Rattle.fdb_machine.specs.headline.ReadingExamples.{EachOperationIsNoted, ReadAtTwoProxies, ReadOffTheRoles};
ghost use Rattle.fdb_machine.specs.headline.RealTime.{RealTime};
ghost use Rattle.fdb_machine.specs.headline.ScriptExamples.{WorkedScriptsAreTraces};
ghost use Rattle.fdb_machine.specs.headline.Sessions.{SessionsAreWhereTheirStatesSay, AsksAreRefused};
ghost use Rattle.fdb_machine.specs.headline.Traces.{TracesDetermineTheMachine, WorldsShowWhatIsTold};
ghost use Rattle.fdb_machine.specs.headline.UnreadableExamples.{PlaceholdersAreNoAnswers, UnreadableReadsAreRefused};
ghost use Rattle.fdb_machine.specs.headline.WindowExamples.{WindowsHoldFromTheNextEntry, WindowsAreRead};
ghost use Rattle.fdb_roles.specs.RoleExamples.{AnEmptyShardDoesNotServe};

/// A refused step changes nothing.
pub fn refusals_change_nothing()
    ensures { RefusalsChangeNothing }
{}

/// A grant tells each session that asks there the committed version, and over every trace that is the
/// greatest version that was reported, 0 where there is none.
pub fn grants_are_the_greatest_reported_version()
    ensures granted { GrantsCommitted }
    ensures greatest { CommittedIsGreatestReported }
{}

/// An accepted read answers what stands at the key after the transaction's own operations, executed on
/// the serial map at the transaction's read version; and a read of a range its first
/// pairs there, or its last ones, up to the limit.
pub fn gets_answer_as_the_program_run_on_the_map_at_its_read_version()
    ensures keys { GetsFromTheRun }
    ensures ranges { RangeReadsFromTheRun }
{}

/// Over every trace, each accepted step is answered by what the trace told before: a grant gives the greatest version
/// that was reported; a read what stands at the key, or in the range, after the transaction's own operations, executed
/// on the serial map at its read version; a transaction that is done when it is submitted wrote nothing; a seal gives
/// the number of the entry, its version, the previous one and how many places it has; a report the greatest version
/// that was reported; and an answer tells each client of the batch once, by place, what became of its transaction by
/// the rule: its commit version and place exactly where it is committed, that it was too old exactly where it is, and
/// else of a conflict. The transaction is acknowledged exactly where it is committed.
pub fn accepted_steps_are_answered_by_what_the_trace_told_before()
    ensures { AnsweredByTheTrace }
{}

/// A read of an open transaction is refused as `FutureVersion` exactly where its own operations don't decide the key
/// and the shard that holds the key still serves the read version but hasn't reached it, and as `TransactionTooOld`
/// exactly where they don't and that shard no longer serves it. It is refused as `AccessedUnreadable` exactly where the
/// last of its own operations that decides the key is a `Stamped`, and asks no shard then, whichever has failed. Any
/// other key that they decide is answered.
pub fn gets_are_refused_exactly_where_the_shard_does_not_serve()
    ensures refused { GetsRefused }
    ensures unreadable { UnreadableKeysAskNoShard }
{}

/// A read of a range in an open transaction is refused as `TransactionTooOld` exactly where some point of the range is
/// held by a shard that no longer serves the read version. Where there is a shard for each piece between the splits, as
/// in every world, it is refused as `FutureVersion` exactly where no point is held by one of those, and some point is
/// held by a shard that still serves the version but hasn't reached it. The shards are asked for the range whole,
/// whatever the limit. Where each point is held by a shard that serves the version, it is refused as
/// `AccessedUnreadable` exactly where some point of what it scans is unreadable, and else answered, so where the range
/// has no point too. What it scans ends with the last pair that it gives, if the limit ends it.
pub fn range_reads_are_refused_exactly_where_a_shard_of_the_range_does_not_serve()
    ensures { RangeReadsRefused }
{}

/// A trace determines the machine: a world that stands for a list of steps with their answers shows the machine
/// that the list takes the first one to, an accepted step after another. And what the machine has of the entries, of
/// the transaction that each session has open and the number of its next one, of transactions that wait, are in flight
/// or are acknowledged, of versions that were reported, and of the window, is what is read off the steps and their
/// answers.
pub fn traces_determine_the_machine()
    ensures determined { TracesDetermineTheMachine }
    ensures told { WorldsShowWhatIsTold }
{}

/// Over every trace, each acknowledged transaction is serialized at its spot. At a spot in an entry it is committed
/// there, at the spot's place and under its version; at a read-only spot it wrote nothing, and is ordered after
/// the entries up to its read version. Each of its ordinary reads was answered as when the committed
/// transactions before the spot run one at a time from the empty map, by version and by place in the batch.
pub fn acknowledged_transactions_are_serialized_at_their_spots()
    ensures { AcknowledgedAreSerialized }
{}

/// Real time, over every trace: a transaction that begins after another was acknowledged reads at that one's version or
/// a greater one, and is never ordered before it.
pub fn who_begins_after_an_acknowledgement_is_ordered_after_it()
    ensures { RealTime }
{}

/// After every trace the steps that deliver and take messages are accepted where they are due, unless memory runs out
/// in them or they use a role that has failed, and no others, as what accepted steps are answered says: a resolver
/// takes the next entry of the book, and a log the next decided one; what one of them says of an entry that it took
/// reaches the proxy that waits for it, once; and a proxy decides where the verdicts came of each resolver that is
/// asked. Else it is told to wait for the least resolver of which they are missing.
pub fn steps_of_roles_are_accepted_where_they_are_due()
    ensures due { WhatIsDueIsAccepted }
    ensures waits { DecisionsWait }
{}

/// What the headline says of small worlds: which transactions are serialized at which spots and which aren't, who is
/// ordered after a version, what an empty shard would have to answer, which reads count, who has begun, what a role
/// that forgets would have to keep, what is read off steps of every kind and of a trace with a conflict, which answers
/// a trace has, what a shard of two pulls, forgets and pops and at which versions it answers from the run, who is asked
/// where keys go over from one resolver to another, which steps are refused where a role has failed, which roles may
/// fail in a step in which memory runs out, that a role which answers hasn't failed, what a commit proxy tells of
/// its batch, from which entry on a window that is set holds, and which reads of a stamped key are refused.
pub fn worked_examples()
    ensures spots { OnlyTheFirstIsSerialized }
    ensures read_only { ReadOnlyAtItsVersion }
    ensures after { AfterAVersion }
    ensures shard { AnEmptyShardDoesNotServe }
    ensures ordinary { OnlyOrdinaryReadsCount }
    ensures begun { BegunByServing }
    ensures roles { ForgetfulRolesDoNotKeep }
    ensures readings { ReadOffTheTrace }
    ensures traces { Traced }
    ensures shards { ShardsGoOnAndForget }
    ensures served { EachServedVersionCounts }
    ensures operations { EachOperationIsNoted }
    ensures proxies { ReadAtTwoProxies }
    ensures progress { ReadOffTheRoles }
    ensures moves { MovesTakeEffectWithTheNextEntry }
    ensures span { TheSpanBeginsAtTheHorizon }
    ensures overlap { TheLaterMoveCounts }
    ensures scripts { WorkedScriptsAreTraces }
    ensures versions { OtherVersionsAreNoAnswers }
    ensures verdicts { OtherVerdictsAreNoAnswers }
    ensures decisions { EarlyDecisionsAreNoAnswers }
    ensures messages { EarlyMessagesAreNoAnswers }
    ensures outcomes { OtherOutcomesAreNoAnswers }
    ensures due { MessagesAreDue }
    ensures refused { FailedRolesRefuse }
    ensures asked { ReadsAskTheirShards }
    ensures readers { ReadersUseNoProxy }
    ensures own { TheStepsOwnRoleFails }
    ensures answered { WhoAnswersHasNotFailed }
    ensures in_flight { FailedProxiesTellNothing }
    ensures windows { WindowsHoldFromTheNextEntry }
    ensures horizons { WindowsAreRead }
    ensures unreadable { UnreadableReadsAreRefused }
    ensures placeholders { PlaceholdersAreNoAnswers }
{}

/// Over every trace the entries are a book: their versions rise, and each previous version is that of the entry before;
/// their horizons never fall, and each lies below its entry's version; each transaction reads below its entry's
/// version; moves go to resolvers that exist; and no two places, of one entry or of two, are of transactions with the
/// same id. Each transaction's write set has all that its mutations name. The clients of an entry are told at most
/// once.
pub fn entries_of_traces_are_books()
    ensures books { TracesTellBooks }
    ensures answered { EntriesAreAnsweredOnce }
{}

/// Over every trace each session is where its state says: it asks exactly where it is among those who ask at a
/// read-version proxy, and waits exactly where one of its transactions waits at a commit proxy or is in a batch in
/// flight; and it is there once at most. So a session that asks is refused as `WrongState` exactly where it asks, or
/// waits for an answer, at one of the proxies.
pub fn sessions_are_where_their_states_say()
    ensures places { SessionsAreWhereTheirStatesSay }
    ensures refused { AsksAreRefused }
{}

/// Over every trace every log has taken each entry with an acknowledged place, so what is acknowledged is in all logs.
pub fn acknowledged_transactions_are_logged()
    ensures { AcknowledgedAreLogged }
{}

/// What the headline's own words refuse, each example for one thing. A transaction that is too old isn't serialized at
/// its place, though its read was right; and at a place none is that sets another value, read another key, added a
/// range to its write set, or read at another version than the one that stands there. A writer that begins after an
/// acknowledgement and read below its version isn't after it. An entry that one log lacks isn't taken by all. The
/// clients of an entry aren't told twice. A session isn't at two places. A second shard that has what nobody wrote
/// doesn't serve.
pub fn worked_headline()
    ensures committed { OnlyTheCommittedAreSerialized }
    ensures asked_for { OnlyTheAskedForIsSerialized }
    ensures after { LaterWritersAreAfter }
    ensures logged { EachLogCounts }
    ensures told { NobodyIsToldTwice }
    ensures places { SessionsAreAtOnePlace }
    ensures shards { EachShardServes }
{}

/// What the roles of a small world keep, after one entry which all took, and what they keep in no such world, each
/// example for one thing: another flag of a role that has failed than the world shows; a sequencer with another ticket,
/// version, pending move, window or horizon, or with a move that its proxy has yet to learn; a resolver of another
/// number or version, or with other writes than those of its entries; an entry without its part, without its message
/// though it is decided, or with one though it isn't; a log of another number or version, or without its message; a
/// shard of another number, range, floor or version, or with what nobody wrote; and one role less than there are. A
/// role that has failed may keep anything.
pub fn worked_worlds()
    ensures failed { FailuresAreShown }
    ensures sequencers { OtherSequencersAreInNoWorld }
    ensures resolvers { OtherResolversAreInNoWorld }
    ensures messages { OtherMessagesAreInNoWorld }
    ensures logs { OtherLogsAreInNoWorld }
    ensures shards { OtherShardsAreInNoWorld }
{}

/// A role fails only where memory runs out in a step, and stays failed: over each step and over any run of steps what
/// has failed is failed afterwards, and over a step that is answered otherwise than that memory ran out nothing fails.
/// So over every trace in which memory never ran out no role has failed.
pub fn roles_fail_for_memory_alone_and_stay_failed()
    ensures steps { RolesFailForMemory }
    ensures stay { FailedRolesStayFailed }
    ensures traces { NoneFailsWithMemory }
{}

/// Over a step one role may fail, the one that takes what the step hands it: the commit proxy that seals, the resolver
/// or the log that takes an entry, or the shard that pulls. Each other role is as it was, and over a step of another
/// kind all are.
pub fn the_role_that_takes_the_step_alone_may_fail()
    ensures { OnlyTheTakerFails }
{}

/// A step is the machine's where none of the roles that it comes to has failed: unless memory runs out in it, it is
/// answered as the machine answers it, and leaves the machine that this goes on to. Where one of them has failed, it is
/// refused as `Failed`, but as `Unknown` where the machine refuses it so. So no step is refused otherwise than by the
/// machine, for want of memory, or because a role has failed that it comes to; and a refused step leaves the machine as
/// it was.
pub fn steps_are_the_machines_where_their_roles_work()
    ensures working { WorkingRolesAnswer }
    ensures failed { FailedRolesAnswer }
    ensures answers { AnswersAreTheMachines }
    ensures refused { RefusedStepsLeaveTheMachine }
{}
