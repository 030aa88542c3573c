//! What holds of roles at a book: of one entry more, of roles at their start, and of a commit proxy from its ticket to
//! its answers.
ghost use Rattle.fdb_roles.specs.Committed.{ReadsOfTheCommittedStand, CommittedWhereTheAskedSayYes};
ghost use Rattle.fdb_roles.specs.Fronts.{FrontsHaveOneRun};
ghost use Rattle.fdb_roles.specs.LayerExamples.{WorkedLayers};
ghost use Rattle.fdb_roles.specs.ProxyExamples.{OtherProxiesAreElsewhere};
ghost use Rattle.fdb_roles.specs.ProxyLaws.{NewProxiesHaveNoEntry, RequestsComeAndGo, ProxiesLearnTheirTickets};
ghost use Rattle.fdb_roles.specs.ProxyLaws.{ProxiesHearVerdicts, ProxiesDecideByTheRule, MessagesAreOfTheEntry};
ghost use Rattle.fdb_roles.specs.ProxyLaws.{ProxiesHearLogs, ProxiesAnswerByTheRule, AnswersAreByTheRule};
ghost use Rattle.fdb_roles.specs.ProxyLaws.{BatchesAreOfTheLastEntry};
ghost use Rattle.fdb_roles.specs.Replays.{ReplaysTellTheRun, ReplaysAreNotRefused};
ghost use Rattle.fdb_roles.specs.RoleExamples.{OtherSequencersAreElsewhere, OtherLogsAreElsewhere};
ghost use Rattle.fdb_roles.specs.RoleExamples.{OtherShardsAreElsewhere};
ghost use Rattle.fdb_roles.specs.RoleLaws.{ResolverGoesOn, OwnersGoOn, SequencerGoesOn, LogGoesOn, ShardGoesOn};
ghost use Rattle.fdb_roles.specs.RoleLaws.{EntriesGoOnByTickets, ShardGoesOnByMessages, LogGivesMessages};
ghost use Rattle.fdb_roles.specs.RoleLaws.{ShardGoesOnByItsLog};
ghost use Rattle.fdb_roles.specs.RoleStarts.{ResolverStarts, SequencerStarts, LogStarts, ShardStarts, LogPops};
ghost use Rattle.fdb_roles.specs.RoleStarts.{SequencerReports, SequencerMoves, SequencerWindows, ShardForgets};

/// The peeks of a tag that wasn't popped tell the run: where they go on from version 0, the messages that they hold
/// leave, at each point of the range of the tag's shard and each version that they cover, what stands there on the map
/// of the run of one transaction at a time. So does `replay` of them, which isn't refused at these versions.
pub fn replays_of_unpopped_peeks_tell_the_run()
    ensures told { ReplaysTellTheRun }
    ensures taken { ReplaysAreNotRefused }
{}

/// Of any book of sealed transactions: a transcript whose transaction is committed at a place, and each of whose
/// ordinary operations was answered as on the serial map at its read version, was answered as on the map right
/// before the place.
pub fn reads_of_committed_transactions_are_those_right_before_their_places()
    ensures { ReadsOfTheCommittedStand }
{}

/// Of any book of sealed transactions: a place is committed exactly where each resolver that is asked about it says
/// yes, by the rule, after the places before it.
pub fn places_are_committed_where_the_asked_say_yes()
    ensures { CommittedWhereTheAskedSayYes }
{}

/// A role that is where a book leaves it, and takes its message of one more entry, is where the book with that entry
/// leaves it. A resolver says of its part what the rule says of the entry's places. Owners learn the entry's moves. The
/// sequencer accepts the entry's ticket: what a commit proxy hasn't had yet are still the last of the moves that took
/// effect. The entry goes on from the book's entries, where each transaction of its batch read below the ticket's
/// version and has in its write set all that its mutations name, and its horizon is no less than the last one's. A log
/// keeps the entry's message for each of its tags above what was popped, which is below the entry's version. A shard
/// applies the entry's message for its tag, and answers from the run with the entry. None of the resolver, the log and
/// the shard is refused it.
pub fn roles_go_on_with_one_more_entry()
    ensures resolver { ResolverGoesOn }
    ensures owners { OwnersGoOn }
    ensures sequencer { SequencerGoesOn }
    ensures entries { EntriesGoOnByTickets }
    ensures log { LogGoesOn }
    ensures shard { ShardGoesOn }
{}

/// Two fronts of one book, of which the longer one begins with the shorter one, have one serial map at each version
/// that both reach.
pub fn fronts_of_one_book_have_one_run()
    ensures { FrontsHaveOneRun }
{}

/// A shard that is where some first entries of a book leave it, and takes the messages of further entries for its tag,
/// isn't refused them, and is where all these entries leave it. A log that took the further entries gives a peek of
/// just these messages, as many as the limit says, through the version of the last of their entries. So a shard that
/// applies what such a log gives of its tag after its version has then applied as many further entries as the peek has
/// messages.
pub fn shards_go_on_by_what_their_logs_give()
    ensures messages { ShardGoesOnByMessages }
    ensures gives { LogGivesMessages }
    ensures log { ShardGoesOnByItsLog }
{}

/// A new resolver, a new sequencer from version 0 on, a new log and a new shard are where the book without entries
/// leaves them.
pub fn new_roles_are_at_no_entry()
    ensures resolver { ResolverStarts }
    ensures sequencer { SequencerStarts }
    ensures log { LogStarts }
    ensures shard { ShardStarts }
{}

/// What a role does without an entry leaves it where the book left it: a version that was issued is reported to the
/// sequencer, a move is made with it, or its window is set, a log pops a tag through a version that it has reached, and
/// a shard raises its floor to one.
pub fn roles_stay_where_no_entry_is_taken()
    ensures reports { SequencerReports }
    ensures moves { SequencerMoves }
    ensures windows { SequencerWindows }
    ensures log { LogPops }
    ensures shard { ShardForgets }
{}

/// Which sequencers, logs and shards are where a small book leaves them, and which aren't: one that took no entry, to
/// which a later version was reported, whose moves go elsewhere or weren't made, that popped a tag too far, lacks a
/// mutation or a value, or serves from a version that it hasn't reached.
pub fn worked_roles()
    ensures sequencers { OtherSequencersAreElsewhere }
    ensures logs { OtherLogsAreElsewhere }
    ensures shards { OtherShardsAreElsewhere }
{}

/// A commit proxy that has the entries of a book through that of its last ticket has just these after each call but
/// `learn` and `fail`, where the verdicts that it takes are the rule's. A new proxy has none. A ticket with the moves
/// of the entries that it hadn't may be learnt, and isn't refused where the batch is sealed. Then the proxy has those
/// through the ticket's entry, and its parts are that entry's. A batch in flight that has an entry is that of the last
/// one: it is decided by the rule, logs are sent the entry's messages, and each transaction is answered once, by its
/// id, that it committed exactly where it is committed by the rule, that it was too old exactly where it is, and else
/// of a conflict.
pub fn commit_proxies_go_on_with_their_tickets()
    ensures new { NewProxiesHaveNoEntry }
    ensures requests { RequestsComeAndGo }
    ensures learns { ProxiesLearnTheirTickets }
    ensures in_flight { BatchesAreOfTheLastEntry }
    ensures hears { ProxiesHearVerdicts }
    ensures decides { ProxiesDecideByTheRule }
    ensures messages { MessagesAreOfTheEntry }
    ensures logged { ProxiesHearLogs }
    ensures answers { ProxiesAnswerByTheRule }
    ensures by_rule { AnswersAreByTheRule }
{}

/// Which commit proxies have the entry of a small book, and which haven't: one that failed, that had another ticket as
/// its last one, that learnt a move that no entry has, that decided otherwise than the rule, or that has a batch in
/// flight that isn't the last entry's.
pub fn worked_proxies()
    ensures { OtherProxiesAreElsewhere }
{}

/// Which transactions keep a layer in miniature, that the same stands at two keys: those that set both, by a stamp too,
/// and those that copy what they read; and which don't: those that copy what a snapshot gave, and those that set one
/// key alone.
pub fn worked_layers()
    ensures { WorkedLayers }
{}
