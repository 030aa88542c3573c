//! What `==` says, and the laws of admission, of resolvers and of the run, for the proofs of the crates that
//! use these types.
ghost use Rattle.std.specs.Prelude.{◌≡◌};
ghost use Rattle.std.specs.Bool.{Decides};
ghost use Rattle.fdb_txn.specs.Equality.{txn_id_eq, spot_eq, move_eq, entry_eq, batch_eq, sealed_eq};
ghost use Rattle.fdb_txn.specs.declared.limits.TheConstants.{PLACE_LIMIT, RESOLVER_LIMIT, WINDOW};
ghost use Rattle.fdb_txn.specs.Limits.{place_limit, resolver_limit, window};
ghost use Rattle.fdb_txn.specs.laws.Examples.{LimitNumbers};
ghost use Rattle.fdb_txn.specs.laws.Examples.{Sizes, OneBatch, WriteSkew, FalseConflict, FormerOwner, ThereAndBack};
ghost use Rattle.fdb_txn.specs.laws.Examples.{EqualIsNotNewer, Window, OldReading, TwoMoves, Spans, AtBounds};
ghost use Rattle.fdb_txn.specs.laws.Examples.{ShardMessages, Entries, Books, Numbers, Horizon, Horizons};
ghost use Rattle.fdb_txn.specs.laws.StampExamples.{Stamps};
ghost use Rattle.fdb_txn.specs.laws.ConflictExamples.{WorkedConflicts};
ghost use Rattle.fdb_txn.specs.laws.ConflictLaws.{ConflictsAtSomeEarlier, ConflictsAreRead, ConflictsAreFound};
ghost use Rattle.fdb_txn.specs.laws.ConflictLaws.{FoundIsInConflict, FinderIsAsked, CommittedWithoutConflict};
ghost use Rattle.fdb_txn.specs.laws.ConflictLaws.{RefusedByConflict, StateFindsConflicts};
ghost use Rattle.fdb_txn.specs.laws.AdmissionLaws.{OverlapsAtSomePoint, AskedAtSomePoint, OwnedAtSomeVersion};
ghost use Rattle.fdb_txn.specs.laws.AdmissionLaws.{AdmitsWithoutConflict, CommittedByTheAsked, OldIsAsked};
ghost use Rattle.fdb_txn.specs.laws.ResolverLaws.{AskedWhereItHasAPart, LastVersionsDecide, OnePlaceMore, StateDecides};
ghost use Rattle.fdb_txn.specs.laws.ResolverLaws.{StateTakesPlace, StateForgets, ForgottenAgree};
ghost use Rattle.fdb_txn.specs.rules.Splits.{PiecesPartTheKeys};
ghost use Rattle.fdb_txn.specs.rules.Messages.{MeetsAtSomePoint, MessagesAreForTheRange, ShardsHoldTheRun};
ghost use Rattle.fdb_txn.specs.rules.Messages.{MessagesGoOn, ShardsGoOn, MessagesAreStamped};
ghost use Rattle.fdb_txn.specs.laws.SerialMapLaws.{BooksAreEntries, PlacesAreHistory, PlacesAreFoundInTheBook};
ghost use Rattle.fdb_txn.specs.laws.SerialMapLaws.{ReadsStand, EarlierPlacesStay, EarlierMapsStay, EntriesGoOn};
ghost use Rattle.fdb_txn.specs.laws.SerialMapLaws.{HorizonsPart};

use crate::batch::Batch;
use crate::entry::{Entry, Move};
use crate::sealed::Sealed;
use crate::spot::Spot;
use crate::txn_id::TxnId;

/// The most places of a batch, the most resolvers and the first window of reads are those of the definitions. What a
/// role refuses pins the other limits.
pub fn limits_are_those_of_the_definitions()
    ensures places { PLACE_LIMIT ≡ place_limit }
    ensures resolvers { RESOLVER_LIMIT ≡ resolver_limit }
    ensures window { WINDOW ≡ window }
{}

/// Two ids of transactions are equal exactly where they are the same.
pub fn equal_ids_are_the_same()
    ensures { (a b : TxnId) → Decides (txn_id_eq a b) (a ≡ b) }
{}

/// Two spots are equal exactly where they are the same.
pub fn equal_spots_are_the_same()
    ensures { (a b : Spot) → Decides (spot_eq a b) (a ≡ b) }
{}

/// Two moves are equal exactly where they are the same.
pub fn equal_moves_are_the_same()
    ensures { (a b : Move) → Decides (move_eq a b) (a ≡ b) }
{}

/// Two entries are equal exactly where they are the same.
pub fn equal_entries_are_the_same()
    ensures { (a b : Entry) → Decides (entry_eq a b) (a ≡ b) }
{}

/// Two batches are equal exactly where they are the same.
pub fn equal_batches_are_the_same()
    ensures { (a b : Batch) → Decides (batch_eq a b) (a ≡ b) }
{}

/// Two sealed transactions are equal exactly where they are the same.
pub fn equal_sealed_are_the_same()
    ensures { (a b : Sealed) → Decides (sealed_eq a b) (a ≡ b) }
{}

/// The corners suffice: two places overlap at a resolver exactly where they do so at some point; a resolver
/// is asked about a place exactly where it is on account of some point; and it owned a point within a span
/// exactly where it did so at some version of the span.
pub fn corners_suffice()
    ensures overlaps { OverlapsAtSomePoint }
    ensures asked { AskedAtSomePoint }
    ensures owned { OwnedAtSomeVersion }
{}

/// Each key lies in the piece of its first owner, and in no other.
pub fn pieces_part_the_keys()
    ensures { PiecesPartTheKeys }
{}

/// A resolver is asked about a place, be it old or fresh, exactly where it has a part of it.
pub fn resolvers_are_asked_where_they_have_a_part()
    ensures { AskedWhereItHasAPart }
{}

/// A resolver admits a place exactly where the place is not old and no earlier place that the resolver
/// admitted, of a version above the place's read version, wrote a point that the place read and that the
/// resolver owned at that version.
pub fn places_are_admitted_exactly_where_fresh_and_without_conflict()
    ensures { AdmitsWithoutConflict }
{}

/// Who isn't asked never matters, so the verdicts of those who are decide commit, conflict or old: a place of
/// a history is committed exactly where each resolver that is asked about it admits it, and some resolver is
/// asked about each old place.
pub fn resolvers_that_are_not_asked_never_matter()
    ensures committed { CommittedByTheAsked }
    ensures old { OldIsAsked }
{}

/// A resolver admits a place exactly where the place is fresh and no point of the resolver's part of the
/// read set has a last version above the read version: one number per point decides.
pub fn one_number_per_point_decides()
    ensures { LastVersionsDecide }
{}

/// One place more is one step: the last versions become the place's own at the resolver's part of its write
/// set, where the resolver admits it.
pub fn one_place_more_is_one_step()
    ensures { OnePlaceMore }
{}

/// A resolver that has only its part of each place, and has forgotten what is below the horizon, decides as
/// the rule does, takes each place in, and may go on forgetting.
pub fn a_resolver_with_its_part_alone_answers_the_rule_and_keeps_its_state()
    ensures decides { StateDecides }
    ensures takes { StateTakesPlace }
    ensures forgets { StateForgets }
    ensures forgotten { ForgottenAgree }
{}

/// A point is in the conflict set of a place exactly where the place read it, and some earlier place of a version above
/// the place's read version wrote it and was admitted by who owned it at that version.
pub fn conflict_sets_have_what_some_earlier_place_wrote_unseen()
    ensures earlier { ConflictsAtSomeEarlier }
    ensures read { ConflictsAreRead }
{}

/// The conflict set of a place of a history is what all resolvers find of it together. Who finds a point of a fresh
/// place's set is asked about the place, so nothing is missed where those who aren't asked are left out.
pub fn conflict_sets_are_what_resolvers_find()
    ensures found { ConflictsAreFound }
    ensures conflicts { FoundIsInConflict }
    ensures asked { FinderIsAsked }
{}

/// A fresh place is committed exactly where its conflict set has no point, and where it isn't committed there is one.
pub fn fresh_places_are_committed_exactly_where_their_conflict_set_is_empty()
    ensures committed { CommittedWithoutConflict }
    ensures refused { RefusedByConflict }
{}

/// A resolver that has only its part of each place, and has forgotten what is below the horizon, finds of a fresh
/// place's conflict set what it is to find by the definition.
pub fn a_resolver_with_its_part_alone_finds_its_conflicts()
    ensures { StateFindsConflicts }
{}

/// A book of sealed transactions is a list of entries from version 0 on that has no id twice, and whose horizons never
/// fall.
pub fn books_are_entries()
    ensures { BooksAreEntries }
{}

/// The places of a book are a history.
pub fn places_of_a_book_are_a_history()
    ensures { PlacesAreHistory }
{}

/// A place that is found by its numbers is the one there, and the places before it are those that were seen
/// before it.
pub fn places_are_found_in_the_book()
    ensures { PlacesAreFoundInTheBook }
{}

/// At every point of a committed transaction's read set, the map at its read version is the same as the map
/// right before its place.
pub fn reads_of_committed_transactions_stand()
    ensures { ReadsStand }
{}

/// With one more entry the earlier places of a book stay as they were, after new ones of the entry's
/// version, and so does the map at each version below the entry's. A book stays one with an entry that
/// may stand after its last. Horizons never fall exactly where they don't among the first entries, and then among those
/// after these.
pub fn one_more_entry_changes_nothing_earlier()
    ensures places { EarlierPlacesStay }
    ensures maps { EarlierMapsStay }
    ensures entries { EntriesGoOn }
    ensures horizons { HorizonsPart }
{}

/// A mutation meets a shard's range exactly where it names some point of it, and a shard's messages have no
/// others. At each point of the range and each version, the mutations of committed transactions that meet the
/// range leave what stands there on the serial map at that version. Each of them is stamped.
pub fn messages_of_a_shard_leave_the_serial_map_on_its_range()
    ensures meets { MeetsAtSomePoint }
    ensures for_range { MessagesAreForTheRange }
    ensures holds { ShardsHoldTheRun }
    ensures go_on { MessagesGoOn }
    ensures shards_go_on { ShardsGoOn }
    ensures stamped { MessagesAreStamped }
{}

/// What the rules say of each transaction of some small books: which resolvers are asked about it, which admit it,
/// whether it is old, and whether it is committed; what shards are sent of it, and how it is stamped; which entries may
/// stand in a book, and which lists of them are books; how places are numbered; what the horizon of an entry is; and
/// how many bytes transactions have.
pub fn worked_examples()
    ensures sizes { Sizes }
    ensures one_batch { OneBatch }
    ensures write_skew { WriteSkew }
    ensures false_conflict { FalseConflict }
    ensures former_owner { FormerOwner }
    ensures there_and_back { ThereAndBack }
    ensures equal_is_not_newer { EqualIsNotNewer }
    ensures window { Window }
    ensures old_reading { OldReading }
    ensures two_moves { TwoMoves }
    ensures spans { Spans }
    ensures at_bounds { AtBounds }
    ensures shard_messages { ShardMessages }
    ensures stamps { Stamps }
    ensures entries { Entries }
    ensures books { Books }
    ensures numbers { Numbers }
    ensures horizon { Horizon }
    ensures horizons { Horizons }
{}

/// The conflict sets of some places of small books, and what each of two resolvers finds of them.
pub fn worked_conflicts()
    ensures { WorkedConflicts }
{}

/// The number of each limit.
pub fn worked_limits()
    ensures { LimitNumbers }
{}
