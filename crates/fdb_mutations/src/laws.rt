//! What holds of mutations, for the proofs of the crates that use them.
ghost use Rattle.std.specs.Prelude.{◌≡◌};
ghost use Rattle.std.specs.Bool.{Decides};
ghost use Rattle.fdb_mutations.specs.Equality.{mutation_eq};
ghost use Rattle.fdb_mutations.specs.Examples.{WorkedExamples, WorkedSizes, OperandsAreCarried, WorkedClips};
ghost use Rattle.fdb_mutations.specs.Examples.{WorkedBlindness};
ghost use Rattle.fdb_mutations.specs.Mutations.{EffectAtEveryPoint, BlindIsBlind, RangesAreCleared};
ghost use Rattle.fdb_mutations.specs.PairExamples.{WorkedReads, WorkedLimits};
ghost use Rattle.fdb_mutations.specs.PairLaws.{RangeHasThePairsOfItsParts, PairsFromAKeyOn, KeyHasItsPair};
ghost use Rattle.fdb_mutations.specs.PairLaws.{SameValuesSamePairs, NoValuesNoPairs, ScannedLiesInTheRange};
ghost use Rattle.fdb_mutations.specs.PairLaws.{ScannedHasWhatWasGiven, ScannedDecidesWhatIsGiven};
ghost use Rattle.fdb_mutations.specs.StampExamples.{WorkedStamps};
ghost use Rattle.fdb_mutations.specs.Stamping.{StampsAreFinal, StampsKeepNames, StampsKeepSizes, StampsRise};

use crate::mutation::Mutation;

/// At a point that a mutation names, its effect leaves the new value, and at every other point what
/// stood there.
pub fn effect_at_every_point()
    ensures { EffectAtEveryPoint }
{}

/// A blind mutation makes the same of any two values.
pub fn blind_is_blind()
    ensures { BlindIsBlind }
{}

/// A mutation that names a range clears it.
pub fn ranges_are_cleared()
    ensures { RangesAreCleared }
{}

/// The pairs of a range are those of its two parts, one after the other, wherever it is cut.
pub fn range_has_the_pairs_of_its_parts()
    ensures { RangeHasThePairsOfItsParts }
{}

/// Where no pair comes before a key of a range, the pairs of the range are that of the key, if it has one, and those
/// behind it, in whichever order the range is read.
pub fn pairs_from_a_key_on()
    ensures { PairsFromAKeyOn }
{}

/// The range of one key has the pair of that key, or none where the key has no value.
pub fn key_has_its_pair()
    ensures { KeyHasItsPair }
{}

/// Maps with the same value at each point of a range have the same pairs in it, and none where there is no value.
pub fn values_decide_the_pairs()
    ensures same { SameValuesSamePairs }
    ensures none { NoValuesNoPairs }
{}

/// What a read of a range scanned lies in the range, has just the pairs that the read was given, and decides these: a
/// map with the same values there gives the same.
pub fn scanned_decides_what_is_given()
    ensures inside { ScannedLiesInTheRange }
    ensures given { ScannedHasWhatWasGiven }
    ensures decided { ScannedDecidesWhatIsGiven }
{}

/// What mutations of each kind leave of some values, how many bytes they have, what they carry, where the limits of
/// values and of pairs lie, what is left of mutations that are cut to a range, and which kinds are blind.
pub fn worked_examples()
    ensures left { WorkedExamples }
    ensures sizes { WorkedSizes }
    ensures carried { OperandsAreCarried }
    ensures limits { WorkedLimits }
    ensures clips { WorkedClips }
    ensures blindness { WorkedBlindness }
{}

/// What reads of some ranges are given and scanned.
pub fn worked_reads()
    ensures { WorkedReads }
{}

/// Two mutations are equal exactly where they are the same.
pub fn equal_mutations_are_the_same()
    ensures { (a b : Mutation) → Decides (mutation_eq a b) (a ≡ b) }
{}

/// A stamp leaves a mutation its key or range, and a legal one its size; what has a stamp waits for none. Stamps are in
/// the order of commits, as bytes: those of two places of a batch differ.
pub fn stamps_are_in_the_order_of_commits()
    ensures done { StampsAreFinal }
    ensures names { StampsKeepNames }
    ensures sizes { StampsKeepSizes }
    ensures rise { StampsRise }
    ensures worked { WorkedStamps }
{}
