//! What a resolver's rule says of the book, for the proofs of the crates that use it.
ghost use Rattle.fdb_resolver.specs.Examples.{WorkedRefusals, WorkedAges, WorkedFinds};
ghost use Rattle.fdb_resolver.specs.RuleLaws.{VerdictsAreByTheBook, PlacesKeepState, FoundByTheBook};

/// A resolver that has its part of a place alone, and has forgotten what lies below the horizon, says of
/// the place what the rule over the book says, and keeps the versions of which that rule speaks. What it finds newer of
/// a place that isn't old is its share of the place's conflict set.
pub fn verdicts_are_by_the_book()
    ensures verdicts { VerdictsAreByTheBook }
    ensures states { PlacesKeepState }
    ensures found { FoundByTheBook }
{}

/// Why parts are refused, by examples: which refusal comes first; which transactions are old; and what is found of
/// places in conflict.
pub fn worked_refusals()
    ensures refusals { WorkedRefusals }
    ensures ages { WorkedAges }
    ensures finds { WorkedFinds }
{}
