//! What `==` and `<` say, where ranges meet, which keys the range of a prefix has, and which list of ranges stands for
//! a set of points, for the proofs of the crates that use these types.
ghost use Rattle.std.specs.Prelude.{◌≡◌, ◌||◌, List, true};
ghost use Rattle.std.specs.Ordering.{nat_cmp};
ghost use Rattle.std.specs.Bool.{Decides};
ghost use Rattle.std.specs.Cmp.Lexicographic.{pointwise, slice_cmp};
ghost use Rattle.fdb_keys.specs.Equality.{key_eq, range_eq, range_set_eq, refusal_eq};
ghost use Rattle.fdb_keys.specs.Examples.{WorkedCodes, WorkedNames, WorkedLimits, WorkedLengths};
ghost use Rattle.fdb_keys.specs.Examples.{WorkedKeys, WorkedPrefixes, WorkedRanges, RetriesByNumber};
ghost use Rattle.fdb_keys.specs.Insertion.{with_range, with_ranges};
ghost use Rattle.fdb_keys.specs.KeyOrder.{key_lt, key_cmp};
ghost use Rattle.fdb_keys.specs.Points.{Point, point_lt};
ghost use Rattle.fdb_keys.specs.Prefixes.{are_bytes, begins_with, prefix_range};
ghost use Rattle.fdb_keys.specs.Ranges.{Range, in_range, in_set, is_apart, ranges_meet};
ghost use Rattle.fdb_keys.specs.Texts.{is_bound, is_key};

use crate::key::Key;
use crate::key_range::KeyRange;
use crate::range_set::RangeSet;
use crate::refusal::Refusal;

/// Two keys are equal exactly where they are the same.
pub fn equal_keys_are_the_same()
    ensures { (a b : Key) → Decides (key_eq a b) (a ≡ b) }
{}

/// Two ranges are equal exactly where they are the same.
pub fn equal_ranges_are_the_same()
    ensures { (a b : KeyRange) → Decides (range_eq a b) (a ≡ b) }
{}

/// Two sets of ranges are equal exactly where they are the same.
pub fn equal_range_sets_are_the_same()
    ensures { (a b : RangeSet) → Decides (range_set_eq a b) (a ≡ b) }
{}

/// Two refusals are equal exactly where they are the same.
pub fn equal_refusals_are_the_same()
    ensures { (a b : Refusal) → Decides (refusal_eq a b) (a ≡ b) }
{}

/// Two lists of items are equal exactly where they are the same, if two items are.
pub fn equal_items_are_the_same<T: PartialEq>()
    ensures { ((x y : T) → Decides (T.eq x y) (x ≡ y)) → (a b : List T) → Decides (pointwise T.eq a b) (a ≡ b) }
{}

/// Keys are ordered as points are.
#[tactic(auto, unfolding(crate::specs::Points::point_lt))]
pub fn keys_are_ordered_as_points()
    ensures less { (a b : Key) → key_lt a b ≡ point_lt a b }
    ensures order { (a b : Key) → key_cmp a b ≡ slice_cmp nat_cmp a b }
{}

/// Ranges whose begins are legal bounds, and that meet, do so at a legal bound.
pub fn ranges_meet_at_legal_bounds()
    ensures { (a b : Range) → is_bound a.begin ≡ true → is_bound b.begin ≡ true → ranges_meet a b ≡ true
        → (x : Point) × (is_bound x ≡ true) × (in_range a x ≡ true) × (in_range b x ≡ true) }
{}

/// Of all lists that hold just the same points, one is sorted, apart and without an empty range.
pub fn apart_ranges_with_the_same_points_are_the_same()
    ensures { (a b : List Range) → is_apart a ≡ true → is_apart b ≡ true
        → ((x : Point) → in_set a x ≡ in_set b x) → a ≡ b }
{}

/// A set with one more range is that list of the points of both, and so is a set with several more ranges.
pub fn set_with_a_range_has_the_points_of_both()
    ensures points { (range : Range) (ranges : List Range) (x : Point)
        → in_set (with_range range ranges) x ≡ (in_range range x || in_set ranges x) }
    ensures apart { (range : Range) (ranges : List Range) → is_apart ranges ≡ true
        → is_apart (with_range range ranges) ≡ true }
    ensures points_of_all { (added ranges : List Range) (x : Point)
        → in_set (with_ranges added ranges) x ≡ (in_set added x || in_set ranges x) }
    ensures all_apart { (added ranges : List Range) → is_apart ranges ≡ true
        → is_apart (with_ranges added ranges) ≡ true }
{}

/// A range whose points are all in a set adds nothing to it.
pub fn range_in_a_set_adds_nothing()
    ensures { (range : Range) (ranges : List Range) → is_apart ranges ≡ true
        → ((x : Point) → in_range range x ≡ true → in_set ranges x ≡ true) → with_range range ranges ≡ ranges }
{}

/// A key lies in the range of a prefix exactly where it begins with it.
pub fn prefix_range_has_the_keys_that_begin_with_it()
    ensures { (prefix x : Point) → is_key prefix ≡ true → is_key x ≡ true → are_bytes x ≡ true
        → in_range (prefix_range prefix) x ≡ begins_with prefix x }
{}

/// The ends of the ranges of some prefixes, and which keys lie in one of these ranges, by examples.
pub fn worked_prefixes()
    ensures { WorkedPrefixes }
{}

/// The number and the name of each refusal, the limits of texts, and which texts are keys and ranges and why others
/// aren't, by examples.
pub fn worked_refusals()
    ensures codes { WorkedCodes }
    ensures names { WorkedNames }
    ensures limits { WorkedLimits }
    ensures lengths { WorkedLengths }
    ensures keys { WorkedKeys }
    ensures ranges { WorkedRanges }
{}

/// Just the refusals with the numbers 1007, 1009 and 1020 may be tried anew, and just 1021 leaves open whether the
/// transaction is committed.
pub fn refusals_that_may_be_tried_anew()
    ensures { (why : Refusal) → RetriesByNumber why }
{}
