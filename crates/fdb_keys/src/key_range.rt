ghost use Rattle.std.specs.Prelude.{◌≡◌, ◌++◌, IfOk, OnOk, IsTrue};
ghost use Rattle.fdb_keys.specs.Ranges.{single_range};
ghost use Rattle.fdb_keys.specs.Removal.{range_between};
ghost use Rattle.fdb_keys.specs.Texts.{is_bound};

use crate::key::Key;
use crate::order::{
    greater_bound, greater_of, have_common_point, is_after_ff, is_before, lesser_bound, lies_within,
};
use crate::prefix::after_prefix;
use crate::range_set::RangeSet;
use crate::refusal::Refusal;
use bytes::Bytes;
use std::alloc::{AllocError, Global};
use std::marker::Model;

/// The most bytes that a bound of a range may have. It is one more than a key has, so that a bound can
/// come right after every key.
pub const BOUND_LIMIT: usize = 10_001;

/// The keys from a begin up to but not including an end.
#[derive(Clone, Drop, PartialEq, Eq)]
pub struct KeyRange {
    begin: Bytes,
    end: Bytes,
}

impl Model for KeyRange {
    ghost use Rattle.std.specs.Prelude.{◌&&◌, not, IsTrue};
    ghost use Rattle.fdb_keys.specs.Points.{point_lt};
    ghost use Rattle.fdb_keys.specs.Ranges.{Range};
    ghost use Rattle.fdb_keys.specs.Texts.{is_bound};

    ghost Value = { Range };

    ghost view = { λ range. record { begin = range.begin; end = range.end } };

    ghost invariant = { λ range. IsTrue (is_bound range.begin && is_bound range.end
        && not (point_lt range.end range.begin)) };

    ghost inverse = { λ range. record { begin = range.begin; end = range.end } };
}

impl KeyRange {
    ghost use Rattle.std.specs.Prelude.{◌≡◌, ◌++◌, Some, None, IfOk, OnOk, IsTrue, ◌↔◌, ◌&&◌, not, Bool, true, false};
    ghost use Rattle.std.specs.Option.{option_copied};
    ghost use Rattle.fdb_keys.specs.Answers.{Answers};
    ghost use Rattle.fdb_keys.specs.Clipping.{clipped_range, in_clipped};
    ghost use Rattle.fdb_keys.specs.Cutting.{range_through, range_behind};
    ghost use Rattle.fdb_keys.specs.Insertion.{joined_range};
    ghost use Rattle.fdb_keys.specs.Points.{Point, point_eq, point_lt};
    ghost use Rattle.fdb_keys.specs.Prefixes.{prefix_range};
    ghost use Rattle.fdb_keys.specs.Ranges.{in_range, in_set, single_range, is_apart, is_empty_range, is_within};
    ghost use Rattle.fdb_keys.specs.Ranges.{ranges_meet};
    ghost use Rattle.fdb_keys.specs.Removal.{range_between, range_minus};
    ghost use Rattle.fdb_keys.specs.Texts.{is_bound, range_fault};
    ghost use Rattle.fdb_keys.specs.Touching.{begin_past};

    /// The range from `begin` up to but not including `end`. Refused as `KeyTooLarge` where a bound
    /// exceeds 10,001 bytes, as `KeyOutsideLegalRange` where one comes after the one byte `FF`, and as
    /// `InvertedRange` where the end comes before the begin. Equal bounds give the empty range. Both are copied into
    /// one piece of memory, in O(n) time for their n bytes; it is given back once no copy of either is left.
    pub fn new(alloc: Global, begin: &[u8], end: &[u8]) -> Result<Self, Refusal>
        ensures { Answers result (range_fault begin.now end.now)
            (λ range. range ≡ record { begin = begin.now; end = end.now }) }
    {
        if begin.len() > BOUND_LIMIT || end.len() > BOUND_LIMIT {
            return Err(Refusal::KeyTooLarge);
        }
        if is_after_ff(begin) || is_after_ff(end) {
            return Err(Refusal::KeyOutsideLegalRange);
        }
        if is_before(end, begin) {
            return Err(Refusal::InvertedRange);
        }
        let (begin, end) = side_by_side(alloc, begin, end)?;
        Ok(KeyRange { begin, end })
    }

    /// The range of one key alone, which ends right after it.
    pub fn single(alloc: Global, key: &Key) -> Result<Self, Refusal>
        ensures answers { Answers result None (λ range. range ≡ single_range key.now) }
        ensures alone { IfOk result (λ range. (x : Point) → in_range range x ≡ point_eq x key.now) }
    {
        let end = text_after(alloc, key)?;
        let range = KeyRange::ending(key, end)?;
        Ok(range)
    }

    /// The range of all keys that begin with the prefix: from the prefix itself up to but not including the least text
    /// after all of them. It takes O(n) time for its n bytes. Refused only as `NoMemory`.
    pub fn prefix(alloc: Global, prefix: &Key) -> Result<Self, Refusal>
        ensures answers { Answers result None (λ range. range ≡ prefix_range prefix.now) }
    {
        let end = after_prefix(alloc, prefix)?;
        let begin = prefix.text().clone()?;
        Ok(KeyRange { begin, end })
    }

    // The range of one key alone, whose end this is.
    pub(crate) fn ending(key: &Key, end: Bytes) -> Result<Self, AllocError>
        requires { end ≡ (single_range key.now).end }
        ensures { IfOk result (λ range. range ≡ single_range key.now) }
    {
        let begin = key.text().clone()?;
        Ok(KeyRange { begin, end })
    }

    /// The bytes of the range's begin, which it includes.
    pub fn begin(&self) -> &[u8]
        ensures value { result.now ≡ self.now.begin }
        ensures legal { IsTrue (is_bound self.now.begin) }
    {
        self.begin.as_slice()
    }

    /// The bytes of the range's end, which it doesn't include.
    pub fn end(&self) -> &[u8]
        ensures value { result.now ≡ self.now.end }
        ensures legal { IsTrue (is_bound self.now.end) }
    {
        self.end.as_slice()
    }

    /// The text of the range's begin, of which a clone copies no byte.
    pub fn begin_text(&self) -> &Bytes
        ensures { result.now ≡ self.now.begin }
    {
        &self.begin
    }

    /// The text of the range's end, of which a clone copies no byte. It doesn't come before the begin.
    pub fn end_text(&self) -> &Bytes
        ensures value { result.now ≡ self.now.end }
        ensures order { point_lt self.now.end self.now.begin ≡ false }
        ensures legal { IsTrue (is_bound self.now.end) }
    {
        &self.end
    }

    /// Whether the key lies in the range.
    pub fn contains(&self, key: &Key) -> bool
        ensures { result ≡ in_range self.now key.now }
    {
        self.contains_text(key.bytes())
    }

    /// Whether the text lies in the range, be it a key, a bound or neither.
    pub fn contains_text(&self, text: &[u8]) -> bool
        ensures { result ≡ in_range self.now text.now }
    {
        !is_before(text, self.begin()) && is_before(text, self.end())
    }

    /// Whether some key or bound lies in both ranges. Where any point does, a legal bound does.
    pub fn meets(&self, other: &KeyRange) -> bool
        ensures value { result ≡ ranges_meet self.now other.now }
        ensures common { IsTrue result ↔ ((x : Point) × (in_range self.now x ≡ true) × (in_range other.now x ≡ true)) }
        ensures bound { IsTrue result → (x : Point) × (is_bound x ≡ true) × (in_range self.now x ≡ true)
            × (in_range other.now x ≡ true) }
    {
        have_common_point(self.begin(), self.end(), other.begin(), other.end())
    }

    /// Whether the range has no point, as it has none where its bounds are equal.
    pub fn is_empty(&self) -> bool
        ensures { result ≡ is_empty_range self.now }
    {
        !is_before(self.begin(), self.end())
    }

    /// Whether every point of the range lies in the other one, as it does where the range has no point.
    pub fn is_within(&self, whole: &KeyRange) -> bool
        ensures value { result ≡ is_within self.now whole.now }
        ensures points { IsTrue result ↔ ((x : Point) → in_range self.now x ≡ true → in_range whole.now x ≡ true) }
    {
        lies_within(self.begin(), self.end(), whole.begin(), whole.end())
    }

    /// The points that lie in both ranges, from the greater begin up to but not including the lesser end: `None`
    /// exactly where no point does. Refused only as `NoMemory`.
    pub fn clip(&self, other: &KeyRange) -> Result<Option<KeyRange>, Refusal>
        ensures answers { Answers result None (λ clipped. clipped ≡ clipped_range self.now other.now) }
        ensures points { IfOk result (λ clipped. (x : Point)
            → in_clipped clipped x ≡ (in_range self.now x && in_range other.now x)) }
    {
        if !self.meets(other) {
            return Ok(None);
        }
        let begin = greater_bound(&self.begin, &other.begin)?;
        let end = lesser_bound(&self.end, &other.end)?;
        Ok(Some(KeyRange { begin, end }))
    }

    /// What is left of the range without the other one's points: nothing where the other one covers it or it has no
    /// point, the range itself where the two don't meet, and else what comes before the other one and what comes after
    /// it. Refused only as `NoMemory`.
    pub fn minus(&self, alloc: Global, other: &KeyRange) -> Result<RangeSet, Refusal>
        ensures answers { Answers result None (λ left. left ≡ range_minus self.now other.now) }
        ensures points { IfOk result (λ left. (x : Point)
            → in_set left x ≡ (in_range self.now x && not (in_range other.now x))) }
        ensures apart { IfOk result (λ left. IsTrue (is_apart left)) }
    {
        let mut left = Vec::new(alloc);
        self.push_minus(other, &mut left)?;
        Ok(RangeSet::from_ranges(left))
    }

    /// The range up to and including the key, which lies in it; where it is read from its end (`reverse`), from the key
    /// on. Refused only as `NoMemory`.
    pub fn through(&self, alloc: Global, reverse: bool, key: &Key) -> Result<KeyRange, Refusal>
        requires { IsTrue (in_range self.now key.now) }
        ensures { Answers result None (λ part. part ≡ range_through self.now reverse key.now) }
    {
        if reverse {
            let begin = key.text().clone()?;
            let end = self.end.clone()?;
            return Ok(KeyRange { begin, end });
        }
        let begin = self.begin.clone()?;
        let end = text_after(alloc, key)?;
        Ok(KeyRange { begin, end })
    }

    /// What of the range lies behind the key, which lies in it; where the range is read from its end (`reverse`), what
    /// lies before the key. Refused only as `NoMemory`.
    pub fn behind(&self, alloc: Global, reverse: bool, key: &Key) -> Result<KeyRange, Refusal>
        requires { IsTrue (in_range self.now key.now) }
        ensures { Answers result None (λ part. part ≡ range_behind self.now reverse key.now) }
    {
        if reverse {
            let begin = self.begin.clone()?;
            let end = key.text().clone()?;
            return Ok(KeyRange { begin, end });
        }
        let begin = text_after(alloc, key)?;
        let end = self.end.clone()?;
        Ok(KeyRange { begin, end })
    }

    // Adds what is left of the range without the other one's points to the list.
    pub(crate) fn push_minus(
        &self,
        other: &KeyRange,
        left: &mut Vec<KeyRange>,
    ) -> Result<(), AllocError>
        ensures { OnOk result (left.new.items ≡ left.old.items ++ range_minus self.now other.now) }
    {
        if self.meets(other) {
            push_between(&self.begin, &other.begin, left)?;
            push_between(&other.end, &self.end, left)
        } else {
            push_between(&self.begin, &self.end, left)
        }
    }

    // Adds what lies between the point and the range's begin to the list.
    pub(crate) fn push_before(
        &self,
        point: &Bytes,
        ranges: &mut Vec<KeyRange>,
    ) -> Result<(), AllocError>
        requires { IsTrue (is_bound point.now) }
        ensures { OnOk result (ranges.new.items ≡ ranges.old.items ++ range_between point.now self.now.begin) }
    {
        push_between(point, &self.begin, ranges)
    }

    // Where the range goes on after the other one, which begins no later, if there is one.
    pub(crate) fn begin_past(&self, other: Option<&KeyRange>) -> Result<Bytes, AllocError>
        ensures value { IfOk result (λ begin. begin ≡ begin_past self.now (option_copied other.entry)) }
        ensures legal { IfOk result (λ begin. IsTrue (is_bound begin)) }
    {
        match other {
            Some(other) => greater_bound(&self.begin, &other.end),
            None => self.begin.clone(),
        }
    }

    // The shortest range that holds both.
    pub(crate) fn joined_range(&self, other: &KeyRange) -> Result<KeyRange, AllocError>
        ensures { IfOk result (λ range. range ≡ joined_range self.now other.now) }
    {
        let begin = lesser_bound(&self.begin, &other.begin)?;
        let end = greater_bound(&self.end, &other.end)?;
        Ok(KeyRange { begin, end })
    }

    // The shortest range that holds both, of which the other one begins no sooner. It takes no memory.
    pub(crate) fn extended(self, other: KeyRange) -> KeyRange
        requires { point_lt other.begin self.begin ≡ false }
        ensures { result ≡ joined_range self other }
    {
        KeyRange {
            begin: self.begin,
            end: greater_of(self.end, other.end),
        }
    }
}

// Copies of both texts, in one piece of memory.
fn side_by_side(alloc: Global, first: &[u8], second: &[u8]) -> Result<(Bytes, Bytes), AllocError>
    ensures { IfOk result (λ texts. (texts.0 ≡ first.now) × (texts.1 ≡ second.now)) }
{
    let mut text = Vec::with_capacity(alloc, first.len().saturating_add(second.len()))?;
    text.extend_from_slice(first)?;
    text.extend_from_slice(second)?;
    let mut start = Bytes::from_vec(text)?;
    let rest = start.split_off(first.len())?;
    Ok((start, rest))
}

// The least text after the key.
fn text_after(alloc: Global, key: &Key) -> Result<Bytes, AllocError>
    ensures value { IfOk result (λ text. text ≡ (single_range key.now).end) }
    ensures legal { IfOk result (λ text. IsTrue (is_bound text)) }
{
    let mut text = Vec::with_capacity(alloc, key.bytes().len() + 1)?;
    text.extend_from_slice(key.bytes())?;
    text.push(0)?;
    Ok(Bytes::from_vec(text)?)
}

/// Adds the points from `begin` up to but not including `end`, which are legal bounds, to the list, as a range, and
/// nothing where the end doesn't come after the begin. The range shares both texts, so no byte is copied. It takes O(1)
/// time beside comparing the two, and the list's growth. Refused only where memory runs out.
pub fn push_between(
    begin: &Bytes,
    end: &Bytes,
    ranges: &mut Vec<KeyRange>,
) -> Result<(), AllocError>
    requires begin { IsTrue (is_bound begin.now) }
    requires end { IsTrue (is_bound end.now) }
    ensures { OnOk result (ranges.new.items ≡ ranges.old.items ++ range_between begin.now end.now) }
{
    if is_before(begin.as_slice(), end.as_slice()) {
        let begin = begin.clone()?;
        let end = end.clone()?;
        ranges.push(KeyRange { begin, end })?;
    }
    Ok(())
}
