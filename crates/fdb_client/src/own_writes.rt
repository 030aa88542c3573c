// What a transaction's own writes leave at each key, and which keys they decide.
ghost use Rattle.std.specs.Prelude.{◌≡◌, ◌↔◌, ◌&&◌, ◌||◌, ◌∷◌, ◌++◌, None, IfOk, OnOk, OnErr, IsTrue};
ghost use Rattle.std.specs.Prelude.{if◌then◌else◌, not, true, false, []};
ghost use Rattle.fdb_keys.specs.Answers.{Answers};
ghost use Rattle.fdb_keys.specs.Cutting.{range_behind};
ghost use Rattle.fdb_keys.specs.Points.{Point, point_eq};
ghost use Rattle.fdb_keys.specs.Ranges.{in_range, in_set, is_apart};
ghost use Rattle.fdb_keys.specs.Texts.{is_key};
ghost use Rattle.fdb_client.specs.OwnWrites.{left_after, as_left, is_unreadable, is_value, part_by};
ghost use Rattle.fdb_client.specs.declared.left.Left.TheVariants.{Changes};

use crate::left::{Kept, Left};
use bytes::Bytes;
use fdb_keys::{Key, KeyRange, RangeSet, Refusal, TreeRangeSet};
use fdb_mutations::Mutation;
use std::alloc::{AllocError, Global};
use std::collections::BTreeMap;

#[derive(Drop)]
pub(crate) struct OwnWrites {
    // What is left at a key, under the key's bytes.
    pub(crate) keys: BTreeMap<Bytes, Kept>,
    // The keys that were cleared with a range. Nothing is left at one of them that isn't among `keys`.
    pub(crate) cleared: TreeRangeSet,
}

// What is left at a key, lent.
pub(crate) enum LentLeft<'a> {
    Value(Option<&'a Bytes>),
    Unreadable(Option<&'a Bytes>),
    Changes(&'a [Mutation]),
}

pub(crate) fn lent(left: &Kept) -> LentLeft<'_>
    ensures { as_left result ≡ left.now }
{
    match left.left() {
        Left::Value(Some(value)) => LentLeft::Value(Some(value)),
        Left::Value(None) => LentLeft::Value(None),
        Left::Unreadable(Some(value)) => LentLeft::Unreadable(Some(value)),
        Left::Unreadable(None) => LentLeft::Unreadable(None),
        Left::Changes(mutations) => LentLeft::Changes(mutations.as_slice()),
    }
}

// Whether the transaction can't read what is left.
fn is_unreadable(left: &Kept) -> bool
    ensures { result ≡ is_unreadable left.now }
{
    matches!(left.left(), Left::Unreadable(_))
}

// What of the range the entry of the key doesn't decide, of all that comes before the key and of the key itself.
fn part_by(alloc: Global, range: &KeyRange, key: &Key, entry: &Kept) -> Result<KeyRange, Refusal>
    requires { IsTrue (in_range range.now key.now) }
    ensures { Answers result None (λ part. part ≡ part_by range.now key.now entry.now) }
{
    match entry.left() {
        Left::Value(_) | Left::Unreadable(_) => range.behind(alloc, true, key),
        Left::Changes(_) => range.through(alloc, false, key),
    }
}

// Adds what of the range an entry doesn't decide to the parts, as far as its key. What lies behind the key is left.
fn cut_off(
    alloc: Global,
    range: &KeyRange,
    text: &Bytes,
    entry: &Kept,
    parts: &mut Vec<KeyRange>,
) -> Result<KeyRange, Refusal>
    requires legal { IsTrue (is_key text.now) }
    requires inside { IsTrue (in_range range.now text.now) }
    ensures left { Answers result None (λ left. left ≡ range_behind range.now false text.now) }
    ensures part { OnOk result (parts.new.items ≡ parts.old.items ++ part_by range.now text.now entry.now ∷ []) }
{
    let key = Key::from_text(text.clone()?);
    let part = part_by(alloc, range, &key, entry)?;
    parts.push(part)?;
    range.behind(alloc, false, &key)
}

impl OwnWrites {
    ghost use Rattle.fdb_client.specs.LeftAt.{left_at, entry_of, AreClearedDecided, HasLegalKeys, HasUnreadable};
    ghost use Rattle.fdb_client.specs.OwnWrites.{keys_between};
    ghost use Rattle.std.specs.List.{list_any};

    pub(crate) fn new(alloc: Global) -> Self
        ensures kept { (x : Point) → left_at result x ≡ Changes [] }
        ensures cleared { result.cleared ≡ [] }
        ensures legal_keys { HasLegalKeys result }
    {
        OwnWrites {
            keys: BTreeMap::new(alloc),
            cleared: TreeRangeSet::new(alloc),
        }
    }

    // What the writes leave at the key.
    pub(crate) fn left_at(&self, key: &Key) -> LentLeft<'_>
        ensures { as_left result ≡ left_at self.now key.now }
    {
        match self.keys.get(key.text()) {
            Some(left) => lent(left),
            None => self.left_beside(key),
        }
    }

    // What the writes leave at a key that has no entry.
    pub(crate) fn left_beside(&self, key: &Key) -> LentLeft<'_>
        requires { entry_of self.now key.now ≡ None }
        ensures { as_left result ≡ left_at self.now key.now }
    {
        if self.is_cleared(key) {
            LentLeft::Value(None)
        } else {
            LentLeft::Changes(&[])
        }
    }

    // Whether the key was cleared with a range. Most transactions clear none, and then nothing is looked for.
    fn is_cleared(&self, key: &Key) -> bool
        ensures { result ≡ in_set self.now.cleared key.now }
    {
        !self.cleared.is_empty() && self.cleared.contains(key)
    }

    // Whether the writes decide the key.
    pub(crate) fn decides(&self, key: &Key) -> bool
        ensures { result ≡ is_value (left_at self.now key.now) }
    {
        match self.left_at(key) {
            LentLeft::Value(_) | LentLeft::Unreadable(_) => true,
            LentLeft::Changes(_) => false,
        }
    }

    // Leaves this at the key. Where memory runs out, nothing changes.
    fn put(&mut self, alloc: Global, key: &Key, left: Left) -> Result<(), Refusal>
        requires { HasLegalKeys self.old }
        ensures answers { Answers result None (λ _. (x : Point)
            → left_at self.new x ≡ (if point_eq x key.now then left else left_at self.old x)) }
        ensures cleared { self.new.cleared ≡ self.old.cleared }
        ensures legal_keys { HasLegalKeys self.new }
        ensures err { OnErr result ((x : Point) → left_at self.new x ≡ left_at self.old x) }
    {
        let kept = Kept::new(alloc, left)?;
        let text = key.text().clone()?;
        self.keys.insert(text, kept)?;
        Ok(())
    }

    // One mutation more of the key. Where memory runs out, nothing changes.
    pub(crate) fn change(
        &mut self,
        alloc: Global,
        key: &Key,
        mutation: &Mutation,
    ) -> Result<(), Refusal>
        requires { HasLegalKeys self.old }
        ensures answers { Answers result None (λ _. (x : Point) → left_at self.new x
            ≡ (if point_eq x key.now then left_after (left_at self.old x) mutation.now else left_at self.old x)) }
        ensures cleared { self.new.cleared ≡ self.old.cleared }
        ensures legal_keys { HasLegalKeys self.new }
        ensures err { OnErr result ((x : Point) → left_at self.new x ≡ left_at self.old x) }
    {
        if mutation.is_blind() {
            let made = Left::blind(alloc, mutation)?;
            return self.put(alloc, key, made);
        }
        if let Some(left) = self.keys.get_mut(key.text()) {
            left.change(alloc, mutation)?;
            return Ok(());
        }
        let left = Left::first(alloc, self.is_cleared(key), mutation)?;
        self.put(alloc, key, left)
    }

    // The keys of the range that have an entry.
    pub(crate) fn keys_in(&self, alloc: Global, range: &KeyRange) -> Result<Vec<Bytes>, AllocError>
        ensures { IfOk result (λ keys. keys.items ≡ keys_between range.now self.now.keys.entries) }
    {
        let mut keys = Vec::new(alloc);
        if range.is_empty() {
            return Ok(keys);
        }
        for (key, _left) in self.keys.range(range.begin_text()..range.end_text()) {
            keys.push(key.clone()?)?;
        }
        Ok(keys)
    }

    // The parts of the range that the writes don't decide. It goes once over the entries of the range: with n of them,
    // and c ranges that were cleared in it, it takes O((c + 1) log m + n) comparisons of bounds, where there are m
    // entries and cleared ranges, and to sort what it found, which is sorted already.
    pub(crate) fn undecided_in(&self, alloc: Global, range: &KeyRange) -> Result<RangeSet, Refusal>
        requires legal_keys { HasLegalKeys self.now }
        requires cleared { AreClearedDecided self.now }
        ensures answers { Answers result None (λ undecided. (x : Point)
            → in_set undecided x ≡ (in_range range.now x && not (is_value (left_at self.now x)))) }
        ensures apart { IfOk result (λ undecided. IsTrue (is_apart undecided)) }
    {
        let uncleared = self.cleared.outside(alloc, range)?;
        let parts = self.undecided_among(alloc, &uncleared)?;
        let mut undecided = RangeSet::new(alloc);
        undecided.add_all(parts)?;
        Ok(undecided)
    }

    // The parts of the ranges, of which no key was cleared with a range, that the writes don't decide.
    fn undecided_among(&self, alloc: Global, ranges: &RangeSet) -> Result<Vec<KeyRange>, Refusal>
        requires legal_keys { HasLegalKeys self.now }
        requires uncleared { (x : Point) → in_set ranges.now x ≡ true → in_set self.now.cleared x ≡ false }
        ensures { Answers result None (λ parts. (x : Point)
            → in_set parts.items x ≡ (in_set ranges.now x && not (is_value (left_at self.now x)))) }
    {
        let mut parts = Vec::new(alloc);
        for range in ranges.iter() {
            self.push_undecided(alloc, range, &mut parts)?;
        }
        Ok(parts)
    }

    // Adds the parts of the range, of which no key was cleared with a range, that the writes don't decide.
    fn push_undecided(
        &self,
        alloc: Global,
        range: &KeyRange,
        parts: &mut Vec<KeyRange>,
    ) -> Result<(), Refusal>
        requires legal_keys { HasLegalKeys self.now }
        requires uncleared { (x : Point) → in_range range.now x ≡ true → in_set self.now.cleared x ≡ false }
        ensures { Answers result None (λ _. (x : Point) → in_set parts.new.items x
            ≡ (in_set parts.old.items x || in_range range.now x && not (is_value (left_at self.now x)))) }
    {
        let mut left = range.clone()?;
        for (text, entry) in self.keys.range(range.begin_text()..range.end_text()) {
            left = cut_off(alloc, &left, text, entry, parts)?;
        }
        parts.push(left)?;
        Ok(())
    }

    // Whether the transaction can't read some key of the range. It goes once over the entries of the range: with n of
    // them it takes O(log m + n) comparisons of keys, where there are m entries.
    pub(crate) fn is_unreadable_in(&self, range: &KeyRange) -> bool
        ensures { IsTrue result ↔ HasUnreadable self.now range.now }
    {
        for (_text, entry) in self.keys.range(range.begin_text()..range.end_text()) {
            if is_unreadable(entry) {
                return true;
            }
        }
        false
    }

    // Takes away the entries of the keys. It takes no memory.
    pub(crate) fn remove_all(&mut self, keys: &[Bytes])
        ensures entries { (x : Point)
            → entry_of self.new x ≡ (if list_any (point_eq x) keys.now then None else entry_of self.old x) }
        ensures cleared { self.new.cleared ≡ self.old.cleared }
        ensures legal_keys { HasLegalKeys self.old → HasLegalKeys self.new }
    {
        for key in keys {
            self.keys.remove(key);
        }
    }
}
