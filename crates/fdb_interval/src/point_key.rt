// A point as a key of a map.
ghost use Rattle.std.specs.Prelude.{◌≡◌, [], IfOk, IsTrue, Some, nat_eq, refl, get_or};
ghost use Rattle.std.specs.Ordering.{nat_cmp};
ghost use Rattle.std.specs.Cmp.Lexicographic.{pointwise, slice_cmp, nat_list_eq_equiv, nat_list_cmp_total};
ghost use Rattle.std.specs.Cmp.Lexicographic.{texts_ties, texts_po};
ghost use Rattle.std.specs.Cmp.{partial_equiv_from_equiv};
ghost use Rattle.fdb_keys.specs.Points.{point_lt};
ghost use Rattle.fdb_keys.specs.Texts.{is_bound, is_key};
ghost use Rattle.fdb_interval.specs.Heads.{head_by, AreBytes};

use bytes::Bytes;
use fdb_keys::{Key, is_before};
use std::alloc::AllocError;
use std::cmp::Ordering;
use std::marker::Model;

// How many bytes of a text its head has.
const HEAD: usize = 8;

/// The text of a point beside its head, the number that its first bytes make. Keys that differ in their heads are
/// compared by these, so that a map seldom reads their texts, which lie elsewhere; others are compared by their texts
/// as well. The text is a legal bound, so that two points are the bounds of a range.
#[derive(Drop)]
pub struct PointKey {
    head: u64,
    text: Bytes,
}

impl Model for PointKey {
    ghost use Rattle.std.specs.Prelude.{ℕ, List, IsTrue};
    ghost use Rattle.fdb_keys.specs.Texts.{is_bound};
    ghost use Rattle.fdb_interval.specs.Heads.{IsHeaded};

    ghost Value = { List ℕ };

    ghost view = { λ key. key.text };

    ghost invariant = { λ key. IsHeaded key.head key.text × IsTrue (is_bound key.text) };
}

impl PointKey {
    // The first of all points.
    #[tactic(auto, unfolding(fdb_keys::specs::Points::point_lt))]
    pub(crate) fn first() -> Self
        ensures { result ≡ [] }
    {
        PointKey {
            head: 0,
            text: Bytes::new(),
        }
    }

    /// The key of a map for a legal bound. Its text is shared, and no byte of it is copied. It fails only where the
    /// text can't be shared once more, for want of memory. It takes O(1) time.
    pub fn new(text: &Bytes) -> Result<Self, AllocError>
        requires { IsTrue (is_bound text.now) }
        ensures { IfOk result (λ key. key ≡ text.now) }
    {
        let head = head_of(text.as_slice());
        let text = text.clone()?;
        Ok(PointKey { head, text })
    }

    /// The key of a map for a key, made and failing as `new` is. It takes O(1) time.
    pub fn at(key: &Key) -> Result<Self, AllocError>
        ensures value { IfOk result (λ point. point ≡ key.now) }
        ensures legal { IsTrue (is_key key.now) }
    {
        PointKey::new(key.text())
    }

    // Whether the point comes after the text, of which it mostly needs the head alone.
    #[tactic(auto, unfolding(fdb_keys::specs::Points::point_lt))]
    pub(crate) fn is_after(&self, text: &[u8]) -> bool
        ensures { result ≡ point_lt text.now self.now }
    {
        let head = head_of(text);
        if head < self.head {
            return true;
        }
        if self.head < head {
            return false;
        }
        is_before(text, self.text.as_slice())
    }

    pub(crate) fn as_slice(&self) -> &[u8]
        ensures { result.now ≡ self.now }
    {
        self.text.as_slice()
    }

    /// The text, of which a clone copies no byte. It takes no memory, and O(1) time.
    pub fn text(&self) -> &Bytes
        ensures value { result.now ≡ self.now }
        ensures legal { IsTrue (is_bound self.now) }
    {
        &self.text
    }
}

// The number that the first bytes of the text make.
fn head_of(text: &[u8]) -> u64
    ensures value { result ≡ head_by 8 text.now }
    ensures bytes { AreBytes text.now }
{
    match text.first_chunk::<HEAD>() {
        Some(first) => u64::from_be_bytes(*first),
        None => head_of_short(text),
    }
}

// The same byte by byte, whatever the length.
fn head_of_short(text: &[u8]) -> u64
    ensures value { result ≡ head_by 8 text.now }
    ensures bytes { AreBytes text.now }
{
    let mut head = 0u64;
    for place in 0..HEAD {
        head = head * 256 + u64::from(byte_or_zero(text, place));
    }
    head
}

fn byte_or_zero(text: &[u8], place: usize) -> u8
    ensures { result ≡ get_or text.now place 0 }
{
    if place < text.len() { text[place] } else { 0 }
}

impl Clone for PointKey {
    ghost is_clone = { λ key copy. copy ≡ key };

    fn clone(&self) -> Result<PointKey, AllocError> {
        let text = self.text.clone()?;
        Ok(PointKey {
            head: self.head,
            text,
        })
    }
}

impl PartialEq for PointKey {
    ghost eq = { pointwise nat_eq };

    ghost laws = { partial_equiv_from_equiv nat_list_eq_equiv };

    fn eq(&self, other: &Self) -> bool {
        self.text == other.text
    }
}

impl Eq for PointKey {
    ghost laws = { nat_list_eq_equiv };
}

impl PartialOrd for PointKey {
    ghost partial_cmp = { λ x y. Some (slice_cmp nat_cmp x y) };

    ghost laws = { texts_po };

    fn partial_cmp(&self, other: &Self) -> Option<Ordering> {
        Some(self.cmp(other))
    }
}

impl Ord for PointKey {
    ghost cmp = { slice_cmp nat_cmp };

    ghost total = { nat_list_cmp_total };

    ghost matches_partial_cmp = { λ x y. refl };

    ghost matches_eq = { texts_ties };

    fn cmp(&self, other: &Self) -> Ordering {
        if self.head < other.head {
            return Ordering::Less;
        }
        if other.head < self.head {
            return Ordering::Greater;
        }
        // Both heads are the same, and have all of texts as short as they are: one goes on from the other one with
        // zeros.
        if self.text.len() <= HEAD && other.text.len() <= HEAD {
            return self.text.len().cmp(&other.text.len());
        }
        self.text.cmp(&other.text)
    }
}
