// Sets of tags.
use std::marker::Model;

/// A set of tags: the bit of one number at a tag's place says whether the tag is there. It takes no memory of the
/// allocator.
#[derive(Drop)]
pub(crate) struct TagSet {
    bits: u64,
}

impl Model for TagSet {
    ghost use Rattle.std.specs.Prelude.{List, ℕ};
    ghost use Rattle.fdb_log.specs.TagSets.{tags_of_bits};

    ghost Value = { List ℕ };

    ghost view = { λ set. tags_of_bits set.bits };
}

impl TagSet {
    ghost use Rattle.std.specs.Prelude.{◌≡◌, ◌<◌, ◌==◌, [], ◌∷◌, length, false, MatchOption, IfSome};
    ghost use Rattle.fdb_txn.specs.Limits.{tag_limit};
    ghost use Rattle.fdb_log.specs.TagSets.{is_among, tags_that};

    /// No tag.
    pub(crate) fn empty() -> Self
        ensures { result ≡ [] }
    {
        TagSet { bits: 0 }
    }

    /// A copy of the set.
    pub(crate) fn copy(&self) -> Self
        ensures { result ≡ self.now }
    {
        TagSet { bits: self.bits }
    }

    /// Whether there is no tag.
    pub(crate) fn is_empty(&self) -> bool
        ensures { result ≡ (length self.now == 0) }
    {
        self.bits == 0
    }

    /// Adds the tag, if it isn't there.
    pub(crate) fn add(&mut self, tag: u32)
        requires { tag < tag_limit }
        ensures { self.new ≡ tags_that (is_among (tag ∷ self.old)) }
    {
        self.bits |= 1 << tag;
    }

    /// Takes the lowest tag.
    pub(crate) fn pop_first(&mut self) -> Option<u32>
        ensures first { MatchOption result (self.old ≡ []) (λ tag. self.old ≡ tag ∷ self.new) }
        ensures once { IfSome result (λ tag. is_among self.new tag ≡ false) }
    {
        if self.bits == 0 {
            return None;
        }
        let tag = self.bits.trailing_zeros();
        self.bits &= !(1 << tag);
        Some(tag)
    }
}
