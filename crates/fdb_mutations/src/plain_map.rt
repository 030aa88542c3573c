use crate::mutation::{Mutation, Named};
use crate::paging::{one_more, page_of};
use crate::pairs::{backward, clear_pairs, copies, forward};
use crate::stamp::Stamp;
use bytes::Bytes;
use fdb_keys::{Items, Key, KeyRange, Refusal};
use std::alloc::Global;
use std::collections::BTreeMap;
use std::marker::Model;

/// A map from keys to values.
#[derive(Drop)]
pub struct PlainMap {
    pairs: BTreeMap<Bytes, Bytes>,
    alloc: Global,
}

impl Model for PlainMap {
    ghost use Rattle.std.specs.Prelude.{IsTrue};
    ghost use Rattle.std.specs.FinMap.{from_entries};
    ghost use Rattle.fdb_mutations.specs.Maps.{Map, map_code, has_legal_keys};

    ghost Value = { Map };

    ghost coded = { map_code };

    ghost view = { λ map. from_entries map.pairs.entries };

    ghost invariant = { λ map. IsTrue (has_legal_keys map.pairs.entries) };
}

impl PlainMap {
    ghost use Rattle.std.specs.Prelude.{◌≡◌, ◌↔◌, None, OnErr, IsOk, IsTrue, not, nat_lt, length};
    ghost use Rattle.std.specs.Option.{option_copied};
    ghost use Rattle.std.specs.FinMap as finite;
    ghost use Rattle.fdb_keys.specs.Answers.{Answers};
    ghost use Rattle.fdb_keys.specs.Points.{Point};
    ghost use Rattle.fdb_keys.specs.Ranges.{Range, in_range};
    ghost use Rattle.fdb_keys.specs.Texts.{is_key};
    ghost use Rattle.fdb_mutations.specs.Mutations.{effect, with_value};
    ghost use Rattle.fdb_mutations.specs.Pairs.{pairs_in, first_of};
    ghost use Rattle.fdb_mutations.specs.Stamping.{stamped};
    ghost use Rattle.fdb_mutations.specs.Stamps.{stamp_bytes};
    ghost use Rattle.fdb_mutations.specs.declared.mutation.Mutation.TheVariants.{Clear, ClearRange};

    /// The empty map. It takes no memory.
    pub fn new(alloc: Global) -> Self
        ensures { result ≡ finite.empty }
    {
        PlainMap {
            pairs: BTreeMap::new(alloc),
            alloc,
        }
    }

    /// Applies the mutation to the map. Refused only as `NoMemory`, and then nothing changes. A clear takes no memory
    /// and is never refused. O(log n) comparisons for n keys, and for a range that is cleared O(log n + k log n), where
    /// k keys of it have a value.
    #[tactic(auto, unfolding(crate::specs::Mutations::effect))]
    pub fn apply(&mut self, mutation: &Mutation) -> Result<(), Refusal>
        ensures answers { Answers result None (λ _. self.new ≡ effect self.old mutation.now) }
        ensures err { OnErr result (self.new ≡ self.old) }
        ensures clears { (key : Point) → mutation.now ≡ Clear key → IsOk result }
        ensures clears_ranges { (range : Range) → mutation.now ≡ ClearRange range → IsOk result }
    {
        match mutation.named() {
            Named::Key(key) => {
                let value = mutation.apply_value(self.alloc, self.get(key))?;
                self.put(key, value)
            }
            Named::Range(range) => {
                self.clear_range(range);
                Ok(())
            }
        }
    }

    /// Applies the mutation with the stamp of its commit, as `Mutation::stamp` makes it. Refused only as `NoMemory`,
    /// and then nothing changes. It takes what `apply` takes, and a copy of the operand of a `Stamped`.
    pub fn apply_stamped(&mut self, mutation: &Mutation, stamp: Stamp) -> Result<(), Refusal>
        ensures answers { Answers result None (λ _. self.new
            ≡ effect self.old (stamped (stamp_bytes stamp.version stamp.place) mutation.now)) }
        ensures err { OnErr result (self.new ≡ self.old) }
    {
        if !mutation.is_stamped() {
            return self.apply(mutation);
        }
        let set = mutation.stamp(self.alloc, stamp)?;
        let applied = self.apply(&set);
        drop(set);
        applied
    }

    /// The value of the key, if it has one.
    pub fn get(&self, key: &Key) -> Option<&Bytes>
        ensures { option_copied result ≡ finite.get self.now key.now }
    {
        self.pairs.get(key.text())
    }

    /// The first `limit` keys of the range that have a value, with their values, or all of them where `limit` is 0: in
    /// the order of keys, or in the reverse order. Refused only as `NoMemory`.
    pub fn range(
        &self,
        range: &KeyRange,
        limit: u32,
        reverse: bool,
    ) -> Result<Items<(Key, Bytes)>, Refusal>
        ensures { Answers result None (λ pairs. pairs ≡ first_of limit (pairs_in self.now range.now reverse)) }
    {
        let found = if reverse {
            backward(self.alloc, &self.pairs, range, limit)?
        } else {
            forward(self.alloc, &self.pairs, range, limit)?
        };
        copies(self.alloc, found.as_slice())
    }

    /// The same pairs, and whether the range has a further one. Refused only as `NoMemory`.
    pub fn page(
        &self,
        range: &KeyRange,
        limit: u32,
        reverse: bool,
    ) -> Result<(Items<(Key, Bytes)>, bool), Refusal>
        ensures { Answers result None (λ page. (page.0 ≡ first_of limit (pairs_in self.now range.now reverse))
            × (page.1 ≡ nat_lt (length page.0) (length (pairs_in self.now range.now reverse)))) }
    {
        let pairs = self.range(range, one_more(limit), reverse)?;
        Ok(page_of(pairs, limit))
    }

    /// Whether the same keys have the same values in both maps.
    pub fn is_same(&self, other: &PlainMap) -> bool
        ensures { IsTrue result ↔ (self.now ≡ other.now) }
    {
        self.pairs.len() == other.pairs.len() && self.pairs == other.pairs
    }

    // Gives the key the value, or takes its value from it.
    fn put(&mut self, key: &Key, value: Option<Bytes>) -> Result<(), Refusal>
        ensures answers { Answers result None (λ _. self.new ≡ with_value self.old key.now value) }
        ensures err { OnErr result (self.new ≡ self.old) }
        ensures clears { value ≡ None → IsOk result }
    {
        match value {
            Some(value) => {
                let key = key.text().clone()?;
                self.set(key, value)
            }
            None => {
                self.clear(key);
                Ok(())
            }
        }
    }

    // Gives the key the value.
    fn set(&mut self, key: Bytes, value: Bytes) -> Result<(), Refusal>
        requires { IsTrue (is_key key) }
        ensures answers { Answers result None (λ _. self.new ≡ finite.insert self.old key value) }
        ensures err { OnErr result (self.new ≡ self.old) }
    {
        self.pairs.insert(key, value)?;
        Ok(())
    }

    // Takes the key's value from it, if it has one.
    fn clear(&mut self, key: &Key)
        ensures { self.new ≡ finite.remove self.old key.now }
    {
        self.pairs.remove(key.text());
    }

    // Takes their values from the keys of the range, in O(log n) comparisons for n keys and each key of the range.
    fn clear_range(&mut self, range: &KeyRange)
        ensures { self.new ≡ finite.retain_keys self.old (λ x. not (in_range range.now x)) }
    {
        clear_pairs(&mut self.pairs, range);
    }
}
