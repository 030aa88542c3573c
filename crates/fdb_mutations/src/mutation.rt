ghost use Rattle.std.specs.Prelude.{◌≡◌, ⊤, None, IfOk, IsOk, if◌then◌else◌};
ghost use Rattle.std.specs.FinMap.{get};
ghost use Rattle.std.specs.Option.{option_copied};
ghost use Rattle.fdb_keys.specs.Answers.{Answers, AnswersExactly};
ghost use Rattle.fdb_keys.specs.Points.{Point};
ghost use Rattle.fdb_keys.specs.Ranges.{Range, in_range};
ghost use Rattle.fdb_mutations.specs.Maps.{Map};
ghost use Rattle.fdb_mutations.specs.Mutations.{mutation_fault, named, names, named_range, is_blind, mutation_size};
ghost use Rattle.fdb_mutations.specs.Mutations.{new_value, value_after, effect, clipped_mutation, effect_of, carried};
ghost use Rattle.fdb_mutations.specs.Naming.{named_by};
ghost use Rattle.fdb_mutations.specs.declared.mutation.Mutation.TheVariants.{Set, Clear, ClearRange};

use crate::operands::{
    added, and, byte_max, byte_min, copy, is_addend, max, min, or, unless_equal, xor,
};
use crate::stamp::has_room;
use bytes::Bytes;
use fdb_keys::{Key, KeyRange, Refusal};
use std::alloc::{AllocError, Global};

/// The most bytes that a value may have.
pub const VALUE_LIMIT: usize = 100_000;

/// A change of a map.
///
/// What an operand is put to is the old value, cut to the operand's length or extended to it with zero bytes at its
/// end. Numbers are little-endian. Where a key has no value, the mutations that compare, and `And`, set the operand,
/// and the others take zero bytes for it.
#[derive(Drop, PartialEq, Eq)]
pub enum Mutation {
    /// The key has the value from now on.
    Set {
        key: Key,
        value: Bytes,
    },
    /// The key has no value from now on.
    Clear {
        key: Key,
    },
    /// The keys of the range have no value from now on.
    ClearRange {
        range: KeyRange,
    },
    /// The operand, of 1 to 16 bytes, is added to the value as a number, wrapped at its length.
    Add {
        key: Key,
        operand: Bytes,
    },
    /// The bits that the value and the operand both have.
    And {
        key: Key,
        operand: Bytes,
    },
    /// The bits that the value or the operand has.
    Or {
        key: Key,
        operand: Bytes,
    },
    /// The bits that one of the value and the operand has.
    Xor {
        key: Key,
        operand: Bytes,
    },
    /// The greater of the value and the operand, as numbers.
    Max {
        key: Key,
        operand: Bytes,
    },
    /// The smaller of the value and the operand, as numbers.
    Min {
        key: Key,
        operand: Bytes,
    },
    /// The smaller of the value and the operand, in the order of bytes and without a change of length.
    ByteMin {
        key: Key,
        operand: Bytes,
    },
    /// The greater of the value and the operand, in the order of bytes and without a change of length.
    ByteMax {
        key: Key,
        operand: Bytes,
    },
    /// The key has no value from now on, if it had the operand.
    CompareAndClear {
        key: Key,
        operand: Bytes,
    },
    /// The key has the operand from now on, whose ten bytes at the offset are the stamp of its commit.
    Stamped {
        key: Key,
        operand: Bytes,
        offset: u32,
    },
}

/// What a mutation names.
#[derive(Clone, Copy)]
pub enum Named<'a> {
    /// One key alone.
    Key(&'a Key),
    /// All keys of a range.
    Range(&'a KeyRange),
}

impl Mutation {
    /// Whether the mutation is a legal one. Refused as `ValueTooLarge` where a value or an operand exceeds 100,000
    /// bytes, and as `BadOperand` where a number to add has no byte or more than 16, and where an operand hasn't the
    /// ten bytes of a stamp at its offset.
    pub fn check(&self) -> Result<(), Refusal>
        ensures { AnswersExactly result (mutation_fault self.now) (λ _. ⊤) }
    {
        if self.carried().len() > VALUE_LIMIT {
            return Err(Refusal::ValueTooLarge);
        }
        match self {
            Mutation::Add { operand, .. } if !is_addend(operand.as_slice()) => Err(
                Refusal::BadOperand,
            ),
            Mutation::Stamped {
                operand,
                offset,
                ..
            } if !has_room(operand.as_slice(), *offset) => Err(Refusal::BadOperand),
            _ => Ok(()),
        }
    }

    /// What the mutation names. It changes nothing else.
    pub fn named(&self) -> Named<'_>
        ensures { named_by result ≡ named self.now }
    {
        match self {
            Mutation::ClearRange { range } => Named::Range(range),
            Mutation::Set { key, .. }
            | Mutation::Clear { key }
            | Mutation::Add { key, .. }
            | Mutation::And { key, .. }
            | Mutation::Or { key, .. }
            | Mutation::Xor { key, .. }
            | Mutation::Max { key, .. }
            | Mutation::Min { key, .. }
            | Mutation::ByteMin { key, .. }
            | Mutation::ByteMax { key, .. }
            | Mutation::CompareAndClear { key, .. }
            | Mutation::Stamped { key, .. } => Named::Key(key),
        }
    }

    /// Whether the mutation names the key.
    pub fn names(&self, key: &Key) -> bool
        ensures { result ≡ names self.now key.now }
    {
        match self.named() {
            Named::Key(named) => key == named,
            Named::Range(range) => range.contains(key),
        }
    }

    /// The range of the keys that the mutation names. Refused only as `NoMemory`.
    pub fn range(&self, alloc: Global) -> Result<KeyRange, Refusal>
        ensures answers { Answers result None (λ range. range ≡ named_range self.now) }
        ensures points { IfOk result (λ range. (x : Point) → in_range range x ≡ names self.now x) }
    {
        match self.named() {
            Named::Key(key) => KeyRange::single(alloc, key),
            Named::Range(range) => {
                let range = range.clone()?;
                Ok(range)
            }
        }
    }

    /// Whether the new value doesn't depend on the old one.
    pub fn is_blind(&self) -> bool
        ensures { result ≡ is_blind self.now }
    {
        match self {
            Mutation::Set { .. }
            | Mutation::Clear { .. }
            | Mutation::ClearRange { .. }
            | Mutation::Stamped { .. } => true,
            _ => false,
        }
    }

    /// How many bytes the mutation has: those of its key, or of its range's bounds, and of its value or operand.
    pub fn size(&self) -> u64
        ensures { result ≡ mutation_size self.now }
    {
        let naming = match self.named() {
            Named::Key(key) => key.bytes().len(),
            Named::Range(range) => range.begin().len() + range.end().len(),
        };
        (naming + self.carried().len()) as u64
    }

    /// What stands at a key that the mutation names, by what stood there. Refused only as `NoMemory`. A clear of a key
    /// or of a range takes no memory, and is never refused. An `Add` that `check` refuses leaves what stood there. Of a
    /// `Stamped` the bare operand stands for what it becomes at its commit.
    pub fn apply_value(
        &self,
        alloc: Global,
        value: Option<&Bytes>,
    ) -> Result<Option<Bytes>, Refusal>
        ensures answers { Answers result None (λ new. new ≡ new_value self.now (option_copied value.entry)) }
        ensures clears { (key : Point) → self.now ≡ Clear key → IsOk result }
        ensures clears_ranges { (range : Range) → self.now ≡ ClearRange range → IsOk result }
    {
        match self {
            Mutation::Set { value: set, .. } => Ok(Some(copy(set)?)),
            Mutation::Clear { .. } | Mutation::ClearRange { .. } => Ok(None),
            Mutation::Add { operand, .. } => added(alloc, value, operand),
            Mutation::And { operand, .. } => Ok(Some(and(alloc, value, operand)?)),
            Mutation::Or { operand, .. } => Ok(Some(or(alloc, value, operand)?)),
            Mutation::Xor { operand, .. } => Ok(Some(xor(alloc, value, operand)?)),
            Mutation::Max { operand, .. } => Ok(Some(max(alloc, value, operand)?)),
            Mutation::Min { operand, .. } => Ok(Some(min(alloc, value, operand)?)),
            Mutation::ByteMin { operand, .. } => Ok(Some(byte_min(value, operand)?)),
            Mutation::ByteMax { operand, .. } => Ok(Some(byte_max(value, operand)?)),
            Mutation::CompareAndClear { operand, .. } => unless_equal(value, operand),
            Mutation::Stamped { operand, .. } => Ok(Some(copy(operand)?)),
        }
    }

    /// What stands at the key after the mutation, by what stood there: the same where the mutation doesn't name the
    /// key. Refused only as `NoMemory`.
    pub fn value_after(
        &self,
        alloc: Global,
        key: &Key,
        value: Option<Bytes>,
    ) -> Result<Option<Bytes>, Refusal>
        ensures { Answers result None (λ new. new ≡ value_after key.now value self.now) }
    {
        if !self.names(key) {
            return Ok(value);
        }
        self.apply_value(alloc, value.as_ref())
    }

    /// The mutation cut to the range, whose effect is that of the mutation at the points of the range and none
    /// elsewhere: `None` exactly where the range has no point that the mutation names. Refused only as `NoMemory`.
    pub fn clip(&self, range: &KeyRange) -> Result<Option<Mutation>, Refusal>
        ensures answers { Answers result None (λ clipped. clipped ≡ clipped_mutation range.now self.now) }
        ensures effect { IfOk result (λ clipped. (map : Map) (x : Point)
            → get (effect_of map clipped) x
            ≡ (if in_range range.now x then get (effect map self.now) x else get map x)) }
    {
        match self.named() {
            Named::Key(key) => {
                if range.contains(key) {
                    let clipped = self.clone()?;
                    Ok(Some(clipped))
                } else {
                    Ok(None)
                }
            }
            Named::Range(cleared) => match cleared.clip(range)? {
                Some(range) => Ok(Some(Mutation::ClearRange { range })),
                None => Ok(None),
            },
        }
    }

    // The value or operand, and no bytes where the mutation carries none.
    fn carried(&self) -> &[u8]
        ensures { result.now ≡ carried self.now }
    {
        match self {
            Mutation::Set { value, .. } => value.as_slice(),
            Mutation::Clear { .. } | Mutation::ClearRange { .. } => &[],
            Mutation::Add { operand, .. }
            | Mutation::And { operand, .. }
            | Mutation::Or { operand, .. }
            | Mutation::Xor { operand, .. }
            | Mutation::Max { operand, .. }
            | Mutation::Min { operand, .. }
            | Mutation::ByteMin { operand, .. }
            | Mutation::ByteMax { operand, .. }
            | Mutation::CompareAndClear { operand, .. }
            | Mutation::Stamped { operand, .. } => operand.as_slice(),
        }
    }
}

// Written out, since a derived one takes the prover four times as long: there each case holds the copied key while it
// copies the value.
impl Clone for Mutation {
    ghost is_clone = { λ mutation copy. copy ≡ mutation };

    fn clone(&self) -> Result<Self, AllocError> {
        match self {
            Mutation::Set { key, value } => set_copy(key, value),
            Mutation::Clear { key } => clear_copy(key),
            Mutation::ClearRange { range } => clear_range_copy(range),
            Mutation::Add { key, operand } => {
                let (key, operand) = copies(key, operand)?;
                Ok(Mutation::Add { key, operand })
            }
            Mutation::And { key, operand } => {
                let (key, operand) = copies(key, operand)?;
                Ok(Mutation::And { key, operand })
            }
            Mutation::Or { key, operand } => {
                let (key, operand) = copies(key, operand)?;
                Ok(Mutation::Or { key, operand })
            }
            Mutation::Xor { key, operand } => {
                let (key, operand) = copies(key, operand)?;
                Ok(Mutation::Xor { key, operand })
            }
            Mutation::Max { key, operand } => {
                let (key, operand) = copies(key, operand)?;
                Ok(Mutation::Max { key, operand })
            }
            Mutation::Min { key, operand } => {
                let (key, operand) = copies(key, operand)?;
                Ok(Mutation::Min { key, operand })
            }
            Mutation::ByteMin { key, operand } => {
                let (key, operand) = copies(key, operand)?;
                Ok(Mutation::ByteMin { key, operand })
            }
            Mutation::ByteMax { key, operand } => {
                let (key, operand) = copies(key, operand)?;
                Ok(Mutation::ByteMax { key, operand })
            }
            Mutation::CompareAndClear { key, operand } => {
                let (key, operand) = copies(key, operand)?;
                Ok(Mutation::CompareAndClear { key, operand })
            }
            Mutation::Stamped {
                key,
                operand,
                offset,
            } => {
                let (key, operand) = copies(key, operand)?;
                Ok(Mutation::Stamped {
                    key,
                    operand,
                    offset: *offset,
                })
            }
        }
    }
}

// A copy of the key and one of the value or operand.
fn copies(key: &Key, carried: &Bytes) -> Result<(Key, Bytes), AllocError>
    ensures { IfOk result (λ copies. copies ≡ (key.now, carried.now)) }
{
    let key = key.clone()?;
    let carried = carried.clone()?;
    Ok((key, carried))
}

fn set_copy(key: &Key, value: &Bytes) -> Result<Mutation, AllocError>
    ensures { IfOk result (λ copy. copy ≡ Set key.now value.now) }
{
    let (key, value) = copies(key, value)?;
    Ok(Mutation::Set { key, value })
}

fn clear_copy(key: &Key) -> Result<Mutation, AllocError>
    ensures { IfOk result (λ copy. copy ≡ Clear key.now) }
{
    let key = key.clone()?;
    Ok(Mutation::Clear { key })
}

fn clear_range_copy(range: &KeyRange) -> Result<Mutation, AllocError>
    ensures { IfOk result (λ copy. copy ≡ ClearRange range.now) }
{
    let range = range.clone()?;
    Ok(Mutation::ClearRange { range })
}
