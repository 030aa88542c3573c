// The mutations of keys, values and operands that are given as bytes.
ghost use Rattle.std.specs.Prelude.{◌≡◌};
ghost use Rattle.fdb_keys.specs.Answers.{Answers};
ghost use Rattle.fdb_keys.specs.Texts.{key_fault};

use crate::mutation::Mutation;
use bytes::Bytes;
use fdb_keys::{Key, KeyRange, Refusal};
use std::alloc::Global;

// The key, and what the mutation carries.
fn key_and_bytes(alloc: Global, key: &[u8], carried: &[u8]) -> Result<(Key, Bytes), Refusal>
    ensures { Answers result (key_fault key.now) (λ made. made ≡ (key.now, carried.now)) }
{
    let key = Key::new(alloc, key)?;
    let carried = Bytes::copy_from_slice(alloc, carried)?;
    Ok((key, carried))
}

impl Mutation {
    ghost use Rattle.std.specs.Prelude.{◌≡◌};
    ghost use Rattle.fdb_keys.specs.Answers.{Answers};
    ghost use Rattle.fdb_keys.specs.Texts.{key_fault, range_fault};
    ghost use Rattle.fdb_mutations.specs.declared.mutation.Mutation.TheVariants.{Set, Clear, ClearRange, Add, And, Or};
    ghost use Rattle.fdb_mutations.specs.declared.mutation.Mutation.TheVariants.{Xor, Max, Min, ByteMin, ByteMax};
    ghost use Rattle.fdb_mutations.specs.declared.mutation.Mutation.TheVariants.{CompareAndClear, Stamped};

    /// The key is to have the value. Refused as `Key::new` refuses the key, and as `NoMemory`; the value is looked at
    /// by `check` alone, as the operands of the other mutations are. O(n) in the bytes given.
    pub fn set(alloc: Global, key: &[u8], value: &[u8]) -> Result<Self, Refusal>
        ensures { Answers result (key_fault key.now) (λ mutation. mutation ≡ Set key.now value.now) }
    {
        let (key, value) = key_and_bytes(alloc, key, value)?;
        Ok(Mutation::Set { key, value })
    }

    /// The key is to have no value. Refused as `Key::new` refuses the key, and as `NoMemory`.
    pub fn clear(alloc: Global, key: &[u8]) -> Result<Self, Refusal>
        ensures { Answers result (key_fault key.now) (λ mutation. mutation ≡ Clear key.now) }
    {
        let key = Key::new(alloc, key)?;
        Ok(Mutation::Clear { key })
    }

    /// The keys from `begin` up to but not including `end` are to have no value. Refused as `KeyRange::new` refuses the
    /// range, and as `NoMemory`.
    pub fn clear_range(alloc: Global, begin: &[u8], end: &[u8]) -> Result<Self, Refusal>
        ensures { Answers result (range_fault begin.now end.now)
            (λ mutation. mutation ≡ ClearRange (record { begin = begin.now; end = end.now })) }
    {
        let range = KeyRange::new(alloc, begin, end)?;
        Ok(Mutation::ClearRange { range })
    }

    /// The operand is to be added to the key's value, as a number. Refused as `set` is.
    pub fn add(alloc: Global, key: &[u8], operand: &[u8]) -> Result<Self, Refusal>
        ensures { Answers result (key_fault key.now) (λ mutation. mutation ≡ Add key.now operand.now) }
    {
        let (key, operand) = key_and_bytes(alloc, key, operand)?;
        Ok(Mutation::Add { key, operand })
    }

    /// The key's value is to keep the bits that the operand has, too. Refused as `set` is.
    pub fn and(alloc: Global, key: &[u8], operand: &[u8]) -> Result<Self, Refusal>
        ensures { Answers result (key_fault key.now) (λ mutation. mutation ≡ And key.now operand.now) }
    {
        let (key, operand) = key_and_bytes(alloc, key, operand)?;
        Ok(Mutation::And { key, operand })
    }

    /// The key's value is to get the bits that the operand has. Refused as `set` is.
    pub fn or(alloc: Global, key: &[u8], operand: &[u8]) -> Result<Self, Refusal>
        ensures { Answers result (key_fault key.now) (λ mutation. mutation ≡ Or key.now operand.now) }
    {
        let (key, operand) = key_and_bytes(alloc, key, operand)?;
        Ok(Mutation::Or { key, operand })
    }

    /// The bits of the key's value that the operand has are to change. Refused as `set` is.
    pub fn xor(alloc: Global, key: &[u8], operand: &[u8]) -> Result<Self, Refusal>
        ensures { Answers result (key_fault key.now) (λ mutation. mutation ≡ Xor key.now operand.now) }
    {
        let (key, operand) = key_and_bytes(alloc, key, operand)?;
        Ok(Mutation::Xor { key, operand })
    }

    /// The key is to have the greater of its value and the operand, as numbers. Refused as `set` is.
    pub fn max(alloc: Global, key: &[u8], operand: &[u8]) -> Result<Self, Refusal>
        ensures { Answers result (key_fault key.now) (λ mutation. mutation ≡ Max key.now operand.now) }
    {
        let (key, operand) = key_and_bytes(alloc, key, operand)?;
        Ok(Mutation::Max { key, operand })
    }

    /// The key is to have the smaller of its value and the operand, as numbers. Refused as `set` is.
    pub fn min(alloc: Global, key: &[u8], operand: &[u8]) -> Result<Self, Refusal>
        ensures { Answers result (key_fault key.now) (λ mutation. mutation ≡ Min key.now operand.now) }
    {
        let (key, operand) = key_and_bytes(alloc, key, operand)?;
        Ok(Mutation::Min { key, operand })
    }

    /// The key is to have the smaller of its value and the operand, in the order of bytes. Refused as `set` is.
    pub fn byte_min(alloc: Global, key: &[u8], operand: &[u8]) -> Result<Self, Refusal>
        ensures { Answers result (key_fault key.now) (λ mutation. mutation ≡ ByteMin key.now operand.now) }
    {
        let (key, operand) = key_and_bytes(alloc, key, operand)?;
        Ok(Mutation::ByteMin { key, operand })
    }

    /// The key is to have the greater of its value and the operand, in the order of bytes. Refused as `set` is.
    pub fn byte_max(alloc: Global, key: &[u8], operand: &[u8]) -> Result<Self, Refusal>
        ensures { Answers result (key_fault key.now) (λ mutation. mutation ≡ ByteMax key.now operand.now) }
    {
        let (key, operand) = key_and_bytes(alloc, key, operand)?;
        Ok(Mutation::ByteMax { key, operand })
    }

    /// The key is to have no value, if it has the operand. Refused as `set` is.
    pub fn compare_and_clear(alloc: Global, key: &[u8], operand: &[u8]) -> Result<Self, Refusal>
        ensures { Answers result (key_fault key.now) (λ mutation. mutation ≡ CompareAndClear key.now operand.now) }
    {
        let (key, operand) = key_and_bytes(alloc, key, operand)?;
        Ok(Mutation::CompareAndClear { key, operand })
    }

    /// The key is to have the operand, whose ten bytes at the offset are to be the stamp of the commit. Refused as
    /// `set` is; whether the operand has ten bytes there is looked at by `check` alone.
    pub fn stamped(alloc: Global, key: &[u8], operand: &[u8], offset: u32) -> Result<Self, Refusal>
        ensures { Answers result (key_fault key.now) (λ mutation. mutation ≡ Stamped key.now operand.now offset) }
    {
        let (key, operand) = key_and_bytes(alloc, key, operand)?;
        Ok(Mutation::Stamped {
            key,
            operand,
            offset,
        })
    }
}
