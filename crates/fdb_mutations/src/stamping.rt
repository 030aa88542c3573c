// Mutations with the stamp of their commit.
ghost use Rattle.std.specs.Prelude.{◌≡◌, ◌<◌, ◌^◌, IfOk};
ghost use Rattle.fdb_mutations.specs.Stamps.{with_stamp};

use crate::mutation::Mutation;
use crate::stamp::{STAMP_SIZE, Stamp};
use bytes::Bytes;
use std::alloc::{AllocError, Global};

// The operand with the stamp in place of the bytes at the offset.
fn with_stamp(
    alloc: Global,
    operand: &[u8],
    offset: usize,
    stamp: &[u8],
) -> Result<Bytes, AllocError>
    requires { offset < 2 ^ 32 }
    ensures { IfOk result (λ bytes. bytes ≡ with_stamp operand.now offset stamp.now) }
{
    let begin = operand.len().min(offset);
    let end = operand.len().min(offset + STAMP_SIZE);
    let mut bytes = Vec::new(alloc);
    bytes.reserve_exact(operand.len())?;
    bytes.extend_from_slice(&operand[..begin])?;
    bytes.extend_from_slice(stamp)?;
    bytes.extend_from_slice(&operand[end..])?;
    Ok(Bytes::from_vec(bytes)?)
}

impl Mutation {
    ghost use Rattle.std.specs.Prelude.{◌≡◌, IfOk};
    ghost use Rattle.fdb_mutations.specs.Stamping.{is_stamped, stamped};
    ghost use Rattle.fdb_mutations.specs.Stamps.{stamp_bytes};

    /// The mutation with the stamp of its commit: a `Stamped` becomes a `Set` of its operand with the stamp's ten bytes
    /// in place of those at its offset, and any other mutation is copied as it is. Refused only for want of memory. It
    /// takes O(n) time for an operand of n bytes of a `Stamped`, and O(1) for any other mutation.
    pub fn stamp(&self, alloc: Global, stamp: Stamp) -> Result<Mutation, AllocError>
        ensures { IfOk result (λ mutation. mutation
            ≡ stamped (stamp_bytes stamp.version stamp.place) self.now) }
    {
        match self {
            Mutation::Stamped {
                key,
                operand,
                offset,
            } => {
                let key = key.clone()?;
                let bytes = stamp.bytes();
                let value = with_stamp(alloc, operand.as_slice(), *offset as usize, &bytes)?;
                Ok(Mutation::Set { key, value })
            }
            _ => self.clone(),
        }
    }

    /// Whether the mutation waits for the stamp of its commit. It takes no memory, and O(1) time.
    pub fn is_stamped(&self) -> bool
        ensures { result ≡ is_stamped self.now }
    {
        matches!(self, Mutation::Stamped { .. })
    }
}
