// Numbers to which all clients add, without reading them.
ghost use Rattle.std.specs.Prelude.{◌≡◌, Some, length};
ghost use Rattle.std.specs.Bool.{Decides};
ghost use Rattle.fdb_load.specs.Sums.{told_sum};

use crate::halt::Halt;
use crate::names::name_of;
use crate::sums::sum_of;
use crate::values::{add, put};
use bytes::Bytes;
use fdb_keys::{Key, Refusal};
use fdb_runtime::{ClusterName, Session};
use rand_core::Rng;
use rand_pcg::Pcg32;
use std::alloc::Global;

pub(crate) const LETTER: u8 = b'c';

/// How many numbers there are.
pub(crate) const KEYS: u8 = 4;

/// Each number is 0.
pub(crate) fn set_up<B: ClusterName>(
    alloc: Global,
    session: &mut Session<B>,
) -> Result<(), Refusal> {
    for number in 0..KEYS {
        put(
            alloc,
            session,
            &name_of(LETTER, number),
            &0_u64.to_le_bytes(),
        )?;
    }
    Ok(())
}

/// Adds 1 to a random number.
pub(crate) fn fill<B: ClusterName>(
    alloc: Global,
    session: &mut Session<B>,
    random: &mut Pcg32,
) -> Result<(), Halt> {
    let number = (random.next_u32() % u32::from(KEYS)) as u8;
    add(alloc, session, &name_of(LETTER, number), 1)?;
    Ok(())
}

/// Whether the pairs are those of all numbers, and their sum is how many transactions were committed.
pub(crate) fn is_sum(pairs: &[(Key, Bytes)], committed: u64) -> bool
    ensures { Decides result ((length pairs.now ≡ 4) × (told_sum pairs.now ≡ Some committed)) }
{
    pairs.len() == usize::from(KEYS) && sum_of(pairs) == Some(committed)
}
