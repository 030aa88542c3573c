// Keys of which each has the name of the next one.
ghost use Rattle.std.specs.Prelude.{◌≢◌, ◌<◌, ◌≤◌, ℕ, Some, IfSome, IfNone};
ghost use Rattle.std.specs.Bool.{Decides};
ghost use Rattle.fdb_load.specs.Rings.{first_name, name_after, IsBackAfter, IsOneCycle};

use crate::halt::Halt;
use crate::names::{Name, name_in, name_of};
use crate::values::{put, read_name, value_of};
use bytes::Bytes;
use fdb_keys::{Key, Refusal};
use fdb_runtime::{ClusterName, Session};
use rand_core::Rng;
use rand_pcg::Pcg32;
use std::alloc::Global;
use std::sync::Wait;

pub(crate) const LETTER: u8 = b'r';

/// How many keys there are.
pub(crate) const KEYS: u8 = 32;

/// Each key gets the name of the next one, and the last one that of the first one.
pub(crate) fn set_up<B: ClusterName>(
    alloc: Global,
    session: &mut Session<B>,
) -> Result<(), Refusal> {
    for number in 0..KEYS {
        let next = name_of(LETTER, (number + 1) % KEYS);
        put(alloc, session, &name_of(LETTER, number), &next)?;
    }
    Ok(())
}

/// Behind a random key, the next one and the one after it change places.
pub(crate) fn fill<B: ClusterName, R: Wait>(
    rt: &R,
    alloc: Global,
    session: &mut Session<B>,
    random: &mut Pcg32,
) -> Result<(), Halt> {
    let first = name_of(LETTER, (random.next_u32() % u32::from(KEYS)) as u8);
    let behind = read_on(rt, alloc, session, &first)?;
    change_places(alloc, session, &first, behind)?;
    Ok(())
}

// The names of the three keys behind the first one.
fn read_on<B: ClusterName, R: Wait>(
    rt: &R,
    alloc: Global,
    session: &mut Session<B>,
    first: &Name,
) -> Result<[Name; 3], Halt> {
    let second = read_name(rt, alloc, session, first)?;
    let third = read_name(rt, alloc, session, &second)?;
    let fourth = read_name(rt, alloc, session, &third)?;
    Ok([second, third, fourth])
}

// Of the three keys behind the first one, the first two change places.
fn change_places<B: ClusterName>(
    alloc: Global,
    session: &mut Session<B>,
    first: &Name,
    behind: [Name; 3],
) -> Result<(), Refusal> {
    let [second, third, fourth] = behind;
    put(alloc, session, first, &third)?;
    put(alloc, session, &third, &second)?;
    put(alloc, session, &second, &fourth)
}

/// Whether the pairs are those of one cycle of all keys.
pub(crate) fn is_whole(pairs: &[(Key, Bytes)]) -> bool
    ensures { Decides result (IsOneCycle pairs.now) }
{
    pairs.len() == usize::from(KEYS) && cycle_length(pairs) == Some(KEYS)
}

/// After how many steps the way from the first key comes back to it, if it does so within as many as there are keys.
pub(crate) fn cycle_length(pairs: &[(Key, Bytes)]) -> Option<u8>
    ensures some { IfSome result (λ steps. (steps ≤ 32) × IsBackAfter pairs.now steps) }
    ensures none { IfNone result
        ((steps : ℕ) → 0 < steps → steps ≤ 32 → name_after pairs.now steps ≢ Some first_name) }
{
    let first = name_of(LETTER, 0);
    let mut at = first;
    for steps in 1..=KEYS {
        at = name_in(value_of(pairs, &at)?)?;
        if at == first {
            return Some(steps);
        }
    }
    None
}
