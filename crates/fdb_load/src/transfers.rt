// Accounts between which amounts are moved.
ghost use Rattle.std.specs.Prelude.{◌≡◌, Some, length};
ghost use Rattle.std.specs.Bool.{Decides};
ghost use Rattle.fdb_load.specs.Sums.{told_sum};

use crate::halt::Halt;
use crate::names::name_of;
use crate::sums::sum_of;
use crate::values::{put, read_number};
use bytes::Bytes;
use fdb_keys::{Key, Refusal};
use fdb_runtime::{ClusterName, Session};
use rand_core::Rng;
use rand_pcg::Pcg32;
use std::alloc::Global;
use std::sync::Wait;

pub(crate) const LETTER: u8 = b't';

/// How many accounts there are.
pub(crate) const KEYS: u8 = 32;

// What each account has at first.
const AMOUNT: u64 = 1_000;

// What all accounts have.
const SUM: u64 = 32_000;

// How much is moved at most.
const GREATEST: u64 = 10;

/// Each account gets its first amount.
pub(crate) fn set_up<B: ClusterName>(
    alloc: Global,
    session: &mut Session<B>,
) -> Result<(), Refusal> {
    for number in 0..KEYS {
        put(
            alloc,
            session,
            &name_of(LETTER, number),
            &AMOUNT.to_le_bytes(),
        )?;
    }
    Ok(())
}

/// A random amount goes from a random account to another one, or as much of it as is there.
pub(crate) fn fill<B: ClusterName, R: Wait>(
    rt: &R,
    alloc: Global,
    session: &mut Session<B>,
    random: &mut Pcg32,
) -> Result<(), Halt> {
    let (from, to) = two_accounts(random);
    let left = read_number(rt, alloc, session, &name_of(LETTER, from))?;
    let there = read_number(rt, alloc, session, &name_of(LETTER, to))?;
    let moved = (random.next_u64() % (GREATEST + 1)).min(left);
    let Some(sum) = there.checked_add(moved) else {
        return Err(Halt::Broken);
    };
    put(
        alloc,
        session,
        &name_of(LETTER, from),
        &(left - moved).to_le_bytes(),
    )?;
    put(alloc, session, &name_of(LETTER, to), &sum.to_le_bytes())?;
    Ok(())
}

// The numbers of two random accounts.
fn two_accounts(random: &mut Pcg32) -> (u8, u8) {
    let keys = u32::from(KEYS);
    let from = random.next_u32() % keys;
    let further = 1 + random.next_u32() % (keys - 1);
    (from as u8, ((from + further) % keys) as u8)
}

/// Whether the pairs are those of all accounts, and have together what they had at first.
pub(crate) fn is_whole(pairs: &[(Key, Bytes)]) -> bool
    ensures { Decides result ((length pairs.now ≡ 32) × (told_sum pairs.now ≡ Some 32000)) }
{
    pairs.len() == usize::from(KEYS) && sum_of(pairs) == Some(SUM)
}
