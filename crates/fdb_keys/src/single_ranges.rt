// The ranges of several keys, each of one key alone.
ghost use Rattle.std.specs.Prelude.{◌≡◌, ◌++◌, map, IfOk, OnOk};
ghost use Rattle.fdb_keys.specs.Ranges.{single_range};
ghost use Rattle.fdb_keys.specs.Singles.{ends_of};

use crate::key::Key;
use crate::key_range::KeyRange;
use crate::refusal::Refusal;
use bytes::Bytes;
use std::alloc::{AllocError, Global};

// The ends of how many ranges stand in one piece of memory. Who keeps a copy of one of them keeps the bytes of all.
const TOGETHER: usize = 4;

impl KeyRange {
    ghost use Rattle.std.specs.Prelude.{◌≡◌, None, map};
    ghost use Rattle.fdb_keys.specs.Answers.{Answers};
    ghost use Rattle.fdb_keys.specs.Ranges.{single_range};

    /// The range of each key alone, in the order of the keys. The ends of up to four of them that follow each other
    /// stand in one piece of memory, which is given back once no copy of any of these is left. It takes O(n) time for n
    /// keys and their bytes. Refused only as `NoMemory`.
    pub fn singles(alloc: Global, keys: &[Key]) -> Result<Vec<KeyRange>, Refusal>
        ensures { Answers result None (λ ranges. ranges.items ≡ map single_range keys.now) }
    {
        let mut ranges = Vec::with_capacity(alloc, keys.len())?;
        for group in keys.chunks(TOGETHER) {
            push_singles(alloc, &mut ranges, group)?;
        }
        Ok(ranges)
    }
}

// Adds the range of each key alone to the list.
fn push_singles(alloc: Global, ranges: &mut Vec<KeyRange>, keys: &[Key]) -> Result<(), AllocError>
    ensures { OnOk result (ranges.new.items ≡ ranges.old.items ++ map single_range keys.now) }
{
    let mut ends = ends_of(alloc, keys)?;
    for key in keys {
        let end = ends.split_to(key.bytes().len() + 1)?;
        ranges.push(KeyRange::ending(key, end)?)?;
    }
    Ok(())
}

// The ends of the ranges of the keys, one behind the other.
fn ends_of(alloc: Global, keys: &[Key]) -> Result<Bytes, AllocError>
    ensures { IfOk result (λ ends. ends ≡ ends_of keys.now) }
{
    let mut ends = Vec::with_capacity(alloc, ends_len(keys))?;
    for key in keys {
        ends.extend_from_slice(key.bytes())?;
        ends.push(0)?;
    }
    Ok(Bytes::from_vec(ends)?)
}

// How many bytes these ends have.
fn ends_len(keys: &[Key]) -> usize {
    keys.iter().fold(0, |len: usize, key: &Key| -> usize {
        len.saturating_add(key.bytes().len() + 1)
    })
}
