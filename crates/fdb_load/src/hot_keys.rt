// The keys at which transactions conflict most often.
ghost use Rattle.std.specs.Prelude.{IfErr, [], ◌≡◌};

use crate::names::{Name, name_in};
use fdb_keys::{RangeSet, Refusal};
use fdb_print::Sink;
use std::alloc::Global;
use std::collections::BTreeMap;
use std::io;

// How many keys are told.
const TOLD: u32 = 5;

/// For each key of the workload how many transactions were refused since they conflict there.
#[derive(Drop)]
pub struct HotKeys {
    // By the number that the name's bytes make, which rises as the names do.
    counts: BTreeMap<u32, u64>,
}

impl HotKeys {
    /// No transaction conflicted. It takes no memory and O(1) time.
    pub fn new(alloc: Global) -> Self
        ensures { result.counts.entries ≡ [] }
    {
        HotKeys {
            counts: BTreeMap::new(alloc),
        }
    }

    /// One more transaction conflicts at the points of the set, and is counted at the first key of each range. Refused
    /// only as `NoMemory`, and then some aren't counted. It takes O(k log n) time for k ranges of the set and n keys.
    pub fn note(&mut self, conflict: &RangeSet) -> Result<(), Refusal> {
        for range in conflict.iter() {
            if let Some(name) = name_in(range.begin()) {
                self.add(u32::from_be_bytes(name), 1)?;
            }
        }
        Ok(())
    }

    fn add(&mut self, key: u32, count: u64) -> Result<(), Refusal> {
        let before = match self.counts.get(&key) {
            Some(before) => *before,
            None => 0,
        };
        self.counts.insert(key, before.saturating_add(count))?;
        Ok(())
    }

    /// Adds what was counted elsewhere.
    pub(crate) fn join(&mut self, other: &HotKeys) -> Result<(), Refusal> {
        for (key, count) in other.counts.iter() {
            self.add(*key, *count)?;
        }
        Ok(())
    }

    // The key that is told after this one, if there is one: each conflicted less often than the one before it, or as
    // often and comes after it.
    fn next(&self, last: Option<(u64, u32)>) -> Option<(u64, u32)> {
        let mut next = None;
        for (key, count) in self.counts.iter() {
            let here = (*count, *key);
            if is_told_after(here, last) && is_told_before(here, next) {
                next = Some(here);
            }
        }
        next
    }

    /// Tells the five keys at which most transactions conflicted, the first one first, or fewer if there are fewer; of
    /// keys with the same number, those whose names come first. It takes O(n) time for n keys.
    pub fn tell<E: Sink>(&self, err: &mut E) -> io::Result<()>
        ensures { IfErr result E.errors }
    {
        let mut last = None;
        for _told in 0..TOLD {
            last = self.next(last);
            if let Some((count, key)) = last {
                tell_one(key, count, err)?;
            } else {
                return Ok(());
            }
        }
        Ok(())
    }
}

// Whether the key comes after one that is told, if any was.
fn is_told_after(key: (u64, u32), last: Option<(u64, u32)>) -> bool {
    match last {
        Some(last) => key.0 < last.0 || (key.0 == last.0 && key.1 > last.1),
        None => true,
    }
}

// Whether it comes before the other one, if there is one.
fn is_told_before(key: (u64, u32), other: Option<(u64, u32)>) -> bool {
    match other {
        Some(other) => is_told_after(other, Some(key)),
        None => true,
    }
}

fn tell_one<E: Sink>(key: u32, count: u64, err: &mut E) -> io::Result<()>
    ensures { IfErr result E.errors }
{
    let name: Name = key.to_be_bytes();
    let (letter, slash) = (char::from(name[0]), char::from(name[1]));
    let (ten, one) = (char::from(name[2]), char::from(name[3]));
    writeln!(
        err,
        "{count} transactions conflict at {letter}{slash}{ten}{one}"
    )
}
