// A set of ranges that is given many at once.
use crate::numbers::{Fault, random_key};
use fdb_keys::{KeyRange, RangeSet, Refusal};
use rand_pcg::Pcg32;
use std::alloc::Global;
use std::time::{Clock, Duration, Instant};

/// How long a new set takes for so many ranges at once, each of one random key. They are made outside of that time.
pub(crate) fn measure<R: Clock>(rt: &R, alloc: Global, count: u32) -> Result<Duration, Fault> {
    let ranges = make_ranges(alloc, count)?;
    let mut set = RangeSet::new(alloc);
    let begin = Instant::now(rt)?;
    set.add_all(ranges)?;
    let took = begin.elapsed(rt)?;
    Ok(took)
}

// So many ranges, each of one random key.
fn make_ranges(alloc: Global, count: u32) -> Result<Vec<KeyRange>, Refusal> {
    let mut random = Pcg32::new(1, 1);
    let mut ranges = Vec::new(alloc);
    for _range in 0..count {
        ranges.push(KeyRange::single(alloc, &random_key(alloc, &mut random)?)?)?;
    }
    Ok(ranges)
}
