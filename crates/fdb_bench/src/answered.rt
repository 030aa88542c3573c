// The comparison of one transcript with what its program is answered on a map.
ghost use Rattle.std.specs.Prelude.{◌<◌, length};

use crate::client::{KEYS, map_of, operated, picks_of, random_sets};
use crate::numbers::Fault;
use crate::storage::pool_of;
use fdb_client::{Transcript, Txn, is_answered_on};
use fdb_keys::{Key, Refusal};
use fdb_mutations::PlainMap;
use rand_pcg::Pcg32;
use std::alloc::Global;
use std::time::{Clock, Duration, Instant};

/// How long it takes to compare the transcript of so many operations with the map that it read from: half of them get
/// random keys of the map, and half set such keys, in turn. A transaction makes it, outside of that time.
pub(crate) fn measure<R: Clock>(rt: &R, alloc: Global, operations: u32) -> Result<Duration, Fault> {
    let mut random = Pcg32::new(1, 1);
    let pool = pool_of(alloc, &mut random, KEYS)?;
    let map = map_of(alloc, &mut random, pool.as_slice())?;
    let txn = txn_of(alloc, &mut random, pool.as_slice(), &map, operations / 2)?;
    compare(rt, alloc, &map, txn.transcript())
}

// A transaction with so many gets of the keys, and as many sets.
fn txn_of(
    alloc: Global,
    random: &mut Pcg32,
    pool: &[Key],
    map: &PlainMap,
    count: u32,
) -> Result<Txn, Refusal>
    requires { 0 < length pool.now }
{
    let gets = picks_of(alloc, random, pool, count)?;
    let sets = random_sets(alloc, random, pool, count)?;
    operated(alloc, map, 0, gets.as_slice(), sets.as_slice())
}

// How long the comparison takes. A transcript that wasn't answered so is a fault of the program.
fn compare<R: Clock>(
    rt: &R,
    alloc: Global,
    map: &PlainMap,
    transcript: &Transcript,
) -> Result<Duration, Fault> {
    let begin = Instant::now(rt)?;
    let answered = is_answered_on(alloc, map, transcript)?;
    let took = begin.elapsed(rt)?;
    if !answered {
        return Err(Fault::NotAnswered);
    }
    Ok(took)
}
