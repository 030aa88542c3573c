// A transaction that is sealed, by what its mutations name.
ghost use Rattle.std.specs.Prelude.{◌≡◌, All, None, IfOk};
ghost use Rattle.fdb_mutations.specs.Mutations.{mutation_fault};

use crate::numbers::{Fault, shared};
use crate::storage::pool_of;
use fdb_keys::{Items, Key, RangeSet, Refusal, Refused};
use fdb_mutations::Mutation;
use fdb_txn::{Sealed, TxnId, Unsealed};
use rand_core::Rng;
use rand_pcg::Pcg32;
use std::alloc::Global;
use std::time::{Clock, Duration, Instant};

// How long a value is.
const BYTES: usize = 16;

/// How long it takes to seal so many sets of random keys, with an empty read set and an empty write set, which what
/// they name joins. They are made outside of that time.
pub(crate) fn measure<R: Clock>(rt: &R, alloc: Global, mutations: u32) -> Result<Duration, Fault> {
    let mut random = Pcg32::new(1, 1);
    let keys = pool_of(alloc, &mut random, mutations)?;
    let sets = sets_of(alloc, &mut random, keys.as_slice())?;
    seal_timed(rt, alloc, sets)
}

/// A set of each of the keys, to a value of 16 bytes.
pub(crate) fn sets_of(
    alloc: Global,
    random: &mut Pcg32,
    keys: &[Key],
) -> Result<Items<Mutation>, Refusal>
    ensures { IfOk result (λ sets. All (λ set. mutation_fault set ≡ None) sets) }
{
    let mut sets = Items::new(alloc);
    for key in keys {
        sets.push(legal_set(alloc, random, key)?)?;
    }
    Ok(sets)
}

// A set of the key.
fn legal_set(alloc: Global, random: &mut Pcg32, key: &Key) -> Result<Mutation, Refusal>
    ensures { IfOk result (λ set. mutation_fault set ≡ None) }
{
    let text = random.next_u32().to_be_bytes();
    Mutation::set(alloc, key.bytes(), &[text[0]; BYTES])
}

// How long it takes to seal the mutations. What becomes of them is dropped outside of that time.
fn seal_timed<R: Clock>(rt: &R, alloc: Global, sets: Items<Mutation>) -> Result<Duration, Fault>
    requires { All (λ set. mutation_fault set ≡ None) sets }
{
    let id = TxnId {
        session: 0,
        number: 0,
    };
    let (reads, writes) = (RangeSet::new(alloc), RangeSet::new(alloc));
    let sets = shared(alloc, sets)?;
    let begin = Instant::now(rt)?;
    let sealed = Sealed::new(alloc, id, 0, reads, writes, sets);
    let took = begin.elapsed(rt);
    end(sealed)?;
    Ok(took?)
}

// Drops what was sealed, or says why it was refused.
fn end(sealed: Result<Sealed, Refused<Unsealed>>) -> Result<(), Refusal> {
    match sealed {
        Ok(_sealed) => Ok(()),
        Err(refused) => Err(refused.why),
    }
}
