// What a transaction reads at a key, and what it writes there.
ghost use Rattle.std.specs.Prelude.{◌≡◌};
ghost use Rattle.std.specs.Option.{option_copied};
ghost use Rattle.fdb_load.specs.Rings.{value_at};

use crate::halt::Halt;
use crate::names::{Name, name_in};
use crate::sums::number_in;
use bytes::Bytes;
use fdb_keys::{Key, Refusal};
use fdb_mutations::Mutation;
use fdb_runtime::{ClusterName, Session};
use std::alloc::Global;
use std::sync::Wait;

/// The value that the pairs have for the key.
pub(crate) fn value_of<'a>(pairs: &'a [(Key, Bytes)], key: &[u8]) -> Option<&'a [u8]>
    ensures { option_copied result ≡ value_at pairs.now key.now }
{
    for (at, value) in pairs {
        if at.bytes() == key {
            return Some(value.as_slice());
        }
    }
    None
}

// What the open transaction reads at the key.
fn read<B: ClusterName, R: Wait>(
    rt: &R,
    alloc: Global,
    session: &mut Session<B>,
    key: &[u8],
) -> Result<Option<Bytes>, Refusal> {
    let key = Key::new(alloc, key)?;
    session.get(rt, alloc, &key, false)
}

/// The name that the open transaction reads at the key.
pub(crate) fn read_name<B: ClusterName, R: Wait>(
    rt: &R,
    alloc: Global,
    session: &mut Session<B>,
    key: &[u8],
) -> Result<Name, Halt> {
    let Some(value) = read(rt, alloc, session, key)? else {
        return Err(Halt::Broken);
    };
    match name_in(value.as_slice()) {
        Some(name) => Ok(name),
        None => Err(Halt::Broken),
    }
}

/// The number that the open transaction reads at the key.
pub(crate) fn read_number<B: ClusterName, R: Wait>(
    rt: &R,
    alloc: Global,
    session: &mut Session<B>,
    key: &[u8],
) -> Result<u64, Halt> {
    let Some(value) = read(rt, alloc, session, key)? else {
        return Err(Halt::Broken);
    };
    match number_in(value.as_slice()) {
        Some(number) => Ok(number),
        None => Err(Halt::Broken),
    }
}

/// The open transaction gives the key the value.
pub(crate) fn put<B: ClusterName>(
    alloc: Global,
    session: &mut Session<B>,
    key: &[u8],
    value: &[u8],
) -> Result<(), Refusal> {
    write(session, Mutation::set(alloc, key, value))
}

/// The open transaction adds the number to that of the key.
pub(crate) fn add<B: ClusterName>(
    alloc: Global,
    session: &mut Session<B>,
    key: &[u8],
    number: u64,
) -> Result<(), Refusal> {
    write(session, Mutation::add(alloc, key, &number.to_le_bytes()))
}

fn write<B: ClusterName>(
    session: &mut Session<B>,
    mutation: Result<Mutation, Refusal>,
) -> Result<(), Refusal> {
    lent(mutation, |mutation| session.write(mutation))
}

// What is answered of the value that was made. A mutation goes over many kinds where it is dropped; here none is named.
fn lent<T: Drop, F: FnOnce(&T) -> Result<(), Refusal> + Drop>(
    made: Result<T, Refusal>,
    next: F,
) -> Result<(), Refusal>
    requires { F.IsAlwaysCallable next }
{
    match made {
        Ok(value) => next(&value),
        Err(why) => Err(why),
    }
}
