// What a key is read as, after a transaction's own writes.
ghost use Rattle.std.specs.Prelude.{◌≡◌, Some, None, IfOk, fold, if◌then◌else◌};
ghost use Rattle.std.specs.FinMap.{get};
ghost use Rattle.fdb_keys.specs.Answers.{Answers};
ghost use Rattle.fdb_keys.specs.Removal.{outside};
ghost use Rattle.fdb_keys.specs.declared.refusal.Refusal.TheVariants.{AccessedUnreadable};
ghost use Rattle.fdb_mutations.specs.Maps.{Map};
ghost use Rattle.fdb_mutations.specs.Mutations.{new_value};
ghost use Rattle.fdb_mutations.specs.PairLaws.{given_of};
ghost use Rattle.fdb_mutations.specs.Pairs.{scanned};
ghost use Rattle.fdb_client.specs.LeftAt.{left_at};
ghost use Rattle.fdb_client.specs.OwnWrites.{as_left, is_unreadable, is_value, value_over};

use crate::own_writes::{LentLeft, OwnWrites};
use crate::snapshot::Snapshot;
use bytes::Bytes;
use fdb_keys::{Items, Key, KeyRange, RangeSet, Refusal, TreeRangeSet};
use fdb_mutations::{Mutation, copied};
use std::alloc::{AllocError, Global};

// A copy of the pairs.
pub(crate) fn pairs_copy(pairs: &Items<(Key, Bytes)>) -> Result<Items<(Key, Bytes)>, AllocError>
    ensures { IfOk result (λ copy. copy ≡ pairs.now) }
{
    pairs.clone()
}

// What a read of the range scanned, by the pairs that it was given.
pub(crate) fn scanned_part(
    alloc: Global,
    range: &KeyRange,
    limit: u32,
    reverse: bool,
    pairs: &[(Key, Bytes)],
) -> Result<KeyRange, Refusal>
    requires { (map : Map) × (pairs.now ≡ given_of map range.now limit reverse) }
    ensures { Answers result None (λ part. part ≡ scanned range.now limit reverse pairs.now) }
{
    match pairs.last() {
        Some((key, _value)) if limit != 0 && pairs.len() == limit as usize => {
            range.through(alloc, reverse, key)
        }
        _ => Ok(range.clone()?),
    }
}

// The parts of what a read of the range scanned, by the pairs that it was given, that aren't decided.
pub(crate) fn undecided_part(
    alloc: Global,
    decided: &TreeRangeSet,
    range: &KeyRange,
    limit: u32,
    reverse: bool,
    pairs: &[(Key, Bytes)],
) -> Result<RangeSet, Refusal>
    requires { (map : Map) × (pairs.now ≡ given_of map range.now limit reverse) }
    ensures { Answers result None
        (λ undecided. undecided ≡ outside decided.now (scanned range.now limit reverse pairs.now)) }
{
    let part = scanned_part(alloc, range, limit, reverse, pairs)?;
    decided.outside(alloc, &part)
}

// The value after mutations that name its key.
fn value_after(
    alloc: Global,
    value: Option<Bytes>,
    mutations: &[Mutation],
) -> Result<Option<Bytes>, Refusal>
    ensures { Answers result None
        (λ after. after ≡ fold (λ before mutation. new_value mutation before) value mutations.now) }
{
    let mut value = value;
    for mutation in mutations {
        value = mutation.apply_value(alloc, value.as_ref())?;
    }
    Ok(value)
}

// What writes that leave this at a key make of what stood there.
pub(crate) fn value_over(
    alloc: Global,
    left: LentLeft<'_>,
    old: Option<Bytes>,
) -> Result<Option<Bytes>, Refusal>
    ensures { Answers result None (λ value. value ≡ value_over (as_left left.entry) old) }
{
    match left {
        LentLeft::Value(value) | LentLeft::Unreadable(value) => Ok(copied(value)?),
        LentLeft::Changes(mutations) => value_after(alloc, old, mutations),
    }
}

// What stands at the key after the writes, and whether they decide the key. The snapshot is asked only where they
// don't. Where the key is unreadable, the bare operand stands for what it becomes.
pub(crate) fn value_of<S: Snapshot>(
    alloc: Global,
    own: &OwnWrites,
    snapshot: &S,
    key: &Key,
) -> Result<(Option<Bytes>, bool), Refusal>
    ensures value { Answers result
        (if is_value (left_at own.now key.now) then None else S.key_fault snapshot.now key.now)
        (λ read. read.0 ≡ value_over (left_at own.now key.now) (get (S.map snapshot.now) key.now)) }
    ensures decided { IfOk result (λ read. read.1 ≡ is_value (left_at own.now key.now)) }
{
    value_by(alloc, own.left_at(key), snapshot, key)
}

// The same, but refused where the key is unreadable.
pub(crate) fn readable_value_of<S: Snapshot>(
    alloc: Global,
    own: &OwnWrites,
    snapshot: &S,
    key: &Key,
) -> Result<(Option<Bytes>, bool), Refusal>
    ensures value { Answers result
        (if is_unreadable (left_at own.now key.now) then Some AccessedUnreadable
        else (if is_value (left_at own.now key.now) then None else S.key_fault snapshot.now key.now))
        (λ read. read.0 ≡ value_over (left_at own.now key.now) (get (S.map snapshot.now) key.now)) }
    ensures decided { IfOk result (λ read. read.1 ≡ is_value (left_at own.now key.now)) }
{
    match own.left_at(key) {
        LentLeft::Unreadable(_) => Err(Refusal::AccessedUnreadable),
        left => value_by(alloc, left, snapshot, key),
    }
}

// The same by what the writes leave at the key.
fn value_by<S: Snapshot>(
    alloc: Global,
    left: LentLeft<'_>,
    snapshot: &S,
    key: &Key,
) -> Result<(Option<Bytes>, bool), Refusal>
    ensures value { Answers result
        (if is_value (as_left left.entry) then None else S.key_fault snapshot.now key.now)
        (λ read. read.0 ≡ value_over (as_left left.entry) (get (S.map snapshot.now) key.now)) }
    ensures decided { IfOk result (λ read. read.1 ≡ is_value (as_left left.entry)) }
{
    match left {
        LentLeft::Value(value) | LentLeft::Unreadable(value) => Ok((copied(value)?, true)),
        LentLeft::Changes(mutations) => {
            let old = snapshot.get(key)?;
            let value = value_after(alloc, old, mutations)?;
            Ok((value, false))
        }
    }
}
