//! Reads of a running database's table by the value of its records.
ghost use Rattle.std.specs.Prelude.{◌≡◌, ◌⊎◌, ◌++◌, [], ◌∷◌, ℕ, List, None, true, IfErr, IfOk, IfSome, OnOk};
ghost use Rattle.std.specs.Int.{to_be_bytes, w32};
ghost use Rattle.fdb_keys.specs.Answers.{Answers};
ghost use Rattle.fdb_keys.specs.Points.{Point};
ghost use Rattle.fdb_keys.specs.declared.refusal.Refusal.TheVariants.{NoMemory, NoTransaction};
ghost use Rattle.fdb_layers.specs.Finding.{AreFoundBy, all_behind, behind, entries_range};
ghost use Rattle.fdb_layers.specs.Operations.{DoesMore, WritesNoValue, reading_range};
ghost use Rattle.fdb_layers.specs.Table.{IsOfTable, entry_key};
ghost use Rattle.fdb_runtime.specs.Works.{IsSameSession, IsStillOpen};
ghost use Rattle.fdb_sections.specs.Refusals.{is_of_read};
ghost use Rattle.fdb_sections.specs.ShardViews.{run_of};

use crate::operations::read_range;
use crate::table::IndexedTable;
use fdb_keys::{Items, Key, KeyRange, Refusal};
use fdb_runtime::{Bytes, ClusterName, Session};
use std::alloc::Global;
use std::sync::Wait;

// What the keys of all index entries of the value begin with.
fn entries_prefix(alloc: Global, value: u32) -> Result<Key, Refusal>
    ensures { Answers result None (λ key. key ≡ entry_key (to_be_bytes w32 value) []) }
{
    let mut text = Vec::new(alloc);
    text.extend_from_slice(b"i/")?;
    text.extend_from_slice(&value.to_be_bytes())?;
    let key = Key::new(alloc, text.as_slice())?;
    Ok(key)
}

// Adds what stands behind the prefix in the key, if the key begins with it.
fn push_behind(alloc: Global, prefix: &[u8], key: &Key, ids: &mut Vec<Bytes>) -> Result<(), Refusal>
    ensures { Answers result None (λ _. ids.new.items ≡ ids.old.items ++ behind prefix.now key.now) }
{
    if let Some(id) = key.bytes().strip_prefix(prefix) {
        let id = Bytes::copy_from_slice(alloc, id)?;
        ids.push(id)?;
    }
    Ok(())
}

// The same of all keys of the pairs.
fn all_behind(alloc: Global, prefix: &[u8], pairs: &[(Key, Bytes)]) -> Result<Items<Bytes>, Refusal>
    ensures { Answers result None (λ ids. ids ≡ all_behind prefix.now pairs.now) }
{
    let mut ids = Vec::new(alloc);
    for (key, _) in pairs {
        push_behind(alloc, prefix, key, &mut ids)?;
    }
    Ok(Items::from_vec(ids))
}

/// The IDs of all records that hold the value at the open transaction's read version, in order, each of them once. The
/// transaction has written no value. It reads the index entries of the value, by one ordinary read of their range, and
/// no record: the index agrees with the records, whatever other sessions do.
///
/// Refused as `Session::get_range` is, and as `NoMemory`, which may come first. Then the session is as it was, but
/// where memory runs out behind the read, which is noted then. It takes the time of one `Session::get_range`, and O(b)
/// for the b bytes of the entries' keys.
pub fn find_by_value<B: ClusterName, R: Wait>(
    rt: &R,
    alloc: Global,
    session: &mut Session<B, IndexedTable>,
    value: u32,
) -> Result<Items<Bytes>, Refusal>
    requires begun { IfSome session.old.current WritesNoValue }
    ensures finds { IfOk result (λ ids. IfSome session.old.current (λ transcript. AreFoundBy
        (run_of B.config transcript.read_version session.old.front) (to_be_bytes w32 value) ids)) }
    ensures reads { OnOk result ((pairs : List (Point × List ℕ)) × DoesMore session.old.current
        (reading_range (entries_range (to_be_bytes w32 value)) pairs ∷ []) session.new.current) }
    ensures same { IsSameSession session.old session.new }
    ensures open { OnOk result (IsStillOpen session.old.current session.new.current) }
    ensures unwritten { OnOk result (IfSome session.new.current WritesNoValue) }
    ensures allowed { OnOk result (IfSome session.new.current IsOfTable) }
    ensures none { IfErr result (λ why. why ≡ NoTransaction → session.old.current ≡ None) }
    ensures refusals { IfErr result (λ why. is_of_read why ≡ true) }
    ensures refused { IfErr result (λ why. (session.new ≡ session.old) ⊎ (why ≡ NoMemory)) }
{
    let prefix = entries_prefix(alloc, value)?;
    let range = KeyRange::prefix(alloc, &prefix)?;
    session.know_layer();
    let pairs = read_range(rt, alloc, session, &range)?;
    let ids = all_behind(alloc, prefix.bytes(), pairs.as_slice())?;
    Ok(ids)
}
