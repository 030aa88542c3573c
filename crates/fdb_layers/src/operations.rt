// The operations of a layer's open transaction, by what they do to it.
ghost use Rattle.std.specs.Prelude.{◌≡◌, [], ◌∷◌, None, true, false, IfErr, IfOk, IfSome, OnErr, OnOk};
ghost use Rattle.fdb_keys.specs.declared.refusal.Refusal.TheVariants.{NoTransaction};
ghost use Rattle.fdb_mutations.specs.Pairs.{pairs_in};
ghost use Rattle.fdb_mutations.specs.declared.mutation.Mutation.TheVariants.{Clear, Set, Stamped};
ghost use Rattle.fdb_layers.specs.Operations.{DoesMore, WritesNoValue, reading, reading_range, writing};
ghost use Rattle.fdb_runtime.specs.Works.{IsSameSession, IsStillOpen};
ghost use Rattle.fdb_sections.specs.Refusals.{is_of_read};
ghost use Rattle.fdb_sections.specs.ShardViews.{run_of};

use fdb_keys::{Items, Key, KeyRange, Refusal};
use fdb_roles::Layer;
use fdb_runtime::{Bytes, ClusterName, ReadOptions, Session};
use std::alloc::Global;
use std::sync::Wait;

// Reads the key, and gives what stands there.
pub(crate) fn read<B: ClusterName, L: Layer, R: Wait>(
    rt: &R,
    alloc: Global,
    session: &mut Session<B, L>,
    key: &Key,
) -> Result<Option<Bytes>, Refusal>
    ensures same { IsSameSession session.old session.new }
    ensures open { OnOk result (IsStillOpen session.old.current session.new.current) }
    ensures reads { IfOk result (λ value.
        DoesMore session.old.current (reading key.now value ∷ []) session.new.current) }
{
    session.get(rt, alloc, key, false)
}

// Reads all pairs of the range, in the order of their keys. Where the transaction has written no value, they are those
// of the map at its read version.
pub(crate) fn read_range<B: ClusterName, L: Layer, R: Wait>(
    rt: &R,
    alloc: Global,
    session: &mut Session<B, L>,
    range: &KeyRange,
) -> Result<Items<(Key, Bytes)>, Refusal>
    ensures same { IsSameSession session.old session.new }
    ensures open { OnOk result (IsStillOpen session.old.current session.new.current) }
    ensures reads { IfOk result (λ pairs.
        DoesMore session.old.current (reading_range range.now pairs ∷ []) session.new.current) }
    ensures pairs { IfOk result (λ pairs. IfSome session.old.current (λ transcript. WritesNoValue transcript
        → pairs ≡ pairs_in (run_of B.config transcript.read_version session.old.front) range.now false)) }
    ensures none { IfErr result (λ why. why ≡ NoTransaction → session.old.current ≡ None) }
    ensures refusals { IfErr result (λ why. is_of_read why ≡ true) }
    ensures refused { OnErr result (session.new ≡ session.old) }
{
    session.get_range(rt, alloc, range, ReadOptions::all())
}

// Sets the key to the value.
pub(crate) fn set<B: ClusterName, L: Layer>(
    alloc: Global,
    session: &mut Session<B, L>,
    key: &Key,
    value: &[u8],
) -> Result<(), Refusal>
    ensures same { IsSameSession session.old session.new }
    ensures open { OnOk result (IsStillOpen session.old.current session.new.current) }
    ensures sets { OnOk result
        (DoesMore session.old.current (writing (Set key.now value.now) ∷ []) session.new.current) }
{
    session.set(alloc, key, value)
}

// Clears the key.
pub(crate) fn clear<B: ClusterName, L: Layer>(
    session: &mut Session<B, L>,
    key: &Key,
) -> Result<(), Refusal>
    ensures same { IsSameSession session.old session.new }
    ensures open { OnOk result (IsStillOpen session.old.current session.new.current) }
    ensures clears { OnOk result
        (DoesMore session.old.current (writing (Clear key.now) ∷ []) session.new.current) }
{
    session.clear(key)
}

// Sets the key to the operand, whose first ten bytes will be the stamp of the commit.
pub(crate) fn stamp<B: ClusterName, L: Layer>(
    alloc: Global,
    session: &mut Session<B, L>,
    key: &Key,
    operand: &[u8],
) -> Result<(), Refusal>
    ensures same { IsSameSession session.old session.new }
    ensures open { OnOk result (IsStillOpen session.old.current session.new.current) }
    ensures stamps { OnOk result
        (DoesMore session.old.current (writing (Stamped key.now operand.now 0) ∷ []) session.new.current) }
{
    session.stamped(alloc, key, operand, 0)
}
