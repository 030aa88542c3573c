// A mutation is buffered: what it leaves is kept, and what it names joins the write set.
ghost use Rattle.std.specs.Prelude.{◌≡◌, None, OnOk, OnErr, if◌then◌else◌};
ghost use Rattle.fdb_keys.specs.Answers.{Answers};
ghost use Rattle.fdb_keys.specs.Insertion.{with_range};
ghost use Rattle.fdb_keys.specs.Points.{Point};
ghost use Rattle.fdb_keys.specs.Ranges.{in_range};
ghost use Rattle.fdb_mutations.specs.Mutations.{named_range};
ghost use Rattle.fdb_client.specs.LeftAt.{left_at, AreClearedDecided, HasLegalKeys};
ghost use Rattle.fdb_client.specs.OwnWrites.{left_with};
ghost use Rattle.fdb_client.specs.declared.left.Left.TheVariants.{Value};

use crate::conflict_set::ConflictSet;
use crate::own_writes::OwnWrites;
use fdb_keys::{KeyRange, Refusal};
use fdb_mutations::{Mutation, Named};
use std::alloc::Global;

// Buffers a mutation. Where memory runs out, nothing changes.
pub(crate) fn buffer(
    alloc: Global,
    own: &mut OwnWrites,
    writes: &mut ConflictSet,
    mutation: &Mutation,
) -> Result<(), Refusal>
    requires legal_keys { HasLegalKeys own.old }
    requires cleared { AreClearedDecided own.old }
    ensures kept { Answers result None (λ _. (x : Point) → left_at own.new x
        ≡ left_with x (left_at own.old x) mutation.now) }
    ensures writes { OnOk result (writes.new ≡ with_range (named_range mutation.now) writes.old) }
    ensures legal_keys { HasLegalKeys own.new }
    ensures cleared { AreClearedDecided own.new }
    ensures kept_err { OnErr result ((x : Point) → left_at own.new x ≡ left_at own.old x) }
    ensures writes_err { OnErr result (writes.new ≡ writes.old) }
{
    match mutation.named() {
        Named::Key(key) => writes.add_changed(own, key, mutation),
        Named::Range(range) => clear_range(alloc, own, writes, range),
    }
}

// Buffers that the keys of the range are cleared. Where memory runs out, nothing changes.
fn clear_range(
    alloc: Global,
    own: &mut OwnWrites,
    writes: &mut ConflictSet,
    range: &KeyRange,
) -> Result<(), Refusal>
    requires { HasLegalKeys own.old }
    ensures kept { Answers result None (λ _. (x : Point) → left_at own.new x
        ≡ (if in_range range.now x then Value None else left_at own.old x)) }
    ensures cleared { OnOk result (own.new.cleared ≡ with_range range.now own.old.cleared) }
    ensures writes { OnOk result (writes.new ≡ with_range range.now writes.old) }
    ensures legal_keys { HasLegalKeys own.new }
    ensures kept_err { OnErr result ((x : Point) → left_at own.new x ≡ left_at own.old x) }
    ensures cleared_err { OnErr result (own.new.cleared ≡ own.old.cleared) }
    ensures writes_err { OnErr result (writes.new ≡ writes.old) }
{
    let keys = own.keys_in(alloc, range)?;
    writes.add_beside(&mut own.cleared, range)?;
    own.remove_all(keys.as_slice());
    Ok(())
}
