// The reads of a layer's open transaction that wrote no value: they are of the run.
ghost use Rattle.std.specs.Prelude.{◌≡◌, ◌<◌, [], ◌∷◌, ◌++◌, true, None, IfOk, IfErr, OnOk};
ghost use Rattle.std.specs.FinMap.{get};
ghost use Rattle.std.specs.Option.{unwrap_or};
ghost use Rattle.fdb_layers.specs.Operations.{DoesMore, reading};
ghost use Rattle.fdb_layers.specs.Reads.{count_left, pairs_left, run_read, HasOnlyRead, HasWrittenNone};
ghost use Rattle.fdb_runtime.specs.Works.{IsSameSession};
ghost use Rattle.fdb_sections.specs.Refusals.{is_of_read};

use fdb_keys::{Items, Key, Refusal};
use fdb_roles::Layer;
use fdb_runtime::{Bytes, ClusterName, Pages, Session};
use std::alloc::Global;
use std::sync::Wait;

// What stands at the key.
pub(crate) fn look_up<B: ClusterName, L: Layer, R: Wait>(
    rt: &R,
    alloc: Global,
    session: &mut Session<B, L>,
    key: &Key,
) -> Result<Option<Bytes>, Refusal>
    requires unwritten { HasWrittenNone session.old.current }
    ensures same { IsSameSession session.old session.new }
    ensures reads { OnOk result (HasOnlyRead session.old session.new) }
    ensures value { IfOk result (λ value. value ≡ get (run_read B.config.resolver_splits session.old) key.now) }
    ensures more { IfOk result (λ value.
        DoesMore session.old.current (reading key.now value ∷ []) session.new.current) }
{
    let value = session.get(rt, alloc, key, false)?;
    Ok(value)
}

// The next page of a walk that hasn't ended.
pub(crate) fn next_page<B: ClusterName, L: Layer, R: Wait>(
    rt: &R,
    alloc: Global,
    session: &mut Session<B, L>,
    pages: &mut Pages,
) -> Result<Option<Items<(Key, Bytes)>>, Refusal>
    requires unwritten { HasWrittenNone session.old.current }
    requires some { pages.old.rest ≡ None → ⊥ }
    ensures same { IsSameSession session.old session.new }
    ensures seen { session.new.front ≡ session.old.front }
    ensures reads { OnOk result (HasOnlyRead session.old session.new) }
    ensures page { IfOk result (λ page. pairs_left (run_read B.config.resolver_splits session.old) pages.old.rest
        ≡ unwrap_or page [] ++ pairs_left (run_read B.config.resolver_splits session.old) pages.new.rest) }
    ensures fewer { OnOk result (count_left (run_read B.config.resolver_splits session.old) pages.new.rest
        < count_left (run_read B.config.resolver_splits session.old) pages.old.rest) }
    ensures refusals { IfErr result (λ why. is_of_read why ≡ true) }
{
    let page = pages.next_page(rt, alloc, session)?;
    Ok(page)
}
