//! The counters of a running database: sessions add to both, and read both.
ghost use Rattle.std.specs.Prelude.{◌≡◌, ℕ, [], None, IfOk, IfSome, OnOk};
ghost use Rattle.std.specs.Int.{to_le_bytes, w64};
ghost use Rattle.std.specs.FinMap.{get};
ghost use Rattle.fdb_layers.specs.Counters.{adding, first_counter, second_counter, IsOfCounters};
ghost use Rattle.fdb_runtime.specs.Works.{IsSameSession, IsStillOpen, IsUntouched};
ghost use Rattle.fdb_sections.specs.ShardViews.{run_of};

use crate::counters::EqualCounters;
use fdb_keys::{Key, Refusal};
use fdb_runtime::{Bytes, ClusterName, Session, Work};
use std::alloc::Global;
use std::sync::Wait;

// The key of the first counter.
fn first_counter(alloc: Global) -> Result<Key, Refusal>
    ensures { IfOk result (λ key. key ≡ first_counter) }
{
    let key = Key::new(alloc, b"count/first")?;
    Ok(key)
}

// The key of the second one.
fn second_counter(alloc: Global) -> Result<Key, Refusal>
    ensures { IfOk result (λ key. key ≡ second_counter) }
{
    let key = Key::new(alloc, b"count/second")?;
    Ok(key)
}

// The open transaction adds the operand to both keys.
fn add_to_both<B: ClusterName>(
    alloc: Global,
    session: &mut Session<B, EqualCounters>,
    first: &Key,
    second: &Key,
    operand: &[u8],
) -> Result<(), Refusal>
    requires first { first.now ≡ first_counter }
    requires second { second.now ≡ second_counter }
    requires begun { IsUntouched session.old.current }
    ensures same { IsSameSession session.old session.new }
    ensures open { OnOk result (IsStillOpen session.old.current session.new.current) }
    ensures adds { OnOk result (IfSome session.new.current (λ transcript. transcript.ops ≡ adding operand.now)) }
    ensures allowed { OnOk result (IfSome session.new.current IsOfCounters) }
{
    session.add(alloc, first, operand)?;
    session.add(alloc, second, operand)
}

/// Adds a number to both counters, as a transaction of theirs.
#[derive(Drop)]
pub struct Count {
    /// What is added.
    pub by: u64,
}

impl<B: ClusterName> Work<B, EqualCounters> for Count {
    ghost Task = { ℕ };

    ghost task = { λ count. count.by };

    ghost does = { λ count transcript. transcript.ops ≡ adding (to_le_bytes w64 count.by) };

    fn run<R: Wait>(
        &mut self,
        _rt: &R,
        alloc: Global,
        session: &mut Session<B, EqualCounters>,
    ) -> Result<(), Refusal> {
        let first = first_counter(alloc)?;
        let second = second_counter(alloc)?;
        add_to_both(alloc, session, &first, &second, &self.by.to_le_bytes())
    }
}

// The values of both keys, as the open transaction reads them.
fn read_keys<B: ClusterName, R: Wait>(
    rt: &R,
    alloc: Global,
    session: &mut Session<B, EqualCounters>,
    first: &Key,
    second: &Key,
) -> Result<(Option<Bytes>, Option<Bytes>), Refusal>
    requires first { first.now ≡ first_counter }
    requires second { second.now ≡ second_counter }
    requires begun { IfSome session.old.current (λ transcript. transcript.ops ≡ []) }
    ensures stands { IfOk result (λ both. IfSome session.old.current (λ transcript. (both.0
        ≡ get (run_of B.config transcript.read_version session.old.front) first_counter)
        × (both.1 ≡ get (run_of B.config transcript.read_version session.old.front) second_counter))) }
    ensures equal { IfOk result (λ both. both.0 ≡ both.1) }
    ensures allowed { OnOk result (IfSome session.new.current IsOfCounters) }
{
    let one = session.get(rt, alloc, first, false)?;
    let other = session.get(rt, alloc, second, false)?;
    session.know_layer();
    Ok((one, other))
}

/// The values of both counters at the open transaction's read version, which did nothing before. They are equal,
/// whatever other sessions do. Refused as `Session::get` is, and as `NoMemory`. It takes the time of two calls of it.
pub fn read_both<B: ClusterName, R: Wait>(
    rt: &R,
    alloc: Global,
    session: &mut Session<B, EqualCounters>,
) -> Result<(Option<Bytes>, Option<Bytes>), Refusal>
    requires begun { IfSome session.old.current (λ transcript. transcript.ops ≡ []) }
    ensures stands { IfOk result (λ both. IfSome session.old.current (λ transcript. (both.0
        ≡ get (run_of B.config transcript.read_version session.old.front) first_counter)
        × (both.1 ≡ get (run_of B.config transcript.read_version session.old.front) second_counter))) }
    ensures equal { IfOk result (λ both. both.0 ≡ both.1) }
    ensures allowed { OnOk result (IfSome session.new.current IsOfCounters) }
{
    let first = first_counter(alloc)?;
    let second = second_counter(alloc)?;
    read_keys(rt, alloc, session, &first, &second)
}
