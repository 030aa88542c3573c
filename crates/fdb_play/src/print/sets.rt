// The read set and the write set of a transaction.
ghost use Rattle.std.specs.Prelude.{◌≡◌, ◌++◌, OnOk, string_bytes};
ghost use Rattle.fdb_play.specs.print.Sets.{range_text, ranges_text, sets_text};

use crate::print::texts::push_text;
use fdb_client::{ConflictSet, Txn};
use fdb_keys::KeyRange;
use std::alloc::AllocError;

/// Appends both sets, each as its ranges.
pub fn push_sets(text: &mut String, txn: &Txn) -> Result<(), AllocError>
    ensures { OnOk result (string_bytes text.new ≡ string_bytes text.old ++ sets_text txn.now) }
{
    text.push_str("reads")?;
    push_ranges(text, txn.read_conflicts())?;
    text.push_str(" writes")?;
    push_ranges(text, txn.write_conflicts())
}

fn push_ranges(text: &mut String, set: &ConflictSet) -> Result<(), AllocError>
    ensures { OnOk result (string_bytes text.new ≡ string_bytes text.old ++ ranges_text set.now) }
{
    match set.to_set(*text.allocator()) {
        Ok(ranges) => push_list(text, ranges.iter().as_slice()),
        Err(_) => Err(AllocError),
    }
}

/// Appends the ranges, each after a blank.
pub fn push_list(text: &mut String, ranges: &[KeyRange]) -> Result<(), AllocError>
    ensures { OnOk result (string_bytes text.new ≡ string_bytes text.old ++ ranges_text ranges.now) }
{
    for range in ranges {
        push_range(text, range)?;
    }
    Ok(())
}

fn push_range(text: &mut String, range: &KeyRange) -> Result<(), AllocError>
    ensures { OnOk result (string_bytes text.new ≡ string_bytes text.old ++ range_text range.now) }
{
    text.push(' ')?;
    push_text(text, range.begin())?;
    text.push(':')?;
    push_text(text, range.end())
}
