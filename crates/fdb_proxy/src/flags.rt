// Lists of flags, one for each role of a kind.
ghost use Rattle.std.specs.Prelude.{◌≡◌, false, replicate, IfOk};
ghost use Rattle.fdb_proxy.specs.Flags.{is_set, first_unset};

use fdb_keys::Items;
use std::alloc::{AllocError, Global};

/// Whether the flag with the number is there and set.
pub(crate) fn is_set(flags: &[bool], number: usize) -> bool
    ensures { result ≡ is_set flags.now number }
{
    number < flags.len() && flags[number]
}

/// The least number whose flag isn't set.
pub(crate) fn first_unset(flags: &[bool]) -> Option<usize>
    ensures { result ≡ first_unset 0 flags.now }
{
    for (number, flag) in flags.iter().enumerate() {
        if !*flag {
            return Some(number);
        }
    }
    None
}

/// As many flags, none of them set.
pub(crate) fn unset(alloc: Global, count: u32) -> Result<Items<bool>, AllocError>
    ensures { IfOk result (λ flags. flags ≡ replicate count false) }
{
    let mut flags = Items::new(alloc);
    for _number in 0..count {
        flags.push(false)?;
    }
    Ok(flags)
}
