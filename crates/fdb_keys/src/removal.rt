// What is left of the ranges of a list without the points of another one.
ghost use Rattle.std.specs.Prelude.{◌≡◌, IfOk};
ghost use Rattle.fdb_keys.specs.Removal.{without_range};

use crate::key_range::KeyRange;
use std::alloc::{AllocError, Global};

// What is left of the ranges without the range's points.
pub(crate) fn without_range(
    alloc: Global,
    ranges: &[KeyRange],
    range: &KeyRange,
) -> Result<Vec<KeyRange>, AllocError>
    ensures { IfOk result (λ left. left.items ≡ without_range range.now ranges.now) }
{
    let mut left = Vec::with_capacity(alloc, ranges.len())?;
    for held in ranges {
        held.push_minus(range, &mut left)?;
    }
    Ok(left)
}
