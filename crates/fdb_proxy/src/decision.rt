use crate::outcome::Outcome;
use fdb_keys::{Items, RangeSet};

/// What becomes of the places of a batch, by place.
#[derive(Drop)]
pub struct Decision {
    /// What becomes of each place.
    pub outcomes: Items<Outcome>,
    /// For each place the points at which it conflicts, of which a place has none unless it is refused as a conflict.
    /// The list is empty where no place is.
    pub conflicts: Items<RangeSet>,
}

impl Decision {
    ghost use Rattle.std.specs.Prelude.{◌≡◌, slice_get};
    ghost use Rattle.std.specs.Option.{option_copied};

    /// The points at which the place conflicts, where any place of the batch does. It takes no memory, and O(1) time.
    pub fn conflict(&self, place: usize) -> Option<&RangeSet>
        ensures { option_copied result ≡ slice_get self.now.conflicts place }
    {
        self.conflicts.as_slice().get(place)
    }
}
