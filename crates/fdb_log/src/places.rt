// Where the mutations stand that a tag hasn't popped.
use std::alloc::{AllocError, Global};
use std::collections::VecDeque;
use std::marker::Model;

/// The places of mutations, each the version of the entry with the index in the message, of which the first ones leave.
#[derive(Drop)]
pub(crate) struct Places {
    list: VecDeque<(u64, usize)>,
}

impl Model for Places {
    ghost use Rattle.std.specs.Prelude.{List, ℕ};

    ghost Value = { List (ℕ × ℕ) };

    ghost view = { λ places. places.list.items };
}

impl Places {
    ghost use Rattle.std.specs.Prelude.{◌≡◌, ◌≤◌, [], ◌∷◌, ◌++◌, OnOk, MatchOption};
    ghost use Rattle.fdb_log.specs.Places.{StartsAbove};

    /// No place.
    pub(crate) fn new(alloc: Global) -> Self
        ensures { result ≡ [] }
    {
        Places {
            list: VecDeque::new(alloc),
        }
    }

    /// Adds a place behind the others.
    pub(crate) fn push(&mut self, place: (u64, usize)) -> Result<(), AllocError>
        ensures { OnOk result (self.new ≡ self.old ++ place ∷ []) }
    {
        self.list.push_back(place)?;
        Ok(())
    }

    /// Takes the first place, if it is of a version up to this one.
    pub(crate) fn next_through(&mut self, version: u64) -> Option<(u64, usize)>
        ensures { MatchOption result ((self.new ≡ self.old) × StartsAbove version self.old)
            (λ place. (self.old ≡ place ∷ self.new) × (place.0 ≤ version)) }
    {
        let first = *self.list.front()?;
        if version < first.0 {
            return None;
        }
        self.list.pop_front()
    }
}
