//! What shows that cells are set, and to what.
ghost use Rattle.std.specs.Prelude.{◌≡◌, ◌++◌, ◌∷◌, ℕ, List, [], take, slice_get, Some, MatchResult};
ghost use denote.Sharing.{said};
ghost use Rattle.once_cell.specs.Once.{cell_name, Agrees};
ghost use Rattle.fdb_book.specs.Facts.{all_noted};

use once_cell::race::{Note, OnceBox};
use std::marker::{Model, PhantomData};

/// What shows that cells hold values for good: each cell by its name, with its value.
/// It takes no bytes, however many cells it tells of, and unlike once_cell's own note it can be used through a shared
/// reference.
pub(crate) struct Facts<T> {
    marker: PhantomData<T>,
    pub ghost known: { List (ℕ × T) },
}

impl<T> Model for Facts<T> {
    ghost also_owns = { λ facts. all_noted T.row facts.known };

    ghost also_shares = { λ facts _ κ. said (all_noted T.row facts.known) κ };
}

impl<T> Facts<T> {
    /// Of no cell.
    pub(crate) fn none() -> Facts<T>
        ensures { result.known ≡ [] }
    {
        Facts {
            marker: PhantomData,
        }
    }

    /// The first of them once more.
    pub(crate) fn first(&self, count: usize) -> Facts<T>
        ensures { result.known ≡ take count self.now.known }
    {
        let _ = count;
        Facts {
            marker: PhantomData,
        }
    }

    /// These once more, and what the note knows.
    pub(crate) fn with(&self, note: &mut Note<T>) -> Facts<T>
        requires { (value : T) × (note.old.known ≡ Some value) }
        ensures { (note.new ≡ note.old)
            × ((value : T) × (note.old.known ≡ Some value)
            × (result.known ≡ self.now.known ++ (note.old.cell, value) ∷ [])) }
    {
        Facts {
            marker: PhantomData,
        }
    }

    /// Tells a note of the cell of this number what the cell holds.
    pub(crate) fn tell(&self, index: usize, note: &mut Note<T>)
        requires { (value : T) × (slice_get self.now.known index ≡ Some (note.old.cell, value)) }
        ensures { (note.new.cell ≡ note.old.cell)
            × ((value : T) × (slice_get self.now.known index ≡ Some (note.old.cell, value))
            × (note.new.known ≡ Some value) × Agrees note.old.known value) }
    {
        let _ = index;
    }

    /// The value of the cell of this number.
    pub(crate) fn value<'a>(&self, index: usize, cell: &'a OnceBox<T>) -> &'a T
        requires { (value : T) × (slice_get self.now.known index ≡ Some (cell_name cell.now, value)) }
        ensures { slice_get self.now.known index ≡ Some (cell_name cell.now, result.now) }
    {
        let mut note = cell.note();
        self.tell(index, &mut note);
        match cell.get_as(&mut note) {
            Some(value) => value,
            None => unreachable!(),
        }
    }

    /// Of the cell of this number both know one value.
    pub(crate) fn agree_at(&self, other: &Facts<T>, index: usize, cell: &OnceBox<T>)
        requires own { (value : T) × (slice_get self.now.known index ≡ Some (cell_name cell.now, value)) }
        requires others { (value : T) × (slice_get other.now.known index ≡ Some (cell_name cell.now, value)) }
        ensures { slice_get self.now.known index ≡ slice_get other.now.known index }
    {
        let mut note = cell.note();
        self.tell(index, &mut note);
        other.tell(index, &mut note);
    }

    /// Sets the cell, and answers these once more with what the cell holds. If it was set before, the box comes back
    /// beside them.
    pub(crate) fn fill(
        &self,
        cell: &OnceBox<T>,
        value: Box<T>,
    ) -> Result<Facts<T>, (Box<T>, Facts<T>)>
    where
        T: Drop,
        ensures { MatchResult result
            (λ facts. facts.known ≡ self.now.known ++ (cell_name cell.now, value.value) ∷ [])
            (λ back. (back.0.value ≡ value.value)
            × ((found : T) × (back.1.known ≡ self.now.known ++ (cell_name cell.now, found) ∷ []))) }
    {
        let mut note = cell.note();
        match cell.set_as(value, &mut note) {
            Ok(()) => Ok(self.with(&mut note)),
            Err(back) => Err((back, self.with(&mut note))),
        }
    }
}

impl<T> Drop for Facts<T> {
    fn drop(self) {
        let Self { marker: _ } = self;
    }
}

unsafe impl<T> Send for Facts<T> {}

unsafe impl<T> Sync for Facts<T> {}
