ghost use Rattle.std.specs.Prelude.{◌≡◌, ◌==◌, ◌++◌, ◌∷◌, [], length, IfOk, IfErr, OnErr, MatchOption};
ghost use Rattle.std.specs.Cmp.Lexicographic.{pointwise, lists_per};
ghost use Rattle.std.proofs.lemmas.Cmp.{lists_equiv};

use crate::items::Items;
use std::alloc::{AllocError, AllocFailed, Global};
use std::marker::Model;
use std::sync::Arc;

/// A list of items in order, which contracts see as just that list. It stays as it is, and its copies share its items:
/// a copy takes O(1) time and no memory.
pub struct SharedList<T> {
    items: Arc<Items<T>>,
}

impl<T> Model for SharedList<T> {
    ghost use Rattle.std.specs.Prelude.{List};
    ghost use Rattle.std.specs.Arc.{arc_value};

    ghost Value = { List T };

    ghost view = { λ shared. arc_value shared.items };
}

impl<T> SharedList<T> {
    /// The list of the items, whose copies share them. Where memory runs out, the error hands the items back. It takes
    /// O(1) time.
    pub fn new(alloc: Global, items: Items<T>) -> Result<Self, AllocFailed<Items<T>>>
        ensures ok { IfOk result (λ shared. shared ≡ items) }
        ensures back { IfErr result (λ failed. failed.value ≡ items) }
    {
        let items = Arc::new(alloc, items)?;
        Ok(SharedList { items })
    }

    /// Adds an item at the end, unless a copy shares the list: then it hands the item back. Refused only where memory
    /// runs out. The list changes only where it takes the item. It takes O(1) time on the average.
    pub fn push_alone(&mut self, item: T) -> Result<Option<T>, AllocError>
    where
        T: Drop,
        ensures pushed { IfOk result (λ back. MatchOption back (self.new ≡ self.old ++ item ∷ [])
            (λ given. (given ≡ item) × (self.new ≡ self.old))) }
        ensures refused { OnErr result (self.new ≡ self.old) }
    {
        match Arc::get_mut(&mut self.items) {
            Some(items) => {
                items.push(item)?;
                Ok(None)
            }
            None => Ok(Some(item)),
        }
    }

    /// The items as a slice. It takes no memory, and O(1) time.
    pub fn as_slice(&self) -> &[T]
        ensures { result.now ≡ self.now }
    {
        self.items.as_slice()
    }

    /// How many items there are. It takes no memory, and O(1) time.
    pub fn len(&self) -> usize
        ensures { result ≡ length self.now }
    {
        self.items.len()
    }

    /// Whether there is no item. It takes no memory, and O(1) time.
    pub fn is_empty(&self) -> bool
        ensures { result ≡ (length self.now == 0) }
    {
        self.items.is_empty()
    }
}

// Written out, so that who drops a list has one case.
impl<T: Drop> Drop for SharedList<T> {
    fn drop(self) {
        let SharedList { items } = self;
        drop(items);
    }
}

impl<T: PartialEq> PartialEq for SharedList<T> {
    ghost eq = { pointwise T.eq };

    ghost laws = { lists_per T.laws };

    fn eq(&self, other: &Self) -> bool {
        self.as_slice() == other.as_slice()
    }
}

impl<T: Eq> Eq for SharedList<T> {
    ghost laws = { lists_equiv T.Eq.laws };
}

impl<T: Drop> Clone for SharedList<T> {
    ghost is_clone = { λ of copy. copy ≡ of };

    fn clone(&self) -> Result<Self, AllocError> {
        Ok(SharedList {
            items: self.items.clone()?,
        })
    }
}
