ghost use Rattle.std.specs.Prelude.{◌≡◌, ◌==◌, ◌<◌, ◌≤◌, [], ◌∷◌, ◌++◌, take, drop, length, slice_set, OnOk, OnErr};
ghost use Rattle.std.specs.Prelude.{IfErr};
ghost use Rattle.std.specs.List.{AllZip};
ghost use Rattle.std.specs.Cmp.Lexicographic.{pointwise, lists_per};
ghost use Rattle.std.proofs.lemmas.Cmp.{lists_equiv};

use std::alloc::{AllocError, AllocFailed, Global};
use std::marker::Model;

/// A list of items in order, which contracts see as just that list.
#[derive(Drop)]
pub struct Items<T> {
    list: Vec<T>,
}

impl<T> Model for Items<T> {
    ghost use Rattle.std.specs.Prelude.{List};

    ghost Value = { List T };

    ghost view = { λ items. items.list.items };
}

impl<T> Items<T> {
    /// The empty list. It takes no memory.
    pub fn new(alloc: Global) -> Self
        ensures { result ≡ [] }
    {
        Items {
            list: Vec::new(alloc),
        }
    }

    /// The list of the vector's items. It takes no memory.
    pub fn from_vec(list: Vec<T>) -> Self
        ensures { result ≡ list.items }
    {
        Items { list }
    }

    /// The vector of the items. It takes no memory.
    pub fn into_vec(self) -> Vec<T>
        ensures { result.items ≡ self }
    {
        self.list
    }

    // The allocator from which the list takes its memory.
    pub(crate) fn allocator(&self) -> Global {
        *self.list.allocator()
    }

    /// The items as a slice.
    pub fn as_slice(&self) -> &[T]
        ensures { result.now ≡ self.now }
    {
        self.list.as_slice()
    }

    /// How many items there are.
    pub fn len(&self) -> usize
        ensures { result ≡ length self.now }
    {
        self.list.len()
    }

    /// Whether there is no item.
    pub fn is_empty(&self) -> bool
        ensures { result ≡ (length self.now == 0) }
    {
        self.list.is_empty()
    }

    /// Puts the item in the place of the one with the index. It takes no memory.
    pub fn set(&mut self, index: usize, item: T)
    where
        T: Drop,
        requires { index < length self.old }
        ensures { self.new ≡ slice_set self.old index item }
    {
        self.list[index] = item;
    }

    // Puts the item in the place of those from `start` up to but not including `end`. Where memory runs out,
    // nothing changes.
    pub(crate) fn replace(&mut self, start: usize, end: usize, item: T) -> Result<(), AllocError>
    where
        T: Drop,
        requires order { start ≤ end }
        requires within { end ≤ length self.old }
        ensures ok { OnOk result (self.new ≡ take start self.old ++ item ∷ drop end self.old) }
        ensures err { OnErr result (self.new ≡ self.old) }
    {
        // most lists that are filled so keep one item
        self.hold(1)?;
        if start == end {
            self.list.insert(start, item)?;
            return Ok(());
        }
        let _replaced = self.list.splice(start..end, Some(item))?;
        Ok(())
    }

    /// Makes room for `count` items in an empty list, and for no more. A list that has items stays as it is. Where
    /// memory runs out, nothing changes. It takes O(1) time.
    pub fn hold(&mut self, count: usize) -> Result<(), AllocError>
        ensures { self.new ≡ self.old }
    {
        if self.list.is_empty() {
            self.list.reserve_exact(count)?;
        }
        Ok(())
    }

    /// Adds an item at the end. Where memory runs out, the error hands it back and nothing changes.
    pub fn push(&mut self, item: T) -> Result<(), AllocFailed<T>>
        ensures ok { OnOk result (self.new ≡ self.old ++ item ∷ []) }
        ensures err { OnErr result (self.new ≡ self.old) }
        ensures back { IfErr result (λ failed. failed.value ≡ item) }
    {
        self.list.push(item)
    }

    /// Leaves only the first `count` items, all of them where there are no more. It takes no memory.
    pub fn truncate(&mut self, count: usize)
    where
        T: Drop,
        ensures { self.new ≡ take count self.old }
    {
        self.list.truncate(count);
    }
}

impl<T: PartialEq> PartialEq for Items<T> {
    ghost eq = { pointwise T.eq };

    ghost laws = { lists_per T.laws };

    fn eq(&self, other: &Self) -> bool {
        self.list == other.list
    }
}

impl<T: Eq> Eq for Items<T> {
    ghost laws = { lists_equiv T.Eq.laws };
}

impl<T: Clone> Clone for Items<T> {
    ghost is_clone = { AllZip T.is_clone };

    fn clone(&self) -> Result<Self, AllocError> {
        Ok(Items {
            list: self.list.clone()?,
        })
    }
}
