ghost use Rattle.std.specs.Prelude.{◌≡◌, ◌<◌, ◌≤◌, ◌++◌, ◌∷◌, [], take, drop, length, IfOk, OnErr, MatchOption};
ghost use Rattle.std.specs.Prelude.{vec_len, vec_capacity};
ghost use Rattle.fdb_keys.specs.SharedRanges.{ranges_of};

use crate::items::Items;
use crate::key_range::KeyRange;
use std::alloc::{AllocError, Global};
use std::marker::Model;
use std::mem;
use std::sync::Arc;

/// A list of ranges in order, which contracts see as just that list. Once it is shared, its copies take O(1) time and
/// share its ranges.
pub(crate) struct SharedRanges {
    alloc: Global,
    form: Form,
}

// Whose the ranges are.
#[derive(Drop)]
enum Form {
    Own(Items<KeyRange>),
    // One range alone, beside the count of its owners: so both take one piece of memory, and not two.
    One(Arc<[KeyRange; 1]>),
    Shared(Arc<Items<KeyRange>>),
}

impl Model for SharedRanges {
    ghost use Rattle.std.specs.Prelude.{List};
    ghost use Rattle.fdb_keys.specs.Ranges.{Range};
    ghost use Rattle.fdb_keys.specs.SharedRanges.{ranges_of};

    ghost Value = { List Range };

    ghost view = { λ shared. ranges_of shared.form };
}

impl SharedRanges {
    /// The list of the ranges, which are its own. It takes no memory, and O(1) time.
    pub(crate) fn from_items(ranges: Items<KeyRange>) -> Self
        ensures { result ≡ ranges }
    {
        SharedRanges {
            alloc: ranges.allocator(),
            form: Form::Own(ranges),
        }
    }

    /// The ranges as a slice. It takes no memory, and O(1) time.
    pub(crate) fn as_slice(&self) -> &[KeyRange]
        ensures { result.now ≡ self.now }
    {
        match &self.form {
            Form::Own(ranges) => ranges.as_slice(),
            Form::One(range) => range.as_slice(),
            Form::Shared(ranges) => ranges.as_slice(),
        }
    }

    /// From now on copies share the ranges. Where memory runs out they go on being copies of each range; so it is never
    /// refused. It takes O(1) time.
    pub(crate) fn share(&mut self)
        ensures { self.new ≡ self.old }
    {
        if let Form::Own(ranges) = &mut self.form {
            let ranges = mem::replace(ranges, Items::new(self.alloc));
            self.form = shared(self.alloc, ranges);
        }
    }

    // The allocator from which the list takes its memory.
    pub(crate) fn allocator(&self) -> Global {
        self.alloc
    }

    // Puts the range in the place of those from `start` up to but not including `end`, if the ranges are the list's
    // own. Else it hands the range back, and nothing changes; neither where memory runs out.
    pub(crate) fn replace(
        &mut self,
        start: usize,
        end: usize,
        range: KeyRange,
    ) -> Result<Option<KeyRange>, AllocError>
        requires order { start ≤ end }
        requires within { end ≤ length self.old }
        ensures ok { IfOk result (λ left. MatchOption left (self.new ≡ take start self.old ++ range ∷ drop end self.old)
            (λ back. (back ≡ range) × (self.new ≡ self.old))) }
        ensures err { OnErr result (self.new ≡ self.old) }
    {
        match &mut self.form {
            Form::Own(ranges) => {
                ranges.replace(start, end, range)?;
                Ok(None)
            }
            Form::One(_) | Form::Shared(_) => Ok(Some(range)),
        }
    }
}

// The ranges, to be shared by copies, or not where memory runs out.
fn shared(alloc: Global, ranges: Items<KeyRange>) -> Form
    ensures { ranges_of result ≡ ranges }
{
    let mut list = ranges.into_vec();
    if list.len() > 1 {
        return shared_list(alloc, Items::from_vec(list));
    }
    match list.pop() {
        Some(range) => shared_range(alloc, list, range),
        // copies of no range share nothing, and take no memory either
        None => Form::Own(Items::from_vec(list)),
    }
}

fn shared_list(alloc: Global, ranges: Items<KeyRange>) -> Form
    ensures { ranges_of result ≡ ranges }
{
    match Arc::new(alloc, ranges) {
        Ok(ranges) => Form::Shared(ranges),
        Err(failed) => Form::Own(failed.value),
    }
}

// The range alone. Where memory runs out, it goes back to the list that it was taken out of.
fn shared_range(alloc: Global, list: Vec<KeyRange>, range: KeyRange) -> Form
    requires none { list.items ≡ [] }
    requires room { vec_len list < vec_capacity list }
    ensures { ranges_of result ≡ range ∷ [] }
{
    match Arc::new(alloc, [range]) {
        Ok(range) => Form::One(range),
        Err(failed) => {
            let [range] = failed.value;
            let mut list = list;
            list.push_reserved(range);
            Form::Own(Items::from_vec(list))
        }
    }
}

// Written out, so that who drops a list has one case and not one for each form.
impl Drop for SharedRanges {
    fn drop(self) {
        let SharedRanges { alloc: _, form } = self;
        drop(form);
    }
}

impl PartialEq for SharedRanges {
    ghost use Rattle.std.specs.Cmp.Lexicographic.{pointwise, lists_per};
    ghost use Rattle.fdb_keys.specs.contracts.key_range.KeyRangePartialEq.TheImpl as of_ranges;
    ghost use Rattle.fdb_keys.specs.contracts.key_range.KeyRangePartialEq.TheImpl.Laws.{laws-law};

    ghost eq = { pointwise (of_ranges.ghosts).eq };

    ghost laws = { lists_per laws-law };

    fn eq(&self, other: &Self) -> bool {
        self.as_slice() == other.as_slice()
    }
}

impl Eq for SharedRanges {
    ghost use Rattle.std.proofs.lemmas.Cmp.{lists_equiv};
    ghost use Rattle.fdb_keys.specs.contracts.key_range.KeyRangeEq.TheImpl.Laws.{laws-law};

    ghost laws = { lists_equiv laws-law };
}

impl Clone for SharedRanges {
    ghost is_clone = { λ of copy. copy ≡ of };

    fn clone(&self) -> Result<Self, AllocError> {
        let form = match &self.form {
            Form::Own(ranges) => Form::Own(copies(self.alloc, ranges.as_slice())?),
            Form::One(range) => Form::One(range.clone()?),
            Form::Shared(ranges) => Form::Shared(ranges.clone()?),
        };
        Ok(SharedRanges {
            alloc: self.alloc,
            form,
        })
    }
}

pub(crate) fn copies(alloc: Global, ranges: &[KeyRange]) -> Result<Items<KeyRange>, AllocError>
    ensures { IfOk result (λ made. made ≡ ranges.now) }
{
    let mut made = Items::new(alloc);
    for range in ranges {
        made.push(range.clone()?)?;
    }
    Ok(made)
}
