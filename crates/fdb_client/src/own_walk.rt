// The own writes of a range, one after another in the order in which it is read.
use crate::left::Kept;
use crate::own_writes::OwnWrites;
use bytes::Bytes;
use fdb_keys::{Key, KeyRange, Refusal};
use std::alloc::Global;
use std::collections::btree_map;

// How far a walk along the own writes of a range is. It takes no memory, and the search for its first entry and its
// last one; each step from there takes O(1) time on the average.
#[derive(Drop)]
pub(crate) struct OwnWalk<'a> {
    // The range, and the last of its keys that was passed.
    range: &'a KeyRange,
    last: Option<&'a Bytes>,
    // The first entry behind that key, and those behind it.
    next: Option<(&'a Bytes, &'a Kept)>,
    rest: btree_map::Range<'a, Bytes, Kept>,
}

impl<'a> OwnWalk<'a> {
    ghost use Rattle.std.specs.Prelude.{◌≡◌, Bool, None, Some};
    ghost use Rattle.std.specs.Option.{option_copied};
    ghost use Rattle.fdb_keys.specs.Answers.{Answers};
    ghost use Rattle.fdb_client.specs.OwnWalk.{entry_at, in_order, left_of, past, to_come, IsAt, IsKeyOf};

    // A walk that has passed no key.
    pub(crate) fn new(own: &'a OwnWrites, range: &'a KeyRange, reverse: bool) -> Self
        ensures at { IsAt own.now reverse result }
        ensures left { left_of reverse result ≡ range.now }
        ensures range { result.range.now ≡ range.now }
    {
        let rest = own.keys.range(range.begin_text()..range.end_text());
        let mut walk = OwnWalk {
            range,
            last: None,
            next: None,
            rest,
        };
        walk.step(reverse);
        walk
    }

    // Goes on to the next entry.
    fn step(&mut self, reverse: bool)
        ensures to_come { to_come reverse self.new ≡ in_order reverse self.old.rest }
        ensures range { self.new.range ≡ self.old.range }
        ensures last { self.new.last ≡ self.old.last }
    {
        self.next = if reverse {
            self.rest.next_back()
        } else {
            self.rest.next()
        };
    }

    // The next entry.
    pub(crate) fn next(&self) -> Option<(&'a Bytes, &'a Kept)>
        ensures { result ≡ self.now.next }
    {
        self.next
    }

    // Passes the key of the next entry.
    pub(crate) fn pass_own(&mut self, reverse: bool, text: &'a Bytes)
        ensures to_come { to_come reverse self.new ≡ in_order reverse self.old.rest }
        ensures range { self.new.range ≡ self.old.range }
        ensures last { option_copied self.new.last ≡ Some text.now }
    {
        self.last = Some(text);
        self.step(reverse);
    }

    // What the next entry leaves, if it is that of the key.
    pub(crate) fn left_at(&self, key: &Key) -> Option<&'a Kept>
        ensures { (reverse : Bool) → option_copied result ≡ entry_at key.now (to_come reverse self.now) }
    {
        match self.next {
            Some((text, left)) if text.as_slice() == key.bytes() => Some(left),
            _ => None,
        }
    }

    // Passes the key, and the next entry with it, if that is the key's.
    pub(crate) fn pass(&mut self, reverse: bool, key: &'a Key)
        ensures to_come { to_come reverse self.new ≡ past key.now (to_come reverse self.old) }
        ensures range { self.new.range ≡ self.old.range }
        ensures last { option_copied self.new.last ≡ Some key.now }
    {
        if self.left_at(key).is_some() {
            self.step(reverse);
        }
        self.last = Some(key.text());
    }

    // What is left of the range behind the last key that was passed.
    pub(crate) fn left(&self, alloc: Global, reverse: bool) -> Result<KeyRange, Refusal>
        requires { IsKeyOf self.now.range.now (option_copied self.now.last) }
        ensures { Answers result None (λ left. left ≡ left_of reverse self.now) }
    {
        match self.last {
            Some(text) => {
                let key = Key::from_text(text.clone()?);
                self.range.behind(alloc, reverse, &key)
            }
            None => Ok(self.range.clone()?),
        }
    }
}
