// Where a role is that threads share, and what waits for it.
ghost use Rattle.std.specs.Prelude.{◌≡◌, ◌⊎◌, ◌&&◌, ◌||◌, ◌==◌, not, [], length, Some, None, IfSome, IfNone};
ghost use Rattle.std.specs.Option.{is_none};

use fdb_sections::Inbox;
use std::mem;

/// A role, with what it is to do.
#[derive(Drop)]
pub(crate) struct Loaded<W, T> {
    pub(crate) role: W,
    pub(crate) items: Vec<T>,
}

/// A role that a thread works with. It can't be let go of, so nobody forgets to give it back.
pub(crate) struct Busy<W, T> {
    pub(crate) loaded: Loaded<W, T>,
}

/// What waits for a role, and the role, unless a thread works with it.
#[derive(Drop)]
pub(crate) struct Place<W, T> {
    pub(crate) inbox: Inbox<T>,
    pub(crate) resting: Option<Loaded<W, T>>,
}

impl<W: Drop, T: Drop> Place<W, T> {
    /// Whether the role's own thread has nothing to do.
    pub(crate) fn is_quiet(&self) -> bool
        ensures { result
            ≡ ((length self.now.inbox.waiting.items == 0) && is_none self.now.inbox.ended) || is_none self.now.resting }
    {
        self.inbox.is_idle() || self.resting.is_none()
    }

    /// Gives the role to who works with it, with all that waits, where it rests and something waits.
    pub(crate) fn leave(&mut self) -> Option<Busy<W, T>>
        ensures lent { IfSome result (λ busy. (busy.loaded.items.items ≡ self.old.inbox.waiting.items)
            × (self.new.resting ≡ None)) }
        ensures role { IfSome result (λ busy. IfSome self.old.resting (λ rested. (busy.loaded.role ≡ rested.role)
            × (self.new.inbox.waiting.items ≡ rested.items.items))) }
        ensures stays { IfNone result ((self.new ≡ self.old)
            × ((self.old.inbox.waiting.items ≡ []) ⊎ (self.old.resting ≡ None))) }
        ensures ended { self.new.inbox.ended ≡ self.old.inbox.ended }
    {
        if self.inbox.waiting.is_empty() {
            return None;
        }
        let rested = self.resting.take()?;
        Some(self.with_waiting(rested))
    }

    /// Takes the role back, unless something waits: then it is given back with that.
    pub(crate) fn come_back(&mut self, busy: Busy<W, T>) -> Option<Busy<W, T>>
        ensures rests { IfNone result ((self.old.inbox.waiting.items ≡ [])
            × (self.new ≡ record self.old { resting = Some busy.loaded })) }
        ensures goes_on { IfSome result (λ it. (it.loaded.role ≡ busy.loaded.role)
            × (it.loaded.items.items ≡ self.old.inbox.waiting.items)
            × (self.new.inbox.waiting.items ≡ busy.loaded.items.items)
            × (self.new.resting ≡ self.old.resting)) }
        ensures ended { self.new.inbox.ended ≡ self.old.inbox.ended }
    {
        let Busy { loaded } = busy;
        if self.inbox.waiting.is_empty() {
            self.resting = Some(loaded);
            return None;
        }
        Some(self.with_waiting(loaded))
    }

    /// Takes the role back, and tells whether its own thread has something to do.
    pub(crate) fn rest(&mut self, busy: Busy<W, T>) -> bool
        ensures rests { self.new ≡ record self.old { resting = Some busy.loaded } }
        ensures tells { result
            ≡ not ((length self.old.inbox.waiting.items == 0) && is_none self.old.inbox.ended) }
    {
        let Busy { loaded } = busy;
        self.resting = Some(loaded);
        !self.is_quiet()
    }

    // The role with all that waits. What it was to do waits, of which there is none where it did all.
    fn with_waiting(&mut self, mut loaded: Loaded<W, T>) -> Busy<W, T>
        ensures role { result.loaded.role ≡ loaded.role }
        ensures items { result.loaded.items.items ≡ self.old.inbox.waiting.items }
        ensures waiting { self.new.inbox.waiting.items ≡ loaded.items.items }
        ensures ended { self.new.inbox.ended ≡ self.old.inbox.ended }
        ensures resting { self.new.resting ≡ self.old.resting }
    {
        mem::swap(&mut loaded.items, &mut self.inbox.waiting);
        Busy { loaded }
    }
}
