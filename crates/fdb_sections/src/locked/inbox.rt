ghost use Rattle.std.specs.Prelude.{◌≡◌, ◌==◌, ◌&&◌, ◌++◌, [], ◌∷◌, length, Some, None, OnErr};
ghost use Rattle.std.specs.Option.{is_none, option_or};
ghost use Rattle.fdb_keys.specs.Answers.{AnswersOrHandsBack};

use fdb_keys::{Refusal, Refused};
use std::alloc::Global;
use std::mem;

/// What waits for a proxy's thread, until the inbox ends.
#[derive(Drop)]
pub struct Inbox<T> {
    /// What waits, in order.
    pub waiting: Vec<T>,
    /// Why nothing is taken any more, if that is so.
    pub ended: Option<Refusal>,
}

impl<T: Drop> Inbox<T> {
    /// Nothing waits. It takes no memory, and O(1) time.
    pub fn new(alloc: Global) -> Self
        ensures waiting { result.waiting.items ≡ [] }
        ensures ended { result.ended ≡ None }
    {
        Inbox {
            waiting: Vec::new(alloc),
            ended: None,
        }
    }

    /// Lets the item wait. Refused as the inbox ended, and as `NoMemory`; then the item is handed back. It takes O(1)
    /// time but for growth.
    pub fn put(&mut self, item: T) -> Result<(), Refused<T>>
        ensures answers { AnswersOrHandsBack result item self.old.ended
            (λ _. self.new.waiting.items ≡ self.old.waiting.items ++ item ∷ []) }
        ensures refused { OnErr result (self.new.waiting.items ≡ self.old.waiting.items) }
        ensures ended { self.new.ended ≡ self.old.ended }
    {
        if let Some(why) = self.ended {
            return Err(Refused { why, back: item });
        }
        match self.waiting.push(item) {
            Ok(()) => Ok(()),
            Err(failed) => Err(Refused {
                why: Refusal::NoMemory,
                back: failed.value,
            }),
        }
    }

    // Takes out all that waits, in order. It takes no memory.
    fn take(&mut self) -> Vec<T>
        ensures taken { result.items ≡ self.old.waiting.items }
        ensures left { self.new.waiting.items ≡ [] }
        ensures ended { self.new.ended ≡ self.old.ended }
    {
        let nothing = Vec::new(*self.waiting.allocator());
        mem::replace(&mut self.waiting, nothing)
    }

    /// Takes out all that waits, in order, with why the inbox ended, if it did. It takes no memory, and O(1) time.
    pub fn take_out(&mut self) -> (Vec<T>, Option<Refusal>)
        ensures taken { result.0.items ≡ self.old.waiting.items }
        ensures why { result.1 ≡ self.old.ended }
        ensures left { self.new.waiting.items ≡ [] }
        ensures ended { self.new.ended ≡ self.old.ended }
    {
        (self.take(), self.ended)
    }

    /// Takes nothing any more, for the first reason that was given, and gives what waits. It takes no memory, and O(1)
    /// time.
    pub fn end(&mut self, why: Refusal) -> Vec<T>
        ensures taken { result.items ≡ self.old.waiting.items }
        ensures left { self.new.waiting.items ≡ [] }
        ensures ended { self.new.ended ≡ option_or self.old.ended (Some why) }
    {
        if self.ended.is_none() {
            self.ended = Some(why);
        }
        self.take()
    }

    /// Whether a thread that wants something waits on. It takes no memory, and O(1) time.
    pub fn is_idle(&self) -> bool
        ensures { result ≡ (length self.now.waiting.items == 0) && is_none self.now.ended }
    {
        self.waiting.is_empty() && self.ended.is_none()
    }
}
