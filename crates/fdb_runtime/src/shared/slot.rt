ghost use Rattle.std.specs.Prelude.{◌≡◌, Some, None};

use crate::shared::waiting::{take_lock, wait_while};
use std::mem;
use std::sync::{Condvar, Mutex, Wait};

/// Where a session gets its replies, one after another: each request has one reply, which is taken before the next
/// request is made.
#[derive(Drop)]
pub(crate) struct Slot<T> {
    reply: Mutex<Option<T>>,
    filled: Condvar,
}

impl<T: Drop> Slot<T> {
    /// No reply has come. It takes no memory.
    pub(crate) fn new() -> Self {
        Slot {
            reply: Mutex::new(None),
            filled: Condvar::new(),
        }
    }

    /// Gives the reply to who waits for it. It takes no memory, and O(1) time.
    pub(crate) fn put<R: Wait>(&self, rt: &R, reply: T) {
        fill(&mut *take_lock(rt, &self.reply), reply);
        self.filled.notify_one();
    }

    /// Takes the reply, once it has come. It takes no memory.
    pub(crate) fn take<R: Wait>(&self, rt: &R) -> Option<T> {
        let mut reply = wait_while(rt, &self.reply, &self.filled, |reply| reply.is_none());
        take_out(&mut *reply)
    }
}

// The reply stands in the slot.
fn fill<T: Drop>(slot: &mut Option<T>, reply: T)
    ensures { slot.new ≡ Some reply }
{
    *slot = Some(reply);
}

// The reply is taken out.
fn take_out<T: Drop>(slot: &mut Option<T>) -> Option<T>
    ensures taken { result ≡ slot.old }
    ensures left { slot.new ≡ None }
{
    mem::replace(slot, None)
}
