// How a thread waits for a lock, and for what comes under one.
ghost use Rattle.std.specs.Prelude.{false, IfSome};
ghost use Rattle.std.specs.Fn.{FnReturnsAt};
ghost use Rattle.std.specs.Sync.Mutex.{mutex_guard_value};

use crossbeam_channel::Receiver;
use std::sync::{Condvar, Mutex, MutexGuard, Wait};
use std::thread::yield_now;

// How often a thread lets others run before it sleeps. To be woken costs far more than that, and what it waits for has
// mostly come by then.
const TURNS: u32 = 256;

/// Takes the lock. Who has it gives it back soon, so the thread lets others run, some turns long, before it sleeps.
pub(crate) fn take_lock<'a, R: Wait, T>(rt: &R, lock: &'a Mutex<T>) -> MutexGuard<'a, T> {
    for _turn in 0..TURNS {
        if let Some(guard) = lock.try_lock() {
            return guard;
        }
        yield_now();
    }
    lock.lock(rt)
}

/// Waits as long as what stands under the lock is still to be waited for, and lends it then. First it lets other
/// threads run, some turns long, and then it sleeps until a change is notified.
pub(crate) fn wait_while<'a, R: Wait, T, F: Fn(&T) -> bool>(
    rt: &R,
    lock: &'a Mutex<T>,
    changed: &Condvar,
    is_awaited: F,
) -> MutexGuard<'a, T>
    requires { F.IsAlwaysCallable is_awaited }
    ensures { FnReturnsAt F.Fn is_awaited (mutex_guard_value result) false }
{
    if let Some(guard) = give_way(lock, changed, &is_awaited) {
        return guard;
    }
    let mut guard = take_lock(rt, lock);
    for _ in rt.forever() {
        if !is_awaited(&*guard) {
            return guard;
        }
        guard = changed.wait(rt, guard);
    }
    guard
}

// Lets other threads run, some turns long, and lends what stands under the lock once that isn't to be waited for any
// more. It is looked at again only where a change was notified, so that who waits doesn't keep the lock from others.
fn give_way<'a, T, F: Fn(&T) -> bool>(
    lock: &'a Mutex<T>,
    changed: &Condvar,
    is_awaited: &F,
) -> Option<MutexGuard<'a, T>>
    requires { F.IsAlwaysCallable is_awaited.now }
    ensures { IfSome result (λ guard. FnReturnsAt F.Fn is_awaited.now (mutex_guard_value guard) false) }
{
    let mut looked = None;
    for _turn in 0..TURNS {
        let notified = Some(changed.notifications());
        if looked != notified
            && let Some(guard) = lock.try_lock()
        {
            if !is_awaited(&*guard) {
                return Some(guard);
            }
            looked = notified;
        }
        yield_now();
    }
    None
}

/// Lets other threads run, some turns long, as long as no message has come.
pub(crate) fn give_way_to_senders<T: Drop>(from: &Receiver<T>) {
    for _turn in 0..TURNS {
        if !from.is_empty() {
            return;
        }
        yield_now();
    }
}
