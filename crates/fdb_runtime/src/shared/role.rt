// A role that threads share: its own thread works with it, or one that waits for what it does.
ghost use Rattle.std.specs.Prelude.{◌≡◌, [], IfErr};

use crate::gate::Pass;
use crate::shared::Shared;
use crate::shared::place::{Busy, Loaded, Place};
use crate::shared::waiting::{take_lock, wait_while};
use fdb_keys::{Refusal, Refused};
use fdb_sections::{DatabaseName, Inbox};
use std::alloc::Global;
use std::sync::{Condvar, Mutex, Wait};
use std::thread::yield_now;

// How often who asks does all that waits, before the role's thread goes on with that.
const ROUNDS: u32 = 4;

/// What a role is lent while it acts.
#[derive(Drop)]
pub(crate) struct Lent<'a, B: DatabaseName, G: Pass> {
    pub(crate) shared: &'a Shared<B>,
    pub(crate) gate: &'a G,
}

/// What a role does with what comes for it.
pub(crate) trait Act<B: DatabaseName, T>: Drop {
    /// Does all of it, and leaves nothing of it, also where it is refused: then the role fails.
    fn act<R: Wait, G: Pass>(
        &mut self,
        rt: &R,
        lent: &Lent<'_, B, G>,
        items: &mut Vec<T>,
    ) -> Result<(), Refusal>
        ensures { items.new.items ≡ [] };

    /// The role has failed: nobody waits for it for ever.
    fn fail<R: Wait>(&mut self, rt: &R, shared: &Shared<B>);

    /// Tells who put the item there why nothing comes of it.
    fn refuse<R: Wait>(rt: &R, shared: &Shared<B>, item: T, why: Refusal);
}

/// A role that threads share. One thread at a time works with it, and holds no lock meanwhile.
#[derive(Drop)]
pub(crate) struct SharedRole<W, T> {
    place: Mutex<Place<W, T>>,
    changed: Condvar,
}

impl<W: Drop, T: Drop> SharedRole<W, T> {
    /// The role, for which nothing waits. It takes no memory.
    pub(crate) fn new(alloc: Global, role: W) -> Self {
        Self::with_room(role, Vec::new(alloc), Vec::new(alloc))
    }

    /// The same with room for what waits, and for what it is to do.
    pub(crate) fn with_room(role: W, waiting: Vec<T>, items: Vec<T>) -> Self {
        let inbox = Inbox {
            waiting,
            ended: None,
        };
        SharedRole {
            place: Mutex::new(Place {
                inbox,
                resting: Some(Loaded { role, items }),
            }),
            changed: Condvar::new(),
        }
    }

    /// Lets the item wait for who works with the role next, and wakes nobody. Refused as the role ended, and as
    /// `NoMemory`; then the item is handed back. It waits for no more than the lock, O(1) time but for growth.
    pub(crate) fn put<R: Wait>(&self, rt: &R, item: T) -> Result<(), Refused<T>>
        ensures { IfErr result (λ refused. refused.back ≡ item) }
    {
        take_lock(rt, &self.place).inbox.put(item)
    }

    /// The same, and lends the role with all that waits, where it rests.
    fn hand<R: Wait>(&self, rt: &R, item: T) -> Result<Option<Busy<W, T>>, Refused<T>>
        ensures { IfErr result (λ refused. refused.back ≡ item) }
    {
        let mut place = take_lock(rt, &self.place);
        place.inbox.put(item)?;
        Ok(place.leave())
    }

    /// Wakes the role's thread, if it sleeps.
    pub(crate) fn wake(&self) {
        self.changed.notify_one();
    }

    // Lends the role with all that waits, where it rests and something waits.
    fn leave<R: Wait>(&self, rt: &R) -> Option<Busy<W, T>> {
        take_lock(rt, &self.place).leave()
    }

    // Takes the role back, unless something waits. Where nothing comes any more, its thread sees to that.
    fn come_back<R: Wait>(&self, rt: &R, busy: Busy<W, T>) -> Option<Busy<W, T>> {
        let mut place = take_lock(rt, &self.place);
        let left = place.come_back(busy);
        let is_over = place.inbox.ended.is_some();
        drop(place);
        if is_over {
            self.wake();
        }
        left
    }

    // Takes the role back, and has its thread do what waits.
    fn rest<R: Wait>(&self, rt: &R, busy: Busy<W, T>) {
        if take_lock(rt, &self.place).rest(busy) {
            self.wake();
        }
    }

    // Waits until the role rests and something waits, and tells whether nothing comes any more: then the role is
    // dropped.
    fn is_over<R: Wait>(&self, rt: &R) -> bool {
        let mut place = wait_while(rt, &self.place, &self.changed, |place| place.is_quiet());
        if place.inbox.ended.is_none() {
            return false;
        }
        let rested = place.resting.take();
        drop(place);
        drop(rested);
        true
    }

    // Nothing comes any more, for the first reason that was given. It gives what waits, and takes no memory.
    fn close<R: Wait>(&self, rt: &R, why: Refusal) -> Vec<T> {
        let waiting = take_lock(rt, &self.place).inbox.end(why);
        self.changed.notify_all();
        waiting
    }
}

/// Lets the item wait, and does all that waits, unless another thread works with the role, which then does this too.
/// Refused as the role ended, and as `NoMemory`; then the item is handed back.
pub(crate) fn ask<B: DatabaseName, T: Drop, W: Act<B, T>, G: Pass, R: Wait>(
    rt: &R,
    lent: &Lent<'_, B, G>,
    role: &SharedRole<W, T>,
    item: T,
) -> Result<(), Refused<T>>
    ensures { IfErr result (λ refused. refused.back ≡ item) }
{
    let mut left = role.hand(rt, item)?;
    for _round in 1..ROUNDS {
        let Some(busy) = left else {
            return Ok(());
        };
        left = go_on(rt, lent, role, busy);
    }
    if let Some(busy) = left {
        role.rest(rt, worked(rt, lent, role, busy));
    }
    Ok(())
}

/// Does all that waits, until nothing more has come, unless another thread works with the role.
pub(crate) fn help<B: DatabaseName, T: Drop, W: Act<B, T>, G: Pass, R: Wait>(
    rt: &R,
    lent: &Lent<'_, B, G>,
    role: &SharedRole<W, T>,
) {
    let mut left = role.leave(rt);
    for _ in rt.forever() {
        let Some(busy) = left else {
            return;
        };
        left = go_on(rt, lent, role, busy);
    }
    if let Some(busy) = left {
        role.rest(rt, busy);
    }
}

/// Does all that waits and no other thread does, until nothing comes any more, and drops the role then.
pub(crate) fn serve<B: DatabaseName, T: Drop, W: Act<B, T>, G: Pass, R: Wait>(
    rt: &R,
    lent: &Lent<'_, B, G>,
    role: &SharedRole<W, T>,
) {
    for _ in rt.forever() {
        if role.is_over(rt) {
            return;
        }
        // What others are about to put there is done at once then.
        yield_now();
        help(rt, lent, role);
    }
}

// Does what the role is to do, and gives it back, unless more came meanwhile.
fn go_on<B: DatabaseName, T: Drop, W: Act<B, T>, G: Pass, R: Wait>(
    rt: &R,
    lent: &Lent<'_, B, G>,
    role: &SharedRole<W, T>,
    busy: Busy<W, T>,
) -> Option<Busy<W, T>> {
    role.come_back(rt, worked(rt, lent, role, busy))
}

// Does what the role is to do, and leaves nothing of it. Where the role fails, it has ended.
fn worked<B: DatabaseName, T: Drop, W: Act<B, T>, G: Pass, R: Wait>(
    rt: &R,
    lent: &Lent<'_, B, G>,
    role: &SharedRole<W, T>,
    busy: Busy<W, T>,
) -> Busy<W, T>
    ensures { result.loaded.items.items ≡ [] }
{
    let mut busy = busy;
    let its = &mut busy.loaded;
    if its.role.act(rt, lent, &mut its.items).is_err() {
        its.role.fail(rt, lent.shared);
        end(rt, lent.shared, role, Refusal::Failed);
    }
    busy
}

/// Nothing comes for the role any more, for the first reason that was given, and what waits is refused. Its thread ends
/// once nobody works with it. It takes no memory.
pub(crate) fn end<B: DatabaseName, T: Drop, W: Act<B, T>, R: Wait>(
    rt: &R,
    shared: &Shared<B>,
    role: &SharedRole<W, T>,
    why: Refusal,
) {
    for item in role.close(rt, why) {
        W::refuse(rt, shared, item, why);
    }
}
