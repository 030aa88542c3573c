ghost use Rattle.std.specs.Prelude.{◌≡◌, ◌≤◌, false, IfOk};
ghost use Rattle.std.specs.Sync.Mutex.{mutex_guard_value};

use crate::shared::waiting::{take_lock, wait_while};
use fdb_keys::{KeyRange, Refusal};
use fdb_sections::{DatabaseName, PullMachine, ShardAt, ShardState};
use std::alloc::{AllocError, Global};
use std::sync::{Condvar, Mutex, MutexGuard, Wait};

/// A shard that threads share.
#[derive(Drop)]
pub(crate) struct SharedShard<B: DatabaseName> {
    state: Mutex<ShardState<B>>,
    changed: Condvar,
}

impl<B: DatabaseName> SharedShard<B> {
    /// The shard, with nothing to wait for. It takes no memory.
    pub(crate) fn new(at: ShardAt<B>) -> Self {
        SharedShard {
            state: Mutex::new(ShardState::new(at)),
            changed: Condvar::new(),
        }
    }

    /// Waits until the shard has come to the version, or has failed, and lends it. Refused as `Closed` once the
    /// database is closed, and as `Failed` where the shard doesn't come to the version any more.
    pub(crate) fn at_version<'a, R: Wait>(
        &'a self,
        rt: &R,
        version: u64,
    ) -> Result<MutexGuard<'a, ShardState<B>>, Refusal>
        ensures { IfOk result (λ guard. let shard = (mutex_guard_value guard).at.shard in
            shard.is_failed ≡ false → version ≤ shard.version) }
    {
        let state = wait_while(
            rt,
            &self.state,
            &self.changed,
            |state| state.is_behind(version),
        );
        state.check(version)?;
        Ok(state)
    }

    /// Lends the shard to the pull, which has it apply what its log gave, and wakes who waits for it.
    pub(crate) fn apply<R: Wait>(&self, rt: &R, pull: &mut PullMachine<B>) {
        let mut state = take_lock(rt, &self.state);
        pull.apply_to(&mut state);
        drop(state);
        self.changed.notify_all();
    }

    /// Lends the shard to the pull, which has it forget what is too old at the committed version. It takes no memory.
    pub(crate) fn forget<R: Wait>(&self, rt: &R, pull: &mut PullMachine<B>, committed: u64) {
        let mut state = take_lock(rt, &self.state);
        pull.forget_in(&mut state, committed);
    }

    /// The shard's thread pulls nothing any more, for the first reason that was given, and nobody waits any longer. It
    /// takes no memory.
    pub(crate) fn end<R: Wait>(&self, rt: &R, why: Refusal) {
        take_lock(rt, &self.state).end(why);
        self.changed.notify_all();
    }

    /// Lends the shard as it is. It takes no memory.
    pub(crate) fn lock<'a, R: Wait>(&'a self, rt: &R) -> MutexGuard<'a, ShardState<B>> {
        take_lock(rt, &self.state)
    }

    /// Waits until the shard has come to the version, and tells whether the range goes on behind it. Its lock is held
    /// no longer. Refused as `at_version` is, and as `ShardAt::check_version` is where the shard doesn't serve the
    /// version. It takes no memory.
    pub(crate) fn is_passed<R: Wait>(
        &self,
        rt: &R,
        version: u64,
        range: &KeyRange,
    ) -> Result<bool, Refusal> {
        let held = self.at_version(rt, version)?;
        held.at.check_version(version)?;
        Ok(held.is_passed_by(range))
    }
}

/// Lends all of the shards as they are. Refused only as `NoMemory`.
pub(crate) fn hold_all<'a, B: DatabaseName, R: Wait>(
    rt: &R,
    alloc: Global,
    shards: &'a [SharedShard<B>],
) -> Result<Vec<MutexGuard<'a, ShardState<B>>>, AllocError> {
    let mut held = Vec::with_capacity(alloc, shards.len())?;
    // The threads that change shards and those that read them hold one at a time, and all who hold several take them in
    // this order: so of all that are waited for the last one's holder goes on.
    for shard in shards {
        held.push(shard.lock(rt))?;
    }
    Ok(held)
}

/// The shards whose locks are held. Refused only as `NoMemory`.
pub(crate) fn lent_of<'a, B: DatabaseName>(
    alloc: Global,
    held: &'a [MutexGuard<'_, ShardState<B>>],
) -> Result<Vec<&'a ShardAt<B>>, AllocError> {
    let mut lent = Vec::with_capacity(alloc, held.len())?;
    for state in held {
        lent.push(&state.at)?;
    }
    Ok(lent)
}
