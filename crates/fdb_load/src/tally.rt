use std::sync::atomic::{AtomicU64, Ordering};

/// What all clients have done so far. No client waits for another one to tell it.
#[derive(Drop)]
pub(crate) struct Tally {
    tried: AtomicU64,
    committed: AtomicU64,
    ended: AtomicU64,
}

impl Tally {
    /// Nothing was done.
    pub(crate) fn new() -> Self {
        Tally {
            tried: AtomicU64::new(0),
            committed: AtomicU64::new(0),
            ended: AtomicU64::new(0),
        }
    }

    /// One more try ended, and was acknowledged or not.
    pub(crate) fn add_try(&self, is_committed: bool) {
        self.tried.fetch_add(1, Ordering::SeqCst);
        if is_committed {
            self.committed.fetch_add(1, Ordering::SeqCst);
        }
    }

    /// One more client ended.
    pub(crate) fn add_ended(&self) {
        self.ended.fetch_add(1, Ordering::SeqCst);
    }

    /// How many tries ended.
    pub(crate) fn tried(&self) -> u64 {
        self.tried.load(Ordering::SeqCst)
    }

    /// How many of them were acknowledged.
    pub(crate) fn committed(&self) -> u64 {
        self.committed.load(Ordering::SeqCst)
    }

    /// How many clients ended.
    pub(crate) fn ended(&self) -> u64 {
        self.ended.load(Ordering::SeqCst)
    }
}
