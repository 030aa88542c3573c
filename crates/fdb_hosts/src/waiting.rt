// How long a test waits for what another thread does.
use std::sync::atomic::{AtomicU64, Ordering};
use std::thread;
use std::time::{Clock, Duration};

// How often a thread looks, once a millisecond, before it gives up.
const TURNS: u32 = 10_000;

/// Waits until the word is no less than the number, and says whether it came to that.
pub fn wait_for<C: Clock>(clock: &C, word: &AtomicU64, least: u64) -> bool {
    for _turn in 0..TURNS {
        if word.load(Ordering::SeqCst) >= least {
            return true;
        }
        thread::sleep(clock, Duration::from_millis(1));
    }
    false
}
