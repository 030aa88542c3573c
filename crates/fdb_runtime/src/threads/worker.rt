// How threads are started, whatever they do. Who works is a type parameter here, so that the loan check doesn't go over
// what a worker has.
ghost use Rattle.std.specs.Prelude.{◌≡◌, ⊤, None};
ghost use Rattle.fdb_keys.specs.Answers.{Answers};

use fdb_keys::Refusal;
use std::sync::{Arc, Wait};
use std::thread::{JoinHandle, Threads};
use std::{mem, thread};

/// What a thread of a database has, and does with what all of them are lent.
pub(crate) trait Worker<S>: Drop + Send + 'static {
    /// Works until nothing can come any more, or the role fails.
    fn work<R: Wait>(&mut self, rt: &R, lent: &S);
}

/// Starts a thread for each of the workers, adds its handle, and leaves none. Refused only as `NoMemory`, and then some
/// of them may have been started; the others are dropped or left.
pub(crate) fn start_all<
    S: Drop + Send + Sync + 'static,
    W: Worker<S>,
    R: Threads + Wait + Copy + Send + Sync + 'static,
>(
    rt: &R,
    lent: &Arc<S>,
    workers: &mut Vec<W>,
    threads: &mut Vec<JoinHandle<()>>,
) -> Result<(), Refusal>
    ensures { Answers result None (λ _. ⊤) }
{
    // The room for the handles comes before the threads, so that none is left that can't be joined.
    threads.reserve(workers.len())?;
    for worker in taken(workers) {
        threads.push(start(rt, lent, worker)?)?;
    }
    Ok(())
}

// Starts the worker's thread. Refused only as `NoMemory`.
fn start<
    S: Drop + Send + Sync + 'static,
    W: Worker<S>,
    R: Threads + Wait + Copy + Send + Sync + 'static,
>(rt: &R, lent: &Arc<S>, worker: W) -> Result<JoinHandle<()>, Refusal>
    ensures { Answers result None (λ _. ⊤) }
{
    let lent = Arc::try_clone(lent)?;
    let handle = *rt;
    match thread::spawn(rt, move || run(worker, &handle, &*lent)) {
        Ok(thread) => Ok(thread),
        Err(_) => Err(Refusal::NoMemory),
    }
}

// Has it work, and drops it.
fn run<S, W: Worker<S>, R: Wait>(worker: W, rt: &R, lent: &S) {
    let mut worker = worker;
    worker.work(rt, lent);
}

// Takes all of them out. It takes no memory.
fn taken<W: Drop>(workers: &mut Vec<W>) -> Vec<W> {
    let alloc = *workers.allocator();
    mem::replace(workers, Vec::new(alloc))
}

/// Waits for the end of all of them.
pub(crate) fn join_all<R: Threads>(rt: &R, threads: Vec<JoinHandle<()>>) {
    for thread in threads {
        thread.join(rt);
    }
}
