// What a test's database is run by and named by, and what its threads are.
ghost use Rattle.std.specs.Prelude.{◌≡◌, Ok, Err, MatchResult};
ghost use Rattle.fdb_keys.specs.declared.refusal.Refusal.TheVariants.{NoMemory};

use fdb_keys::Refusal;
use fdb_runtime::ClusterName;
use std::marker::Brand;
use std::process::Abort;
use std::sync::Wait;
use std::thread::Threads;
use std::time::Clock;

/// What runs a database in threads, tells the time, and stops a test that fails.
pub trait Host: Threads + Wait + Abort + Clock + Copy + Send + Sync + Drop + 'static {}

impl<R: Threads + Wait + Abort + Clock + Copy + Send + Sync + Drop + 'static> Host for R {}

/// Names a database that runs.
pub trait Named: ClusterName + Send + Sync + 'static {}

impl Named for Brand {}

/// Why a test couldn't go on, if so.
pub type Done = Result<(), Refusal>;

/// The thread, unless it couldn't be started, which is refused as `NoMemory`. What it was to run is dropped then, where
/// its type is a parameter.
pub fn thread_of<T, F: Drop>(started: Result<T, F>) -> Result<T, Refusal>
    ensures { MatchResult started (λ thread. result ≡ Ok thread) (λ _. result ≡ Err NoMemory) }
{
    match started {
        Ok(thread) => Ok(thread),
        Err(_not_run) => Err(Refusal::NoMemory),
    }
}
