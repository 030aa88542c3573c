// The logs.
ghost use Rattle.std.specs.Prelude.{◌<◌, ◌≤◌, None};
ghost use Rattle.fdb_keys.specs.Answers.{Answers};
ghost use Rattle.fdb_txn.specs.Limits.{log_limit, tag_limit};
ghost use Rattle.fdb_core.specs.refinement.Starts.{AreNewLogs};

use fdb_keys::Refusal;
use fdb_log::LogCore;
use std::alloc::Global;

/// A log, with how many entries it took.
#[derive(Drop)]
pub(crate) struct LogRole {
    pub(crate) state: LogCore,
    pub(crate) taken: u32,
}

/// So many logs for so many tags, which took nothing. Refused as `LogCore::new` refuses one of them.
pub(crate) fn new_logs(alloc: Global, logs: u32, tags: u32) -> Result<Vec<LogRole>, Refusal>
    requires few { 0 < logs × (logs ≤ log_limit) }
    requires tagged { 0 < tags × (tags ≤ tag_limit) }
    ensures { Answers result None (λ list. AreNewLogs logs logs tags list.items) }
{
    let mut list = Vec::new(alloc);
    for log in 0..logs {
        let state = LogCore::new(alloc, log, logs, tags)?;
        list.push(LogRole { state, taken: 0 })?;
    }
    Ok(list)
}
