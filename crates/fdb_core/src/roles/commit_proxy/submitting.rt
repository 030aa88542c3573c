// A session's transaction comes to a commit proxy.
ghost use Rattle.std.specs.Prelude.{◌≡◌, ◌≤◌, ◌++◌, IfSome, None};
ghost use Rattle.fdb_proxy.specs.CommitProxies.{submit_fault};
ghost use Rattle.fdb_client.specs.Programs.{commit_request_of};
ghost use Rattle.fdb_machine.specs.machine.Sessions.{open_at};
ghost use Rattle.fdb_core.specs.refinement.client.Submitting.{Submits};

use crate::roles::client::sessions::Sessions;
use fdb_client::{Finished, Transcript};
use fdb_keys::Refusal;
use fdb_proxy::CommitCore;

/// The session's open transaction is finished. One that wrote nothing is handed out, and the session has none any more.
/// Any other one waits at the state, which has room for it, and so does its session.
pub(crate) fn take_in(
    state: &mut CommitCore,
    waiting: &mut Vec<Transcript>,
    sessions: &mut Sessions,
    session: u32,
) -> Result<Option<Transcript>, Refusal>
    requires room { 1 ≤ state.old.spare }
    requires taken { IfSome (open_at sessions.old session)
        (λ transcript. submit_fault state.old.proxy (commit_request_of transcript) ≡ None) }
    ensures { Submits session sessions.old state.old.proxy waiting.old.items result sessions.new state.new.proxy
        waiting.new.items }
{
    // Room comes first: once the transaction is finished, it can't be left open.
    waiting.reserve(1)?;
    match sessions.finish(session)? {
        Finished::ReadOnly(transcript) => Ok(Some(transcript)),
        Finished::ToCommit(sealed, transcript) => {
            sessions.wait(session)?;
            match state.submit(sealed) {
                Ok(()) => {
                    waiting.push_reserved(transcript);
                    Ok(None)
                }
                Err(refused) => Err(refused.why),
            }
        }
    }
}
