// Sessions begin transactions.
ghost use Rattle.std.specs.Prelude.{◌≡◌, [], fold, map, replicate, IfOk, IsOk, OnOk};
ghost use Rattle.std.specs.List.{list_any};
ghost use Rattle.fdb_proxy.specs.Askers.{Asker};
ghost use Rattle.fdb_machine.specs.machine.GrvProxySteps.{has_no_number};
ghost use Rattle.fdb_machine.specs.machine.Sessions.{Sessions, serve};
ghost use Rattle.fdb_machine.specs.machine.Acting.{AreKnown};

use crate::roles::client::sessions::Sessions;
use fdb_proxy::GrvCore;
use std::alloc::{AllocError, Global};

/// So many read-version proxies, at which nobody asks.
pub(crate) fn new_grv_proxies(alloc: Global, count: u32) -> Result<Vec<GrvCore>, AllocError>
    ensures { IfOk result (λ list. list.items ≡ replicate count []) }
{
    let mut list = Vec::new(alloc);
    for _number in 0..count {
        list.push(GrvCore::new(alloc))?;
    }
    Ok(list)
}

/// Whether one of those who ask has used up all numbers of transactions.
pub(crate) fn are_used_up(sessions: &Sessions, askers: &[(u32, u64)]) -> bool
    ensures { result ≡ list_any (λ (asker : Asker). has_no_number sessions.now asker.0) askers.now }
{
    askers
        .iter()
        .any(|(session, _)| sessions.is_used_up(*session))
}

/// Each of those who were granted a read version begins a transaction at it. Memory may run out only where one of them
/// did nothing yet.
pub(crate) fn serve_all(
    alloc: Global,
    sessions: &mut Sessions,
    granted: &[(u32, u64)],
) -> Result<(), AllocError>
    ensures ok { OnOk result (sessions.new
        ≡ fold (λ (served : Sessions) (asker : Asker). serve asker.1 served asker.0) sessions.old granted.now) }
    ensures known { AreKnown sessions.old granted.now → IsOk result }
{
    for (session, version) in granted {
        sessions.begin(alloc, *version, *session)?;
    }
    Ok(())
}
