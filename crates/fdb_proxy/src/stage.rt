ghost use Rattle.std.specs.Prelude.{◌≡◌, []};
ghost use Rattle.fdb_proxy.specs.CommitProxies.{is_logged, answers_in};

use crate::logging::Logging;
use crate::outcome::Outcome;
use crate::resolving::Resolving;
use fdb_keys::Items;
use fdb_txn::TxnId;
use std::alloc::Global;

/// How far a commit proxy is with its batch.
#[derive(Drop)]
pub(crate) enum Stage {
    /// It has none.
    Idle,
    /// The batch has no entry yet.
    Sealed,
    /// The batch has an entry, and memory ran out while its ticket was learnt: the proxy has failed.
    Entered,
    /// The batch waits for verdicts.
    Resolving(Resolving),
    /// The batch is decided, and waits for logs.
    Logging(Logging),
}

impl Stage {
    /// Is the other one from now on.
    pub(crate) fn enter(&mut self, stage: Stage)
        ensures { self.new ≡ stage }
    {
        *self = stage;
    }

    /// Whether every log has acknowledged the batch.
    pub(crate) fn is_logged(&self) -> bool
        ensures { result ≡ is_logged self.now }
    {
        match self {
            Stage::Logging(decided) => decided.first_missing().is_none(),
            _ => false,
        }
    }

    /// The id of each transaction of a decided batch, with what became of it.
    pub(crate) fn into_answers(self, alloc: Global) -> Items<(TxnId, Outcome)>
        ensures { result ≡ answers_in self }
    {
        match self {
            Stage::Logging(decided) => decided.answers,
            _ => Items::new(alloc),
        }
    }
}
