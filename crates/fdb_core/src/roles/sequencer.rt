// The sequencer takes what the world gives it, which it never refuses.
ghost use Rattle.std.specs.Prelude.{◌≡◌, ◌<◌, ◌≤◌, None};
ghost use Rattle.fdb_keys.specs.Answers.{Answers};
ghost use Rattle.fdb_txn.specs.Limits.{resolver_limit, proxy_limit};
ghost use Rattle.fdb_sequencer.specs.Sequencer.{accept_fault, accepting, fresh, reporting};

use fdb_keys::Refusal;
use fdb_sequencer::{SequencerCore, Ticket};
use std::alloc::Global;

/// The sequencer of so many proxies and resolvers, before its first ticket. Refused only as `NoMemory`.
pub(crate) fn first_sequencer(
    alloc: Global,
    proxies: u32,
    resolvers: u32,
) -> Result<SequencerCore, Refusal>
    requires proxies { (0 < proxies) × (proxies ≤ proxy_limit) }
    requires resolvers { (0 < resolvers) × (resolvers ≤ resolver_limit) }
    ensures { Answers result None (λ sequencer. sequencer ≡ fresh proxies resolvers 0) }
{
    SequencerCore::new(alloc, proxies, resolvers, 0)
}

/// Accepts the ticket, which was planned just before.
pub(crate) fn issue(sequencer: &mut SequencerCore, ticket: &Ticket)
    requires { accept_fault sequencer.old ticket.now ≡ None }
    ensures { sequencer.new ≡ accepting sequencer.old ticket.now }
{
    match sequencer.accept(ticket) {
        Ok(()) => (),
        Err(_) => unreachable!(),
    }
}

/// Reports the version of an entry.
pub(crate) fn take_report(sequencer: &mut SequencerCore, version: u64)
    requires { version ≤ sequencer.old.last }
    ensures { sequencer.new ≡ reporting sequencer.old version }
{
    match sequencer.report(version) {
        Ok(()) => (),
        Err(_) => unreachable!(),
    }
}
