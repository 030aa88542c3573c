// What a commit proxy makes of a ticket.
ghost use Rattle.std.specs.Prelude.{◌≡◌, ◌<◌, ◌≤◌, ◌^◌, nat_le, List, ℕ, length, None, IfOk};
ghost use Rattle.std.specs.List.{AllByRecursion, list_any};
ghost use Rattle.fdb_keys.specs.Answers.{Answers};
ghost use Rattle.fdb_txn.specs.book.Book.{DatedMove};
ghost use Rattle.fdb_owners.specs.Ownership.{resolvers_of};
ghost use Rattle.fdb_owners.specs.OwnersLaws.{AgreesWith};
ghost use Rattle.fdb_sequencer.specs.TicketLaws.{AreRisingUpTo, GoToResolvers};
ghost use Rattle.fdb_proxy.specs.CommitProxies.{is_stale, moves_with, HaveLearnt, IsWithoutVerdicts};

use crate::parting::parts_of;
use crate::position::Position;
use crate::resolving::Resolving;
use fdb_keys::Refusal;
use fdb_owners::Owners;
use fdb_sequencer::{Dated, Ticket};
use fdb_txn::Sealed;
use std::alloc::Global;

/// Whether the ticket's version, or that of one of its moves, isn't above the last one.
pub(crate) fn is_stale(last: u64, ticket: &Ticket) -> bool
    ensures { result ≡ is_stale last ticket.now }
{
    ticket.version <= last || are_any_stale(last, ticket.moves.as_slice())
}

fn are_any_stale(last: u64, dated: &[Dated]) -> bool
    ensures { result ≡ list_any (λ one. nat_le one.version last) dated.now }
{
    dated.iter().any(|one| one.version <= last)
}

// Learns the moves of a ticket, version by version.
fn learn_all(owners: &mut Owners, dated: &[Dated], version: u64) -> Result<(), Refusal>
    requires rising { AreRisingUpTo version dated.now }
    requires above { AllByRecursion (λ one. owners.old.last < one.version) dated.now }
    requires targets { GoToResolvers (resolvers_of owners.old) dated.now }
    requires through { owners.old.last ≤ version }
    ensures answers { Answers result None (λ _. (moves : List DatedMove) → AgreesWith owners.old moves
        → AgreesWith owners.new (moves_with dated.now moves)) }
    ensures splits { owners.new.splits ≡ owners.old.splits }
    ensures floor { owners.new.floor ≡ owners.old.floor }
    ensures last { owners.new.last ≤ version }
{
    for one in dated {
        owners.learn(one.version, one.moves.as_slice())?;
    }
    Ok(())
}

/// Learns the ticket's moves, and makes the batch that waits for verdicts at its position.
pub(crate) fn resolve(
    alloc: Global,
    owners: &mut Owners,
    ticket: &Ticket,
    batch: &[Sealed],
) -> Result<Resolving, Refusal>
    requires few { length batch.now < 2 ^ 32 }
    requires rising { AreRisingUpTo ticket.now.version ticket.now.moves }
    requires above { AllByRecursion (λ one. owners.old.last < one.version) ticket.now.moves }
    requires targets { GoToResolvers (resolvers_of owners.old) ticket.now.moves }
    requires through { owners.old.last ≤ ticket.now.version }
    requires floor { owners.old.floor ≤ ticket.now.horizon }
    requires below { ticket.now.horizon < ticket.now.version }
    ensures answers { Answers result None (λ resolving. IsWithoutVerdicts owners.new ticket.now batch.now resolving) }
    ensures learnt { IfOk result (λ _. HaveLearnt owners.old ticket.now owners.new) }
    ensures splits { owners.new.splits ≡ owners.old.splits }
    ensures last { owners.new.last ≤ ticket.now.version }
    ensures kept { owners.new.floor ≤ ticket.now.horizon }
{
    learn_all(owners, ticket.moves.as_slice(), ticket.version)?;
    owners.expire(ticket.horizon);
    let position = Position {
        index: ticket.index,
        version: ticket.version,
        prev: ticket.prev,
        horizon: ticket.horizon,
    };
    let parts = parts_of(alloc, owners, position, batch)?;
    let resolving = Resolving::new(alloc, position, parts)?;
    Ok(resolving)
}
