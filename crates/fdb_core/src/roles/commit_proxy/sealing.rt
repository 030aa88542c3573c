// The first of those who wait at a commit proxy become a batch.
ghost use Rattle.std.specs.Prelude.{◌≡◌, ◌+◌, ◌≤◌, ◌++◌, take, drop, vec_len, vec_capacity, None, IfOk, IfErr, OnOk};
ghost use Rattle.std.specs.Prelude.{OnErr};
ghost use Rattle.fdb_keys.specs.declared.refusal.Refusal.TheVariants.{NoMemory};
ghost use Rattle.fdb_txn.specs.Limits.{place_limit};
ghost use Rattle.fdb_proxy.specs.CommitProxies.{IsTicketFor, seal_fault, sealing, learn_fault};
ghost use Rattle.fdb_core.specs.refinement.commit_proxy.Ties.{HasBatch, HasNoBatch};

use fdb_client::Transcript;
use fdb_keys::{Items, Refusal};
use fdb_proxy::CommitCore;
use fdb_resolver::Part;
use fdb_sequencer::Ticket;
use fdb_txn::{Batch, PLACE_LIMIT};
use std::alloc::{AllocError, Global};

/// The first of those who wait, at most as many as a batch may have, become the batch of the ticket's entry at the
/// state, and stay in the list. Answers the batch, the part of each resolver, and who waits on. Where that is refused,
/// the list is as before, and the state is, too, or has failed while it learnt the ticket.
pub(crate) fn seal_first(
    alloc: Global,
    state: &mut CommitCore,
    waiting: &mut Vec<Transcript>,
    ticket: &Ticket,
) -> Result<(Batch, Items<Part>, Vec<Transcript>), Refusal>
    requires { IsTicketFor (sealing state.old.proxy) ticket.now }
    ensures state { IfOk result (λ given. HasBatch state.old.proxy ticket.now given.0 given.1 state.new.proxy) }
    ensures rest { IfOk result (λ given. given.2.items ≡ drop place_limit waiting.old.items) }
    ensures first { OnOk result (waiting.new.items ≡ take place_limit waiting.old.items) }
    ensures lacks { seal_fault state.old.proxy ≡ None → learn_fault (sealing state.old.proxy) ticket.now ≡ None
        → IfErr result (λ why. why ≡ NoMemory) }
    ensures left { learn_fault (sealing state.old.proxy) ticket.now ≡ None
        → OnErr result (HasNoBatch state.old.proxy ticket.now state.new.proxy) }
    ensures same { OnErr result (waiting.new.items ≡ waiting.old.items) }
{
    // The list is parted before the state changes: a batch whose ticket is learnt can't be given up.
    let mut rest = cut(alloc, waiting)?;
    match seal_core(state, ticket) {
        Ok((batch, parts)) => Ok((batch, parts, rest)),
        Err(why) => {
            put_back(waiting, &mut rest);
            drop(rest);
            Err(why)
        }
    }
}

// The state's first requests become the batch of the ticket's entry. Answers the batch, and the part of each resolver.
fn seal_core(state: &mut CommitCore, ticket: &Ticket) -> Result<(Batch, Items<Part>), Refusal>
    requires { IsTicketFor (sealing state.old.proxy) ticket.now }
    ensures state { IfOk result (λ given. HasBatch state.old.proxy ticket.now given.0 given.1 state.new.proxy) }
    ensures lacks { seal_fault state.old.proxy ≡ None → learn_fault (sealing state.old.proxy) ticket.now ≡ None
        → IfErr result (λ why. why ≡ NoMemory) }
    ensures left { learn_fault (sealing state.old.proxy) ticket.now ≡ None
        → OnErr result (HasNoBatch state.old.proxy ticket.now state.new.proxy) }
{
    let batch = state.seal()?;
    let parts = state.learn_with_parts(ticket)?;
    Ok((batch, parts))
}

// Leaves at most as many as a batch may have, and gives the others. There is room to put them back.
fn cut(alloc: Global, waiting: &mut Vec<Transcript>) -> Result<Vec<Transcript>, AllocError>
    ensures rest { IfOk result (λ rest. rest.items ≡ drop place_limit waiting.old.items) }
    ensures first { OnOk result (waiting.new.items ≡ take place_limit waiting.old.items) }
    ensures room { IfOk result (λ rest. vec_len waiting.new + vec_len rest ≤ vec_capacity waiting.new) }
    ensures same { OnErr result (waiting.new.items ≡ waiting.old.items) }
{
    if waiting.len() <= PLACE_LIMIT {
        return Ok(Vec::new(alloc));
    }
    let rest = waiting.split_off(PLACE_LIMIT)?;
    Ok(rest)
}

// Those who were cut off wait again, behind the others.
fn put_back(waiting: &mut Vec<Transcript>, rest: &mut Vec<Transcript>)
    requires { vec_len waiting.old + vec_len rest.old ≤ vec_capacity waiting.old }
    ensures { waiting.new.items ≡ waiting.old.items ++ rest.old.items }
{
    let _moved = waiting.append(rest);
}
