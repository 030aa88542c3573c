//! Whether a ticket is that of a front's last entry.
ghost use Rattle.std.specs.Prelude.{◌≡◌, ◌++◌, List, drop};
ghost use Rattle.std.specs.Bool.{Decides};
ghost use Rattle.std.specs.Option.{option_copied};
ghost use Rattle.std.specs.Cmp.Lexicographic.{pointwise};
ghost use Rattle.fdb_sequencer.specs.Equality.{dated_eq};
ghost use Rattle.fdb_sequencer.specs.declared.dated.Dated.{Dated};
ghost use Rattle.fdb_sequencer.specs.Moves.{dated};
ghost use Rattle.fdb_roles.specs.Entries.{dated_moves};
ghost use Rattle.fdb_sections.specs.Ticketing.{is_of_entry, IsTicketOf, are_left};

use crate::known_front::KnownFront;
use crate::name::DatabaseName;
use fdb_sequencer::{Dated, Ticket};
use fdb_txn::{Entry, Sealed};

/// Whether the ticket is that of the last entry of the front, which has the batch, and tells the moves of the entries
/// behind the own front. It takes no memory, and O(n) time for n ranges and mutations of the batch, moves of the
/// ticket, and entries behind the own front.
pub(crate) fn is_ticket_of<B: DatabaseName>(
    own: &KnownFront<B>,
    front: &KnownFront<B>,
    batch: &[Sealed],
    ticket: &Ticket,
) -> bool
    ensures { Decides result (IsTicketOf own.now front.now batch.now ticket.now) }
{
    let begin = own.len();
    let count = front.len();
    if count <= begin {
        return false;
    }
    let Some(entry) = front.entry(count - 1) else {
        return false;
    };
    is_of_entry(ticket, count - 1, entry, batch)
        && are_moves_from(front, begin, ticket.moves.as_slice())
}

// Whether the ticket is that of the entry with the number, which has the batch.
fn is_of_entry(ticket: &Ticket, number: usize, entry: &Entry, batch: &[Sealed]) -> bool
    ensures { result ≡ is_of_entry number entry.now batch.now ticket.now }
{
    ticket.index as usize == number
        && ticket.version == entry.version
        && ticket.prev == entry.prev
        && ticket.horizon == entry.horizon
        && entry.batch.as_slice() == batch
}

// Whether these are the moves of the front's entries from the number on.
fn are_moves_from<B: DatabaseName>(front: &KnownFront<B>, begin: usize, moves: &[Dated]) -> bool
    ensures { result ≡ pointwise dated_eq moves.now (dated_moves (drop begin front.now)) }
{
    let mut rest = moves;
    for index in begin..front.len() {
        let Some(entry) = front.entry(index) else {
            return false;
        };
        let Some(left) = left_after(entry, rest) else {
            return false;
        };
        rest = left;
    }
    rest.is_empty()
}

// What is left of the moves behind those of the entry, if they begin with them.
fn left_after<'a>(entry: &Entry, moves: &'a [Dated]) -> Option<&'a [Dated]>
    ensures { (more : List Dated)
        → pointwise dated_eq moves.now (dated entry.now.version entry.now.moves ++ more)
        ≡ are_left (option_copied result) more }
{
    if entry.moves.is_empty() {
        return Some(moves);
    }
    match moves {
        [first, rest @ ..] if first.version == entry.version && first.moves == entry.moves => Some(
            rest,
        ),
        _ => None,
    }
}
