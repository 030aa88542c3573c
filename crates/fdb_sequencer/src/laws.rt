//! What `==` says of tickets, which tickets are accepted, that they make a book, which moves they tell their proxies,
//! and which version is committed.
ghost use Rattle.std.specs.Prelude.{◌≡◌};
ghost use Rattle.std.specs.Bool.{Decides};
ghost use Rattle.fdb_sequencer.specs.Equality.{ticket_eq};
ghost use Rattle.fdb_sequencer.specs.Examples.{WorkedVersions, WorkedPlans, WorkedTickets, WorkedWindows};
ghost use Rattle.fdb_sequencer.specs.Examples.{WorkedHorizons, WorkedMoves, WorkedReports, WorkedNumbers};
ghost use Rattle.fdb_sequencer.specs.TicketLaws.{PlannedAreAccepted, AcceptedArePlanned, AcceptedOnce, IndicesCountUp};
ghost use Rattle.fdb_sequencer.specs.TicketLaws.{TicketsMakeABook, FirstTicketsAreABook, HorizonNeverFalls};
ghost use Rattle.fdb_sequencer.specs.TicketLaws.{HorizonIsTheGreatestBegin};
ghost use Rattle.fdb_sequencer.specs.TicketLaws.{EachMoveTakesEffectOnce, EachProxyGetsEachMoveOnce};
ghost use Rattle.fdb_sequencer.specs.TicketLaws.{PlannedMayBeLearnt, NothingIsCommittedFirst};
ghost use Rattle.fdb_sequencer.specs.TicketLaws.{CommittedIsTheGreatestReported};

use crate::ticket::Ticket;

/// Two tickets are equal exactly where they are the same.
pub fn equal_tickets_are_the_same()
    ensures { (a b : Ticket) → Decides (ticket_eq a b) (a ≡ b) }
{}

/// A ticket is accepted exactly where `plan` gives it, in the same state, to its proxy for some advance.
pub fn tickets_are_accepted_exactly_where_they_are_planned()
    ensures planned { PlannedAreAccepted }
    ensures accepted { AcceptedArePlanned }
{}

/// Once a ticket was accepted, no ticket of its index or a lower one ever is, whatever moves are made, whatever tickets
/// are accepted and whatever windows are set in between.
pub fn tickets_are_accepted_once()
    ensures { AcceptedOnce }
{}

/// Tickets that are accepted one after another, with moves that are made and windows that are set in between, make a
/// book. Their indices count up, and batches at them are entries that follow on one another and whose horizons never
/// fall, if each transaction read below its ticket's version. From version 0 on they are a book, if no two of the
/// transactions have one id.
pub fn accepted_tickets_make_a_book()
    ensures indices { IndicesCountUp }
    ensures entries { TicketsMakeABook }
    ensures book { FirstTicketsAreABook }
{}

/// The horizon of the last ticket never falls, whatever is done, also where the window grows: it is the greatest one of
/// the begins of all tickets' windows, each of which lies the window of its time below the ticket's version.
pub fn the_horizon_never_falls()
    ensures falls { HorizonNeverFalls }
    ensures greatest { HorizonIsTheGreatestBegin }
{}

/// Each move takes effect once, with the first ticket that is accepted after it was made. Each proxy is told each
/// move that took effect once, in order, and none before it takes effect, by the next of its own tickets.
pub fn each_proxy_gets_each_move_once()
    ensures effect { EachMoveTakesEffectOnce }
    ensures told { EachProxyGetsEachMoveOnce }
{}

/// Every ticket that a sequencer plans may be learnt by its proxy: its version and those of its moves are above the
/// version of the proxy's last ticket, the versions of its moves rise up to its own, the moves go to resolvers that
/// exist, and its horizon is no less than that of the proxy's last ticket, and below its version.
pub fn planned_tickets_may_be_learnt()
    ensures { PlannedMayBeLearnt }
{}

/// The committed version is the greatest one that was reported, whatever else is done in between, and 0 at first.
pub fn the_greatest_reported_version_is_committed()
    ensures first { NothingIsCommittedFirst }
    ensures greatest { CommittedIsTheGreatestReported }
{}

/// Which versions and horizons tickets have, and why calls are refused, by examples: each limit, and which refusal
/// comes first.
pub fn worked_refusals()
    ensures versions { WorkedVersions }
    ensures plans { WorkedPlans }
    ensures tickets { WorkedTickets }
    ensures windows { WorkedWindows }
    ensures horizons { WorkedHorizons }
    ensures moves { WorkedMoves }
    ensures reports { WorkedReports }
    ensures numbers { WorkedNumbers }
{}
