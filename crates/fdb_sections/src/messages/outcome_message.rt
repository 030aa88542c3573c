use crate::known_front::KnownFront;
use crate::name::DatabaseName;
use fdb_keys::RangeSet;
use fdb_proxy::Outcome;
use std::marker::Model;

/// What a session is told of its transaction: what became of a place of the front's last entry, and the points at which
/// it conflicts.
#[derive(Drop)]
pub struct OutcomeMessage<B: DatabaseName> {
    pub(crate) front: KnownFront<B>,
    pub(crate) place: u32,
    pub(crate) outcome: Outcome,
    pub(crate) conflict: RangeSet,
}

impl<B: DatabaseName> Model for OutcomeMessage<B> {
    ghost use Rattle.fdb_sections.specs.Receipts.{OutcomeAtFront, IsOutcome};

    ghost Value = { OutcomeAtFront };

    ghost view = { λ told. record {
      front = told.front;
      place = told.place;
      outcome = told.outcome;
      conflict = told.conflict;
    } };

    ghost invariant = { λ told. IsOutcome B.config.resolver_splits
        (record {
          front = told.front;
          place = told.place;
          outcome = told.outcome;
          conflict = told.conflict;
        }) };
}
