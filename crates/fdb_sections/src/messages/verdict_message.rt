use crate::known_front::KnownFront;
use crate::name::DatabaseName;
use fdb_resolver::Verdicts;
use std::marker::Model;

/// What a resolver answers: what the rule says of its part of the last entry of the front.
#[derive(Drop)]
pub struct VerdictMessage<B: DatabaseName> {
    pub(crate) front: KnownFront<B>,
    pub(crate) verdicts: Verdicts,
}

impl<B: DatabaseName> Model for VerdictMessage<B> {
    ghost use Rattle.fdb_sections.specs.Messages.{VerdictsAtFront, AreLastVerdicts};

    ghost Value = { VerdictsAtFront };

    ghost view = { λ sent. record { front = sent.front; verdicts = sent.verdicts } };

    ghost invariant = { λ sent.
        AreLastVerdicts B.config.resolver_splits (record { front = sent.front; verdicts = sent.verdicts }) };
}
