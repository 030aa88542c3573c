use crate::known_front::KnownFront;
use crate::messages::outcome_message::OutcomeMessage;
use crate::name::DatabaseName;
use crate::roles::sequencer::GrantMessage;
use fdb_keys::Refusal;

/// What a session is told that asked for a commit.
#[derive(Drop)]
pub enum CommitReply<B: DatabaseName> {
    /// What became of it.
    Outcome(OutcomeMessage<B>),
    /// It has no entry, as the book is full, which the front shows.
    Full(KnownFront<B>),
    /// It is refused.
    Refused(Refusal),
}

/// What a session is told that asked for a read version.
#[derive(Drop)]
pub enum GrantReply<B: DatabaseName> {
    /// A committed version.
    Granted(GrantMessage<B>),
    /// It is refused.
    Refused(Refusal),
}
