//! What roles and sessions tell each other, with what is known of it wherever it arrives.
pub(crate) mod batch_message;
pub(crate) mod commit_message;
pub(crate) mod log_message;
pub(crate) mod outcome_message;
pub(crate) mod part_message;
pub(crate) mod peek_message;
pub(crate) mod reply;
pub(crate) mod verdict_message;
