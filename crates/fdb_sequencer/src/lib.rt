//! The sequencer: it gives each batch its version and its place in the book, tells each proxy of the moves of keys
//! between resolvers, and keeps the greatest version that was reported as committed.
#![tactic(auto)]

mod dated;
pub mod laws;
mod moves;
mod sequencer_core;
mod ticket;

pub use dated::Dated;
pub use sequencer_core::SequencerCore;
pub use ticket::Ticket;
