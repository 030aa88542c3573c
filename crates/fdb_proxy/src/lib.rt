//! The proxies of a transaction system: one kind gives read versions, the other takes transactions to be committed.
#![tactic(auto)]

mod bodies;
mod commit_core;
mod config;
mod conflicts;
mod deciding;
mod decision;
mod flags;
mod grv_core;
pub mod laws;
mod logging;
mod names;
mod outcome;
mod parting;
mod position;
mod requests;
mod resolving;
mod stage;
mod ticketing;

pub use commit_core::CommitCore;
pub use config::Config;
pub use deciding::outcomes_of;
pub use decision::Decision;
pub use grv_core::GrvCore;
pub use outcome::Outcome;
pub use parting::parts_of;
pub use position::Position;
