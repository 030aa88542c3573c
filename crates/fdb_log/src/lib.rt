//! A log: it takes the message of each entry once, in order, and gives each tag its part of them.
#![tactic(auto)]

mod copying;
mod held;
mod keeper;
pub mod laws;
mod log_core;
mod message;
mod peek;
mod places;
mod queue;
mod tag_set;
mod telling;

pub use fdb_txn::TagMsg;
pub use log_core::LogCore;
pub use message::{LogAck, LogMsg, Tagged};
pub use peek::Peek;
