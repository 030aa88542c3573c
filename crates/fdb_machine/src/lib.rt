//! The abstract machine: which steps there are, which answer each one gets, what is read off steps with their answers,
//! and the headline, which holds of every list of steps.
#![tactic(auto)]

mod in_flight;
pub mod laws;
mod step;

pub use in_flight::InFlight;
pub use step::{Answered, AnyStep, Step};
