//! A database in one thread, of the same values as one in threads: roles, messages and sessions of `fdb_sections`,
//! whose acts come in an order that is drawn from a seed. What is promised of them is in their own contracts; the play
//! looks for what no contract says, as that nobody waits in the end.
#![tactic(auto)]

mod acting;
mod delivering;
mod draining;
mod judging;
mod plan;
mod player;
mod pool;
mod report;
mod roles;
mod sim;
mod simulation;
mod tally;

pub use plan::Plan;
pub use sim::simulate;
pub use simulation::{Simulation, run_simulation};
pub use tally::Tally;
