//! The transaction system as a machine over a list of steps, with all roles as parts of one world.
#![tactic(auto)]

mod book;
mod check;
mod cluster;
mod conflicts;
mod in_flight;
pub mod laws;
mod roles;
mod runs;
mod steps;
mod world;

pub use fdb_check::{CheckFault, serial_check};
pub use fdb_client::is_answered_on;
pub use fdb_machine::{Answered, AnyStep, InFlight, Step};
pub use fdb_proxy::{Config, Outcome};
pub use fdb_resolver::Verdict;
pub use fdb_roles::Placed;
pub use runs::run;
pub use world::World;
