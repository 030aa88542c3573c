//! Clients in threads that run transactions on a running database, and what is checked of it in the end.
#![tactic(auto)]

mod client;
mod clients;
mod counters;
mod halt;
mod hot_keys;
mod judging;
pub mod laws;
mod load;
mod names;
mod played;
mod report;
mod ring;
mod run;
mod running;
mod sums;
mod tally;
mod transfers;
mod values;
mod watch;
mod workload;

pub use hot_keys::HotKeys;
pub use judging::{Asked, Kept, is_all, judge};
pub use load::{Load, run_threads};
pub use names::name_of;
pub use played::Played;
pub use report::{Report, print_report};
pub use running::{config_of, run_clients, run_load};
pub use watch::Pace;
pub use workload::Workload;
