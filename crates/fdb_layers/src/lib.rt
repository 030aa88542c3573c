//! Layers on the store, worked: what each one's transactions do, what they keep of the map that all share, and that
//! they keep it.
#![tactic(auto)]

mod accounts;
mod auditing;
mod bank;
mod counters;
mod counting;
mod finding;
mod handing;
mod items;
pub mod laws;
mod operations;
mod paying;
mod queue;
mod queueing;
mod reads;
mod records;
mod rolling;
mod table;

pub use accounts::Account;
pub use auditing::audit;
pub use bank::Transfers;
pub use counters::EqualCounters;
pub use counting::{Count, read_both};
pub use finding::find_by_value;
pub use handing::know_handed_out;
pub use items::know_items;
pub use paying::Pay;
pub use queue::StampedQueue;
pub use queueing::{Pop, Push};
pub use records::{PutRecord, RemoveRecord};
pub use rolling::carry_over;
pub use table::IndexedTable;
