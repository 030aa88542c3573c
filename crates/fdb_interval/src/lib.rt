//! The version of the last write at each point of the keys, and points as keys of maps.
#![tactic(auto)]

mod breakpoints;
mod keyed_range;
mod last_commit;
pub mod laws;
mod newer;
mod point_key;
mod sweeping;

pub use keyed_range::KeyedRange;
pub use last_commit::LastCommit;
pub use point_key::PointKey;
