//! Keys, ranges of keys and sets of ranges, with the refusals that every crate above answers.
#![tactic(auto)]

mod gathering;
mod insertion;
mod items;
mod key;
mod key_range;
pub mod laws;
mod order;
mod prefix;
mod range_map;
mod range_set;
mod refusal;
mod removal;
mod shared_list;
mod shared_ranges;
mod single_ranges;
mod tree_joining;
mod tree_range_set;

pub use items::Items;
pub use key::{KEY_LIMIT, Key};
pub use key_range::{BOUND_LIMIT, KeyRange, push_between};
pub use order::is_before;
pub use range_set::RangeSet;
pub use refusal::{Refusal, Refused};
pub use shared_list::SharedList;
pub use tree_range_set::TreeRangeSet;
