//! Mutations of a map from keys to values, and a plain map that they are applied to.
#![tactic(auto)]

pub mod laws;
mod making;
mod mutation;
mod numbers;
mod operands;
mod page;
mod paging;
mod pairs;
mod plain_map;
mod stamp;
mod stamping;

pub use mutation::{Mutation, Named, VALUE_LIMIT};
pub use operands::copied;
pub use page::Page;
pub use paging::{one_more, page_of};
pub use plain_map::PlainMap;
pub use stamp::{STAMP_SIZE, Stamp};
