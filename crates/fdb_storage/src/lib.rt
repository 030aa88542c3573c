//! Storage: which shard holds which key, and what a shard answers at a version from the messages of its tag.
#![tactic(auto)]

mod applying;
mod copying;
mod cut_map;
mod due_keys;
pub mod laws;
mod paging;
mod replaying;
mod shard;
mod shard_map;
mod stamped;
mod version_list;
mod version_map;

pub use fdb_mutations::Page;
pub use replaying::replay;
pub use shard::Shard;
pub use shard_map::ShardMap;
