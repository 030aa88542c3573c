//! A running database: its threads, its locks and channels, and sessions as users see them, around the roles of
//! `fdb_sections`.
#![tactic(auto)]

mod database;
mod gate;
mod options;
mod pages;
mod session;
mod shared;
mod status;
mod threads;
mod work;

pub use bytes::Bytes;
pub use fdb_book::{Blank, BookName};
pub use fdb_check::{CheckFault, serial_check};
pub use fdb_client::{Op, Reply, Transcript};
pub use fdb_keys::{Items, Key, KeyRange, RangeSet, Refusal, Refused};
pub use fdb_mutations::{Mutation, Stamp};
pub use fdb_proxy::Config;
pub use fdb_roles::{Layer, Placed};
pub use fdb_sections::{ClusterName, DatabaseName, Everything, Layered, Open};
pub use fdb_txn::{Entry, Spot, TxnId};
pub use gate::{Gate, NoGate, Role};
pub use options::ReadOptions;
pub use pages::Pages;
pub use status::{ShardStatus, Status};
pub use work::{Tries, Work};

/// The database of the cluster `B` where the transactions of the layer `L` are committed: all of them, unless a layer
/// is named.
pub type Database<B, L = Everything> = database::Database<Layered<B, L>>;

/// Who runs transactions there.
pub type Session<B, L = Everything> = session::Session<Layered<B, L>>;

/// What a session gets for a commit.
pub type Receipt<B, L = Everything> = fdb_sections::Receipt<Layered<B, L>>;

/// What such a database holds when it is closed.
pub type Record<B, L = Everything> = fdb_sections::Record<Layered<B, L>>;

/// What is seen of its book.
pub type Front<B, L = Everything> = fdb_book::Front<Layered<B, L>>;
