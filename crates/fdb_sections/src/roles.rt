//! The roles, each with what it has seen of the book.
pub(crate) mod commit_proxy;
pub(crate) mod log;
pub(crate) mod resolver;
pub(crate) mod sequencer;
pub(crate) mod shard;
