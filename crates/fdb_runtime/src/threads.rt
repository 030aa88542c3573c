//! What the threads of a database do.
pub(crate) mod channel;
pub(crate) mod gated;
pub(crate) mod reply;
pub(crate) mod request;
pub(crate) mod role;
pub(crate) mod shard;
pub(crate) mod team;
pub(crate) mod worker;
pub(crate) mod workers;
