//! What threads share under a lock of its own each.
pub(crate) mod inbox;
pub(crate) mod log_state;
pub(crate) mod shard_state;
