// The parts of a world that are one role's or its clients', each over plain lists or the role's crate.
pub(crate) mod client;
pub(crate) mod commit_proxy;
pub(crate) mod grv_proxy;
pub(crate) mod log;
pub(crate) mod resolver;
pub(crate) mod sequencer;
pub(crate) mod shard;
pub(crate) mod shard_reads;
