// A check of a world compares what is acknowledged, and the shards, with the run of one transaction at a time.
pub(crate) mod shards;
pub(crate) mod whole;
