use bytes::Bytes;
use fdb_keys::{Items, Key};

/// The first pairs of a range, in the order that was asked for.
#[derive(Drop)]
pub struct Page {
    /// The pairs, as many as the page has.
    pub pairs: Items<(Key, Bytes)>,
    /// Whether the range has a further pair.
    pub more: bool,
}
