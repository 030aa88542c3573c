use fdb_keys::Items;
use fdb_txn::TagMsg;

/// What a log has for a tag after a version.
#[derive(Drop)]
pub struct Peek {
    /// The tag.
    pub tag: u32,
    /// The version after which the messages come.
    pub after: u64,
    /// The version of the last message, and `after` where there is none.
    pub through: u64,
    /// The messages, one for each entry, whose bodies are empty where the tag has nothing.
    pub messages: Items<TagMsg>,
}
