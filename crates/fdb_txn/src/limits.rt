// The limits of the system. Those of keys and of mutations stand with them.

/// The most bytes that a transaction may have: those of the bounds of its joined read and write ranges, and of its
/// mutations.
pub const SIZE_LIMIT: u64 = 10_000_000;

/// The most transactions that a batch may have.
pub const PLACE_LIMIT: usize = 4_096;

/// The most entries that a book may have.
pub const BOOK_LIMIT: u32 = 1_048_576;

/// Reads that are older than the window are no longer judged. This many versions is the window at first, and the
/// greatest one. The least is one.
pub const WINDOW: u64 = 5_000_000;

/// The most versions that one ticket may advance. The least is one.
pub const GREATEST_ADVANCE: u64 = 5_000_000;

/// The greatest version.
pub const VERSION_LIMIT: u64 = 1 << 62;

/// The most tickets that may be accepted.
pub const TICKET_LIMIT: u64 = 1 << 32;

/// The most moves that may be made.
pub const MOVE_LIMIT: u32 = 65_536;

/// The most proxies of each kind that there may be.
pub const PROXY_LIMIT: u32 = 16;

/// The most resolvers that there may be.
pub const RESOLVER_LIMIT: u32 = 64;

/// The most logs that there may be.
pub const LOG_LIMIT: u32 = 16;

/// The most tags that there may be, one for each shard.
pub const TAG_LIMIT: u32 = 64;

/// The most shards that there may be.
pub const SHARD_LIMIT: usize = 64;
