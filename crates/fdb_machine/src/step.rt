use bytes::Bytes;
use fdb_keys::{Items, Key, KeyRange};
use fdb_mutations::Mutation;
use fdb_proxy::Outcome;
use fdb_resolver::Verdict;

/// One step of a client or of a role, with keys, ranges and mutations of these types. Roles, entries and sessions are
/// named by their numbers, from 0.
#[derive(Clone, Copy, Drop)]
pub enum AnyStep<K, R, M> {
    /// The session asks a read-version proxy for a transaction. One that is open is dropped.
    Ask {
        session: u32,
        proxy: u32,
    },
    /// The read-version proxy serves all who ask there with the committed version.
    Grant {
        proxy: u32,
    },
    /// The session's transaction reads a key. A snapshot read adds nothing to the read set. Refused as
    /// `AccessedUnreadable` where its own `Stamped` is the last mutation that decides the key; no shard is asked then.
    Get {
        session: u32,
        key: K,
        snapshot: bool,
    },
    /// The session's transaction reads the first pairs of a range, or the last ones from its end: at most `limit` of
    /// them, or all where it is 0. A snapshot read adds nothing to the read set. Refused as `AccessedUnreadable` where
    /// no shard refuses it, and a key of what it scans is one that `Get` would refuse so.
    GetRange {
        session: u32,
        range: R,
        limit: u32,
        reverse: bool,
        snapshot: bool,
    },
    /// The session's transaction buffers a mutation. A `Stamped` makes its key unreadable for the transaction itself
    /// until a later set or clear names it.
    Write {
        session: u32,
        mutation: M,
    },
    /// The session's transaction adds a range to its read set, whole.
    AddRead {
        session: u32,
        range: R,
    },
    /// The session's transaction adds a range to its write set, whole.
    AddWrite {
        session: u32,
        range: R,
    },
    /// The session submits its transaction to a commit proxy.
    Submit {
        session: u32,
        proxy: u32,
    },
    /// The commit proxy takes those who wait as one batch, at a version that is `advance` above the last.
    Seal {
        proxy: u32,
        advance: u64,
    },
    /// The resolver takes its part of the entry.
    Resolve {
        entry: u32,
        resolver: u32,
    },
    /// The resolver's verdicts on the entry reach its proxy.
    Verdict {
        entry: u32,
        resolver: u32,
    },
    /// The commit proxy decides its batch.
    Decide {
        proxy: u32,
    },
    /// The log takes its message of the entry.
    Push {
        entry: u32,
        log: u32,
    },
    /// The log's acknowledgement of the entry reaches its proxy.
    Logged {
        entry: u32,
        log: u32,
    },
    /// The commit proxy reports the version of its batch to the sequencer.
    Report {
        proxy: u32,
    },
    /// The commit proxy answers the clients of its batch.
    Answer {
        proxy: u32,
    },
    /// The shard applies at most `limit` further messages that its log has.
    Pull {
        shard: u32,
        limit: u32,
    },
    /// The shard no longer serves what lies below the version.
    Forget {
        shard: u32,
        version: u64,
    },
    /// The shard's log drops its messages through the shard's version.
    Pop {
        shard: u32,
    },
    /// The keys of the range go over to the resolver, with the next entry.
    Move {
        range: R,
        to: u32,
    },
    /// From the next entry on an entry's horizon, below which a read is too old, lies this far below its version, or
    /// stays where it would fall.
    Window {
        window: u64,
    },
}

/// One step of a client or of a role.
pub type Step = AnyStep<Key, KeyRange, Mutation>;

/// What an accepted step answers.
#[derive(Drop, PartialEq, Eq)]
pub enum Answered {
    /// The step gives nothing.
    Done,
    /// The sessions that were served, in order, each with its read version.
    Granted(Items<(u32, u64)>),
    /// The value that a key has, if any.
    Value(Option<Bytes>),
    /// The pairs of a range, in the order in which they were read.
    Pairs(Items<(Key, Bytes)>),
    /// The transaction wrote nothing and is committed at its read version.
    ReadOnly(u64),
    /// The entry that was added to the book.
    Issued {
        index: u32,
        version: u64,
        prev: u64,
        places: u32,
    },
    /// The verdicts of a resolver, each with its place.
    Verdicts(Items<(u32, Verdict)>),
    /// What became of each place of a batch.
    Decided(Items<Outcome>),
    /// The committed version after a report, a shard's version after a pull or a pop, or its floor after a forget.
    Version(u64),
    /// What each client of a batch is told, by place, with its session.
    Answers(Items<(u32, Outcome)>),
}
