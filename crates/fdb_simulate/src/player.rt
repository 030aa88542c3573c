// A client, and what it does next.
use fdb_sections::{Client, DatabaseName};

/// What a client does next, or waits for.
#[derive(Clone, Copy)]
pub(crate) enum Wish {
    /// It asks for a read version.
    Begin,
    /// It waits for that.
    Grant,
    /// It reads.
    Read,
    /// It writes.
    Write,
    /// It asks for a commit.
    Commit,
    /// It waits for what became of that.
    Outcome,
}

/// A client beside what it does next.
#[derive(Drop)]
pub(crate) struct Player<B: DatabaseName> {
    pub(crate) client: Client<B>,
    pub(crate) wish: Wish,
    // The greatest version that was acknowledged when it asked for its read version.
    pub(crate) seen: u64,
}

impl<B: DatabaseName> Player<B> {
    pub(crate) fn new(client: Client<B>) -> Self {
        Player {
            client,
            wish: Wish::Begin,
            seen: 0,
        }
    }

    /// Whether it waits for an answer.
    pub(crate) fn waits(&self) -> bool {
        matches!(self.wish, Wish::Grant | Wish::Outcome)
    }
}
