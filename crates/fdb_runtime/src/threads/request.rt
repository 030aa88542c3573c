use crate::shared::slot::Slot;
use fdb_sections::{CommitMessage, CommitReply, DatabaseName, GrantReply};
use std::sync::Arc;

/// A session asks a commit proxy to commit.
#[derive(Drop)]
pub(crate) struct CommitRequest<B: DatabaseName> {
    pub(crate) asked: CommitMessage<B>,
    pub(crate) reply: Arc<Slot<CommitReply<B>>>,
}

/// A session asks a read-version proxy for a read version that isn't below its mark.
#[derive(Drop)]
pub(crate) struct BeginRequest<B: DatabaseName> {
    pub(crate) session: u32,
    pub(crate) mark: u64,
    pub(crate) reply: Arc<Slot<GrantReply<B>>>,
}
