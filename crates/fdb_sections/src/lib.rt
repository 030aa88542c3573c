//! The sections of a running database: roles with what each has seen of a book that they share, what they tell each
//! other, what a session owns, and what stands under a lock. They are values and calls on them, without a thread, a
//! lock or a channel.
#![tactic(auto)]

mod client;
mod known_front;
pub mod laws;
mod locked;
mod machines;
mod making;
mod messages;
mod name;
mod receipt;
mod record;
mod roles;
mod session_state;

pub use client::{Asked, Client};
pub use fdb_book::{Blank, Book, BookName, Front};
pub use known_front::KnownFront;
pub use locked::inbox::Inbox;
pub use locked::log_state::LogState;
pub use locked::shard_state::ShardState;
pub use machines::commit_proxy::{CommitMachine, Next};
pub use machines::pull::{PullMachine, PullNext};
pub use machines::read_version_proxy::ReadVersionMachine;
pub use machines::resolver::{ResolverMachine, SentPart, SentVerdicts};
pub use making::{add, both};
pub use messages::batch_message::BatchMessage;
pub use messages::commit_message::CommitMessage;
pub use messages::log_message::LogMessage;
pub use messages::outcome_message::OutcomeMessage;
pub use messages::part_message::PartMessage;
pub use messages::peek_message::PeekMessage;
pub use messages::reply::{CommitReply, GrantReply};
pub use messages::verdict_message::VerdictMessage;
pub use name::{ClusterName, DatabaseName, Everything, Layered, Open};
pub use receipt::Receipt;
pub use record::Record;
pub use roles::commit_proxy::{CommitProxyAt, LoggedFront};
pub use roles::log::{AckMessage, LogAt};
pub use roles::resolver::ResolverAt;
pub use roles::sequencer::{GrantMessage, Issued, Reported, SequencerAt};
pub use roles::shard::ShardAt;
pub use roles::shard::gathering::Gathering;
