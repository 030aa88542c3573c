// What a log keeps of one tag.
ghost use Rattle.std.specs.Prelude.{◌≡◌, ◌-◌, ◌≤◌, ℕ, IfOk, nat_le, take, drop, length};
ghost use Rattle.std.specs.List.{prefix_len};
ghost use Rattle.fdb_txn.specs.declared.tag_msg.TagMsg.{TagMsg};
ghost use Rattle.fdb_log.specs.Peeks.{RiseAfter};

use crate::copying::message_of;
use fdb_keys::Items;
use fdb_txn::TagMsg;
use std::alloc::{AllocError, Global};
use std::collections::VecDeque;
use std::marker::Model;

/// Messages, of which the first ones leave.
#[derive(Drop)]
pub(crate) struct Queue {
    messages: VecDeque<TagMsg>,
}

impl Model for Queue {
    ghost use Rattle.std.specs.Prelude.{List};
    ghost use Rattle.fdb_txn.specs.declared.tag_msg.TagMsg.{TagMsg};

    ghost Value = { List TagMsg };

    ghost view = { λ queue. queue.messages.items };
}

impl Queue {
    ghost use Rattle.std.specs.Prelude.{◌≡◌, [], ◌∷◌, ◌++◌, ℕ, take, IfOk, OnOk};
    ghost use Rattle.fdb_log.specs.Messages.{above};
    ghost use Rattle.fdb_log.specs.Peeks.{RiseAfter};

    /// No message.
    pub(crate) fn new(alloc: Global) -> Self
        ensures { result ≡ [] }
    {
        Queue {
            messages: VecDeque::new(alloc),
        }
    }

    /// Adds a message behind the others.
    pub(crate) fn push(&mut self, message: TagMsg) -> Result<(), AllocError>
        ensures { OnOk result (self.new ≡ self.old ++ message ∷ []) }
    {
        self.messages.push_back(message)?;
        Ok(())
    }

    /// Drops the messages through the version.
    pub(crate) fn pop_through(&mut self, version: u64)
        ensures { (low : ℕ) → RiseAfter low self.old → self.new ≡ above version self.old }
    {
        let count = count_through(&self.messages, version);
        drop_first(&mut self.messages, count);
    }

    /// Copies of the first `limit` messages above the version, which share the mutations.
    pub(crate) fn after(
        &self,
        alloc: Global,
        version: u64,
        limit: u32,
    ) -> Result<Items<TagMsg>, AllocError>
        ensures { IfOk result
            (λ given. (low : ℕ) → RiseAfter low self.now → given ≡ take limit (above version self.now)) }
    {
        let start = count_through(&self.messages, version);
        let count = (limit as usize).min(self.messages.len() - start);
        copies_of(alloc, &self.messages, start, start + count)
    }
}

// How many of the messages come before the first one above the version.
fn count_through(messages: &VecDeque<TagMsg>, version: u64) -> usize
    ensures count { (low : ℕ) → RiseAfter low messages.now.items
        → result ≡ prefix_len (λ (message : TagMsg). nat_le message.version version) messages.now.items }
    ensures within { result ≤ length messages.now.items }
{
    messages.partition_point(
        |message: &TagMsg| -> bool
            ensures { result ≡ nat_le message.now.version version }
        { message.version <= version },
    )
}

fn drop_first(messages: &mut VecDeque<TagMsg>, count: usize)
    ensures { messages.new.items ≡ drop count messages.old.items }
{
    for _index in 0..count {
        let _dropped = messages.pop_front();
    }
}

fn copies_of(
    alloc: Global,
    messages: &VecDeque<TagMsg>,
    start: usize,
    end: usize,
) -> Result<Items<TagMsg>, AllocError>
    requires order { start ≤ end }
    requires within { end ≤ length messages.now.items }
    ensures { IfOk result (λ copies. copies ≡ take (end - start) (drop start messages.now.items)) }
{
    let mut copies = Items::new(alloc);
    for index in start..end {
        copies.push(message_of(&messages[index])?)?;
    }
    Ok(copies)
}
