// What a message has for each tag.
ghost use Rattle.std.specs.Prelude.{◌≡◌, ◌<◌, ◌≤◌, ℕ, true, false, length, slice_get, slice_set, replicate};
ghost use Rattle.std.specs.Prelude.{IfOk, OnOk, ◌++◌, [], ◌∷◌};
ghost use Rattle.std.specs.Option.{unwrap_or};
ghost use Rattle.fdb_txn.specs.Limits.{tag_limit};
ghost use Rattle.fdb_log.specs.Messages.{is_kept, sent_to, tag_message};
ghost use Rattle.fdb_log.specs.Places.{AreAdded};

use crate::keeper::{Keeper, kept_tags};
use crate::message::{LogMsg, Tagged};
use crate::queue::Queue;
use fdb_keys::{Items, SharedList};
use fdb_mutations::Mutation;
use fdb_txn::TagMsg;
use std::alloc::{AllocError, Global};
use std::mem;

// The mutations for a tag, each with its place.
type Body = Items<(u32, Mutation)>;

/// Adds to the queue of each tag that is kept here what the message has for the tag.
pub(crate) fn push_told(
    alloc: Global,
    keeper: Keeper,
    queues: &mut [Queue],
    message: &LogMsg,
) -> Result<(), AllocError>
    requires number { keeper.log < keeper.logs }
    requires few { keeper.tags ≤ tag_limit }
    requires queued { length queues.old ≡ keeper.tags }
    ensures kept { OnOk result ((tag : ℕ) → is_kept keeper.log keeper.logs keeper.tags tag ≡ true
        → unwrap_or (slice_get queues.new tag) [] ≡ unwrap_or (slice_get queues.old tag) []
        ++ tag_message tag message.now ∷ []) }
    ensures elsewhere { OnOk result ((tag : ℕ) → is_kept keeper.log keeper.logs keeper.tags tag ≡ false
        → unwrap_or (slice_get queues.new tag) [] ≡ unwrap_or (slice_get queues.old tag) []) }
{
    let mut bodies = bodies_of(alloc, keeper, message)?;
    for tag in 0..keeper.tags {
        if keeper.keeps(tag) {
            let body = take_body(alloc, &mut bodies, tag as usize)?;
            let told = TagMsg {
                version: message.version,
                prev: message.prev,
                body,
            };
            let queue = &mut queues[tag as usize];
            queue.push(told)?;
        }
    }
    Ok(())
}

// By the number of the tag: the mutations for it, if it is kept here.
fn bodies_of(alloc: Global, keeper: Keeper, message: &LogMsg) -> Result<Vec<Body>, AllocError>
    requires number { keeper.log < keeper.logs }
    requires few { keeper.tags ≤ tag_limit }
    ensures long { IfOk result (λ bodies. length bodies.items ≡ keeper.tags) }
    ensures bodies { IfOk result (λ bodies. (tag : ℕ) → is_kept keeper.log keeper.logs keeper.tags tag ≡ true
        → unwrap_or (slice_get bodies.items tag) [] ≡ sent_to tag message.now.body) }
{
    let mut bodies = empty_bodies(alloc, keeper.tags)?;
    for sent in message.body.as_slice() {
        add_sent(&mut bodies, keeper, sent)?;
    }
    Ok(bodies)
}

// Adds the mutation to the body of each of its tags that is kept here, once, in O(t) for t tags.
fn add_sent(bodies: &mut Vec<Body>, keeper: Keeper, sent: &Tagged) -> Result<(), AllocError>
    requires number { keeper.log < keeper.logs }
    requires few { keeper.tags ≤ tag_limit }
    requires long { length bodies.old.items ≡ keeper.tags }
    ensures long { OnOk result (length bodies.new.items ≡ keeper.tags) }
    ensures added { OnOk result (AreAdded (is_kept keeper.log keeper.logs keeper.tags)
        (sent.now.place, sent.now.mutation) sent.now.tags bodies.old.items bodies.new.items) }
{
    let mut left = kept_tags(keeper, sent);
    while let Some(tag) = left.pop_first() {
        let body = &mut bodies[tag as usize];
        body.push((sent.place, sent.mutation.clone()?))?;
    }
    Ok(())
}

// The body of the tag, to be shared by copies of its message. The tag has an empty one from then on.
fn take_body(
    alloc: Global,
    bodies: &mut Vec<Body>,
    tag: usize,
) -> Result<SharedList<(u32, Mutation)>, AllocError>
    requires { tag < length bodies.old.items }
    ensures body { IfOk result (λ body. body ≡ unwrap_or (slice_get bodies.old.items tag) []) }
    ensures left { bodies.new.items ≡ slice_set bodies.old.items tag [] }
{
    let body = mem::replace(&mut bodies[tag], Items::new(alloc));
    let shared = SharedList::new(alloc, body)?;
    Ok(shared)
}

fn empty_bodies(alloc: Global, count: u32) -> Result<Vec<Body>, AllocError>
    ensures { IfOk result (λ bodies. bodies.items ≡ replicate count []) }
{
    let mut bodies = Vec::new(alloc);
    for _tag in 0..count {
        bodies.push(Items::new(alloc))?;
    }
    Ok(bodies)
}
