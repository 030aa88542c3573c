use crate::gate::Pass;
use crate::shared::Shared;
use crate::threads::gated::Gated;
use crate::threads::worker::Worker;
use fdb_keys::Refusal;
use fdb_sections::{DatabaseName, PullMachine, PullNext};
use std::sync::Wait;

/// The thread of the shard with the tag, which stands among what all threads share.
#[derive(Drop)]
pub(crate) struct ShardWorker {
    pub(crate) tag: u32,
}

impl<B: DatabaseName, G: Pass> Worker<Gated<B, G>> for ShardWorker {
    // Pulls what the log keeps for the shard until the log has ended and has no more, or the shard fails.
    fn work<R: Wait>(&mut self, rt: &R, lent: &Gated<B, G>) {
        run_shard(rt, &*lent.shared, self.tag);
    }
}

fn run_shard<B: DatabaseName, R: Wait>(rt: &R, shared: &Shared<B>, tag: u32) {
    let Some(shard) = shared.shard(tag) else {
        return;
    };
    let Some(log) = shared.log_of(tag) else {
        return shard.end(rt, Refusal::Failed);
    };
    let mut pull = PullMachine::new(tag);
    for _ in rt.forever() {
        match pull.next() {
            PullNext::Messages(after) => log.peek(rt, after, &mut pull),
            PullNext::Apply => shard.apply(rt, &mut pull),
            PullNext::Drop => log.drop_applied(rt, &mut pull),
            PullNext::Forget => shard.forget(rt, &mut pull, shared.committed(rt)),
            PullNext::End(why) => return shard.end(rt, why),
        }
    }
}
