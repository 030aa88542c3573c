//! A read-version proxy that threads share.
use crate::gate::Pass;
use crate::shared::Shared;
use crate::shared::role::{Act, Lent, SharedRole};
use crate::shared::slot::Slot;
use crate::threads::request::BeginRequest;
use fdb_keys::Refusal;
use fdb_sections::{DatabaseName, GrantReply, ReadVersionMachine};
use std::alloc::Global;
use std::sync::{Arc, Wait};

/// A read-version proxy that threads share.
pub(crate) type SharedReadVersionProxy<B> = SharedRole<ReadVersionRole<B>, BeginRequest<B>>;

/// A read-version proxy, beside the slots of who waits for its answer.
#[derive(Drop)]
pub(crate) struct ReadVersionRole<B: DatabaseName> {
    machine: ReadVersionMachine<B, Arc<Slot<GrantReply<B>>>>,
}

impl<B: DatabaseName> ReadVersionRole<B> {
    /// The proxy, which nobody has asked. It takes no memory.
    pub(crate) fn new(alloc: Global) -> Self {
        ReadVersionRole {
            machine: ReadVersionMachine::new(alloc),
        }
    }

    // Has the proxy take a request, which is refused at once where memory runs out.
    fn take<R: Wait>(&mut self, rt: &R, request: BeginRequest<B>) {
        let BeginRequest {
            session,
            mark,
            reply,
        } = request;
        if let Err(refused) = self.machine.ask(session, mark, reply) {
            refused.back.put(rt, GrantReply::Refused(refused.why));
        }
    }

    // Gives all answers that are ready to who waits for them.
    fn tell_all<R: Wait>(&mut self, rt: &R) {
        for _ in rt.forever() {
            let Some((who, reply)) = self.machine.ready() else {
                return;
            };
            who.put(rt, reply);
        }
    }
}

impl<B: DatabaseName> Act<B, BeginRequest<B>> for ReadVersionRole<B> {
    // Answers all who ask, with one grant of the sequencer. It never fails.
    fn act<R: Wait, G: Pass>(
        &mut self,
        rt: &R,
        lent: &Lent<'_, B, G>,
        items: &mut Vec<BeginRequest<B>>,
    ) -> Result<(), Refusal> {
        for request in items.drain(..) {
            self.take(rt, request);
        }
        if self.machine.waits() {
            self.machine.granted(lent.shared.granted(rt));
            self.tell_all(rt);
        }
        Ok(())
    }

    fn fail<R: Wait>(&mut self, _rt: &R, _shared: &Shared<B>) {}

    fn refuse<R: Wait>(rt: &R, _shared: &Shared<B>, item: BeginRequest<B>, why: Refusal) {
        item.reply.put(rt, GrantReply::Refused(why));
    }
}
