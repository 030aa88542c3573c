//! A resolver that threads share.
ghost use Rattle.std.specs.Prelude.{◌≡◌, [], ⊤, suc, length, None, IfOk};
ghost use Rattle.fdb_keys.specs.Answers.{Answers};

use crate::gate::{Pass, Role};
use crate::shared::Shared;
use crate::shared::role::{Act, Lent, SharedRole};
use crate::threads::channel::{roomy, send_to};
use crossbeam_channel::{Receiver, Sender};
use fdb_keys::Refusal;
use fdb_sections::{DatabaseName, ResolverAt, ResolverMachine, SentPart, VerdictMessage, both};
use std::alloc::Global;
use std::sync::Wait;

/// A resolver that threads share. What waits for it are parts, of each commit proxy one at the most.
pub(crate) type SharedResolver<B> = SharedRole<ResolverRole<B>, SentPart<B>>;

/// The resolver, which threads share from now on, with room for a part of each commit proxy that it is tied to. Refused
/// only as `NoMemory`.
pub(crate) fn share_resolver<B: DatabaseName>(
    alloc: Global,
    role: ResolverRole<B>,
) -> Result<SharedResolver<B>, Refusal>
    ensures { Answers result None (λ _. ⊤) }
{
    let proxies = role.verdicts.len();
    let waiting = room_for(alloc, proxies);
    let items = room_for(alloc, proxies);
    let (role, (waiting, items)) = both(Ok(role), both(waiting, items))?;
    Ok(SharedRole::with_room(role, waiting, items))
}

// Room for so many. Refused only as `NoMemory`.
fn room_for<T>(alloc: Global, count: usize) -> Result<Vec<T>, Refusal>
    ensures { Answers result None (λ _. ⊤) }
{
    Ok(Vec::with_capacity(alloc, count)?)
}

/// Ties one more commit proxy to all of the resolvers, each by a channel for its verdicts, and gives the ends at which
/// these come, in the order of the resolvers. Refused only as `NoMemory`.
pub(crate) fn tie_all<B: DatabaseName, R: Wait>(
    rt: &R,
    alloc: Global,
    resolvers: &mut [ResolverRole<B>],
) -> Result<Vec<Receiver<Option<VerdictMessage<B>>>>, Refusal>
    ensures answers { Answers result None (λ _. ⊤) }
    ensures each { IfOk result (λ ends. length ends.items ≡ length resolvers.old) }
    ensures same { length resolvers.new ≡ length resolvers.old }
{
    let mut ends = Vec::with_capacity(alloc, resolvers.len())?;
    for resolver in resolvers.iter_mut() {
        ends.push(resolver.tie(rt, alloc)?)?;
    }
    Ok(ends)
}

/// A resolver, and the channels for its verdicts.
#[derive(Drop)]
pub(crate) struct ResolverRole<B: DatabaseName> {
    number: u32,
    machine: ResolverMachine<B>,
    // One channel for each commit proxy, so that each of them sees at once that the resolver ended.
    verdicts: Vec<Sender<Option<VerdictMessage<B>>>>,
}

impl<B: DatabaseName> ResolverRole<B> {
    /// The resolver with the number, which no commit proxy is tied to yet. It takes no memory.
    pub(crate) fn new(alloc: Global, number: u32, at: ResolverAt<B>) -> Self {
        ResolverRole {
            number,
            machine: ResolverMachine::new(alloc, at),
            verdicts: Vec::new(alloc),
        }
    }

    // Ties the next commit proxy to the resolver, by a channel for verdicts, and gives the end at which these come. The
    // resolver keeps the other end, after those that it had. Refused only as `NoMemory`.
    fn tie<R: Wait>(
        &mut self,
        rt: &R,
        alloc: Global,
    ) -> Result<Receiver<Option<VerdictMessage<B>>>, Refusal>
        ensures answers { Answers result None (λ _. ⊤) }
        ensures kept { IfOk result (λ _. length self.new.verdicts.items ≡ suc (length self.old.verdicts.items)) }
    {
        let (to, from) = roomy(rt, alloc, 1)?;
        self.verdicts.push(to)?;
        Ok(from)
    }

    // Takes the part, and answers all parts whose turn has come.
    fn turn<R: Wait, G: Pass>(
        &mut self,
        rt: &R,
        gate: &G,
        sent: SentPart<B>,
    ) -> Result<(), Refusal> {
        self.machine.take(sent)?;
        for _ in rt.forever() {
            let Some(entry) = self.machine.next() else {
                break;
            };
            self.answer(rt, gate, entry)?;
        }
        Ok(())
    }

    // Sends the verdicts on the entry to who asked for them.
    fn answer<R: Wait, G: Pass>(&mut self, rt: &R, gate: &G, entry: u32) -> Result<(), Refusal> {
        let role = Role::Resolver(self.number);
        gate.before(role, entry);
        let ready = self.machine.ready()?;
        gate.after(role, entry);
        match ready {
            Some(sent) => send_to(rt, self.verdicts.get(sent.proxy as usize), sent.message),
            None => Ok(()),
        }
    }
}

impl<B: DatabaseName> Act<B, SentPart<B>> for ResolverRole<B> {
    // Takes the parts, in any order, and answers all parts whose turn has come.
    fn act<R: Wait, G: Pass>(
        &mut self,
        rt: &R,
        lent: &Lent<'_, B, G>,
        items: &mut Vec<SentPart<B>>,
    ) -> Result<(), Refusal> {
        for sent in items.drain(..) {
            self.turn(rt, lent.gate, sent)?;
        }
        Ok(())
    }

    // All commit proxies see at once that it ended, as their channels are gone.
    fn fail<R: Wait>(&mut self, _rt: &R, _shared: &Shared<B>) {
        self.verdicts = Vec::new(*self.verdicts.allocator());
    }

    // Who sent the part sees that the resolver ended.
    fn refuse<R: Wait>(_rt: &R, _shared: &Shared<B>, item: SentPart<B>, _why: Refusal) {
        drop(item);
    }
}
