// Channels whose sends need no memory as long as few enough messages are in flight.
ghost use Rattle.std.specs.Prelude.{◌≡◌, IfErr};
ghost use Rattle.fdb_keys.specs.declared.refusal.Refusal.TheVariants.{NoMemory};

use crate::shared::waiting::give_way_to_senders;
use crossbeam_channel::{Receiver, Sender, unbounded};
use fdb_keys::Refusal;
use std::alloc::Global;
use std::sync::Wait;

/// A channel on which `count` messages are sent and received, so that it has room for so many at once. A channel keeps
/// the room that it once had. Refused only as `NoMemory`.
pub(crate) fn roomy<T: Drop, R: Wait>(
    rt: &R,
    alloc: Global,
    count: usize,
) -> Result<(Sender<Option<T>>, Receiver<Option<T>>), Refusal>
    ensures { IfErr result (λ why. why ≡ NoMemory) }
{
    let (to, from) = unbounded(alloc)?;
    for _sent in 0..count {
        if to.send(rt, None).is_err() {
            return Err(Refusal::NoMemory);
        }
    }
    for _received in 0..count {
        if from.recv(rt).is_err() {
            return Err(Refusal::NoMemory);
        }
    }
    Ok((to, from))
}

/// Sends the message where there is a channel for it. Refused as `Failed` where there is none, or nobody receives any
/// more; then the message is dropped.
pub(crate) fn send_to<T: Drop, R: Wait>(
    rt: &R,
    to: Option<&Sender<Option<T>>>,
    message: T,
) -> Result<(), Refusal> {
    let Some(to) = to else {
        return Err(Refusal::Failed);
    };
    match to.send(rt, Some(message)) {
        Ok(()) => Ok(()),
        Err(_) => Err(Refusal::Failed),
    }
}

/// Waits for the next message. There is none where its sender failed, or where nobody sends any more.
pub(crate) fn receive<T: Drop, R: Wait>(rt: &R, from: &Receiver<Option<T>>) -> Option<T> {
    give_way_to_senders(from);
    from.recv(rt).unwrap_or(None)
}
