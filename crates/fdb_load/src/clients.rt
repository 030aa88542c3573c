// The threads of all clients.
use crate::client::{Share, play};
use crate::played::Played;
use crate::tally::Tally;
use fdb_keys::Refusal;
use fdb_runtime::{ClusterName, Database, Session};
use std::alloc::Global;
use std::sync::{Arc, Wait};
use std::thread;
use std::thread::{JoinHandle, Threads};

/// A client that runs.
pub(crate) type Client = JoinHandle<Played>;

// Who plays in a thread. It is a type parameter where threads are started, so that the loan check doesn't go over what
// a client has.
trait Plays: Drop + Send + 'static {
    // All of its tries, and what came of them.
    fn play<R: Wait>(self, rt: &R) -> Played;
}

// What a client has.
#[derive(Drop)]
struct Player<B: ClusterName> {
    alloc: Global,
    session: Session<B>,
    share: Share,
    tally: Arc<Tally>,
}

impl<B: ClusterName + Send + Sync + 'static> Plays for Player<B> {
    fn play<R: Wait>(self, rt: &R) -> Played {
        let Player {
            alloc,
            session,
            share,
            tally,
        } = self;
        play(rt, alloc, session, share, &*tally)
    }
}

/// Starts so many clients of the kind, each with a session and a number of its own. Where it is refused, those are
/// left that were started.
pub(crate) fn start<
    B: ClusterName + Send + Sync + 'static,
    R: Threads + Wait + Copy + Send + Sync + 'static,
>(
    rt: &R,
    alloc: Global,
    database: &mut Database<B>,
    count: u32,
    share: Share,
    tally: &Arc<Tally>,
    clients: &mut Vec<Client>,
) -> Result<(), Refusal> {
    clients.reserve(count as usize)?;
    for number in 0..count {
        let session = database.session(alloc)?;
        let client = start_one(rt, alloc, session, Share { number, ..share }, tally)?;
        clients.push(client)?;
    }
    Ok(())
}

fn start_one<
    B: ClusterName + Send + Sync + 'static,
    R: Threads + Wait + Copy + Send + Sync + 'static,
>(
    rt: &R,
    alloc: Global,
    session: Session<B>,
    share: Share,
    tally: &Arc<Tally>,
) -> Result<Client, Refusal> {
    match Arc::try_clone(tally) {
        Ok(tally) => spawn(
            rt,
            Player {
                alloc,
                session,
                share,
                tally,
            },
        ),
        Err(_) => Err(Refusal::NoMemory),
    }
}

// Starts the player's thread. Refused only as `NoMemory`.
fn spawn<P: Plays, R: Threads + Wait + Copy + Send + Sync + 'static>(
    rt: &R,
    player: P,
) -> Result<Client, Refusal> {
    let handle = *rt;
    match thread::spawn(rt, move || player.play(&handle)) {
        Ok(client) => Ok(client),
        Err(_) => Err(Refusal::NoMemory),
    }
}

/// What came of the tries of all clients, once each has ended.
pub(crate) fn join<R: Threads>(rt: &R, alloc: Global, clients: Vec<Client>) -> Played {
    let mut all = Played::new(alloc);
    for client in clients {
        all.join(client.join(rt));
    }
    all
}
