// A client in a thread of its own.
use crate::halt::Halt;
use crate::played::Played;
use crate::tally::Tally;
use crate::workload::Workload;
use fdb_keys::Refusal;
use fdb_runtime::{ClusterName, Session};
use rand_pcg::Pcg32;
use std::alloc::Global;
use std::sync::Wait;

/// What a client does.
#[derive(Clone, Copy)]
pub(crate) struct Share {
    /// The client's number, from 0.
    pub(crate) number: u32,
    /// How many transactions it tries.
    pub(crate) txns: u32,
    /// What each of them does.
    pub(crate) workload: Workload,
}

/// All tries of the client, one after another, as long as none ends it. The tally is told of each of them, and of the
/// client's end.
pub(crate) fn play<B: ClusterName, R: Wait>(
    rt: &R,
    alloc: Global,
    session: Session<B>,
    share: Share,
    tally: &Tally,
) -> Played {
    let mut session = session;
    let mut played = Played::new(alloc);
    let ended = try_all(rt, alloc, &mut session, share, tally, &mut played);
    if let Err(halt) = ended {
        played.note_halt(halt);
    }
    tally.add_ended();
    played
}

fn try_all<B: ClusterName, R: Wait>(
    rt: &R,
    alloc: Global,
    session: &mut Session<B>,
    share: Share,
    tally: &Tally,
    played: &mut Played,
) -> Result<(), Halt> {
    let seed = u64::from(share.number);
    let mut random = Pcg32::new(seed, seed);
    for _try in 0..share.txns {
        let is_committed = try_one(rt, alloc, session, share.workload, &mut random, played)?;
        tally.add_try(is_committed);
    }
    Ok(())
}

// One try, and whether it was acknowledged.
fn try_one<B: ClusterName, R: Wait>(
    rt: &R,
    alloc: Global,
    session: &mut Session<B>,
    workload: Workload,
    random: &mut Pcg32,
    played: &mut Played,
) -> Result<bool, Halt> {
    played.reserve()?;
    match open(rt, alloc, session, workload, random) {
        Ok(()) => played.note(session.commit(rt, alloc)),
        Err(Halt::Refused(why)) => played.note_aborted(why),
        Err(Halt::Broken) => Err(Halt::Broken),
    }
}

// Opens a transaction with its reads and its writes.
fn open<B: ClusterName, R: Wait>(
    rt: &R,
    alloc: Global,
    session: &mut Session<B>,
    workload: Workload,
    random: &mut Pcg32,
) -> Result<(), Halt> {
    session.begin(rt, alloc)?;
    workload.fill(rt, alloc, session, random)
}
