use crate::gate::Pass;
use crate::shared::role::{Act, Lent, SharedRole, serve};
use crate::threads::gated::Gated;
use crate::threads::worker::Worker;
use fdb_sections::DatabaseName;
use std::sync::Wait;

/// A kind of roles that have threads and stand among what all threads share.
#[derive(Clone, Copy)]
pub(crate) enum Kind {
    Resolver,
    ReadVersionProxy,
    CommitProxy,
}

/// The thread of the role of a kind with the number.
#[derive(Drop)]
pub(crate) struct RoleWorker {
    pub(crate) kind: Kind,
    pub(crate) number: u32,
}

impl<B: DatabaseName + Send + Sync + 'static, G: Pass + Send + Sync + 'static> Worker<Gated<B, G>>
    for RoleWorker {
    // Does what comes for the role and no other thread does, until the role has ended.
    fn work<R: Wait>(&mut self, rt: &R, gated: &Gated<B, G>) {
        let lent = gated.lend();
        match self.kind {
            Kind::Resolver => serve_one(rt, &lent, lent.shared.resolvers(), self.number),
            Kind::ReadVersionProxy => serve_one(rt, &lent, lent.shared.begins(), self.number),
            Kind::CommitProxy => serve_one(rt, &lent, lent.shared.commits(), self.number),
        }
    }
}

// Serves the one with the number, if there is one.
fn serve_one<B: DatabaseName, T: Drop, W: Act<B, T>, G: Pass, R: Wait>(
    rt: &R,
    lent: &Lent<'_, B, G>,
    roles: &[SharedRole<W, T>],
    number: u32,
) {
    if let Some(role) = roles.get(number as usize) {
        serve(rt, lent, role);
    }
}
