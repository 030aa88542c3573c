/// A role of the database at whose entries a gate is called.
#[derive(Clone, Copy, PartialEq, Eq, Debug)]
pub enum Role {
    /// The resolver with the number.
    Resolver(u32),
    /// The commit proxy with the number.
    CommitProxy(u32),
}

/// What a database calls where its threads come to an entry, so that a test may hold them back or see them pass. No
/// lock is held at the calls, and a gate that never returns holds its thread for ever. A resolver's entry may be taken
/// by a commit proxy's thread that waits for its verdicts.
pub trait Gate: Send + Sync + Drop {
    /// The role is about to do what it does for the entry with the number: a resolver takes its part, a commit proxy,
    /// which has learnt the entry's ticket, asks the resolvers.
    fn before(&self, role: Role, entry: u32);

    /// The role has done what it does for the entry: a resolver took its part, a commit proxy answered its clients.
    fn after(&self, role: Role, entry: u32);

    /// Whether these calls may wait for what others do. Where they never do, the threads of resolvers are woken for
    /// large batches alone. It is to answer the same each time.
    fn may_wait(&self) -> bool {
        true
    }
}

/// A gate as a worker calls it. A worker's trait doesn't know which threads may call what it is lent: so this one asks
/// nothing of the kind.
pub(crate) trait Pass: Drop {
    /// As `Gate::before`.
    fn before(&self, role: Role, entry: u32);

    /// As `Gate::after`.
    fn after(&self, role: Role, entry: u32);

    /// As `Gate::may_wait`.
    fn may_wait(&self) -> bool;
}

impl<G: Gate> Pass for G {
    fn before(&self, role: Role, entry: u32) {
        Gate::before(self, role, entry);
    }

    fn after(&self, role: Role, entry: u32) {
        Gate::after(self, role, entry);
    }

    fn may_wait(&self) -> bool {
        Gate::may_wait(self)
    }
}

/// A gate that does nothing, for use.
#[derive(Drop)]
pub struct NoGate;

impl Gate for NoGate {
    fn before(&self, _role: Role, _entry: u32) {}

    fn after(&self, _role: Role, _entry: u32) {}

    fn may_wait(&self) -> bool {
        false
    }
}
