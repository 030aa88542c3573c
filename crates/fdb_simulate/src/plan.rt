/// What is simulated. The same plan gives the same tally.
#[derive(Clone, Copy)]
pub struct Plan {
    /// What the order of the acts is drawn from.
    pub seed: u64,
    /// How many acts are drawn. Then no transaction begins any more, and what was begun is played to its end.
    pub steps: u64,
    /// How many clients there are.
    pub clients: u32,
    /// How many keys they read and write.
    pub keys: u8,
    /// How far each entry's version is above that of the one before it.
    pub advance: u64,
    /// Before which act a role fails, which is drawn, if one does: a commit proxy, a resolver, a log or a shard.
    pub fails_at: Option<u64>,
    /// Before which act the database is closed, if it is closed before the end.
    pub closes_at: Option<u64>,
}
