/// A batch in flight at a commit proxy, with those whose part in it the proxy waits for.
#[derive(Clone, Copy, PartialEq, Eq)]
pub struct InFlight {
    /// The number of the batch's entry.
    pub entry: u32,
    /// How many resolvers there are.
    pub resolvers: u32,
    /// How many logs there are.
    pub logs: u32,
}
