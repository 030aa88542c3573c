/// The id of a transaction: the session that runs it, and its number among that session's, from 0.
#[derive(Clone, Copy, Debug, PartialEq, Eq)]
pub struct TxnId {
    /// The session's number.
    pub session: u32,
    /// How many transactions the session began before this one.
    pub number: u64,
}
