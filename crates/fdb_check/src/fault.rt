use fdb_txn::TxnId;

/// What a check found.
#[derive(Clone, Copy, Debug, PartialEq, Eq)]
pub enum CheckFault {
    /// The transaction was not answered as in the run of one transaction at a time.
    Txn(TxnId),
    /// The shard does not hold the serial map at its version.
    Shard(u32),
    /// Memory ran out.
    NoMemory,
}
