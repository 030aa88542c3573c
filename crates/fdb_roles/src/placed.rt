use fdb_client::Transcript;
use fdb_txn::Spot;

/// An acknowledged transaction with where it stands.
#[derive(Drop)]
pub struct Placed {
    /// Where the transaction stands.
    pub spot: Spot,
    /// Its operations with their replies.
    pub transcript: Transcript,
}
