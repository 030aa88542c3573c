//! Transactions, the book of batches, and the rules over it: who owns a key, who admits a transaction,
//! what is committed, and the run of the committed transactions one at a time.
#![tactic(auto)]

mod batch;
mod entry;
pub mod laws;
mod limits;
mod room;
mod sealed;
mod size;
mod splits;
mod spot;
mod tag_msg;
mod turn;
mod txn_id;
mod writes;

pub use batch::Batch;
pub use entry::{Entry, Move};
pub use limits::{
    BOOK_LIMIT, GREATEST_ADVANCE, LOG_LIMIT, MOVE_LIMIT, PLACE_LIMIT, PROXY_LIMIT, RESOLVER_LIMIT,
    SHARD_LIMIT, SIZE_LIMIT, TAG_LIMIT, TICKET_LIMIT, VERSION_LIMIT, WINDOW,
};
pub use room::Room;
pub use sealed::{Sealed, Unsealed};
pub use size::check_size;
pub use splits::Splits;
pub use spot::Spot;
pub use tag_msg::TagMsg;
pub use turn::check_turn;
pub use txn_id::TxnId;
