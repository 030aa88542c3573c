//! What each role is where a book leaves it, with the laws on one more entry, on new roles and on a commit proxy from
//! its ticket to its answers; and what it means that a transaction is serialized at its spot.
#![tactic(auto)]

pub mod laws;
mod layer;
mod placed;

pub use layer::{Layer, a_book_keeps_what_each_transaction_keeps};
pub use placed::Placed;
