//! The book of set-once cells: entries that were appended once stand for good, and whoever shares a book has seen its
//! first entries, up to some number of them.
#![tactic(auto)]

mod agreeing;
mod appending;
mod blank;
mod book;
mod facts;
mod found;
mod front;
mod latest;
pub mod laws;
mod name;
mod repeated;

pub use agreeing::agree;
pub use appending::{append, append_and_share};
pub use blank::Blank;
pub use book::Book;
pub use found::Found;
pub use front::{Front, empty};
pub use name::BookName;
