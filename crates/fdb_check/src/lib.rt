//! A check of transcripts beside a book: the rule over all resolvers says what becomes of each place, the committed
//! transactions run one at a time, and each transcript is compared at its spot.
#![tactic(auto)]

mod comparing;
mod entries;
mod fault;
mod judge;
mod judged;
mod judged_book;
pub mod laws;
mod run;
mod serial;
mod serial_run;
mod standing;
mod visits;

pub use fault::CheckFault;
pub use judged_book::JudgedBook;
pub use serial::serial_check;
pub use serial_run::SerialRun;
