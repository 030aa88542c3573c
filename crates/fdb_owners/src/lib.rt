//! Which resolver owns which keys at which version: the pieces between splits at first, and what was moved since.
#![tactic(auto)]

mod deciding;
mod history;
mod knowing;
pub mod laws;
mod learning;
mod owners;
mod parts;
mod pieces;
mod sole;
mod spreading;
mod sweeping;

pub use owners::Owners;
pub use parts::Owned;
