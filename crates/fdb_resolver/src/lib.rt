//! A resolver: what it says of the transactions of an entry, by the versions at which it admitted writes.
#![tactic(auto)]

mod judging;
pub mod laws;
mod part;
mod resolver_core;
mod verdict;

pub use part::{Item, Part};
pub use resolver_core::ResolverCore;
pub use verdict::{Verdict, Verdicts};
