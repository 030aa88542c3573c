//! What scripts, drawn steps and loads print alike: readers and writers with the errors that their calls may answer,
//! why a run stops before its end, and a refusal as a line.
#![tactic(auto)]

mod refusals;
mod stop;
mod stops;
mod streams;

pub use refusals::RefusalLine;
pub use stop::Stop;
pub use stops::{print_refusal, print_stop};
pub use streams::{Limited, Sink, Source};
