//! Worlds that are played, by a script or by steps that are drawn from a seed, and what is printed of them.
#![tactic(auto)]

pub mod laws;
mod play;
mod print;
mod random;
mod script;

pub use fdb_print::{RefusalLine, Sink, Source, Stop, print_stop};
pub use play::script::{run_script, run_script_with_hints};
pub use print::answers::push_answer;
pub use random::ended::Ended;
pub use random::report::Report;
pub use random::tally::{CODES, Tally};
pub use random::watch::{Nobody, Watch};
pub use random::{run_random, run_steps};
pub use script::lines::Lines;
pub use script::step_line::Kind;
