//! What tests of running databases run them by, and what their sessions do and are asked. It is no part of the product.
#![tactic(auto)]

mod host;
mod sessions;
mod waiting;

pub use host::{Done, Host, Named, thread_of};
pub use sessions::{
    Asked, add_read, add_write, byte_of, commit_code, is_serial, length_of, move_keys, put,
    reads_just, receipt_of, refused_at, serial_in, snapshot_of, two_sessions, write,
};
pub use waiting::wait_for;
