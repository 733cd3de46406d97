// The transfers: calls of the driver with their buffers, each one run. The four have the Rust's names; what they share is `entry`. (Why
// driver, budget, script and log are parameters of their own: `calls`.)
#![tactic(auto)]

pub mod begin;
mod entry;
pub mod exchange;
pub mod exchange_separate;
pub mod read_no_write;
pub mod write_no_read;
