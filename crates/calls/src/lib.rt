// The calls beside the transfers and the flush, each one run with budget, script and log. Each has its name in the Rust, and most one line.
//
// Driver value, budget, script and log stay parameters of their own. A struct that lends the log is no plainer: by value a clause reads the
// log as `bench.exit.1.1.0.now`; as `&mut` each contract needs clauses more, for the log's ghost name and that the rest is as it was.
// One of budget and script alone makes them `limits.entry.budget` and `limits.entry.script.now` in each clause. All three were tried.
#![tactic(auto)]

pub mod data;
pub mod disabled;
pub mod fifo;
pub mod reset;
pub mod results;
pub mod status;
