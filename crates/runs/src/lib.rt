// Runs over a script: a machine, driven with a budget of accesses from the answers to its reads, with a log. (Why these are parameters of
// their own in the public functions: `calls`.)
#![tactic(auto)]

mod access;
pub mod call;
pub mod drive;
mod fast;
pub mod flush;
pub mod log;
pub mod result;
mod run;
mod running;
pub mod transfer;
