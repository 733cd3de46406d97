// The lines of `buslog`: four in, the listing out.
#![tactic(auto)]

pub mod buslog;
mod parse;
mod print;
