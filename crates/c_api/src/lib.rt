// What a host in Rust or C calls: commands, clocks, the packing of bytes, runs over a script, and the two-board bus, on numbers and
// slices. Where a function answers a number, it is document 01's. A refused command, clock, word or pair of boards leaves what was lent
// as found. A run's counts, and the value of a call that has one, always stand where they go; the rest is left as its number says, bits
// 31..21 of the driver's word always as found. A refused trial (9) has put no ends into `state`, whatever stands there.
#![tactic(auto)]

pub mod call;
pub mod clock;
pub mod command;
mod driver;
mod number;
pub mod pack;
pub mod pair;
pub mod run;
pub mod text;
