// The driver value, and the calls of the driver as sequences of moves, each one register access. They touch no register.
#![tactic(auto)]

pub mod access;
pub mod call;
pub mod driver;
pub mod recovery;
pub mod sequence;
pub mod settings;
pub mod status;
