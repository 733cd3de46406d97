// FIFO words, commands and clocks: the lowest layer of the LPSPI driver.
#![tactic(auto)]

pub mod buffer;
pub mod clock;
pub mod longer;
pub mod mode;
pub mod order;
pub mod pack;
mod place;
pub mod transaction;
pub mod unpack;
pub mod width;
pub mod word;
