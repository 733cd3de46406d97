// The machines of a transfer and of a flush: each says which register access is due and goes on by its answer. They touch no register
// and no buffer.
#![tactic(auto)]

pub mod flush;
pub mod poll;
pub mod transfer;
