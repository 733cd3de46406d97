// The two-board bus as definitions, and the theorem that two boards agree or say so (demand 3). Types only: `bus` has the code.
#![tactic(auto)]

pub mod board;
pub mod event;
pub mod register;
