// The two-board bus: a gate board that clocks it, and an antenna board that replies.
//
// What each type of the code is in the definitions (agreement `End`, `Events`, `Start`, `Agreement`; the views are bus `View` and `Held`):
//
//   Fifo        a queue of words: List ℕ, by its model
//   Port        Wire: both queues (commands stand before the words    wire_of, queued
//               to be sent) and the flags T and R
//   Station     of an End its machines and its wire; as a trial       station_seen
//               shows it, with its registers
//   Peer        End                                                   end_of
//   Peers       Pair: the gate's end and the antenna's                pair_of
//   Link        Job: what an end goes by                              job_of
//   Entrant     of a Start its board, its total length and the words  Prepared
//               packed at the start
//   EndState    Seen: what can be seen of an end                      state_of
//   Outcome     TrialLeft: what a trial leaves                        trial_left
#![tactic(auto)]

mod begin;
mod event;
pub mod fifo;
mod pair;
mod peer;
pub mod port;
mod register;
pub mod station;
pub mod trial;
