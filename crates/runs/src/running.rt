// A run under way.
ghost use Rattle.std.specs.Prelude.{◌*◌, ◌≤◌, length};

use crate::drive::{Frame, Spot};

// What a run works with, and how far it has come. Log and buffer are lent, so that every access is a method of it. (The buffer's places and
// how many are filled, beside one another: fixed memory.)
#[derive(Drop)]
pub(crate) struct Running<'a> {
    pub frame: Frame,
    pub budget: usize,
    pub script: &'a [u32],
    pub log: &'a mut [u32],
    pub sent_words: &'a [u32],
    pub received_words: &'a mut [u32],
    pub spot: Spot,
    ghost room: { 2 * budget ≤ length log.now },
    ghost within: { spot.made ≤ budget },
    ghost answered: { spot.used ≤ spot.made },
    ghost inside: { spot.received ≤ length received_words.now },
}
