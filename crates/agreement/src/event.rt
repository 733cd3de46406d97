// What happens on the bus.
use words::transaction::Direction;

#[derive(Clone, Copy)]
pub enum Side {
    Gate,
    Antenna,
}

#[derive(Clone, Copy)]
pub enum Event {
    // The next access of an end, and the busy bit that SR would show.
    Step(Side, bool),
    // A word each way.
    Clock,
    // The error flag of a direction is set at an end.
    Noise(Side, Direction),
}
