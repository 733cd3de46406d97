// Events from bytes.
ghost use Rattle.std.specs.Prelude.{◌≡◌};
ghost use Rattle.agreement.specs.Codes.{event_of};

use agreement::event::{Event, Side};
use words::transaction::Direction;

// The event of a byte, whatever it is: the C interface, by which hosts lend events.
pub(crate) fn event_of(code: u8) -> Event
    ensures { result ≡ event_of code }
{
    match code % 9 {
        0 => Event::Step(Side::Gate, false),
        1 => Event::Step(Side::Gate, true),
        2 => Event::Step(Side::Antenna, false),
        3 => Event::Step(Side::Antenna, true),
        4 => Event::Clock,
        5 => Event::Noise(Side::Gate, Direction::Tx),
        6 => Event::Noise(Side::Gate, Direction::Rx),
        7 => Event::Noise(Side::Antenna, Direction::Tx),
        _ => Event::Noise(Side::Antenna, Direction::Rx),
    }
}
