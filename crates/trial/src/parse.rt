// What the lines of a trial say. None where a line is bad.
ghost use Rattle.std.specs.Prelude.{◌≤◌, length};
ghost use Rattle.trial.specs.declared.parse.TheConstants.{MAX_ELEMENTS};

use crate::lines::Lines;
use agreement::board::Board;
use sequences::driver::Lpspi;
use words::order::BitOrder;
use words::width::Width;

// The most elements of a board.
pub(crate) const MAX_ELEMENTS: usize = 512;

// The most letters and spaces of events.
pub(crate) const MAX_EVENTS: usize = 65_536;

// A board, and its elements: each byte of its line is one.
#[derive(Clone, Copy)]
pub(crate) struct Entry<'a> {
    pub board: Board,
    pub line: &'a [u8],
    ghost short: { length line.now ≤ MAX_ELEMENTS },
}

#[derive(Clone, Copy)]
pub(crate) struct Trial<'a> {
    pub gate: Entry<'a>,
    pub antenna: Entry<'a>,
    // A byte for each event.
    pub events: &'a [u8],
}

impl<'a> Lines<'a> {
    // The trial that they say, its events' bytes at the start of `room`.
    pub(crate) fn parse(self, room: &'a mut [u8; MAX_EVENTS]) -> Option<Trial<'a>> {
        let (gate, antenna) = boards(self.header)?;
        Some(Trial {
            gate: Entry::new(gate, self.gate)?,
            antenna: Entry::new(antenna, self.antenna)?,
            events: events(self.events, room)?,
        })
    }
}

impl<'a> Entry<'a> {
    fn new(board: Board, line: &'a [u8]) -> Option<Self> {
        if MAX_ELEMENTS < line.len() {
            return None;
        }
        Some(Entry { board, line })
    }
}

// The gate and the antenna of a first line.
fn boards(header: &[u8]) -> Option<(Board, Board)> {
    let mut fields = header.split(|&b| b == b' ');
    let order = order(fields.next()?)?;
    let gate = fields.next()?;
    let antenna = fields.next()?;
    let (gate_width, antenna_width) = match fields.next() {
        Some(field) => (width(field)?, width(fields.next()?)?),
        None => (Width::U8, Width::U8),
    };
    if fields.next().is_some() {
        return None;
    }
    Some((
        board(order, gate, gate_width)?,
        board(order, antenna, antenna_width)?,
    ))
}

// `lines` reads both as well, for its own contract; a program has no other's private functions.
fn order(field: &[u8]) -> Option<BitOrder> {
    match field {
        b"M" => Some(BitOrder::Msb),
        b"L" => Some(BitOrder::Lsb),
        _ => None,
    }
}

fn width(field: &[u8]) -> Option<Width> {
    match field {
        b"8" => Some(Width::U8),
        b"16" => Some(Width::U16),
        b"32" => Some(Width::U32),
        _ => None,
    }
}

// S or P, and a digit.
fn board(order: BitOrder, field: &[u8], width: Width) -> Option<Board> {
    let (inplace, digit) = match *field {
        [b'S', digit] => (false, digit),
        [b'P', digit] => (true, digit),
        _ => return None,
    };
    let exponent = char::from(digit).to_digit(10)?;
    Some(Board {
        driver: Lpspi::new().with_bit_order(order),
        width,
        inplace,
        exponent: exponent as usize,
    })
}

// The bytes of a line's events, at the start of `room`. Spaces are passed over.
fn events<'a>(line: &[u8], room: &'a mut [u8; MAX_EVENTS]) -> Option<&'a [u8]> {
    if room.len() < line.len() {
        return None;
    }
    let is_letter = |byte: &&u8| **byte != b' ';
    for (code, &letter) in room.iter_mut().zip(line.iter().filter(is_letter)) {
        *code = event(letter)?;
    }
    room.get(..line.iter().filter(is_letter).count())
}

// The byte of an event: the C interface, by which hosts lend events.
fn event(letter: u8) -> Option<u8> {
    match letter {
        b'g' => Some(0),
        b'G' => Some(1),
        b'a' => Some(2),
        b'A' => Some(3),
        b'c' => Some(4),
        b't' => Some(5),
        b'r' => Some(6),
        b'T' => Some(7),
        b'R' => Some(8),
        _ => None,
    }
}
