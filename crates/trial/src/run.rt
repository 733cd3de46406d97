// Runs a trial, and shows what it comes to.
ghost use Rattle.std.specs.Prelude.{◌≤◌};
ghost use Rattle.trial.specs.declared.parse.TheConstants.{MAX_ELEMENTS};

use crate::parse::{Entry, MAX_ELEMENTS, Trial};
use crate::print::{Elements, End};
use bus::trial::{EndState, trial};
use std::io;
use words::width::Width;
use words::word::Word;

// The gate's width is that of the elements; an antenna of another width is refused by the trial.
pub(crate) fn show(out: &impl Print, lines: Trial<'_>) -> io::Result<()> {
    match lines.gate.board.width {
        Width::U8 => show_by(out, lines, [0u8; MAX_ELEMENTS]),
        Width::U16 => show_by(out, lines, [0u16; MAX_ELEMENTS]),
        Width::U32 => show_by(out, lines, [0u32; MAX_ELEMENTS]),
    }
}

// `zeros` comes from where the type is known: of a type parameter nothing bounds the size that an array of it takes.
fn show_by<T: Word>(
    out: &impl Print,
    lines: Trial<'_>,
    zeros: [T; MAX_ELEMENTS],
) -> io::Result<()> {
    let Trial {
        gate,
        antenna,
        events,
    } = lines;
    let longer = gate.line.len().max(antenna.line.len());
    let (mut gate_read, mut gate_write) = (zeros, zeros);
    let (mut antenna_read, mut antenna_write) = (zeros, zeros);
    let gate_read = read_buffer(gate, longer, &mut gate_read);
    let antenna_read = read_buffer(antenna, longer, &mut antenna_read);
    let outcome = trial(
        gate.board,
        antenna.board,
        gate_read,
        elements(gate, &mut gate_write),
        antenna_read,
        elements(antenna, &mut antenna_write),
        events,
    );
    println!(out; "number {}", outcome.number())?;
    show_end(out, "gate", gate.board.width, &outcome.gate, gate_read)?;
    show_end(
        out,
        "antenna",
        antenna.board.width,
        &outcome.antenna,
        antenna_read,
    )
}

// A board's elements, at the start of a buffer.
fn elements<'a, T: Word>(entry: Entry<'_>, room: &'a mut [T; MAX_ELEMENTS]) -> &'a mut [T] {
    for (element, &byte) in room.iter_mut().zip(entry.line) {
        *element = T::from_word(u32::from(byte));
    }
    &mut room[..entry.line.len()]
}

// A board's read buffer: in place its elements, else as long as the longer line.
fn read_buffer<'a, T: Word>(
    entry: Entry<'_>,
    longer: usize,
    room: &'a mut [T; MAX_ELEMENTS],
) -> &'a mut [T]
    requires { longer ≤ MAX_ELEMENTS }
{
    if entry.board.inplace {
        return elements(entry, room);
    }
    &mut room[..longer]
}

// What an end comes to, and its read buffer in the digits of the board's width.
fn show_end<T: Word>(
    out: &impl Print,
    name: &str,
    width: Width,
    end: &EndState,
    read: &[T],
) -> io::Result<()> {
    println!(out; "{name}{}", End(end))?;
    println!(out;
        "{name} reads{}",
        Elements {
            width,
            elements: read
        }
    )
}
