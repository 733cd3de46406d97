// Any call of document 01, from standard input: one line a call, as docs/CALLS.md says.
//
//   # a comment, printed as it stands
//   exchange_separate_u8 read 00 write A5 script 0 404 0 0 404 0 0 404 10000 5A
//   set_watermark Tx 3 budget 20 script 404 0
//   from_hz 60000000 4000000
#![tactic(auto)]

ghost use Rattle.std.specs.Prelude.{◌≡◌, ◌≤◌, length, IfOk};

mod elements;
mod line;
mod list;
mod names;
mod print;
mod result;
mod run;
mod text;
mod value;

use line::{Line, Rooms};
use names::Call;
use std::io::Read;
use std::{io, str};

// The longest input.
const INPUT: usize = 262_144;

// A line's call; nothing where the line is bad.
fn parse<'a>(line: &[u8], rooms: &'a mut Rooms) -> Option<Line<'a>> {
    Line::parse(str::from_utf8(line).ok()?, rooms)
}

fn make(out: &impl Print, line: &Line) -> io::Result<()> {
    match line.call {
        Call::Elements(width, call) => elements::show(out, width, call, line),
        Call::Value(call) => value::show(out, call),
        Call::Run(call) => run::show(out, call, line),
    }
}

// A line, by its number.
fn show_line(out: &impl Print, number: u64, line: &[u8], rooms: &mut Rooms) -> io::Result<()> {
    if line.is_empty() || line.starts_with(b"#") {
        out.write_all(line)?;
        return out.write_all(b"\n");
    }
    match parse(line, rooms) {
        Some(line) => make(out, &line),
        None => println!(out; "bad {number}"),
    }
}

fn show_lines(out: &impl Print, input: &[u8]) -> io::Result<()> {
    let mut rooms = Rooms::new();
    for (number, line) in (1..).zip(input.split_inclusive(|byte| *byte == b'\n')) {
        let line = line.strip_suffix(b"\n").unwrap_or(line);
        show_line(out, number, line, &mut rooms)?;
    }
    Ok(())
}

// Reads until the buffer is full or the input ends; how many bytes it put at the buffer's start. An error of a read leaves the buffer as
// long as it was, with whatever came before. A loop of its own: the library's `read_exact` refuses a shorter input, and `read_to_end` needs
// a heap. Each program has it, since no library below them does any input.
fn read_full(input: &mut impl Read, to: &mut [u8]) -> io::Result<usize>
    ensures read { IfOk result (λ n. n ≤ length to.new) }
    ensures kept { length to.new ≡ length to.old }
{
    let mut done = 0;
    while done < to.len() {
        let n = input.read(&mut to[done..])?;
        if n == 0 {
            break;
        }
        done += n;
    }
    Ok(done)
}

fn main(rt: HostRuntime) -> io::Result<()> {
    // One byte more than the longest input.
    let mut input = [0u8; INPUT + 1];
    let n = read_full(&mut rt.stdin(), &mut input)?;
    if INPUT < n {
        return println!(rt; "bad");
    }
    show_lines(&rt, &input[..n])
}
