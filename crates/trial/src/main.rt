// Two boards over the bus, from standard input: trials of four lines each, and empty lines between them.
//
//   M S2 P3      order (M or L); for the gate and for the antenna: S (separate) or P (in place), and the FIFO exponent
//   HELLO        the gate's elements, as text: each byte is one
//   tag 7        the antenna's elements
//   gggg aaaa c  events: g and a steps of gate and antenna, G and A busy ones, c a clock, t and r noise at the gate (T, R), T and R at
//                the antenna
//
// An element has 8 bits, unless the first line goes on with the gate's and the antenna's width (8, 16 or 32), as in `M S2 P3 16 16`.
// With exponent 0 a board never sends a word, since its command takes the one place.
// A separate read buffer is as long as the longer line and starts as zeros. Spaces between events are passed over. A board has at most 512
// elements, and a trial at most 65,536 letters and spaces of events. A trial with a line of another form prints `bad` and its number, from
// 1 on. Lines missing at the end count as empty. An input of more than 262,144 bytes prints `bad`, and none of its trials is run.
// docs/BUS.md walks through it.
#![tactic(auto)]

ghost use Rattle.std.specs.Prelude.{◌≤◌, ◌≡◌, length, IfOk};

mod lines;
mod parse;
mod print;
mod run;

use lines::Trials;
use std::io;
use std::io::Read;

// The longest input.
const INPUT: usize = 262_144;

fn trials(out: &impl Print, input: &[u8]) -> io::Result<()> {
    let mut room = [0; parse::MAX_EVENTS];
    for (number, lines) in (1u64..).zip(Trials { rest: input }) {
        match lines.parse(&mut room) {
            Some(trial) => run::show(out, trial)?,
            None => println!(out; "bad {number}")?,
        }
    }
    Ok(())
}

// Reads until the buffer is full or the input ends; how many bytes it put at the buffer's start. An error of a read leaves the buffer as
// long as it was, with whatever came before. A loop of its own: the library's `read_exact` refuses a shorter input, and `read_to_end` needs
// a heap. Each program has it, since no library below them does any input.
fn read_full(input: &mut impl Read, to: &mut [u8]) -> io::Result<usize>
    ensures read { IfOk result (λ n. n ≤ length to.new) }
    ensures kept { length to.new ≡ length to.old }
{
    let mut done = 0;
    while done < to.len() {
        let n = input.read(&mut to[done..])?;
        if n == 0 {
            break;
        }
        done += n;
    }
    Ok(done)
}

fn main(rt: HostRuntime) -> io::Result<()> {
    // Fixed memory: one byte more than the longest input.
    let mut input = [0u8; INPUT + 1];
    let n = read_full(&mut rt.stdin(), &mut input)?;
    if INPUT < n {
        return println!(&rt; "bad");
    }
    trials(&rt, &input[..n])
}
