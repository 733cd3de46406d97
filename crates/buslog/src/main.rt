// Four lines on standard input: a separate exchange. Prints its listing, or `bad`.
#![tactic(auto)]

ghost use Rattle.std.specs.Prelude.{◌≡◌, ◌≤◌, length, IfOk};

use lines::buslog::{INPUT, OUTPUT, buslog};
use std::io;
use std::io::Read;

// Reads until the buffer is full or the input ends; how many bytes it put at the buffer's start. An error of a read leaves the buffer as
// long as it was, with whatever came before. A loop of its own: the library's `read_exact` refuses a shorter input, and `read_to_end` needs
// a heap. Each program has it, since no library below them does any input.
fn read_full(input: &mut impl Read, to: &mut [u8]) -> io::Result<usize>
    ensures read { IfOk result (λ n. n ≤ length to.new) }
    ensures kept { length to.new ≡ length to.old }
{
    let mut done = 0;
    while done < to.len() {
        let n = input.read(&mut to[done..])?;
        if n == 0 {
            break;
        }
        done += n;
    }
    Ok(done)
}

fn main(rt: HostRuntime) -> io::Result<()> {
    // Fixed memory: one byte more than the longest input.
    let mut input = [0u8; INPUT + 1];
    let read = read_full(&mut rt.stdin(), &mut input)?;
    let mut out = [0u8; OUTPUT];
    let n = buslog(&input[..read], &mut out);
    rt.write_all(&out[..n])
}
