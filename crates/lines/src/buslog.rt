// `buslog` over slices: the text that the program reads, and the text that it prints.
ghost use Rattle.std.specs.Prelude.{◌≡◌, None, Some, length};
ghost use Rattle.words.specs.Width.{width_bits};
ghost use Rattle.transfers.specs.Transfers.{transfer_left};
ghost use Rattle.lines.specs.Buslog.{zeros, listing, answer, buslog as buslog_of, Printed};
ghost use Rattle.lines.specs.Parse.{requested, task_of};
ghost use Rattle.lines.specs.Puts.{Listable};

use crate::parse::{Asked, Request};
use crate::print::Cursor;
use runs::result::RunResult;
use sequences::driver::Lpspi;
use transfers::exchange_separate::exchange_separate;
use words::width::Width;
use words::word::Word;

// The longest input.
pub const INPUT: usize = 131_072;
// Room for the longest listing: 8,000 accesses, 512 elements, a result.
pub const OUTPUT: usize = 131_072;

// A host lends so much.
fn output() -> usize
    ensures { result ≡ 131072 }
{
    OUTPUT
}

fn bad(out: &mut [u8; OUTPUT]) -> usize
    ensures { Printed (answer None) out.old out.new result }
{
    let mut cursor = Cursor { out, at: 0 };
    cursor.put(b"bad\n");
    cursor.at
}

fn list<T: Word>(r: RunResult, log: &[u32], read: &[T], out: &mut [u8; OUTPUT]) -> usize
    requires { Listable r log.now (length read.now) }
    ensures { Printed (listing (width_bits T.width) (transfer_left r log.now (T.numbers read.now))) out.old out.new result }
{
    let mut cursor = Cursor { out, at: 0 };
    cursor.listing(r, log, read);
    cursor.at
}

// The exchange that was asked for, into a buffer of zeros, and its listing.
fn exchange<T: Word>(asked: Asked<'_, T>, read: &mut [T; 512], out: &mut [u8; OUTPUT]) -> usize
    requires { T.numbers read.old ≡ zeros 512 }
    ensures { Printed (answer (Some (task_of T.width T.numbers asked.entry))) out.old out.new result }
{
    let budget = asked.budget as usize;
    let driver = Lpspi::new().with_bit_order(asked.order);
    let mut log = [0u32; 16_000];
    let log = &mut log[..2 * budget.min(8_000)];
    let read = &mut read[..asked.read];
    let r = exchange_separate(driver, read, asked.write, budget, asked.script, log);
    list(r, log, read, out)
}

// A request at its width; the buffer for what is read is all zeros.
fn run<T: Word>(
    request: &Request<'_>,
    write: &mut [T; 512],
    read: &mut [T; 512],
    out: &mut [u8; OUTPUT],
) -> usize
    requires width { T.width ≡ request.now.header.width }
    requires zeros { T.numbers read.old ≡ zeros 512 }
    ensures { Printed (answer (requested request.now)) out.old out.new result }
{
    let mut script = [0u32; 8_000];
    match request.elements(write, &mut script) {
        None => bad(out),
        Some(asked) => exchange(asked, read, out),
    }
}

// What `buslog` prints for a text, over the front of a buffer; how long it is.
pub fn buslog(input: &[u8], out: &mut [u8; OUTPUT]) -> usize
    ensures { Printed (buslog_of input.now) out.old out.new result }
{
    match Request::read(input) {
        None => bad(out),
        Some(request) => match request.header.width {
            Width::U8 => run(&request, &mut [0u8; 512], &mut [0u8; 512], out),
            Width::U16 => run(&request, &mut [0u16; 512], &mut [0u16; 512], out),
            Width::U32 => run(&request, &mut [0u32; 512], &mut [0u32; 512], out),
        },
    }
}
