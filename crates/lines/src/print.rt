// The listing, written into a buffer from the front on.
ghost use Rattle.std.specs.Prelude.{◌+◌, ◌*◌, ◌/◌, ◌<◌, ◌≤◌, ◌≡◌, length};
ghost use Rattle.words.specs.Width.{width_bits};
ghost use Rattle.lines.specs.Text.{glyph as glyph_of, digits as digits_of, places as places_of, decimal as decimal_of};
ghost use Rattle.lines.specs.Listing.{kind as kind_of, access_line, access_lines, element_line, element_lines, result_line};
ghost use Rattle.transfers.specs.Transfers.{transfer_left};
ghost use Rattle.lines.specs.Buslog.{listing};
ghost use Rattle.lines.specs.Puts.{Puts, Listable};

use runs::result::RunResult;
use sequences::access::ending_number;
use words::word::Word;

// A buffer, and where the text that stands in it ends: fixed memory. (Each method asks for the room of its own text.)
#[derive(Drop)]
pub(crate) struct Cursor<'a> {
    pub out: &'a mut [u8],
    pub at: usize,
}

// Digits by hand: `write!` ensures the bytes that it writes to a `String` alone, which needs a heap.
fn glyph(digit: u32) -> u8
    requires { digit < 16 }
    ensures { result ≡ glyph_of digit }
{
    let digit = digit as u8;
    if digit < 10 {
        b'0' + digit
    } else {
        b'A' + (digit - 10)
    }
}

fn places(n: u32) -> usize
    ensures { (result ≡ places_of n) × (result ≤ 5) }
{
    match n {
        0..10 => 1,
        10..100 => 2,
        100..1000 => 3,
        1000..10000 => 4,
        _ => 5,
    }
}

fn kind(register: u32) -> &'static [u8]
    ensures { result.now ≡ kind_of register }
{
    if register < 0x1000 { b"R " } else { b"W " }
}

// Every method is laid into the listing, which keeps both fields in registers: behind a call they are loaded anew for each byte.
impl Cursor<'_> {
    #[inline(always)]
    pub(crate) fn put(&mut self, text: &[u8])
        requires { self.old.at + length text.now ≤ length self.old.out.now }
        ensures { Puts self.old self.new text.now }
    {
        let end = self.at + text.len();
        self.out[self.at..end].copy_from_slice(text);
        self.at = end;
    }

    // The last `k` digits of a number, from the end on. (Of `iter_mut().rev()` the proof didn't close: it knows not what was written.)
    #[inline(always)]
    fn digits(&mut self, base: u32, k: usize, n: u32)
        requires { (0 < base) × (base ≤ 16) × (self.old.at + k ≤ length self.old.out.now) }
        ensures { Puts self.old self.new (digits_of base k n) }
    {
        let mut rest = n;
        for i in (0..k).rev() {
            self.out[self.at + i] = glyph(rest % base);
            rest /= base;
        }
        self.at += k;
    }

    #[inline(always)]
    #[tactic(auto, using(crate::proofs::WrittenLaws::length_digits))]
    fn decimal(&mut self, n: u32)
        requires { self.old.at + 5 ≤ length self.old.out.now }
        ensures wrote { Puts self.old self.new (decimal_of n) }
        ensures most { self.new.at ≤ self.old.at + 5 }
    {
        self.digits(10, places(n), n);
    }

    #[inline(always)]
    fn access_line(&mut self, register: u32, value: u32)
        requires { self.old.at + 14 ≤ length self.old.out.now }
        ensures wrote { Puts self.old self.new (access_line register value) }
        ensures most { self.new.at ≡ self.old.at + 14 }
    {
        self.put(kind(register));
        self.digits(16, 2, register % 0x1000);
        self.put(b" ");
        self.digits(16, 8, value);
        self.put(b"\n");
    }

    // The accesses of a log.
    #[inline(always)]
    fn access_lines(&mut self, log: &[u32])
        requires { self.old.at + 7 * length log.now ≤ length self.old.out.now }
        ensures { Puts self.old self.new (access_lines log.now) }
    {
        let mut left = log;
        while let Some(([register, value], others)) = left.split_first_chunk::<2>() {
            self.access_line(*register, *value);
            left = others;
        }
    }

    // A read element.
    #[inline(always)]
    fn element_line<T: Word>(&mut self, element: T)
        requires { self.old.at + width_bits T.width / 4 + 1 ≤ length self.old.out.now }
        ensures wrote { Puts self.old self.new (element_line (width_bits T.width) (T.number element)) }
        ensures most { self.new.at ≡ self.old.at + width_bits T.width / 4 + 1 }
    {
        self.digits(16, usize::from(T::width().bits() / 4), element.into_word());
        self.put(b"\n");
    }

    #[inline(always)]
    fn element_lines<T: Word>(&mut self, elements: &[T])
        requires { self.old.at + (width_bits T.width / 4 + 1) * length elements.now ≤ length self.old.out.now }
        ensures { Puts self.old self.new (element_lines (width_bits T.width) (T.numbers elements.now)) }
    {
        for element in elements {
            self.element_line(*element);
        }
    }

    // Result, accesses made, answers used.
    #[inline(always)]
    fn result_line(&mut self, number: u32, accesses: u32, answers: u32)
        requires { self.old.at + 18 ≤ length self.old.out.now }
        ensures { Puts self.old self.new (result_line number accesses answers) }
    {
        self.decimal(number);
        self.put(b" ");
        self.decimal(accesses);
        self.put(b" ");
        self.decimal(answers);
        self.put(b"\n");
    }

    // Accesses, read elements, then the result.
    #[inline(always)]
    pub(crate) fn listing<T: Word>(&mut self, r: RunResult, log: &[u32], read: &[T])
        requires fits { Listable r log.now (length read.now) }
        requires room { self.old.at + 116626 ≤ length self.old.out.now }
        ensures { Puts self.old self.new (listing (width_bits T.width) (transfer_left r log.now (T.numbers read.now))) }
    {
        self.access_lines(&log[..2 * r.accesses]);
        self.element_lines(read);
        self.result_line(ending_number(r.ending), r.accesses as u32, r.answers as u32);
    }
}
