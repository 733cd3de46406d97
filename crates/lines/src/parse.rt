// The input: numbers, lines, and the task that they ask for.
ghost use Rattle.std.specs.Prelude.{◌<◌, ◌≤◌, [], ◌∷◌, ◌≡◌, ◌==◌, None, cond, leb, length, position};
ghost use Rattle.std.specs.Prelude.{IfSome, MatchOption, option_map, option_and_then};
ghost use Rattle.words.specs.Width.{width_bits};
ghost use Rattle.lines.specs.Text.{space, split, bind, only, digit as digit_of, digit_in as digit_in_of, numeral};
ghost use Rattle.lines.specs.Fields.{fields};
ghost use Rattle.lines.specs.Grammar.{small, count, element, line_elements, width_of, order_of, header as header_of, task};

use crate::buslog::INPUT;
use words::order::BitOrder;
use words::width::Width;
use words::word::Word;

// What the first line says.
#[derive(Clone, Copy)]
pub(crate) struct Header {
    pub width: Width,
    pub order: BitOrder,
    pub budget: u32,
}

// A first line that was read, and the lines after it.
#[derive(Clone, Copy)]
pub(crate) struct Request<'a> {
    pub header: Header,
    pub write: &'a [u8],
    pub read: &'a [u8],
    pub script: &'a [u8],
}

// What the four lines ask for, at the width of `T`; the elements stand in lent buffers.
#[derive(Drop)]
pub(crate) struct Asked<'a, T> {
    pub order: BitOrder,
    pub budget: u32,
    pub write: &'a [T],
    pub read: usize,
    pub script: &'a [u32],
    ghost write_few: { length write.now ≤ 512 },
    ghost read_few: { read ≤ 512 },
}

// The ranges as the definition has them; by `char::to_digit` the proof would go over characters, which is no plainer.
fn digit(byte: u8) -> Option<u32>
    ensures { result ≡ digit_of byte }
{
    match byte {
        b'0'..=b'9' => Some(u32::from(byte - b'0')),
        b'A'..=b'F' => Some(u32::from(byte - b'A') + 10),
        b'a'..=b'f' => Some(u32::from(byte - b'a') + 10),
        _ => None,
    }
}

fn digit_in(base: u32, byte: u8) -> Option<u32>
    ensures { result ≡ digit_in_of base byte }
{
    digit(byte).filter(|d| *d < base)
}

// A number of digits, if it is below 2^32. (`u32::from_str_radix` takes a `&str`, and a sign, which these have not.)
#[tactic(auto, using(crate::proofs::TextLaws::too_large))]
fn read_number(base: u32, field: &[u8]) -> Option<u32>
    requires { (0 < base) × (base ≤ 16) }
    ensures { result ≡ bind (numeral base field.now) small }
{
    if field.is_empty() {
        return None;
    }
    let mut n = 0u32;
    for byte in field {
        let d = digit_in(base, *byte)?;
        n = n.checked_mul(base)?.checked_add(d)?;
    }
    Some(n)
}

// An element of a width.
#[tactic(auto, using(crate::proofs::TextLaws::numeral_fits))]
fn read_element(width: Width, field: &[u8]) -> Option<u32>
    ensures { result ≡ element (width_bits width) field.now }
{
    if usize::from(width.bits()) / 4 < field.len() {
        return None;
    }
    read_number(16, field)
}

// The first field of a line, and the line after it.
fn first_field(line: &[u8]) -> (&[u8], Option<&[u8]>)
    ensures { split space line.now ≡ result.0.now ∷ fields result.1 }
{
    match split_once(line, b' ') {
        None => (line, None),
        Some((field, others)) => (field, Some(others)),
    }
}

// The elements of a line, over the front of a buffer; `n` is how many, and the next place. (With a `for` over `split` the proof didn't
// close: in a function with a type parameter the loop's invariant cannot be stated.)
fn read_elements<'a, T: Word, const N: usize>(line: &[u8], out: &'a mut [T; N]) -> Option<&'a [T]>
    ensures value { option_map (λ xs. T.numbers xs.now) result ≡ line_elements (width_bits T.width) N line.now }
    ensures few { IfSome result (λ xs. length xs.now ≤ N) }
{
    let mut n = 0;
    let mut rest = if line.is_empty() { None } else { Some(line) };
    while let Some(left) = rest {
        let (field, others) = first_field(left);
        let x = read_element(T::width(), field)?;
        if n == N {
            return None;
        }
        out[n] = T::from_word(x);
        n += 1;
        rest = others;
    }
    Some(&out[..n])
}

fn read_width(field: &[u8]) -> Option<Width>
    ensures { result ≡ width_of field.now }
{
    match field {
        b"8" => Some(Width::U8),
        b"16" => Some(Width::U16),
        b"32" => Some(Width::U32),
        _ => None,
    }
}

// A count, at most so much.
fn read_count(field: &[u8], most: u32) -> Option<u32>
    ensures value { result ≡ bind (count field.now) (λ n. only (leb n most) n) }
    ensures few { IfSome result (λ n. n ≤ most) }
{
    read_number(10, field).filter(|n| *n <= most)
}

fn read_order(field: &[u8]) -> Option<BitOrder>
    ensures { result ≡ order_of field.now }
{
    match field {
        b"M" => Some(BitOrder::Msb),
        b"L" => Some(BitOrder::Lsb),
        _ => None,
    }
}

fn find(text: &[u8], byte: u8) -> Option<usize>
    ensures { result ≡ position (λ b. b == byte) text.now }
{
    text.iter().position(|b| *b == byte)
}

// What stands before the first separator, and what stands after it: of slices the library has no such function.
#[tactic(auto, using(crate::proofs::PartLaws::first_part, crate::proofs::PartLaws::only_part))]
fn split_once(text: &[u8], separator: u8) -> Option<(&[u8], &[u8])>
    ensures { MatchOption result
        (split separator text.now ≡ text.now ∷ [])
        (λ p. split separator text.now ≡ p.0.now ∷ split separator p.1.now) }
{
    let at = find(text, separator)?;
    Some((&text[..at], &text[at + 1..]))
}

// The three fields of the first line.
#[tactic(auto, using(crate::proofs::PartLaws::four_fields))]
fn read_header(line: &[u8]) -> Option<Header>
    ensures { result ≡ header_of (split space line.now) }
{
    let (width, rest) = split_once(line, b' ')?;
    let (order, budget) = split_once(rest, b' ')?;
    match split_once(budget, b' ') {
        Some(_) => None,
        None => Some(Header {
            width: read_width(width)?,
            order: read_order(order)?,
            budget: read_number(10, budget)?,
        }),
    }
}

impl<'a> Request<'a> {
    ghost use Rattle.lines.specs.Parse.{requested, task_of};

    // The four lines of a text.
    #[tactic(auto, using(crate::proofs::PartLaws::fifth_line))]
    pub(crate) fn read(text: &'a [u8]) -> Option<Request<'a>>
        ensures { option_and_then requested result ≡ cond (leb (length text.now) INPUT) (task text.now) None }
    {
        if INPUT < text.len() {
            return None;
        }
        let (first, rest) = split_once(text, b'\n')?;
        let (write, rest) = split_once(rest, b'\n')?;
        let (read, rest) = split_once(rest, b'\n')?;
        // Nothing may follow the last line but a newline.
        let script = match split_once(rest, b'\n') {
            None => rest,
            Some((line, b"")) => line,
            Some(_) => return None,
        };
        Some(Request {
            header: read_header(first)?,
            write,
            read,
            script,
        })
    }

    // With the elements, over the fronts of two buffers.
    pub(crate) fn elements<'b, T: Word>(
        &self,
        write: &'b mut [T; 512],
        script: &'b mut [u32; 8_000],
    ) -> Option<Asked<'b, T>>
        requires { T.width ≡ self.now.header.width }
        ensures { option_map (task_of T.width T.numbers) result ≡ requested self.now }
    {
        Some(Asked {
            order: self.header.order,
            budget: self.header.budget,
            write: read_elements(self.write, write)?,
            read: read_count(self.read, 512)? as usize,
            script: read_elements(self.script, script)?,
        })
    }
}
