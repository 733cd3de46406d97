// The words of a line, and what they stand for.
ghost use Rattle.std.specs.Prelude.{◌≤◌};

use sequences::settings::{PcsPolarity, SamplePoint};
use words::mode::{MODE_0, MODE_1, MODE_2, MODE_3, Mode, Pcs};
use words::order::BitOrder;
use words::transaction::Direction;

// The words that are left of a line. One or more spaces separate them.
#[derive(Clone, Copy)]
pub(crate) struct Words<'a>(&'a str);

// A number of 32 bits, without a sign.
fn number(digits: &str, radix: u32) -> Option<u32>
    requires { (2 ≤ radix) × (radix ≤ 36) }
{
    if digits.starts_with('+') {
        return None;
    }
    u32::from_str_radix(digits, radix).ok()
}

// What a word stands for outside of buffers and script.
fn argument(word: &str) -> Option<u32> {
    match word {
        "M" | "Tx" | "off" | "low" | "Edge" => Some(0),
        "L" | "Rx" | "on" | "high" | "DelayedEdge" => Some(1),
        _ => match word.strip_prefix("0x") {
            Some(digits) => number(digits, 16),
            None => number(word, 10),
        },
    }
}

impl<'a> Words<'a> {
    pub(crate) fn new(line: &'a str) -> Self {
        Words(line)
    }

    // The next word, and those behind it.
    fn split_first(self) -> Option<(&'a str, Self)> {
        let rest = self.0.trim_start_matches(' ');
        if rest.is_empty() {
            return None;
        }
        let (word, rest) = rest.split_once(' ').unwrap_or((rest, ""));
        Some((word, Words(rest)))
    }

    pub(crate) fn next(&mut self) -> Option<&'a str> {
        let (word, rest) = self.split_first()?;
        *self = rest;
        Some(word)
    }

    // The next word as hexadecimal digits; one that is no such number is left.
    pub(crate) fn digits(&mut self) -> Option<u32> {
        let (word, rest) = self.split_first()?;
        let number = number(word, 16)?;
        *self = rest;
        Some(number)
    }

    pub(crate) fn number(&mut self) -> Option<u32> {
        argument(self.next()?)
    }

    pub(crate) fn size(&mut self) -> Option<usize> {
        Some(self.number()? as usize)
    }

    pub(crate) fn byte(&mut self) -> Option<u8> {
        u8::try_from(self.number()?).ok()
    }

    // One of a few things, by its number among them.
    fn one_of<T: Copy, const N: usize>(&mut self, things: [T; N]) -> Option<T> {
        things.get(self.number()? as usize).copied()
    }

    pub(crate) fn flag(&mut self) -> Option<bool> {
        self.one_of([false, true])
    }

    pub(crate) fn order(&mut self) -> Option<BitOrder> {
        self.one_of([BitOrder::Msb, BitOrder::Lsb])
    }

    pub(crate) fn mode(&mut self) -> Option<Mode> {
        self.one_of([MODE_0, MODE_1, MODE_2, MODE_3])
    }

    pub(crate) fn pcs(&mut self) -> Option<Pcs> {
        self.one_of([Pcs::Pcs0, Pcs::Pcs1, Pcs::Pcs2, Pcs::Pcs3])
    }

    pub(crate) fn direction(&mut self) -> Option<Direction> {
        self.one_of([Direction::Tx, Direction::Rx])
    }

    pub(crate) fn sample_point(&mut self) -> Option<SamplePoint> {
        self.one_of([SamplePoint::Edge, SamplePoint::DelayedEdge])
    }

    pub(crate) fn polarity(&mut self) -> Option<PcsPolarity> {
        self.one_of([PcsPolarity::ActiveLow, PcsPolarity::ActiveHigh])
    }
}
