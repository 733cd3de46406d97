// Some bits of a word.
ghost use Rattle.std.specs.Prelude.{◌≡◌, ◌+◌, ◌<◌, ◌≤◌};
ghost use Rattle.manual.specs.Bits.{bits, get_bits, set_bits};

use std::marker::Model;

// `width` bits from `position` up, all inside a word, and not all of it.
#[derive(Clone, Copy)]
pub(crate) struct Bits {
    position: u32,
    width: u32,
}

impl Model for Bits {
    ghost use Rattle.std.specs.Prelude.{◌+◌, ◌<◌, ◌≤◌};
    ghost use Rattle.manual.specs.Bits.{Bits, bits};

    ghost Value = { Bits };

    ghost view = { λ b. bits b.position b.width };

    ghost invariant = { λ b. (0 < b.width) × (b.width < 32) × (b.position + b.width ≤ 32) };

    ghost inverse = { λ b. record { position = b.position; width = b.width } };
}

impl Bits {
    pub(crate) fn new(position: u32, width: u32) -> Self
        requires { (0 < width) × (width < 32) × (position + width ≤ 32) }
        ensures { result ≡ bits position width }
    {
        Bits { position, width }
    }

    // Their value in a word.
    pub(crate) fn get(self, word: u32) -> u32
        ensures { result ≡ get_bits self.position self.width word }
    {
        (word >> self.position) & ((1 << self.width) - 1)
    }

    // The word with `value`, masked to the width, in them.
    pub(crate) fn set(self, value: u32, word: u32) -> u32
        ensures { result ≡ set_bits self.position self.width value word }
    {
        let low = word & ((1 << self.position) - 1);
        let high = (word >> self.position) >> self.width;
        let field = value & ((1 << self.width) - 1);
        (((high << self.width) | field) << self.position) | low
    }
}
