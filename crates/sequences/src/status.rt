// The status flags.
ghost use Rattle.std.specs.Prelude.{◌≡◌, [], ◌∷◌, map};
ghost use Rattle.std.specs.Int.Bits.{bit_or};
ghost use Rattle.sequences.specs.Status.{flagged, named, status_of, cleared};

use std::ops::BitOr;

#[derive(Clone, Copy)]
pub struct Status {
    pub(crate) bits: u32,
}

impl Status {
    pub const BUSY: Self = Status { bits: 0x0100_0000 };

    pub const DATA_MATCH: Self = Status { bits: 0x2000 };

    pub const RECEIVE_ERROR: Self = Status { bits: 0x1000 };

    pub const TRANSMIT_ERROR: Self = Status { bits: 0x0800 };

    pub const TRANSFER_COMPLETE: Self = Status { bits: 0x0400 };

    pub const FRAME_COMPLETE: Self = Status { bits: 0x0200 };

    pub const WORD_COMPLETE: Self = Status { bits: 0x0100 };

    pub const RECEIVE_DATA: Self = Status { bits: 0x0002 };

    pub const TRANSMIT_DATA: Self = Status { bits: 0x0001 };

    // Each constant is its flag's bit, as the manual has it.
    fn named() -> [u32; 9]
        ensures { result ≡ map (λ f. flagged (f ∷ [])) named }
    {
        [
            Self::BUSY.bits,
            Self::DATA_MATCH.bits,
            Self::RECEIVE_ERROR.bits,
            Self::TRANSMIT_ERROR.bits,
            Self::TRANSFER_COMPLETE.bits,
            Self::FRAME_COMPLETE.bits,
            Self::WORD_COMPLETE.bits,
            Self::RECEIVE_DATA.bits,
            Self::TRANSMIT_DATA.bits,
        ]
    }

    // The flags of a word that have a name.
    pub fn from_bits_truncate(bits: u32) -> Self
        ensures { result ≡ record { bits = status_of bits } }
    {
        Status {
            bits: bits & 0x0100_3F03,
        }
    }

    pub fn bits(self) -> u32
        ensures { result ≡ self.bits }
    {
        self.bits
    }

    // The flags of both, as `|`; by the name that the documents have.
    pub fn union(self, other: Self) -> Self
        ensures { result ≡ record { bits = bit_or self.bits other.bits } }
    {
        Status {
            bits: self.bits | other.bits,
        }
    }

    // Those that are cleared by writing 1 to them.
    pub(crate) fn w1c(self) -> u32
        ensures { result ≡ cleared self.bits }
    {
        self.bits & 0x3F00
    }
}

impl BitOr for Status {
    type Output = Self;

    ghost bitor_gives = { λ a b r. r ≡ record { bits = bit_or a.bits b.bits } };

    fn bitor(self, other: Self) -> Self {
        self.union(other)
    }
}
