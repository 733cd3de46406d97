// The command of a transfer, as the register TCR has it.
ghost use Rattle.std.specs.Prelude.{◌≡◌, ◌*◌, length};
ghost use Rattle.words.specs.Command.{set_flag, set_order, set_mode, set_pcs, settings_word};
ghost use Rattle.words.specs.Command.{frame_accepted, command_answer, framed};
ghost use Rattle.words.specs.Width.{width_bits};
ghost use Rattle.words.specs.declared.width.Width.TheVariants.{U8};
ghost use Rattle.manual.specs.declared.Tcr.TheVariants.{BYSW, RXMSK, TXMSK, CONT, CONTC};

use super::mode::{Mode, Pcs};
use super::order::BitOrder;
use super::width::Width;
use super::word::Word;
use manual::{Field, Tcr};

// Data direction.
#[derive(Clone, Copy, PartialEq, Eq)]
pub enum Direction {
    // Leaving the peripheral.
    Tx,
    // Entering the peripheral.
    Rx,
}

#[derive(Clone, Copy)]
pub enum LpspiError {
    // The frame is shorter or longer than a command can say, or its last word is one bit.
    FrameSize,
    // A FIFO error in that direction.
    Fifo(Direction),
}

#[derive(Clone, Copy)]
pub struct Transaction(u32);

// All that a command says but its frame size.
#[derive(Clone, Copy)]
pub struct Settings {
    pub byte_swap: bool,
    pub order: BitOrder,
    pub receive_mask: bool,
    pub transmit_mask: bool,
    pub continuous: bool,
    pub continuing: bool,
    pub mode: Mode,
    pub pcs: Pcs,
}

impl Transaction {
    pub const MIN_FRAME_SIZE: u16 = 8;

    pub const MAX_FRAME_SIZE: u16 = 1 << 12;

    pub const WORD_SIZE: u16 = 32;

    // The elements of the longest frame, at width 8.
    pub const MAX_ELEMENTS: usize = 512;

    // The FIFO words of the longest frame.
    pub const MAX_WORDS: usize = 128;

    // Both limits are those of the longest frame. (Two functions: the documents name each.)
    fn max_elements() -> usize
        ensures { width_bits U8 * result ≡ 4096 }
    {
        Self::MAX_ELEMENTS
    }

    fn max_words() -> usize
        ensures { 32 * result ≡ 4096 }
    {
        Self::MAX_WORDS
    }

    fn frame_size_valid(frame_size: u16) -> bool
        ensures { result ≡ frame_accepted frame_size }
    {
        let bounded = Self::MIN_FRAME_SIZE <= frame_size && frame_size <= Self::MAX_FRAME_SIZE;
        bounded && frame_size % Self::WORD_SIZE != 1
    }

    // The command of a frame of that many bits.
    pub fn new(frame_size: u16) -> Result<Self, LpspiError>
        ensures { command_answer result ≡ framed frame_size }
    {
        if Self::frame_size_valid(frame_size) {
            Ok(Self(frame_size as u32 - 1))
        } else {
            Err(LpspiError::FrameSize)
        }
    }

    // The command of a frame of `len` elements.
    pub fn new_elements(width: Width, len: usize) -> Result<Self, LpspiError>
        ensures { command_answer result ≡ framed (width_bits width * len) }
    {
        if Self::MAX_ELEMENTS < len {
            return Err(LpspiError::FrameSize);
        }
        Self::new(width.bits() * (len as u16))
    }

    // The command of a frame of those elements.
    pub fn new_words<T: Word>(data: &[T]) -> Result<Self, LpspiError>
        ensures { command_answer result ≡ framed (width_bits T.width * length «data».now) }
    {
        Self::new_elements(T::width(), data.len())
    }

    // By the Rust's name.
    pub fn new_u32s(data: &[u32]) -> Result<Self, LpspiError>
        ensures { command_answer result ≡ framed (32 * length «data».now) }
    {
        Self::new_words(data)
    }

    // The word of the register TCR.
    pub fn as_raw(self) -> u32
        ensures { result ≡ self.0 }
    {
        self.0
    }

    // The eight settings, by the Rust's names: each is its own function there, and 01 names the setters.

    // Swap the bytes of a word.
    pub fn with_byte_swap(self, swap: bool) -> Self
        ensures { result.0 ≡ set_flag BYSW swap self.0 }
    {
        self.with_flag(Tcr::BYSW, swap)
    }

    pub fn with_bit_order(self, bit_order: BitOrder) -> Self
        ensures { result.0 ≡ set_order bit_order self.0 }
    {
        Self(Field::Tcr(Tcr::LSBF).set(bit_order.lsbf(), self.0))
    }

    // Discard received data.
    pub fn with_receive_data_mask(self, rxmask: bool) -> Self
        ensures { result.0 ≡ set_flag RXMSK rxmask self.0 }
    {
        self.with_flag(Tcr::RXMSK, rxmask)
    }

    // Send no data.
    pub fn with_transmit_data_mask(self, txmask: bool) -> Self
        ensures { result.0 ≡ set_flag TXMSK txmask self.0 }
    {
        self.with_flag(Tcr::TXMSK, txmask)
    }

    // Keep the chip select asserted after the frame.
    pub fn with_continuous(self, cont: bool) -> Self
        ensures { result.0 ≡ set_flag CONT cont self.0 }
    {
        self.with_flag(Tcr::CONT, cont)
    }

    // The command belongs to a continuous transfer that has begun.
    pub fn with_continuing(self, contc: bool) -> Self
        ensures { result.0 ≡ set_flag CONTC contc self.0 }
    {
        self.with_flag(Tcr::CONTC, contc)
    }

    pub fn with_mode(self, mode: Mode) -> Self
        ensures { result.0 ≡ set_mode mode self.0 }
    {
        let polarity = mode.polarity;
        let phase = mode.phase;
        let word = Field::Tcr(Tcr::CPHA).set(phase.cpha(), self.0);
        Self(Field::Tcr(Tcr::CPOL).set(polarity.cpol(), word))
    }

    pub fn with_pcs(self, pcs: Pcs) -> Self
        ensures { result.0 ≡ set_pcs pcs self.0 }
    {
        Self(Field::Tcr(Tcr::PCS).set(pcs.number(), self.0))
    }

    fn with_flag(self, field: Tcr, on: bool) -> Self
        ensures { result.0 ≡ set_flag field on self.0 }
    {
        Self(Field::Tcr(field).set(u32::from(on), self.0))
    }
}

// The same setters where the command is kept.
impl Transaction {
    pub fn set_byte_swap(&mut self, swap: bool)
        ensures { self.new.0 ≡ set_flag BYSW swap self.old.0 }
    {
        *self = self.with_byte_swap(swap);
    }

    pub fn set_bit_order(&mut self, bit_order: BitOrder)
        ensures { self.new.0 ≡ set_order bit_order self.old.0 }
    {
        *self = self.with_bit_order(bit_order);
    }

    pub fn set_receive_data_mask(&mut self, rxmask: bool)
        ensures { self.new.0 ≡ set_flag RXMSK rxmask self.old.0 }
    {
        *self = self.with_receive_data_mask(rxmask);
    }

    pub fn set_transmit_data_mask(&mut self, txmask: bool)
        ensures { self.new.0 ≡ set_flag TXMSK txmask self.old.0 }
    {
        *self = self.with_transmit_data_mask(txmask);
    }

    pub fn set_continuous(&mut self, cont: bool)
        ensures { self.new.0 ≡ set_flag CONT cont self.old.0 }
    {
        *self = self.with_continuous(cont);
    }

    pub fn set_continuing(&mut self, contc: bool)
        ensures { self.new.0 ≡ set_flag CONTC contc self.old.0 }
    {
        *self = self.with_continuing(contc);
    }

    pub fn set_mode(&mut self, mode: Mode)
        ensures { self.new.0 ≡ set_mode mode self.old.0 }
    {
        *self = self.with_mode(mode);
    }

    pub fn set_pcs(&mut self, pcs: Pcs)
        ensures { self.new.0 ≡ set_pcs pcs self.old.0 }
    {
        *self = self.with_pcs(pcs);
    }

    // All settings but the frame size.
    pub fn with_settings(self, settings: Settings) -> Self
        ensures { result.0 ≡ settings_word settings self.0 }
    {
        let mut command = self;
        command.set_bit_order(settings.order);
        command.set_mode(settings.mode);
        command.set_pcs(settings.pcs);
        command.set_byte_swap(settings.byte_swap);
        command.set_receive_data_mask(settings.receive_mask);
        command.set_transmit_data_mask(settings.transmit_mask);
        command.set_continuous(settings.continuous);
        command.set_continuing(settings.continuing);
        command
    }
}
