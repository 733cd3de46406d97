// The three widths of an element: what the Rust has as the trait `Word`.
ghost use Rattle.std.specs.Prelude.{◌≡◌, ◌≤◌};
ghost use Rattle.words.specs.Width.{width_bits};
ghost use Rattle.words.specs.Word.{per_word};
ghost use Rattle.words.specs.Buffer.{dummy, word_count};

#[derive(Clone, Copy, PartialEq, Eq)]
pub enum Width {
    U8,
    U16,
    U32,
}

impl Width {
    // The bits of an element.
    pub fn bits(self) -> u16
        ensures { (result ≡ width_bits self) × (8 ≤ result) × (result ≤ 32) }
    {
        match self {
            Width::U8 => 8,
            Width::U16 => 16,
            Width::U32 => 32,
        }
    }

    // The elements that fit a FIFO word.
    pub fn per_word(self) -> usize
        ensures { result ≡ per_word (width_bits self) }
    {
        match self {
            Width::U8 => 4,
            Width::U16 => 2,
            Width::U32 => 1,
        }
    }

    // What is sent where an element is missing.
    pub fn dummy(self) -> u32
        ensures { result ≡ dummy (width_bits self) }
    {
        match self {
            Width::U8 => 0xFF,
            Width::U16 => 0xFFFF,
            Width::U32 => 0xFFFF_FFFF,
        }
    }

    // The FIFO words that `len` elements take.
    pub fn word_count(self, len: usize) -> usize
        ensures { result ≡ word_count (width_bits self) len }
    {
        match self {
            Width::U8 => len / 4 + (len % 4 + 3) / 4,
            Width::U16 => len / 2 + len % 2,
            Width::U32 => len,
        }
    }
}
