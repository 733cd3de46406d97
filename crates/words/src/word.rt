// The elements of a transfer: what the Rust has as the trait `Word`, for the three widths.
ghost use Rattle.std.specs.Prelude.{◌≡◌, ℕ, ◌%◌, ◌^◌, ◌<◌, List, get_or};
ghost use Rattle.words.specs.Width.{width_bits};
ghost use Rattle.words.specs.declared.width.Width.{Width};
ghost use Rattle.words.specs.declared.width.Width.TheVariants.{U8, U16, U32};
ghost use Rattle.std.proofs.Common.{sym};
ghost use Rattle.std.proofs.lemmas.List.{map-id};
ghost use Rattle.words.specs.Elements.{ElementLaws};

use super::width::Width;

pub trait Word: Copy {
    ghost width: { Width };

    // The numbers that elements stand for.
    ghost number: { Self → ℕ };

    ghost numbers: { List Self → List ℕ };

    ghost laws: { ElementLaws number numbers };

    fn width() -> Width
        ensures { result ≡ width };

    // The element in the lowest bits of a FIFO word.
    fn into_word(self) -> u32
        ensures { (result ≡ number self) × (result < 2 ^ width_bits width) };

    // The lowest bits of a FIFO word.
    fn from_word(word: u32) -> Self
        ensures { number result ≡ word % 2 ^ width_bits width };

    // Nothing is done: it tells a proof that the elements of a slice have no more bits than their width.
    fn bounded(xs: &[Self])
        ensures { (i : ℕ) → get_or (numbers xs.now) i 0 < 2 ^ width_bits width };
}

impl Word for u8 {
    ghost width = { U8 };

    ghost number = { λ x. x };

    ghost numbers = { λ xs. xs };

    ghost laws = { record { each = λ xs. sym (map-id xs) } };

    fn width() -> Width {
        Width::U8
    }

    fn into_word(self) -> u32 {
        self as u32
    }

    fn from_word(word: u32) -> u8 {
        (word % 0x100) as u8
    }

    fn bounded(_xs: &[u8]) {}
}

impl Word for u16 {
    ghost width = { U16 };

    ghost number = { λ x. x };

    ghost numbers = { λ xs. xs };

    ghost laws = { record { each = λ xs. sym (map-id xs) } };

    fn width() -> Width {
        Width::U16
    }

    fn into_word(self) -> u32 {
        self.into()
    }

    fn from_word(word: u32) -> u16 {
        (word % 0x1_0000) as u16
    }

    fn bounded(_xs: &[u16]) {}
}

impl Word for u32 {
    ghost width = { U32 };

    ghost number = { λ x. x };

    ghost numbers = { λ xs. xs };

    ghost laws = { record { each = λ xs. sym (map-id xs) } };

    fn width() -> Width {
        Width::U32
    }

    fn into_word(self) -> u32 {
        self
    }

    fn from_word(word: u32) -> u32 {
        word
    }

    fn bounded(_xs: &[u32]) {}
}
