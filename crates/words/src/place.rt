// An element put behind those of a word, and one taken out of it. (How many fit is a demand of each: a type for such a count would be built
// at every call, and is no plainer.)
ghost use Rattle.std.specs.Prelude.{◌≡◌, ◌+◌, ◌*◌, ◌^◌, ◌<◌, ◌≤◌, get_or};
ghost use Rattle.words.specs.Width.{width_bits};
ghost use Rattle.words.specs.Word.{joined, per_word, unpack, reversed};

use super::order::BitOrder;
use super::word::Word;

// The word of the `n` elements of the word `w` and, after them, the element `x`. A shift by all 32 bits, at width 32, is one of a u64.
pub(crate) fn append<T: Word>(order: BitOrder, n: usize, w: u32, x: u32) -> u32
    requires { (n < per_word (width_bits T.width)) × (x < 2 ^ width_bits T.width) × (w < 2 ^ (width_bits T.width * n)) }
    ensures { (result ≡ joined (reversed order) (width_bits T.width) n x w) × (result < 2 ^ (width_bits T.width * (n + 1))) }
{
    let bits = T::width().bits() as usize;
    match order {
        BitOrder::Msb => (((w as u64) << bits) | (x as u64)) as u32,
        BitOrder::Lsb => (x << (bits * n)) | w,
    }
}

// Element `i` of the `n` elements of the word `w`.
pub(crate) fn element<T: Word>(order: BitOrder, n: usize, i: usize, w: u32) -> T
    requires { (n ≤ per_word (width_bits T.width)) × (i < n) }
    ensures { T.number result ≡ get_or (unpack order (width_bits T.width) n w) i 0 }
{
    let bits = T::width().bits() as usize;
    match order {
        BitOrder::Msb => T::from_word(w >> (bits * (n - 1 - i))),
        BitOrder::Lsb => T::from_word(w >> (bits * i)),
    }
}
