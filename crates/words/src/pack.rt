// Elements to one FIFO word.
ghost use Rattle.std.specs.Prelude.{◌≡◌, ◌+◌, ◌^◌, ◌<◌, ◌≤◌, get_or, drop, length};
ghost use Rattle.words.specs.Answer.{pack_answer};
ghost use Rattle.words.specs.Width.{width_bits};
ghost use Rattle.words.specs.Word.{per_word, pack, packed};
ghost use Rattle.words.specs.Buffer.{dummy, filled};

use super::order::BitOrder;
use super::place::append;
use super::word::Word;

// More elements than a word holds.
#[derive(Clone, Copy)]
pub struct TooManyElements;

// The element at a place, or the dummy past the end.
fn element_at<T: Word>(xs: &[T], at: usize) -> u32
    ensures { (result ≡ get_or (T.numbers xs.now) at (dummy (width_bits T.width))) × (result < 2 ^ width_bits T.width) }
{
    match xs.get(at) {
        Some(x) => x.into_word(),
        None => T::width().dummy(),
    }
}

// The word of `count` elements from a place on, with dummies for those that are missing. (`skip`, `map`,
// `chain`, `repeat`, `take` and `enumerate` would be no plainer.)
pub(crate) fn filled_word<T: Word>(order: BitOrder, count: usize, xs: &[T], at: usize) -> u32
    requires { (count ≤ per_word (width_bits T.width)) × (at + count < 2 ^ 64) }
    ensures { result
        ≡ pack order (width_bits T.width) (filled (dummy (width_bits T.width)) count (drop at (T.numbers xs.now))) }
{
    let mut word = 0;
    for i in 0..count {
        word = append::<T>(order, i, word, element_at(xs, at + i));
    }
    word
}

// The word of elements that fit one.
pub(crate) fn whole_word<T: Word>(order: BitOrder, xs: &[T]) -> u32
    requires { length xs.now ≤ per_word (width_bits T.width) }
    ensures { result ≡ pack order (width_bits T.width) (T.numbers xs.now) }
{
    let mut word = 0;
    for (i, x) in xs.iter().enumerate() {
        word = append::<T>(order, i, word, x.into_word());
    }
    word
}

// The word of at most 4, 2 or 1 elements.
pub fn pack<T: Word>(order: BitOrder, xs: &[T]) -> Result<u32, TooManyElements>
    ensures { pack_answer result ≡ packed order (width_bits T.width) (T.numbers xs.now) }
{
    if T::width().per_word() < xs.len() {
        return Err(TooManyElements);
    }
    Ok(whole_word(order, xs))
}
