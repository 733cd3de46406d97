// One FIFO word to elements.
ghost use Rattle.std.specs.Prelude.{◌≡◌, ◌≤◌};
ghost use Rattle.words.specs.Answer.{unpack_number};
ghost use Rattle.words.specs.Width.{width_bits};
ghost use Rattle.words.specs.Word.{per_word, unpack, laid, unpacked_number, unpacked};

use super::order::BitOrder;
use super::pack::TooManyElements;
use super::place::element;
use super::width::Width;
use super::word::Word;

// The `n` elements of a word to the front of a buffer; what has no room is dropped.
pub(crate) fn spread<T: Word>(order: BitOrder, n: usize, word: u32, out: &mut [T])
    requires { n ≤ per_word (width_bits T.width) }
    ensures { T.numbers out.new ≡ laid (unpack order (width_bits T.width) n word) (T.numbers out.old) }
{
    let room = n.min(out.len());
    for (i, x) in out[..room].iter_mut().enumerate() {
        *x = element(order, n, i, word);
    }
}

// `count` elements of a word over the front of a buffer. At width 32 it is the word itself, whatever the order and, where it is not
// refused, the count.
pub fn unpack<T: Word>(
    word: u32,
    order: BitOrder,
    count: usize,
    out: &mut [T],
) -> Result<(), TooManyElements>
    ensures { (unpack_number result ≡ unpacked_number (width_bits T.width) count)
        × (T.numbers out.new ≡ unpacked order (width_bits T.width) count word (T.numbers out.old)) }
{
    if T::width().per_word() < count {
        return Err(TooManyElements);
    }
    let n = match T::width() {
        Width::U8 | Width::U16 => count,
        Width::U32 => 1,
    };
    spread(order, n, word, out);
    Ok(())
}
