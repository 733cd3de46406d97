// Whole buffers: elements to the FIFO words of a transfer, and received words to elements.
ghost use Rattle.std.specs.Prelude.{◌≡◌, ℕ, ◌*◌, ◌-◌, ◌%◌, ◌^◌, ◌<◌, ◌≤◌, min, List, length, take};
ghost use Rattle.words.specs.Width.{width_bits};
ghost use Rattle.words.specs.Word.{laid, per_word};
ghost use Rattle.words.specs.Buffer.{word_count, tabulate, word_at, pack_words, unpack_words, cut_word};

use super::order::BitOrder;
use super::pack::{filled_word, whole_word};
use super::unpack::spread;
use super::width::Width;
use super::word::Word;

// The first `n` words, none of them short and no element missing. (With `zip` over `iter_mut` the proof didn't close: see `unpack_full`.)
fn pack_full<T: Word>(order: BitOrder, xs: &[T], n: usize, words: &mut [u32])
    requires { (per_word (width_bits T.width) * n ≤ length xs.now) × (n ≤ length words.old) }
    ensures { words.new
        ≡ laid (pack_words order (width_bits T.width) (per_word (width_bits T.width) * n) (T.numbers xs.now)) words.old }
{
    let per_word = T::width().per_word();
    for (i, part) in xs[..per_word * n].chunks_exact(per_word).enumerate() {
        words[i] = whole_word(order, part);
    }
}

// Words `from` to `n`, after those before them. (By index, which is also the place of the word's elements:
// `iter_mut`, `enumerate` and `skip` would be no plainer.)
fn pack_rest<T: Word>(
    order: BitOrder,
    xs: &[T],
    total: usize,
    from: usize,
    n: usize,
    words: &mut [u32],
)
    requires { (from ≤ n) × (n ≤ length words.old) × (n ≤ word_count (width_bits T.width) total) }
    ensures { (ws : List ℕ)
        → words.old ≡ laid (tabulate from (word_at order (width_bits T.width) total (T.numbers xs.now))) ws
        → words.new ≡ laid (tabulate n (word_at order (width_bits T.width) total (T.numbers xs.now))) ws }
{
    let per_word = T::width().per_word();
    for i in from..n {
        let at = per_word * i;
        words[i] = filled_word(order, per_word.min(total - at), xs, at);
    }
}

// The words of a transfer of `total` elements that sends `xs`, over the front of `words`.
pub fn pack_words<T: Word>(order: BitOrder, xs: &[T], total: usize, words: &mut [u32])
    ensures { words.new ≡ laid (pack_words order (width_bits T.width) total (T.numbers xs.now)) words.old }
{
    let n = T::width().word_count(total).min(words.len());
    let full = (total.min(xs.len()) / T::width().per_word()).min(n);
    pack_full(order, xs, full, words);
    pack_rest(order, xs, total, full, n, words);
}

// The first `n` words, none of them short and no element without a place. (A part is taken by its place: with
// `zip` and `chunks_exact_mut` the proof didn't close, since it knows nothing of what is written through these.)
fn unpack_full<T: Word>(order: BitOrder, words: &[u32], n: usize, out: &mut [T])
    requires { (n ≤ length words.now) × (per_word (width_bits T.width) * n ≤ length out.old) }
    ensures { T.numbers out.new
        ≡ laid (unpack_words order (width_bits T.width) (per_word (width_bits T.width) * n) (take n words.now)) (T.numbers out.old) }
{
    let per_word = T::width().per_word();
    for (i, word) in words[..n].iter().enumerate() {
        let at = per_word * i;
        spread(order, per_word, *word, &mut out[at..at + per_word]);
    }
}

// The elements of received words of a transfer of `total` elements, over the front of `out`; those past its end are dropped. Behind the
// words whose elements all have a place there is at most one with some.
pub fn unpack_words<T: Word>(order: BitOrder, words: &[u32], total: usize, out: &mut [T])
    ensures { T.numbers out.new ≡ laid (unpack_words order (width_bits T.width) total words.now) (T.numbers out.old) }
{
    let per_word = T::width().per_word();
    let full = words.len().min(total.min(out.len()) / per_word);
    unpack_full(order, words, full, out);
    if full < words.len() {
        let at = per_word * full;
        spread(order, per_word.min(total - at), words[full], &mut out[at..]);
    }
}

// The elements in word `i` of a transfer of `total`, where a word holds `per_word`.
fn count_at(per_word: usize, total: usize, i: usize) -> usize
    requires { 0 < per_word }
    ensures { result ≡ min per_word (total - per_word * i) }
{
    if total / per_word < i {
        return 0;
    }
    per_word.min(total - per_word * i)
}

// The lowest `n` bits of a word.
fn low(word: u32, n: usize) -> u32
    requires { n ≤ 32 }
    ensures { result ≡ word % 2 ^ n }
{
    if n == 32 {
        return word;
    }
    word & ((1 << n) - 1)
}

// Word `i` of a transfer of `total` elements with the places above its elements zero, as unpacking and packing leave it.
pub fn cut_word(width: Width, total: usize, i: usize, word: u32) -> u32
    ensures { result ≡ cut_word (width_bits width) total i word }
{
    let bits = width.bits() as usize;
    low(word, bits * count_at(width.per_word(), total, i))
}
