// The packing and unpacking of bytes. The C interface: a refusal is a number, and the word goes where the host says.
ghost use Rattle.std.specs.Prelude.{◌≡◌};
ghost use Rattle.words.specs.Word.{laid, packed, unpacked_number, unpacked};
ghost use Rattle.words.specs.Buffer.{pack_words, unpack_words};
ghost use Rattle.c_api.specs.Host.{order_from, answered, kept};

use crate::number::order_of;
use words::buffer::{pack_words, unpack_words};
use words::pack::pack;
use words::unpack::unpack;

#[unsafe(no_mangle)]
pub extern "C" fn lpspi_pack_u8(lsb: bool, bytes: &[u8], word: &mut u32) -> u32
    ensures { answered result word.new
        ≡ kept (packed (order_from lsb) 8 bytes.now) word.old }
{
    let Ok(w) = pack(order_of(lsb), bytes) else {
        return 8;
    };
    *word = w;
    0
}

#[unsafe(no_mangle)]
pub extern "C" fn lpspi_unpack_u8(lsb: bool, word: u32, count: usize, bytes: &mut [u8]) -> u32
    ensures { (result ≡ unpacked_number 8 count)
        × (bytes.new ≡ unpacked (order_from lsb) 8 count word bytes.old) }
{
    let Ok(()) = unpack(word, order_of(lsb), count, bytes) else {
        return 8;
    };
    0
}

#[unsafe(no_mangle)]
pub extern "C" fn lpspi_pack_words_u8(lsb: bool, bytes: &[u8], total: usize, words: &mut [u32])
    ensures { words.new
        ≡ laid (pack_words (order_from lsb) 8 total bytes.now) words.old }
{
    pack_words(order_of(lsb), bytes, total, words);
}

#[unsafe(no_mangle)]
pub extern "C" fn lpspi_unpack_words_u8(lsb: bool, words: &[u32], total: usize, bytes: &mut [u8])
    ensures { bytes.new
        ≡ laid (unpack_words (order_from lsb) 8 total words.now) bytes.old }
{
    unpack_words(order_of(lsb), words, total, bytes);
}
