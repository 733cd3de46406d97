// The run of a machine over a script, an access at a time, with the FIFO words of a transfer.
ghost use Rattle.std.specs.Prelude.{◌≡◌, length, get_or, set};
ghost use Rattle.machine.specs.Transfer.{counted};
ghost use Rattle.runs.specs.Drive.{word_in, got_after, words_after};

use sequences::access::{Access, Ending};
use words::buffer::cut_word;
use words::width::Width;

// The elements behind the words: their width and total count. In place, a word that was received is sent as received.
#[derive(Clone, Copy)]
pub struct Frame {
    pub width: Width,
    pub total: usize,
    pub inplace: bool,
}

// Of a machine that sends no FIFO word of a transfer, and receives none.
pub(crate) const NO_WORDS: Frame = Frame {
    width: Width::U32,
    total: 0,
    inplace: false,
};

// How far a run has come: accesses made, answers used, words received.
#[derive(Clone, Copy, Default)]
pub struct Spot {
    pub made: usize,
    pub used: usize,
    pub received: usize,
}

// What a run over FIFO words comes to: no driver value is in it, since none is changed.
#[derive(Clone, Copy)]
pub struct Driven {
    pub ending: Ending,
    pub spot: Spot,
}

// The number at a place; past the end 0.
pub(crate) fn at(numbers: &[u32], i: usize) -> u32
    ensures { result ≡ get_or numbers.now i 0 }
{
    numbers.get(i).copied().unwrap_or(0)
}

// The word that is sent from a place: as it was packed at the start, or, in place, as it was received there, cut to its elements.
pub fn word_in(
    frame: Frame,
    sent_words: &[u32],
    received_words: &[u32],
    received: usize,
    i: usize,
) -> u32
    ensures { result ≡ word_in frame sent_words.now received_words.now received i }
{
    if frame.inplace && i < received {
        return cut_word(frame.width, frame.total, i, at(received_words, i));
    }
    at(sent_words, i)
}

// A received word is stored after those before it. The words that are stored then.
fn store(received_words: &mut [u32], received: usize, value: u32) -> usize
    ensures { (result ≡ counted received (length received_words.old))
        × (received_words.new ≡ set received_words.old received value) }
{
    if received < received_words.len() {
        received_words[received] = value;
        received + 1
    } else {
        received
    }
}

// What an access received is stored. The words that are stored then.
pub fn keep(access: Access, received_words: &mut [u32], received: usize, value: u32) -> usize
    ensures { (result ≡ got_after access received (length received_words.old))
        × (received_words.new ≡ words_after access received_words.old received value) }
{
    match access {
        Access::Receive(_) => store(received_words, received, value),
        Access::Read(_) | Access::Write(_, _) | Access::Send(_) | Access::Done(_) => received,
    }
}
