// `exchange_separate`: transmit one buffer and receive into the other, of any lengths.
ghost use Rattle.std.specs.Prelude.{◌≡◌};
ghost use Rattle.words.specs.Width.{width_bits};
ghost use Rattle.transfers.specs.Transfers.{transfer_left, exchange_separate};

use crate::begin::Ways;
use crate::entry::{result, transfer};
use runs::drive::Frame;
use runs::result::RunResult;
use sequences::driver::Lpspi;
use words::buffer::{pack_words, unpack_words};
use words::longer::longer;
use words::transaction::Transaction;
use words::word::Word;

pub fn exchange_separate<T: Word>(
    driver: Lpspi,
    read: &mut [T],
    write: &[T],
    budget: usize,
    script: &[u32],
    log: &mut [u32],
) -> RunResult
    ensures { transfer_left result log.new (T.numbers read.new)
        ≡ exchange_separate (width_bits T.width) driver (T.numbers read.old) (T.numbers write.now)
        budget script.now log.old }
{
    let total = longer(&read[..], write).len();
    let order = driver.bit_order();
    let frame = Frame {
        width: T::width(),
        total,
        inplace: false,
    };
    let mut send = [0u32; Transaction::MAX_WORDS];
    let mut words = [0u32; Transaction::MAX_WORDS];
    pack_words(order, write, total, &mut send);
    let driven = transfer(
        driver,
        Ways::Both,
        frame,
        budget,
        script,
        log,
        &send,
        &mut words,
    );
    unpack_words(order, &words[..driven.spot.received], total, read);
    result(driver, driven)
}
