// `exchange`: transmit a buffer and receive into it.
ghost use Rattle.std.specs.Prelude.{◌≡◌};
ghost use Rattle.words.specs.Width.{width_bits};
ghost use Rattle.transfers.specs.Transfers.{transfer_left, exchange};

use crate::begin::Ways;
use crate::entry::{result, transfer};
use runs::drive::Frame;
use runs::result::RunResult;
use sequences::driver::Lpspi;
use words::buffer::{pack_words, unpack_words};
use words::transaction::Transaction;
use words::word::Word;

pub fn exchange<T: Word>(
    driver: Lpspi,
    buf: &mut [T],
    budget: usize,
    script: &[u32],
    log: &mut [u32],
) -> RunResult
    ensures { transfer_left result log.new (T.numbers buf.new)
        ≡ exchange (width_bits T.width) driver (T.numbers buf.old) budget script.now log.old }
{
    let total = buf.len();
    let order = driver.bit_order();
    let frame = Frame {
        width: T::width(),
        total,
        inplace: true,
    };
    let mut send = [0u32; Transaction::MAX_WORDS];
    let mut words = [0u32; Transaction::MAX_WORDS];
    pack_words(order, buf, total, &mut send);
    let driven = transfer(
        driver,
        Ways::Both,
        frame,
        budget,
        script,
        log,
        &send,
        &mut words,
    );
    unpack_words(order, &words[..driven.spot.received], total, buf);
    result(driver, driven)
}
