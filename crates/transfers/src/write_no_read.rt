// `write_no_read`: transmit a buffer and discard what is received.
ghost use Rattle.std.specs.Prelude.{◌≡◌, []};
ghost use Rattle.words.specs.Width.{width_bits};
ghost use Rattle.transfers.specs.Transfers.{transfer_left, write_no_read};

use crate::begin::Ways;
use crate::entry::{result, transfer};
use runs::drive::Frame;
use runs::result::RunResult;
use sequences::driver::Lpspi;
use words::buffer::pack_words;
use words::transaction::Transaction;
use words::word::Word;

pub fn write_no_read<T: Word>(
    driver: Lpspi,
    buf: &[T],
    budget: usize,
    script: &[u32],
    log: &mut [u32],
) -> RunResult
    ensures { transfer_left result log.new []
        ≡ write_no_read (width_bits T.width) driver (T.numbers buf.now) budget script.now log.old }
{
    let total = buf.len();
    let order = driver.bit_order();
    let frame = Frame {
        width: T::width(),
        total,
        inplace: false,
    };
    let mut send = [0u32; Transaction::MAX_WORDS];
    pack_words(order, buf, total, &mut send);
    let driven = transfer(
        driver,
        Ways::Sends,
        frame,
        budget,
        script,
        log,
        &send,
        &mut [],
    );
    result(driver, driven)
}
