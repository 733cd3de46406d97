// `read_no_write`: receive into a buffer and send nothing.
ghost use Rattle.std.specs.Prelude.{◌≡◌};
ghost use Rattle.words.specs.Width.{width_bits};
ghost use Rattle.transfers.specs.Transfers.{transfer_left, read_no_write};

use crate::begin::Ways;
use crate::entry::{result, transfer};
use runs::drive::Frame;
use runs::result::RunResult;
use sequences::driver::Lpspi;
use words::buffer::unpack_words;
use words::transaction::Transaction;
use words::word::Word;

pub fn read_no_write<T: Word>(
    driver: Lpspi,
    buf: &mut [T],
    budget: usize,
    script: &[u32],
    log: &mut [u32],
) -> RunResult
    ensures { transfer_left result log.new (T.numbers buf.new)
        ≡ read_no_write (width_bits T.width) driver (T.numbers buf.old) budget script.now log.old }
{
    let total = buf.len();
    let order = driver.bit_order();
    let frame = Frame {
        width: T::width(),
        total,
        inplace: false,
    };
    let mut words = [0u32; Transaction::MAX_WORDS];
    let driven = transfer(
        driver,
        Ways::Receives,
        frame,
        budget,
        script,
        log,
        &[],
        &mut words,
    );
    unpack_words(order, &words[..driven.spot.received], total, buf);
    result(driver, driven)
}
