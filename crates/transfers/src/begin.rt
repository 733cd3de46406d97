// What a transfer begins as: empty test, frame size, or the start.
ghost use Rattle.std.specs.Prelude.{◌≡◌};
ghost use Rattle.words.specs.Width.{width_bits};
ghost use Rattle.transfers.specs.Transfers.{begun};
ghost use Rattle.transfers.specs.Begin.{sends_of, receives_of, masked_by, length_plan};

use machine::transfer::Transfer;
use sequences::access::RunError;
use sequences::driver::Lpspi;
use words::transaction::{LpspiError, Transaction};
use words::width::Width;

// The sides that a transfer has.
#[derive(Clone, Copy)]
pub enum Ways {
    Both,
    Sends,
    Receives,
}

impl Ways {
    // The words to send, of n each way.
    fn sends(self, n: usize) -> usize
        ensures { result ≡ sends_of self n }
    {
        match self {
            Ways::Both => n,
            Ways::Sends => n,
            Ways::Receives => 0,
        }
    }

    // The words to receive.
    fn receives(self, n: usize) -> usize
        ensures { result ≡ receives_of self n }
    {
        match self {
            Ways::Both => n,
            Ways::Sends => 0,
            Ways::Receives => n,
        }
    }

    // The command, with the other side masked.
    fn command(self, transaction: Transaction) -> Transaction
        ensures { result.0 ≡ masked_by self transaction.0 }
    {
        match self {
            Ways::Both => transaction,
            Ways::Sends => transaction.with_receive_data_mask(true),
            Ways::Receives => transaction.with_transmit_data_mask(true),
        }
    }
}

// A transfer of `total` elements. An empty or a refused one has ended: it makes no access.
pub fn begin(driver: Lpspi, ways: Ways, width: Width, total: usize) -> Transfer
    ensures { result ≡ begun (width_bits width) driver (length_plan (width_bits width) ways total) }
{
    if total == 0 {
        return Transfer::ended(driver, Ok(()));
    }
    let Ok(transaction) = Transaction::new_elements(width, total) else {
        return Transfer::ended(driver, Err(RunError::Driver(LpspiError::FrameSize)));
    };
    let n = width.word_count(total);
    Transfer::start(
        driver,
        ways.command(driver.bus_transaction(transaction)),
        ways.sends(n),
        ways.receives(n),
    )
}
