// The machine of a flush.
ghost use Rattle.std.specs.Prelude.{◌≡◌};
ghost use Rattle.machine.specs.Flush.{flush_access, flushed};

use manual::{Field, Fsr, Register, Sr};
use sequences::access::{Access, Ending, RunError};
use sequences::sequence::too_deep;
use words::transaction::{Direction, LpspiError};

// Where a flush stands: the read that is due, or its end. (Data, and not closures, as a transfer's `Stage`.)
#[derive(Clone, Copy)]
pub enum Flush {
    Status,
    Sizes,
    Counts,
    Ended(Ending),
}

fn after_status(status: u32) -> Flush
    ensures { result ≡ flushed Flush.Status status }
{
    if Field::Sr(Sr::REF).read(status) == 1 {
        return Flush::Ended(Err(LpspiError::Fifo(Direction::Rx).into()));
    }
    if Field::Sr(Sr::TEF).read(status) == 1 {
        return Flush::Ended(Err(LpspiError::Fifo(Direction::Tx).into()));
    }
    if Field::Sr(Sr::MBF).read(status) == 1 {
        return Flush::Status;
    }
    Flush::Sizes
}

fn after_sizes(param: u32) -> Flush
    ensures { result ≡ flushed Flush.Sizes param }
{
    if too_deep(param) {
        return Flush::Ended(Err(RunError::FifoExponent));
    }
    Flush::Counts
}

fn after_counts(counts: u32) -> Flush
    ensures { result ≡ flushed Flush.Counts counts }
{
    if Field::Fsr(Fsr::TXCOUNT).read(counts) == 0 {
        return Flush::Ended(Ok(()));
    }
    Flush::Status
}

impl Flush {
    pub fn new() -> Self
        ensures { result ≡ Flush.Status }
    {
        Flush::Status
    }

    // The access that is due.
    pub fn next(self) -> Access
        ensures { result ≡ flush_access self }
    {
        match self {
            Flush::Status => Access::Read(Register::SR),
            Flush::Sizes => Access::Read(Register::PARAM),
            Flush::Counts => Access::Read(Register::FSR),
            Flush::Ended(e) => Access::Done(e),
        }
    }

    // The flush after that access, which answered `value`.
    pub fn answered(self, value: u32) -> Self
        ensures { result ≡ flushed self value }
    {
        match self {
            Flush::Status => after_status(value),
            Flush::Sizes => after_sizes(value),
            Flush::Counts => after_counts(value),
            Flush::Ended(e) => Flush::Ended(e),
        }
    }
}
