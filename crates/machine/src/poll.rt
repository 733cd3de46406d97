// One poll of a FIFO: the status, the FIFO sizes, the counts.
ghost use Rattle.std.specs.Prelude.{◌≡◌};
ghost use Rattle.machine.specs.Poll.{poll_access, polled, from_sizes, whole, failed, ready};

use manual::{Field, Fsr, Register, Sr};
use sequences::access::Access;
use sequences::sequence::{depth, too_deep};
use words::transaction::Direction;

// The read that is due; with the counts, what PARAM answered before them. (Data, and not closures, as a transfer's `Stage`.)
#[derive(Clone, Copy)]
pub enum Poll {
    Status,
    Sizes,
    Counts(u32),
}

// What a poll comes to by an answer. Each of the five leads a transfer to another stage, and no caller hands a failure on: as a Result its
// errors would be matched beside the rest.
#[derive(Clone, Copy)]
pub enum Polled {
    Failed,
    // PARAM has an exponent over 4.
    TooDeep,
    Next(Poll),
    Ready,
    Unready,
}

// The direction's error flag is set.
pub fn failed(direction: Direction, status: u32) -> bool
    ensures { result ≡ failed direction status }
{
    match direction {
        Direction::Tx => Field::Sr(Sr::TEF).read(status) == 1,
        Direction::Rx => Field::Sr(Sr::REF).read(status) == 1,
    }
}

// There is space to transmit, or a word to receive.
fn ready(direction: Direction, param: u32, counts: u32) -> bool
    ensures { result ≡ ready direction param counts }
{
    match direction {
        Direction::Tx => Field::Fsr(Fsr::TXCOUNT).read(counts) < depth(Direction::Tx, param),
        Direction::Rx => 0 < Field::Fsr(Fsr::RXCOUNT).read(counts),
    }
}

impl Poll {
    // The access that is due.
    pub(crate) fn access(self) -> Access
        ensures { result ≡ poll_access self }
    {
        match self {
            Poll::Status => Access::Read(Register::SR),
            Poll::Sizes => Access::Read(Register::PARAM),
            Poll::Counts(_) => Access::Read(Register::FSR),
        }
    }

    // What the poll comes to by the answer to it.
    pub(crate) fn answered(self, direction: Direction, value: u32) -> Polled
        ensures { result ≡ polled direction self value }
    {
        match self {
            Poll::Status if failed(direction, value) => Polled::Failed,
            Poll::Status => Polled::Next(Poll::Sizes),
            Poll::Sizes if too_deep(value) => Polled::TooDeep,
            Poll::Sizes => Polled::Next(Poll::Counts(value)),
            Poll::Counts(param) if ready(direction, param, value) => Polled::Ready,
            Poll::Counts(_) => Polled::Unready,
        }
    }
}

// A whole poll from the read of PARAM on.
fn from_sizes(direction: Direction, param: u32, counts: u32) -> Polled
    ensures { result ≡ from_sizes direction param counts }
{
    match Poll::Sizes.answered(direction, param) {
        Polled::Next(_) => Poll::Counts(param).answered(direction, counts),
        settled => settled,
    }
}

// A whole poll, of the answers to its three reads.
pub fn whole(direction: Direction, status: u32, param: u32, counts: u32) -> Polled
    ensures { result ≡ whole direction status param counts }
{
    match Poll::Status.answered(direction, status) {
        Polled::Next(_) => from_sizes(direction, param, counts),
        settled => settled,
    }
}
