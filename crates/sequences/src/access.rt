// A register access that is due, and how a run ends.
ghost use Rattle.std.specs.Prelude.{◌≡◌};
ghost use Rattle.sequences.specs.declared.access.RunError.TheVariants.{Driver};
ghost use Rattle.sequences.specs.Access.{run_error_number, number_of};

use manual::Register;
use words::transaction::{Direction, LpspiError};

// Why a run did not end well.
#[derive(Clone, Copy)]
pub enum RunError {
    Driver(LpspiError),
    // The budget or the script is used up.
    Stopped,
    // The budget is over 8,000, or the log is shorter than twice the budget.
    Limits,
    ZeroClock,
    // PARAM has a FIFO exponent over 4.
    FifoExponent,
}

// How a run ends, for every kind of run.
pub type Ending = Result<(), RunError>;

impl RunError {
    // Document 01's number.
    pub fn number(self) -> u32
        ensures { result ≡ run_error_number self }
    {
        match self {
            RunError::Driver(LpspiError::FrameSize) => 1,
            RunError::Driver(LpspiError::Fifo(Direction::Rx)) => 2,
            RunError::Driver(LpspiError::Fifo(Direction::Tx)) => 3,
            RunError::Stopped => 4,
            RunError::Limits => 5,
            RunError::ZeroClock => 6,
            RunError::FifoExponent => 7,
        }
    }
}

impl From<LpspiError> for RunError {
    ghost from_gives = { λ e r. r ≡ Driver e };

    fn from(e: LpspiError) -> Self {
        RunError::Driver(e)
    }
}

// Document 01's number of an ending.
pub fn ending_number(ending: Ending) -> u32
    ensures { result ≡ number_of ending }
{
    match ending {
        Ok(()) => 0,
        Err(e) => e.number(),
    }
}

// What is due: `Send` writes TDR and `Receive` reads RDR, with the place of the FIFO word in its transfer.
#[derive(Clone, Copy)]
pub enum Access {
    Read(Register),
    Write(Register, u32),
    Send(usize),
    Receive(usize),
    Done(Ending),
}
