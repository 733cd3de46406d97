// The run of a call over its table of moves.
ghost use Rattle.std.specs.Prelude.{◌≡◌};
ghost use Rattle.runs.specs.Call.{call_left, call_run};

use crate::drive::{NO_WORDS, Spot};
use crate::log::limits;
use crate::run::Machine;
use crate::running::Running;
use sequences::access::{Access, Ending, RunError};
use sequences::call::Call;
use sequences::driver::Lpspi;
use sequences::sequence::Sequence;

// What a call comes to; the sequence has the registers that it read and the driver value, so that this is not yet a `RunResult`.
#[derive(Clone, Copy)]
pub struct Called {
    pub ending: Ending,
    pub accesses: usize,
    pub answers: usize,
    pub sequence: Sequence,
}

// A call, where its sequence stands.
#[derive(Clone, Copy)]
struct Calling {
    call: Call,
    sequence: Sequence,
}

impl Machine for Calling {
    ghost use Rattle.sequences.specs.Call.{call_access, call_after};

    ghost due = { λ c. call_access c.call c.sequence };

    ghost after = { λ c v. record { call = c.call; sequence = call_after c.call c.sequence v } };

    fn next(self) -> Access {
        self.call.next(self.sequence)
    }

    fn answered(self, value: u32) -> Self {
        Calling {
            call: self.call,
            sequence: self.call.answered(self.sequence, value),
        }
    }
}

// Number 5 with the driver value as it was, or the run.
pub fn run_call(driver: Lpspi, call: Call, budget: usize, script: &[u32], log: &mut [u32]) -> Called
    ensures { call_left result log.new
        ≡ call_run driver call budget script.now log.old }
{
    if limits(budget, log) {
        return Called {
            ending: Err(RunError::Limits),
            accesses: 0,
            answers: 0,
            sequence: Sequence::start(driver),
        };
    }
    let mut run = Running {
        frame: NO_WORDS,
        budget,
        script,
        log,
        sent_words: &[],
        received_words: &mut [],
        spot: Spot::default(),
    };
    let first = Calling {
        call,
        sequence: call.start(driver),
    };
    let (ending, last) = run.drive(first);
    Called {
        ending,
        accesses: run.spot.made,
        answers: run.spot.used,
        sequence: last.sequence,
    }
}
