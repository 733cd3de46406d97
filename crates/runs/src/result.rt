// What a run answers beside its log and buffers.
ghost use Rattle.std.specs.Prelude.{◌≡◌};
ghost use Rattle.runs.specs.Run.{unmoved};
ghost use Rattle.runs.specs.Call.{called_result};

use crate::call::Called;
use sequences::access::Ending;
use sequences::driver::Lpspi;

#[derive(Clone, Copy)]
pub struct RunResult {
    pub ending: Ending,
    // Accesses made: the log's length in pairs.
    pub accesses: usize,
    // Answers of the script used.
    pub answers: usize,
    pub driver: Lpspi,
}

impl RunResult {
    // Of a call that made no access.
    pub fn unmoved(driver: Lpspi, ending: Ending) -> Self
        ensures { result ≡ unmoved driver ending }
    {
        RunResult {
            ending,
            accesses: 0,
            answers: 0,
            driver,
        }
    }
}

// Of a call, with the driver value that its sequence holds.
impl From<Called> for RunResult {
    ghost from_gives = { λ called r. r ≡ called_result called };

    fn from(called: Called) -> Self {
        RunResult {
            ending: called.ending,
            accesses: called.accesses,
            answers: called.answers,
            driver: called.sequence.driver(),
        }
    }
}
