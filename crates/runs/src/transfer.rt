// The run of a transfer over FIFO words.
ghost use Rattle.std.specs.Prelude.{◌≡◌};
ghost use Rattle.runs.specs.Drive.{driven_left, words_run};

use crate::drive::{Driven, Frame, Spot};
use crate::log::limits;
use crate::running::Running;
use machine::transfer::Transfer;
use sequences::access::RunError;

// Number 5, or the run of a transfer from where it stands. `received_words` are the places for the words received.
pub fn run_words(
    transfer: Transfer,
    frame: Frame,
    budget: usize,
    script: &[u32],
    log: &mut [u32],
    sent_words: &[u32],
    received_words: &mut [u32],
) -> Driven
    ensures { driven_left result log.new received_words.new
        ≡ words_run transfer frame budget script.now sent_words.now log.old
        received_words.old }
{
    if limits(budget, log) {
        return Driven {
            ending: Err(RunError::Limits),
            spot: Spot::default(),
        };
    }
    let mut run = Running {
        frame,
        budget,
        script,
        log,
        sent_words,
        received_words,
        spot: Spot::default(),
    };
    // Only for speed: see `fast`.
    let rest = run.ahead(transfer);
    let (ending, _) = run.drive(rest);
    Driven {
        ending,
        spot: run.spot,
    }
}
