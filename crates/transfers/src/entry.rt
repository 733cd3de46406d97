// What all transfers share: the run over FIFO words, whatever the width, and its result.
ghost use Rattle.std.specs.Prelude.{◌≡◌};
ghost use Rattle.runs.specs.Drive.{result_of, driven_left};
ghost use Rattle.transfers.specs.Begin.{words_transfer};

use crate::begin::{Ways, begin};
use runs::drive::{Driven, Frame};
use runs::result::RunResult;
use runs::transfer::run_words;
use sequences::driver::Lpspi;

// A transfer over FIFO words: number 5, empty, FrameSize, or the run.
pub(crate) fn transfer(
    driver: Lpspi,
    ways: Ways,
    frame: Frame,
    budget: usize,
    script: &[u32],
    log: &mut [u32],
    sent_words: &[u32],
    received_words: &mut [u32],
) -> Driven
    ensures { driven_left result log.new received_words.new
        ≡ words_transfer driver ways frame budget script.now sent_words.now log.old
        received_words.old }
{
    let width = frame.width;
    run_words(
        begin(driver, ways, width, frame.total),
        frame,
        budget,
        script,
        log,
        sent_words,
        received_words,
    )
}

pub(crate) fn result(driver: Lpspi, driven: Driven) -> RunResult
    ensures { result ≡ result_of driver driven }
{
    let ending = driven.ending;
    let spot = driven.spot;
    RunResult {
        ending,
        accesses: spot.made,
        answers: spot.used,
        driver,
    }
}
