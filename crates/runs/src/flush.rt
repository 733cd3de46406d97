// `flush`: wait for all ongoing transactions to be finished.
ghost use Rattle.std.specs.Prelude.{◌≡◌, List, ℕ, false, ◌||◌, eqb, min, length};
ghost use Rattle.manual.specs.declared.Field.TheVariants.{Sr as SrField, Fsr as FsrField};
ghost use Rattle.manual.specs.declared.Fsr.TheVariants.{TXCOUNT};
ghost use Rattle.manual.specs.declared.Sr.TheVariants.{MBF};
ghost use Rattle.manual.specs.Manual.{read_field};
ghost use Rattle.sequences.specs.Sequence.{too_deep};
ghost use Rattle.words.specs.declared.transaction.Direction.TheVariants.{Tx, Rx};
ghost use Rattle.machine.specs.declared.flush.Flush.TheVariants.{Status};
ghost use Rattle.machine.specs.Flush.{flush_access, flushed};
ghost use Rattle.machine.specs.Poll.{failed as failed_by};
ghost use Rattle.runs.specs.Run.{left};
ghost use Rattle.runs.specs.Flush.{flush_run};
ghost use Rattle.runs.specs.Flushing.{first_error, FlushRead, FlushEnded};
ghost use Rattle.runs.specs.Running.{Kept, At};

use crate::drive::{NO_WORDS, Spot};
use crate::log::limits;
use crate::result::RunResult;
use crate::running::Running;
use machine::poll::failed;
use manual::{Field, Fsr, Register, Sr};
use sequences::access::{Access, Ending, RunError};
use sequences::driver::Lpspi;
use sequences::sequence::too_deep;
use words::transaction::{Direction, LpspiError};

fn has_error(status: u32) -> bool
    ensures { result ≡ (failed_by Rx status || failed_by Tx status) }
{
    failed(Direction::Rx, status) || failed(Direction::Tx, status)
}

// Receive error, then transmit error. The loop asks for either at once, and which it was when it has ended.
fn error_of(status: u32) -> Ending
    ensures { result ≡ first_error status }
{
    if failed(Direction::Rx, status) {
        return Err(RunError::Driver(LpspiError::Fifo(Direction::Rx)));
    }
    Err(RunError::Driver(LpspiError::Fifo(Direction::Tx)))
}

fn is_busy(status: u32) -> bool
    ensures { result ≡ eqb (read_field (SrField MBF) status) 1 }
{
    Field::Sr(Sr::MBF).read(status) == 1
}

// No word is left to send.
fn is_empty(counts: u32) -> bool
    ensures { result ≡ eqb (read_field (FsrField TXCOUNT) counts) 0 }
{
    Field::Fsr(Fsr::TXCOUNT).read(counts) == 0
}

// PARAM has an exponent over 4. A peripheral answers it as before, so the answer before, which had none, is asked first: one test a poll.
fn is_deep(param: u32, fit: u32) -> bool
    ensures { too_deep fit ≡ false → result ≡ too_deep param }
{
    if param == fit {
        return false;
    }
    too_deep(param)
}

impl Running<'_> {
    // What a register reads. None at the end of budget or script: every access of a flush is a read, so that as many answers were used as
    // accesses made.
    #[inline(always)]
    fn read(&mut self, end: usize, register: Register) -> Option<u32>
        requires reads { self.old.spot.used ≡ self.old.spot.made }
        requires end { end ≡ min self.old.budget (length self.old.script.now) }
        ensures kept { Kept self.old self.new }
        ensures looked { FlushRead register self.old self.new result }
    {
        if end <= self.spot.made {
            return None;
        }
        let value = self.script[self.spot.made];
        Some(self.make(Access::Read(register), value))
    }

    // One polling loop: it yields either error, 7, Ok, or Stopped where budget or script is used up before a read.
    #[inline(always)]
    fn flush(&mut self) -> Ending
        requires reads { self.old.spot.used ≡ self.old.spot.made }
        ensures kept { Kept self.old self.new }
        ensures reads { self.new.spot.used ≡ self.new.spot.made }
        ensures ended { (old olds : List ℕ) → At flush_access flushed old olds Status Status self.old
            → FlushEnded old olds result self.new }
    {
        let end = self.budget.min(self.script.len());
        let mut fit: u32 = 0;
        loop {
            let Some(status) = self.read(end, Register::SR) else {
                break Err(RunError::Stopped);
            };
            if has_error(status) {
                break error_of(status);
            }
            if is_busy(status) {
                continue;
            }
            let Some(param) = self.read(end, Register::PARAM) else {
                break Err(RunError::Stopped);
            };
            if is_deep(param, fit) {
                break Err(RunError::FifoExponent);
            }
            fit = param;
            let Some(counts) = self.read(end, Register::FSR) else {
                break Err(RunError::Stopped);
            };
            if is_empty(counts) {
                break Ok(());
            }
        }
    }
}

pub fn flush(driver: Lpspi, budget: usize, script: &[u32], log: &mut [u32]) -> RunResult
    ensures { left result log.new ≡ flush_run driver budget script.now log.old }
{
    if limits(budget, log) {
        return RunResult::unmoved(driver, Err(RunError::Limits));
    }
    let mut run = Running {
        frame: NO_WORDS,
        budget,
        script,
        log,
        sent_words: &[],
        received_words: &mut [],
        spot: Spot::default(),
    };
    let ending = run.flush();
    RunResult {
        ending,
        accesses: run.spot.made,
        answers: run.spot.made,
        driver,
    }
}
