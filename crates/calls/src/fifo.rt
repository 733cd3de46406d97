// The FIFOs.
ghost use Rattle.std.specs.Prelude.{◌≡◌};
ghost use Rattle.sequences.specs.declared.call.Call.TheVariants.{GetWatermark, SetWatermark, ClearFifo, GetFifoStatus};
ghost use Rattle.runs.specs.Run.{left};
ghost use Rattle.runs.specs.Call.{call_run};
ghost use Rattle.calls.specs.Calls.{ran_call, value_left, valued};
ghost use Rattle.calls.specs.Values.{watermark_in, level_in, fifo_status, fifo_in, no_fifo};

use crate::results::{Answered, FifoStatus};
use manual::{Field, Fsr, Register};
use runs::call::run_call;
use runs::result::RunResult;
use sequences::call::Call;
use sequences::driver::Lpspi;
use sequences::sequence::{depth, level, water};
use words::transaction::Direction;

// The direction's watermark.
pub fn watermark(
    driver: Lpspi,
    direction: Direction,
    budget: usize,
    script: &[u32],
    log: &mut [u32],
) -> Answered<u8>
    ensures { value_left result.result result.value log.new
        ≡ valued (watermark_in direction) 0
        (call_run driver GetWatermark budget script.now log.old) }
{
    let called = run_call(driver, Call::GetWatermark, budget, script, log);
    Answered::new(called, 0, |s| water(direction).read(s.held()) as u8)
}

// Set the direction's watermark. The level is the one that was set.
pub fn set_watermark(
    driver: Lpspi,
    direction: Direction,
    watermark: u8,
    budget: usize,
    script: &[u32],
    log: &mut [u32],
) -> Answered<u8>
    ensures { value_left result.result result.value log.new
        ≡ valued (level_in direction watermark) 0
        (call_run driver (SetWatermark direction watermark) budget script.now log.old) }
{
    let set = Call::SetWatermark(direction, watermark);
    let called = run_call(driver, set, budget, script, log);
    Answered::new(
        called,
        0,
        |s| level(direction, watermark, s.kept(Register::PARAM)) as u8,
    )
}

pub fn clear_fifo(
    driver: Lpspi,
    direction: Direction,
    budget: usize,
    script: &[u32],
    log: &mut [u32],
) -> RunResult
    ensures { left result log.new
        ≡ ran_call (call_run driver (ClearFifo direction) budget script.now log.old) }
{
    run_call(driver, Call::ClearFifo(direction), budget, script, log).into()
}

fn fifo(param: u32, counts: u32) -> FifoStatus
    ensures { result ≡ fifo_status param counts }
{
    FifoStatus {
        rxcount: Field::Fsr(Fsr::RXCOUNT).read(counts) as u16,
        txcount: Field::Fsr(Fsr::TXCOUNT).read(counts) as u16,
        rxcap: depth(Direction::Rx, param) as u16,
        txcap: depth(Direction::Tx, param) as u16,
    }
}

// The counts and depths of the FIFOs.
pub fn fifo_status(
    driver: Lpspi,
    budget: usize,
    script: &[u32],
    log: &mut [u32],
) -> Answered<FifoStatus>
    ensures { value_left result.result result.value log.new
        ≡ valued fifo_in no_fifo (call_run driver GetFifoStatus budget script.now log.old) }
{
    let called = run_call(driver, Call::GetFifoStatus, budget, script, log);
    Answered::new(
        called,
        FifoStatus::default(),
        |s| fifo(s.kept(Register::PARAM), s.held()),
    )
}
