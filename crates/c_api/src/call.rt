// The other calls over a script, by number: the number of the result, with the next driver value, the accesses made and the answers used
// where they go. The C interface: calls and refusals are numbers, and parameters stand one by one.
ghost use Rattle.std.specs.Prelude.{◌≡◌, []};
ghost use Rattle.runs.specs.Run.{left};
ghost use Rattle.calls.specs.Calls.{value_left};
ghost use Rattle.c_api.specs.HostRun.{driver_of, host_left, of_call};
ghost use Rattle.c_api.specs.HostCall.{fifo_number, word_number};
ghost use Rattle.c_api.specs.HostCall.{enqueue_by, reset_by, set_by, disabled_by, get_by, host_value, of_answered};

use crate::command::command_of;
use crate::driver::hand_back;
use crate::number::Number;
use calls::data::{enqueue_data, enqueue_transaction, read_data};
use calls::disabled::{
    set_chip_select_polarity, set_clock_configs, set_clock_hz, set_peripheral_enable,
    set_sample_point,
};
use calls::fifo::{clear_fifo, fifo_status, set_watermark, watermark};
use calls::reset::{init, recover_from_error, soft_reset};
use calls::results::{Answered, FifoStatus};
use calls::status::{clear_status, is_enabled, set_enable, status};
use runs::log::limits;
use runs::result::RunResult;
use sequences::access::RunError;
use sequences::driver::Lpspi;
use sequences::status::Status;
use words::transaction::LpspiError;

fn reset(kind: u32, driver: Lpspi, budget: usize, script: &[u32], log: &mut [u32]) -> RunResult
    ensures { left result log.new ≡ reset_by driver budget script.now log.old kind }
{
    match kind % 3 {
        0 => soft_reset(driver, budget, script, log),
        1 => recover_from_error(driver, budget, script, log),
        _ => init(driver, budget, script, log),
    }
}

// A command of that frame size with the driver's order, mode and chip select. Number 5 comes before number 1.
fn enqueue(
    frame_size: u32,
    driver: Lpspi,
    budget: usize,
    script: &[u32],
    log: &mut [u32],
) -> RunResult
    ensures { left result log.new
        ≡ enqueue_by driver budget script.now log.old frame_size }
{
    if limits(budget, log) {
        return RunResult::unmoved(driver, Err(RunError::Limits));
    }
    let Ok(command) = command_of(frame_size) else {
        return RunResult::unmoved(driver, Err(RunError::Driver(LpspiError::FrameSize)));
    };
    enqueue_transaction(driver, driver.bus_transaction(command), budget, script, log)
}

fn set(
    kind: u32,
    a: Number,
    driver: Lpspi,
    budget: usize,
    script: &[u32],
    log: &mut [u32],
) -> RunResult
    ensures { left result log.new ≡ set_by driver budget script.now log.old kind a.0 }
{
    match kind % 5 {
        0 => clear_status(driver, Status::from_bits_truncate(a.0), budget, script, log),
        1 => set_enable(driver, a.into(), budget, script, log),
        2 => clear_fifo(driver, a.into(), budget, script, log),
        3 => enqueue_data(driver, a.0, budget, script, log),
        _ => enqueue(a.0, driver, budget, script, log),
    }
}

fn disabled(
    kind: u32,
    a: Number,
    b: Number,
    driver: Lpspi,
    budget: usize,
    script: &[u32],
    log: &mut [u32],
) -> RunResult
    ensures { left result log.new
        ≡ disabled_by driver budget script.now log.old kind a.0 b.0 }
{
    match kind % 5 {
        0 => set_clock_hz(driver, a.0, b.0, budget, script, log),
        1 => set_clock_configs(driver, a.into(), budget, script, log),
        2 => set_sample_point(driver, a.into(), budget, script, log),
        3 => set_peripheral_enable(driver, a.into(), budget, script, log),
        _ => set_chip_select_polarity(driver, a.into(), b.into(), budget, script, log),
    }
}

// The C interface: a host's word.
fn fifo_number(f: FifoStatus) -> u64
    ensures { result ≡ fifo_number f }
{
    ((f.txcap as u64 * 0x1_0000 + f.rxcap as u64) * 0x1_0000 + f.txcount as u64) * 0x1_0000
        + f.rxcount as u64
}

// The C interface: a host's word.
fn word_number(word: Option<u32>) -> u64
    ensures { result ≡ word_number word }
{
    match word {
        Some(w) => 0x1_0000_0000 + w as u64,
        None => 0,
    }
}

// The same run, with its value as a number.
fn numbered<T, F: FnOnce(T) -> u64>(answered: Answered<T>, number: F) -> Answered<u64>
    requires { F.pre number answered.value }
    ensures run { result.result ≡ answered.result }
    ensures value { F.post number answered.value result.value }
{
    Answered {
        result: answered.result,
        value: number(answered.value),
    }
}

// The call's value as a number.
fn get(
    kind: u32,
    a: Number,
    b: u32,
    driver: Lpspi,
    budget: usize,
    script: &[u32],
    log: &mut [u32],
) -> Answered<u64>
    ensures { value_left result.result result.value log.new
        ≡ get_by driver budget script.now log.old kind a.0 b }
{
    match kind % 6 {
        0 => numbered(watermark(driver, a.into(), budget, script, log), u64::from),
        1 => numbered(
            set_watermark(driver, a.into(), (b % 256) as u8, budget, script, log),
            u64::from,
        ),
        2 => numbered(
            status(driver, budget, script, log),
            |flags| flags.bits().into(),
        ),
        3 => numbered(is_enabled(driver, budget, script, log), u64::from),
        4 => numbered(fifo_status(driver, budget, script, log), fifo_number),
        _ => numbered(read_data(driver, budget, script, log), word_number),
    }
}

#[unsafe(no_mangle)]
pub extern "C" fn lpspi_reset(
    kind: u32,
    driver: &mut u32,
    budget: usize,
    script: &[u32],
    log: &mut [u32],
    accesses: &mut usize,
    answers: &mut usize,
) -> u32
    ensures { host_left result driver.new accesses.new answers.new log.new []
        ≡ of_call driver.old
        (reset_by (driver_of driver.old) budget script.now log.old kind) }
{
    let d = Number(*driver).into();
    let r = reset(kind, d, budget, script, log);
    hand_back(r, driver, accesses, answers)
}

#[unsafe(no_mangle)]
pub extern "C" fn lpspi_set(
    kind: u32,
    a: u32,
    driver: &mut u32,
    budget: usize,
    script: &[u32],
    log: &mut [u32],
    accesses: &mut usize,
    answers: &mut usize,
) -> u32
    ensures { host_left result driver.new accesses.new answers.new log.new []
        ≡ of_call driver.old
        (set_by (driver_of driver.old) budget script.now log.old kind a) }
{
    let d = Number(*driver).into();
    let r = set(kind, Number(a), d, budget, script, log);
    hand_back(r, driver, accesses, answers)
}

#[unsafe(no_mangle)]
pub extern "C" fn lpspi_disabled(
    kind: u32,
    a: u32,
    b: u32,
    driver: &mut u32,
    budget: usize,
    script: &[u32],
    log: &mut [u32],
    accesses: &mut usize,
    answers: &mut usize,
) -> u32
    ensures { host_left result driver.new accesses.new answers.new log.new []
        ≡ of_call driver.old
        (disabled_by (driver_of driver.old) budget script.now log.old kind a b) }
{
    let d = Number(*driver).into();
    let r = disabled(kind, Number(a), Number(b), d, budget, script, log);
    hand_back(r, driver, accesses, answers)
}

// With the call's value as a number.
#[unsafe(no_mangle)]
pub extern "C" fn lpspi_get(
    kind: u32,
    a: u32,
    b: u32,
    driver: &mut u32,
    budget: usize,
    script: &[u32],
    log: &mut [u32],
    accesses: &mut usize,
    answers: &mut usize,
    value: &mut u64,
) -> u32
    ensures { host_value result driver.new accesses.new answers.new
        value.new log.new
        ≡ of_answered driver.old
        (get_by (driver_of driver.old) budget script.now log.old kind a b) }
{
    let d = Number(*driver).into();
    let got = get(kind, Number(a), b, d, budget, script, log);
    *value = got.value;
    hand_back(got.result, driver, accesses, answers)
}
