// Runs over a script: the number of the result, with the next driver value, the accesses made and the answers used where they go.
// The C interface: a function for each width, transfers and refusals by number, parameters one by one.
ghost use Rattle.std.specs.Prelude.{◌≡◌, []};
ghost use Rattle.words.specs.Width.{width_bits};
ghost use Rattle.transfers.specs.Transfers.{transfer_left};
ghost use Rattle.runs.specs.Flush.{flush_run};
ghost use Rattle.c_api.specs.HostRun.{driver_of, host_left, of_transfer, of_call, transfer_by};

use crate::driver::hand_back;
use crate::number::Number;
use runs::flush::flush;
use runs::result::RunResult;
use sequences::driver::Lpspi;
use transfers::exchange::exchange;
use transfers::exchange_separate::exchange_separate;
use transfers::read_no_write::read_no_write;
use transfers::write_no_read::write_no_read;
use words::word::Word;

// The transfer of that number.
fn transfer<T: Word>(
    kind: u32,
    driver: Lpspi,
    read: &mut [T],
    write: &[T],
    budget: usize,
    script: &[u32],
    log: &mut [u32],
) -> RunResult
    ensures { transfer_left result log.new (T.numbers read.new)
        ≡ transfer_by kind (width_bits T.width) driver (T.numbers read.old) (T.numbers write.now)
        budget script.now log.old }
{
    match kind % 4 {
        0 => exchange_separate(driver, read, write, budget, script, log),
        1 => exchange(driver, read, budget, script, log),
        2 => write_no_read(driver, write, budget, script, log),
        _ => read_no_write(driver, read, budget, script, log),
    }
}

#[unsafe(no_mangle)]
pub extern "C" fn lpspi_transfer_u8(
    kind: u32,
    driver: &mut u32,
    read: &mut [u8],
    write: &[u8],
    budget: usize,
    script: &[u32],
    log: &mut [u32],
    accesses: &mut usize,
    answers: &mut usize,
) -> u32
    ensures { host_left result driver.new accesses.new answers.new
        log.new read.new
        ≡ of_transfer driver.old
        (transfer_by kind 8 (driver_of driver.old) read.old write.now
        budget script.now log.old) }
{
    let r = transfer(
        kind,
        Number(*driver).into(),
        read,
        write,
        budget,
        script,
        log,
    );
    hand_back(r, driver, accesses, answers)
}

#[unsafe(no_mangle)]
pub extern "C" fn lpspi_transfer_u16(
    kind: u32,
    driver: &mut u32,
    read: &mut [u16],
    write: &[u16],
    budget: usize,
    script: &[u32],
    log: &mut [u32],
    accesses: &mut usize,
    answers: &mut usize,
) -> u32
    ensures { host_left result driver.new accesses.new answers.new
        log.new read.new
        ≡ of_transfer driver.old
        (transfer_by kind 16 (driver_of driver.old) read.old write.now
        budget script.now log.old) }
{
    let r = transfer(
        kind,
        Number(*driver).into(),
        read,
        write,
        budget,
        script,
        log,
    );
    hand_back(r, driver, accesses, answers)
}

#[unsafe(no_mangle)]
pub extern "C" fn lpspi_transfer_u32(
    kind: u32,
    driver: &mut u32,
    read: &mut [u32],
    write: &[u32],
    budget: usize,
    script: &[u32],
    log: &mut [u32],
    accesses: &mut usize,
    answers: &mut usize,
) -> u32
    ensures { host_left result driver.new accesses.new answers.new
        log.new read.new
        ≡ of_transfer driver.old
        (transfer_by kind 32 (driver_of driver.old) read.old write.now
        budget script.now log.old) }
{
    let r = transfer(
        kind,
        Number(*driver).into(),
        read,
        write,
        budget,
        script,
        log,
    );
    hand_back(r, driver, accesses, answers)
}

#[unsafe(no_mangle)]
pub extern "C" fn lpspi_flush(
    driver: &mut u32,
    budget: usize,
    script: &[u32],
    log: &mut [u32],
    accesses: &mut usize,
    answers: &mut usize,
) -> u32
    ensures { host_left result driver.new accesses.new answers.new log.new []
        ≡ of_call driver.old
        (flush_run (driver_of driver.old) budget script.now log.old) }
{
    let d = Number(*driver).into();
    let r = flush(d, budget, script, log);
    hand_back(r, driver, accesses, answers)
}
