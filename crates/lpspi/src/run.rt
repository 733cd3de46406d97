// Calls over a script: transfers, flush, and the others.
use crate::line::{LOG, Line};
use crate::names::{Command, Run};
use crate::{elements, print, result};
use calls::{data, disabled, fifo, reset, status};
use runs::flush::flush;
use runs::log::limits;
use runs::result::RunResult;
use sequences::access::RunError;
use sequences::status::Status;
use std::io;

// A command goes out as it is: the driver's order, mode and chip select are not put into it. A frame size that is refused is number 1.
fn enqueue(command: Command, line: &Line, log: &mut [u32]) -> RunResult {
    if limits(line.budget, log) {
        return RunResult::unmoved(line.driver, Err(RunError::Limits));
    }
    match command.transaction() {
        Ok(t) => {
            let script = line.script;
            data::enqueue_transaction(line.driver, t, line.budget, script, log)
        }
        Err(e) => RunResult::unmoved(line.driver, Err(e.into())),
    }
}

fn access(out: &impl Print, call: Run, line: &Line, log: &mut [u32]) -> io::Result<()> {
    let (driver, budget, script) = (line.driver, line.budget, line.script);
    let r = match call {
        Run::Transfer(width, call) => {
            return elements::transfer(out, width, call, line, log);
        }
        Run::Flush => flush(driver, budget, script, log),
        Run::SoftReset => reset::soft_reset(driver, budget, script, log),
        Run::RecoverFromError => reset::recover_from_error(driver, budget, script, log),
        Run::Init => reset::init(driver, budget, script, log),
        Run::ReadData => {
            let r = data::read_data(driver, budget, script, log);
            return result::answered(out, r, log);
        }
        Run::EnqueueData(word) => data::enqueue_data(driver, word, budget, script, log),
        Run::EnqueueTransaction(command) => enqueue(command, line, log),
        Run::Status => {
            let r = status::status(driver, budget, script, log);
            return result::answered(out, r, log);
        }
        Run::ClearStatus(bits) => {
            let flags = Status::from_bits_truncate(bits);
            status::clear_status(driver, flags, budget, script, log)
        }
        Run::IsEnabled => {
            let r = status::is_enabled(driver, budget, script, log);
            return result::answered(out, r, log);
        }
        Run::SetEnable(on) => status::set_enable(driver, on, budget, script, log),
        Run::Watermark(way) => {
            let r = fifo::watermark(driver, way, budget, script, log);
            return result::answered(out, r, log);
        }
        Run::SetWatermark(way, level) => {
            let r = fifo::set_watermark(driver, way, level, budget, script, log);
            return result::answered(out, r, log);
        }
        Run::ClearFifo(way) => fifo::clear_fifo(driver, way, budget, script, log),
        Run::FifoStatus => {
            let r = fifo::fifo_status(driver, budget, script, log);
            return result::answered(out, r, log);
        }
        Run::SetClockHz(source, clock) => {
            disabled::set_clock_hz(driver, source, clock, budget, script, log)
        }
        Run::SetClockConfigs(configs) => {
            disabled::set_clock_configs(driver, configs, budget, script, log)
        }
        Run::SetSamplePoint(point) => {
            disabled::set_sample_point(driver, point, budget, script, log)
        }
        Run::SetPeripheralEnable(on) => {
            disabled::set_peripheral_enable(driver, on, budget, script, log)
        }
        Run::SetChipSelectPolarity(pcs, polarity) => {
            disabled::set_chip_select_polarity(driver, pcs, polarity, budget, script, log)
        }
    };
    result::plain(out, r, log)
}

// A call, with room for the log; and the log as it stands in memory, where the line asks for it.
pub(crate) fn show(out: &impl Print, call: Run, line: &Line) -> io::Result<()> {
    let mut room = [0xAAAA_AAAA; LOG];
    let log = &mut room[..line.log.min(LOG)];
    access(out, call, line, log)?;
    if line.raw {
        print::elements(out, "log", log)?;
    }
    Ok(())
}
