// Settings that are changed while the peripheral is disabled: entry, operation, restore of MEN.
ghost use Rattle.std.specs.Prelude.{◌≡◌};
ghost use Rattle.sequences.specs.declared.call.Call.TheVariants.{SetClockConfigs, SetSamplePoint};
ghost use Rattle.sequences.specs.declared.call.Call.TheVariants.{SetPeripheralEnable, SetChipSelectPolarity};
ghost use Rattle.runs.specs.Run.{left};
ghost use Rattle.runs.specs.Call.{call_run};
ghost use Rattle.calls.specs.Calls.{ran_call, set_clock_hz_run};

use runs::call::run_call;
use runs::log::limits;
use runs::result::RunResult;
use sequences::access::RunError;
use sequences::call::Call;
use sequences::driver::Lpspi;
use sequences::settings::{PcsPolarity, SamplePoint};
use words::clock::{ClockConfigs, ZeroClock};
use words::mode::Pcs;

// Set the clock speed. Number 5 comes before number 6.
pub fn set_clock_hz(
    driver: Lpspi,
    source_clock_hz: u32,
    clock_hz: u32,
    budget: usize,
    script: &[u32],
    log: &mut [u32],
) -> RunResult
    ensures { left result log.new
        ≡ set_clock_hz_run driver source_clock_hz clock_hz budget script.now log.old }
{
    if limits(budget, log) {
        return RunResult::unmoved(driver, Err(RunError::Limits));
    }
    match ClockConfigs::from_hz(source_clock_hz, clock_hz) {
        Ok(clock) => set_clock_configs(driver, clock, budget, script, log),
        Err(ZeroClock) => RunResult::unmoved(driver, Err(RunError::ZeroClock)),
    }
}

pub fn set_clock_configs(
    driver: Lpspi,
    timing: ClockConfigs,
    budget: usize,
    script: &[u32],
    log: &mut [u32],
) -> RunResult
    ensures { left result log.new
        ≡ ran_call (call_run driver (SetClockConfigs timing) budget script.now log.old) }
{
    run_call(driver, Call::SetClockConfigs(timing), budget, script, log).into()
}

pub fn set_sample_point(
    driver: Lpspi,
    sample_point: SamplePoint,
    budget: usize,
    script: &[u32],
    log: &mut [u32],
) -> RunResult
    ensures { left result log.new
        ≡ ran_call (call_run driver (SetSamplePoint sample_point) budget script.now log.old) }
{
    run_call(
        driver,
        Call::SetSamplePoint(sample_point),
        budget,
        script,
        log,
    )
    .into()
}

// Become a peripheral, or a controller again.
pub fn set_peripheral_enable(
    driver: Lpspi,
    enable: bool,
    budget: usize,
    script: &[u32],
    log: &mut [u32],
) -> RunResult
    ensures { left result log.new
        ≡ ran_call (call_run driver (SetPeripheralEnable enable) budget script.now log.old) }
{
    run_call(
        driver,
        Call::SetPeripheralEnable(enable),
        budget,
        script,
        log,
    )
    .into()
}

pub fn set_chip_select_polarity(
    driver: Lpspi,
    pcs: Pcs,
    polarity: PcsPolarity,
    budget: usize,
    script: &[u32],
    log: &mut [u32],
) -> RunResult
    ensures { left result log.new
        ≡ ran_call
        (call_run driver (SetChipSelectPolarity pcs polarity) budget script.now log.old) }
{
    run_call(
        driver,
        Call::SetChipSelectPolarity(pcs, polarity),
        budget,
        script,
        log,
    )
    .into()
}
