// Status and enabled state.
ghost use Rattle.std.specs.Prelude.{◌≡◌, false};
ghost use Rattle.sequences.specs.declared.call.Call.TheVariants.{GetStatus, ClearStatus, IsEnabled, SetEnable};
ghost use Rattle.runs.specs.Run.{left};
ghost use Rattle.runs.specs.Call.{call_run};
ghost use Rattle.calls.specs.Calls.{ran_call, value_left, valued};
ghost use Rattle.calls.specs.Values.{status_in, no_status, enabled_in};

use crate::results::Answered;
use manual::{Cr, Field};
use runs::call::run_call;
use runs::result::RunResult;
use sequences::call::Call;
use sequences::driver::Lpspi;
use sequences::status::Status;

// The status flags.
pub fn status(driver: Lpspi, budget: usize, script: &[u32], log: &mut [u32]) -> Answered<Status>
    ensures { value_left result.result result.value log.new
        ≡ valued status_in no_status (call_run driver GetStatus budget script.now log.old) }
{
    let called = run_call(driver, Call::GetStatus, budget, script, log);
    Answered::new(
        called,
        Status::from_bits_truncate(0),
        |s| Status::from_bits_truncate(s.held()),
    )
}

// Clear those of the flags that are cleared by writing 1.
pub fn clear_status(
    driver: Lpspi,
    flags: Status,
    budget: usize,
    script: &[u32],
    log: &mut [u32],
) -> RunResult
    ensures { left result log.new
        ≡ ran_call (call_run driver (ClearStatus flags) budget script.now log.old) }
{
    run_call(driver, Call::ClearStatus(flags), budget, script, log).into()
}

// The peripheral is enabled.
pub fn is_enabled(driver: Lpspi, budget: usize, script: &[u32], log: &mut [u32]) -> Answered<bool>
    ensures { value_left result.result result.value log.new
        ≡ valued enabled_in false (call_run driver IsEnabled budget script.now log.old) }
{
    let called = run_call(driver, Call::IsEnabled, budget, script, log);
    Answered::new(called, false, |s| Field::Cr(Cr::MEN).read(s.held()) == 1)
}

pub fn set_enable(
    driver: Lpspi,
    enable: bool,
    budget: usize,
    script: &[u32],
    log: &mut [u32],
) -> RunResult
    ensures { left result log.new
        ≡ ran_call (call_run driver (SetEnable enable) budget script.now log.old) }
{
    run_call(driver, Call::SetEnable(enable), budget, script, log).into()
}
