// Resets.
ghost use Rattle.std.specs.Prelude.{◌≡◌};
ghost use Rattle.sequences.specs.declared.call.Call.TheVariants.{SoftReset, RecoverFromError, Init};
ghost use Rattle.runs.specs.Run.{left};
ghost use Rattle.runs.specs.Call.{call_run};
ghost use Rattle.calls.specs.Calls.{ran_call};

use runs::call::run_call;
use runs::result::RunResult;
use sequences::call::Call;
use sequences::driver::Lpspi;

// Reset all internal logic while preserving the driver's configurations.
pub fn soft_reset(driver: Lpspi, budget: usize, script: &[u32], log: &mut [u32]) -> RunResult
    ensures { left result log.new
        ≡ ran_call (call_run driver SoftReset budget script.now log.old) }
{
    run_call(driver, Call::SoftReset, budget, script, log).into()
}

// The reset, then the error flags cleared.
pub fn recover_from_error(
    driver: Lpspi,
    budget: usize,
    script: &[u32],
    log: &mut [u32],
) -> RunResult
    ensures { left result log.new
        ≡ ran_call (call_run driver RecoverFromError budget script.now log.old) }
{
    run_call(driver, Call::RecoverFromError, budget, script, log).into()
}

// The peripheral from its reset to its enabled state. With number 5 the driver value is the one given, past it the starting one.
pub fn init(driver: Lpspi, budget: usize, script: &[u32], log: &mut [u32]) -> RunResult
    ensures { left result log.new
        ≡ ran_call (call_run driver Init budget script.now log.old) }
{
    run_call(driver, Call::Init, budget, script, log).into()
}
