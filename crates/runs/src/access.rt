// What an access does in a run, one small function a part.
ghost use Rattle.std.specs.Prelude.{◌≡◌};
ghost use Rattle.runs.specs.Run.{code_of, uses_of, answer_of, halted, ending_of};

use manual::Register;
use sequences::access::{Access, Ending, RunError};

// Added to the offset of a register that is written.
pub(crate) const WRITE: u32 = 0x1000;

// The first number of its pair in the log.
pub(crate) fn code_of(access: Access) -> u32
    ensures { result ≡ code_of access }
{
    match access {
        Access::Read(r) => r.offset(),
        Access::Write(r, _) => WRITE + r.offset(),
        Access::Send(_) => WRITE + Register::TDR.offset(),
        Access::Receive(_) => Register::RDR.offset(),
        Access::Done(_) => 0,
    }
}

// The answers that it uses.
pub(crate) fn uses_of(access: Access) -> usize
    ensures { result ≡ uses_of access }
{
    match access {
        Access::Read(_) | Access::Receive(_) => 1,
        Access::Write(_, _) | Access::Send(_) | Access::Done(_) => 0,
    }
}

// What the machine is told, where `value` is the script's next answer.
pub(crate) fn answer_of(access: Access, value: u32) -> u32
    ensures { result ≡ answer_of access value }
{
    match access {
        Access::Read(_) | Access::Receive(_) => value,
        Access::Write(_, _) | Access::Send(_) | Access::Done(_) => 0,
    }
}

// No access can be made: none is due, or a read is due and the script is used up.
pub(crate) fn halted(access: Access, used: usize, answers: usize) -> bool
    ensures { result ≡ halted access used answers }
{
    match access {
        Access::Read(_) | Access::Receive(_) => answers <= used,
        Access::Write(_, _) | Access::Send(_) => false,
        Access::Done(_) => true,
    }
}

// How a run ends where that access is due.
pub(crate) fn ending_of(access: Access) -> Ending
    ensures { result ≡ ending_of access }
{
    match access {
        Access::Done(e) => e,
        _ => Err(RunError::Stopped),
    }
}
