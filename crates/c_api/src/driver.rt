// The driver value that a run leaves, in the host's word. Bits 31..21 are the host's.
// The C interface: a host's word, and places that it lends.
ghost use Rattle.std.specs.Prelude.{◌≡◌, []};
ghost use Rattle.runs.specs.Run.{left};
ghost use Rattle.c_api.specs.HostRun.{driver_left, host_left, of_call};

use crate::number::Number;
use runs::result::RunResult;
use sequences::access::ending_number;
use sequences::driver::Lpspi;

// The host's word with that driver value.
fn driver_left(word: u32, driver: Lpspi) -> u32
    ensures { result ≡ driver_left word driver }
{
    word / 0x20_0000 * 0x20_0000 + Number::from(driver).0
}

// The next driver value, the accesses made and the answers used where they go; and the number.
pub(crate) fn hand_back(
    r: RunResult,
    driver: &mut u32,
    accesses: &mut usize,
    answers: &mut usize,
) -> u32
    ensures { host_left result driver.new accesses.new answers.new [] []
        ≡ of_call driver.old (left r []) }
{
    *driver = driver_left(*driver, r.driver);
    *accesses = r.accesses;
    *answers = r.answers;
    ending_number(r.ending)
}
