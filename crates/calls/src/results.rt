// What calls with a value answer.
ghost use Rattle.std.specs.Prelude.{◌≡◌, OnErr, OnOk};
ghost use Rattle.runs.specs.Call.{called_result};
ghost use Rattle.calls.specs.Values.{is_full};

use runs::call::Called;
use runs::result::RunResult;
use sequences::sequence::Sequence;
use words::transaction::Direction;

// A run's result, and the call's value. The value comes with Ok; refused or stopped it is 0, false or nothing.
#[derive(Clone, Copy)]
pub struct Answered<T> {
    pub result: RunResult,
    pub value: T,
}

impl<T: Drop> Answered<T> {
    // With `value` of what the call has read where it came to its end, `none` where it was refused or stopped.
    pub(crate) fn new<F: FnOnce(Sequence) -> T + Drop>(called: Called, none: T, value: F) -> Self
        requires { F.pre value called.sequence }
        ensures run { result.result ≡ called_result called }
        ensures ok { OnOk called.ending (F.post value called.sequence result.value) }
        ensures err { OnErr called.ending (result.value ≡ none) }
    {
        let value = match called.ending {
            Ok(()) => value(called.sequence),
            Err(_) => none,
        };
        Answered {
            result: called.into(),
            value,
        }
    }
}

// The counts of the FIFOs, and their depths. Of zeros, `is_full` is true.
#[derive(Clone, Copy, Default)]
pub struct FifoStatus {
    pub rxcount: u16,
    pub txcount: u16,
    pub rxcap: u16,
    pub txcap: u16,
}

impl FifoStatus {
    pub fn is_full(self, direction: Direction) -> bool
        ensures { result ≡ is_full direction self }
    {
        match direction {
            Direction::Tx => self.txcap <= self.txcount,
            Direction::Rx => self.rxcap <= self.rxcount,
        }
    }
}
