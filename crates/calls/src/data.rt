// Words and commands.
ghost use Rattle.std.specs.Prelude.{◌≡◌, None};
ghost use Rattle.sequences.specs.declared.call.Call.TheVariants.{ReadData, EnqueueData, EnqueueTransaction};
ghost use Rattle.runs.specs.Run.{left};
ghost use Rattle.runs.specs.Call.{call_run};
ghost use Rattle.calls.specs.Calls.{ran_call, value_left, valued};
ghost use Rattle.calls.specs.Values.{data_in};

use crate::results::Answered;
use manual::{Field, Register, Rsr};
use runs::call::run_call;
use runs::result::RunResult;
use sequences::call::Call;
use sequences::driver::Lpspi;
use sequences::sequence::Sequence;
use words::transaction::Transaction;

fn data(sequence: Sequence) -> Option<u32>
    ensures { result ≡ data_in sequence }
{
    let has_word = Field::Rsr(Rsr::RXEMPTY).read(sequence.kept(Register::RSR)) == 0;
    has_word.then_some(sequence.held())
}

// A received word; none where the receive FIFO is empty.
pub fn read_data(
    driver: Lpspi,
    budget: usize,
    script: &[u32],
    log: &mut [u32],
) -> Answered<Option<u32>>
    ensures { value_left result.result result.value log.new
        ≡ valued data_in None (call_run driver ReadData budget script.now log.old) }
{
    let called = run_call(driver, Call::ReadData, budget, script, log);
    Answered::new(called, None, data)
}

// Place a word into the transmit FIFO.
pub fn enqueue_data(
    driver: Lpspi,
    word: u32,
    budget: usize,
    script: &[u32],
    log: &mut [u32],
) -> RunResult
    ensures { left result log.new
        ≡ ran_call (call_run driver (EnqueueData word) budget script.now log.old) }
{
    run_call(driver, Call::EnqueueData(word), budget, script, log).into()
}

// Place a command into the transmit FIFO.
pub fn enqueue_transaction(
    driver: Lpspi,
    transaction: Transaction,
    budget: usize,
    script: &[u32],
    log: &mut [u32],
) -> RunResult
    ensures { left result log.new
        ≡ ran_call (call_run driver (EnqueueTransaction transaction) budget script.now log.old) }
{
    run_call(
        driver,
        Call::EnqueueTransaction(transaction),
        budget,
        script,
        log,
    )
    .into()
}
