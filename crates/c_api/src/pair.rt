// Two boards over the bus: the number of a trial, with both read buffers and both ends' states where they go.
//
// `state` gets 138 words. 68 are for each end, the gate's first: the numbers of its transfer and its flush, or 255; T and R; how many words
// are to be sent and to be read; 16 places for each; the 30 registers. The last two are the commands that stand before the words to be
// sent, at the gate and at the antenna. What has no room is dropped. The answer is 0, or 9 for boards that make no pair. At 9 `state` and
// both read buffers are as found, so a host looks at the number first: zeros that it lent as `state` would read as Ok twice at both ends.
// The C interface: a function for each width, parameters one by one, the refusal a number.
ghost use Rattle.std.specs.Prelude.{◌≡◌, ◌≤◌};
ghost use Rattle.words.specs.declared.width.Width.TheVariants.{U8, U16, U32};
ghost use Rattle.words.specs.Word.{laid};
ghost use Rattle.words.specs.Buffer.{filled};
ghost use Rattle.bus.specs.Trial.{trial_number};
ghost use Rattle.bus.specs.View.{wire_of, state_of};
ghost use Rattle.c_api.specs.HostBus.{answer_number, head_words, state_words, pair_words, laid_from, state_left, board_of};
ghost use Rattle.c_api.specs.HostBus.{host_trial, trial_by};

use crate::number::Number;
use agreement::board::Board;
use bus::fifo::Fifo;
use bus::station::Station;
use bus::trial::{EndState, Outcome, trial};
use sequences::access::{Access, ending_number};
use std::array;
use words::width::Width;
use words::word::Word;

// Document 01's number, 255 while there is no answer.
fn answer(access: Access) -> u32
    ensures { result ≡ answer_number access }
{
    match access {
        Access::Done(ending) => ending_number(ending),
        _ => 255,
    }
}

#[tactic(auto, using(bus::proofs::QueuedLaws::words_queued))]
fn head_words(station: &Station) -> [u32; 6]
    ensures { result ≡ head_words station.now.transfer station.now.flush (wire_of station.now.port) }
{
    let port = &station.port;
    [
        answer(station.transfer.next()),
        answer(station.flush.next()),
        port.t.into(),
        port.r.into(),
        port.transmit.len() as u32,
        port.receive.len() as u32,
    ]
}

// The words of a FIFO's places, 0 where none is queued.
fn places(fifo: &Fifo) -> [u32; 16]
    ensures { result ≡ filled 0 16 fifo.now }
{
    array::from_fn(|i| fifo.word(i))
}

// Words over `state` from a place on. What has no room is dropped.
fn lay(words: &[u32], from: usize, state: &mut [u32])
    ensures { state.new ≡ laid_from from words.now state.old }
{
    if state.len() <= from {
        return;
    }
    let n = words.len().min(state.len() - from);
    state[from..from + n].copy_from_slice(&words[..n]);
}

// The 30 registers of an end, from a place on. (A copy lies apart from `state`, as the compiler sees: else it would call `memmove`.)
fn lay_registers(registers: &[u32; 30], from: usize, state: &mut [u32])
    ensures { state.new ≡ laid_from from (filled 0 30 registers.now) state.old }
{
    let registers = *registers;
    lay(&registers, from, state);
}

// An end's state, from a place on.
fn show_end(end: &EndState, from: usize, state: &mut [u32])
    requires { from ≤ 68 }
    ensures { state.new ≡ laid_from from (state_words (state_of end.now)) state.old }
{
    let station = &end.station;
    lay(&head_words(station), from, state);
    lay(&places(&station.port.transmit), from + 6, state);
    lay(&places(&station.port.receive), from + 22, state);
    lay_registers(&end.registers, from + 38, state);
}

fn show(gate: &EndState, antenna: &EndState, state: &mut [u32])
    ensures { state.new ≡ laid (pair_words (state_of gate.now) (state_of antenna.now)) state.old }
{
    show_end(gate, 0, state);
    show_end(antenna, 68, state);
    let commands = [gate.station.port.commands, antenna.station.port.commands];
    lay(&commands, 136, state);
}

// The number of a trial. At 9 `state` is as found: it shows no ends.
fn report(left: Outcome, state: &mut [u32]) -> u32
    ensures number { result ≡ trial_number left.result }
    ensures state { state.new
        ≡ state_left (trial_number left.result) (state_of left.gate) (state_of left.antenna) state.old }
{
    let Ok(()) = left.result else {
        return left.number();
    };
    show(&left.gate, &left.antenna, state);
    left.number()
}

// In place where bit 0 of `inplace` is set.
fn board(width: Width, driver: u32, inplace: u32, exponent: usize) -> Board
    ensures { result ≡ board_of width driver inplace exponent }
{
    Board {
        driver: Number(driver).into(),
        width,
        inplace: Number(inplace).into(),
        exponent,
    }
}

// A trial of boards made of numbers.
fn tried<T: Word>(
    gate_driver: u32,
    antenna_driver: u32,
    inplace: u32,
    gate_exponent: usize,
    antenna_exponent: usize,
    gate_read: &mut [T],
    gate_write: &[T],
    antenna_read: &mut [T],
    antenna_write: &[T],
    events: &[u8],
    state: &mut [u32],
) -> u32
    ensures { host_trial result (T.numbers gate_read.new) (T.numbers antenna_read.new) state.new
        ≡ trial_by T.width gate_driver antenna_driver inplace gate_exponent antenna_exponent
        (T.numbers gate_read.old) (T.numbers gate_write.now) (T.numbers antenna_read.old)
        (T.numbers antenna_write.now) events.now state.old }
{
    let gate = board(T::width(), gate_driver, inplace, gate_exponent);
    let antenna = board(T::width(), antenna_driver, inplace / 2, antenna_exponent);
    let left = trial(
        gate,
        antenna,
        gate_read,
        gate_write,
        antenna_read,
        antenna_write,
        events,
    );
    report(left, state)
}

// At 9 `state` is as found: it shows no ends.
#[unsafe(no_mangle)]
pub extern "C" fn lpspi_trial_u8(
    gate_driver: u32,
    antenna_driver: u32,
    inplace: u32,
    gate_exponent: usize,
    antenna_exponent: usize,
    gate_read: &mut [u8],
    gate_write: &[u8],
    antenna_read: &mut [u8],
    antenna_write: &[u8],
    events: &[u8],
    state: &mut [u32],
) -> u32
    ensures { host_trial result gate_read.new antenna_read.new state.new
        ≡ trial_by U8 gate_driver antenna_driver inplace gate_exponent antenna_exponent
        gate_read.old gate_write.now antenna_read.old
        antenna_write.now events.now state.old }
{
    tried(
        gate_driver,
        antenna_driver,
        inplace,
        gate_exponent,
        antenna_exponent,
        gate_read,
        gate_write,
        antenna_read,
        antenna_write,
        events,
        state,
    )
}

// At 9 `state` is as found: it shows no ends.
#[unsafe(no_mangle)]
pub extern "C" fn lpspi_trial_u16(
    gate_driver: u32,
    antenna_driver: u32,
    inplace: u32,
    gate_exponent: usize,
    antenna_exponent: usize,
    gate_read: &mut [u16],
    gate_write: &[u16],
    antenna_read: &mut [u16],
    antenna_write: &[u16],
    events: &[u8],
    state: &mut [u32],
) -> u32
    ensures { host_trial result gate_read.new antenna_read.new state.new
        ≡ trial_by U16 gate_driver antenna_driver inplace gate_exponent antenna_exponent
        gate_read.old gate_write.now antenna_read.old
        antenna_write.now events.now state.old }
{
    tried(
        gate_driver,
        antenna_driver,
        inplace,
        gate_exponent,
        antenna_exponent,
        gate_read,
        gate_write,
        antenna_read,
        antenna_write,
        events,
        state,
    )
}

// At 9 `state` is as found: it shows no ends.
#[unsafe(no_mangle)]
pub extern "C" fn lpspi_trial_u32(
    gate_driver: u32,
    antenna_driver: u32,
    inplace: u32,
    gate_exponent: usize,
    antenna_exponent: usize,
    gate_read: &mut [u32],
    gate_write: &[u32],
    antenna_read: &mut [u32],
    antenna_write: &[u32],
    events: &[u8],
    state: &mut [u32],
) -> u32
    ensures { host_trial result gate_read.new antenna_read.new state.new
        ≡ trial_by U32 gate_driver antenna_driver inplace gate_exponent antenna_exponent
        gate_read.old gate_write.now antenna_read.old
        antenna_write.now events.now state.old }
{
    tried(
        gate_driver,
        antenna_driver,
        inplace,
        gate_exponent,
        antenna_exponent,
        gate_read,
        gate_write,
        antenna_read,
        antenna_write,
        events,
        state,
    )
}
