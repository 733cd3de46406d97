// Two boards over the bus: the pair entry, for elements of 8, 16 and 32 bits.
ghost use Rattle.std.specs.Prelude.{◌≡◌, ℕ, ◌^◌, ◌<◌, get_or};
ghost use Rattle.words.specs.Width.{width_bits};
ghost use Rattle.words.specs.Buffer.{unpack_words};
ghost use Rattle.words.specs.Word.{laid};
ghost use Rattle.agreement.specs.Agreement.{seen};
ghost use Rattle.bus.specs.View.{state_of};
ghost use Rattle.bus.specs.Trial.{trial_number, Tried};
ghost use Rattle.bus.specs.Held.{end_of, Prepared};

use crate::begin::{Entrant, total_of};
use crate::pair::Peers;
use crate::peer::Peer;
use crate::register::PLACES;
use crate::station::Station;
use agreement::board::Board;
use words::buffer::{pack_words, unpack_words};
use words::transaction::Transaction;
use words::word::Word;

// Boards that do not fit: number 9.
#[derive(Clone, Copy, PartialEq, Eq)]
pub struct Unfit;

// What an end comes to.
#[derive(Clone, Copy)]
pub struct EndState {
    pub station: Station,
    pub registers: [u32; PLACES],
}

#[derive(Clone, Copy)]
pub struct Outcome {
    pub result: Result<(), Unfit>,
    pub gate: EndState,
    pub antenna: EndState,
}

impl Outcome {
    // Document 01's number: 0, or 9 where the boards do not fit.
    pub fn number(&self) -> u32
        ensures { result ≡ trial_number self.now.result }
    {
        match self.result {
            Ok(()) => 0,
            Err(Unfit) => 9,
        }
    }
}

// A board with what it starts with: its one buffer in place, else its write buffer.
fn enter<T: Word>(board: Board, read: &[T], write: &[T]) -> Entrant
    ensures board { result.board ≡ board }
    ensures prepared { Prepared (width_bits T.width) result (T.numbers read.now) (T.numbers write.now) }
    ensures read { (i : ℕ) → get_or (T.numbers read.now) i 0 < 2 ^ width_bits T.width }
    ensures write { (i : ℕ) → get_or (T.numbers write.now) i 0 < 2 ^ width_bits T.width }
{
    T::bounded(read);
    T::bounded(write);
    let total = total_of(board.inplace, read.len(), write.len());
    let mut send = [0; Transaction::MAX_WORDS];
    let started = if board.inplace { read } else { write };
    pack_words(board.driver.bit_order(), started, total, &mut send);
    Entrant { board, total, send }
}

// The elements received, from the front of the read buffer.
fn unpack<T: Word>(entrant: &Entrant, peer: &Peer, read: &mut [T])
    ensures { T.numbers read.new
        ≡ laid
        (unpack_words entrant.now.board.driver.order (width_bits T.width) entrant.now.total (end_of peer.now).received)
        (T.numbers read.old) }
{
    unpack_words(
        entrant.board.driver.bit_order(),
        &peer.words[..peer.received],
        entrant.total,
        read,
    );
}

// What can be seen of an end.
fn shown(peer: Peer) -> EndState
    ensures { state_of result ≡ seen (end_of peer) }
{
    let Peer {
        station,
        registers,
        ..
    } = peer;
    EndState { station, registers }
}

// A list of events from fresh. (Parameters one by one: `Tried` names each.)
pub fn trial<T: Word>(
    gate: Board,
    antenna: Board,
    gate_read: &mut [T],
    gate_write: &[T],
    antenna_read: &mut [T],
    antenna_write: &[T],
    events: &[u8],
) -> Outcome
    ensures { Tried (width_bits T.width) gate antenna (T.numbers gate_read.old) (T.numbers gate_write.now)
        (T.numbers antenna_read.old) (T.numbers antenna_write.now) events.now result
        (T.numbers gate_read.new) (T.numbers antenna_read.new) }
{
    let ours = enter(gate, gate_read, gate_write);
    let theirs = enter(antenna, antenna_read, antenna_write);
    let mut peers = Peers {
        gate: ours.fresh(),
        antenna: theirs.fresh(),
    };
    let result = peers.play(T::width(), &ours, &theirs, events);
    unpack(&ours, &peers.gate, gate_read);
    unpack(&theirs, &peers.antenna, antenna_read);
    let Peers { gate, antenna } = peers;
    Outcome {
        result,
        gate: shown(gate),
        antenna: shown(antenna),
    }
}
