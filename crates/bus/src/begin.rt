// What a run of the bus begins with.
ghost use Rattle.std.specs.Prelude.{◌≤◌, ◌≡◌};
ghost use Rattle.words.specs.Width.{width_bits};
ghost use Rattle.bus.specs.Begin.{total_by, unpaired_by};
ghost use Rattle.bus.specs.Held.{end_of, fresh_of, job_of, entrant_job};

use crate::peer::{Link, Peer};
use crate::port::{Exponent, Port};
use crate::register::fresh_registers;
use crate::station::Station;
use agreement::board::Board;
use machine::flush::Flush;
use runs::drive::Frame;
use transfers::begin::{Ways, begin};
use words::transaction::Transaction;
use words::width::Width;

// A board that enters a trial, with its total length and the words packed at the start.
#[derive(Drop)]
pub(crate) struct Entrant {
    pub board: Board,
    pub total: usize,
    pub send: [u32; Transaction::MAX_WORDS],
}

// The total length, of the lengths of the buffers.
pub(crate) fn total_of(inplace: bool, read: usize, write: usize) -> usize
    ensures { result ≡ total_by inplace read write }
{
    if inplace { read } else { read.max(write) }
}

// Number 9, in a trial of that width: the test of `unpaired_by`, which `play` makes a refusal of.
pub(crate) fn is_unpaired(width: Width, gate: &Entrant, antenna: &Entrant) -> bool
    ensures { result
        ≡ unpaired_by (width_bits width) gate.now.board antenna.now.board gate.now.total antenna.now.total }
{
    let ours = gate.board;
    let theirs = antenna.board;
    ours.width != width
        || 4 < ours.exponent
        || 4 < theirs.exponent
        || ours.width != theirs.width
        || ours.driver.bit_order() != theirs.driver.bit_order()
        || gate.total != antenna.total
}

impl Entrant {
    // An end that has made no access.
    pub(crate) fn fresh(&self) -> Peer
        ensures { end_of result ≡ fresh_of self.now }
    {
        let board = self.board;
        Peer {
            station: Station {
                transfer: begin(board.driver, Ways::Both, board.width, self.total),
                flush: Flush::new(),
                port: Port::new(),
            },
            registers: fresh_registers(),
            received: 0,
            words: [0; Transaction::MAX_WORDS],
        }
    }

    // What the end of a board goes by.
    pub(crate) fn link(&self) -> Link
        requires { self.now.board.exponent ≤ 4 }
        ensures { job_of result ≡ entrant_job self.now }
    {
        let board = self.board;
        Link {
            exponent: Exponent {
                value: board.exponent,
            },
            frame: Frame {
                width: board.width,
                total: self.total,
                inplace: board.inplace,
            },
            send: self.send,
        }
    }
}
