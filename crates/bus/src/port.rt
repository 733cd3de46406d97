// The FIFOs and error flags of an end.
ghost use Rattle.std.specs.Prelude.{◌^◌, ◌+◌, ◌≤◌, [], ◌≡◌, length, slice_get};
ghost use Rattle.agreement.specs.End.{Command, Word, words_in, front, raised, sent_into, arrived};
ghost use Rattle.agreement.specs.End.{shows_by, read_by, written_by, fresh_wire};

use crate::fifo::Fifo;
use agreement::register::Role;
use manual::{Cr, Field, Fsr, Param, Sr};
use words::transaction::Direction;

// A FIFO exponent as the manual allows it.
#[derive(Clone, Copy)]
pub(crate) struct Exponent {
    pub value: usize,
    ghost small: { value ≤ 4 },
}

impl Exponent {
    // The places of a FIFO of that exponent.
    fn capacity(self) -> usize
        ensures places { result ≡ 2 ^ self.value }
        ensures few { result ≤ 16 }
    {
        1 << self.value
    }
}

#[derive(Clone, Copy)]
pub struct Port {
    // The words of the transmit FIFO.
    pub transmit: Fifo,
    pub receive: Fifo,
    // The commands in the transmit FIFO, before its words: each takes a place, too.
    pub commands: u32,
    // The transmit error flag.
    pub t: bool,
    // The receive error flag.
    pub r: bool,
    ghost places: { commands + length transmit ≤ 16 },
}

impl Port {
    ghost use Rattle.bus.specs.View.{wire_of};
    ghost use Rattle.bus.specs.Held.{leaving, replying};

    pub(crate) fn new() -> Self
        ensures { wire_of result ≡ fresh_wire }
    {
        Port {
            transmit: Fifo::new(),
            receive: Fifo::new(),
            commands: 0,
            t: false,
            r: false,
        }
    }

    // An event sets a flag.
    pub(crate) fn raise(&mut self, direction: Direction)
        ensures { wire_of self.new ≡ raised direction (wire_of self.old) }
    {
        match direction {
            Direction::Tx => self.t = true,
            Direction::Rx => self.r = true,
        }
    }

    // The places of the transmit FIFO that are taken.
    #[tactic(auto, using(crate::proofs::QueuedLaws::length_queued))]
    fn taken(&self) -> usize
        ensures taken { result ≡ length (wire_of self.now).transmit }
        ensures within { result ≤ 16 }
    {
        self.commands as usize + self.transmit.len()
    }

    // A word written to TDR: lost onto a full FIFO.
    #[tactic(auto, using(crate::proofs::QueuedLaws::length_queued, crate::proofs::QueuedLaws::queued_word))]
    fn send(&mut self, exponent: Exponent, word: u32)
        ensures { wire_of self.new ≡ sent_into exponent.value (Word word) (wire_of self.old) }
    {
        if exponent.capacity() <= self.taken() {
            self.raise(Direction::Tx);
        } else {
            self.transmit.push(word);
        }
    }

    // A command written to TCR, where no word is queued: lost onto a full FIFO.
    #[tactic(auto, using(crate::proofs::QueuedLaws::length_queued, crate::proofs::QueuedLaws::queued_command))]
    fn command(&mut self, exponent: Exponent)
        ensures { self.old.transmit ≡ [] → wire_of self.new ≡ sent_into exponent.value Command (wire_of self.old) }
    {
        if exponent.capacity() <= self.taken() {
            self.raise(Direction::Tx);
        } else {
            self.commands += 1;
        }
    }

    // A word that arrives: lost at a full FIFO.
    pub(crate) fn arrive(&mut self, exponent: Exponent, word: u32)
        ensures { wire_of self.new ≡ arrived exponent.value word (wire_of self.old) }
    {
        if exponent.capacity() <= self.receive.len() {
            self.raise(Direction::Rx);
        } else {
            self.receive.push(word);
        }
    }

    // The first word to be sent leaves, and the commands before it. Where there is none, nothing changes.
    #[tactic(auto, using(crate::proofs::QueuedLaws::words_queued, crate::proofs::QueuedLaws::past_queued))]
    pub(crate) fn leave(&mut self) -> Option<u32>
        ensures word { result ≡ slice_get (words_in (wire_of self.old).transmit) 0 }
        ensures wire { wire_of self.new ≡ leaving (words_in (wire_of self.old).transmit) (wire_of self.old) }
    {
        let word = self.transmit.pop()?;
        self.commands = 0;
        Some(word)
    }

    // The word that leaves the antenna: a made-up 0 where there is none.
    pub(crate) fn reply(&mut self) -> u32
        ensures word { result ≡ front (words_in (wire_of self.old).transmit) }
        ensures wire { wire_of self.new ≡ replying (words_in (wire_of self.old).transmit) (wire_of self.old) }
    {
        match self.leave() {
            Some(word) => word,
            None => {
                self.raise(Direction::Tx);
                0
            }
        }
    }

    // What a read of a register of that role shows, where `held` is what it holds.
    pub(crate) fn show(&self, role: Role, exponent: Exponent, busy: bool, held: u32) -> u32
        ensures { result ≡ shows_by exponent.value busy (wire_of self.now) role held }
    {
        match role {
            Role::Sizes => {
                let transmit = Field::Param(Param::TXFIFO).set(exponent.value as u32, 0);
                Field::Param(Param::RXFIFO).set(exponent.value as u32, transmit)
            }
            Role::Status => {
                let busy = Field::Sr(Sr::MBF).set(u32::from(busy), 0);
                let receive = Field::Sr(Sr::REF).set(u32::from(self.r), busy);
                Field::Sr(Sr::TEF).set(u32::from(self.t), receive)
            }
            Role::Counts => {
                let counts = Field::Fsr(Fsr::TXCOUNT).set(self.taken() as u32, 0);
                Field::Fsr(Fsr::RXCOUNT).set(self.receive.len() as u32, counts)
            }
            Role::Receives => self.receive.word(0),
            Role::Control | Role::Commands | Role::Sends | Role::Holds => held,
        }
    }

    // A read of a register of that role.
    pub(crate) fn read(&mut self, role: Role)
        ensures { wire_of self.new ≡ read_by role (wire_of self.old) }
    {
        if let Role::Receives = role {
            let _ = self.receive.pop();
        }
    }

    // Flags cleared by a write of 1 to SR.
    fn clear(&mut self, status: u32)
        ensures { wire_of self.new ≡ written_by 0 Role.Status status (wire_of self.old) }
    {
        self.t = self.t && Field::Sr(Sr::TEF).read(status) != 1;
        self.r = self.r && Field::Sr(Sr::REF).read(status) != 1;
    }

    // CR: RTF, RRF and RST.
    fn reset(&mut self, control: u32)
        ensures { wire_of self.new ≡ written_by 0 Role.Control control (wire_of self.old) }
    {
        if Field::Cr(Cr::RST).read(control) == 1 {
            *self = Port::new();
            return;
        }
        if Field::Cr(Cr::RTF).read(control) == 1 {
            self.commands = 0;
            self.transmit.clear();
        }
        if Field::Cr(Cr::RRF).read(control) == 1 {
            self.receive.clear();
        }
    }

    // A write to a register of that role.
    pub(crate) fn write(&mut self, role: Role, exponent: Exponent, value: u32)
        ensures { (role ≡ Role.Commands → self.old.transmit ≡ [])
            → wire_of self.new ≡ written_by exponent.value role value (wire_of self.old) }
    {
        match role {
            Role::Status => self.clear(value),
            Role::Control => self.reset(value),
            Role::Commands => self.command(exponent),
            Role::Sends => self.send(exponent, value),
            Role::Sizes | Role::Counts | Role::Receives | Role::Holds => {}
        }
    }
}
