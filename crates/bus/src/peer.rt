// An end as a trial runs it: with its registers, and the places for the words that it receives.
ghost use Rattle.std.specs.Prelude.{◌≤◌, ◌≡◌, ℕ, length};
ghost use Rattle.agreement.specs.End.{answer_to, stepped};

use crate::port::Exponent;
use crate::register::{PLACES, hold, place_of, role_of};
use crate::station::Station;
use agreement::register::Role;
use runs::drive::{Frame, keep, word_in};
use sequences::access::Access;
use words::transaction::Transaction;

// What an end goes by: its FIFO exponent, the elements behind its words, and the words packed at the start.
#[derive(Drop)]
pub(crate) struct Link {
    pub exponent: Exponent,
    pub frame: Frame,
    pub send: [u32; Transaction::MAX_WORDS],
}

#[derive(Drop)]
pub(crate) struct Peer {
    pub station: Station,
    pub registers: [u32; PLACES],
    // FIFO words received so far, and their places: fixed memory.
    pub received: usize,
    pub words: [u32; Transaction::MAX_WORDS],
    ghost within: { received ≤ length words },
}

impl Peer {
    ghost use Rattle.bus.specs.View.{wire_of};
    ghost use Rattle.bus.specs.Held.{end_of, job_of, made, Ready, Provided};

    // An access, and its answer.
    fn make(&mut self, access: Access, busy: bool, link: &Link) -> u32
        ensures answer { result
            ≡ answer_to link.now.exponent.value busy (wire_of self.old.station.port) self.old.registers access }
        ensures made { Ready access self.old
            → end_of self.new ≡ made (job_of link.now) access result (end_of self.old) }
    {
        let exponent = link.exponent;
        let port = &mut self.station.port;
        match access {
            Access::Read(register) => {
                let role = role_of(register);
                let value = port.show(role, exponent, busy, self.registers[place_of(register)]);
                port.read(role);
                value
            }
            Access::Write(register, value) => {
                port.write(role_of(register), exponent, value);
                hold(&mut self.registers, register, value);
                0
            }
            Access::Send(i) => {
                let word = word_in(link.frame, &link.send, &self.words, self.received, i);
                port.write(Role::Sends, exponent, word);
                0
            }
            Access::Receive(_) => {
                let value = port.show(Role::Receives, exponent, busy, 0);
                port.read(Role::Receives);
                self.received = keep(access, &mut self.words, self.received, value);
                value
            }
            Access::Done(_) => 0,
        }
    }

    // A step of the end.
    pub(crate) fn step(&mut self, busy: bool, link: &Link)
        ensures { Provided self.old
            → end_of self.new ≡ stepped (job_of link.now) busy (end_of self.old) }
    {
        let access = self.station.due();
        let value = self.make(access, busy, link);
        self.station.answered(value);
    }
}
