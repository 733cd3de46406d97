// Two boards over FIFO words, whatever their elements.
ghost use Rattle.std.specs.Prelude.{◌≡◌, ℕ, List};
ghost use Rattle.words.specs.Width.{width_bits};
ghost use Rattle.agreement.specs.Codes.{events_of};
ghost use Rattle.agreement.specs.End.{words_in};
ghost use Rattle.agreement.specs.Events.{pair, clocked_by, happened, pair_after, fresh_pair};
ghost use Rattle.agreement.specs.Start.{Start};
ghost use Rattle.bus.specs.Trial.{start_of};
ghost use Rattle.bus.specs.Held.{fresh_of, job_of, pair_of, Provided, Linked, Prepared, Ran};

use crate::begin::{Entrant, is_unpaired};
use crate::event::event_of;
use crate::peer::{Link, Peer};
use crate::trial::Unfit;
use agreement::event::{Event, Side};
use words::width::Width;

// What both ends go by. (Two structs and no generic one: the definitions name the two of each.)
#[derive(Drop)]
pub(crate) struct Links {
    pub gate: Link,
    pub antenna: Link,
}

#[derive(Drop)]
pub(crate) struct Peers {
    pub gate: Peer,
    pub antenna: Peer,
}

impl Peers {
    // A word each way, or nothing.
    #[tactic(auto, using(crate::proofs::PairLaws::clock_none, crate::proofs::PairLaws::clock_some))]
    fn clock(&mut self, links: &Links)
        ensures { pair_of self.new
            ≡ clocked_by (job_of links.now.gate) (job_of links.now.antenna)
            (words_in (pair_of self.old).gate.wire.transmit) (words_in (pair_of self.old).antenna.wire.transmit)
            (pair_of self.old) }
    {
        let Some(ours) = self.gate.station.port.leave() else {
            return;
        };
        let theirs = self.antenna.station.port.reply();
        self.gate.station.port.arrive(links.gate.exponent, theirs);
        self.antenna
            .station
            .port
            .arrive(links.antenna.exponent, ours);
    }

    // One event.
    #[tactic(auto, unfolding(agreement::specs::Events::happened))]
    fn happen(&mut self, event: Event, links: &Links)
        ensures { Provided self.old.gate
            → Provided self.old.antenna
            → pair_of self.new
            ≡ happened (job_of links.now.gate) (job_of links.now.antenna) (pair_of self.old) event }
    {
        match event {
            Event::Step(Side::Gate, busy) => self.gate.step(busy, &links.gate),
            Event::Step(Side::Antenna, busy) => self.antenna.step(busy, &links.antenna),
            Event::Clock => self.clock(links),
            Event::Noise(Side::Gate, direction) => self.gate.station.port.raise(direction),
            Event::Noise(Side::Antenna, direction) => self.antenna.station.port.raise(direction),
        }
    }

    // All of them.
    fn run(&mut self, events: &[u8], links: &Links)
        ensures { (g a : Start)
            → Linked g a (job_of links.now.gate) (job_of links.now.antenna)
            → pair_of self.old ≡ fresh_pair g a
            → pair_of self.new ≡ pair_after g a (events_of events.now) }
    {
        for code in events {
            self.happen(event_of(*code), links);
        }
    }

    // Number 9, or the events from fresh.
    pub(crate) fn play(
        &mut self,
        width: Width,
        gate: &Entrant,
        antenna: &Entrant,
        events: &[u8],
    ) -> Result<(), Unfit>
        ensures { pair_of self.old ≡ pair (fresh_of gate.now) (fresh_of antenna.now)
            → (gate_read gate_write antenna_read antenna_write : List ℕ)
            → Prepared (width_bits width) gate.now gate_read gate_write
            → Prepared (width_bits width) antenna.now antenna_read antenna_write
            → Ran (width_bits width) (start_of gate.now.board gate_read gate_write)
            (start_of antenna.now.board antenna_read antenna_write) events.now result self.new }
    {
        if is_unpaired(width, gate, antenna) {
            return Err(Unfit);
        }
        let links = Links {
            gate: gate.link(),
            antenna: antenna.link(),
        };
        self.run(events, &links);
        Ok(())
    }
}
