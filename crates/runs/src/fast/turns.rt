// Whole turns of a transfer: a poll's three reads and its word. A turn is made only if it certainly fits budget and script, shows no error,
// and has PARAM as it was known; all the rest is left to `drive`.
ghost use Rattle.std.specs.Prelude.{◌≡◌, IfSome};
ghost use Rattle.machine.specs.Poll.{whole};
ghost use Rattle.runs.specs.Running.{Kept};
ghost use Rattle.runs.specs.Turns.{ready_or, Looked, turn, turn_sent, turn_received, turn_next, Onward};

use crate::running::Running;
use machine::poll::{Polled, whole};
use manual::Register;
use sequences::access::Access;
use words::transaction::Direction;

// What the turns of a transfer go by: the FIFO words that it sends and receives, and what PARAM is known to answer.
#[derive(Clone, Copy)]
pub(crate) struct Plan {
    pub send: usize,
    pub receive: usize,
    pub known: u32,
}

// Whose turn it is, and the words sent.
#[derive(Clone, Copy)]
pub(crate) struct Turn {
    pub side: Direction,
    pub sent: usize,
}

// Whether a poll of these answers is ready. None for an error, or an exponent over 4.
fn shown(side: Direction, status: u32, param: u32, counts: u32) -> Option<bool>
    ensures { IfSome result (λ b. whole side status param counts ≡ ready_or b) }
{
    match whole(side, status, param, counts) {
        Polled::Ready => Some(true),
        Polled::Unready => Some(false),
        Polled::Failed | Polled::TooDeep | Polled::Next(_) => None,
    }
}

impl Running<'_> {
    // A poll, if PARAM answers what it is known to: what follows from that is then the same for all polls, and no work of a side's loop.
    // Whether it is ready. None where nothing was done: it shows an error or another PARAM, or the turn does not certainly fit.
    pub(crate) fn poll(&mut self, side: Direction, known: u32) -> Option<bool>
        ensures kept { Kept self.old self.new }
        ensures looked { Looked side self.old self.new result }
    {
        let used = self.spot.used;
        if self.budget < self.spot.made + 4 || self.script.len() < used + 4 {
            return None;
        }
        let status = self.script[used];
        let param = self.script[used + 1];
        let counts = self.script[used + 2];
        if param != known {
            return None;
        }
        let ready = shown(side, status, known, counts)?;
        self.put(Register::SR.offset(), status);
        self.put(Register::PARAM.offset(), param);
        self.put(Register::FSR.offset(), counts);
        self.spot.used += 3;
        Some(ready)
    }

    // The sending side goes until it must wait or ends: the words sent. There is a loop for each side, so that the side is looked at once.
    // An error is the turn that is left to be made an access at a time. (`sent` is no index: it is the answer, one more where a word goes.)
    fn send_turns(&mut self, plan: Plan, first: usize) -> Result<usize, Turn>
        ensures kept { Kept self.old self.new }
        ensures onward { Onward plan (turn Direction.Tx first) self.old (turn_sent result) self.new }
    {
        let mut sent = first;
        while sent < plan.send {
            let Some(ready) = self.poll(Direction::Tx, plan.known) else {
                return Err(Turn {
                    side: Direction::Tx,
                    sent,
                });
            };
            if !ready {
                return Ok(sent);
            }
            self.access(Access::Send(sent));
            sent += 1;
        }
        Ok(sent)
    }

    // Then the receiving side.
    fn receive_turns(&mut self, plan: Plan, sent: usize) -> Result<(), Turn>
        ensures kept { Kept self.old self.new }
        ensures onward { Onward plan (turn Direction.Rx sent) self.old (turn_received sent result) self.new }
    {
        let left = Turn {
            side: Direction::Rx,
            sent,
        };
        while self.spot.received < plan.receive {
            if self.received_words.len() <= self.spot.received {
                return Err(left);
            }
            let Some(ready) = self.poll(Direction::Rx, plan.known) else {
                return Err(left);
            };
            if !ready {
                return Ok(());
            }
            let value = self.script[self.spot.used];
            self.make(Access::Receive(self.spot.received), value);
        }
        Ok(())
    }

    // Both sides in turn.
    fn both_turns(&mut self, plan: Plan, first: usize) -> Result<usize, Turn>
        ensures kept { Kept self.old self.new }
        ensures onward { Onward plan (turn Direction.Tx first) self.old (turn_next result) self.new }
    {
        let sent = self.send_turns(plan, first)?;
        self.receive_turns(plan, sent)?;
        Ok(sent)
    }

    // The same over again, as long as whole turns can be made. The turn that is left.
    pub(crate) fn take_turns(&mut self, plan: Plan) -> Turn
        ensures kept { Kept self.old self.new }
        ensures onward { Onward plan (turn Direction.Tx 0) self.old result self.new }
    {
        let mut sent = 0;
        loop {
            let before = self.spot.made;
            match self.both_turns(plan, sent) {
                Ok(n) => sent = n,
                Err(left) => return left,
            }
            if self.spot.made <= before {
                return Turn {
                    side: Direction::Tx,
                    sent,
                };
            }
        }
    }
}
