// A run taken ahead by whole turns: the waiting for the command's place, the command, and as many turns as certainly fit.
ghost use Rattle.std.specs.Prelude.{◌≡◌, List, ℕ};
ghost use Rattle.machine.specs.Transfer.{due_access, resumed};
ghost use Rattle.runs.specs.Running.{Kept, At};
ghost use Rattle.runs.specs.Turns.{Waited};

use crate::drive::at;
use crate::fast::turns::Plan;
use crate::running::Running;
use machine::transfer::Transfer;
use manual::Register;
use sequences::access::Access;
use words::transaction::Direction;

impl Running<'_> {
    // Polls for a place for the command, and the command. None where it is left to be sent an access at a time.
    fn command(&mut self, command: u32, known: u32) -> Option<()>
        ensures kept { Kept self.old self.new }
        ensures received { self.new.spot.received ≡ self.old.spot.received }
        ensures waited { Waited command self.old result self.new }
    {
        while !self.poll(Direction::Tx, known)? {}
        self.access(Access::Write(Register::TCR, command));
        Some(())
    }

    // The transfer that the run has come to, from one that stands at its start; any other is left as it is.
    pub(crate) fn ahead(&mut self, transfer: Transfer) -> Transfer
        ensures kept { Kept self.old self.new }
        ensures ahead { (old olds : List ℕ) → self.old.spot.received ≡ 0
            → At due_access resumed old olds transfer transfer self.old
            → At due_access resumed old olds transfer result self.new }
    {
        if !transfer.is_at_start() {
            return transfer;
        }
        let work = transfer.work();
        // What PARAM answers first: the second answer. A peripheral answers it ever after; where a script has another answer, the rest of
        // the run goes an access at a time.
        let plan = Plan {
            send: work.send,
            receive: work.receive,
            known: at(self.script, 1),
        };
        if self.command(work.command, plan.known).is_none() {
            return transfer;
        }
        let left = self.take_turns(plan);
        transfer.at_turn(left.side, left.sent, self.spot.received)
    }
}
