// An end of the bus: the machines of its transfer and its flush, and its port.
ghost use Rattle.std.specs.Prelude.{◌≡◌};
ghost use Rattle.machine.specs.Transfer.{due_access, resumed};
ghost use Rattle.runs.specs.Run.{ended};
ghost use Rattle.agreement.specs.End.{end_access};
ghost use Rattle.bus.specs.Held.{flush_next};

use crate::port::Port;
use machine::flush::Flush;
use machine::transfer::Transfer;
use sequences::access::Access;

#[derive(Clone, Copy)]
pub struct Station {
    pub transfer: Transfer,
    pub flush: Flush,
    pub port: Port,
}

impl Station {
    // The access that is due: of the transfer, and once that has answered, of the flush.
    pub(crate) fn due(&self) -> Access
        ensures { result ≡ end_access self.now.transfer self.now.flush }
    {
        match self.transfer.next() {
            Access::Done(_) => self.flush.next(),
            access => access,
        }
    }

    fn has_ended(&self) -> bool
        ensures { result ≡ ended (due_access self.now.transfer) }
    {
        matches!(self.transfer.next(), Access::Done(_))
    }

    // Both machines after the access that was due.
    pub(crate) fn answered(&mut self, value: u32)
        ensures transfer { self.new.transfer ≡ resumed self.old.transfer value }
        ensures flush { self.new.flush ≡ flush_next self.old.transfer self.old.flush value }
        ensures port { self.new.port ≡ self.old.port }
    {
        if self.has_ended() {
            self.flush = self.flush.answered(value);
        }
        self.transfer = self.transfer.answered(value);
    }
}
