// What a call answers, and what a run leaves: accesses and value, then the number of the result, accesses made, answers used, driver value.
use crate::print;
use calls::results::{Answered, FifoStatus};
use runs::result::RunResult;
use sequences::access::{RunError, ending_number};
use sequences::status::Status;
use std::io;
use words::clock::ZeroClock;
use words::order::BitOrder;
use words::pack::TooManyElements;
use words::transaction::{Direction, LpspiError, Transaction};

// What is printed in lines of its own. (Not Display: most of the types are of other crates.)
pub(crate) trait Answer: Copy {
    fn show(self, out: &impl Print) -> io::Result<()>;
}

// A value, or its refusal.
impl<T: Answer, E: Answer> Answer for Result<T, E> {
    fn show(self, out: &impl Print) -> io::Result<()> {
        match self {
            Ok(value) => value.show(out),
            Err(refusal) => refusal.show(out),
        }
    }
}

// Document 01's number.
impl Answer for RunError {
    fn show(self, out: &impl Print) -> io::Result<()> {
        println!(out; "{}", self.number())
    }
}

impl Answer for LpspiError {
    fn show(self, out: &impl Print) -> io::Result<()> {
        RunError::from(self).show(out)
    }
}

impl Answer for ZeroClock {
    fn show(self, out: &impl Print) -> io::Result<()> {
        RunError::ZeroClock.show(out)
    }
}

impl Answer for TooManyElements {
    fn show(self, out: &impl Print) -> io::Result<()> {
        println!(out; "8")
    }
}

// Of what is left in a buffer alone.
impl Answer for () {
    fn show(self, _out: &impl Print) -> io::Result<()> {
        Ok(())
    }
}

// A FIFO word.
impl Answer for u32 {
    fn show(self, out: &impl Print) -> io::Result<()> {
        println!(out; "{self:08X}")
    }
}

impl Answer for Transaction {
    fn show(self, out: &impl Print) -> io::Result<()> {
        self.as_raw().show(out)
    }
}

// A received word.
impl Answer for Option<u32> {
    fn show(self, out: &impl Print) -> io::Result<()> {
        match self {
            Some(word) => println!(out; "word {word:08X}"),
            None => println!(out; "no word"),
        }
    }
}

// A watermark.
impl Answer for u8 {
    fn show(self, out: &impl Print) -> io::Result<()> {
        println!(out; "value {self}")
    }
}

// Whether the peripheral is enabled.
impl Answer for bool {
    fn show(self, out: &impl Print) -> io::Result<()> {
        println!(out; "{}", if self { "enabled" } else { "not enabled" })
    }
}

impl Answer for Status {
    fn show(self, out: &impl Print) -> io::Result<()> {
        println!(out; "status {:08X}", self.bits())
    }
}

impl Answer for FifoStatus {
    fn show(self, out: &impl Print) -> io::Result<()> {
        let (rxcount, txcount, rxcap, txcap) = (self.rxcount, self.txcount, self.rxcap, self.txcap);
        println!(out; "fifo {rxcount} {txcount} {rxcap} {txcap}")?;
        for (name, direction) in [("Tx", Direction::Tx), ("Rx", Direction::Rx)] {
            let not = if self.is_full(direction) { "" } else { "not " };
            println!(out; "{name} {not}full")?;
        }
        Ok(())
    }
}

// The last line of a run, with the driver value as a line names it.
impl Answer for RunResult {
    fn show(self, out: &impl Print) -> io::Result<()> {
        let (number, made, used) = (ending_number(self.ending), self.accesses, self.answers);
        let order = match self.driver.bit_order() {
            BitOrder::Msb => 'M',
            BitOrder::Lsb => 'L',
        };
        let mode = self.driver.mode();
        let mode = mode.polarity.cpol() * 2 + mode.phase.cpha();
        let (pcs, cache) = (self.driver.pcs().number(), self.driver.ccr_cache());
        let (dbt, sckdiv) = (cache.dbt, cache.sckdiv);
        println!(out;
            "{number} {made} {used} driver {order} {mode} {pcs} 0x{dbt:02X} 0x{sckdiv:02X}"
        )
    }
}

// What a run leaves that has no value.
pub(crate) fn plain(out: &impl Print, r: RunResult, log: &[u32]) -> io::Result<()> {
    print::accesses(out, log, r.accesses)?;
    r.show(out)
}

// What a run leaves, and its value.
pub(crate) fn answered<T: Answer>(out: &impl Print, r: Answered<T>, log: &[u32]) -> io::Result<()> {
    print::accesses(out, log, r.result.accesses)?;
    r.value.show(out)?;
    r.result.show(out)
}
