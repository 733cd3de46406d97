// What a trial shows of an end.
use bus::fifo::Fifo;
use bus::trial::EndState;
use sequences::access::{Access, ending_number};
use std::fmt;
use words::width::Width;
use words::word::Word;

// An answer, or that there is none yet.
#[derive(Clone, Copy)]
struct Answer(Access);

impl fmt::Display for Answer {
    fn fmt<W: fmt::Write>(&self, f: &mut fmt::Formatter<W>) -> fmt::Result {
        match self.0 {
            Access::Done(ending) => write!(f, "{}", ending_number(ending)),
            _ => f.write_str("-"),
        }
    }
}

// The words of a FIFO, which gives them by place, each behind a space.
#[derive(Clone, Copy)]
struct Queue<'a>(&'a Fifo);

impl<'a> fmt::Display for Queue<'a> {
    fn fmt<W: fmt::Write>(&self, f: &mut fmt::Formatter<W>) -> fmt::Result {
        for i in 0..self.0.len() {
            write!(f, " {:08x}", self.0.word(i))?;
        }
        Ok(())
    }
}

// An end: its answers, its flags and its queues.
#[derive(Clone, Copy)]
pub(crate) struct End<'a>(pub &'a EndState);

impl<'a> fmt::Display for End<'a> {
    fn fmt<W: fmt::Write>(&self, f: &mut fmt::Formatter<W>) -> fmt::Result {
        let station = &self.0.station;
        let transfer = Answer(station.transfer.next());
        let flush = Answer(station.flush.next());
        write!(f, " transfer {transfer} flush {flush} flags")?;
        let port = &station.port;
        if port.t {
            f.write_str(" T")?;
        }
        if port.r {
            f.write_str(" R")?;
        }
        f.write_str(" sending")?;
        for _ in 0..port.commands {
            f.write_str(" command")?;
        }
        write!(
            f,
            "{} receiving{}",
            Queue(&port.transmit),
            Queue(&port.receive)
        )
    }
}

// Elements in the digits of a width, each behind a space.
#[derive(Clone, Copy)]
pub(crate) struct Elements<'a, T> {
    pub width: Width,
    pub elements: &'a [T],
}

impl<'a, T: Word> fmt::Display for Elements<'a, T> {
    fn fmt<W: fmt::Write>(&self, f: &mut fmt::Formatter<W>) -> fmt::Result {
        let digits = match self.width {
            Width::U8 => 2,
            Width::U16 => 4,
            Width::U32 => 8,
        };
        for &element in self.elements {
            write!(f, " {:0digits$x}", element.into_word())?;
        }
        Ok(())
    }
}
