// The machine of a transfer.
ghost use Rattle.std.specs.Prelude.{◌≡◌};
ghost use Rattle.machine.specs.Transfer.{start_transfer, ended_transfer, turn_of, counted, one_sent, one_received};
ghost use Rattle.machine.specs.Transfer.{after_space, after_sending, after_receiving, after_recovery, turn_at, due_access, resumed};
ghost use Rattle.machine.specs.Transfer.{is_at_start};

use crate::poll::{Poll, Polled};
use manual::Register;
use sequences::access::{Access, Ending, RunError};
use sequences::driver::Lpspi;
use sequences::recovery::{is_recovered, recovery_access, recovery_after};
use sequences::sequence::Sequence;
use words::transaction::{Direction, LpspiError, Transaction};

// Where a transfer stands. Stages are data and not closures: `BoundLaws.unbounded` and `SevenLaws.seven` say what holds in each.
#[derive(Clone, Copy)]
pub enum Stage {
    // Waiting for a place for the command.
    Space(Poll),
    Command,
    // Waiting for a place for a word, and sending it.
    Sending(Poll),
    Send,
    // Waiting for a word, and receiving it.
    Receiving(Poll),
    Receive,
    Recovery(Direction),
    Ended(Ending),
}

// What a transfer works with: TCR's word, the FIFO words to send and to receive, and those done.
#[derive(Clone, Copy, Default)]
pub struct Work {
    pub command: u32,
    pub send: usize,
    pub receive: usize,
    pub sent: usize,
    pub received: usize,
}

#[derive(Clone, Copy)]
pub struct Transfer {
    phase: Stage,
    work: Work,
    reset: Sequence,
}

fn counted(n: usize, limit: usize) -> usize
    ensures { result ≡ counted n limit }
{
    if n < limit { n + 1 } else { n }
}

impl Work {
    // A side's turn: it goes on if it has words left, else the other side, else the transfer has ended.
    fn turn(self, side: Direction) -> Stage
        ensures { result ≡ turn_of side self }
    {
        let sending = (self.sent < self.send).then_some(Stage::Sending(Poll::Status));
        let receiving = (self.received < self.receive).then_some(Stage::Receiving(Poll::Status));
        let next = match side {
            Direction::Tx => sending.or(receiving),
            Direction::Rx => receiving.or(sending),
        };
        next.unwrap_or(Stage::Ended(Ok(())))
    }

    // One word sent, and one received: each counts its own field to its own end.
    fn one_sent(self) -> Self
        ensures { result ≡ one_sent self }
    {
        Work {
            sent: counted(self.sent, self.send),
            ..self
        }
    }

    fn one_received(self) -> Self
        ensures { result ≡ one_received self }
    {
        Work {
            received: counted(self.received, self.receive),
            ..self
        }
    }
}

fn after_space(poll: Poll, value: u32) -> Stage
    ensures { result ≡ after_space poll value }
{
    match poll.answered(Direction::Tx, value) {
        Polled::Failed => Stage::Ended(Err(LpspiError::Fifo(Direction::Tx).into())),
        Polled::TooDeep => Stage::Ended(Err(RunError::FifoExponent)),
        Polled::Next(p) => Stage::Space(p),
        Polled::Ready => Stage::Command,
        Polled::Unready => Stage::Space(Poll::Status),
    }
}

// This and `after_receiving` name a direction and stages of their own in four of five arms: one function would ask the side in each.
fn after_sending(poll: Poll, work: Work, value: u32) -> Stage
    ensures { result ≡ after_sending poll work value }
{
    match poll.answered(Direction::Tx, value) {
        Polled::Failed => Stage::Recovery(Direction::Tx),
        Polled::TooDeep => Stage::Ended(Err(RunError::FifoExponent)),
        Polled::Next(p) => Stage::Sending(p),
        Polled::Ready => Stage::Send,
        Polled::Unready => work.turn(Direction::Rx),
    }
}

fn after_receiving(poll: Poll, work: Work, value: u32) -> Stage
    ensures { result ≡ after_receiving poll work value }
{
    match poll.answered(Direction::Rx, value) {
        Polled::Failed => Stage::Recovery(Direction::Rx),
        Polled::TooDeep => Stage::Ended(Err(RunError::FifoExponent)),
        Polled::Next(p) => Stage::Receiving(p),
        Polled::Ready => Stage::Receive,
        Polled::Unready => work.turn(Direction::Tx),
    }
}

fn after_recovery(direction: Direction, reset: Sequence) -> Stage
    ensures { result ≡ after_recovery direction reset }
{
    if is_recovered(reset) {
        return Stage::Ended(Err(LpspiError::Fifo(direction).into()));
    }
    Stage::Recovery(direction)
}

impl Transfer {
    // A transfer with that command of so many FIFO words.
    pub fn start(driver: Lpspi, transaction: Transaction, send: usize, receive: usize) -> Self
        ensures { result ≡ start_transfer driver transaction.0 send receive }
    {
        Transfer {
            phase: Stage::Space(Poll::Status),
            work: Work {
                command: transaction.as_raw(),
                send,
                receive,
                ..Work::default()
            },
            reset: Sequence::start(driver),
        }
    }

    // A transfer that makes no access: it was empty, or refused.
    pub fn ended(driver: Lpspi, ending: Ending) -> Self
        ensures { result ≡ ended_transfer driver ending }
    {
        Transfer {
            phase: Stage::Ended(ending),
            work: Work::default(),
            reset: Sequence::start(driver),
        }
    }

    // It stands before the first read of a poll for its command's place, and no word is done: it begins, or its polls so far were unready.
    pub fn is_at_start(self) -> bool
        ensures { result ≡ is_at_start self }
    {
        matches!(self.phase, Stage::Space(Poll::Status))
            && self.work.sent == 0
            && self.work.received == 0
    }

    // What it works with.
    pub fn work(self) -> Work
        ensures { result ≡ self.work }
    {
        self.work
    }

    // The same transfer once its command is out and so many words are done, at the turn of a side.
    pub fn at_turn(self, side: Direction, sent: usize, received: usize) -> Self
        ensures { result ≡ turn_at side sent received self }
    {
        let work = Work {
            sent,
            received,
            ..self.work
        };
        Transfer {
            phase: work.turn(side),
            work,
            ..self
        }
    }

    // The access that is due. (This and `answered` are laid into the loop of a run: a call would copy the whole transfer for each access.)
    #[inline(always)]
    #[tactic(auto, unfolding(crate::specs::Transfer::due_access))]
    pub fn next(self) -> Access
        ensures { result ≡ due_access self }
    {
        match self.phase {
            Stage::Space(p) | Stage::Sending(p) | Stage::Receiving(p) => p.access(),
            Stage::Command => Access::Write(Register::TCR, self.work.command),
            Stage::Send => Access::Send(self.work.sent),
            Stage::Receive => Access::Receive(self.work.received),
            Stage::Recovery(_) => recovery_access(self.reset),
            Stage::Ended(e) => Access::Done(e),
        }
    }

    // The transfer after that access, which answered `value`.
    #[inline(always)]
    #[tactic(auto, unfolding(crate::specs::Transfer::resumed))]
    pub fn answered(self, value: u32) -> Self
        ensures { result ≡ resumed self value }
    {
        match self.phase {
            Stage::Space(p) => Transfer {
                phase: after_space(p, value),
                ..self
            },
            Stage::Command => Transfer {
                phase: self.work.turn(Direction::Tx),
                ..self
            },
            Stage::Sending(p) => Transfer {
                phase: after_sending(p, self.work, value),
                ..self
            },
            Stage::Send => {
                let work = self.work.one_sent();
                Transfer {
                    phase: work.turn(Direction::Tx),
                    work,
                    ..self
                }
            }
            Stage::Receiving(p) => Transfer {
                phase: after_receiving(p, self.work, value),
                ..self
            },
            Stage::Receive => {
                let work = self.work.one_received();
                Transfer {
                    phase: work.turn(Direction::Rx),
                    work,
                    ..self
                }
            }
            Stage::Recovery(d) => {
                let reset = recovery_after(self.reset, value);
                Transfer {
                    phase: after_recovery(d, reset),
                    reset,
                    ..self
                }
            }
            Stage::Ended(_) => self,
        }
    }
}
