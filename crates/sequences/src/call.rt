// The calls beside transfer and flush: each is the table of its moves.
ghost use Rattle.std.specs.Prelude.{◌≡◌, ◌++◌};
ghost use Rattle.sequences.specs.Sequence.{move_at};
ghost use Rattle.sequences.specs.Call.{disabled, moves_of, call_driver, call_start, call_access, call_after};

use crate::access::{Access, RunError};
use crate::driver::Lpspi;
use crate::recovery::{recover_from_error, reset, soft_reset};
use crate::sequence::{Change, Move, Sequence, move_at};
use crate::settings::{PcsPolarity, SamplePoint};
use crate::status::Status;
use manual::Register;
use words::clock::ClockConfigs;
use words::mode::Pcs;
use words::transaction::{Direction, Transaction};

#[derive(Clone, Copy)]
pub enum Call {
    SoftReset,
    RecoverFromError,
    Init,
    GetWatermark,
    SetWatermark(Direction, u8),
    GetStatus,
    ClearStatus(Status),
    IsEnabled,
    SetEnable(bool),
    ClearFifo(Direction),
    GetFifoStatus,
    ReadData,
    EnqueueData(u32),
    EnqueueTransaction(Transaction),
    SetClockConfigs(ClockConfigs),
    SetSamplePoint(SamplePoint),
    SetPeripheralEnable(bool),
    SetChipSelectPolarity(Pcs, PcsPolarity),
}

// The move at a place of two tables in a row.
fn move_in(first: &[Move], second: &[Move], place: usize) -> Move
    ensures { result ≡ move_at (first.now ++ second.now) place }
{
    if place < first.len() {
        first[place]
    } else {
        move_at(second, place - first.len())
    }
}

// A disabled operation: its entry, where MEN is kept and set to 0, and the wait until it is; the operation; the restore of MEN.
fn disabled(wait: Move, operation: &[Move], place: usize) -> Move
    ensures { result ≡ move_at (disabled wait operation.now) place }
{
    let entry = [
        Move::Keep(Register::CR),
        Move::Look(Register::CR),
        Move::Modify(Change::Enable(false)),
        wait,
    ];
    let restore = [Move::Look(Register::CR), Move::Modify(Change::Restore)];
    if place < entry.len() {
        entry[place]
    } else {
        move_in(operation, &restore, place - entry.len())
    }
}

impl Call {
    // The move at a place of the call's table.
    fn due(self, place: usize) -> Move
        ensures { result ≡ move_at (moves_of self) place }
    {
        match self {
            Call::SoftReset => move_at(soft_reset(), place),
            Call::RecoverFromError => move_at(recover_from_error(), place),
            Call::Init => move_in(
                reset(),
                &[
                    // Configure master mode.
                    Move::Set(Change::Controller),
                    // Configure watermarks.
                    Move::Size(Direction::Tx),
                    Move::Set(Change::HalfFull),
                    Move::Set(Change::Enable(true)),
                ],
                place,
            ),
            Call::GetWatermark => move_at(&[Move::Look(Register::FCR)], place),
            Call::SetWatermark(d, w) => move_at(
                &[
                    Move::Size(d),
                    Move::Look(Register::FCR),
                    Move::Modify(Change::Watermark(d, w)),
                ],
                place,
            ),
            Call::GetStatus => move_at(&[Move::Look(Register::SR)], place),
            Call::ClearStatus(flags) => move_at(&[Move::Write(Register::SR, flags.w1c())], place),
            Call::IsEnabled => move_at(&[Move::Look(Register::CR)], place),
            Call::SetEnable(on) => move_at(
                &[Move::Look(Register::CR), Move::Modify(Change::Enable(on))],
                place,
            ),
            Call::ClearFifo(d) => move_at(
                &[Move::Look(Register::CR), Move::Modify(Change::ClearFifo(d))],
                place,
            ),
            Call::GetFifoStatus => move_at(&[Move::Sizes, Move::Look(Register::FSR)], place),
            Call::ReadData => move_at(&[Move::Arrived, Move::Look(Register::RDR)], place),
            Call::EnqueueData(word) => move_at(&[Move::Write(Register::TDR, word)], place),
            Call::EnqueueTransaction(t) => {
                move_at(&[Move::Write(Register::TCR, t.as_raw())], place)
            }
            Call::SetClockConfigs(c) => disabled(
                Move::WaitClock(c),
                &[Move::Write(Register::CCR, c.as_raw())],
                place,
            ),
            Call::SetSamplePoint(p) => disabled(
                Move::Wait,
                &[Move::Look(Register::CFGR1), Move::Modify(Change::Sample(p))],
                place,
            ),
            Call::SetPeripheralEnable(on) => disabled(
                Move::Wait,
                &[
                    Move::Look(Register::CFGR1),
                    Move::Modify(Change::Peripheral(on)),
                ],
                place,
            ),
            // PCSPOL is read, then modified.
            Call::SetChipSelectPolarity(pcs, p) => disabled(
                Move::Wait,
                &[
                    Move::Keep(Register::CFGR1),
                    Move::Look(Register::CFGR1),
                    Move::Modify(Change::Polarity(pcs, p)),
                ],
                place,
            ),
        }
    }

    fn driver(self, driver: Lpspi) -> Lpspi
        ensures { result ≡ call_driver self driver }
    {
        match self {
            Call::Init => Lpspi::new(),
            _ => driver,
        }
    }

    // The sequence at its start: `init` has a driver value of its own.
    pub fn start(self, driver: Lpspi) -> Sequence
        ensures { result ≡ call_start self driver }
    {
        Sequence::start(self.driver(driver))
    }

    // The access that is due.
    #[tactic(auto, unfolding(crate::specs::Call::call_access))]
    pub fn next(self, sequence: Sequence) -> Access
        ensures { result ≡ call_access self sequence }
    {
        if sequence.oversize {
            return Access::Done(Err(RunError::FifoExponent));
        }
        sequence.access(self.due(sequence.place))
    }

    // The sequence after that access, which answered `value`.
    #[tactic(auto, unfolding(crate::specs::Call::call_after))]
    pub fn answered(self, sequence: Sequence, value: u32) -> Sequence
        ensures { result ≡ call_after self sequence value }
    {
        sequence.after(self.due(sequence.place), value)
    }
}
