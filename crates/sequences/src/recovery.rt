// `soft_reset` and `recover_from_error`.
ghost use Rattle.std.specs.Prelude.{◌≡◌};
ghost use Rattle.sequences.specs.Recovery.{reset_moves, soft_reset, recovery, recovery_move, recovery_access, recovered, recovery_after};

use crate::access::Access;
use crate::sequence::{Change, Move, Sequence};
use crate::status::Status;
use manual::Register;

const ERRORS: u32 = Status::TRANSMIT_ERROR.bits | Status::RECEIVE_ERROR.bits;

// The moves of a recovery.
static RECOVERY: [Move; 27] = [
    // Backup registers, and the enabled state.
    Move::Keep(Register::IER),
    Move::Keep(Register::DER),
    Move::Keep(Register::CFGR0),
    Move::Keep(Register::CFGR1),
    Move::Keep(Register::DMR0),
    Move::Keep(Register::DMR1),
    Move::KeepClock,
    Move::Keep(Register::FCR),
    Move::Keep(Register::CR),
    // Reset and disable.
    Move::Look(Register::CR),
    Move::Modify(Change::Reset),
    Move::Wait,
    Move::Look(Register::CR),
    Move::Modify(Change::Release),
    // Reset FIFOs.
    Move::Look(Register::CR),
    Move::Modify(Change::ClearFifos),
    // Restore settings, and the enabled state.
    Move::Put(Register::IER),
    Move::Put(Register::DER),
    Move::Put(Register::CFGR0),
    Move::Put(Register::CFGR1),
    Move::Put(Register::DMR0),
    Move::Put(Register::DMR1),
    Move::Put(Register::CCR),
    Move::Put(Register::FCR),
    Move::Look(Register::CR),
    Move::Modify(Change::Restore),
    CLEAR_ERRORS,
];

const CLEAR_ERRORS: Move = Move::Write(Register::SR, ERRORS);

// Past the end the last move stands, and not End as in the tables of calls (`move_at`).
fn recovery_move(place: usize) -> Move
    ensures { result ≡ recovery_move place }
{
    RECOVERY.get(place).copied().unwrap_or(CLEAR_ERRORS)
}

// The moves of `soft_reset`: all but the last.
pub(crate) fn soft_reset() -> &'static [Move]
    ensures { result.now ≡ soft_reset }
{
    &RECOVERY[..26]
}

pub(crate) fn recover_from_error() -> &'static [Move]
    ensures { result.now ≡ recovery }
{
    &RECOVERY
}

// The reset alone.
pub(crate) fn reset() -> &'static [Move]
    ensures { result.now ≡ reset_moves }
{
    &RECOVERY[9..16]
}

// Inside a transfer: the access that is due.
pub fn recovery_access(sequence: Sequence) -> Access
    ensures { result ≡ recovery_access sequence }
{
    sequence.access(recovery_move(sequence.place))
}

// The recovery after that access, which answered `value`.
pub fn recovery_after(sequence: Sequence, value: u32) -> Sequence
    ensures { result ≡ recovery_after sequence value }
{
    sequence.after(recovery_move(sequence.place), value)
}

pub fn is_recovered(sequence: Sequence) -> bool
    ensures { result ≡ recovered sequence }
{
    RECOVERY.len() <= sequence.place
}
