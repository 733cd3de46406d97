// A call as a sequence of moves, each one register access, and what a move does.
ghost use Rattle.std.specs.Prelude.{◌≡◌, ◌<◌, eqb};
ghost use Rattle.manual.specs.declared.Cr.TheVariants.{MEN};
ghost use Rattle.manual.specs.declared.Field.TheVariants.{Cr as CrField};
ghost use Rattle.manual.specs.Manual.{read_field};
ghost use Rattle.manual.specs.Bits.{set_bits};
ghost use Rattle.sequences.specs.Sequence.{slot_of, kept_of, sequence_start, onward, holding, keeping, oversized, driving};
ghost use Rattle.sequences.specs.Sequence.{exponent_of, too_deep, depth_of, level_of, water_of, fifo_reset, polarized, cached_in};
ghost use Rattle.sequences.specs.Sequence.{change_register, changed, move_access, moved, move_at};

use crate::access::Access;
use crate::driver::{CcrCache, Lpspi};
use crate::settings::{PcsPolarity, SamplePoint};
use manual::{Ccr, Cfgr1, Cr, Fcr, Field, Param, Register, Rsr};
use words::clock::ClockConfigs;
use words::mode::Pcs;
use words::transaction::Direction;

// Named fields of a register, with their new values.
#[derive(Clone, Copy)]
pub enum Change {
    // CR: MEN 0, RST 1.
    Reset,
    // CR: RST 0.
    Release,
    // CR: RTF 1, RRF 1.
    ClearFifos,
    // CR: RTF 1 or RRF 1.
    ClearFifo(Direction),
    // CR: MEN.
    Enable(bool),
    // CR: MEN as it was kept.
    Restore,
    // CFGR1: MASTER 1, SAMPLE 1.
    Controller,
    // FCR: RXWATER 0, TXWATER half the FIFO's depth.
    HalfFull,
    // FCR: the direction's watermark.
    Watermark(Direction, u8),
    // CFGR1: SAMPLE.
    Sample(SamplePoint),
    // CFGR1: MASTER.
    Peripheral(bool),
    // CFGR1: PCSPOL as it was kept, with one chip select's bit changed.
    Polarity(Pcs, PcsPolarity),
}

// Moves are data and not closures: `DepthLaws.init_depth` and `ResetLaws.recover_restores` go over a call's moves. `End` is one of them and
// not a None, since it has an access too, the call's Ok, and past it the sequence stays (`moved`).
#[derive(Clone, Copy)]
pub enum Move {
    // Read a register and keep it.
    Keep(Register),
    // Read CCR and keep it, with DBT and SCKDIV from the driver's cache.
    KeepClock,
    // Read a register for the write that follows, or for the call's answer.
    Look(Register),
    // Read CR until MEN is 0.
    Wait,
    // The same; then the driver's cache takes this clock.
    WaitClock(ClockConfigs),
    // Read PARAM and keep it; the call is refused where the direction's exponent is over 4.
    Size(Direction),
    // The same of both directions.
    Sizes,
    // Read RSR and keep it; the next move is passed over where RXEMPTY is not 0.
    Arrived,
    // Write the register as it was looked at, changed.
    Modify(Change),
    // Write 0, changed.
    Set(Change),
    Write(Register, u32),
    // Write a kept register back.
    Put(Register),
    End,
}

// Where a sequence stands, and what it holds.
#[derive(Clone, Copy)]
pub struct Sequence {
    pub(crate) place: usize,
    // The register as last looked at.
    held: u32,
    // The registers that were kept, each at its `slot`: a map would need a heap.
    kept: [u32; 16],
    // PARAM had an exponent over 4. (A flag: the place stays beside it, and `call_access` asks both.)
    pub(crate) oversize: bool,
    driver: Lpspi,
}

// The moves of the longest table.
const LONGEST: usize = 27;

// The place of a register among the kept ones. Its discriminant is its offset.
fn slot(register: Register) -> usize
    ensures place { result ≡ slot_of register }
    ensures within { result < 16 }
{
    match register {
        Register::PARAM => 0,
        Register::CR => 1,
        Register::SR => 2,
        Register::IER => 3,
        Register::DER => 4,
        Register::CFGR0 => 5,
        Register::CFGR1 => 6,
        Register::DMR0 => 7,
        Register::DMR1 => 8,
        Register::CCR => 9,
        Register::FCR => 10,
        Register::FSR => 11,
        Register::TCR => 12,
        Register::TDR => 13,
        Register::RSR => 14,
        Register::RDR => 15,
    }
}

// The FIFO exponent of a direction.
fn exponent(direction: Direction, param: u32) -> u32
    ensures { result ≡ exponent_of direction param }
{
    match direction {
        Direction::Tx => Field::Param(Param::TXFIFO).read(param),
        Direction::Rx => Field::Param(Param::RXFIFO).read(param),
    }
}

// An exponent over 4, in either direction.
pub fn too_deep(param: u32) -> bool
    ensures { result ≡ too_deep param }
{
    4 < exponent(Direction::Tx, param) || 4 < exponent(Direction::Rx, param)
}

// The words of a direction's FIFO.
pub fn depth(direction: Direction, param: u32) -> u32
    ensures { result ≡ depth_of direction param }
{
    1 << exponent(direction, param).min(4)
}

// The watermark that is set: at most the FIFO's depth less one.
pub fn level(direction: Direction, watermark: u8, param: u32) -> u32
    ensures { result ≡ level_of direction watermark param }
{
    (watermark as u32).min(depth(direction, param) - 1)
}

// The direction's watermark in FCR.
pub fn water(direction: Direction) -> Field
    ensures { result ≡ water_of direction }
{
    match direction {
        Direction::Tx => Field::Fcr(Fcr::TXWATER),
        Direction::Rx => Field::Fcr(Fcr::RXWATER),
    }
}

fn fifo_reset(direction: Direction) -> Field
    ensures { result ≡ fifo_reset direction }
{
    match direction {
        Direction::Tx => Field::Cr(Cr::RTF),
        Direction::Rx => Field::Cr(Cr::RRF),
    }
}

// One bit of a word. Manual's `Bits::set` does the same, but is not public: `Bits::new` has a `requires`, and no public function has one.
fn set_bit(position: u32, bit: u32, word: u32) -> u32
    requires { position < 4 }
    ensures { result ≡ set_bits position 1 bit word }
{
    let low = word & ((1 << position) - 1);
    let high = (word >> position) >> 1;
    let field = bit & ((1 << 1) - 1);
    (((high << 1) | field) << position) | low
}

fn with_polarity(pcs: Pcs, polarity: PcsPolarity, pcspol: u32) -> u32
    ensures { result ≡ polarized pcs polarity pcspol }
{
    set_bit(pcs.number(), polarity.pcspol(), pcspol)
}

fn with_cache(cache: CcrCache, ccr: u32) -> u32
    ensures { result ≡ cached_in cache ccr }
{
    Field::Ccr(Ccr::DBT).set(
        cache.dbt as u32,
        Field::Ccr(Ccr::SCKDIV).set(cache.sckdiv as u32, ccr),
    )
}

fn enabled(cr: u32) -> bool
    ensures { result ≡ eqb (read_field (CrField MEN) cr) 1 }
{
    Field::Cr(Cr::MEN).read(cr) == 1
}

impl Change {
    pub(crate) fn register(self) -> Register
        ensures { result ≡ change_register self }
    {
        match self {
            Change::Reset
            | Change::Release
            | Change::ClearFifos
            | Change::ClearFifo(_)
            | Change::Enable(_)
            | Change::Restore => Register::CR,
            Change::Controller
            | Change::Sample(_)
            | Change::Peripheral(_)
            | Change::Polarity(_, _) => Register::CFGR1,
            Change::HalfFull | Change::Watermark(_, _) => Register::FCR,
        }
    }
}

impl Sequence {
    pub fn start(driver: Lpspi) -> Self
        ensures { result ≡ sequence_start driver }
    {
        Sequence {
            place: 0,
            held: 0,
            kept: [0; 16],
            oversize: false,
            driver,
        }
    }

    // The register as last looked at.
    pub fn held(self) -> u32
        ensures { result ≡ self.held }
    {
        self.held
    }

    pub fn driver(self) -> Lpspi
        ensures { result ≡ self.driver }
    {
        self.driver
    }

    // A register as it was kept.
    pub fn kept(self, register: Register) -> u32
        ensures { result ≡ kept_of register self.kept }
    {
        self.kept[slot(register)]
    }

    fn advance(self) -> Self
        ensures { result ≡ onward self }
    {
        let place = if self.place < LONGEST {
            self.place + 1
        } else {
            self.place
        };
        Sequence { place, ..self }
    }

    fn hold(self, held: u32) -> Self
        ensures { result ≡ holding held self }
    {
        Sequence { held, ..self }
    }

    fn keep(self, register: Register, value: u32) -> Self
        ensures { result ≡ keeping register value self }
    {
        let mut kept = self.kept;
        kept[slot(register)] = value;
        Sequence { kept, ..self }
    }

    fn refuse(self) -> Self
        ensures { result ≡ oversized self }
    {
        Sequence {
            oversize: true,
            ..self
        }
    }

    fn take(self, driver: Lpspi) -> Self
        ensures { result ≡ driving driver self }
    {
        Sequence { driver, ..self }
    }

    // A register's word, changed.
    fn apply(self, change: Change, word: u32) -> u32
        ensures { result ≡ changed change self.kept word }
    {
        match change {
            Change::Reset => Field::Cr(Cr::RST).set(1, Field::Cr(Cr::MEN).set(0, word)),
            Change::Release => Field::Cr(Cr::RST).set(0, word),
            Change::ClearFifos => Field::Cr(Cr::RRF).set(1, Field::Cr(Cr::RTF).set(1, word)),
            Change::ClearFifo(d) => fifo_reset(d).set(1, word),
            Change::Enable(on) => Field::Cr(Cr::MEN).set(u32::from(on), word),
            Change::Restore => {
                Field::Cr(Cr::MEN).set(Field::Cr(Cr::MEN).read(self.kept(Register::CR)), word)
            }
            Change::Controller => {
                Field::Cfgr1(Cfgr1::SAMPLE).set(1, Field::Cfgr1(Cfgr1::MASTER).set(1, word))
            }
            Change::HalfFull => Field::Fcr(Fcr::TXWATER).set(
                depth(Direction::Tx, self.kept(Register::PARAM)) / 2,
                Field::Fcr(Fcr::RXWATER).set(0, word),
            ),
            Change::Watermark(d, w) => water(d).set(level(d, w, self.kept(Register::PARAM)), word),
            Change::Sample(p) => Field::Cfgr1(Cfgr1::SAMPLE).set(p.sample(), word),
            Change::Peripheral(on) => Field::Cfgr1(Cfgr1::MASTER).set(u32::from(!on), word),
            Change::Polarity(pcs, p) => Field::Cfgr1(Cfgr1::PCSPOL).set(
                with_polarity(
                    pcs,
                    p,
                    Field::Cfgr1(Cfgr1::PCSPOL).read(self.kept(Register::CFGR1)),
                ),
                word,
            ),
        }
    }

    // The access of a move.
    pub(crate) fn access(self, due: Move) -> Access
        ensures { result ≡ move_access due self }
    {
        match due {
            Move::Keep(r) | Move::Look(r) => Access::Read(r),
            Move::KeepClock => Access::Read(Register::CCR),
            Move::Wait | Move::WaitClock(_) => Access::Read(Register::CR),
            Move::Size(_) | Move::Sizes => Access::Read(Register::PARAM),
            Move::Arrived => Access::Read(Register::RSR),
            Move::Modify(c) => Access::Write(c.register(), self.apply(c, self.held)),
            Move::Set(c) => Access::Write(c.register(), self.apply(c, 0)),
            Move::Write(r, w) => Access::Write(r, w),
            Move::Put(r) => Access::Write(r, self.kept(r)),
            Move::End => Access::Done(Ok(())),
        }
    }

    // The sequence after a move that was answered `value`.
    pub(crate) fn after(self, due: Move, value: u32) -> Self
        ensures { result ≡ moved due self value }
    {
        match due {
            Move::Keep(r) => self.keep(r, value).advance(),
            Move::KeepClock => {
                let ccr = with_cache(self.driver.ccr_cache(), value);
                self.keep(Register::CCR, ccr).advance()
            }
            Move::Look(_) => self.hold(value).advance(),
            Move::Wait | Move::WaitClock(_) if enabled(value) => self,
            Move::Wait => self.advance(),
            Move::WaitClock(c) => self.take(self.driver.with_clock(c)).advance(),
            Move::Size(d) if 4 < exponent(d, value) => self.refuse(),
            Move::Sizes if too_deep(value) => self.refuse(),
            Move::Size(_) | Move::Sizes => self.keep(Register::PARAM, value).advance(),
            Move::Arrived => {
                let s = self.keep(Register::RSR, value).advance();
                if Field::Rsr(Rsr::RXEMPTY).read(value) == 0 {
                    s
                } else {
                    s.advance()
                }
            }
            Move::Modify(_) | Move::Set(_) | Move::Write(_, _) | Move::Put(_) => self.advance(),
            Move::End => self,
        }
    }
}

// The move at a place of a table; past the table, End.
pub(crate) fn move_at(moves: &[Move], place: usize) -> Move
    ensures { result ≡ move_at moves.now place }
{
    moves.get(place).copied().unwrap_or(Move::End)
}
