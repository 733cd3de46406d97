// What the registers do on the bus.
ghost use Rattle.std.specs.Prelude.{◌<◌, ◌≡◌};
ghost use Rattle.agreement.specs.End.{role_of, place_of, fresh_registers, held_by};
ghost use Rattle.bus.specs.Held.{control_held};

use agreement::register::Role;
use manual::{Cr, Field, Register};

// The places of the registers held: their offsets are below 4 times as many.
pub(crate) const PLACES: usize = 30;

pub(crate) fn role_of(register: Register) -> Role
    ensures { result ≡ role_of register }
{
    match register {
        Register::PARAM => Role::Sizes,
        Register::CR => Role::Control,
        Register::SR => Role::Status,
        Register::FSR => Role::Counts,
        Register::TCR => Role::Commands,
        Register::TDR => Role::Sends,
        Register::RDR => Role::Receives,
        Register::IER
        | Register::DER
        | Register::CFGR0
        | Register::CFGR1
        | Register::DMR0
        | Register::DMR1
        | Register::CCR
        | Register::FCR
        | Register::RSR => Role::Holds,
    }
}

// Its place among the registers held.
pub(crate) fn place_of(register: Register) -> usize
    ensures place { result ≡ place_of register }
    ensures within { result < 30 }
{
    (register.offset() / 4) as usize
}

// The registers at fresh.
pub(crate) fn fresh_registers() -> [u32; PLACES]
    ensures { result ≡ fresh_registers }
{
    let mut registers = [0; PLACES];
    registers[place_of(Register::CR)] = 1;
    registers
}

// RTF and RRF read as 0.
fn control_held(value: u32) -> u32
    ensures { result ≡ control_held value }
{
    Field::Cr(Cr::RTF).set(0, Field::Cr(Cr::RRF).set(0, value))
}

// A write to a register.
pub(crate) fn hold(registers: &mut [u32; PLACES], register: Register, value: u32)
    ensures { registers.new
        ≡ held_by (role_of register) (place_of register) value registers.old }
{
    match role_of(register) {
        Role::Control => registers[place_of(register)] = control_held(value),
        Role::Commands | Role::Holds => registers[place_of(register)] = value,
        Role::Sizes | Role::Status | Role::Counts | Role::Sends | Role::Receives => {}
    }
}
