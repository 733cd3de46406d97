// What a host passes as a number. The C interface has no enums: every number is taken, and bits above those that are read do not count.
ghost use Rattle.std.specs.Prelude.{◌≡◌, ◌≤◌};
ghost use Rattle.c_api.specs.Host.{order_from, mode_from, pcs_from};
ghost use Rattle.c_api.specs.HostRun.{driver_of, driver_number};
ghost use Rattle.c_api.specs.HostCall.{odd, direction_from, sample_from, pcs_polarity_from, clock_from};

use manual::{Ccr, Field};
use sequences::driver::Lpspi;
use sequences::settings::{PcsPolarity, SamplePoint};
use words::clock::ClockConfigs;
use words::mode::{Mode, Pcs, Phase, Polarity};
use words::order::BitOrder;
use words::transaction::Direction;

#[derive(Clone, Copy)]
pub(crate) struct Number(pub u32);

impl From<Number> for bool {
    ghost from_gives = { λ n on. on ≡ odd n.0 };

    fn from(n: Number) -> Self {
        n.0 % 2 == 1
    }
}

impl From<Number> for Direction {
    ghost from_gives = { λ n direction. direction ≡ direction_from n.0 };

    fn from(n: Number) -> Self {
        match n.0 % 2 {
            1 => Direction::Rx,
            _ => Direction::Tx,
        }
    }
}

impl From<Number> for SamplePoint {
    ghost from_gives = { λ n point. point ≡ sample_from n.0 };

    fn from(n: Number) -> Self {
        match n.0 % 2 {
            1 => SamplePoint::DelayedEdge,
            _ => SamplePoint::Edge,
        }
    }
}

impl From<Number> for PcsPolarity {
    ghost from_gives = { λ n polarity. polarity ≡ pcs_polarity_from n.0 };

    fn from(n: Number) -> Self {
        match n.0 % 2 {
            1 => PcsPolarity::ActiveHigh,
            _ => PcsPolarity::ActiveLow,
        }
    }
}

// The SPI mode number: bit 1 is the polarity, bit 0 the phase.
impl From<Number> for Mode {
    ghost from_gives = { λ n mode. mode ≡ mode_from n.0 };

    fn from(n: Number) -> Self {
        let polarity = match n.0 / 2 % 2 {
            0 => Polarity::IdleLow,
            _ => Polarity::IdleHigh,
        };
        let phase = match n.0 % 2 {
            0 => Phase::CaptureOnFirstTransition,
            _ => Phase::CaptureOnSecondTransition,
        };
        Mode { polarity, phase }
    }
}

impl From<Number> for Pcs {
    ghost from_gives = { λ n pcs. pcs ≡ pcs_from n.0 };

    fn from(n: Number) -> Self {
        match n.0 % 4 {
            0 => Pcs::Pcs0,
            1 => Pcs::Pcs1,
            2 => Pcs::Pcs2,
            _ => Pcs::Pcs3,
        }
    }
}

// The fields of a word of CCR.
impl From<Number> for ClockConfigs {
    ghost from_gives = { λ n clock. clock ≡ clock_from n.0 };

    fn from(n: Number) -> Self {
        ClockConfigs {
            sckpcs: Field::Ccr(Ccr::SCKPCS).read(n.0) as u8,
            pcssck: Field::Ccr(Ccr::PCSSCK).read(n.0) as u8,
            dbt: Field::Ccr(Ccr::DBT).read(n.0) as u8,
            sckdiv: Field::Ccr(Ccr::SCKDIV).read(n.0) as u8,
        }
    }
}

// A driver value: SCKDIV in bits 7..0, DBT in 15..8, the chip select in 17..16, the mode in 19..18, bit 20 for LSB.
impl From<Number> for Lpspi {
    ghost from_gives = { λ n driver. driver ≡ driver_of n.0 };

    fn from(n: Number) -> Self {
        let clock = ClockConfigs {
            sckpcs: 0,
            pcssck: 0,
            dbt: (n.0 / 0x100 % 0x100) as u8,
            sckdiv: (n.0 % 0x100) as u8,
        };
        Lpspi::new()
            .with_bit_order(order_of(Number(n.0 / 0x10_0000).into()))
            .with_mode(Number(n.0 / 0x4_0000).into())
            .with_pcs(Number(n.0 / 0x1_0000).into())
            .with_clock(clock)
    }
}

impl From<Lpspi> for Number {
    ghost from_gives = { λ driver n. (n.0 ≡ driver_number driver) × (n.0 ≤ 0x1FFFFF) };

    fn from(driver: Lpspi) -> Self {
        let Mode { polarity, phase } = driver.mode();
        let mode = polarity.cpol() * 2 + phase.cpha();
        let cache = driver.ccr_cache();
        let order = driver.bit_order().lsbf();
        let pcs = driver.pcs().number();
        Number(
            (((order * 4 + mode) * 4 + pcs) * 256 + cache.dbt as u32) * 256 + cache.sckdiv as u32,
        )
    }
}

// No `From`: both types are of other crates.
pub(crate) fn order_of(lsb: bool) -> BitOrder
    ensures { result ≡ order_from lsb }
{
    if lsb { BitOrder::Lsb } else { BitOrder::Msb }
}
