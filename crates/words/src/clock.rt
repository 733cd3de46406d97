// The clock of a transfer, as the register CCR has it.
ghost use Rattle.std.specs.Prelude.{◌≡◌, ◌<◌, ◌≤◌};
ghost use Rattle.words.specs.Clock.{half_divider, clock_answer, clocked, clock_word};

use manual::{Ccr, Field};

#[derive(Clone, Copy)]
pub struct ClockConfigs {
    pub sckpcs: u8,
    pub pcssck: u8,
    pub dbt: u8,
    pub sckdiv: u8,
}

// The source clock or the wanted clock is 0.
#[derive(Clone, Copy)]
pub struct ZeroClock;

impl ClockConfigs {
    pub const MIN_HALF_DIV: u64 = 3;

    pub const MAX_HALF_DIV: u64 = 128;

    // The clock that the Rust computes in `compute_spi_clock`.
    pub fn from_hz(source_clock_hz: u32, spi_clock_hz: u32) -> Result<ClockConfigs, ZeroClock>
        ensures { clock_answer result ≡ clocked source_clock_hz spi_clock_hz }
    {
        if source_clock_hz == 0 || spi_clock_hz == 0 {
            return Err(ZeroClock);
        }
        let half_div = half_divider(source_clock_hz, spi_clock_hz);
        let half = (half_div - 1) as u8;
        let sckdiv = (2 * (half_div - 1)) as u8;
        Ok(ClockConfigs {
            sckpcs: half,
            pcssck: half,
            dbt: half,
            sckdiv,
        })
    }

    // The word of the register CCR.
    pub fn as_raw(self) -> u32
        ensures { result ≡ clock_word self }
    {
        let sckdiv = Field::Ccr(Ccr::SCKDIV).set(self.sckdiv as u32, 0);
        let dbt = Field::Ccr(Ccr::DBT).set(self.dbt as u32, sckdiv);
        let pcssck = Field::Ccr(Ccr::PCSSCK).set(self.pcssck as u32, dbt);
        Field::Ccr(Ccr::SCKPCS).set(self.sckpcs as u32, pcssck)
    }
}

// Half the divider from the source clock to SCK, rounded up and clamped.
fn half_divider(source: u32, clock: u32) -> u64
    requires { (0 < source) × (0 < clock) }
    ensures { (result ≡ half_divider source clock) × (3 ≤ result) × (result ≤ 128) }
{
    let up = 1 + (source as u64 - 1) / (2 * clock as u64);
    up.clamp(ClockConfigs::MIN_HALF_DIV, ClockConfigs::MAX_HALF_DIV)
}
