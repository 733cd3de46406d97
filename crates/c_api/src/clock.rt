// The word of the register CCR. The C interface: a refusal is a number, and the word goes where the host says.
ghost use Rattle.std.specs.Prelude.{◌≡◌};
ghost use Rattle.c_api.specs.Host.{answered, kept, clock_answered};

use words::clock::ClockConfigs;

#[unsafe(no_mangle)]
pub extern "C" fn lpspi_clock(source_clock_hz: u32, spi_clock_hz: u32, word: &mut u32) -> u32
    ensures { answered result word.new
        ≡ kept (clock_answered source_clock_hz spi_clock_hz) word.old }
{
    let Ok(configs) = ClockConfigs::from_hz(source_clock_hz, spi_clock_hz) else {
        return 6;
    };
    *word = configs.as_raw();
    0
}
