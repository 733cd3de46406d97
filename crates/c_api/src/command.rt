// The word of the register TCR. The C interface: a refusal is a number, and the word goes where the host says.
ghost use Rattle.std.specs.Prelude.{◌≡◌};
ghost use Rattle.words.specs.Command.{command_answer, commanded, framed, settings_word};
ghost use Rattle.c_api.specs.Host.{settings_from, answered, kept};

use crate::number::{Number, order_of};
use words::transaction::{LpspiError, Settings, Transaction};

// A host's frame size has 32 bits: one that is too large is refused and not cut.
pub(crate) fn command_of(frame_size: u32) -> Result<Transaction, LpspiError>
    ensures { command_answer result ≡ framed frame_size }
{
    let Ok(size) = u16::try_from(frame_size) else {
        return Err(LpspiError::FrameSize);
    };
    Transaction::new(size)
}

#[unsafe(no_mangle)]
pub extern "C" fn lpspi_command(
    frame_size: u32,
    byte_swap: bool,
    lsb: bool,
    receive_mask: bool,
    transmit_mask: bool,
    continuous: bool,
    continuing: bool,
    mode: u32,
    pcs: u32,
    word: &mut u32,
) -> u32
    ensures { answered result word.new
        ≡ kept
        (commanded
        (settings_word (settings_from byte_swap lsb receive_mask transmit_mask continuous continuing mode pcs))
        frame_size) word.old }
{
    let Ok(command) = command_of(frame_size) else {
        return 1;
    };
    *word = command
        .with_settings(Settings {
            byte_swap,
            order: order_of(lsb),
            receive_mask,
            transmit_mask,
            continuous,
            continuing,
            mode: Number(mode).into(),
            pcs: Number(pcs).into(),
        })
        .as_raw();
    0
}
