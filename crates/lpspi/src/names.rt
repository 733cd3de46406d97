// The calls by name, with their arguments.
use crate::text::Words;
use sequences::settings::{PcsPolarity, SamplePoint};
use words::clock::ClockConfigs;
use words::mode::{Mode, Pcs};
use words::order::BitOrder;
use words::transaction::Direction;
use words::width::Width;

#[derive(Clone, Copy)]
pub(crate) enum Call {
    Elements(Width, Elements),
    Value(Value),
    Run(Run),
}

// Words and buffers of elements, and the commands of their frames.
#[derive(Clone, Copy)]
pub(crate) enum Elements {
    Pack(BitOrder),
    PackWords(BitOrder, usize),
    Unpack(BitOrder, usize, u32),
    UnpackWords(BitOrder, usize),
    Longer,
    Width(usize),
    New,
}

// Commands, clocks and fields.
#[derive(Clone, Copy)]
pub(crate) enum Value {
    New(u32),
    Command(Command),
    WithSettings(Settings),
    FromHz(u32, u32),
    TcrPcs(u32, u32),
    Flags,
}

#[derive(Clone, Copy)]
pub(crate) enum Transfer {
    ExchangeSeparate,
    Exchange,
    WriteNoRead,
    ReadNoWrite,
}

// Runs over a script.
#[derive(Clone, Copy)]
pub(crate) enum Run {
    Transfer(Width, Transfer),
    Flush,
    SoftReset,
    RecoverFromError,
    Init,
    ReadData,
    EnqueueData(u32),
    EnqueueTransaction(Command),
    Status,
    ClearStatus(u32),
    IsEnabled,
    SetEnable(bool),
    Watermark(Direction),
    SetWatermark(Direction, u8),
    ClearFifo(Direction),
    FifoStatus,
    SetClockHz(u32, u32),
    SetClockConfigs(ClockConfigs),
    SetSamplePoint(SamplePoint),
    SetPeripheralEnable(bool),
    SetChipSelectPolarity(Pcs, PcsPolarity),
}

// A frame of so many bits, and what its command says besides.
#[derive(Clone, Copy)]
pub(crate) struct Command {
    pub frame: u32,
    pub order: BitOrder,
    pub mode: Mode,
    pub pcs: Pcs,
}

// (With the frame and the driver's part; `words` has what goes into the command.)
#[derive(Clone, Copy)]
pub(crate) struct Settings {
    pub command: Command,
    pub byte_swap: bool,
    pub receive_mask: bool,
    pub transmit_mask: bool,
    pub continuous: bool,
    pub continuing: bool,
}

// The lists that a call takes, and how wide their elements are.
#[derive(Clone, Copy)]
pub(crate) struct Lists {
    pub read: Option<Width>,
    pub write: Option<Width>,
    // What a run has: driver, budget, log, raw and script.
    pub run: bool,
}

impl Command {
    fn parse(words: &mut Words) -> Option<Self> {
        Some(Command {
            frame: words.number()?,
            order: words.order()?,
            mode: words.mode()?,
            pcs: words.pcs()?,
        })
    }
}

impl Settings {
    fn parse(words: &mut Words) -> Option<Self> {
        Some(Settings {
            command: Command::parse(words)?,
            byte_swap: words.flag()?,
            receive_mask: words.flag()?,
            transmit_mask: words.flag()?,
            continuous: words.flag()?,
            continuing: words.flag()?,
        })
    }
}

fn clock_configs(words: &mut Words) -> Option<ClockConfigs> {
    Some(ClockConfigs {
        sckpcs: words.byte()?,
        pcssck: words.byte()?,
        dbt: words.byte()?,
        sckdiv: words.byte()?,
    })
}

// A name without its width, and the width: `pack` of `pack_u8`, `new` of `new_u8s`.
fn split_width(name: &str) -> Option<(&str, Width)> {
    let (stem, end) = name.rsplit_once('_')?;
    let width = if stem == "new" {
        end.strip_suffix('s')?
    } else {
        end
    };
    match width {
        "u8" => Some((stem, Width::U8)),
        "u16" => Some((stem, Width::U16)),
        "u32" => Some((stem, Width::U32)),
        _ => None,
    }
}

impl Transfer {
    fn named(stem: &str) -> Option<Self> {
        match stem {
            "exchange_separate" => Some(Transfer::ExchangeSeparate),
            "exchange" => Some(Transfer::Exchange),
            "write_no_read" => Some(Transfer::WriteNoRead),
            "read_no_write" => Some(Transfer::ReadNoWrite),
            _ => None,
        }
    }
}

impl Elements {
    fn parse(stem: &str, words: &mut Words) -> Option<Self> {
        Some(match stem {
            "pack" => Elements::Pack(words.order()?),
            "pack_words" => Elements::PackWords(words.order()?, words.size()?),
            "unpack" => Elements::Unpack(words.order()?, words.size()?, words.number()?),
            "unpack_words" => Elements::UnpackWords(words.order()?, words.size()?),
            "longer" => Elements::Longer,
            "new" => Elements::New,
            "width" => Elements::Width(words.size()?),
            _ => return None,
        })
    }
}

impl Run {
    fn parse(name: &str, words: &mut Words) -> Option<Self> {
        Some(match name {
            "flush" => Run::Flush,
            "soft_reset" => Run::SoftReset,
            "recover_from_error" => Run::RecoverFromError,
            "init" => Run::Init,
            "read_data" => Run::ReadData,
            "enqueue_data" => Run::EnqueueData(words.number()?),
            "enqueue_transaction" => Run::EnqueueTransaction(Command::parse(words)?),
            "status" => Run::Status,
            "clear_status" => Run::ClearStatus(words.number()?),
            "is_enabled" => Run::IsEnabled,
            "set_enable" => Run::SetEnable(words.flag()?),
            "watermark" => Run::Watermark(words.direction()?),
            "set_watermark" => Run::SetWatermark(words.direction()?, words.byte()?),
            "clear_fifo" => Run::ClearFifo(words.direction()?),
            "fifo_status" => Run::FifoStatus,
            "set_clock_hz" => Run::SetClockHz(words.number()?, words.number()?),
            "set_clock_configs" => Run::SetClockConfigs(clock_configs(words)?),
            "set_sample_point" => Run::SetSamplePoint(words.sample_point()?),
            "set_peripheral_enable" => Run::SetPeripheralEnable(words.flag()?),
            "set_chip_select_polarity" => {
                Run::SetChipSelectPolarity(words.pcs()?, words.polarity()?)
            }
            _ => return None,
        })
    }
}

impl Value {
    fn parse(name: &str, words: &mut Words) -> Option<Self> {
        Some(match name {
            "new" => Value::New(words.number()?),
            "command" => Value::Command(Command::parse(words)?),
            "with_settings" => Value::WithSettings(Settings::parse(words)?),
            "from_hz" => Value::FromHz(words.number()?, words.number()?),
            "tcr_pcs" => Value::TcrPcs(words.number()?, words.number()?),
            "flags" => Value::Flags,
            _ => return None,
        })
    }
}

impl Call {
    // The call of a name, with the arguments that stand next; nothing where there is no such call, or they are not its arguments.
    pub(crate) fn parse(name: &str, words: &mut Words) -> Option<Self> {
        if let Some((stem, width)) = split_width(name) {
            return match Transfer::named(stem) {
                Some(call) => Some(Call::Run(Run::Transfer(width, call))),
                None => Some(Call::Elements(width, Elements::parse(stem, words)?)),
            };
        }
        match Run::parse(name, words) {
            Some(call) => Some(Call::Run(call)),
            None => Some(Call::Value(Value::parse(name, words)?)),
        }
    }

    // The lists that it takes.
    pub(crate) fn lists(self) -> Lists {
        let (read, write) = match self {
            Call::Run(Run::Transfer(width, call)) => match call {
                Transfer::ExchangeSeparate => (Some(width), Some(width)),
                Transfer::Exchange | Transfer::ReadNoWrite => (Some(width), None),
                Transfer::WriteNoRead => (None, Some(width)),
            },
            // Words on the other side of a packing are no elements.
            Call::Elements(width, call) => match call {
                Elements::Pack(..) | Elements::New => (None, Some(width)),
                Elements::PackWords(..) => (Some(Width::U32), Some(width)),
                Elements::Unpack(..) => (Some(width), None),
                Elements::UnpackWords(..) => (Some(width), Some(Width::U32)),
                Elements::Longer => (Some(width), Some(width)),
                Elements::Width(..) => (None, None),
            },
            Call::Value(..) | Call::Run(..) => (None, None),
        };
        Lists {
            read,
            write,
            run: matches!(self, Call::Run(_)),
        }
    }
}
