// The SPI mode and the chip select of a command.
ghost use Rattle.std.specs.Prelude.{◌≡◌, ◌≤◌, map, [], ◌∷◌};
ghost use Rattle.words.specs.Command.{cpol_of, cpha_of, mode_number, pcs_of};

#[derive(Clone, Copy)]
pub enum Polarity {
    IdleLow,
    IdleHigh,
}

impl Polarity {
    // The field CPOL.
    pub fn cpol(self) -> u32
        ensures { (result ≡ cpol_of self) × (result ≤ 1) }
    {
        self as u32
    }
}

#[derive(Clone, Copy)]
pub enum Phase {
    CaptureOnFirstTransition,
    CaptureOnSecondTransition,
}

impl Phase {
    // The field CPHA.
    pub fn cpha(self) -> u32
        ensures { (result ≡ cpha_of self) × (result ≤ 1) }
    {
        self as u32
    }
}

#[derive(Clone, Copy)]
pub struct Mode {
    pub polarity: Polarity,
    pub phase: Phase,
}

pub const MODE_0: Mode = Mode {
    polarity: Polarity::IdleLow,
    phase: Phase::CaptureOnFirstTransition,
};

pub const MODE_1: Mode = Mode {
    polarity: Polarity::IdleLow,
    phase: Phase::CaptureOnSecondTransition,
};

pub const MODE_2: Mode = Mode {
    polarity: Polarity::IdleHigh,
    phase: Phase::CaptureOnFirstTransition,
};

pub const MODE_3: Mode = Mode {
    polarity: Polarity::IdleHigh,
    phase: Phase::CaptureOnSecondTransition,
};

// The number of each mode is its CPOL above its CPHA.
fn modes() -> [Mode; 4]
    ensures { map mode_number result ≡ 0 ∷ 1 ∷ 2 ∷ 3 ∷ [] }
{
    [MODE_0, MODE_1, MODE_2, MODE_3]
}

// Peripheral chip select.
#[derive(Clone, Copy)]
pub enum Pcs {
    Pcs0,
    Pcs1,
    Pcs2,
    Pcs3,
}

impl Pcs {
    // The field PCS.
    pub fn number(self) -> u32
        ensures { (result ≡ pcs_of self) × (result ≤ 3) }
    {
        self as u32
    }
}
