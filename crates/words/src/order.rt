// Data is transferred most, or least, significant bit first.
ghost use Rattle.std.specs.Prelude.{◌≡◌, ◌≤◌};
ghost use Rattle.words.specs.Command.{lsbf_of};

#[derive(Clone, Copy, PartialEq, Eq)]
pub enum BitOrder {
    Msb,
    Lsb,
}

impl BitOrder {
    // The field LSBF.
    pub fn lsbf(self) -> u32
        ensures { (result ≡ lsbf_of self) × (result ≤ 1) }
    {
        self as u32
    }
}
