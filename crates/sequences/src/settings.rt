// Settings of the peripheral that are changed while it is disabled.
ghost use Rattle.std.specs.Prelude.{◌≡◌};
ghost use Rattle.sequences.specs.Settings.{sample_of, pcspol_of};

// When received data is sampled.
#[derive(Clone, Copy)]
pub enum SamplePoint {
    // On the SCK edge.
    Edge,
    // On a delayed SCK edge.
    DelayedEdge,
}

// The polarity of a chip select.
#[derive(Clone, Copy)]
pub enum PcsPolarity {
    ActiveLow,
    ActiveHigh,
}

impl SamplePoint {
    // The value of CFGR1's SAMPLE.
    pub(crate) fn sample(self) -> u32
        ensures { result ≡ sample_of self }
    {
        self as u32
    }
}

impl PcsPolarity {
    // The chip select's bit in CFGR1's PCSPOL.
    pub(crate) fn pcspol(self) -> u32
        ensures { result ≡ pcspol_of self }
    {
        self as u32
    }
}
