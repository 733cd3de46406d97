// The registers of the LPSPI and their fields, by the manual's names.
#![tactic(auto)]

ghost use Rattle.std.specs.Prelude.{◌≡◌};
ghost use Rattle.manual.specs.Manual.{offset_of, bits_of, read_field, set_field};

mod bits;

use bits::Bits;

// A register, as the byte offset from the start of the register block.
#[derive(Clone, Copy)]
pub enum Register {
    PARAM = 0x04,
    CR = 0x10,
    SR = 0x14,
    IER = 0x18,
    DER = 0x1C,
    CFGR0 = 0x20,
    CFGR1 = 0x24,
    DMR0 = 0x30,
    DMR1 = 0x34,
    CCR = 0x40,
    FCR = 0x58,
    FSR = 0x5C,
    TCR = 0x60,
    TDR = 0x64,
    RSR = 0x70,
    RDR = 0x74,
}

impl Register {
    pub fn offset(self) -> u32
        ensures { result ≡ offset_of self }
    {
        self as u32
    }
}

// The fields of PARAM.
#[derive(Clone, Copy)]
pub enum Param {
    TXFIFO,
    RXFIFO,
}

// The fields of CR.
#[derive(Clone, Copy)]
pub enum Cr {
    MEN,
    RST,
    RTF,
    RRF,
}

// The fields of SR.
#[derive(Clone, Copy)]
pub enum Sr {
    TDF,
    RDF,
    WCF,
    FCF,
    TCF,
    TEF,
    REF,
    DMF,
    MBF,
}

// The fields of CFGR1.
#[derive(Clone, Copy)]
pub enum Cfgr1 {
    MASTER,
    SAMPLE,
    PCSPOL,
}

// The fields of CCR.
#[derive(Clone, Copy)]
pub enum Ccr {
    SCKDIV,
    DBT,
    PCSSCK,
    SCKPCS,
}

// The fields of FCR.
#[derive(Clone, Copy)]
pub enum Fcr {
    TXWATER,
    RXWATER,
}

// The fields of FSR.
#[derive(Clone, Copy)]
pub enum Fsr {
    TXCOUNT,
    RXCOUNT,
}

// The fields of TCR.
#[derive(Clone, Copy)]
pub enum Tcr {
    FRAMESZ,
    TXMSK,
    RXMSK,
    CONTC,
    CONT,
    BYSW,
    LSBF,
    PCS,
    CPHA,
    CPOL,
}

// The fields of RSR.
#[derive(Clone, Copy)]
pub enum Rsr {
    SOF,
    RXEMPTY,
}

// A field of a register.
#[derive(Clone, Copy)]
pub enum Field {
    Param(Param),
    Cr(Cr),
    Sr(Sr),
    Cfgr1(Cfgr1),
    Ccr(Ccr),
    Fcr(Fcr),
    Fsr(Fsr),
    Tcr(Tcr),
    Rsr(Rsr),
}

impl Field {
    // The table of the manual: each field's lowest bit and its width.
    fn bits(self) -> Bits
        ensures { result ≡ bits_of self }
    {
        match self {
            Field::Param(Param::TXFIFO) => Bits::new(0, 8),
            Field::Param(Param::RXFIFO) => Bits::new(8, 8),
            Field::Cr(Cr::MEN) => Bits::new(0, 1),
            Field::Cr(Cr::RST) => Bits::new(1, 1),
            Field::Cr(Cr::RTF) => Bits::new(8, 1),
            Field::Cr(Cr::RRF) => Bits::new(9, 1),
            Field::Sr(Sr::TDF) => Bits::new(0, 1),
            Field::Sr(Sr::RDF) => Bits::new(1, 1),
            Field::Sr(Sr::WCF) => Bits::new(8, 1),
            Field::Sr(Sr::FCF) => Bits::new(9, 1),
            Field::Sr(Sr::TCF) => Bits::new(10, 1),
            Field::Sr(Sr::TEF) => Bits::new(11, 1),
            Field::Sr(Sr::REF) => Bits::new(12, 1),
            Field::Sr(Sr::DMF) => Bits::new(13, 1),
            Field::Sr(Sr::MBF) => Bits::new(24, 1),
            Field::Cfgr1(Cfgr1::MASTER) => Bits::new(0, 1),
            Field::Cfgr1(Cfgr1::SAMPLE) => Bits::new(1, 1),
            Field::Cfgr1(Cfgr1::PCSPOL) => Bits::new(8, 4),
            Field::Ccr(Ccr::SCKDIV) => Bits::new(0, 8),
            Field::Ccr(Ccr::DBT) => Bits::new(8, 8),
            Field::Ccr(Ccr::PCSSCK) => Bits::new(16, 8),
            Field::Ccr(Ccr::SCKPCS) => Bits::new(24, 8),
            Field::Fcr(Fcr::TXWATER) => Bits::new(0, 4),
            Field::Fcr(Fcr::RXWATER) => Bits::new(16, 4),
            Field::Fsr(Fsr::TXCOUNT) => Bits::new(0, 5),
            Field::Fsr(Fsr::RXCOUNT) => Bits::new(16, 5),
            Field::Tcr(Tcr::FRAMESZ) => Bits::new(0, 12),
            Field::Tcr(Tcr::TXMSK) => Bits::new(18, 1),
            Field::Tcr(Tcr::RXMSK) => Bits::new(19, 1),
            Field::Tcr(Tcr::CONTC) => Bits::new(20, 1),
            Field::Tcr(Tcr::CONT) => Bits::new(21, 1),
            Field::Tcr(Tcr::BYSW) => Bits::new(22, 1),
            Field::Tcr(Tcr::LSBF) => Bits::new(23, 1),
            Field::Tcr(Tcr::PCS) => Bits::new(24, 2),
            Field::Tcr(Tcr::CPHA) => Bits::new(30, 1),
            Field::Tcr(Tcr::CPOL) => Bits::new(31, 1),
            Field::Rsr(Rsr::SOF) => Bits::new(0, 1),
            Field::Rsr(Rsr::RXEMPTY) => Bits::new(1, 1),
        }
    }

    // The field's value in its register's word.
    pub fn read(self, word: u32) -> u32
        ensures { result ≡ read_field self word }
    {
        self.bits().get(word)
    }

    // The register's word with this field set to `value`, masked to the field.
    pub fn set(self, value: u32, word: u32) -> u32
        ensures { result ≡ set_field self value word }
    {
        self.bits().set(value, word)
    }
}
