// The driver value: what the Rust's `Lpspi` holds beside the registers.
ghost use Rattle.std.specs.Prelude.{◌≡◌};
ghost use Rattle.sequences.specs.Driver.{start_driver, with_order, with_mode, with_pcs, with_clock, driver_command};

use words::clock::ClockConfigs;
use words::mode::{MODE_0, Mode, Pcs};
use words::order::BitOrder;
use words::transaction::Transaction;

// DBT and SCKDIV as they were last set: newer parts do not read them back.
#[derive(Clone, Copy)]
pub struct CcrCache {
    pub dbt: u8,
    pub sckdiv: u8,
}

#[derive(Clone, Copy)]
pub struct Lpspi {
    order: BitOrder,
    mode: Mode,
    pcs: Pcs,
    cache: CcrCache,
}

impl Lpspi {
    // The driver after `init`: MSB, MODE_0, PCS 0, cache 0.
    pub fn new() -> Self
        ensures { result ≡ start_driver }
    {
        Lpspi {
            order: BitOrder::Msb,
            mode: MODE_0,
            pcs: Pcs::Pcs0,
            cache: CcrCache { dbt: 0, sckdiv: 0 },
        }
    }

    pub fn bit_order(self) -> BitOrder
        ensures { result ≡ self.order }
    {
        self.order
    }

    pub fn mode(self) -> Mode
        ensures { result ≡ self.mode }
    {
        self.mode
    }

    pub fn pcs(self) -> Pcs
        ensures { result ≡ self.pcs }
    {
        self.pcs
    }

    pub fn ccr_cache(self) -> CcrCache
        ensures { result ≡ self.cache }
    {
        self.cache
    }

    pub fn with_bit_order(self, order: BitOrder) -> Self
        ensures { result ≡ with_order order self }
    {
        Lpspi { order, ..self }
    }

    pub fn with_mode(self, mode: Mode) -> Self
        ensures { result ≡ with_mode mode self }
    {
        Lpspi { mode, ..self }
    }

    pub fn with_pcs(self, pcs: Pcs) -> Self
        ensures { result ≡ with_pcs pcs self }
    {
        Lpspi { pcs, ..self }
    }

    // The driver once its cache has this clock.
    pub fn with_clock(self, clock: ClockConfigs) -> Self
        ensures { result ≡ with_clock clock self }
    {
        let cache = CcrCache {
            dbt: clock.dbt,
            sckdiv: clock.sckdiv,
        };
        Lpspi { cache, ..self }
    }

    // A command with the driver's order, mode and chip select.
    pub fn bus_transaction(self, transaction: Transaction) -> Transaction
        ensures { result.0 ≡ driver_command self transaction.0 }
    {
        transaction
            .with_bit_order(self.order)
            .with_mode(self.mode)
            .with_pcs(self.pcs)
    }
}
