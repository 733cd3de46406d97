// A board at one end of the bus.
use sequences::driver::Lpspi;
use words::width::Width;

#[derive(Clone, Copy)]
pub struct Board {
    pub driver: Lpspi,
    pub width: Width,
    // One buffer is both written and read.
    pub inplace: bool,
    // Its FIFOs have 2^exponent places, of which a command takes one; with 0 it never sends a word.
    pub exponent: usize,
}
