// What the registers do on the bus.
#[derive(Clone, Copy)]
pub enum Role {
    // PARAM
    Sizes,
    // SR
    Status,
    // FSR
    Counts,
    // CR
    Control,
    // TCR
    Commands,
    // TDR
    Sends,
    // RDR
    Receives,
    // The others hold what was written.
    Holds,
}
