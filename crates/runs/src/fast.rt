// Only for speed: whole turns of a transfer at once. Without this folder, and the one call in `run_words` that leads to it, `run_words` is
// `drive` from where the transfer stands, and every contract of this and the other crates is the same.
pub mod ahead;
pub mod turns;
