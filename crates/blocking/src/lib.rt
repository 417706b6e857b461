// The blocking driver of the I2C unit: calls that are begun, run over the words that were read, and park where a word or
// room in the log is missing; and calls that never wait. What a run means stands in `blocking_meaning`.
#![tactic(auto)]

pub mod immediate;
pub mod laws;
pub mod master;
mod progress;
pub mod run;
pub mod slave;
mod transfer;
