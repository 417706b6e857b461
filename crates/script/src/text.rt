// The text that the programs read: the lines of standard input, and the numbers and BYTES that their tokens are.

pub mod bytes;
mod input;
pub mod lines;
pub mod numbers;
