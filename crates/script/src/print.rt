// What the programs print: the lines of a call, and the buffer that they go to.

pub mod lines;
pub mod output;
