// The calls of both drivers for C: a slice is a pointer and a count, a link or a parked call lies in the caller's memory, and the answer is six numbers.
#![tactic(auto)]

mod construct;
mod getters;
mod immediate;
mod link;
mod waiting;
