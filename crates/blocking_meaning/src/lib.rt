// A run of a blocking call: what it means, and the cut law, the buffer law and the law of the next access over it, which the crate `blocking`
// hands on as promises.
#![tactic(auto)]

use parked::Parked;
use registers::call_log::Report;

// What a run returns: the parked call, and a report of the run.
#[derive(Clone, Copy, Debug, PartialEq, Eq)]
pub struct Ran {
    pub parked: Parked,
    pub report: Report,
}
