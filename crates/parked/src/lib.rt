// A blocking call that is parked: the access that it wants next, and the call after that access.
#![tactic(auto)]

use crate::kinds::Kind;
use crate::phases::Phase;

pub mod busy_wait;
pub mod kinds;
pub mod next_access;
mod opening;
pub mod phases;
mod refusal;

// A call that is parked. Begun with these lengths of the slices; so many bytes went out or came in.
#[derive(Clone, Copy, Debug, PartialEq, Eq)]
pub struct Parked {
    pub kind: Kind,
    pub address: u8,
    pub send: usize,
    pub receive: usize,
    pub phase: Phase,
    pub count: usize,
}
