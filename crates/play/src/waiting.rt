// The blocking calls that wait. A parked one is resumed as a host resumes it: over the list of all its words so far, with how many of them it
// has taken.

use arrayvec::ArrayVec;
use blocking::master::{read, write, write_read};
use blocking::run::resume;
use blocking::slave::{slave_read, slave_wait_addressed, slave_write};
use parked::Parked;
use registers::answers::Refusal;
use registers::call_log::Report;
use script::calls::WaitingCall;
use script::parse::Words;
use script::text::bytes::{Bytes, MOST};

// The call begun last, if one was, as its last run left it, its list of words, and the two slices that it is lent.
#[derive(Drop)]
pub(crate) struct Waiting {
    parked: Option<Parked>,
    words: Words,
    // How many words of the list the call has taken, as its last run reported it.
    taken: usize,
    send: ArrayVec<u8, MOST>,
    recv: ArrayVec<u8, MOST>,
}

impl Waiting {
    pub(crate) fn new() -> Waiting {
        Waiting {
            parked: None,
            words: Words::new(),
            taken: 0,
            send: ArrayVec::new(),
            recv: ArrayVec::new(),
        }
    }

    // The slice that is filled.
    pub(crate) fn received(&self) -> &[u8] {
        self.recv.as_slice()
    }

    // A call begun, or the parked one resumed. Where none was begun, there is none to resume: 11. The words taken are counted from the list's
    // first one; no line shows them.
    pub(crate) fn play(&mut self, call: WaitingCall<'_>, words: &[u32], log: &mut [u32]) -> Report {
        self.lend(call);
        self.put(call, words);
        let words = self.words.as_slice();
        let send = self.send.as_slice();
        let recv = self.recv.as_mut_slice();
        let ran = match call {
            WaitingCall::Write { address, .. } => write(address, send, words, log),
            WaitingCall::Read { address, .. } => read(address, recv, words, log),
            WaitingCall::WriteRead { address, .. } => write_read(address, send, recv, words, log),
            WaitingCall::SlaveWrite(_) => slave_write(send, words, log),
            WaitingCall::SlaveRead(_) => slave_read(recv, words, log),
            WaitingCall::SlaveWaitAddressed => slave_wait_addressed(words, log),
            WaitingCall::Resume(_) => match self.parked {
                Some(parked) => resume(parked, self.taken, send, recv, words, log),
                None => return Report::from(Refusal::WrongCall),
            },
        };
        self.parked = Some(ran.parked);
        self.taken = ran.report.taken;
        ran.report
    }

    // The line's words go after those taken; what was left is in the line again. A begun call starts a list. So does a resumed one whose list
    // has no room for them: it goes on alike over any list, from the first word not taken.
    fn put(&mut self, call: WaitingCall<'_>, words: &[u32]) {
        self.words.truncate(self.taken);
        let begins = !matches!(call, WaitingCall::Resume(_));
        if begins || self.words.remaining_capacity() < words.len() {
            self.words.clear();
            self.taken = 0;
        }
        // An empty list has room for the words of any line.
        let _ = self.words.try_extend_from_slice(words);
    }

    // The slices from now on. A begun call has none but those that its line gives.
    fn lend(&mut self, call: WaitingCall<'_>) {
        let (send, recv) = match call {
            WaitingCall::Write { send, .. } | WaitingCall::SlaveWrite(send) => {
                (Some(send), Some(Bytes::NONE))
            }
            WaitingCall::Read { recv, .. } | WaitingCall::SlaveRead(recv) => {
                (Some(Bytes::NONE), Some(recv))
            }
            WaitingCall::WriteRead { send, recv, .. } => (Some(send), Some(recv)),
            WaitingCall::SlaveWaitAddressed => (Some(Bytes::NONE), Some(Bytes::NONE)),
            WaitingCall::Resume(slices) => (slices.send, slices.recv),
        };
        if let Some(bytes) = send {
            bytes.write_to(&mut self.send);
        }
        if let Some(bytes) = recv {
            bytes.write_to(&mut self.recv);
        }
    }
}
