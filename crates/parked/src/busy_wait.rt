// `busy_wait`: the flag that a call waits for, what each flag of an ISR word leads to, and the answers of the final flags.
ghost use Rattle.std.specs.Prelude.{◌≡◌};
ghost use Rattle.registers.specs.Layout.{◌has◌};
ghost use Rattle.registers.specs.Answers.{said};
ghost use Rattle.parked.specs.BusyWait.{wanted_name, found_in, tc_wait, wanted, after_wanted, after_found, compared_length, full_frame, addr_answer, stop_answer, answer};

use crate::Parked;
use crate::phases::{End, Phase};
use registers::answers::Answer;
use registers::isr::Isr;

// The flag that a `busy_wait` waits for.
#[derive(Clone, Copy, Debug, PartialEq, Eq)]
pub enum Wanted {
    Txis,
    Rxne,
    Tc,
}

// A flag of an ISR word that a `busy_wait` acts on.
#[derive(Clone, Copy, Debug, PartialEq, Eq)]
pub enum Found {
    Wanted,
    Berr,
    Arlo,
    Nackf,
    Tcr,
    Addr,
    Stopf,
}

impl Wanted {
    fn is_set(self, isr: u32) -> bool
        ensures { result ≡ isr has wanted_name self }
    {
        let flag = match self {
            Wanted::Txis => Isr::TXIS,
            Wanted::Rxne => Isr::RXNE,
            Wanted::Tc => Isr::TC,
        };
        flag.is_set(isr)
    }

    // What a wait finds: the wanted flag, else the first of the others, in the order of `busy_wait`.
    #[tactic(auto, unfolding(crate::specs::BusyWait::found_in))]
    fn found_in(self, isr: u32) -> Option<Found>
        ensures { result ≡ found_in isr self }
    {
        // One line for each flag, in the order of the wait: a table of the flags and a search in it say no more.
        if self.is_set(isr) {
            Some(Found::Wanted)
        } else if Isr::BERR.is_set(isr) {
            Some(Found::Berr)
        } else if Isr::ARLO.is_set(isr) {
            Some(Found::Arlo)
        } else if Isr::NACKF.is_set(isr) {
            Some(Found::Nackf)
        } else if Isr::TCR.is_set(isr) {
            Some(Found::Tcr)
        } else if Isr::ADDR.is_set(isr) {
            Some(Found::Addr)
        } else if Isr::STOPF.is_set(isr) {
            Some(Found::Stopf)
        } else {
            None
        }
    }
}

// What an ISR word leads to.
impl Parked {
    // Whether TC is waited for: a `write_read` has sent its bytes.
    fn tc_wait(self) -> bool
        ensures { result ≡ tc_wait self }
    {
        self.kind.restarts() && !self.more()
    }

    // The flag that is waited for.
    #[tactic(auto, unfolding(crate::specs::BusyWait::wanted))]
    fn wanted(self) -> Wanted
        ensures { result ≡ wanted self }
    {
        if self.kind.incoming() {
            Wanted::Rxne
        } else if self.tc_wait() {
            Wanted::Tc
        } else {
            Wanted::Txis
        }
    }

    // At the wanted flag: a byte is moved while one is left; then TC restarts, and a slave sends on.
    fn after_wanted(self) -> Phase
        ensures { result ≡ after_wanted self }
    {
        if self.more() {
            Phase::Transfer
        } else if self.kind.restarts() {
            Phase::Restart
        } else if self.kind.pads() {
            Phase::Transfer
        } else {
            Phase::Wait
        }
    }

    // The phase after a word of ISR: the wanted flag, then the others in the order of `busy_wait`. A final flag ends the whole call.
    pub fn busy_wait(self, isr: u32) -> Phase
        ensures { result ≡ after_found (found_in isr (wanted self)) self }
    {
        match self.wanted().found_in(isr) {
            Some(Found::Wanted) => self.after_wanted(),
            Some(Found::Berr) => Phase::ClearBerr,
            Some(Found::Arlo) => Phase::ClearArlo,
            Some(Found::Nackf) => Phase::ClearNackf,
            Some(Found::Tcr) => Phase::TcrFound,
            Some(Found::Addr) => Phase::Ended(End::Addr),
            Some(Found::Stopf) => Phase::FlushTxis,
            None => Phase::Wait,
        }
    }
}

// The answers of the final flags.
impl Parked {
    // The length that ADDR and STOPF compare with the count: the wait for TC has a dummy.
    #[tactic(auto, unfolding(crate::specs::BusyWait::compared_length))]
    fn compared_length(self) -> usize
        ensures { result ≡ compared_length self }
    {
        if self.tc_wait() { 254 } else { self.span() }
    }

    #[tactic(auto, unfolding(crate::specs::BusyWait::full_frame))]
    fn full_frame(self) -> bool
        ensures { result ≡ full_frame self }
    {
        self.count == self.compared_length()
    }

    // ADDR is left set, so that `slave_wait_addressed` finds it.
    #[tactic(auto, unfolding(crate::specs::BusyWait::addr_answer))]
    fn addr_answer(self) -> Answer
        ensures { said result ≡ addr_answer self }
    {
        if self.full_frame() {
            Answer::Done
        } else {
            Answer::IncorrectFrameSize(self.count)
        }
    }

    #[tactic(auto, unfolding(crate::specs::BusyWait::stop_answer))]
    fn stop_answer(self) -> Answer
        ensures { said result ≡ stop_answer self }
    {
        if self.full_frame() {
            Answer::Done
        } else if self.count == 0 {
            Answer::Nack
        } else {
            Answer::IncorrectFrameSize(self.count)
        }
    }

    // The answer where no access follows.
    pub fn answer(self, end: End) -> Answer
        ensures { said result ≡ answer end self }
    {
        match end {
            End::OutOfWords => Answer::OutOfWords,
            End::LogFull => Answer::LogFull,
            End::BadLength => Answer::BadLength,
            End::Berr => Answer::BusError,
            End::Arlo => Answer::ArbitrationLost,
            End::Addr => self.addr_answer(),
            End::Stopf => self.stop_answer(),
            End::Addressed(isr) => Isr::addressed(isr),
        }
    }
}
