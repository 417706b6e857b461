// The accesses before the first wait.

ghost use Rattle.std.specs.Prelude.{◌≡◌, cond};
ghost use Rattle.registers.specs.Words.{sadd8, starting};
ghost use Rattle.registers.specs.Layout.{RXNE, ◌has◌};
ghost use Rattle.parked.specs.Opening.{opening, after_start, setup_word, after_setup, after_flush, after_release, after_opening, opening_access};

use crate::Parked;
use crate::kinds::Kind;
use crate::next_access::Next;
use crate::phases::{Opening, Phase};
use registers::cr2::Cr2;
use registers::data_registers::Rxdr;
use registers::isr::Isr;

// What each kind opens with.
impl Kind {
    // The first one.
    pub fn opening(self) -> Phase
        ensures { result ≡ opening self }
    {
        match self {
            Kind::SlaveWrite | Kind::SlaveRead => Phase::Open(Opening::Modify),
            Kind::SlaveWaitAddressed => Phase::Listen,
            _ => Phase::Open(Opening::Start),
        }
    }

    // Once START is clear.
    fn after_start(self) -> Opening
        ensures { result ≡ after_start self }
    {
        match self {
            Kind::Read => Opening::Drain,
            Kind::WriteRead => Opening::Flush,
            _ => Opening::Modify,
        }
    }

    // CR2 of the set-up: the length and, for a master, address, direction and START.
    fn setup_word(self, cr2: u32, sadd: u32, send: usize, receive: usize) -> u32
        ensures { result ≡ setup_word self cr2 sadd send receive }
    {
        match self {
            Kind::Write => Cr2::started(cr2, sadd, send, false, true),
            Kind::Read | Kind::ReadBack => Cr2::started(cr2, sadd, receive, true, true),
            Kind::WriteRead => Cr2::started(cr2, sadd, send, false, false),
            Kind::SlaveWrite => Cr2::sized(cr2, send, false),
            Kind::SlaveRead => Cr2::sized(cr2, receive, true),
            Kind::SlaveWaitAddressed => cr2,
        }
    }

    // Once CR2 is written.
    fn after_setup(self) -> Phase
        ensures { result ≡ after_setup self }
    {
        match self {
            Kind::SlaveWrite => Phase::Open(Opening::Flush),
            Kind::SlaveRead => Phase::Open(Opening::Release),
            _ => Phase::Wait,
        }
    }

    // Once TXDR is empty: a `write_read` writes CR2 from 0, a slave releases the clock.
    fn after_flush(self) -> Opening
        ensures { result ≡ after_flush self }
    {
        if self == Kind::WriteRead {
            Opening::Setup(0)
        } else {
            Opening::Release
        }
    }

    // Once the clock is released: `slave_read` flushes RXDR.
    fn after_release(self) -> Phase
        ensures { result ≡ after_release self }
    {
        if self == Kind::SlaveRead {
            Phase::Open(Opening::Probe)
        } else {
            Phase::Wait
        }
    }
}

// After an access that read or wrote this word.
pub(crate) fn after(opening: Opening, kind: Kind, word: u32) -> Phase
    ensures { result ≡ after_opening opening kind word }
{
    match opening {
        Opening::Start => after_start_read(kind, word),
        Opening::Drain => Phase::Open(Opening::Modify),
        Opening::Modify => Phase::Open(Opening::Setup(word)),
        Opening::Setup(_) => kind.after_setup(),
        Opening::Flush => Phase::Open(kind.after_flush()),
        Opening::Release => kind.after_release(),
        Opening::Probe => flush_rxdr(word),
        Opening::Drop => Phase::Wait,
    }
}

// CR2 is read again while START is set: a previous address sequence has not ended. This and `flush_rxdr` are named by what they do, which one
// function of a flag and two phases would not say.
fn after_start_read(kind: Kind, cr2: u32) -> Phase
    ensures { result ≡ cond (starting cr2) (Phase.Open Opening.Start) (Phase.Open (after_start kind)) }
{
    Phase::Open(if Cr2::starting(cr2) {
        Opening::Start
    } else {
        kind.after_start()
    })
}

// A byte that waits in RXDR is dropped.
fn flush_rxdr(isr: u32) -> Phase
    ensures { result ≡ cond (isr has RXNE) (Phase.Open Opening.Drop) Phase.Wait }
{
    if Isr::RXNE.is_set(isr) {
        Phase::Open(Opening::Drop)
    } else {
        Phase::Wait
    }
}

impl Parked {
    // CR2 of the set-up, in the word read.
    fn setup_word(self, cr2: u32) -> u32
        ensures { result ≡ setup_word self.kind cr2 (sadd8 self.address) self.send self.receive }
    {
        self.kind
            .setup_word(cr2, Cr2::sadd8(self.address), self.send, self.receive)
    }

    pub(crate) fn opening_access(self, step: Opening) -> Next
        ensures { result ≡ opening_access step self }
    {
        match step {
            Opening::Start | Opening::Modify => Next::read(Cr2::READ),
            Opening::Drain | Opening::Drop => Next::read(Rxdr::READ),
            Opening::Setup(cr2) => Next::write(Cr2::WRITE, self.setup_word(cr2)),
            Opening::Flush => Next::write(Isr::WRITE, Isr::flushed()),
            Opening::Release => Next::clear(Isr::ADDR),
            Opening::Probe => Next::read(Isr::READ),
        }
    }
}
