// The access that a parked call wants next, and the call after it.

ghost use Rattle.std.specs.Prelude.{◌≡◌, ◌+◌, get_or, cond, Bool};
ghost use Rattle.registers.specs.Layout.{ICR, offset, TXE, ◌has◌, TXIS, ADDR};
ghost use Rattle.registers.specs.Field.{put};
ghost use Rattle.parked.specs.Kinds.{incoming};
ghost use Rattle.parked.specs.NextAccess.{span, more, byte_access, next_access};
ghost use Rattle.parked.specs.After.{phase_at, second_half_begins, byte_moves, after};

use crate::kinds::Kind;
use crate::phases::{CountEffect, End, Phase};
use crate::{Parked, opening};
use registers::cr2::Cr2;
use registers::data_registers::{Rxdr, Txdr};
use registers::field::Field;
use registers::isr::{Icr, Isr};

// The byte to send, 0x21 after the last.
pub fn byte_at(bytes: &[u8], place: usize) -> u8
    ensures { result ≡ get_or bytes.now place 0x21 }
{
    bytes.get(place).copied().unwrap_or(0x21)
}

// The next access, by the first number of its log entry.
#[derive(Clone, Copy, Debug, PartialEq, Eq)]
pub enum Next {
    // `keep` says that the byte that comes in goes to the buffer, to the place of the call's count. Two cases of a read would say no more, and
    // double what the laws over a run go through.
    Read { number: u32, keep: bool },
    Write { number: u32, word: u32 },
}

impl Next {
    // A read that brings no byte.
    pub(crate) fn read(number: u32) -> Next
        ensures { result ≡ Next.Read number Bool.false }
    {
        Next::Read {
            number,
            keep: false,
        }
    }

    pub(crate) fn write(number: u32, word: u32) -> Next
        ensures { result ≡ Next.Write number word }
    {
        Next::Write { number, word }
    }

    // A flag is cleared.
    pub(crate) fn clear(flag: Field) -> Next
        ensures { result ≡ Next.Write (offset ICR + 0x100) (put 0 flag 1) }
    {
        Next::write(Icr::WRITE, Icr::cleared(flag))
    }
}

// The next access.
impl Parked {
    // The length that the count counts to.
    #[tactic(auto, unfolding(crate::specs::NextAccess::span))]
    pub(crate) fn span(self) -> usize
        ensures { result ≡ span self }
    {
        if self.kind.incoming() {
            self.receive
        } else {
            self.send
        }
    }

    // Whether a byte is left to send, or a place to fill.
    #[tactic(auto, unfolding(crate::specs::NextAccess::more))]
    pub fn more(self) -> bool
        ensures { result ≡ more self }
    {
        self.count < self.span()
    }

    fn byte_access(self, byte: u8) -> Next
        ensures { result ≡ byte_access (incoming self.kind) (more self) byte }
    {
        if self.kind.incoming() {
            Next::Read {
                number: Rxdr::READ,
                keep: self.more(),
            }
        } else {
            Next::write(Txdr::WRITE, Txdr::sent(byte))
        }
    }

    // The next access, or why none follows. `byte` is the one to send at the count. Inlined, since a host asks it beside the run: with two callers
    // each access of a run would be a call.
    #[inline(always)]
    #[tactic(auto, unfolding(crate::specs::NextAccess::next_access))]
    pub fn next_access(self, byte: u8) -> Result<Next, End>
        ensures { result ≡ next_access self byte }
    {
        Ok(match self.phase {
            Phase::Open(step) => self.opening_access(step),
            Phase::Wait | Phase::FlushTxis | Phase::FlushTxe | Phase::Listen | Phase::Code =>
                Next::read(Isr::READ),
            Phase::Transfer => self.byte_access(byte),
            Phase::Restart => Next::write(
                Cr2::WRITE,
                Cr2::started(0, Cr2::sadd8(self.address), self.receive, true, true),
            ),
            Phase::TcrFound => Next::read(Cr2::READ),
            Phase::NackNextByte(cr2) => Next::write(Cr2::WRITE, Cr2::nack_next_byte(cr2)),
            Phase::ClearBerr => Next::clear(Isr::BERR),
            Phase::ClearArlo => Next::clear(Isr::ARLO),
            Phase::ClearNackf => Next::clear(Isr::NACKF),
            Phase::ClearStopf => Next::clear(Isr::STOPF),
            Phase::FlushDummy => Next::write(Txdr::WRITE, Txdr::sent(0)),
            Phase::FlushEmpty => Next::write(Isr::WRITE, Isr::flushed()),
            Phase::Ended(end) => return Err(end),
        })
    }
}

// `flush_txdr`: a pending TXIS is answered with dummy data. This and the other questions of a flag are named by what they do, which one
// function of a flag and two phases would not say.
fn pending_txis(isr: u32) -> Phase
    ensures { result ≡ cond (isr has TXIS) Phase.FlushDummy Phase.FlushTxe }
{
    if Isr::TXIS.is_set(isr) {
        Phase::FlushDummy
    } else {
        Phase::FlushTxe
    }
}

// After its second read of ISR TXE is written where it is set.
fn pending_txe(isr: u32) -> Phase
    ensures { result ≡ cond (isr has TXE) Phase.FlushEmpty Phase.ClearStopf }
{
    if Isr::TXE.is_set(isr) {
        Phase::FlushEmpty
    } else {
        Phase::ClearStopf
    }
}

// Reads ISR until ADDR is set.
fn listened(isr: u32) -> Phase
    ensures { result ≡ cond (isr has ADDR) Phase.Code Phase.Listen }
{
    if Isr::ADDR.is_set(isr) {
        Phase::Code
    } else {
        Phase::Listen
    }
}

// The call after its access; `word` is the word read.
impl Parked {
    fn phase_after(self, word: u32) -> Phase
        ensures { result ≡ phase_at self.phase self word }
    {
        match self.phase {
            Phase::Open(step) => opening::after(step, self.kind, word),
            Phase::Wait => self.busy_wait(word),
            Phase::Transfer | Phase::Restart | Phase::NackNextByte(_) | Phase::ClearNackf =>
                Phase::Wait,
            Phase::TcrFound => Phase::NackNextByte(word),
            Phase::ClearBerr => Phase::Ended(End::Berr),
            Phase::ClearArlo => Phase::Ended(End::Arlo),
            Phase::ClearStopf => Phase::Ended(End::Stopf),
            Phase::FlushTxis => pending_txis(word),
            Phase::FlushDummy => Phase::FlushTxe,
            Phase::FlushTxe => pending_txe(word),
            Phase::FlushEmpty => Phase::ClearStopf,
            Phase::Listen => listened(word),
            Phase::Code => Phase::Ended(End::Addressed(word)),
            Phase::Ended(end) => Phase::Ended(end),
        }
    }

    // The second half of a `write_read` begins.
    #[tactic(auto, unfolding(crate::specs::After::second_half_begins))]
    fn second_half_begins(self) -> bool
        ensures { result ≡ second_half_begins self }
    {
        self.phase.count_effect() == CountEffect::SecondHalf && self.kind.restarts()
    }

    // A byte goes out or comes in.
    #[tactic(auto, unfolding(crate::specs::After::byte_moves))]
    fn byte_moves(self) -> bool
        ensures { result ≡ byte_moves self }
    {
        self.phase.count_effect() == CountEffect::Byte && self.more()
    }

    // Inlined, as the access is.
    #[inline(always)]
    #[tactic(auto, unfolding(crate::specs::After::after))]
    pub fn after(self, word: u32) -> Parked
        ensures { result ≡ after self word }
    {
        let phase = self.phase_after(word);
        if self.second_half_begins() {
            Parked {
                kind: Kind::ReadBack,
                phase,
                count: 0,
                ..self
            }
        } else if self.byte_moves() {
            Parked {
                phase,
                count: self.count + 1,
                ..self
            }
        } else {
            Parked { phase, ..self }
        }
    }
}
