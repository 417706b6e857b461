// The blocking calls that wait: what tells them apart, and the lengths of slices that they begin with.

ghost use Rattle.std.specs.Prelude.{◌≡◌};
ghost use Rattle.parked.specs.Kinds.{fits, lengths, sends, receives, incoming, restarts, pads, kind_of};

use registers::cr2::Cr2;

// The calls that wait.
#[derive(Clone, Copy, Debug, PartialEq, Eq)]
pub enum Kind {
    Write,
    Read,
    WriteRead,
    // A `write_read` from its second START on: from there it is a read.
    ReadBack,
    SlaveWrite,
    SlaveRead,
    SlaveWaitAddressed,
}

// A kind by its number, `kind as u64`. Every number is taken; no derive makes a case from a number.
impl From<u64> for Kind {
    ghost from_gives = { λ number kind. kind ≡ kind_of number };

    fn from(number: u64) -> Kind {
        match number {
            0 => Kind::Write,
            1 => Kind::Read,
            2 => Kind::WriteRead,
            3 => Kind::ReadBack,
            4 => Kind::SlaveWrite,
            5 => Kind::SlaveRead,
            _ => Kind::SlaveWaitAddressed,
        }
    }
}

// What a kind of call has and counts.
impl Kind {
    // Whether it has bytes to send.
    fn sends(self) -> bool
        ensures { result ≡ sends self }
    {
        matches!(
            self,
            Kind::Write | Kind::WriteRead | Kind::ReadBack | Kind::SlaveWrite
        )
    }

    // Whether it has a buffer to fill.
    fn receives(self) -> bool
        ensures { result ≡ receives self }
    {
        matches!(
            self,
            Kind::Read | Kind::WriteRead | Kind::ReadBack | Kind::SlaveRead
        )
    }

    // Whether its count is of bytes that came in.
    pub fn incoming(self) -> bool
        ensures { result ≡ incoming self }
    {
        matches!(
            self,
            Kind::Read | Kind::ReadBack | Kind::SlaveRead | Kind::SlaveWaitAddressed
        )
    }

    // Whether it restarts once its bytes are sent.
    pub(crate) fn restarts(self) -> bool
        ensures { result ≡ restarts self }
    {
        self == Kind::WriteRead
    }

    // Whether it goes on sending after its last byte.
    pub(crate) fn pads(self) -> bool
        ensures { result ≡ pads self }
    {
        self == Kind::SlaveWrite
    }
}

// A slice that the call has is of 1 to 255 bytes, one that it does not have is empty.
#[tactic(auto, unfolding(crate::specs::Kinds::fits))]
fn fits(used: bool, length: usize) -> bool
    ensures { result ≡ fits used length }
{
    if used {
        Cr2::length_allowed(length)
    } else {
        length == 0
    }
}

impl Kind {
    // Whether a call of this kind begins with slices of these lengths.
    #[tactic(auto, unfolding(crate::specs::Kinds::lengths))]
    pub fn lengths(self, send: usize, receive: usize) -> bool
        ensures { result ≡ lengths self send receive }
    {
        fits(self.sends(), send) && fits(self.receives(), receive)
    }
}
