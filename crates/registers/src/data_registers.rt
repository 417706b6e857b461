// RXDR and TXDR: the byte that came in, and the byte to send.

ghost use Rattle.std.specs.Prelude.{◌≡◌};
ghost use Rattle.registers.specs.Words.{received, sent};

use crate::field::Field;

#[derive(Clone, Copy, Debug, PartialEq, Eq)]
pub struct Rxdr;

impl Rxdr {
    // Why no trait gives a register its numbers: see `Field`.
    pub const OFFSET: u32 = 0x24;

    pub const READ: u32 = Rxdr::OFFSET;

    pub const RXDATA: Field = Field { place: 0, width: 8 };

    pub fn received(rxdr: u32) -> u8
        ensures { result ≡ received rxdr }
    {
        Rxdr::RXDATA.get(rxdr) as u8
    }
}

#[derive(Clone, Copy, Debug, PartialEq, Eq)]
pub struct Txdr;

impl Txdr {
    // Why no trait gives a register its numbers: see `Field`.
    pub const OFFSET: u32 = 0x28;

    pub const WRITE: u32 = Txdr::OFFSET + 0x100;

    pub const TXDATA: Field = Field { place: 0, width: 8 };

    pub fn sent(byte: u8) -> u32
        ensures { result ≡ sent byte }
    {
        Txdr::TXDATA.put(0, byte as u32)
    }
}
