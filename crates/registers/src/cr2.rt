// CR2: the transfer's address, direction, length and end.

ghost use Rattle.std.specs.Prelude.{◌≡◌};
ghost use Rattle.registers.specs.Words.{length_allowed, started, sized, nack_next_byte, with_stop, starting, sadd8, sadd16};

use crate::field::Field;

#[derive(Clone, Copy, Debug, PartialEq, Eq)]
pub struct Cr2;

impl Cr2 {
    // Why no trait gives a register its numbers: see `Field`.
    pub const OFFSET: u32 = 0x04;

    pub const READ: u32 = Cr2::OFFSET;

    pub const WRITE: u32 = Cr2::OFFSET + 0x100;

    pub const SADD: Field = Field {
        place: 0,
        width: 10,
    };

    pub const RD_WRN: Field = Field {
        place: 10,
        width: 1,
    };

    pub const ADD10: Field = Field {
        place: 11,
        width: 1,
    };

    pub const START: Field = Field {
        place: 13,
        width: 1,
    };

    pub const STOP: Field = Field {
        place: 14,
        width: 1,
    };

    pub const NACK: Field = Field {
        place: 15,
        width: 1,
    };

    pub const NBYTES: Field = Field {
        place: 16,
        width: 8,
    };

    pub const RELOAD: Field = Field {
        place: 24,
        width: 1,
    };

    pub const AUTOEND: Field = Field {
        place: 25,
        width: 1,
    };

    // 1 to 255 bytes: what a call that sends or receives may have.
    pub fn length_allowed(length: usize) -> bool
        ensures { result ≡ length_allowed length }
    {
        (1..=255).contains(&length)
    }

    // SADD of an address of the non-blocking driver.
    pub fn sadd16(address: u16) -> u32
        ensures { result ≡ sadd16 address }
    {
        2 * (address as u32)
    }

    // SADD of an address of the blocking driver, which shifts in 8 bits: 0x80 gives 0.
    pub fn sadd8(address: u8) -> u32
        ensures { result ≡ sadd8 address }
    {
        2 * (address as u32) % 256
    }

    // Whether an address sequence has not ended yet.
    pub fn starting(cr2: u32) -> bool
        ensures { result ≡ starting cr2 }
    {
        Cr2::START.is_set(cr2)
    }

    // The word of a start: a write without `autoend` is the first half of a `write_read`. NBYTES has a length's low 8 bits, as the Rust casts it.
    #[tactic(auto, using(crate::proofs::FieldLaws::put_low), unfolding(crate::specs::Words::started))]
    pub fn started(cr2: u32, sadd: u32, nbytes: usize, read: bool, autoend: bool) -> u32
        ensures { result ≡ started cr2 sadd nbytes read autoend }
    {
        let start = Cr2::START.put(cr2, 1);
        let length = Cr2::NBYTES.put(start, (nbytes % 256) as u32);
        let address = Cr2::SADD.put(length, sadd);
        let direction = Cr2::RD_WRN.switch(address, read);
        let end = Cr2::AUTOEND.switch(direction, autoend);
        Cr2::RELOAD.put(end, 0)
    }

    // The length of a slave's transfer: RELOAD stretches the clock after the last byte received.
    #[tactic(auto, using(crate::proofs::FieldLaws::put_low), unfolding(crate::specs::Words::sized))]
    pub fn sized(cr2: u32, nbytes: usize, reload: bool) -> u32
        ensures { result ≡ sized cr2 nbytes reload }
    {
        let length = Cr2::NBYTES.put(cr2, (nbytes % 256) as u32);
        Cr2::RELOAD.switch(length, reload)
    }

    // One more byte is taken, and is not acknowledged: the answer to TCR.
    #[tactic(auto, unfolding(crate::specs::Words::nack_next_byte))]
    pub fn nack_next_byte(cr2: u32) -> u32
        ensures { result ≡ nack_next_byte cr2 }
    {
        let nack = Cr2::NACK.put(cr2, 1);
        Cr2::NBYTES.put(nack, 1)
    }

    // A stop is asked for: the end of a short frame.
    pub fn with_stop(cr2: u32) -> u32
        ensures { result ≡ with_stop cr2 }
    {
        Cr2::STOP.put(cr2, 1)
    }
}
