// ISR and ICR: the flags, and what clears them.

ghost use Rattle.std.specs.Prelude.{◌≡◌, [], ◌∷◌};
ghost use Rattle.registers.specs.Field.{put};
ghost use Rattle.registers.specs.Words.{flushed};
ghost use Rattle.registers.specs.Answers.{direction_number, said, says};
ghost use Rattle.registers.specs.Isr.{direction_of, address_code, event_of};

use crate::answers::{Answer, I2cDirection};
use crate::field::Field;

// What the blocking `listen` can ask for: ADDR or RXNE.
#[derive(Clone, Copy, Debug, PartialEq, Eq)]
pub enum Event {
    AddressMatch,
    Rxne,
}

// An event by its number. Every number is taken.
impl From<u8> for Event {
    ghost from_gives = { λ number event. event ≡ event_of number };

    fn from(number: u8) -> Event {
        if 0 < number {
            Event::Rxne
        } else {
            Event::AddressMatch
        }
    }
}

#[derive(Clone, Copy, Debug, PartialEq, Eq)]
pub struct Isr;

impl Isr {
    // Why no trait gives a register its numbers: see `Field`.
    pub const OFFSET: u32 = 0x18;

    pub const READ: u32 = Isr::OFFSET;

    pub const WRITE: u32 = Isr::OFFSET + 0x100;

    pub const TXE: Field = Field { place: 0, width: 1 };

    pub const TXIS: Field = Field { place: 1, width: 1 };

    pub const RXNE: Field = Field { place: 2, width: 1 };

    pub const ADDR: Field = Field { place: 3, width: 1 };

    pub const NACKF: Field = Field { place: 4, width: 1 };

    pub const STOPF: Field = Field { place: 5, width: 1 };

    pub const TC: Field = Field { place: 6, width: 1 };

    pub const TCR: Field = Field { place: 7, width: 1 };

    pub const BERR: Field = Field { place: 8, width: 1 };

    pub const ARLO: Field = Field { place: 9, width: 1 };

    pub const DIR: Field = Field {
        place: 16,
        width: 1,
    };

    pub const ADDCODE: Field = Field {
        place: 17,
        width: 7,
    };

    // Who sends: the slave when DIR is set.
    #[tactic(auto, unfolding(crate::specs::Isr::direction_of))]
    pub fn direction(isr: u32) -> I2cDirection
        ensures { direction_number result ≡ direction_of isr }
    {
        if Isr::DIR.is_set(isr) {
            I2cDirection::MasterReadSlaveWrite
        } else {
            I2cDirection::MasterWriteSlaveRead
        }
    }

    // The address by which this slave was addressed.
    pub fn address_code(isr: u32) -> u16
        ensures { result ≡ address_code isr }
    {
        Isr::ADDCODE.get(isr) as u16
    }

    // Addressed by a master: the address that it sent, and who sends next.
    pub fn addressed(isr: u32) -> Answer
        ensures { said result ≡ says 0x41 (address_code isr ∷ direction_of isr ∷ []) }
    {
        Answer::Addressed {
            address: Isr::address_code(isr),
            direction: Isr::direction(isr),
        }
    }

    // The write that empties TXDR.
    pub fn flushed() -> u32
        ensures { result ≡ flushed }
    {
        Isr::TXE.put(1, 1)
    }
}

#[derive(Clone, Copy, Debug, PartialEq, Eq)]
pub struct Icr;

impl Icr {
    // Why no trait gives a register its numbers: see `Field`.
    pub const OFFSET: u32 = 0x1C;

    pub const WRITE: u32 = Icr::OFFSET + 0x100;

    // The word that clears a flag, at the flag's own place in ISR.
    pub fn cleared(flag: Field) -> u32
        ensures { result ≡ put 0 flag 1 }
    {
        flag.put(0, 1)
    }
}
