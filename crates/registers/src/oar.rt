// OAR1 and OAR2: the own addresses.

ghost use Rattle.std.specs.Prelude.{◌≡◌};
ghost use Rattle.registers.specs.Words.{own_seven, own_ten, own_second};
ghost use Rattle.registers.specs.Config.{mask_number};

use crate::config::SlaveAddressMask;
use crate::field::Field;

#[derive(Clone, Copy, Debug, PartialEq, Eq)]
pub struct Oar1;

impl Oar1 {
    // Why no trait gives a register its numbers: see `Field`.
    pub const OFFSET: u32 = 0x08;

    pub const WRITE: u32 = Oar1::OFFSET + 0x100;

    pub const OA1: Field = Field {
        place: 0,
        width: 10,
    };

    pub const OA1_7_1: Field = Field { place: 1, width: 7 };

    pub const OA1MODE: Field = Field {
        place: 10,
        width: 1,
    };

    pub const OA1EN: Field = Field {
        place: 15,
        width: 1,
    };

    // The low seven bits of an address.
    #[tactic(auto, unfolding(crate::specs::Words::own_seven))]
    pub fn own_seven(address: u16, mode: bool, enabled: bool) -> u32
        ensures { result ≡ own_seven address mode enabled }
    {
        let own = Oar1::OA1_7_1.put(0, address as u32);
        let moded = Oar1::OA1MODE.switch(own, mode);
        Oar1::OA1EN.switch(moded, enabled)
    }

    // The low ten bits of an address, as the non-blocking driver writes them.
    #[tactic(auto, unfolding(crate::specs::Words::own_ten))]
    pub fn own_ten(address: u16) -> u32
        ensures { result ≡ own_ten address }
    {
        let own = Oar1::OA1.put(0, address as u32);
        let moded = Oar1::OA1MODE.put(own, 1);
        Oar1::OA1EN.put(moded, 1)
    }
}

#[derive(Clone, Copy, Debug, PartialEq, Eq)]
pub struct Oar2;

impl Oar2 {
    // Why no trait gives a register its numbers: see `Field`.
    pub const OFFSET: u32 = 0x0C;

    pub const WRITE: u32 = Oar2::OFFSET + 0x100;

    pub const OA2: Field = Field { place: 1, width: 7 };

    pub const OA2MSK: Field = Field { place: 8, width: 3 };

    pub const OA2EN: Field = Field {
        place: 15,
        width: 1,
    };

    // The second address, with as many of its low bits masked as the mask says.
    #[tactic(auto, unfolding(crate::specs::Words::own_second))]
    pub fn own_second(address: u8, mask: SlaveAddressMask) -> u32
        ensures { result ≡ own_second address (mask_number mask) }
    {
        let masked = Oar2::OA2MSK.put(0, mask.number());
        let own = Oar2::OA2.put(masked, address as u32);
        Oar2::OA2EN.put(own, 1)
    }
}
