// CR1: the unit on or off, its filters and its interrupts. PE, SBC, ADDRIE and RXIE alone are switched by their fields.

ghost use Rattle.std.specs.Prelude.{◌≡◌};
ghost use Rattle.registers.specs.Words.{configured, interrupts};

use crate::field::Field;

#[derive(Clone, Copy, Debug, PartialEq, Eq)]
pub struct Cr1;

impl Cr1 {
    // Why no trait gives a register its numbers: see `Field`.
    pub const OFFSET: u32 = 0x00;

    pub const READ: u32 = Cr1::OFFSET;

    pub const WRITE: u32 = Cr1::OFFSET + 0x100;

    pub const PE: Field = Field { place: 0, width: 1 };

    pub const TXIE: Field = Field { place: 1, width: 1 };

    pub const RXIE: Field = Field { place: 2, width: 1 };

    pub const ADDRIE: Field = Field { place: 3, width: 1 };

    pub const NACKIE: Field = Field { place: 4, width: 1 };

    pub const STOPIE: Field = Field { place: 5, width: 1 };

    pub const TCIE: Field = Field { place: 6, width: 1 };

    pub const ERRIE: Field = Field { place: 7, width: 1 };

    pub const DNF: Field = Field { place: 8, width: 4 };

    pub const ANFOFF: Field = Field {
        place: 12,
        width: 1,
    };

    pub const SBC: Field = Field {
        place: 16,
        width: 1,
    };

    // The unit switched on with its filters: construction.
    #[tactic(auto, unfolding(crate::specs::Words::configured))]
    pub fn configured(cr1: u32, digital_filter: u8, analog_filter: bool) -> u32
        ensures { result ≡ configured cr1 digital_filter analog_filter }
    {
        let on = Cr1::PE.put(cr1, 1);
        let digital = Cr1::DNF.put(on, digital_filter as u32);
        Cr1::ANFOFF.switch(digital, !analog_filter)
    }

    // All interrupts of the non-blocking driver: `listen` and `unlisten`. One line for each: a fold over a list of the seven says no more.
    #[tactic(auto, unfolding(crate::specs::Words::interrupts))]
    pub fn interrupts(cr1: u32, on: bool) -> u32
        ensures { result ≡ interrupts cr1 on }
    {
        let txie = Cr1::TXIE.switch(cr1, on);
        let rxie = Cr1::RXIE.switch(txie, on);
        let addrie = Cr1::ADDRIE.switch(rxie, on);
        let nackie = Cr1::NACKIE.switch(addrie, on);
        let stopie = Cr1::STOPIE.switch(nackie, on);
        let tcie = Cr1::TCIE.switch(stopie, on);
        Cr1::ERRIE.switch(tcie, on)
    }
}
