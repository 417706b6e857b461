// The registers side by side.

ghost use Rattle.std.specs.Prelude.{◌≡◌};
ghost use Rattle.registers.specs.Layout.{offsets};

use crate::cr1::Cr1;
use crate::cr2::Cr2;
use crate::data_registers::{Rxdr, Txdr};
use crate::isr::{Icr, Isr};
use crate::oar::{Oar1, Oar2};
use crate::timing::Timingr;

// The registers' byte offsets: what a host adds to the unit's base address.
pub fn offsets() -> [u32; 9]
    ensures { result ≡ offsets }
{
    [
        Cr1::OFFSET,
        Cr2::OFFSET,
        Oar1::OFFSET,
        Oar2::OFFSET,
        Timingr::OFFSET,
        Isr::OFFSET,
        Icr::OFFSET,
        Rxdr::OFFSET,
        Txdr::OFFSET,
    ]
}
