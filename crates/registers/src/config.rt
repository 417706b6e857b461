// The configuration, with the names of the original.

ghost use Rattle.std.specs.Prelude.{◌≡◌, true, false, None, Some};
ghost use Rattle.registers.specs.Config.{filter_allowed, mask_number, mask_of, plain, with_filters, with_own_address, with_second_address, filtered};

use crate::answers::Refusal;

// 0 to 16 cycles; 16 leaves 0 in DNF.
fn filter_allowed(cycles: u8) -> bool
    ensures { result ≡ filter_allowed cycles }
{
    cycles <= 16
}

// How many of the low bits of the second address are not compared.
#[derive(Clone, Copy, Debug, PartialEq, Eq)]
pub enum SlaveAddressMask {
    MaskNone,
    MaskOneBit,
    MaskTwoBits,
    MaskThreeBits,
    MaskFourBits,
    MaskFiveBits,
    MaskSixBits,
    MaskAllBits,
}

impl SlaveAddressMask {
    pub fn number(self) -> u32
        ensures { result ≡ mask_number self }
    {
        self as u32
    }
}

// A mask by its number. Every number is taken: 7 and above are all bits. No derive makes a case from a number.
impl From<u32> for SlaveAddressMask {
    ghost from_gives = { λ number mask. mask ≡ mask_of number };

    fn from(number: u32) -> SlaveAddressMask {
        match number {
            0 => SlaveAddressMask::MaskNone,
            1 => SlaveAddressMask::MaskOneBit,
            2 => SlaveAddressMask::MaskTwoBits,
            3 => SlaveAddressMask::MaskThreeBits,
            4 => SlaveAddressMask::MaskFourBits,
            5 => SlaveAddressMask::MaskFiveBits,
            6 => SlaveAddressMask::MaskSixBits,
            _ => SlaveAddressMask::MaskAllBits,
        }
    }
}

#[derive(Clone, Copy, Debug, PartialEq, Eq)]
pub struct Config {
    // The fields have the names of the original: an own address of 0 is none, and `address_11bits` says how the first is read.
    pub speed: Option<u32>,
    pub timing: Option<u32>,
    pub analog_filter: bool,
    pub digital_filter: u8,
    pub slave_address_1: u16,
    pub address_11bits: bool,
    pub slave_address_2: u8,
    pub slave_address_mask: SlaveAddressMask,
}

impl Config {
    // Nothing set but the analog filter.
    const PLAIN: Config = Config {
        speed: None,
        timing: None,
        analog_filter: true,
        digital_filter: 0,
        slave_address_1: 0,
        address_11bits: false,
        slave_address_2: 0,
        slave_address_mask: SlaveAddressMask::MaskNone,
    };

    pub fn new(speed: u32) -> Self
        ensures { result ≡ plain (Some speed) None }
    {
        Config {
            speed: Some(speed),
            ..Config::PLAIN
        }
    }

    pub fn with_timing(timing: u32) -> Self
        ensures { result ≡ plain None (Some timing) }
    {
        Config {
            timing: Some(timing),
            ..Config::PLAIN
        }
    }

    pub fn disable_analog_filter(mut self) -> Self
        ensures { result ≡ with_filters false self.digital_filter self }
    {
        self.analog_filter = false;
        self
    }

    // 0 to 16 cycles; 16 leaves 0 in DNF. Where the number is refused the caller's configuration is as it was.
    pub fn enable_digital_filter(mut self, cycles: u8) -> Result<Config, Refusal>
        ensures { result ≡ filtered cycles self }
    {
        if !filter_allowed(cycles) {
            return Err(Refusal::BadFilter);
        }
        self.digital_filter = cycles;
        Ok(self)
    }

    // Slave address 1 as 7 bit address, in range 0 .. 127.
    pub fn slave_address(mut self, own_address: u8) -> Self
        ensures { result ≡ with_own_address own_address false self }
    {
        self.slave_address_1 = own_address as u16;
        self.address_11bits = false;
        self
    }

    // Slave address 1 as 11 bit address in range 0 .. 2047.
    pub fn slave_address_11bits(mut self, own_address: u16) -> Self
        ensures { result ≡ with_own_address own_address true self }
    {
        self.slave_address_1 = own_address;
        self.address_11bits = true;
        self
    }

    // Slave address 2 as 7 bit address in range 0 .. 127. All slaves within the mask are addressable.
    pub fn slave_address_2(mut self, own_address: u8, mask: SlaveAddressMask) -> Self
        ensures { result ≡ with_second_address own_address mask self }
    {
        self.slave_address_2 = own_address;
        self.slave_address_mask = mask;
        self
    }
}
