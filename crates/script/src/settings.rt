// The configuration that a line gives.

ghost use Rattle.std.specs.Prelude.{◌≡◌};
ghost use Rattle.script.specs.Settings.{configuration_of};

use registers::answers::Refusal;
use registers::config::{Config, SlaveAddressMask};

// The first own address, in seven-bit mode also one of more bits.
#[derive(Clone, Copy, Debug, PartialEq, Eq)]
pub enum OwnAddress {
    Seven(u16),
    Ten(u16),
}

// The digital filter, by its setter or as the field itself.
#[derive(Clone, Copy, Debug, PartialEq, Eq)]
pub enum Filter {
    Setter(u8),
    Field(u8),
}

#[derive(Clone, Copy, Debug, Default, PartialEq, Eq)]
pub struct Settings {
    pub speed: Option<u32>,
    pub timing: Option<u32>,
    pub analog_filter: Option<bool>,
    pub digital_filter: Option<Filter>,
    pub slave_address_1: Option<OwnAddress>,
    pub slave_address_2: Option<(u8, SlaveAddressMask)>,
}

impl Settings {
    // The configuration, or what the filter's setter refuses.
    pub fn config(self) -> Result<Config, Refusal>
        ensures { result ≡ configuration_of self }
    {
        let (slave_address_1, address_11bits) = match self.slave_address_1 {
            Some(OwnAddress::Seven(address)) => (address, false),
            Some(OwnAddress::Ten(address)) => (address, true),
            None => (0, false),
        };
        let (slave_address_2, slave_address_mask) = self
            .slave_address_2
            .unwrap_or((0, SlaveAddressMask::MaskNone));
        let config = Config {
            speed: self.speed,
            timing: self.timing,
            analog_filter: self.analog_filter.unwrap_or(true),
            digital_filter: 0,
            slave_address_1,
            address_11bits,
            slave_address_2,
            slave_address_mask,
        };
        match self.digital_filter {
            Some(Filter::Setter(cycles)) => config.enable_digital_filter(cycles),
            Some(Filter::Field(digital_filter)) => Ok(Config {
                digital_filter,
                ..config
            }),
            None => Ok(config),
        }
    }
}
