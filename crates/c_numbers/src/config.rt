// A configuration as the ten numbers that C hands in. Every number is taken.

ghost use Rattle.std.specs.Prelude.{◌≡◌};
ghost use Rattle.c_numbers.specs.Config.{config_of};

use registers::config::{Config, SlaveAddressMask};

// `Config` is of a crate below, so that no `From` can stand here.
pub fn config_of(numbers: &[u32; 10]) -> Config
    ensures { result ≡ config_of numbers.now }
{
    let [
        speed_set,
        speed,
        timing_set,
        timing,
        analog,
        digital,
        own,
        long,
        second,
        mask,
    ] = *numbers;
    Config {
        speed: (0 < speed_set).then_some(speed),
        timing: (0 < timing_set).then_some(timing),
        analog_filter: 0 < analog,
        digital_filter: (digital % 256) as u8,
        slave_address_1: (own % 65536) as u16,
        address_11bits: 0 < long,
        slave_address_2: (second % 256) as u8,
        slave_address_mask: SlaveAddressMask::from(mask),
    }
}
