// The calls of the configuration.

ghost use Rattle.std.specs.Prelude.{◌≡◌, Some};
ghost use Rattle.play.specs.Settings.{config_answer, config_answer_text};

use registers::answers::Refusal;
use registers::config::Config;
use script::calls::{ConfigCall, Construction};
use std::fmt;

// What such a call tells: a timing word or the setting of the filter, or a period.
#[derive(Clone, Copy, Debug, PartialEq, Eq)]
pub enum ConfigValue {
    Word(u32),
    Period(u32),
}

// A call of the configuration. Of the setter it is the setting that it leaves.
pub fn config_call(call: ConfigCall) -> Result<ConfigValue, Refusal>
    ensures { result ≡ config_answer call }
{
    match call {
        ConfigCall::Timing(Construction { clock, settings }) => {
            settings.config()?.timing_bits(clock).map(ConfigValue::Word)
        }
        ConfigCall::Filter(cycles) => {
            let config = Config::new(0).enable_digital_filter(cycles)?;
            Ok(ConfigValue::Word(config.digital_filter as u32))
        }
        ConfigCall::Period(word) => Ok(ConfigValue::Period(Config::scl_period(word))),
    }
}

impl fmt::Display for ConfigValue {
    ghost output = { λ value. Some (config_answer_text value) };

    #[tactic(auto, using(script::proofs::Padded::zeros_first))]
    fn fmt<W: fmt::Write>(&self, f: &mut fmt::Formatter<W>) -> fmt::Result {
        match *self {
            ConfigValue::Word(word) => write!(f, "V {word:08X}"),
            ConfigValue::Period(period) => write!(f, "P {period}"),
        }
    }
}
