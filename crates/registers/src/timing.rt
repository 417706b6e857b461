// TIMINGR: the timing word for a speed at a clock, and its SCL period.

ghost use Rattle.std.specs.Prelude.{◌≡◌, ◌<◌, ◌≤◌, ok_or, IfErr};
ghost use Rattle.registers.specs.Timing.{mode_of, mode_word, at_quotient, at_speed, timing_bits, said_timing, period};

use crate::answers::Refusal;
use crate::config::Config;
use crate::field::Field;

#[derive(Clone, Copy, Debug, PartialEq, Eq)]
pub struct Timingr;

impl Timingr {
    // Why no trait gives a register its numbers: see `Field`.
    pub const OFFSET: u32 = 0x10;

    pub const WRITE: u32 = Timingr::OFFSET + 0x100;
}

// The fields of TIMINGR.
impl Config {
    pub const SCLL: Field = Field { place: 0, width: 8 };

    pub const SCLH: Field = Field { place: 8, width: 8 };

    pub const SDADEL: Field = Field {
        place: 16,
        width: 4,
    };

    pub const SCLDEL: Field = Field {
        place: 20,
        width: 4,
    };

    pub const PRESC: Field = Field {
        place: 28,
        width: 4,
    };
}

// What a speed comes with: the prescaler, the least quotient, how much shorter SCLH is than SCLL, and the delays.
#[derive(Clone, Copy, Debug, PartialEq, Eq)]
struct Mode {
    presc: u32,
    least: u32,
    shorter: u32,
    sdadel: u32,
    scldel: u32,
}

impl Mode {
    fn of(speed: u32) -> Mode
        ensures { (result ≡ mode_of speed) × (result.presc ≤ 3) × (result.shorter < result.least) × (result.shorter ≤ 255) }
    {
        if speed <= 100_000 {
            Mode {
                presc: 3,
                least: 5,
                shorter: 4,
                sdadel: 2,
                scldel: 4,
            }
        } else {
            Mode {
                presc: 1,
                least: 7,
                shorter: 6,
                sdadel: 1,
                scldel: 3,
            }
        }
    }
}

// The five fields of a timing word.
fn timing_word(mode: Mode, scll: u32) -> u32
    requires { mode.shorter ≤ scll }
    ensures { result ≡ mode_word mode scll }
{
    let presc = Config::PRESC.put(0, mode.presc);
    let scldel = Config::SCLDEL.put(presc, mode.scldel);
    let sdadel = Config::SDADEL.put(scldel, mode.sdadel);
    let sclh = Config::SCLH.put(sdadel, scll - mode.shorter);
    Config::SCLL.put(sclh, scll)
}

// The quotient of clock and speed is too small where the clock is too slow for the speed.
fn at_quotient(mode: Mode, q: u32) -> Option<u32>
    requires { (mode.shorter < mode.least) × (mode.shorter ≤ 255) }
    ensures { said_timing (ok_or result Refusal.NoRate) ≡ at_quotient mode q }
{
    if q < mode.least {
        return None;
    }
    Some(timing_word(mode, (q - 1).min(255)))
}

// The timing word for a speed, if it has a rate at this clock.
fn at_speed(clock: u32, speed: u32) -> Option<u32>
    ensures { said_timing (ok_or result Refusal.NoRate) ≡ at_speed clock speed }
{
    if speed == 0 {
        return None;
    }
    let mode = Mode::of(speed);
    at_quotient(mode, clock / 2 / (mode.presc + 1) / speed)
}

impl Config {
    // The word for TIMINGR: an explicit timing as given, else the one for the speed.
    #[tactic(auto, unfolding(crate::specs::Timing::timing_bits))]
    pub fn timing_bits(self, clock: u32) -> Result<u32, Refusal>
        ensures word { said_timing result ≡ timing_bits self clock }
        ensures no_rate { IfErr result (λ refusal. refusal ≡ Refusal.NoRate) }
    {
        self.timing
            .or_else(|| self.speed.and_then(|speed| at_speed(clock, speed)))
            .ok_or(Refusal::NoRate)
    }

    // The SCL period of a timing word, in clock cycles.
    #[tactic(auto, unfolding(crate::specs::Timing::period))]
    pub fn scl_period(word: u32) -> u32
        ensures { result ≡ period word }
    {
        let presc = Config::PRESC.get(word);
        let scll = Config::SCLL.get(word);
        let sclh = Config::SCLH.get(word);
        (presc + 1) * (scll + sclh + 2)
    }
}
