// Construction.

ghost use Rattle.std.specs.Prelude.{◌≡◌, ◌<◌, IfOk, length};
ghost use Rattle.registers.specs.CallLog.{report_of, Reported};
ghost use Rattle.registers.specs.Construct.{own_ten_or_seven, non_blocking_construction};
ghost use Rattle.nonblocking.specs.Construct.{Constructed, Renewed};

use crate::link::{Called, Link};
use registers::answers::Refusal;
use registers::call_log::Report;
use registers::config::Config;
use registers::construct::set_up;
use registers::oar::Oar1;

impl Link {
    // Sets the unit up for a clock of so many hertz. A refusal leaves the unit as it was; the link is fresh either way.
    pub fn i2c1(config: Config, clock: u32, words: &[u32], log: &mut [u32]) -> Called
        ensures { Constructed config clock words.now log.old result.report result.link log.new }
    {
        Called::of(Link::new(), try_i2c1(config, clock, words, log))
    }

    // The same on a link that is there already: it is a fresh one then, and as it was where the set-up is refused.
    pub fn renew(
        &mut self,
        config: Config,
        clock: u32,
        words: &[u32],
        log: &mut [u32],
    ) -> Result<Report, Refusal>
        ensures { Renewed config clock words.now log.old (report_of result) self.old self.new log.new }
    {
        let report = try_i2c1(config, clock, words, log)?;
        *self = Link::new();
        Ok(report)
    }
}

// The set-up alone.
fn try_i2c1(config: Config, clock: u32, words: &[u32], log: &mut [u32]) -> Result<Report, Refusal>
    ensures report { Reported (non_blocking_construction config clock words.now (length log.old)) log.old (report_of result) log.new }
    ensures logged { IfOk result (λ report. 0 < report.logged) }
{
    let oar1 = own_address(config.slave_address_1, config.address_11bits);
    set_up(config, clock, oar1, words, log)
}

// OAR1 as this driver writes it: all ten bits of a long address.
fn own_address(address: u16, address_11bits: bool) -> u32
    ensures { result ≡ own_ten_or_seven address_11bits address }
{
    if address_11bits {
        Oar1::own_ten(address)
    } else {
        Oar1::own_seven(address, false, true)
    }
}
