// Construction of each driver. The configuration is ten numbers.

ghost use Rattle.std.specs.Prelude.{length};
ghost use Rattle.registers.specs.CallLog.{Reported};
ghost use Rattle.registers.specs.Construct.{blocking_construction};
ghost use Rattle.nonblocking.specs.Construct.{Renewed};
ghost use Rattle.c_numbers.specs.Config.{config_of};
ghost use Rattle.c_numbers.specs.Answer.{Out};

use blocking::immediate;
use c_numbers::answer::store_report;
use c_numbers::config::config_of;
use nonblocking::link::Link;
use registers::call_log::Report;

// The link is fresh afterwards, whatever it held before; a refusal leaves it.
#[unsafe(no_mangle)]
pub extern "C" fn i2c_construct(
    link: &mut Link,
    config: &[u32; 10],
    clock: u32,
    words: &[u32],
    log: &mut [u32],
    out: &mut [u64; 6],
)
    ensures { Out (λ r. Renewed (config_of config.now) clock words.now log.old r link.old link.new log.new) out.new }
{
    let tried = link.renew(config_of(config), clock, words, log);
    store_report(Report::of(tried), out);
}

// The blocking driver keeps no link.
#[unsafe(no_mangle)]
pub extern "C" fn i2c_blocking_construct(
    config: &[u32; 10],
    clock: u32,
    words: &[u32],
    log: &mut [u32],
    out: &mut [u64; 6],
)
    ensures { Out (λ r. Reported (blocking_construction (config_of config.now) clock words.now (length log.old)) log.old r log.new) out.new }
{
    store_report(immediate::i2c1(config_of(config), clock, words, log), out);
}
