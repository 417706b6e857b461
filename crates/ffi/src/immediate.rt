// The calls of the blocking driver that never wait.

ghost use Rattle.std.specs.Prelude.{true, false, length};
ghost use Rattle.registers.specs.CallLog.{Reported};
ghost use Rattle.blocking.specs.Immediate.{slave_addressed, slave_sbc, interrupt, clear_irq};
ghost use Rattle.c_numbers.specs.Answer.{Out};
ghost use Rattle.registers.specs.Isr.{event_of};

use blocking::immediate;
use c_numbers::answer::store_report;
use registers::isr::Event;

#[unsafe(no_mangle)]
pub extern "C" fn i2c_blocking_slave_addressed(words: &[u32], log: &mut [u32], out: &mut [u64; 6])
    ensures { Out (λ r. Reported (slave_addressed words.now (length log.old)) log.old r log.new) out.new }
{
    store_report(immediate::slave_addressed(words, log), out);
}

#[unsafe(no_mangle)]
pub extern "C" fn i2c_blocking_slave_sbc(
    on: bool,
    words: &[u32],
    log: &mut [u32],
    out: &mut [u64; 6],
)
    ensures { Out (λ r. Reported (slave_sbc on words.now (length log.old)) log.old r log.new) out.new }
{
    store_report(immediate::slave_sbc(on, words, log), out);
}

#[unsafe(no_mangle)]
pub extern "C" fn i2c_blocking_listen(event: u8, words: &[u32], log: &mut [u32], out: &mut [u64; 6])
    ensures { Out (λ r. Reported (interrupt (event_of event) true words.now (length log.old)) log.old r log.new) out.new }
{
    store_report(immediate::listen(Event::from(event), words, log), out);
}

#[unsafe(no_mangle)]
pub extern "C" fn i2c_blocking_unlisten(
    event: u8,
    words: &[u32],
    log: &mut [u32],
    out: &mut [u64; 6],
)
    ensures { Out (λ r. Reported (interrupt (event_of event) false words.now (length log.old)) log.old r log.new) out.new }
{
    store_report(immediate::unlisten(Event::from(event), words, log), out);
}

#[unsafe(no_mangle)]
pub extern "C" fn i2c_blocking_clear_irq(event: u8, log: &mut [u32], out: &mut [u64; 6])
    ensures { Out (λ r. Reported (clear_irq (event_of event) (length log.old)) log.old r log.new) out.new }
{
    store_report(immediate::clear_irq(Event::from(event), log), out);
}
