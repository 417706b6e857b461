// The calls of the blocking driver that never wait. They are refused whole: no access is made where a word or room is missing.

ghost use Rattle.std.specs.Prelude.{length, ◌≡◌, Bool};
ghost use Rattle.registers.specs.CallLog.{Reported};
ghost use Rattle.blocking.specs.Immediate.{slave_addressed, slave_sbc, interrupt_word, interrupt, clear_irq};
ghost use Rattle.registers.specs.Construct.{blocking_construction};

use registers::answers::Answer;
use registers::call_log::{Report, log_call, log_modify, word_at};
use registers::config::Config;
use registers::construct::set_up;
use registers::cr1::Cr1;
use registers::isr::{Event, Icr, Isr};
use registers::oar::Oar1;

// The clock is not released yet: `slave_read` and `slave_write` need ADDR set.
pub fn slave_addressed(words: &[u32], log: &mut [u32]) -> Report
    ensures { Reported (slave_addressed words.now (length log.old)) log.old result log.new }
{
    let first = word_at(words, 0);
    if !Isr::ADDR.is_set(first) {
        let entries = [Isr::READ, first];
        return Report::of(log_call(Answer::Pending, 1, &entries, words, log));
    }
    let second = word_at(words, 1);
    let entries = [Isr::READ, first, Isr::READ, second];
    Report::of(log_call(Isr::addressed(second), 2, &entries, words, log))
}

pub fn slave_sbc(sbc_enabled: bool, words: &[u32], log: &mut [u32]) -> Report
    ensures { Reported (slave_sbc sbc_enabled words.now (length log.old)) log.old result log.new }
{
    let cr1 = Cr1::SBC.switch(word_at(words, 0), sbc_enabled);
    Report::of(log_modify(Cr1::READ, Cr1::WRITE, cr1, words, log))
}

// The event's interrupt switched in CR1.
fn event_switched(event: Event, cr1: u32, on: bool) -> u32
    ensures { result ≡ interrupt_word event cr1 on }
{
    match event {
        Event::AddressMatch => Cr1::ADDRIE.switch(cr1, on),
        Event::Rxne => Cr1::RXIE.switch(cr1, on),
    }
}

fn switch_event(event: Event, on: bool, words: &[u32], log: &mut [u32]) -> Report
    ensures { Reported (interrupt event on words.now (length log.old)) log.old result log.new }
{
    let cr1 = event_switched(event, word_at(words, 0), on);
    Report::of(log_modify(Cr1::READ, Cr1::WRITE, cr1, words, log))
}

pub fn listen(event: Event, words: &[u32], log: &mut [u32]) -> Report
    ensures { Reported (interrupt event Bool.true words.now (length log.old)) log.old result log.new }
{
    switch_event(event, true, words, log)
}

pub fn unlisten(event: Event, words: &[u32], log: &mut [u32]) -> Report
    ensures { Reported (interrupt event Bool.false words.now (length log.old)) log.old result log.new }
{
    switch_event(event, false, words, log)
}

// Rxne is cleared by reading the byte, so there is nothing to do for it.
pub fn clear_irq(event: Event, log: &mut [u32]) -> Report
    ensures { Reported (clear_irq event (length log.old)) log.old result log.new }
{
    match event {
        Event::AddressMatch => {
            let entries = [Icr::WRITE, Icr::cleared(Isr::ADDR)];
            Report::of(log_call(Answer::Done, 0, &entries, &[], log))
        }
        Event::Rxne => Report::without_access(Answer::Done),
    }
}

// Sets the unit up for a clock of so many hertz. OAR1 holds the low seven bits of the own address, in ten-bit mode too.
pub fn i2c1(config: Config, clock: u32, words: &[u32], log: &mut [u32]) -> Report
    ensures { Reported (blocking_construction config clock words.now (length log.old)) log.old result log.new }
{
    let oar1 = Oar1::own_seven(config.slave_address_1, config.address_11bits, true);
    Report::of(set_up(config, clock, oar1, words, log))
}
