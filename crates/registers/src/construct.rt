// Construction: what both drivers write before their first transfer.

ghost use Rattle.std.specs.Prelude.{◌+◌, cond, ◌≡◌, ◌≤◌, ◌<◌, IfOk, ltb, length, []};
ghost use Rattle.registers.specs.Layout.{OAR1, OAR2, offset};
ghost use Rattle.registers.specs.Field.{digit};
ghost use Rattle.registers.specs.CallLog.{Reported, tried_accesses, report_of};
ghost use Rattle.registers.specs.Answers.{says};
ghost use Rattle.registers.specs.Construct.{set_up, set_up_accesses};

use crate::answers::{Answer, Refusal};
use crate::call_log::{Report, log_call, word_at};
use crate::config::Config;
use crate::cr1::Cr1;
use crate::oar::{Oar1, Oar2};
use crate::timing::Timingr;

// Sets the unit up as the configuration says. `oar1` is the driver's own reading of the first own address. That an accepted set-up logs
// something is handed on by three contracts to the one function that asks for it, which would take a type of its own apart at once.
#[tactic(auto, unfolding(crate::specs::Construct::set_up))]
pub fn set_up(
    config: Config,
    clock: u32,
    oar1: u32,
    words: &[u32],
    log: &mut [u32],
) -> Result<Report, Refusal>
    ensures report { Reported (set_up config clock oar1 words.now (length log.old)) log.old (report_of result) log.new }
    ensures logged { IfOk result (λ report. 0 < report.logged) }
{
    let timing = config.timing_bits(clock)?;
    write_set_up(config, timing, oar1, words, log)
}

// How many own addresses are above 0.
fn own_addresses(first: u16, second: u8) -> usize
    ensures number { result ≡ digit (ltb 0 first) + digit (ltb 0 second) }
    ensures two { result ≤ 2 }
{
    usize::from(0 < first) + usize::from(0 < second)
}

// What is written for the first own address that is above 0, by the number in the log and the word.
fn first_written(first: u16, oar1: u32, oar2: u32) -> (u32, u32)
    ensures { result ≡ cond (ltb 0 first) (offset OAR1 + 0x100, oar1) (offset OAR2 + 0x100, oar2) }
{
    if 0 < first {
        (Oar1::WRITE, oar1)
    } else {
        (Oar2::WRITE, oar2)
    }
}

// All that may be written, of which the own addresses come last: so many of them as there are.
fn write_set_up(
    config: Config,
    timing: u32,
    oar1: u32,
    words: &[u32],
    log: &mut [u32],
) -> Result<Report, Refusal>
    ensures report { Reported (tried_accesses (says 0 []) (set_up_accesses config timing oar1 words.now) (length words.now) (length log.old)) log.old
        (report_of result) log.new }
    ensures logged { IfOk result (λ report. 0 < report.logged) }
{
    let off = word_at(words, 0);
    let on = word_at(words, 1);
    let first = word_at(words, 2);
    let second = word_at(words, 3);
    let oar2 = Oar2::own_second(config.slave_address_2, config.slave_address_mask);
    let (own_register, own_word) = first_written(config.slave_address_1, oar1, oar2);
    let entries = [
        Cr1::READ,
        off,
        Cr1::WRITE,
        Cr1::PE.switch(off, false),
        Timingr::WRITE,
        timing,
        Cr1::READ,
        on,
        Cr1::WRITE,
        Cr1::configured(on, config.digital_filter, config.analog_filter),
        own_register,
        own_word,
        Cr1::READ,
        first,
        Cr1::WRITE,
        Cr1::SBC.switch(first, true),
        Oar2::WRITE,
        oar2,
        Cr1::READ,
        second,
        Cr1::WRITE,
        Cr1::SBC.switch(second, true),
    ];
    let own = own_addresses(config.slave_address_1, config.slave_address_2);
    log_call(Answer::Done, 2 + own, &entries[..10 + 6 * own], words, log)
}
