// `check_isr_flags`: the flag that the ISR word is taken as chooses the step.

ghost use Rattle.registers.specs.CallLog.{report_of};
ghost use Rattle.nonblocking.specs.Meets.{Meets};
ghost use Rattle.nonblocking_meaning.specs.Call.{check_isr_flags};

use crate::link::{Called, Link};
use crate::steps::{flag_cleared, one_read};
use registers::answers::{Answer, Refusal};
use registers::call_log::{Report, word_at};
use registers::flag_order::{Flag, taken_as};
use registers::isr::Isr;

impl Link {
    // Looks at the flags once, and does what the first set one asks for. Call it from the I2C interrupt, or again while it answers pending.
    pub fn check_isr_flags(mut self, words: &[u32], log: &mut [u32]) -> Called
        ensures { Meets check_isr_flags words.now self result.report result.link log.old log.new }
    {
        let tried = self.check(words, log);
        Called::of(self, tried)
    }

    #[tactic(auto, unfolding(nonblocking_meaning::specs::Outcome::outcome))]
    pub(crate) fn check(&mut self, words: &[u32], log: &mut [u32]) -> Result<Report, Refusal>
        ensures { Meets check_isr_flags words.now self.old (report_of result) self.new log.old log.new }
    {
        self.possible()?;
        match taken_as(word_at(words, 0)) {
            Flag::Berr => self.on_berr(words, log),
            // A lost bus is not counted as an error.
            Flag::Arlo => flag_cleared(Answer::ArbitrationLost, Isr::ARLO, words, log),
            // The stop condition is yet to come.
            Flag::Nackf => flag_cleared(Answer::Pending, Isr::NACKF, words, log),
            Flag::Txis => self.on_txis(words, log),
            Flag::Rxne => self.on_rxne(words, log),
            Flag::Stopf => self.on_stopf(words, log),
            Flag::Tc => self.on_tc(words, log),
            Flag::Tcr => self.on_tcr(words, log),
            Flag::Addr => self.on_addr(words, log),
            Flag::Nothing => one_read(Answer::Pending, Isr::READ, words, log),
        }
    }
}
