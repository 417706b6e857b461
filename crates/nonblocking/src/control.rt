// Interrupts, the watchdog and the error count: `listen`, `unlisten`, `execute_watchdog`, `get_errors_reset`.

ghost use Rattle.std.specs.Prelude.{◌≡◌, ℕ, List};
ghost use Rattle.registers.specs.CallLog.{word_at, report_of};
ghost use Rattle.nonblocking.specs.Steps.{Follows};
ghost use Rattle.nonblocking.specs.Meets.{Meets};
ghost use Rattle.nonblocking_meaning.specs.Plan.{interrupt_plan};
ghost use Rattle.nonblocking_meaning.specs.Call.{listen, unlisten, execute_watchdog, get_errors_reset};
ghost use Rattle.nonblocking.specs.Model.{model};

use crate::link::{Called, Link};
use registers::answers::{Answer, Refusal};
use registers::call_log::{Report, log_modify, word_at};
use registers::cr1::Cr1;
use std::mem;

impl Link {
    // To be called every tenth of a second, if at all: after ten calls without an end of the transfer the unit is reset.
    pub fn execute_watchdog(mut self, words: &[u32], log: &mut [u32]) -> Called
        ensures { Meets execute_watchdog words.now self result.report result.link log.old log.new }
    {
        let tried = self.tick(words, log);
        Called::of(self, tried)
    }

    // The error count, which is then 0.
    pub fn get_errors_reset(mut self) -> Called
        ensures { (words log : List ℕ) → Meets get_errors_reset words self result.report result.link log log }
    {
        let tried = self.take_errors();
        Called::of(self, tried)
    }

    // Starts listening for interrupts.
    #[tactic(auto, unfolding(nonblocking_meaning::specs::Outcome::outcome))]
    pub fn listen(self, words: &[u32], log: &mut [u32]) -> Called
        ensures same_link { result.link ≡ self }
        ensures matches { Meets listen words.now self result.report result.link log.old log.new }
    {
        let tried = self.switch_interrupts(true, words, log);
        Called::of(self, tried)
    }

    // Stops listening for interrupts.
    #[tactic(auto, unfolding(nonblocking_meaning::specs::Outcome::outcome))]
    pub fn unlisten(self, words: &[u32], log: &mut [u32]) -> Called
        ensures same_link { result.link ≡ self }
        ensures matches { Meets unlisten words.now self result.report result.link log.old log.new }
    {
        let tried = self.switch_interrupts(false, words, log);
        Called::of(self, tried)
    }

    #[tactic(auto, unfolding(nonblocking_meaning::specs::Outcome::outcome))]
    pub(crate) fn take_errors(&mut self) -> Result<Report, Refusal>
        ensures { (words log : List ℕ) → Meets get_errors_reset words self.old (report_of result) self.new log log }
    {
        self.possible()?;
        let errors = mem::take(&mut self.errors);
        Ok(Report::without_access(Answer::Errors(errors)))
    }

    fn switch_interrupts(&self, on: bool, words: &[u32], log: &mut [u32]) -> Result<Report, Refusal>
        ensures { Follows (interrupt_plan on (word_at words.now 0) (model self.now)) words.now (model self.now) result (model self.now) log.old log.new }
    {
        self.possible()?;
        let cr1 = Cr1::interrupts(word_at(words, 0), on);
        log_modify(Cr1::READ, Cr1::WRITE, cr1, words, log)
    }
}
