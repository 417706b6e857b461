// The watchdog: after ten calls without an end of the transfer the unit is reset.

ghost use Rattle.std.specs.Prelude.{[]};
ghost use Rattle.nonblocking_meaning.specs.Plan.{reset_accesses};
ghost use Rattle.registers.specs.CallLog.{word_at, report_of};
ghost use Rattle.nonblocking.specs.Steps.{Logs};
ghost use Rattle.nonblocking.specs.Meets.{Meets};
ghost use Rattle.registers.specs.Answers.{says};
ghost use Rattle.nonblocking_meaning.specs.Call.{execute_watchdog};

use crate::link::Link;
use registers::answers::{Answer, Refusal};
use registers::call_log::{Report, log_call, word_at};
use registers::cr1::Cr1;

impl Link {
    #[tactic(auto, unfolding(nonblocking_meaning::specs::Outcome::outcome))]
    pub(crate) fn tick(&mut self, words: &[u32], log: &mut [u32]) -> Result<Report, Refusal>
        ensures { Meets execute_watchdog words.now self.old (report_of result) self.new log.old log.new }
    {
        self.possible()?;
        match self.watchdog {
            0 => Ok(Report::without_access(Answer::Done)),
            1 => {
                let report = reset(words, log)?;
                self.watchdog = 0;
                self.count_error();
                Ok(report)
            }
            left => {
                self.watchdog = left - 1;
                Ok(Report::without_access(Answer::Done))
            }
        }
    }
}

// The unit switched off and on, with a read between that forces the wait.
fn reset(words: &[u32], log: &mut [u32]) -> Result<Report, Refusal>
    ensures { Logs (says 0 []) (reset_accesses (word_at words.now 0) (word_at words.now 1) (word_at words.now 2)) words.now log.old result log.new }
{
    let cr1 = word_at(words, 0);
    let again = word_at(words, 2);
    let entries = [
        Cr1::READ,
        cr1,
        Cr1::WRITE,
        Cr1::PE.switch(cr1, false),
        Cr1::READ,
        word_at(words, 1),
        Cr1::READ,
        again,
        Cr1::WRITE,
        Cr1::PE.switch(again, true),
    ];
    log_call(Answer::Done, 3, &entries, words, log)
}
