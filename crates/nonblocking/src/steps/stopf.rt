// STOPF: the end of a transfer.

ghost use Rattle.std.specs.Prelude.{◌≡◌, [], ◌∷◌};
ghost use Rattle.nonblocking.specs.Steps.{FlagStep};
ghost use Rattle.registers.specs.Isr.{direction_of};
ghost use Rattle.registers.specs.Answers.{said, says};
ghost use Rattle.nonblocking.specs.Model.{model};

use crate::link::Link;
use crate::steps::flag_cleared;
use registers::answers::{Answer, Refusal};
use registers::call_log::{Report, word_at};
use registers::flag_order::Flag;
use registers::isr::Isr;

// The bytes that a transfer moved, with its address and direction.
fn shown(address: u16, isr: u32, count: usize) -> Answer
    ensures { said result ≡ says 0x44 (address ∷ direction_of isr ∷ count ∷ []) }
{
    Answer::Data {
        address,
        direction: Isr::direction(isr),
        count,
    }
}

impl Link {
    // The transfer ended: with nothing moved it was not acknowledged, else its bytes are shown. The index stays.
    pub(crate) fn on_stopf(&mut self, words: &[u32], log: &mut [u32]) -> Result<Report, Refusal>
        ensures { FlagStep Flag.Stopf words.now (model self.old) result (model self.new) log.old log.new }
    {
        if self.index == 0 {
            let report = flag_cleared(Answer::Nack, Isr::STOPF, words, log)?;
            self.watchdog = 0;
            self.count_error();
            return Ok(report);
        }
        let answer = shown(self.address, word_at(words, 0), self.index);
        let report = flag_cleared(answer, Isr::STOPF, words, log)?;
        self.watchdog = 0;
        Ok(report)
    }
}
