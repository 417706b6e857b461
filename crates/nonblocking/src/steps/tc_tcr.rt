// TC and TCR: a frame of its length, a short one, and one byte too many.

ghost use Rattle.std.specs.Prelude.{◌≡◌, true, false, [], ◌∷◌, ltb};
ghost use Rattle.registers.specs.Layout.{ISR, CR2};
ghost use Rattle.registers.specs.CallLog.{word_at, read, write};
ghost use Rattle.nonblocking.specs.Steps.{Logs, FollowsPossible, FlagStep};
ghost use Rattle.registers.specs.Answers.{said};
ghost use Rattle.nonblocking_meaning.specs.Plan.{with_first, on_tc_at, raised};
ghost use Rattle.nonblocking.specs.Model.{model};

use crate::link::Link;
use crate::steps::one_more_access;
use registers::answers::{Answer, Refusal};
use registers::call_log::{Report, log_call, word_at};
use registers::cr2::Cr2;
use registers::flag_order::Flag;
use registers::isr::Isr;
use std::mem;

// ISR and CR2 were read and CR2 is written.
fn cr2_written(answer: Answer, cr2: u32, words: &[u32], log: &mut [u32]) -> Result<Report, Refusal>
    ensures { Logs (said answer) (read ISR (word_at words.now 0) ∷ read CR2 (word_at words.now 1) ∷ write CR2 cr2 ∷ []) words.now log.old result log.new }
{
    let entries = [
        Isr::READ,
        word_at(words, 0),
        Cr2::READ,
        word_at(words, 1),
        Cr2::WRITE,
        cr2,
    ];
    log_call(answer, 2, &entries, words, log)
}

// The previous byte is sent now.
fn raised(index: usize, length: usize) -> usize
    ensures { result ≡ raised (ltb index length) index }
{
    if index < length { index + 1 } else { index }
}

impl Link {
    // As a slave, one byte more than expected: it is not acknowledged.
    pub(crate) fn on_tcr(&self, words: &[u32], log: &mut [u32]) -> Result<Report, Refusal>
        ensures { FlagStep Flag.Tcr words.now (model self.now) result (model self.now) log.old log.new }
    {
        let cr2 = Cr2::nack_next_byte(word_at(words, 1));
        cr2_written(Answer::Pending, cr2, words, log)
    }

    // The first half of a `master_write_read` ended: the second half starts, or the frame was short.
    pub(crate) fn on_tc(&mut self, words: &[u32], log: &mut [u32]) -> Result<Report, Refusal>
        ensures { FlagStep Flag.Tc words.now (model self.old) result (model self.new) log.old log.new }
    {
        let count = raised(self.index, self.length);
        if count == self.length {
            self.second_half(words, log)
        } else {
            self.short_frame(count, words, log)
        }
    }

    fn second_half(&mut self, words: &[u32], log: &mut [u32]) -> Result<Report, Refusal>
        ensures { FollowsPossible (with_first (read ISR (word_at words.now 0)) (on_tc_at true 0 (word_at words.now 1) (model self.old))) words.now
            (model self.old) result (model self.new) log.old log.new }
    {
        let sadd = Cr2::sadd16(self.address);
        let cr2 = Cr2::started(0, sadd, self.length_write_read, true, true);
        let report = one_more_access(Answer::Pending, 1, Cr2::WRITE, cr2, words, log)?;
        self.index = 0;
        self.length = mem::take(&mut self.length_write_read);
        Ok(report)
    }

    fn short_frame(
        &mut self,
        count: usize,
        words: &[u32],
        log: &mut [u32],
    ) -> Result<Report, Refusal>
        ensures { FollowsPossible (with_first (read ISR (word_at words.now 0)) (on_tc_at false count (word_at words.now 1) (model self.old)))
            words.now (model self.old) result (model self.new) log.old log.new }
    {
        let cr2 = Cr2::with_stop(word_at(words, 1));
        let report = cr2_written(Answer::IncorrectFrameSize(count), cr2, words, log)?;
        self.index = count;
        self.count_error();
        Ok(report)
    }
}
