// The steps of a check, one for each flag. A step whose accesses are refused changes nothing.

ghost use Rattle.std.specs.Prelude.{◌+◌, [], ◌∷◌};
ghost use Rattle.registers.specs.Layout.{ISR, ICR, offset};
ghost use Rattle.registers.specs.CallLog.{word_at};
ghost use Rattle.nonblocking.specs.Steps.{LogsNumbers, FlagStep};
ghost use Rattle.registers.specs.Field.{put};
ghost use Rattle.registers.specs.Answers.{said};
ghost use Rattle.nonblocking.specs.Model.{model};

use crate::link::Link;
use registers::answers::{Answer, Refusal};
use registers::call_log::{Report, log_call, word_at};
use registers::field::Field;
use registers::flag_order::Flag;
use registers::isr::{Icr, Isr};

pub(crate) mod addr;
pub(crate) mod stopf;
pub(crate) mod tc_tcr;
pub(crate) mod txis_rxne;

// ISR was read, and one more register is read or written.
fn one_more_access(
    answer: Answer,
    reads: usize,
    register: u32,
    word: u32,
    words: &[u32],
    log: &mut [u32],
) -> Result<Report, Refusal>
    ensures { LogsNumbers (said answer) reads (offset ISR ∷ word_at words.now 0 ∷ register ∷ word ∷ []) words.now log.old result log.new }
{
    let entries = [Isr::READ, word_at(words, 0), register, word];
    log_call(answer, reads, &entries, words, log)
}

// ISR was read, and this flag is cleared.
pub(crate) fn flag_cleared(
    answer: Answer,
    flag: Field,
    words: &[u32],
    log: &mut [u32],
) -> Result<Report, Refusal>
    ensures { LogsNumbers (said answer) 1 (offset ISR ∷ word_at words.now 0 ∷ (offset ICR + 0x100) ∷ put 0 flag 1 ∷ []) words.now log.old result log.new }
{
    one_more_access(answer, 1, Icr::WRITE, Icr::cleared(flag), words, log)
}

// One register was read, and nothing follows.
pub(crate) fn one_read(
    answer: Answer,
    register: u32,
    words: &[u32],
    log: &mut [u32],
) -> Result<Report, Refusal>
    ensures { LogsNumbers (said answer) 1 (register ∷ word_at words.now 0 ∷ []) words.now log.old result log.new }
{
    log_call(answer, 1, &[register, word_at(words, 0)], words, log)
}

impl Link {
    pub(crate) fn on_berr(&mut self, words: &[u32], log: &mut [u32]) -> Result<Report, Refusal>
        ensures { FlagStep Flag.Berr words.now (model self.old) result (model self.new) log.old log.new }
    {
        let report = flag_cleared(Answer::BusError, Isr::BERR, words, log)?;
        self.count_error();
        Ok(report)
    }
}
