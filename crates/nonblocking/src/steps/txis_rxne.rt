// TXIS and RXNE: a byte sent, and a byte received.

ghost use Rattle.std.specs.Prelude.{◌≡◌, get_or, ◌≤◌};
ghost use Rattle.registers.specs.Words.{sent};
ghost use Rattle.nonblocking.specs.Steps.{FlagStep};
ghost use Rattle.nonblocking.specs.Model.{model};

use crate::link::Link;
use crate::steps::{one_more_access, one_read};
use registers::answers::{Answer, Refusal};
use registers::call_log::{Report, log_call, word_at};
use registers::data_registers::{Rxdr, Txdr};
use registers::flag_order::Flag;
use registers::isr::Isr;

// The byte at the index, as TXDR takes it; 0 where none is left, where a blocking call has 0x21.
fn byte_out(bytes: &[u8], index: usize) -> u32
    ensures { result ≡ sent (get_or bytes.now index 0) }
{
    Txdr::sent(bytes.get(index).copied().unwrap_or(0))
}

impl Link {
    // The next byte goes on the wire.
    pub(crate) fn on_txis(&mut self, words: &[u32], log: &mut [u32]) -> Result<Report, Refusal>
        requires { self.old.length ≤ 255 }
        ensures { FlagStep Flag.Txis words.now (model self.old) result (model self.new) log.old log.new }
    {
        if self.length <= self.index {
            return one_read(Answer::Pending, Isr::READ, words, log);
        }
        let byte = byte_out(&self.data[..self.length], self.index);
        let report = one_more_access(Answer::Pending, 1, Txdr::WRITE, byte, words, log)?;
        self.index += 1;
        Ok(report)
    }

    // A byte came in. With a full index RXDR is read anyway, if RXNE is still set, to clear the flag.
    pub(crate) fn on_rxne(&mut self, words: &[u32], log: &mut [u32]) -> Result<Report, Refusal>
        requires { self.old.length ≤ 255 }
        ensures { FlagStep Flag.Rxne words.now (model self.old) result (model self.new) log.old log.new }
    {
        let next = word_at(words, 1);
        if self.index < self.length {
            let report = one_more_access(Answer::Pending, 2, Rxdr::READ, next, words, log)?;
            self.data[self.index] = Rxdr::received(next);
            self.index += 1;
            return Ok(report);
        }
        if Isr::RXNE.is_set(next) {
            let entries = [
                Isr::READ,
                word_at(words, 0),
                Isr::READ,
                next,
                Rxdr::READ,
                word_at(words, 2),
            ];
            return log_call(Answer::Pending, 3, &entries, words, log);
        }
        one_more_access(Answer::Pending, 2, Isr::READ, next, words, log)
    }
}
