// ADDR: addressed by a master.

ghost use Rattle.nonblocking.specs.Steps.{FlagStep};
ghost use Rattle.nonblocking.specs.Model.{model};

use crate::link::Link;
use registers::answers::Refusal;
use registers::call_log::{Report, log_call, word_at};
use registers::cr2::Cr2;
use registers::flag_order::Flag;
use registers::isr::{Icr, Isr};

impl Link {
    // Where the master reads, `slave_write` is to follow; where it writes, the buffer is opened for its bytes.
    pub(crate) fn on_addr(&mut self, words: &[u32], log: &mut [u32]) -> Result<Report, Refusal>
        ensures { FlagStep Flag.Addr words.now (model self.old) result (model self.new) log.old log.new }
    {
        let isr = word_at(words, 0);
        let address = Isr::address_code(isr);
        let answer = Isr::addressed(isr);
        if Isr::DIR.is_set(isr) {
            let report = log_call(answer, 1, &[Isr::READ, isr], words, log)?;
            self.address = address;
            self.watchdog = 10;
            return Ok(report);
        }
        let cr2 = word_at(words, 1);
        let entries = [
            Isr::READ,
            isr,
            Cr2::READ,
            cr2,
            Cr2::WRITE,
            Cr2::sized(cr2, 255, true),
            Icr::WRITE,
            Icr::cleared(Isr::ADDR),
        ];
        let report = log_call(answer, 2, &entries, words, log)?;
        self.begin(address, 255, self.marks);
        Ok(report)
    }
}
