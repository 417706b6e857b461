// The slave's calls: `slave_write`, `slave_sbc`, `set_address`.

ghost use Rattle.std.specs.Prelude.{◌≡◌, []};
ghost use Rattle.nonblocking_meaning.specs.Plan.{slave_write_accesses};
ghost use Rattle.registers.specs.CallLog.{word_at, report_of};
ghost use Rattle.nonblocking.specs.Steps.{Logs};
ghost use Rattle.nonblocking.specs.Meets.{Meets};
ghost use Rattle.registers.specs.Answers.{says};
ghost use Rattle.nonblocking_meaning.specs.Call.{slave_write, slave_sbc, set_address};

use crate::link::{Called, Link};
use registers::answers::{Answer, Refusal};
use registers::call_log::{Report, log_call, log_modify, word_at};
use registers::cr1::Cr1;
use registers::cr2::Cr2;
use registers::isr::{Icr, Isr};
use registers::oar::Oar1;

impl Link {
    // The bytes that the master is to read, after it addressed this slave. Without them the bus stays blocked.
    pub fn slave_write(mut self, bytes: &[u8], words: &[u32], log: &mut [u32]) -> Called
        ensures { Meets (slave_write bytes.now) words.now self result.report result.link log.old log.new }
    {
        let tried = self.offer(bytes, words, log);
        Called::of(self, tried)
    }

    // Switches slave byte control. A transfer in which a master writes and then reads should begin with it off.
    pub fn slave_sbc(self, sbc_enabled: bool, words: &[u32], log: &mut [u32]) -> Called
        ensures same_link { result.link ≡ self }
        ensures matches { Meets (slave_sbc sbc_enabled) words.now self result.report result.link log.old log.new }
    {
        let tried = self.byte_control(sbc_enabled, words, log);
        Called::of(self, tried)
    }

    // Sets and enables the own address of seven bits. It is disabled while it changes.
    pub fn set_address(self, address: u16, words: &[u32], log: &mut [u32]) -> Called
        ensures same_link { result.link ≡ self }
        ensures matches { Meets (set_address address) words.now self result.report result.link log.old log.new }
    {
        let tried = self.enable_address(address, words, log);
        Called::of(self, tried)
    }

    #[tactic(auto, unfolding(nonblocking_meaning::specs::Outcome::outcome))]
    pub(crate) fn offer(
        &mut self,
        bytes: &[u8],
        words: &[u32],
        log: &mut [u32],
    ) -> Result<Report, Refusal>
        ensures { Meets (slave_write bytes.now) words.now self.old (report_of result) self.new log.old log.new }
    {
        self.possible()?;
        let n = bytes.len();
        if !Cr2::length_allowed(n) {
            return Err(Refusal::BadLength);
        }
        let report = slave_opened(n, words, log)?;
        self.index = 0;
        self.length = n;
        self.keep(bytes);
        Ok(report)
    }

    #[tactic(auto, unfolding(nonblocking_meaning::specs::Outcome::outcome))]
    fn byte_control(&self, on: bool, words: &[u32], log: &mut [u32]) -> Result<Report, Refusal>
        ensures { Meets (slave_sbc on) words.now self.now (report_of result) self.now log.old log.new }
    {
        self.possible()?;
        let cr1 = Cr1::SBC.switch(word_at(words, 0), on);
        log_modify(Cr1::READ, Cr1::WRITE, cr1, words, log)
    }

    #[tactic(auto, unfolding(nonblocking_meaning::specs::Outcome::outcome))]
    fn enable_address(
        &self,
        address: u16,
        words: &[u32],
        log: &mut [u32],
    ) -> Result<Report, Refusal>
        ensures { Meets (set_address address) words.now self.now (report_of result) self.now log.old log.new }
    {
        self.possible()?;
        let entries = [
            Oar1::WRITE,
            Oar1::own_seven(address, false, false),
            Oar1::WRITE,
            Oar1::own_seven(address, false, true),
        ];
        log_call(Answer::Done, 0, &entries, words, log)
    }
}

// The length is set, TXDR is flushed, and ADDR is cleared.
fn slave_opened(nbytes: usize, words: &[u32], log: &mut [u32]) -> Result<Report, Refusal>
    ensures { Logs (says 0 []) (slave_write_accesses (word_at words.now 0) nbytes) words.now log.old result log.new }
{
    let cr2 = word_at(words, 0);
    let entries = [
        Cr2::READ,
        cr2,
        Cr2::WRITE,
        Cr2::sized(cr2, nbytes, false),
        Isr::WRITE,
        Isr::flushed(),
        Icr::WRITE,
        Icr::cleared(Isr::ADDR),
    ];
    log_call(Answer::Done, 1, &entries, words, log)
}
