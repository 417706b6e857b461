// The starts of a master: `master_write`, `master_write_read`, `master_read`.

ghost use Rattle.std.specs.Prelude.{[], ◌∷◌, unwrap_or, is_none};
ghost use Rattle.nonblocking_meaning.specs.Plan.{write_accesses, read_accesses, write_start};
ghost use Rattle.registers.specs.Layout.{CR2};
ghost use Rattle.registers.specs.CallLog.{word_at, read, report_of};
ghost use Rattle.nonblocking.specs.Steps.{Logs, Follows};
ghost use Rattle.nonblocking.specs.Meets.{Meets};
ghost use Rattle.registers.specs.Answers.{says};
ghost use Rattle.nonblocking_meaning.specs.Call.{master_write, master_write_read, master_read};
ghost use Rattle.nonblocking.specs.Model.{model};

use crate::link::{Called, Link};
use crate::steps::one_read;
use registers::answers::{Answer, Refusal};
use registers::call_log::{Report, log_call, word_at};
use registers::cr2::Cr2;
use registers::data_registers::Rxdr;

impl Link {
    // Sends the bytes. They are copied to the link's buffer.
    pub fn master_write(mut self, addr: u16, bytes: &[u8], words: &[u32], log: &mut [u32]) -> Called
        ensures { Meets (master_write addr bytes.now) words.now self result.report result.link log.old log.new }
    {
        let tried = self.write(addr, bytes, words, log);
        Called::of(self, tried)
    }

    // Sends the bytes; when they are sent, the check starts a read of `read_len` bytes.
    pub fn master_write_read(
        mut self,
        addr: u16,
        bytes: &[u8],
        read_len: u8,
        words: &[u32],
        log: &mut [u32],
    ) -> Called
        ensures { Meets (master_write_read addr bytes.now read_len) words.now self result.report result.link log.old log.new }
    {
        let tried = self.write_read(addr, bytes, read_len, words, log);
        Called::of(self, tried)
    }

    // Receives bytes into the link's buffer.
    pub fn master_read(mut self, addr: u16, read_len: u8, words: &[u32], log: &mut [u32]) -> Called
        ensures { Meets (master_read addr read_len) words.now self result.report result.link log.old log.new }
    {
        let tried = self.read(addr, read_len, words, log);
        Called::of(self, tried)
    }

    #[tactic(auto, unfolding(nonblocking_meaning::specs::Outcome::outcome))]
    pub(crate) fn write(
        &mut self,
        addr: u16,
        bytes: &[u8],
        words: &[u32],
        log: &mut [u32],
    ) -> Result<Report, Refusal>
        ensures { Meets (master_write addr bytes.now) words.now self.old (report_of result) self.new log.old log.new }
    {
        self.write_start(addr, bytes, None, words, log)
    }

    #[tactic(auto, unfolding(nonblocking_meaning::specs::Outcome::outcome))]
    pub(crate) fn write_read(
        &mut self,
        addr: u16,
        bytes: &[u8],
        read_len: u8,
        words: &[u32],
        log: &mut [u32],
    ) -> Result<Report, Refusal>
        ensures { Meets (master_write_read addr bytes.now read_len) words.now self.old (report_of result) self.new log.old log.new }
    {
        self.write_start(addr, bytes, Some(usize::from(read_len)), words, log)
    }

    // The bytes, and then a read of so many, if one is to follow. Whether the bus is free is looked at first, then whether the length is good.
    // A call of its own would take more instructions, since its report would go through memory.
    #[inline(always)]
    fn write_start(
        &mut self,
        addr: u16,
        bytes: &[u8],
        then_read: Option<usize>,
        words: &[u32],
        log: &mut [u32],
    ) -> Result<Report, Refusal>
        ensures { Follows (write_start addr bytes.now (unwrap_or then_read 0) (is_none then_read) (word_at words.now 0) (word_at words.now 1)
            (model self.old)) words.now (model self.old) result (model self.new) log.old log.new }
    {
        self.possible()?;
        if Cr2::starting(word_at(words, 0)) {
            return one_read(Answer::Pending, Cr2::READ, words, log);
        }
        let n = bytes.len();
        if !Cr2::length_allowed(n) {
            return one_read(Answer::BadLength, Cr2::READ, words, log);
        }
        let report = write_opened(addr, n, then_read.is_none(), words, log)?;
        self.begin(addr, n, 0);
        self.length_write_read = then_read.unwrap_or(0);
        self.keep(bytes);
        Ok(report)
    }

    // The part of the buffer that is to be filled is cleared.
    #[tactic(auto, using(registers::proofs::HandedOn::over_front), unfolding(nonblocking_meaning::specs::Outcome::outcome))]
    pub(crate) fn read(
        &mut self,
        addr: u16,
        read_len: u8,
        words: &[u32],
        log: &mut [u32],
    ) -> Result<Report, Refusal>
        ensures { Meets (master_read addr read_len) words.now self.old (report_of result) self.new log.old log.new }
    {
        self.possible()?;
        if Cr2::starting(word_at(words, 0)) {
            return one_read(Answer::Pending, Cr2::READ, words, log);
        }
        let n = usize::from(read_len);
        let report = read_opened(addr, n, words, log)?;
        self.begin(addr, n, 0);
        self.data[..n].fill(0);
        Ok(report)
    }
}

// A write: CR2 is read again, and the start is formed from that word.
fn write_opened(
    addr: u16,
    nbytes: usize,
    autoend: bool,
    words: &[u32],
    log: &mut [u32],
) -> Result<Report, Refusal>
    ensures { Logs (says 0 []) (read CR2 (word_at words.now 0) ∷ write_accesses (word_at words.now 1) addr nbytes autoend) words.now log.old result log.new }
{
    let cr2 = word_at(words, 1);
    let entries = [
        Cr2::READ,
        word_at(words, 0),
        Cr2::READ,
        cr2,
        Cr2::WRITE,
        Cr2::started(cr2, Cr2::sadd16(addr), nbytes, false, autoend),
    ];
    log_call(Answer::Done, 2, &entries, words, log)
}

// A read: RXDR is read to flush it.
fn read_opened(addr: u16, nbytes: usize, words: &[u32], log: &mut [u32]) -> Result<Report, Refusal>
    ensures { Logs (says 0 []) (read CR2 (word_at words.now 0) ∷ read_accesses (word_at words.now 1) (word_at words.now 2) addr nbytes) words.now
        log.old result log.new }
{
    let cr2 = word_at(words, 2);
    let entries = [
        Cr2::READ,
        word_at(words, 0),
        Rxdr::READ,
        word_at(words, 1),
        Cr2::READ,
        cr2,
        Cr2::WRITE,
        Cr2::started(cr2, Cr2::sadd16(addr), nbytes, true, true),
    ];
    log_call(Answer::Done, 3, &entries, words, log)
}
