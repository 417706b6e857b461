// The calls on a lent link. `execute_watchdog` and `get_errors_reset` hand on to the method of their name, as document 01 has it; the others hand on
// to the core, to which the call by value hands on too, so that no link is copied where bytes move.

ghost use Rattle.std.specs.Prelude.{ℕ, List};
ghost use Rattle.nonblocking.specs.Meets.{Meets};
ghost use Rattle.nonblocking_meaning.specs.Call.{check_isr_flags, master_write, master_write_read, master_read, slave_write, execute_watchdog, get_errors_reset};

use crate::link::Link;
use registers::call_log::Report;

// `check_isr_flags` on a lent link.
pub fn check_isr_flags(link: &mut Link, words: &[u32], log: &mut [u32]) -> Report
    ensures { Meets check_isr_flags words.now link.old result link.new log.old log.new }
{
    Report::of(link.check(words, log))
}

// `master_write` on a lent link.
pub fn master_write(
    link: &mut Link,
    addr: u16,
    bytes: &[u8],
    words: &[u32],
    log: &mut [u32],
) -> Report
    ensures { Meets (master_write addr bytes.now) words.now link.old result link.new log.old log.new }
{
    Report::of(link.write(addr, bytes, words, log))
}

// `master_write_read` on a lent link.
pub fn master_write_read(
    link: &mut Link,
    addr: u16,
    bytes: &[u8],
    read_len: u8,
    words: &[u32],
    log: &mut [u32],
) -> Report
    ensures { Meets (master_write_read addr bytes.now read_len) words.now link.old result link.new log.old log.new }
{
    Report::of(link.write_read(addr, bytes, read_len, words, log))
}

// `master_read` on a lent link.
pub fn master_read(
    link: &mut Link,
    addr: u16,
    read_len: u8,
    words: &[u32],
    log: &mut [u32],
) -> Report
    ensures { Meets (master_read addr read_len) words.now link.old result link.new log.old log.new }
{
    Report::of(link.read(addr, read_len, words, log))
}

// `slave_write` on a lent link.
pub fn slave_write(link: &mut Link, bytes: &[u8], words: &[u32], log: &mut [u32]) -> Report
    ensures { Meets (slave_write bytes.now) words.now link.old result link.new log.old log.new }
{
    Report::of(link.offer(bytes, words, log))
}

// `execute_watchdog` on a lent link.
pub fn execute_watchdog(link: &mut Link, words: &[u32], log: &mut [u32]) -> Report
    ensures { Meets execute_watchdog words.now link.old result link.new log.old log.new }
{
    let called = link.execute_watchdog(words, log);
    *link = called.link;
    called.report
}

// `get_errors_reset` on a lent link.
pub fn get_errors_reset(link: &mut Link) -> Report
    ensures { (words log : List ℕ) → Meets get_errors_reset words link.old result link.new log log }
{
    let called = link.get_errors_reset();
    *link = called.link;
    called.report
}
