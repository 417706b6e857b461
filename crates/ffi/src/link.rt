// The calls that change a link, on a link in the caller's memory.

ghost use Rattle.std.specs.Prelude.{ℕ, List};
ghost use Rattle.nonblocking.specs.Meets.{Meets};
ghost use Rattle.nonblocking_meaning.specs.Call.{check_isr_flags, master_write, master_write_read, master_read, slave_write, execute_watchdog, get_errors_reset};
ghost use Rattle.c_numbers.specs.Answer.{Out};

use c_numbers::answer::store_report;
use nonblocking::link::Link;

#[unsafe(no_mangle)]
pub extern "C" fn i2c_check_isr_flags(
    link: &mut Link,
    words: &[u32],
    log: &mut [u32],
    out: &mut [u64; 6],
)
    ensures { Out (λ r. Meets check_isr_flags words.now link.old r link.new log.old log.new) out.new }
{
    store_report(nonblocking::lent::check_isr_flags(link, words, log), out);
}

#[unsafe(no_mangle)]
pub extern "C" fn i2c_master_write(
    link: &mut Link,
    addr: u16,
    bytes: &[u8],
    words: &[u32],
    log: &mut [u32],
    out: &mut [u64; 6],
)
    ensures { Out (λ r. Meets (master_write addr bytes.now) words.now link.old r link.new log.old log.new) out.new }
{
    store_report(
        nonblocking::lent::master_write(link, addr, bytes, words, log),
        out,
    );
}

#[unsafe(no_mangle)]
pub extern "C" fn i2c_master_write_read(
    link: &mut Link,
    addr: u16,
    bytes: &[u8],
    read_len: u8,
    words: &[u32],
    log: &mut [u32],
    out: &mut [u64; 6],
)
    ensures { Out (λ r. Meets (master_write_read addr bytes.now read_len) words.now link.old r link.new log.old log.new) out.new }
{
    store_report(
        nonblocking::lent::master_write_read(link, addr, bytes, read_len, words, log),
        out,
    );
}

#[unsafe(no_mangle)]
pub extern "C" fn i2c_master_read(
    link: &mut Link,
    addr: u16,
    read_len: u8,
    words: &[u32],
    log: &mut [u32],
    out: &mut [u64; 6],
)
    ensures { Out (λ r. Meets (master_read addr read_len) words.now link.old r link.new log.old log.new) out.new }
{
    store_report(
        nonblocking::lent::master_read(link, addr, read_len, words, log),
        out,
    );
}

#[unsafe(no_mangle)]
pub extern "C" fn i2c_slave_write(
    link: &mut Link,
    bytes: &[u8],
    words: &[u32],
    log: &mut [u32],
    out: &mut [u64; 6],
)
    ensures { Out (λ r. Meets (slave_write bytes.now) words.now link.old r link.new log.old log.new) out.new }
{
    store_report(nonblocking::lent::slave_write(link, bytes, words, log), out);
}

#[unsafe(no_mangle)]
pub extern "C" fn i2c_execute_watchdog(
    link: &mut Link,
    words: &[u32],
    log: &mut [u32],
    out: &mut [u64; 6],
)
    ensures { Out (λ r. Meets execute_watchdog words.now link.old r link.new log.old log.new) out.new }
{
    store_report(nonblocking::lent::execute_watchdog(link, words, log), out);
}

// No word is taken, and nothing is logged.
#[unsafe(no_mangle)]
pub extern "C" fn i2c_get_errors_reset(link: &mut Link, out: &mut [u64; 6])
    ensures { Out (λ r. (words log : List ℕ) → Meets get_errors_reset words link.old r link.new log log) out.new }
{
    store_report(nonblocking::lent::get_errors_reset(link), out);
}
