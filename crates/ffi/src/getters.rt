// The calls that leave the link as it is, on a link in the caller's memory.

ghost use Rattle.std.specs.Prelude.{ℕ, List};
ghost use Rattle.nonblocking.specs.Meets.{Meets};
ghost use Rattle.nonblocking_meaning.specs.Call.{master_get_data, slave_get_data, get_address, listen, unlisten, slave_sbc, set_address};
ghost use Rattle.c_numbers.specs.Answer.{Out};

use c_numbers::answer::store_report;
use nonblocking::link::Link;

#[unsafe(no_mangle)]
pub extern "C" fn i2c_master_get_data(link: &Link, out: &mut [u64; 6])
    ensures { Out (λ r. (words log : List ℕ) → Meets master_get_data words link.now r link.now log log) out.new }
{
    store_report(link.master_get_data().report, out);
}

#[unsafe(no_mangle)]
pub extern "C" fn i2c_slave_get_data(link: &Link, out: &mut [u64; 6])
    ensures { Out (λ r. (words log : List ℕ) → Meets slave_get_data words link.now r link.now log log) out.new }
{
    store_report(link.slave_get_data().report, out);
}

#[unsafe(no_mangle)]
pub extern "C" fn i2c_get_address(link: &Link, out: &mut [u64; 6])
    ensures { Out (λ r. (words log : List ℕ) → Meets get_address words link.now r link.now log log) out.new }
{
    store_report(link.get_address().report, out);
}

#[unsafe(no_mangle)]
pub extern "C" fn i2c_listen(link: &Link, words: &[u32], log: &mut [u32], out: &mut [u64; 6])
    ensures { Out (λ r. Meets listen words.now link.now r link.now log.old log.new) out.new }
{
    store_report(link.listen(words, log).report, out);
}

#[unsafe(no_mangle)]
pub extern "C" fn i2c_unlisten(link: &Link, words: &[u32], log: &mut [u32], out: &mut [u64; 6])
    ensures { Out (λ r. Meets unlisten words.now link.now r link.now log.old log.new) out.new }
{
    store_report(link.unlisten(words, log).report, out);
}

#[unsafe(no_mangle)]
pub extern "C" fn i2c_slave_sbc(
    link: &Link,
    on: bool,
    words: &[u32],
    log: &mut [u32],
    out: &mut [u64; 6],
)
    ensures { Out (λ r. Meets (slave_sbc on) words.now link.now r link.now log.old log.new) out.new }
{
    store_report(link.slave_sbc(on, words, log).report, out);
}

#[unsafe(no_mangle)]
pub extern "C" fn i2c_set_address(
    link: &Link,
    address: u16,
    words: &[u32],
    log: &mut [u32],
    out: &mut [u64; 6],
)
    ensures { Out (λ r. Meets (set_address address) words.now link.now r link.now log.old log.new) out.new }
{
    store_report(link.set_address(address, words, log).report, out);
}
