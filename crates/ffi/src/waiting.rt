// The calls of the blocking driver that wait. A call that parks is kept by the caller as seven numbers, and `i2c_blocking_resume` goes on with it.

ghost use Rattle.std.specs.Prelude.{◌≡◌, []};
ghost use Rattle.blocking_meaning.specs.Run.{called, resumed, room, next, RunMatches};
ghost use Rattle.c_numbers.specs.Next.{next_numbers};
ghost use Rattle.c_numbers.specs.ParkedCall.{loaded, Leaves, StoredRun};
ghost use Rattle.parked.specs.declared.kinds.Kind.TheVariants.{Write, Read, WriteRead, SlaveWrite, SlaveRead, SlaveWaitAddressed};

use blocking::{master, run, slave};
use blocking_meaning::Ran;
use c_numbers::next::store_next;
use c_numbers::parked_call::{load, store_run};

// One copy of the code for all begins. A resume, which a host makes for each word, has its own.
fn store_begun(ran: Ran, parked: &mut [u64; 7], out: &mut [u64; 6])
    ensures { Leaves ran parked.old parked.new out.new }
{
    store_run(ran, parked, out);
}

#[unsafe(no_mangle)]
pub extern "C" fn i2c_blocking_write(
    parked: &mut [u64; 7],
    address: u8,
    bytes: &[u8],
    words: &[u32],
    log: &mut [u32],
    out: &mut [u64; 6],
)
    ensures { StoredRun (λ r. RunMatches (called Write address bytes.now (room log.old) [] words.now) log.old r log.new []) parked.old parked.new out.new }
{
    store_begun(master::write(address, bytes, words, log), parked, out);
}

#[unsafe(no_mangle)]
pub extern "C" fn i2c_blocking_read(
    parked: &mut [u64; 7],
    address: u8,
    buffer: &mut [u8],
    words: &[u32],
    log: &mut [u32],
    out: &mut [u64; 6],
)
    ensures { StoredRun (λ r. RunMatches (called Read address [] (room log.old) buffer.old words.now) log.old r log.new buffer.new) parked.old parked.new out.new }
{
    store_begun(master::read(address, buffer, words, log), parked, out);
}

#[unsafe(no_mangle)]
pub extern "C" fn i2c_blocking_write_read(
    parked: &mut [u64; 7],
    address: u8,
    bytes: &[u8],
    buffer: &mut [u8],
    words: &[u32],
    log: &mut [u32],
    out: &mut [u64; 6],
)
    ensures { StoredRun (λ r. RunMatches (called WriteRead address bytes.now (room log.old) buffer.old words.now) log.old r log.new buffer.new)
        parked.old parked.new out.new }
{
    store_begun(
        master::write_read(address, bytes, buffer, words, log),
        parked,
        out,
    );
}

#[unsafe(no_mangle)]
pub extern "C" fn i2c_blocking_slave_write(
    parked: &mut [u64; 7],
    bytes: &[u8],
    words: &[u32],
    log: &mut [u32],
    out: &mut [u64; 6],
)
    ensures { StoredRun (λ r. RunMatches (called SlaveWrite 0 bytes.now (room log.old) [] words.now) log.old r log.new []) parked.old parked.new out.new }
{
    store_begun(slave::slave_write(bytes, words, log), parked, out);
}

#[unsafe(no_mangle)]
pub extern "C" fn i2c_blocking_slave_read(
    parked: &mut [u64; 7],
    buffer: &mut [u8],
    words: &[u32],
    log: &mut [u32],
    out: &mut [u64; 6],
)
    ensures { StoredRun (λ r. RunMatches (called SlaveRead 0 [] (room log.old) buffer.old words.now) log.old r log.new buffer.new) parked.old parked.new out.new }
{
    store_begun(slave::slave_read(buffer, words, log), parked, out);
}

#[unsafe(no_mangle)]
pub extern "C" fn i2c_blocking_slave_wait_addressed(
    parked: &mut [u64; 7],
    words: &[u32],
    log: &mut [u32],
    out: &mut [u64; 6],
)
    ensures { StoredRun (λ r. RunMatches (called SlaveWaitAddressed 0 [] (room log.old) [] words.now) log.old r log.new []) parked.old parked.new out.new }
{
    store_begun(slave::slave_wait_addressed(words, log), parked, out);
}

// Goes on with a parked call over a list of which so many words were taken before.
#[unsafe(no_mangle)]
pub extern "C" fn i2c_blocking_resume(
    parked: &mut [u64; 7],
    taken: usize,
    send: &[u8],
    receive: &mut [u8],
    words: &[u32],
    log: &mut [u32],
    out: &mut [u64; 6],
)
    ensures { StoredRun (λ r. RunMatches (resumed send.now (room log.old) (loaded parked.old) taken receive.old words.now) log.old r log.new
        receive.new) parked.old parked.new out.new }
{
    let ran = run::resume(load(parked), taken, send, receive, words, log);
    store_run(ran, parked, out);
}

// The access that a parked call wants next.
#[unsafe(no_mangle)]
pub extern "C" fn i2c_blocking_next(parked: &[u64; 7], bytes: &[u8], access: &mut [u64; 3])
    ensures { access.new ≡ next_numbers (next bytes.now (loaded parked.now)) }
{
    store_next(run::next(load(parked), bytes), access);
}
