// The slave's calls. Those that wait are begun and run, and park; those that never wait stand in `immediate`.

ghost use Rattle.std.specs.Prelude.{[]};
ghost use Rattle.blocking_meaning.specs.Run.{called, room, RunMatches};

use crate::run::begin;
use blocking_meaning::Ran;
use parked::kinds::Kind;

pub fn slave_write(bytes: &[u8], words: &[u32], log: &mut [u32]) -> Ran
    ensures { RunMatches (called Kind.SlaveWrite 0 bytes.now (room log.old) [] words.now) log.old result log.new [] }
{
    begin(Kind::SlaveWrite, 0, bytes, &mut [], words, log)
}

pub fn slave_read(buffer: &mut [u8], words: &[u32], log: &mut [u32]) -> Ran
    ensures { RunMatches (called Kind.SlaveRead 0 [] (room log.old) buffer.old words.now) log.old result log.new buffer.new }
{
    begin(Kind::SlaveRead, 0, &[], buffer, words, log)
}

pub fn slave_wait_addressed(words: &[u32], log: &mut [u32]) -> Ran
    ensures { RunMatches (called Kind.SlaveWaitAddressed 0 [] (room log.old) [] words.now) log.old result log.new [] }
{
    begin(Kind::SlaveWaitAddressed, 0, &[], &mut [], words, log)
}
