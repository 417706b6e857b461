// The master's calls, begun and run. Where a word or room in the log is missing the call parks, and `resume` goes on with it.

ghost use Rattle.std.specs.Prelude.{[]};
ghost use Rattle.blocking_meaning.specs.Run.{called, room, RunMatches};

use crate::run::begin;
use blocking_meaning::Ran;
use parked::kinds::Kind;

pub fn write(address: u8, bytes: &[u8], words: &[u32], log: &mut [u32]) -> Ran
    ensures { RunMatches (called Kind.Write address bytes.now (room log.old) [] words.now) log.old result log.new [] }
{
    begin(Kind::Write, address, bytes, &mut [], words, log)
}

pub fn read(address: u8, buffer: &mut [u8], words: &[u32], log: &mut [u32]) -> Ran
    ensures { RunMatches (called Kind.Read address [] (room log.old) buffer.old words.now) log.old result log.new buffer.new }
{
    begin(Kind::Read, address, &[], buffer, words, log)
}

pub fn write_read(
    address: u8,
    bytes: &[u8],
    buffer: &mut [u8],
    words: &[u32],
    log: &mut [u32],
) -> Ran
    ensures { RunMatches (called Kind.WriteRead address bytes.now (room log.old) buffer.old words.now) log.old result log.new buffer.new }
{
    begin(Kind::WriteRead, address, bytes, buffer, words, log)
}
