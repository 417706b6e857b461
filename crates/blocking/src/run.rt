// Running a call: it is begun or resumed, and runs until it has ended or parks.

ghost use Rattle.std.specs.Prelude.{◌≡◌};
ghost use Rattle.registers.specs.CallLog.{report_of_refusal};
ghost use Rattle.blocking_meaning.specs.Run.{next, run_outcome, called, resumed, room, RunMatches};

use crate::transfer::transfer;
use blocking_meaning::Ran;
use parked::Parked;
use parked::kinds::Kind;
use parked::next_access::{Next, byte_at};
use parked::phases::{End, Phase};
use registers::answers::Refusal;
use registers::call_log::Report;

// Begins a call and runs it. A slice of 0 or over 255 bytes, or one that the kind does not have, is answered (6) before any access, and
// ends the call.
pub(crate) fn begin(
    kind: Kind,
    address: u8,
    send: &[u8],
    receive: &mut [u8],
    words: &[u32],
    log: &mut [u32],
) -> Ran
    ensures { RunMatches (called kind address send.now (room log.old) receive.old words.now) log.old result log.new receive.new }
{
    let begun = Parked {
        kind,
        address,
        send: send.len(),
        receive: receive.len(),
        phase: kind.opening(),
        count: 0,
    };
    if !kind.lengths(send.len(), receive.len()) {
        let ended = Parked {
            phase: Phase::Ended(End::BadLength),
            ..begun
        };
        return ends_at_once(ended, Refusal::BadLength);
    }
    transfer(begun, send, receive, words, log)
}

// Runs a parked call over the words, until it has ended or parks. 11 is answered before any access.
fn run(call: Parked, send: &[u8], receive: &mut [u8], words: &[u32], log: &mut [u32]) -> Ran
    ensures { RunMatches (run_outcome send.now (room log.old) call receive.old words.now) log.old result log.new receive.new }
{
    if call.wrong(send.len(), receive.len()) {
        return ends_at_once(call, Refusal::WrongCall);
    }
    transfer(call, send, receive, words, log)
}

// Resumes a parked call over a list of which so many words were taken before: it goes on with the rest, from the first one not taken. What it
// reports as taken counts from the first word of the list, so that it can be handed on as it is; more taken than there are words leaves no rest.
pub fn resume(
    call: Parked,
    taken: usize,
    send: &[u8],
    receive: &mut [u8],
    words: &[u32],
    log: &mut [u32],
) -> Ran
    ensures { RunMatches (resumed send.now (room log.old) call taken receive.old words.now) log.old result log.new receive.new }
{
    let first = taken.min(words.len());
    let ran = run(call, send, receive, &words[first..], log);
    Ran {
        report: Report {
            taken: taken + ran.report.taken,
            ..ran.report
        },
        ..ran
    }
}

// The access that a parked call wants next, or why none follows: what a host has to load or to store before it resumes the call. Inlined, as what a
// run asks for an access is.
#[inline(always)]
pub fn next(call: Parked, send: &[u8]) -> Result<Next, End>
    ensures { result ≡ next send.now call }
{
    call.next_access(byte_at(send, call.count))
}

// A call that makes no access.
fn ends_at_once(call: Parked, refusal: Refusal) -> Ran
    ensures { result ≡ record { parked = call; report = report_of_refusal refusal } }
{
    Ran {
        parked: call,
        report: Report::from(refusal),
    }
}
