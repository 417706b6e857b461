// The transfer loop: a call that is not wrong, until it has ended, or the words or the log end.

ghost use Rattle.std.specs.Prelude.{ℕ, ◌≡◌, ◌≤◌, true, false, cond, List, length, set};
ghost use Rattle.registers.specs.Words.{received};
ghost use Rattle.parked.specs.declared.phases.Phase.TheVariants.{Wait, Transfer};
ghost use Rattle.parked.specs.NextAccess.{more};
ghost use Rattle.parked.specs.After.{after};
ghost use Rattle.blocking_meaning.specs.Run.{runs, room, RunMatches};
ghost use Rattle.blocking.specs.Steps.{Answered, Due, FlagFound, Flagged, Movable, Onward, Step, Within};

use crate::progress::{Progress, store};
use crate::run::next;
use blocking_meaning::Ran;
use parked::Parked;
use parked::next_access::{Next, byte_at};
use parked::phases::{End, Phase};
use registers::call_log::Report;
use registers::data_registers::{Rxdr, Txdr};
use registers::field::Field;
use registers::isr::Isr;

// Inlined, and so are its steps: else the parked call of a host that resumes for each word goes through memory into the loop, out of it and at each
// access.
#[inline(always)]
pub(crate) fn transfer(
    call: Parked,
    send: &[u8],
    receive: &mut [u8],
    words: &[u32],
    log: &mut [u32],
) -> Ran
    ensures { RunMatches (runs send.now (room log.old) call receive.old words.now) log.old result log.new receive.new }
{
    let mut p = Progress {
        parked: call,
        taken: 0,
        logged: 0,
    };
    // A round of the labelled loop moves one byte.
    'transfer: loop {
        // `busy_wait`, until the flag of a byte is found. Whatever else comes is followed one access at a time: the opening, the second START, a byte
        // refused at TCR, the flush at STOPF. STOPF, ADDR, BERR and ARLO end the whole call and break the label; so does a missing word or room, where
        // the call parks.
        while !flag_found(p, words, log) {
            match step(p, send, receive, words, log) {
                Ok(on) => p = on,
                Err(end) => break 'transfer answered(p, end),
            }
        }
        // The byte, with the wait's read where that is not made yet.
        if p.parked.phase == Phase::Transfer {
            match byte(p, send, receive, words, log) {
                Ok(on) => p = on,
                Err(missing) => break 'transfer answered(p, missing),
            }
        } else {
            // One is left, as `due` tested.
            p = moved(flag_read(p, words, log), true, send, receive, words, log);
        }
    }
}

// Whether the flag of a byte is found: by the last word of ISR, or in the next one, which is then read with the byte, where the byte can follow at once.
fn flag_found(p: Progress, words: &[u32], log: &[u32]) -> bool
    requires { Within p words.now log.now }
    ensures found { result ≡ true → FlagFound p words.now log.now }
    ensures other { result ≡ false → p.parked.phase ≡ Transfer → ⊥ }
{
    due(p, words, log) || p.parked.phase == Phase::Transfer
}

// Whether a wait finds the flag of a byte in the next word, and both accesses, the wait's and the byte's, have their words and room.
fn due(p: Progress, words: &[u32], log: &[u32]) -> bool
    requires { Within p words.now log.now }
    ensures { result ≡ true → Due p words.now log.now }
{
    p.parked.phase == Phase::Wait
        && 4 <= log.len() - p.logged
        && if p.parked.kind.incoming() {
            p.flagged(Isr::RXNE, 2, words)
        } else {
            p.flagged(Isr::TXIS, 1, words)
        }
}

impl Progress {
    // Whether a byte is left, and so many words, the first of them with this flag.
    fn flagged(self, flag: Field, needed: usize, words: &[u32]) -> bool
        requires within { self.taken ≤ length words.now }
        requires some { 1 ≤ needed }
        ensures { result ≡ true → Flagged self flag needed words.now }
    {
        self.parked.more() && needed <= words.len() - self.taken && flag.is_set(words[self.taken])
    }
}

// The byte's access by itself, where it has a word and room.
fn byte(
    p: Progress,
    send: &[u8],
    receive: &mut [u8],
    words: &[u32],
    log: &mut [u32],
) -> Result<Progress, End>
    requires within { Within p words.now log.old }
    requires found { p.parked.phase ≡ Transfer }
    ensures { Step send.now words.now p log.old receive.old result log.new receive.new }
{
    if p.parked.kind.incoming() && words.len() == p.taken {
        return Err(End::OutOfWords);
    }
    if log.len() - p.logged < 2 {
        return Err(End::LogFull);
    }
    Ok(moved(p, p.parked.more(), send, receive, words, log))
}

// The wait's read, which finds the flag.
fn flag_read(p: Progress, words: &[u32], log: &mut [u32]) -> Progress
    requires { Due p words.now log.old }
    ensures carries { (s b : List ℕ) → Onward s words.now p log.old b result log.new b }
    ensures movable { Movable result words.now log.new }
    ensures left { more result.parked ≡ true }
{
    store(log, p.logged, Isr::READ, words[p.taken]);
    Progress {
        parked: Parked {
            phase: Phase::Transfer,
            ..p.parked
        },
        taken: p.taken + 1,
        logged: p.logged + 2,
    }
}

// The byte's access: it goes out, or comes in. `left` says whether the call has one, or a place for it, so that the test is not made twice.
fn moved(
    p: Progress,
    left: bool,
    send: &[u8],
    receive: &mut [u8],
    words: &[u32],
    log: &mut [u32],
) -> Progress
    requires movable { Movable p words.now log.old }
    requires left { left ≡ more p.parked }
    ensures { Onward send.now words.now p log.old receive.old result log.new receive.new }
{
    let call = p.parked;
    let parked = counted(call, left);
    let logged = p.logged + 2;
    if call.kind.incoming() {
        let rxdr = words[p.taken];
        store(log, p.logged, Rxdr::READ, rxdr);
        keep_byte(left, call.count, rxdr, receive);
        Progress {
            parked,
            taken: p.taken + 1,
            logged,
        }
    } else {
        let byte = Txdr::sent(byte_at(send, call.count));
        store(log, p.logged, Txdr::WRITE, byte);
        Progress {
            parked,
            taken: p.taken,
            logged,
        }
    }
}

// The call after its byte, which is counted while one is left; it waits for the next.
fn counted(call: Parked, left: bool) -> Parked
    requires { left ≡ more call }
    ensures { (w : ℕ) → call.phase ≡ Transfer → after call w ≡ result }
{
    if left {
        Parked {
            phase: Phase::Wait,
            count: call.count + 1,
            ..call
        }
    } else {
        Parked {
            phase: Phase::Wait,
            ..call
        }
    }
}

// One access before the byte: the wait's, or whatever else the call wants.
#[inline(always)]
fn step(
    p: Progress,
    send: &[u8],
    receive: &mut [u8],
    words: &[u32],
    log: &mut [u32],
) -> Result<Progress, End>
    requires within { Within p words.now log.old }
    requires other { p.parked.phase ≡ Transfer → ⊥ }
    ensures { Step send.now words.now p log.old receive.old result log.new receive.new }
{
    match p.parked.phase {
        Phase::Wait => wait(p, words, log),
        _ => advance(p, send, receive, words, log),
    }
}

// A wait looks at the next word of ISR.
fn wait(p: Progress, words: &[u32], log: &mut [u32]) -> Result<Progress, End>
    requires within { Within p words.now log.old }
    requires waits { p.parked.phase ≡ Wait }
    ensures { (s b : List ℕ) → Step s words.now p log.old b result log.new b }
{
    let (isr, on) = p.read(Isr::READ, words, log)?;
    Ok(Progress {
        parked: Parked {
            phase: p.parked.busy_wait(isr),
            ..p.parked
        },
        ..on
    })
}

// One access, whichever the call wants by the definition; or why none is made.
#[inline(always)]
fn advance(
    p: Progress,
    send: &[u8],
    receive: &mut [u8],
    words: &[u32],
    log: &mut [u32],
) -> Result<Progress, End>
    requires { Within p words.now log.old }
    ensures { Step send.now words.now p log.old receive.old result log.new receive.new }
{
    let call = p.parked;
    let (word, on) = match next(call, send)? {
        Next::Read { number, keep } => {
            let (word, on) = p.read(number, words, log)?;
            keep_byte(keep, call.count, word, receive);
            (word, on)
        }
        Next::Write { number, word } => (0, p.enter(number, word, log)?),
    };
    Ok(Progress {
        parked: call.after(word),
        ..on
    })
}

// A byte that came in goes to its place. `keep` comes with the place, since the two kinds of read are one case of every law over a run. The place
// is compared and then indexed: of what a slice's `get_mut` lends, a proof knows the length alone.
fn keep_byte(keep: bool, place: usize, word: u32, receive: &mut [u8])
    ensures { receive.new ≡ cond keep (set receive.old place (received word)) receive.old }
{
    if keep && place < receive.len() {
        receive[place] = Rxdr::received(word);
    }
}

// What a run returns where no access follows.
#[inline(always)]
fn answered(p: Progress, end: End) -> Ran
    ensures { Answered p end result }
{
    Ran {
        parked: p.parked,
        report: Report {
            answer: p.parked.answer(end),
            taken: p.taken,
            logged: p.logged,
        },
    }
}
