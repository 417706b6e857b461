// A parked call as seven numbers, which a caller keeps until it resumes the call.

ghost use Rattle.std.specs.Prelude.{◌≡◌};
ghost use Rattle.c_numbers.specs.ParkedCall.{phase_number, opening_number, end_number, phase_word, stored, LoadsStored, phase_of, loaded, refused, Leaves};
ghost use Rattle.c_numbers.specs.CutNumbers.{CutNumbers};
ghost use Rattle.registers.specs.Answers.{said};

use crate::answer::store_report;
use blocking_meaning::Ran;
use parked::Parked;
use parked::kinds::Kind;
use parked::phases::{End, Opening, Phase};
use registers::answers::Answer;

// A call that is stored and loaded is the same call.
#[tactic(auto, using(crate::proofs::Back::loads_stored))]
pub fn loads_stored()
    ensures { LoadsStored }
{}

// However the words are cut, the runs of a caller that keeps seven numbers and one count are, joined, one uncut run.
#[tactic(auto, using(crate::proofs::CutsInNumbers::cut_numbers))]
pub fn cut_numbers()
    ensures { CutNumbers }
{}

// The numbers go straight to the array that C lends.
fn store(call: Parked, numbers: &mut [u64; 7])
    ensures { numbers.new ≡ stored call }
{
    *numbers = [
        call.kind as u64,
        call.address as u64,
        call.send as u64,
        call.receive as u64,
        number_of(call.phase),
        word_of(call.phase) as u64,
        call.count as u64,
    ];
}

// The call of seven numbers. Every number is taken. `Parked` is of a crate below, so that no `From` can stand here.
pub fn load(numbers: &[u64; 7]) -> Parked
    ensures { result ≡ loaded numbers.now }
{
    let [kind, address, send, receive, phase, word, count] = *numbers;
    Parked {
        kind: Kind::from(kind),
        address: (address % 256) as u8,
        send: send as usize,
        receive: receive as usize,
        phase: phase_of(phase, (word % 4294967296) as u32),
        count: count as usize,
    }
}

// What a run returned: the parked call and the answer. A call that is refused leaves the numbers, so that a begin refused for its length loses no
// parked call. Inlined, since what a run returns would else go through memory once more.
#[inline(always)]
pub fn store_run(ran: Ran, numbers: &mut [u64; 7], out: &mut [u64; 6])
    ensures { Leaves ran numbers.old numbers.new out.new }
{
    store_report(ran.report, out);
    if !refused(ran.report.answer) {
        store(ran.parked, numbers);
    }
}

fn refused(answer: Answer) -> bool
    ensures { result ≡ refused (said answer) }
{
    matches!(answer, Answer::BadLength | Answer::WrongCall)
}

// A phase's number. C keeps these numbers; no cast gives them, since some phases hold a word.
fn number_of(phase: Phase) -> u64
    ensures { result ≡ phase_number phase }
{
    match phase {
        Phase::Open(opening) => opening_number(opening),
        Phase::Wait => 8,
        Phase::Transfer => 9,
        Phase::Restart => 10,
        Phase::TcrFound => 11,
        Phase::NackNextByte(_) => 12,
        Phase::ClearBerr => 13,
        Phase::ClearArlo => 14,
        Phase::ClearNackf => 15,
        Phase::ClearStopf => 16,
        Phase::FlushTxis => 17,
        Phase::FlushDummy => 18,
        Phase::FlushTxe => 19,
        Phase::FlushEmpty => 20,
        Phase::Listen => 21,
        Phase::Code => 22,
        Phase::Ended(end) => end_number(end),
    }
}

fn opening_number(opening: Opening) -> u64
    ensures { result ≡ opening_number opening }
{
    match opening {
        Opening::Start => 0,
        Opening::Drain => 1,
        Opening::Modify => 2,
        Opening::Setup(_) => 3,
        Opening::Flush => 4,
        Opening::Release => 5,
        Opening::Probe => 6,
        Opening::Drop => 7,
    }
}

fn end_number(end: End) -> u64
    ensures { result ≡ end_number end }
{
    match end {
        End::OutOfWords => 23,
        End::LogFull => 24,
        End::BadLength => 25,
        End::Berr => 26,
        End::Arlo => 27,
        End::Addr => 28,
        End::Stopf => 29,
        End::Addressed(_) => 30,
    }
}

// The word that a phase remembers, 0 where it has none.
fn word_of(phase: Phase) -> u32
    ensures { result ≡ phase_word phase }
{
    match phase {
        Phase::Open(Opening::Setup(word))
        | Phase::NackNextByte(word)
        | Phase::Ended(End::Addressed(word)) => word,
        _ => 0,
    }
}

// The phase of a number, and the word that it remembers. No derive makes a case from a number.
fn phase_of(number: u64, word: u32) -> Phase
    ensures { result ≡ phase_of number word }
{
    match number {
        0 => Phase::Open(Opening::Start),
        1 => Phase::Open(Opening::Drain),
        2 => Phase::Open(Opening::Modify),
        3 => Phase::Open(Opening::Setup(word)),
        4 => Phase::Open(Opening::Flush),
        5 => Phase::Open(Opening::Release),
        6 => Phase::Open(Opening::Probe),
        7 => Phase::Open(Opening::Drop),
        8 => Phase::Wait,
        9 => Phase::Transfer,
        10 => Phase::Restart,
        11 => Phase::TcrFound,
        12 => Phase::NackNextByte(word),
        13 => Phase::ClearBerr,
        14 => Phase::ClearArlo,
        15 => Phase::ClearNackf,
        16 => Phase::ClearStopf,
        17 => Phase::FlushTxis,
        18 => Phase::FlushDummy,
        19 => Phase::FlushTxe,
        20 => Phase::FlushEmpty,
        21 => Phase::Listen,
        22 => Phase::Code,
        23 => Phase::Ended(End::OutOfWords),
        24 => Phase::Ended(End::LogFull),
        25 => Phase::Ended(End::BadLength),
        26 => Phase::Ended(End::Berr),
        27 => Phase::Ended(End::Arlo),
        28 => Phase::Ended(End::Addr),
        29 => Phase::Ended(End::Stopf),
        _ => Phase::Ended(End::Addressed(word)),
    }
}
