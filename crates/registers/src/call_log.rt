// A call's words, and the log of its accesses, two places an access: the register's number and the word.
// Every call takes its words and its log side by side, as two lent slices: in a struct that holds the `&mut` log each contract
// would have to say that it is still the caller's, and read its end through the struct's parts. So it is with the two slices of a blocking call.

ghost use Rattle.std.specs.Prelude.{◌≡◌, ◌≤◌, ◌↔◌, IsOk, IfOk, IfErr, is_ok, [], ◌∷◌, length, get_or};
ghost use Rattle.registers.specs.CallLog.{report_of_answer, report_of_refusal, Logged, Reported, tried, report_of};
ghost use Rattle.registers.specs.Answers.{said, says};

use crate::answers::{Answer, Refusal};

// What a call reports: its answer, how many words it took, and how many places of the log it filled.
#[derive(Clone, Copy, Debug, PartialEq, Eq)]
pub struct Report {
    pub answer: Answer,
    pub taken: usize,
    pub logged: usize,
}

impl Report {
    // An answer with no access: no word is taken and nothing is logged.
    pub fn without_access(answer: Answer) -> Report
        ensures { result ≡ report_of_answer answer }
    {
        Report {
            answer,
            taken: 0,
            logged: 0,
        }
    }

    // The report of a call that may be refused: a refusal takes no words and logs nothing.
    pub fn of(tried: Result<Report, Refusal>) -> Report
        ensures { result ≡ report_of tried }
    {
        tried.unwrap_or_else(Report::from)
    }
}

impl From<Refusal> for Report {
    ghost from_gives = { λ refusal report. report ≡ report_of_refusal refusal };

    fn from(refusal: Refusal) -> Report {
        Report::without_access(Answer::from(refusal))
    }
}

// The word at a place of the list, 0 where it has none.
pub fn word_at(words: &[u32], place: usize) -> u32
    ensures { result ≡ get_or words.now place 0 }
{
    words.get(place).copied().unwrap_or(0)
}

// Entries to the log, from its first place on; none where they do not all fit. One by one: as a copied slice two entries go through the stack, and a check
// that logs no more takes twice the time.
#[tactic(auto, using(crate::proofs::Over::over_suc))]
pub fn write_log(log: &mut [u32], entries: &[u32]) -> Result<(), Refusal>
    ensures logged { Logged entries.now log.old (is_ok result) log.new }
    ensures full { IfErr result (λ refusal. refusal ≡ Refusal.LogFull) }
{
    if log.len() < entries.len() {
        return Err(Refusal::LogFull);
    }
    for (place, entry) in entries.iter().enumerate() {
        log[place] = *entry;
    }
    Ok(())
}

// The accesses of a call that never waits, logged or refused whole: first 9 over all its reads, then 10 over all its accesses.
pub fn log_call(
    answer: Answer,
    reads: usize,
    entries: &[u32],
    words: &[u32],
    log: &mut [u32],
) -> Result<Report, Refusal>
    ensures report { Reported (tried (said answer) reads entries.now (length words.now) (length log.old)) log.old (report_of result) log.new }
    ensures accepted { IsOk result ↔ (reads ≤ length words.now) × (length entries.now ≤ length log.old) }
    ensures logged { IfOk result (λ report. report.logged ≡ length entries.now) }
{
    if words.len() < reads {
        return Err(Refusal::OutOfWords);
    }
    write_log(log, entries)?;
    Ok(Report {
        answer,
        taken: reads,
        logged: entries.len(),
    })
}

// A `modify`: a register was read, and is written; the two numbers are its in the log.
pub fn log_modify(
    read: u32,
    write: u32,
    word: u32,
    words: &[u32],
    log: &mut [u32],
) -> Result<Report, Refusal>
    ensures { Reported (tried (says 0 []) 1 (read ∷ get_or words.now 0 0 ∷ write ∷ word ∷ []) (length words.now) (length log.old)) log.old
        (report_of result) log.new }
{
    let entries = [read, word_at(words, 0), write, word];
    log_call(Answer::Done, 1, &entries, words, log)
}
