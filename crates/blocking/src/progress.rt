// How far a run is, and the accesses that carry it on: one that reads, and one that writes.

ghost use Rattle.std.specs.Prelude.{◌+◌, ◌≡◌, ◌≤◌, [], ◌∷◌, length};
ghost use Rattle.blocking.specs.Steps.{Entered, WordRead, over_from};

use parked::Parked;
use parked::phases::End;

// Its call, how many words it took, and how many places of the log it filled.
#[derive(Clone, Copy)]
pub(crate) struct Progress {
    pub parked: Parked,
    pub taken: usize,
    pub logged: usize,
}

impl Progress {
    // The two numbers of an access go to the first free places of the log.
    pub(crate) fn enter(self, number: u32, word: u32, log: &mut [u32]) -> Result<Progress, End>
        requires { self.logged ≤ length log.old }
        ensures { Entered self number word log.old result log.new }
    {
        if log.len() - self.logged < 2 {
            return Err(End::LogFull);
        }
        store(log, self.logged, number, word);
        Ok(Progress {
            logged: self.logged + 2,
            ..self
        })
    }

    // A read takes the next word. 9 goes before 10.
    pub(crate) fn read(
        self,
        number: u32,
        words: &[u32],
        log: &mut [u32],
    ) -> Result<(u32, Progress), End>
        requires { self.logged ≤ length log.old }
        ensures { WordRead self number words.now log.old result log.new }
    {
        let Some(&word) = words.get(self.taken) else {
            return Err(End::OutOfWords);
        };
        let on = self.enter(number, word, log)?;
        Ok((
            word,
            Progress {
                taken: self.taken + 1,
                ..on
            },
        ))
    }
}

// Two numbers, from a place of the log on.
pub(crate) fn store(log: &mut [u32], place: usize, number: u32, word: u32)
    requires { place + 2 ≤ length log.old }
    ensures { log.new ≡ over_from place (number ∷ word ∷ []) log.old }
{
    log[place] = number;
    log[place + 1] = word;
}
