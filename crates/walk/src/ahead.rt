// The words that are read ahead.

use arrayvec::ArrayVec;
use script::text::lines::Lines;
use script::text::numbers::hex;
use std::io::Read;

// What comes after the words that were read.
#[derive(Clone, Copy, Debug, PartialEq, Eq)]
enum Next {
    Words,
    AnotherLine,
    End,
}

// At most three words, since a call takes no more.
#[derive(Drop)]
pub(crate) struct Ahead {
    words: ArrayVec<u32, 3>,
    next: Next,
}

impl Ahead {
    pub(crate) fn new() -> Ahead {
        Ahead {
            words: ArrayVec::new(),
            next: Next::Words,
        }
    }

    pub(crate) fn words(&self) -> &[u32] {
        self.words.as_slice()
    }

    // Whether a line that is no word has ended the words.
    pub(crate) fn at_line(&self) -> bool {
        self.next == Next::AnotherLine
    }

    // Reads until there are three words or they have ended.
    pub(crate) fn fill(&mut self, lines: &mut Lines<impl Read>) {
        for _ in 0..3 {
            if self.words.is_full() || self.next != Next::Words {
                break;
            }
            match lines.next_line() {
                Some(line) => match line.ok().and_then(word) {
                    Some(word) => self.words.push(word),
                    None => self.next = Next::AnotherLine,
                },
                None => self.next = Next::End,
            }
        }
    }

    // What is left after a call took its words.
    pub(crate) fn take(&mut self, taken: usize) {
        self.words.drain(..taken.min(self.words.len()));
    }
}

// A line of eight hex digits, in either case.
fn word(line: &[u8]) -> Option<u32> {
    if line.len() == 8 {
        hex(str::from_utf8(line).ok()?)
    } else {
        None
    }
}
