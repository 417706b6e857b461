// Lines of an input.

ghost use Rattle.std.specs.Prelude.{◌≡◌};
ghost use Rattle.script.specs.InputLines.{FirstNewline, NextLine, ReadsLine, left};

use crate::text::input::Input;
use arrayvec::ArrayVec;
use std::io::Read;

// A line has more than 32,768 characters.
#[derive(Clone, Copy, Debug, PartialEq, Eq)]
pub struct TooLong;

// Where the first newline is.
fn newline(bytes: &[u8]) -> Option<usize>
    ensures { FirstNewline bytes.now result }
{
    bytes.iter().position(|&byte| byte == b'\n')
}

// An input, line by line.
#[derive(Drop)]
pub struct Lines<R> {
    input: Input<R>,
    line: ArrayVec<u8, 32_768>,
}

impl<R: Read> Lines<R> {
    pub fn new(reader: R) -> Lines<R>
        ensures { left R.remaining result ≡ R.remaining reader }
    {
        Lines {
            input: Input::new(reader),
            line: ArrayVec::new(),
        }
    }

    // The next line, without its newline. The rest of one that is too long is passed over; a comment, however long, counts as a line
    // of no characters.
    pub fn next_line(&mut self) -> Option<Result<&[u8], TooLong>>
        ensures { NextLine (left R.remaining self.old) result }
    {
        let read = self.read_line()?;
        let line = self.line.as_slice();
        if line.starts_with(b"#") {
            return Some(Ok(&[]));
        }
        Some(read.map(|()| line))
    }

    // Reads the next line; where it is too long, only its first characters are sure to be held.
    fn read_line(&mut self) -> Option<Result<(), TooLong>>
        ensures { ReadsLine (left R.remaining self.old) result self.new.line.items (left R.remaining self.new) }
    {
        self.line.clear();
        let mut read = Ok(());
        // No line is as long as this.
        for _ in 0..u64::MAX {
            if !self.input.fill() {
                if self.line.is_empty() {
                    return None;
                }
                break;
            }
            let bytes = self.input.bytes();
            let newline = newline(bytes);
            let length = newline.unwrap_or(bytes.len());
            read = read.and(
                self.line
                    .try_extend_from_slice(&bytes[..length])
                    .map_err(|_| TooLong),
            );
            if newline.is_some() {
                self.input.consume(length + 1);
                break;
            }
            self.input.consume(length);
        }
        Some(read)
    }
}
