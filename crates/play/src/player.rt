// One line of a script.

use crate::link::{Kept, play_lent, play_link};
use crate::settings::config_call;
use crate::unwaited::play_unwaited;
use crate::waiting::Waiting;
use nonblocking::link::Link;
use registers::call_log::Report;
use script::calls::{Call, WaitingCall};
use script::parse::{Line, Words, parse};
use script::print::lines::{Hex, Reported};
use script::print::output::Output;
use std::fmt::Write;
use std::io::Print;

// The places that a log can have.
const PLACES: usize = 65_536;

// What is kept from line to line: the link, and the blocking call begun last with its slices. The words and the log are those of
// the line before.
#[derive(Drop)]
pub(crate) struct Player<P> {
    output: Output<P>,
    words: Words,
    log: [u32; PLACES],
    link: Link,
    // Whether the link's calls go through those that take a lent link.
    lends: bool,
    waiting: Waiting,
}

impl<P: Print> Player<P> {
    pub(crate) fn new(rt: P, lends: bool) -> Player<P> {
        Player {
            output: Output::new(rt),
            words: Words::new(),
            log: [0; PLACES],
            link: Link::new(),
            lends,
            waiting: Waiting::new(),
        }
    }

    // The outcome of a line; one that is too long is no call.
    pub(crate) fn play_line(&mut self, number: u64, line: Option<&[u8]>) {
        let _ = writeln!(self.output, "> {number}");
        match line.and_then(|line| parse(line, &mut self.words)) {
            Some(line) => self.play_call(line),
            None => {
                let _ = writeln!(self.output, "? bad line");
            }
        }
    }

    // A call over the words and the places of the log that its line gives; without `log=` it never fills.
    fn play_call(&mut self, line: Line<'_>) {
        let words = self.words.as_slice();
        let places = line.places.map_or(words.len() * 4 + 6, usize::from);
        let log = self.log.as_mut_slice();
        let log = &mut log[..places];
        let report = match line.call {
            Call::Link(call) if self.lends => play_lent(&mut self.link, call, words, log),
            Call::Link(call) => {
                let called = play_link(self.link, call, words, log);
                self.link = called.link;
                called.report
            }
            Call::Waiting(call) => self.waiting.play(call, words, log),
            Call::Unwaited(call) => play_unwaited(call, words, log),
            Call::Config(call) => match config_call(call) {
                Ok(told) => {
                    let _ = writeln!(self.output, "= {told}");
                    return;
                }
                Err(refusal) => Report::from(refusal),
            },
        };
        // No answer but of a link shows bytes.
        let data = &self.link.data;
        let _ = write!(self.output, "{}", Reported { report, log, data });
        match line.call {
            Call::Link(_) => {
                let _ = writeln!(self.output, "{}", Kept(&self.link));
            }
            Call::Waiting(call) if fills(call) => {
                let _ = writeln!(self.output, "B {}", Hex(self.waiting.received()));
            }
            _ => {}
        }
    }

    pub(crate) fn flush(&mut self) {
        self.output.flush();
    }
}

// Whether the slice that a call fills is shown after it.
fn fills(call: WaitingCall<'_>) -> bool {
    matches!(
        call,
        WaitingCall::Read { .. }
            | WaitingCall::WriteRead { .. }
            | WaitingCall::SlaveRead(_)
            | WaitingCall::Resume(_)
    )
}
