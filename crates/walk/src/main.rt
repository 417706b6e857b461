// Standard input has one word a line, eight hex digits; any other line ends it, and so does an answer 9.
// With an argument, whatever it says, another walk begins after the line that ended one: so are the stored cases run.
#![tactic(auto)]

use crate::run::run;
use script::print::output::Output;
use script::text::lines::Lines;
use std::env::{Env, FillError};
use std::fmt::Write;

mod ahead;
mod run;

// How many walks there are: one, or more than any input has.
fn walks(rt: &impl Env) -> u64 {
    match rt.arg(1, &mut [0u8; 1]) {
        Err(FillError::NotPresent) => 1,
        _ => u64::MAX,
    }
}

fn main(rt: HostRuntime) {
    let mut lines = Lines::new(rt.stdin());
    let mut output = Output::new(&rt);
    for walk in 0..walks(&rt) {
        if 0 < walk {
            let _ = writeln!(output, "--");
            // So that it is out before the next walk's words are asked for.
            output.flush();
        }
        if !run(&mut lines, &mut output) {
            break;
        }
    }
}
