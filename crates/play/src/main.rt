// Plays a script: each line is a call, and what it logs, answers and leaves is printed.
// With an argument, whatever it says, the link is lent to the calls that take it so.
#![tactic(auto)]

use crate::player::Player;
use script::text::lines::Lines;
use std::env::{Env, FillError};

mod link;
mod player;
mod settings;
mod unwaited;
mod waiting;

fn main(rt: HostRuntime) {
    let mut lines = Lines::new(rt.stdin());
    let lends = !matches!(rt.arg(1, &mut [0u8; 1]), Err(FillError::NotPresent));
    let mut player = Player::new(&rt, lends);
    // No script has as many lines.
    for number in 1..u64::MAX {
        match lines.next_line() {
            Some(Ok([])) => {}
            Some(line) => player.play_line(number, line.ok()),
            None => break,
        }
    }
    player.flush();
}
