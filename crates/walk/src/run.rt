// A walk: `master_write_read` to 0x50 with 01 40 and read length 2, and then checks while words are left; the link is lent.

use crate::ahead::Ahead;
use nonblocking::lent::{check_isr_flags, master_write_read};
use nonblocking::link::Link;
use registers::answers::Answer;
use script::print::lines::Reported;
use script::print::output::Output;
use script::text::lines::Lines;
use std::fmt::Write;
use std::io::{Print, Read};

// One walk, from the next line on. Answers whether a line ended it, so that another may follow.
pub(crate) fn run(lines: &mut Lines<impl Read>, output: &mut Output<impl Print>) -> bool {
    let mut log = [0u32; 10];
    let mut ahead = Ahead::new();
    ahead.fill(lines);
    let mut link = Link::new();
    let mut report = master_write_read(&mut link, 0x50, &[0x01, 0x40], 2, ahead.words(), &mut log);
    // No input is as long as this.
    for _ in 0..u64::MAX {
        let _ = write!(
            output,
            "{}",
            Reported {
                report,
                log: &log,
                data: &link.data,
            }
        );
        if report.answer == Answer::OutOfWords {
            break;
        }
        ahead.take(report.taken);
        ahead.fill(lines);
        if ahead.words().is_empty() {
            break;
        }
        report = check_isr_flags(&mut link, ahead.words(), &mut log);
    }
    output.flush();
    ahead.at_line()
}
