// An answer as C's six numbers: its own number, the words taken, the places logged, and its values, 0 where it has fewer than three.

ghost use Rattle.std.specs.Prelude.{◌≡◌};
ghost use Rattle.c_numbers.specs.Answer.{answer_numbers};

use registers::call_log::Report;

// C lends the place of the six numbers, so they are stored there.
pub fn store_report(report: Report, out: &mut [u64; 6])
    ensures { out.new ≡ answer_numbers report }
{
    let [first, second, third] = report.answer.values();
    *out = [
        report.answer.number() as u64,
        report.taken as u64,
        report.logged as u64,
        first,
        second,
        third,
    ];
}
