// The lines of a call: its accesses, its answer, and bytes.

ghost use Rattle.std.specs.Prelude.{◌≡◌, ◌≤◌, ◌%◌, true, length, take, Some};
ghost use Rattle.std.specs.Fmt.{WritesOnOk, digit_glyph};
ghost use Rattle.hex.specs.Hex.{encode_upper};
ghost use Rattle.script.specs.PrintedLines.{bytes_text, access_line, answer_line, reported_text};

use registers::answers::Answer;
use registers::call_log::Report;
use std::fmt;

// Bytes as hex pairs, `-` where there are none.
#[derive(Clone, Copy, Debug, PartialEq, Eq)]
pub struct Hex<'a>(pub &'a [u8]);

impl fmt::Display for Hex<'_> {
    ghost output = { λ hex. Some (bytes_text hex.0.now) };

    fn fmt<W: fmt::Write>(&self, f: &mut fmt::Formatter<W>) -> fmt::Result {
        if self.0.is_empty() {
            return f.write_str("-");
        }
        // In parts: with `{:02X}` for each byte a script is played at a third of the speed.
        let (parts, rest) = self.0.as_chunks::<32>();
        for part in parts {
            write_hex(f, part)?;
        }
        write_hex(f, rest)
    }
}

// So many bytes as hex pairs.
fn write_hex<W: fmt::Write>(f: &mut fmt::Formatter<W>, bytes: &[u8]) -> fmt::Result
    requires { length bytes.now ≤ 32 }
    ensures { WritesOnOk W.write_str_gives f.old result (encode_upper bytes.now) f.new }
{
    let mut digits = [0u8; 64];
    let digits = &mut digits[..2 * bytes.len()];
    let _ = hex::encode_to_slice(bytes, digits);
    digits.make_ascii_uppercase();
    f.write_str(str::from_utf8(digits).unwrap_or_default())
}

// A call's report, over the log that it wrote: its accesses, and its answer. The bytes that an answer shows are the first ones of
// a link's data.
#[derive(Clone, Copy, Debug, PartialEq, Eq)]
pub struct Reported<'a> {
    pub report: Report,
    pub log: &'a [u32],
    pub data: &'a [u8],
}

impl fmt::Display for Reported<'_> {
    ghost output = { λ r. Some (reported_text r.report r.log.now r.data.now) };

    fn fmt<W: fmt::Write>(&self, f: &mut fmt::Formatter<W>) -> fmt::Result {
        let (accesses, _) = front(self.log, self.report.logged).as_chunks::<2>();
        for &[number, word] in accesses {
            write_access(f, number, word)?;
        }
        write_answer(f, self.report.answer, self.data)
    }
}

// The line of an access. Its fourteen characters are made at once: with `{:02X}` and `{:08X}` a script of many accesses takes two to three times as long.
fn write_access<W: fmt::Write>(f: &mut fmt::Formatter<W>, number: u32, word: u32) -> fmt::Result
    ensures { WritesOnOk W.write_str_gives f.old result (access_line number word) f.new }
{
    let line = [
        if number < 0x100 { b'R' } else { b'W' },
        b' ',
        hex_digit(number >> 4),
        hex_digit(number),
        b' ',
        hex_digit(word >> 28),
        hex_digit(word >> 24),
        hex_digit(word >> 20),
        hex_digit(word >> 16),
        hex_digit(word >> 12),
        hex_digit(word >> 8),
        hex_digit(word >> 4),
        hex_digit(word),
        b'\n',
    ];
    f.write_str(str::from_utf8(&line).unwrap_or_default())
}

// The digit of a number's low four bits.
fn hex_digit(number: u32) -> u8
    ensures { result ≡ digit_glyph true (number % 16) }
{
    let value = (number % 16) as u8;
    if value < 10 {
        b'0' + value
    } else {
        b'A' - 10 + value
    }
}

// The line of an answer. The bytes that it shows are the first ones of the data.
#[tactic(auto, using(crate::proofs::Padded::zeros_first, std::proofs::Common::append_assoc))]
fn write_answer<W: fmt::Write>(
    f: &mut fmt::Formatter<W>,
    answer: Answer,
    data: &[u8],
) -> fmt::Result
    ensures { WritesOnOk W.write_str_gives f.old result (answer_line answer «data».now) f.new }
{
    match answer {
        Answer::IncorrectFrameSize(count) => writeln!(f, "= 5 {count}"),
        Answer::Data {
            address,
            direction,
            count,
        } => writeln!(
            f,
            "= D {address:04X} {} {}",
            direction as u8,
            Hex(front(data, count))
        ),
        Answer::Addressed { address, direction } => {
            writeln!(f, "= A {address:04X} {}", direction as u8)
        }
        Answer::Errors(count) => writeln!(f, "= E {count}"),
        Answer::Address(address) => writeln!(f, "= N {address:04X}"),
        Answer::Bytes(count) => writeln!(f, "= G {}", Hex(front(data, count))),
        answer => writeln!(f, "= {}", answer.number()),
    }
}

// So many of the first ones, or all.
fn front<T>(items: &[T], count: usize) -> &[T]
    ensures { result.now ≡ take count items.now }
{
    items.get(..count).unwrap_or(items)
}
