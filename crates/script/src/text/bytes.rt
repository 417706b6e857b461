// BYTES: `-`, or hex pairs, or one pair, `x` and a count.

ghost use Rattle.std.specs.Prelude.{◌≡◌, take, length, option_map};
ghost use Rattle.script.specs.Bytes.{bytes_of, pair_byte, some_pairs_bytes, token_bytes_up_to};

use crate::text::numbers::decimal;
use arrayvec::ArrayVec;
use std::iter::repeat_n;

// The most bytes that BYTES can give.
pub const MOST: usize = 16_384;

#[derive(Clone, Copy, Debug, PartialEq, Eq)]
pub enum Bytes<'a> {
    Pairs(&'a [[u8; 2]]),
    Repeated { byte: u8, count: usize },
}

impl<'a> Bytes<'a> {
    pub const NONE: Bytes<'static> = Bytes::Pairs(&[]);

    // What a token gives, of at most so many bytes.
    pub fn of(token: &'a str, most: usize) -> Option<Bytes<'a>>
        ensures { option_map bytes_of result ≡ token_bytes_up_to most token.now }
    {
        let bytes = match token.split_once('x') {
            Some((pair, count)) => Bytes::Repeated {
                byte: one_byte(pair)?,
                count: decimal(count)?,
            },
            None if token == "-" => Bytes::NONE,
            None => Bytes::Pairs(pairs(token)?),
        };
        (bytes.count() <= most).then_some(bytes)
    }

    fn count(self) -> usize
        ensures { result ≡ length (bytes_of self.entry) }
    {
        match self {
            Bytes::Pairs(pairs) => pairs.len(),
            Bytes::Repeated { byte: _, count } => count,
        }
    }

    // The bytes in place of what the buffer holds.
    pub fn write_to(self, buffer: &mut ArrayVec<u8, MOST>)
        ensures { buffer.new.items ≡ take 16384 (bytes_of self.entry) }
    {
        buffer.clear();
        // What has no room is left, so that neither fails.
        let _ = match self {
            Bytes::Pairs(pairs) => {
                buffer.extend(pairs.iter().map(|pair| byte(*pair).unwrap_or(0)).take(MOST))
            }
            Bytes::Repeated { byte, count } => buffer.extend(repeat_n(byte, count).take(MOST)),
        };
    }
}

// The byte that two hex digits of either case are.
fn byte(pair: [u8; 2]) -> Option<u8>
    ensures { result ≡ pair_byte pair }
{
    let [high, low] = pair;
    let high = char::from(high).to_digit(16)?;
    let low = char::from(low).to_digit(16)?;
    Some((high * 16 + low) as u8)
}

// The same of a token, which has to be one pair.
fn one_byte(token: &str) -> Option<u8>
    ensures { result ≡ pair_byte token.now }
{
    match token.as_bytes() {
        [high, low] => byte([*high, *low]),
        _ => None,
    }
}

// The pairs that a token is, at least one.
fn pairs(token: &str) -> Option<&[[u8; 2]]>
    ensures { option_map (λ pairs. bytes_of (Bytes.Pairs pairs)) result ≡ some_pairs_bytes token.now }
{
    let (pairs, rest) = token.as_bytes().as_chunks();
    if pairs.is_empty() || !rest.is_empty() {
        return None;
    }
    pairs
        .iter()
        .all(|pair| byte(*pair).is_some())
        .then_some(pairs)
}
