// From a line to its call.

ghost use Rattle.std.specs.Prelude.{◌≡◌, IsUtf8, ◌<◌, OnSome, IfSome, MatchOption, length, map};
ghost use Rattle.std.specs.Iterator.{YieldsFirstRef, item_count};
ghost use Rattle.script.specs.Lines.{tokens_of, StartsToken, EndsToken, word_tokens, AreWords, values_of, call_tokens, log_of, ArePlaces};

use crate::calls::Call;
use crate::items::call;
use crate::text::numbers::{decimal, hex};
use arrayvec::ArrayVec;

// The words that a line gives.
pub type Words = ArrayVec<u32, 4096>;

// A call, and how many places its log has, where the line says so.
#[derive(Clone, Copy, Debug, PartialEq, Eq)]
pub struct Line<'a> {
    pub call: Call<'a>,
    pub places: Option<u16>,
}

// The call of a line, if it is one. Its words are put in place of what `words` holds.
pub fn parse<'a>(line: &'a [u8], words: &mut Words) -> Option<Line<'a>>
    ensures no_text { ¬ IsUtf8 line.now → (result ≡ None) × (words.new ≡ words.old) }
    ensures words { OnSome result (AreWords (word_tokens line.now) × (words.new.items ≡ values_of (word_tokens line.now))) }
    ensures places { IfSome result (λ read. ArePlaces (log_of (call_tokens line.now)) read.places) }
{
    let line = str::from_utf8(line).ok()?;
    let items = call_items(line)?;
    put_words(line, words)?;
    with_log(items.as_slice())
}

// The tokens of a text, one after another. A `split` would give an empty one for each further space.
#[derive(Drop)]
struct Tokens<'a> {
    rest: &'a str,
}

impl<'a> Iterator for Tokens<'a> {
    type Item = &'a str;

    ghost next_gives = { YieldsFirstRef (λ tokens. tokens_of tokens.rest.now) };

    ghost remaining = { item_count (λ tokens. tokens_of tokens.rest.now) };

    fn next(&mut self) -> Option<&'a str> {
        let start = token_start(self.rest.as_bytes())?;
        let text = &self.rest[start..];
        let (token, rest) = text.split_at(token_length(text.as_bytes()));
        self.rest = rest;
        Some(token)
    }
}

// Where the first token begins.
fn token_start(text: &[u8]) -> Option<usize>
    ensures { StartsToken text.now result }
{
    text.iter().position(|&byte| byte != b' ')
}

// How long a token is that begins the text.
fn token_length(text: &[u8]) -> usize
    ensures { EndsToken text.now result }
{
    text.iter()
        .position(|&byte| byte == b' ')
        .unwrap_or(text.len())
}

// The tokens before the first `|`. No call has more than 16.
fn call_items(line: &str) -> Option<ArrayVec<&str, 16>>
    ensures { MatchOption result (16 < length (call_tokens line.now)) (λ items. map (λ item. item.now) items.items ≡ call_tokens line.now) }
{
    let tokens = Tokens { rest: line };
    let mut items = ArrayVec::new();
    items.extend(tokens.take_while(|token| *token != "|")).ok()?;
    Some(items)
}

// The words are the tokens after it.
fn put_words(line: &str, words: &mut Words) -> Option<()>
    ensures { MatchOption result (¬ AreWords (word_tokens line.now)) (λ _. AreWords (word_tokens line.now) ×
        (words.new.items ≡ values_of (word_tokens line.now))) }
{
    let tokens = Tokens { rest: line };
    words.clear();
    for word in tokens.skip_while(|token| *token != "|").skip(1) {
        words.try_push(hex(word)?).ok()?;
    }
    Some(())
}

// The call of its tokens. `log=` may stand as the last one.
fn with_log<'a>(items: &[&'a str]) -> Option<Line<'a>>
    ensures { IfSome result (λ line. ArePlaces (log_of (map (λ item. item.now) items.now)) line.places) }
{
    if let [items @ .., last] = items
        && let Some(places) = last.strip_prefix("log=")
    {
        return Some(Line {
            call: call(items)?,
            places: Some(decimal(places)?),
        });
    }
    Some(Line {
        call: call(items)?,
        places: None,
    })
}
