//! Strings.

ghost use Rattle.std.specs.Prelude.{◌≡◌, if◌then◌else◌, MatchOption, Some, None, true, false};
ghost use Rattle.std.specs.Str.{is_utf8};
ghost use Rattle.al_read.specs.TokenReading as reading;

use super::front::Stopped;
use al_value::{List, Text, TextFault};
use std::alloc::Global;
use std::str::from_utf8;

fn unescaped(byte: u8) -> Option<u8>
    ensures { result ≡ reading.unescaped byte }
{
    match byte {
        b'"' | b'\\' => Some(byte),
        b'n' => Some(b'\n'),
        b't' => Some(b'\t'),
        b'r' => Some(b'\r'),
        _ => None,
    }
}

fn escape_step(bytes: &[u8]) -> Option<(Option<u8>, &[u8])>
    ensures { MatchOption result (reading.escape_step bytes.now ≡ None) (λ x. reading.escape_step bytes.now ≡ Some (x.0, x.1.now)) }
{
    let (escape, rest) = bytes.split_first()?;
    let byte = unescaped(*escape)?;
    Some((Some(byte), rest))
}

/// The next byte of the content and what is behind it, or no byte at the closing quote.
#[tactic(auto, unfolding(crate::specs::TokenReading::content_step))]
fn content_step(bytes: &[u8]) -> Option<(Option<u8>, &[u8])>
    ensures { MatchOption result (reading.content_step bytes.now ≡ None) (λ x. reading.content_step bytes.now ≡ Some (x.0, x.1.now)) }
{
    match bytes {
        [b'"', rest @ ..] => Some((None, rest)),
        [b'\\', rest @ ..] => escape_step(rest),
        [byte, rest @ ..] if *byte >= b' ' => Some((Some(*byte), rest)),
        _ => None,
    }
}

fn content_of(alloc: Global, bytes: &[u8]) -> Result<(List<u8>, &[u8]), Stopped>
    ensures { reading.Gives (λ x. (x.0, x.1.now)) result (reading.content_at false bytes.now) }
{
    let mut content = List::new(alloc);
    let mut rest = bytes;
    loop {
        match content_step(rest) {
            Some((Some(byte), next)) => {
                content.push(byte)?;
                rest = next;
            }
            Some((None, after)) => return Ok((content, after)),
            None => return Err(Stopped::Bad),
        }
    }
}

fn text_of(alloc: Global, bytes: &[u8]) -> Result<Text, Stopped>
    ensures { reading.Gives (λ t. t) result (if reading.is_text bytes.now then Some bytes.now else None) }
{
    let Ok(text) = from_utf8(bytes) else {
        return Err(Stopped::Bad);
    };
    match Text::new(alloc, text) {
        Ok(text) => Ok(text),
        Err(TextFault::TooLong) => Err(Stopped::Bad),
        Err(TextFault::NoMemory) => Err(Stopped::NoMemory),
    }
}

/// The string whose opening quote stands in front of the bytes, and what is behind it.
#[tactic(auto, unfolding(crate::specs::TokenReading::string_at))]
pub fn string_of(alloc: Global, bytes: &[u8]) -> Result<(Text, &[u8]), Stopped>
    ensures { reading.Gives (λ x. (x.0, x.1.now)) result (reading.string_at bytes.now) }
{
    let (content, rest) = content_of(alloc, bytes)?;
    let text = text_of(alloc, content.as_slice())?;
    Ok((text, rest))
}
