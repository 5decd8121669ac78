//! Names, variables and numbers.

ghost use Rattle.std.specs.Prelude.{◌≡◌, MatchOption, true, false};
ghost use Rattle.std.specs.Char.{is_ascii_digit};
ghost use Rattle.std.specs.Str.{is_utf8};
ghost use Rattle.std.specs.List.{prefix_len, list_all};
ghost use Rattle.al_read.specs.Tokens as form;
ghost use Rattle.al_read.specs.TokenReading as reading;

use super::Token;
use super::front::Stopped;
use super::gap::is_separator;
use al_value::Name;
use std::alloc::Global;
use std::str::from_utf8;

/// The most bytes of a name.
const MAX_NAME: usize = 64;

fn begins_name(byte: u8) -> bool
    ensures { result ≡ form.begins_name byte }
{
    byte.is_ascii_alphabetic() || byte == b'_'
}

fn is_name_byte(byte: u8) -> bool
    ensures { result ≡ form.is_name_byte byte }
{
    byte.is_ascii_alphanumeric() || byte == b'_'
}

fn is_word_byte(byte: u8) -> bool
    ensures { result ≡ reading.is_word_byte byte }
{
    !(is_separator(byte) || byte == b'(' || byte == b')' || byte == b'"' || byte == b';')
}

fn are_name_bytes(bytes: &[u8]) -> bool
    ensures { result ≡ list_all form.is_name_byte bytes.now }
{
    bytes.iter().all(|byte| is_name_byte(*byte))
}

fn is_name(bytes: &[u8]) -> bool
    ensures { result ≡ form.is_name bytes.now }
{
    match bytes {
        [first, others @ ..] => {
            begins_name(*first) && are_name_bytes(others) && others.len() < MAX_NAME
        }
        [] => false,
    }
}

fn are_all_digits(bytes: &[u8]) -> bool
    ensures { result ≡ list_all is_ascii_digit bytes.now }
{
    bytes.iter().all(|byte| byte.is_ascii_digit())
}

fn are_digits(bytes: &[u8]) -> bool
    ensures { result ≡ form.are_digits bytes.now }
{
    match bytes {
        [first, others @ ..] => first.is_ascii_digit() && are_all_digits(others),
        [] => false,
    }
}

fn is_number(bytes: &[u8]) -> bool
    ensures { result ≡ form.is_number bytes.now }
{
    match bytes {
        [b'-', digits @ ..] => are_digits(digits),
        _ => are_digits(bytes),
    }
}

fn text_of(bytes: &[u8]) -> Option<&str>
    ensures { MatchOption result (is_utf8 bytes.now ≡ false) (λ s. (s.now ≡ bytes.now) × (is_utf8 bytes.now ≡ true)) }
{
    from_utf8(bytes).ok()
}

fn name_of(alloc: Global, bytes: &[u8]) -> Result<Name, Stopped>
    ensures { reading.Gives (λ name. name) result (reading.text_at bytes.now) }
{
    let Some(text) = text_of(bytes) else {
        return Err(Stopped::Bad);
    };
    Ok(Name::new(alloc, text)?)
}

#[tactic(auto, unfolding(crate::specs::TokenReading::variable_of))]
fn variable_of(alloc: Global, name: &[u8]) -> Result<Token, Stopped>
    ensures { reading.Gives (λ t. t) result (reading.variable_of name.now) }
{
    if !is_name(name) {
        return Err(Stopped::Bad);
    }
    Ok(Token::Var(name_of(alloc, name)?))
}

#[tactic(auto, unfolding(crate::specs::TokenReading::plain_of))]
fn plain_of(alloc: Global, bytes: &[u8]) -> Result<Token, Stopped>
    ensures { reading.Gives (λ t. t) result (reading.plain_of bytes.now) }
{
    if is_name(bytes) {
        return Ok(Token::Name(name_of(alloc, bytes)?));
    }
    if is_number(bytes) {
        return Ok(Token::Number(name_of(alloc, bytes)?));
    }
    Err(Stopped::Bad)
}

#[tactic(auto, unfolding(crate::specs::TokenReading::word_of, crate::specs::TokenReading::plain_of))]
fn word_of(alloc: Global, bytes: &[u8]) -> Result<Token, Stopped>
    ensures { reading.Gives (λ t. t) result (reading.word_of bytes.now) }
{
    match bytes {
        [b'$', name @ ..] => variable_of(alloc, name),
        [_, ..] => plain_of(alloc, bytes),
        [] => Err(Stopped::Bad),
    }
}

fn word_len(bytes: &[u8]) -> usize
    ensures { result ≡ prefix_len reading.is_word_byte bytes.now }
{
    bytes.iter().take_while(|byte| is_word_byte(**byte)).count()
}

/// The name, the variable or the number at the front, and what is behind it.
#[tactic(auto, unfolding(crate::specs::TokenReading::word_at))]
pub fn word_at(alloc: Global, bytes: &[u8]) -> Result<(Token, &[u8]), Stopped>
    ensures { reading.Gives (λ x. (x.0, x.1.now)) result (reading.word_at bytes.now) }
{
    let (word, rest) = bytes.split_at(word_len(bytes));
    let token = word_of(alloc, word)?;
    Ok((token, rest))
}
