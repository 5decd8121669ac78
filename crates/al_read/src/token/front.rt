//! One token.

ghost use Rattle.al_read.specs.TokenReading as reading;

use super::Token;
use super::string::string_of;
use super::word::word_at;
use al_value::NoMemory;
use std::alloc::Global;

/// Why no token is read: none stands there, or memory ran out.
#[derive(Clone, Copy, Debug, PartialEq, Eq)]
pub enum Stopped {
    Bad,
    NoMemory,
}

impl From<NoMemory> for Stopped {
    ghost use Rattle.std.specs.Prelude.{◌≡◌};
    ghost use Rattle.al_read.specs.declared.token.front.Stopped.TheVariants as stops;

    ghost from_gives = { λ _ e. e ≡ stops.NoMemory };

    fn from(_e: NoMemory) -> Stopped {
        Stopped::NoMemory
    }
}

/// The token at the front, and what is behind it.
#[tactic(auto, unfolding(crate::specs::TokenReading::token_at, crate::specs::TokenReading::word_at))]
pub fn token_of(alloc: Global, bytes: &[u8]) -> Result<(Token, &[u8]), Stopped>
    ensures { reading.Gives (λ x. (x.0, x.1.now)) result (reading.token_at bytes.now) }
{
    match bytes {
        [] => Err(Stopped::Bad),
        [b'(', rest @ ..] => Ok((Token::Open, rest)),
        [b')', rest @ ..] => Ok((Token::Close, rest)),
        [b'"', rest @ ..] => {
            let (text, rest) = string_of(alloc, rest)?;
            Ok((Token::Str(text), rest))
        }
        _ => word_at(alloc, bytes),
    }
}
