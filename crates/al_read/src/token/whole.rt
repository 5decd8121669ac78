//! All tokens of a text.

ghost use Rattle.std.specs.Prelude.{◌≤◌, length, MatchResult};
ghost use Rattle.al_read.specs.Tokens.{IsTokens};
ghost use Rattle.al_read.specs.TokenReading.{IsStop};

use super::front::{Stopped, token_of};
use super::gap::after_gap;
use super::{MAX_PLAN, Placed, TokensRefused};
use al_value::List;
use std::alloc::Global;

/// The tokens of bytes that are UTF-8.
pub fn tokens_of(alloc: Global, bytes: &[u8]) -> Result<List<Placed>, TokensRefused>
    requires { length bytes.now ≤ MAX_PLAN }
    ensures { MatchResult result (λ tokens. IsTokens 0 bytes.now tokens) (IsStop bytes.now) }
{
    let mut tokens = List::new(alloc);
    let mut rest = bytes;
    loop {
        let piece = after_gap(rest);
        if piece.is_empty() {
            return Ok(tokens);
        }
        let place = (bytes.len() - piece.len()) as u32;
        match token_of(alloc, piece) {
            Ok((token, after)) => {
                tokens.push(Placed { token, place })?;
                rest = after;
            }
            Err(Stopped::Bad) => return Err(TokensRefused::Token(place)),
            Err(Stopped::NoMemory) => return Err(TokensRefused::NoMemory),
        }
    }
}
