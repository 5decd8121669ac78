//! The tokens of plan text.

ghost use Rattle.std.specs.Prelude.{ℕ, List as Listed, MatchResult};
ghost use Rattle.al_read.specs.Tokens.{IsTokens, IsPlanText, IsRefusal, HasOneReading};

mod front;
mod gap;
mod string;
mod whole;
mod word;

use al_value::{List, Name, NoMemory, Text};
use std::alloc::Global;
use std::str::from_utf8;
use whole::tokens_of;

/// The most bytes of a plan file.
pub const MAX_PLAN: usize = 1_048_576;

/// A token. A name of a variable is without its `$`, a number is its text with the sign, and a
/// string is its content.
#[derive(Debug, Drop)]
pub enum Token {
    Open,
    Close,
    Name(Name),
    Var(Name),
    Number(Name),
    Str(Text),
}

/// A token and the byte at which it begins.
#[derive(Debug, Drop)]
pub struct Placed {
    pub token: Token,
    pub place: u32,
}

/// Why a text has no tokens.
#[derive(Clone, Copy, Debug, PartialEq, Eq)]
pub enum TokensRefused {
    /// There are more than `MAX_PLAN` bytes.
    TooLarge,
    /// No sequence of UTF-8 covers the byte here.
    Utf8(u32),
    /// The piece that begins here is no token.
    Token(u32),
    NoMemory,
}

impl From<NoMemory> for TokensRefused {
    ghost use Rattle.std.specs.Prelude.{◌≡◌};
    ghost use Rattle.al_read.specs.declared.token.TokensRefused.TheVariants as refused;

    ghost from_gives = { λ _ e. e ≡ refused.NoMemory };

    fn from(_e: NoMemory) -> TokensRefused {
        TokensRefused::NoMemory
    }
}

/// The tokens of a text, all of it.
pub fn read_tokens(alloc: Global, bytes: &[u8]) -> Result<List<Placed>, TokensRefused>
    ensures { MatchResult result (λ tokens. IsPlanText bytes.now × IsTokens 0 bytes.now tokens) (IsRefusal bytes.now) }
{
    if bytes.len() > MAX_PLAN {
        return Err(TokensRefused::TooLarge);
    }
    if let Err(fault) = from_utf8(bytes) {
        return Err(TokensRefused::Utf8(fault.valid_up_to() as u32));
    }
    tokens_of(alloc, bytes)
}

/// A text has one list of tokens, or one first bad piece, and never both.
pub fn one_reading()
    ensures { (bytes : Listed ℕ) → HasOneReading bytes }
{}
