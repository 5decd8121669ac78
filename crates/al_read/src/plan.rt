//! Plan files.

ghost use Rattle.std.specs.Prelude.{◌≡◌, ℕ, List as Listed, MatchResult};
ghost use Rattle.al_plan.specs.Accept.{HasPlaces};
ghost use Rattle.al_read.specs.Reads.{HasOneAnswer, Reads, Refuses, refusal};

mod expr;
mod head;
mod items;
mod operator;
mod reader;
mod whole;
mod words;

use crate::token::{MAX_PLAN, TokensRefused, read_tokens};
use al_plan::{PlanFile, Refused, RefusedKind};
use std::alloc::Global;
use whole::file_of;

/// Why a text is no plan file.
#[derive(Clone, Copy, Debug, PartialEq, Eq)]
pub enum ReadRefused {
    Refused(Refused),
    NoMemory,
}

fn refused(kind: RefusedKind, place: u32) -> ReadRefused
    ensures { result ≡ ReadRefused.Refused (refusal kind place) }
{
    ReadRefused::Refused(Refused { kind, place })
}

/// A text has one plan file, or one refusal, and never both. A file has a place for each dataset
/// and each operator.
pub fn one_plan_reading()
    ensures one { (bytes : Listed ℕ) → HasOneAnswer bytes }
    ensures places { (bytes : Listed ℕ) (f : PlanFile) → Reads bytes f → HasPlaces f }
{}

/// Reads a plan file.
pub fn read_plan(alloc: Global, bytes: &[u8]) -> Result<PlanFile, ReadRefused>
    ensures { MatchResult result (Reads bytes.now) (Refuses bytes.now) }
{
    match read_tokens(alloc, bytes) {
        Ok(tokens) => file_of(alloc, tokens.as_slice(), bytes.len() as u32),
        Err(TokensRefused::TooLarge) => Err(refused(RefusedKind::TooLarge, MAX_PLAN as u32)),
        Err(TokensRefused::Utf8(at)) => Err(refused(RefusedKind::Utf8, at)),
        Err(TokensRefused::Token(at)) => Err(refused(RefusedKind::Token, at)),
        Err(TokensRefused::NoMemory) => Err(ReadRefused::NoMemory),
    }
}
