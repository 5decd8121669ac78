//! The file that all tokens state, or the token that is refused.

ghost use Rattle.std.specs.Prelude.{◌≡◌, ◌≤◌, ◌<◌, length};
ghost use Rattle.al_read.specs.PlanReading as reading;

use super::operator::Parts;
use super::reader::{Reader, Stopped};
use super::{ReadRefused, refused};
use crate::token::{Placed, Token};
use al_plan::{PlanFile, RefusedKind};
use al_value::List;
use std::alloc::Global;

/// The most parentheses that are open at a place.
const MAX_DEPTH: u32 = 100;

/// The most operators of a plan file.
const MAX_OPERATORS: usize = 256;

/// How many parentheses are open behind the token, unless one opens too deep.
fn depth_behind(depth: u32, token: &Token) -> Option<u32>
    ensures { result ≡ reading.depth_behind depth token.now }
{
    match token {
        Token::Open if depth >= MAX_DEPTH => None,
        Token::Open => Some(depth + 1),
        Token::Close => Some(depth.saturating_sub(1)),
        Token::Name(_) | Token::Var(_) | Token::Number(_) | Token::Str(_) => Some(depth),
    }
}

/// How many tokens stand before the first parenthesis that opens too deep.
#[tactic(auto, unfolding(crate::specs::PlanReading::shallow_len))]
fn shallow_len(tokens: &[Placed]) -> usize
    ensures is { result ≡ reading.shallow_len 0 tokens.now }
    ensures within { result ≤ length tokens.now }
{
    let mut depth = 0;
    let mut rest = tokens;
    while let [first, others @ ..] = rest {
        match depth_behind(depth, &first.token) {
            Some(behind) => depth = behind,
            None => return tokens.len() - rest.len(),
        }
        rest = others;
    }
    tokens.len()
}

fn refused_with(kind: RefusedKind, place: u32) -> Result<PlanFile, ReadRefused>
    ensures { result ≡ reading.refused_with kind place }
{
    Err(refused(kind, place))
}

/// What is wrong with the first of the tokens that are left, or with the end of the text. Behind
/// `rest`, the first of `deep` opens too deep.
fn stopped_with(
    kind: RefusedKind,
    rest: &[Placed],
    deep: &[Placed],
    end: u32,
) -> Result<PlanFile, ReadRefused>
    ensures { result ≡ reading.stopped_with kind rest.now deep.now end }
{
    match rest {
        [first, ..] => refused_with(kind, first.place),
        [] => match deep {
            [first, ..] => refused_with(RefusedKind::TooDeep, first.place),
            [] => refused_with(kind, end),
        },
    }
}

fn whole_of(
    parts: Parts,
    reader: Reader<'_>,
    deep: &[Placed],
    end: u32,
) -> Result<PlanFile, ReadRefused>
    ensures { result ≡ reading.whole_of parts (reading.state reader.entry) reader.entry.rest.now deep.now end }
{
    match (reader.rest, deep) {
        ([], []) => Ok(PlanFile {
            version: parts.version,
            datasets: parts.datasets,
            dataset_places: reader.datasets,
            root: parts.root.into_inner(),
            places: reader.operators,
        }),
        (rest, deep) => stopped_with(RefusedKind::Form, rest, deep, end),
    }
}

/// The place of the first operator that is too many.
fn large_of(operators: &[u32]) -> Option<u32>
    ensures { result ≡ reading.large_of operators.now }
{
    if operators.len() > MAX_OPERATORS {
        Some(operators[MAX_OPERATORS])
    } else {
        None
    }
}

/// A plan that is too large is so in front of what stops the reader.
fn stopped_or_large(
    large: Option<u32>,
    kind: RefusedKind,
    rest: &[Placed],
    deep: &[Placed],
    end: u32,
) -> Result<PlanFile, ReadRefused>
    ensures { result ≡ reading.or_large large (reading.stopped_with kind rest.now deep.now end) }
{
    match large {
        Some(place) => refused_with(RefusedKind::TooLarge, place),
        None => stopped_with(kind, rest, deep, end),
    }
}

fn whole_or_large(
    large: Option<u32>,
    parts: Parts,
    reader: Reader<'_>,
    deep: &[Placed],
    end: u32,
) -> Result<PlanFile, ReadRefused>
    ensures { result ≡ reading.or_large large (reading.whole_of parts (reading.state reader.entry) reader.entry.rest.now deep.now end) }
{
    match large {
        Some(place) => refused_with(RefusedKind::TooLarge, place),
        None => whole_of(parts, reader, deep, end),
    }
}

#[tactic(auto, unfolding(crate::specs::PlanReading::answer_of))]
fn answer_of(
    parsed: Result<Parts, Stopped>,
    reader: Reader<'_>,
    deep: &[Placed],
    end: u32,
) -> Result<PlanFile, ReadRefused>
    ensures { reading.IsAnswered parsed reader.entry deep.now end result }
{
    let large = large_of(reader.operators.as_slice());
    match parsed {
        Ok(parts) => whole_or_large(large, parts, reader, deep, end),
        Err(Stopped::Form) => stopped_or_large(large, RefusedKind::Form, reader.rest, deep, end),
        Err(Stopped::Number) => {
            stopped_or_large(large, RefusedKind::Number, reader.rest, deep, end)
        }
        Err(Stopped::NoMemory) => Err(ReadRefused::NoMemory),
    }
}

/// The plan file of the tokens of a text with `end` bytes.
#[tactic(auto, unfolding(crate::specs::PlanReading::file_of_tokens))]
pub fn file_of(alloc: Global, tokens: &[Placed], end: u32) -> Result<PlanFile, ReadRefused>
    ensures { reading.Answers result (reading.file_of_tokens tokens.now end) }
{
    let (shallow, deep) = tokens.split_at(shallow_len(tokens));
    let mut reader = Reader {
        alloc,
        rest: shallow,
        datasets: List::new(alloc),
        operators: List::new(alloc),
    };
    let parsed = reader.file(shallow.len());
    answer_of(parsed, reader, deep, end)
}
