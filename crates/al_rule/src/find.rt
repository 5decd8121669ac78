//! The next place at which a rule of a set matches.

ghost use Rattle.std.specs.Prelude.{◌≡◌, ◌<◌, [], ◌∷◌, ◌++◌, IfOk};
ghost use Rattle.al_rule.specs.Walks.{FirstRule, Finds, FindsIn, turned, turned_round};

use crate::place::input;
use crate::rule::RuleSet;
use al_plan::{Place, Plan};
use al_value::{List, NoMemory};
use std::alloc::Global;

/// A rule of a set, and a place where it matches.
#[derive(Drop)]
pub struct Found {
    pub rule: usize,
    pub place: Place,
}

/// The first rule of the set that matches at the plan's root.
fn first_rule<S: RuleSet>(set: &S, p: &Plan) -> Option<usize>
    ensures { FirstRule (S.rules_of set.now) p.now result }
{
    for k in 0..set.rules() {
        if set.matches(k, p) {
            return Some(k);
        }
    }
    None
}

/// What was found in the input that is child `i`, as a match of the whole plan. As long as the
/// search goes up, the last number of a place is the one of the root's child: one more is put
/// behind the others, which stay where they are.
fn below(i: u32, found: Found) -> Result<Found, NoMemory>
    ensures { IfOk result (λ f. (f.rule ≡ found.rule) × (f.place.children ≡ found.place.children ++ i ∷ [])) }
{
    let mut found = found;
    found.place.children.push(i)?;
    Ok(found)
}

/// The next match within the input that is child `i`, at its place `from` or behind it.
#[cycle(seek)]
fn seek_in<S: RuleSet>(
    alloc: Global,
    set: &S,
    p: &Plan,
    i: u32,
    from: &[u32],
) -> Result<Option<Found>, NoMemory>
    ensures { IfOk result (λ found. FindsIn (S.rules_of set.now) i from.now p.now (turned found)) }
{
    match input(p, i) {
        None => Ok(None),
        Some(part) => match seek(alloc, set, part, from)? {
            None => Ok(None),
            Some(found) => Ok(Some(below(i, found)?)),
        },
    }
}

/// The next match below the root, at the place `from` of child `i` or behind it.
#[cycle(seek)]
fn seek_below<S: RuleSet>(
    alloc: Global,
    set: &S,
    p: &Plan,
    i: u32,
    from: &[u32],
) -> Result<Option<Found>, NoMemory>
    ensures { IfOk result (λ found. Finds (S.rules_of set.now) (i ∷ from.now) p.now (turned found)) }
{
    match seek_in(alloc, set, p, i, from)? {
        Some(found) => Ok(Some(found)),
        None if i == 0 => seek_in(alloc, set, p, 1, &[]),
        None => Ok(None),
    }
}

/// The next match in pre-order, at the place `from` or behind it, with its place turned round.
#[cycle(seek)]
fn seek<S: RuleSet>(
    alloc: Global,
    set: &S,
    p: &Plan,
    from: &[u32],
) -> Result<Option<Found>, NoMemory>
    ensures { IfOk result (λ found. Finds (S.rules_of set.now) from.now p.now (turned found)) }
{
    match from.split_first() {
        Some((i, rest)) => seek_below(alloc, set, p, *i, rest),
        None => match first_rule(set, p) {
            Some(rule) => Ok(Some(Found {
                rule,
                place: Place {
                    children: List::new(alloc),
                },
            })),
            None => seek_below(alloc, set, p, 0, from),
        },
    }
}

/// A match with its place turned round.
fn turn_round(found: Found) -> Found
    ensures { result ≡ turned_round found }
{
    let Found { rule, place } = found;
    let Place { children } = place;
    let mut children = children.into_vec();
    children.reverse();
    Found {
        rule,
        place: Place {
            children: List::from_vec(children),
        },
    }
}

/// The next match in pre-order, at the place `from` or behind it.
pub fn find<S: RuleSet>(
    alloc: Global,
    set: &S,
    p: &Plan,
    from: &[u32],
) -> Result<Option<Found>, NoMemory>
    ensures { IfOk result (Finds (S.rules_of set.now) from.now p.now) }
{
    match seek(alloc, set, p, from)? {
        Some(found) => Ok(Some(turn_round(found))),
        None => Ok(None),
    }
}
