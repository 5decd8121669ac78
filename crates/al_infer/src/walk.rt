ghost use Rattle.std.specs.Prelude.{◌≡◌, ◌+◌, ◌-◌, ◌^◌, ◌≤◌, length, min};
ghost use Rattle.al_plan.specs.declared.plan.Plan.{out-Plan};
ghost use Rattle.al_plan.specs.Allows.{live};
ghost use Rattle.al_plan.specs.Accept as spec;
ghost use Rattle.al_infer.specs.Inputs.{Sees};
ghost use Rattle.al_infer.specs.Walk.{TellsInputs, TellsOperator, TellsPlan, site_of};

use crate::datasets::{MAX_WIDTH, place_at};
use crate::inputs::{Inputs, inputs_of, size};
use crate::live::{Seen, live_at, made_by};
use crate::names::append;
use crate::rules::{is_even, is_filled_in, is_in_place, is_known, is_new, reads_live};
use al_csv::Decl;
use al_plan::{Plan, Refused, RefusedKind, Var};
use al_value::{List, NoMemory};
use std::alloc::Global;

/// Where an operator stands.
#[derive(Clone, Copy)]
pub struct Spot<'s> {
    /// Its number in the order in which operators are written.
    pub number: usize,
    /// Whether it stands in a nested plan.
    pub inside: bool,
    /// The variables that `nested` has there.
    pub given: &'s [Var],
}

/// The spot behind an operator and the ones that are written before the next input.
fn behind(spot: Spot<'_>, written: usize) -> Spot<'_>
    ensures number { result.number ≡ min (spot.entry.number + 1 + written) (2 ^ 64 - 1) }
    ensures inside { result.inside ≡ spot.entry.inside }
    ensures given { result.given.now ≡ spot.entry.given.now }
{
    let Spot {
        number,
        inside,
        given,
    } = spot;
    let number = number.saturating_add(1).saturating_add(written);
    Spot {
        number,
        inside,
        given,
    }
}

/// Why a check stops.
#[derive(Clone, Copy)]
pub enum Stopped {
    Refused(Refused),
    NoMemory,
}

impl From<NoMemory> for Stopped {
    ghost use Rattle.al_infer.specs.declared.walk.Stopped.TheVariants as stopped;

    ghost from_gives = { λ _ stop. stop ≡ stopped.NoMemory };

    fn from(_e: NoMemory) -> Stopped {
        Stopped::NoMemory
    }
}

/// The first rule that an operator breaks; `own` are the variables that it makes, and `vars` those
/// that are live at it.
fn broken(
    decls: &[Decl],
    spot: Spot<'_>,
    before: &[Var],
    op: &Plan,
    own: &[Var],
    seen: &Seen,
    vars: &[Var],
) -> Option<RefusedKind>
    requires { own.now ≡ spec.made_by (out-Plan op.now) }
    ensures { Sees spot.entry.given.now (out-Plan op.now) seen.now.left seen.now.right → vars.now ≡ live op.now spot.entry.given.now → result ≡ spec.broken decls.now (site_of spot.entry before.now op.now) }
{
    if !is_known(decls, op) {
        Some(RefusedKind::UnknownDataset)
    } else if !is_filled_in(decls, op) {
        Some(RefusedKind::WrongArity)
    } else if !is_in_place(spot.inside, op) {
        Some(RefusedKind::NotInNested)
    } else if !is_even(op) {
        Some(RefusedKind::UnionArity)
    } else if !is_new(before, own, op) {
        Some(RefusedKind::TwiceMade)
    } else if !reads_live(op, seen) {
        Some(RefusedKind::NotLive)
    } else if vars.len() > MAX_WIDTH {
        Some(RefusedKind::TooWide)
    } else {
        None
    }
}

/// Checks an operator whose inputs are checked, and gives the variables that are live at it.
/// `made` are the variables made so far, and gets those that the operator makes.
fn check_operator(
    alloc: Global,
    decls: &[Decl],
    places: &[u32],
    made: &mut List<Var>,
    spot: Spot<'_>,
    op: &Plan,
    seen: &Seen,
) -> Result<List<Var>, Stopped>
    ensures { Sees spot.entry.given.now (out-Plan op.now) seen.now.left seen.now.right → TellsOperator decls.now places.now spot.entry made.old op.now result made.new }
{
    let own = made_by(alloc, op)?;
    let vars = live_at(alloc, op, spot.given, own.as_slice(), seen)?;
    match broken(
        decls,
        spot,
        made.as_slice(),
        op,
        own.as_slice(),
        seen,
        vars.as_slice(),
    ) {
        Some(kind) => {
            let place = place_at(places, spot.number);
            Err(Stopped::Refused(Refused { kind, place }))
        }
        None => {
            append(alloc, made, own.as_slice())?;
            Ok(vars)
        }
    }
}

/// Checks the inputs of an operator, in the order of checking.
#[cycle(check_plan)]
fn check_inputs(
    alloc: Global,
    decls: &[Decl],
    places: &[u32],
    made: &mut List<Var>,
    spot: Spot<'_>,
    op: &Plan,
) -> Result<Seen, Stopped>
    ensures { spot.entry.number + spec.size op.now ≤ length places.now → TellsInputs decls.now places.now spot.entry made.old op.now result made.new }
{
    match inputs_of(op) {
        Inputs::None => Ok(Seen {
            left: List::new(alloc),
            right: List::new(alloc),
        }),
        Inputs::One(input) => {
            let left = check_plan(alloc, decls, places, made, behind(spot, 0), input)?;
            Ok(Seen {
                left,
                right: List::new(alloc),
            })
        }
        Inputs::Two(first, second) => {
            let left = check_plan(alloc, decls, places, made, behind(spot, 0), first)?;
            let right = check_plan(
                alloc,
                decls,
                places,
                made,
                behind(spot, size(first)),
                second,
            )?;
            Ok(Seen { left, right })
        }
        Inputs::Nested(nested, input) => {
            let left = check_plan(
                alloc,
                decls,
                places,
                made,
                behind(spot, size(nested)),
                input,
            )?;
            let next = behind(spot, 0);
            let inner = Spot {
                number: next.number,
                inside: true,
                given: left.as_slice(),
            };
            let right = check_plan(alloc, decls, places, made, inner, nested)?;
            Ok(Seen { left, right })
        }
    }
}

/// Checks a plan, its operators in the order of checking, and gives the variables that are live at
/// its root. `made` are the variables made so far, and gets those that the plan makes.
#[cycle(check_plan)]
pub fn check_plan(
    alloc: Global,
    decls: &[Decl],
    places: &[u32],
    made: &mut List<Var>,
    spot: Spot<'_>,
    plan: &Plan,
) -> Result<List<Var>, Stopped>
    ensures { spot.entry.number + spec.size plan.now ≤ length places.now → TellsPlan decls.now places.now spot.entry made.old plan.now result made.new }
{
    let seen = check_inputs(alloc, decls, places, made, spot, plan)?;
    check_operator(alloc, decls, places, made, spot, plan, &seen)
}
