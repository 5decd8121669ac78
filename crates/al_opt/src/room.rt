//! How much room a plan leaves beside its operators and conjuncts.

ghost use Rattle.std.specs.Prelude.{suc, length};
ghost use Rattle.al_plan.specs.declared.plan.Plan.{out-Plan};
ghost use Rattle.al_conj.specs.Conj.{conj};
ghost use Rattle.al_rule.specs.Places.{input as input_of};
ghost use Rattle.al_opt.specs.Room.{Leaves, conjuncts_in, parts, parts_at};

use al_conj::sides;
use al_plan::{Expr, Plan};
use al_rule::input;

/// What is left beside one part.
fn beside_one(room: usize) -> Option<usize>
    ensures { Leaves room 1 result }
{
    if room == 0 { None } else { Some(room - 1) }
}

/// What is left beside the conjuncts of a condition.
fn beside_conjuncts(cond: &Expr, room: usize) -> Option<usize>
    ensures { Leaves room (length (conj cond.now)) result }
{
    match sides(cond) {
        Some((left, right)) => match beside_conjuncts(left, room) {
            Some(room) => beside_conjuncts(right, room),
            None => None,
        },
        None => beside_one(room),
    }
}

/// What is left beside the conjuncts of an operator.
#[tactic(auto, using(crate::proofs::RoomLaws::layers))]
fn beside_condition(p: &Plan, room: usize) -> Option<usize>
    ensures { Leaves room (conjuncts_in (out-Plan p.now)) result }
{
    match p {
        Plan::Select { cond, .. } => beside_conjuncts(cond, room),
        Plan::Join { cond, .. } => beside_conjuncts(cond, room),
        Plan::LeftJoin { cond, .. } => beside_conjuncts(cond, room),
        _ => Some(room),
    }
}

/// What is left beside an operator and its conjuncts.
fn beside_own(p: &Plan, room: usize) -> Option<usize>
    ensures { Leaves room (suc (conjuncts_in (out-Plan p.now))) result }
{
    match beside_one(room) {
        Some(room) => beside_condition(p, room),
        None => None,
    }
}

/// What is left beside the input that is child `i`, where there is one.
#[cycle(room_beside)]
fn beside_input(p: &Plan, i: u32, room: usize) -> Option<usize>
    ensures { Leaves room (parts_at (input_of p.now i)) result }
{
    match input(p, i) {
        Some(part) => room_beside(part, room),
        None => Some(room),
    }
}

/// How much of the room is left beside the operators and conjuncts that a plan has outside its
/// nested plans. It goes no deeper than there is room.
#[cycle(room_beside)]
pub fn room_beside(p: &Plan, room: usize) -> Option<usize>
    ensures { Leaves room (parts p.now) result }
{
    match beside_own(p, room) {
        Some(room) => match beside_input(p, 0, room) {
            Some(room) => beside_input(p, 1, room),
            None => None,
        },
        None => None,
    }
}
