//! The choice itself.

ghost use Rattle.std.specs.Prelude.{◌≡◌, ◌≤◌, ◌<◌, IfOk, false};
ghost use Rattle.std.specs.List.{AllByRecursion};
ghost use Rattle.al_plan.specs.Refines.{Fit};
ghost use Rattle.al_phys.specs.Operators.{operators};
ghost use Rattle.al_phys.specs.Placed.{Placed};
ghost use Rattle.al_phys.specs.Stands.{Stands};
ghost use Rattle.al_choose.specs.Chosen.{chosen, moves};

use crate::aggregate::aggregate_over;
use crate::group::group_over;
use crate::join::join_over;
use crate::order::{limit_over, order_over};
use crate::over::{
    assign_over, check_over, distinct_over, project_over, result_over, scan_of, select_over,
    subplan_over, union_over, unnest_over,
};
use crate::size::room_left;
use al_phys::Phys;
use al_plan::Plan;
use al_value::{Boxed, NoMemory};
use std::alloc::Global;

/// One more than the greatest number of operators that a physical plan has.
const TOO_MANY: u64 = 524_288;

/// What is chosen for an input.
#[cycle(plan_of)]
fn input_of(alloc: Global, p: &Boxed<Plan>, partitions: u32) -> Result<Boxed<Phys>, NoMemory>
    ensures { IfOk result (λ q. q ≡ chosen partitions p.now) }
{
    plan_of(alloc, p.get(), partitions)
}

/// What is chosen for a plan, however many operators it has.
#[cycle(plan_of)]
#[tactic(auto, using(crate::proofs::ChosenRules::plain_laws))]
pub fn plan_of(alloc: Global, p: &Plan, partitions: u32) -> Result<Boxed<Phys>, NoMemory>
    ensures { IfOk result (λ q. q ≡ chosen partitions p.now) }
{
    match p {
        Plan::Scan { set, vars } => scan_of(alloc, set, vars.as_slice()),
        Plan::Empty => Boxed::new(alloc, Phys::One),
        Plan::Nested => Boxed::new(alloc, Phys::One),
        Plan::Assign { made, input } => {
            let input = input_of(alloc, input, partitions)?;
            assign_over(alloc, made.as_slice(), input)
        }
        Plan::Select { cond, input } => {
            let input = input_of(alloc, input, partitions)?;
            select_over(alloc, cond, input)
        }
        Plan::Project { vars, input } => {
            let input = input_of(alloc, input, partitions)?;
            project_over(alloc, vars.as_slice(), input)
        }
        Plan::Unnest { var, items, input } => {
            let input = input_of(alloc, input, partitions)?;
            unnest_over(alloc, var, items, input)
        }
        Plan::Subplan { nested, input } => {
            let input = input_of(alloc, input, partitions)?;
            subplan_over(alloc, nested.get(), input)
        }
        Plan::Join { cond, left, right } => {
            let left = input_of(alloc, left, partitions)?;
            let right = input_of(alloc, right, partitions)?;
            join_over(alloc, false, cond, left, right, partitions)
        }
        Plan::LeftJoin { cond, left, right } => {
            let left = input_of(alloc, left, partitions)?;
            let right = input_of(alloc, right, partitions)?;
            join_over(alloc, true, cond, left, right, partitions)
        }
        Plan::Group {
            keys,
            nested,
            input,
        } => {
            let input = input_of(alloc, input, partitions)?;
            group_over(alloc, keys.as_slice(), nested.get(), input, partitions)
        }
        Plan::Distinct { input } => {
            let input = input_of(alloc, input, partitions)?;
            distinct_over(alloc, input, partitions)
        }
        Plan::Union {
            made,
            left_vars,
            right_vars,
            left,
            right,
        } => {
            let left = input_of(alloc, left, partitions)?;
            let right = input_of(alloc, right, partitions)?;
            union_over(
                alloc,
                made.as_slice(),
                left_vars.as_slice(),
                right_vars.as_slice(),
                left,
                right,
            )
        }
        Plan::Aggregate { made, input } => {
            let input = input_of(alloc, input, partitions)?;
            aggregate_over(alloc, made.as_slice(), input, partitions)
        }
        Plan::Order { keys, input } => {
            let input = input_of(alloc, input, partitions)?;
            order_over(alloc, keys.as_slice(), input, partitions)
        }
        Plan::Limit { n, k, input } => {
            let input = input_of(alloc, input, partitions)?;
            limit_over(alloc, *n, *k, input, partitions)
        }
        Plan::Check { name, cond, input } => {
            let input = input_of(alloc, input, partitions)?;
            check_over(alloc, name, cond, input)
        }
        Plan::Result { vars, input } => {
            let input = input_of(alloc, input, partitions)?;
            result_over(alloc, vars.as_slice(), input, partitions)
        }
    }
}

/// The physical plan for a number of partitions. Memory is also wanting where the physical plan
/// would have 2^19 operators or more outside its nested plans.
#[tactic(auto, using(crate::proofs::PlacedLaws::placed_in, crate::proofs::PlacedAlone::stays))]
pub fn choose(alloc: Global, p: &Plan, partitions: u32) -> Result<Phys, NoMemory>
    requires fit { Fit p.now }
    requires some { 0 < partitions }
    requires few { partitions ≤ 16 }
    ensures chosen { IfOk result (λ ph. ph ≡ chosen partitions p.now) }
    ensures placed { IfOk result (λ ph. Placed ph partitions) }
    ensures stands { IfOk result (λ ph. Stands p.now ph partitions) }
    ensures alone { IfOk result (λ ph. partitions ≡ 1 → AllByRecursion (λ q. moves q ≡ false) (operators ph)) }
{
    let ph = plan_of(alloc, p, partitions)?;
    if room_left(ph.get(), TOO_MANY) == 0 {
        return Err(NoMemory);
    }
    Ok(ph.into_inner())
}
