//! Operators by their parts.

ghost use Rattle.std.specs.Prelude.{◌≡◌, MatchOption};
ghost use Rattle.al_plan.specs.declared.plan.Plan.{Plan};
ghost use Rattle.al_plan.specs.declared.plan.Plan.TheVariants as P;
ghost use Rattle.al_rule.specs.Rules.{Decides};
ghost use Rattle.al_rules_group.specs.Shapes as shape;

use al_plan::Plan;

/// The input of a `distinct`.
pub fn distinct_input(p: &Plan) -> Option<&Plan>
    ensures { MatchOption result ((x : Plan) → p.now ≡ P.Distinct x → ⊥) (λ x. p.now ≡ P.Distinct x.now) }
{
    match p {
        Plan::Distinct { input } => Some(input.get()),
        _ => None,
    }
}

pub fn is_distinct(p: &Plan) -> bool
    ensures { Decides result (shape.IsDistinct p.now) }
{
    match p {
        Plan::Distinct { .. } => true,
        _ => false,
    }
}

pub fn is_group(p: &Plan) -> bool
    ensures { Decides result (shape.IsGroup p.now) }
{
    match p {
        Plan::Group { .. } => true,
        _ => false,
    }
}

pub fn is_aggregate(p: &Plan) -> bool
    ensures { Decides result (shape.IsAggregate p.now) }
{
    match p {
        Plan::Aggregate { .. } => true,
        _ => false,
    }
}

/// The input of an `aggregate`.
pub fn aggregate_input(p: &Plan) -> Option<&Plan>
    ensures { MatchOption result ((x : Plan) → shape.IsAggregateOf p.now x → ⊥) (λ x. shape.IsAggregateOf p.now x.now) }
{
    match p {
        Plan::Aggregate { input, .. } => Some(input.get()),
        _ => None,
    }
}

/// The input of a `project`.
pub fn project_input(p: &Plan) -> Option<&Plan>
    ensures { MatchOption result ((x : Plan) → shape.IsProjectOf p.now x → ⊥) (λ x. shape.IsProjectOf p.now x.now) }
{
    match p {
        Plan::Project { input, .. } => Some(input.get()),
        _ => None,
    }
}

/// The nested plan and the input of a `group`.
#[derive(Drop)]
pub struct Grouping<'a> {
    pub nested: &'a Plan,
    pub input: &'a Plan,
}

pub fn group_parts(p: &Plan) -> Option<Grouping<'_>>
    ensures { MatchOption result ((n x : Plan) → shape.IsGroupOf p.now n x → ⊥) (λ g. shape.IsGroupOf p.now g.nested.now g.input.now) }
{
    match p {
        Plan::Group { nested, input, .. } => Some(Grouping {
            nested: nested.get(),
            input: input.get(),
        }),
        _ => None,
    }
}
