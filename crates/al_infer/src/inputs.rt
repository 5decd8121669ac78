ghost use Rattle.std.specs.Prelude.{◌≡◌, ◌+◌, ◌-◌, ◌^◌, min};
ghost use Rattle.al_plan.specs.declared.plan.Plan.{out-Plan};
ghost use Rattle.al_plan.specs.Accept as spec;
ghost use Rattle.al_infer.specs.Inputs.{parts, parts_in};

use al_plan::Plan;

/// The plans in an operator.
pub enum Inputs<'a> {
    None,
    One(&'a Plan),
    /// A left and a right input.
    Two(&'a Plan, &'a Plan),
    /// A nested plan, and the input whose rows it is computed over.
    Nested(&'a Plan, &'a Plan),
}

#[tactic(auto, using(crate::proofs::Operators::operators))]
/// The inputs of an operator, and its nested plan.
pub fn inputs_of(op: &Plan) -> Inputs<'_>
    ensures { parts_in result ≡ parts (out-Plan op.now) }
{
    match op {
        Plan::Scan { .. } => Inputs::None,
        Plan::Empty => Inputs::None,
        Plan::Nested => Inputs::None,
        Plan::Assign { input, .. } => Inputs::One(input.get()),
        Plan::Select { input, .. } => Inputs::One(input.get()),
        Plan::Project { input, .. } => Inputs::One(input.get()),
        Plan::Unnest { input, .. } => Inputs::One(input.get()),
        Plan::Distinct { input } => Inputs::One(input.get()),
        Plan::Aggregate { input, .. } => Inputs::One(input.get()),
        Plan::Order { input, .. } => Inputs::One(input.get()),
        Plan::Limit { input, .. } => Inputs::One(input.get()),
        Plan::Check { input, .. } => Inputs::One(input.get()),
        Plan::Result { input, .. } => Inputs::One(input.get()),
        Plan::Join { left, right, .. } => Inputs::Two(left.get(), right.get()),
        Plan::LeftJoin { left, right, .. } => Inputs::Two(left.get(), right.get()),
        Plan::Union { left, right, .. } => Inputs::Two(left.get(), right.get()),
        Plan::Subplan { nested, input } => Inputs::Nested(nested.get(), input.get()),
        Plan::Group { nested, input, .. } => Inputs::Nested(nested.get(), input.get()),
    }
}

/// How many operators a plan has, or the greatest number where there are more.
pub fn size(plan: &Plan) -> usize
    ensures { result ≡ min (spec.size plan.now) (2 ^ 64 - 1) }
{
    match inputs_of(plan) {
        Inputs::None => 1,
        Inputs::One(input) => size(input).saturating_add(1),
        Inputs::Two(left, right) => size(left).saturating_add(size(right)).saturating_add(1),
        Inputs::Nested(nested, input) => size(nested).saturating_add(size(input)).saturating_add(1),
    }
}
