ghost use Rattle.std.specs.Prelude.{◌≡◌};
ghost use Rattle.hy_job.specs.Nested as spec;

use hy_job::NestedPlan;

/// Whether only assign, select, project and unnest stand over `nested`.
#[tactic(auto, unfolding(crate::specs::Opens::nested_shape, crate::specs::Opens::nested_hidden, crate::specs::Opens::row_hidden))]
pub fn is_chain(plan: &NestedPlan) -> bool
    ensures { result ≡ spec.is_chain plan.now }
{
    match plan {
        NestedPlan::Nested => true,
        NestedPlan::Assign { input, .. } => is_chain(input.get()),
        NestedPlan::Select { input, .. } => is_chain(input.get()),
        NestedPlan::Project { input, .. } => is_chain(input.get()),
        NestedPlan::Unnest { input, .. } => is_chain(input.get()),
        NestedPlan::Order { .. }
        | NestedPlan::Distinct { .. }
        | NestedPlan::Limit { .. }
        | NestedPlan::Aggregate { .. } => false,
    }
}

/// Whether the plan is an aggregate whose input works on each row alone.
#[tactic(auto, unfolding(crate::specs::Opens::nested_shape, crate::specs::Opens::nested_hidden, crate::specs::Opens::row_hidden))]
pub fn row_wise(plan: &NestedPlan) -> bool
    ensures { result ≡ spec.is_row_wise plan.now }
{
    match plan {
        NestedPlan::Aggregate { input, .. } => is_chain(input.get()),
        _ => false,
    }
}
