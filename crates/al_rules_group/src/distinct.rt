//! Plans that have a distinct.

ghost use Rattle.std.specs.Prelude.{◌≡◌};
ghost use Rattle.al_rules_group.specs.GroupRules as meaning;

use al_plan::Plan;

/// Whether a plan has a distinct, in its nested plans too.
#[tactic(auto, using(crate::proofs::DistinctLaws::distinct_laws))]
pub fn has_distinct(p: &Plan) -> bool
    ensures { result ≡ meaning.has_distinct p.now }
{
    match p {
        Plan::Scan { .. } => false,
        Plan::Empty => false,
        Plan::Nested => false,
        Plan::Assign { input, .. } => has_distinct(input.get()),
        Plan::Select { input, .. } => has_distinct(input.get()),
        Plan::Project { input, .. } => has_distinct(input.get()),
        Plan::Unnest { input, .. } => has_distinct(input.get()),
        Plan::Subplan { nested, input } => has_distinct(nested.get()) || has_distinct(input.get()),
        Plan::Join { left, right, .. } => has_distinct(left.get()) || has_distinct(right.get()),
        Plan::LeftJoin { left, right, .. } => has_distinct(left.get()) || has_distinct(right.get()),
        Plan::Group { nested, input, .. } => has_distinct(nested.get())
            || has_distinct(input.get()),
        Plan::Distinct { .. } => true,
        Plan::Union { left, right, .. } => has_distinct(left.get()) || has_distinct(right.get()),
        Plan::Aggregate { input, .. } => has_distinct(input.get()),
        Plan::Order { input, .. } => has_distinct(input.get()),
        Plan::Limit { input, .. } => has_distinct(input.get()),
        Plan::Check { input, .. } => has_distinct(input.get()),
        Plan::Result { input, .. } => has_distinct(input.get()),
    }
}
