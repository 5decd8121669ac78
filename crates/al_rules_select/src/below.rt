//! Rules that move a select below the operator under it.

ghost use Rattle.al_rule.specs.declared.names.RuleName.TheVariants as called;
ghost use Rattle.al_rules_select.specs.Selects as meaning;
ghost use Rattle.al_rules_select.specs.Sound as sound;

use crate::lower::{lower, select_parts};
use al_plan::Plan;
use al_rule::{ApplyFault, Rule, RuleName, avoids_live, avoids_made, avoids_var, reads_live};
use std::alloc::Global;

/// Moves a select below an `assign` whose variables it doesn't read.
#[derive(Clone, Copy)]
pub struct SelectBelowAssign;

impl Rule for SelectBelowAssign {
    ghost rewrites = { λ _. meaning.SelectBelowAssign };

    ghost called = { λ _. called.SelectBelowAssign };

    ghost sound = { λ _. sound.below_assign };

    fn name(&self) -> RuleName {
        RuleName::SelectBelowAssign
    }

    #[tactic(auto, using(crate::proofs::SelectLaws::none_assign, crate::proofs::SelectLaws::other_assign, crate::proofs::SelectLaws::yes_assign))]
    fn matches(&self, p: &Plan) -> bool {
        let Some((e, over)) = select_parts(p) else {
            return false;
        };
        match over {
            Plan::Assign { made, .. } => avoids_made(e, made.as_slice()),
            _ => false,
        }
    }

    fn apply(&self, alloc: Global, p: Plan) -> Result<Plan, ApplyFault> {
        lower(alloc, p, 0)
    }
}

/// Moves a select below a `project`.
#[derive(Clone, Copy)]
pub struct SelectBelowProject;

impl Rule for SelectBelowProject {
    ghost rewrites = { λ _. meaning.SelectBelowProject };

    ghost called = { λ _. called.SelectBelowProject };

    ghost sound = { λ _. sound.below_project };

    fn name(&self) -> RuleName {
        RuleName::SelectBelowProject
    }

    #[tactic(auto, using(crate::proofs::SelectLaws::none_project, crate::proofs::SelectLaws::other_project, crate::proofs::SelectLaws::yes_project))]
    fn matches(&self, p: &Plan) -> bool {
        let Some((_, over)) = select_parts(p) else {
            return false;
        };
        match over {
            Plan::Project { .. } => true,
            _ => false,
        }
    }

    fn apply(&self, alloc: Global, p: Plan) -> Result<Plan, ApplyFault> {
        lower(alloc, p, 0)
    }
}

/// Moves a select below an `unnest` whose variable it doesn't read.
#[derive(Clone, Copy)]
pub struct SelectBelowUnnest;

impl Rule for SelectBelowUnnest {
    ghost rewrites = { λ _. meaning.SelectBelowUnnest };

    ghost called = { λ _. called.SelectBelowUnnest };

    ghost sound = { λ _. sound.below_unnest };

    fn name(&self) -> RuleName {
        RuleName::SelectBelowUnnest
    }

    #[tactic(auto, using(crate::proofs::SelectLaws::none_unnest, crate::proofs::SelectLaws::other_unnest, crate::proofs::SelectLaws::yes_unnest))]
    fn matches(&self, p: &Plan) -> bool {
        let Some((e, over)) = select_parts(p) else {
            return false;
        };
        match over {
            Plan::Unnest { var, .. } => avoids_var(e, var),
            _ => false,
        }
    }

    fn apply(&self, alloc: Global, p: Plan) -> Result<Plan, ApplyFault> {
        lower(alloc, p, 0)
    }
}

/// Moves a select below a `subplan` whose variables it doesn't read.
#[derive(Clone, Copy)]
pub struct SelectBelowSubplan;

impl Rule for SelectBelowSubplan {
    ghost rewrites = { λ _. meaning.SelectBelowSubplan };

    ghost called = { λ _. called.SelectBelowSubplan };

    ghost sound = { λ _. sound.below_subplan };

    fn name(&self) -> RuleName {
        RuleName::SelectBelowSubplan
    }

    #[tactic(auto, using(crate::proofs::SelectLaws::none_subplan, crate::proofs::SelectLaws::other_subplan, crate::proofs::SelectLaws::yes_subplan))]
    fn matches(&self, p: &Plan) -> bool {
        let Some((e, over)) = select_parts(p) else {
            return false;
        };
        match over {
            Plan::Subplan { nested, .. } => avoids_live(e, nested.get()),
            _ => false,
        }
    }

    fn apply(&self, alloc: Global, p: Plan) -> Result<Plan, ApplyFault> {
        lower(alloc, p, 1)
    }
}

/// Moves a select below an `order`.
#[derive(Clone, Copy)]
pub struct SelectBelowOrder;

impl Rule for SelectBelowOrder {
    ghost rewrites = { λ _. meaning.SelectBelowOrder };

    ghost called = { λ _. called.SelectBelowOrder };

    ghost sound = { λ _. sound.below_order };

    fn name(&self) -> RuleName {
        RuleName::SelectBelowOrder
    }

    #[tactic(auto, using(crate::proofs::SelectLaws::none_order, crate::proofs::SelectLaws::other_order, crate::proofs::SelectLaws::yes_order))]
    fn matches(&self, p: &Plan) -> bool {
        let Some((_, over)) = select_parts(p) else {
            return false;
        };
        match over {
            Plan::Order { .. } => true,
            _ => false,
        }
    }

    fn apply(&self, alloc: Global, p: Plan) -> Result<Plan, ApplyFault> {
        lower(alloc, p, 0)
    }
}

/// Moves a select below a `distinct`.
#[derive(Clone, Copy)]
pub struct SelectBelowDistinct;

impl Rule for SelectBelowDistinct {
    ghost rewrites = { λ _. meaning.SelectBelowDistinct };

    ghost called = { λ _. called.SelectBelowDistinct };

    ghost sound = { λ _. sound.below_distinct };

    fn name(&self) -> RuleName {
        RuleName::SelectBelowDistinct
    }

    #[tactic(auto, using(crate::proofs::SelectLaws::none_distinct, crate::proofs::SelectLaws::other_distinct, crate::proofs::SelectLaws::yes_distinct))]
    fn matches(&self, p: &Plan) -> bool {
        let Some((_, over)) = select_parts(p) else {
            return false;
        };
        match over {
            Plan::Distinct { .. } => true,
            _ => false,
        }
    }

    fn apply(&self, alloc: Global, p: Plan) -> Result<Plan, ApplyFault> {
        lower(alloc, p, 0)
    }
}

/// Moves a select into the left input of a join, where it reads that input alone.
#[derive(Clone, Copy)]
pub struct SelectBelowJoinLeft;

impl Rule for SelectBelowJoinLeft {
    ghost rewrites = { λ _. meaning.SelectBelowJoinLeft };

    ghost called = { λ _. called.SelectBelowJoinLeft };

    ghost sound = { λ _. sound.below_join_left };

    fn name(&self) -> RuleName {
        RuleName::SelectBelowJoinLeft
    }

    #[tactic(auto, using(crate::proofs::SelectLaws::none_join_left, crate::proofs::SelectLaws::other_join_left, crate::proofs::SelectLaws::yes_join_left))]
    fn matches(&self, p: &Plan) -> bool {
        let Some((e, over)) = select_parts(p) else {
            return false;
        };
        match over {
            Plan::Join { left, .. } => reads_live(e, left.get()),
            _ => false,
        }
    }

    fn apply(&self, alloc: Global, p: Plan) -> Result<Plan, ApplyFault> {
        lower(alloc, p, 0)
    }
}

/// Moves a select into the right input of a join, where it reads that input alone.
#[derive(Clone, Copy)]
pub struct SelectBelowJoinRight;

impl Rule for SelectBelowJoinRight {
    ghost rewrites = { λ _. meaning.SelectBelowJoinRight };

    ghost called = { λ _. called.SelectBelowJoinRight };

    ghost sound = { λ _. sound.below_join_right };

    fn name(&self) -> RuleName {
        RuleName::SelectBelowJoinRight
    }

    #[tactic(auto, using(crate::proofs::SelectLaws::none_join_right, crate::proofs::SelectLaws::other_join_right, crate::proofs::SelectLaws::yes_join_right))]
    fn matches(&self, p: &Plan) -> bool {
        let Some((e, over)) = select_parts(p) else {
            return false;
        };
        match over {
            Plan::Join { right, .. } => reads_live(e, right.get()),
            _ => false,
        }
    }

    fn apply(&self, alloc: Global, p: Plan) -> Result<Plan, ApplyFault> {
        lower(alloc, p, 1)
    }
}

/// Moves a select into the left input of a left join, where it reads that input alone.
#[derive(Clone, Copy)]
pub struct SelectBelowLeftJoin;

impl Rule for SelectBelowLeftJoin {
    ghost rewrites = { λ _. meaning.SelectBelowLeftJoin };

    ghost called = { λ _. called.SelectBelowLeftJoin };

    ghost sound = { λ _. sound.below_left_join };

    fn name(&self) -> RuleName {
        RuleName::SelectBelowLeftJoin
    }

    #[tactic(auto, using(crate::proofs::SelectLaws::none_left_join, crate::proofs::SelectLaws::other_left_join, crate::proofs::SelectLaws::yes_left_join))]
    fn matches(&self, p: &Plan) -> bool {
        let Some((e, over)) = select_parts(p) else {
            return false;
        };
        match over {
            Plan::LeftJoin { left, .. } => reads_live(e, left.get()),
            _ => false,
        }
    }

    fn apply(&self, alloc: Global, p: Plan) -> Result<Plan, ApplyFault> {
        // Never the right one: a left row whose pairs it dropped would come alone.
        let left = 0;
        lower(alloc, p, left)
    }
}
