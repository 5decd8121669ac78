//! The rule that cuts the input of a group.

ghost use Rattle.al_rule.specs.declared.names.RuleName.TheVariants as called;
ghost use Rattle.std.specs.Prelude.{◌≡◌, ◌++◌, false, IfOk, MatchOption, map, nat_eq};
ghost use Rattle.std.specs.List.{list_any};
ghost use Rattle.std.specs.Cmp.Lexicographic.{pointwise};
ghost use Rattle.al_plan.specs.declared.plan.Plan.TheVariants as P;
ghost use Rattle.al_plan.specs.Allows.{is_among};
ghost use Rattle.al_plan.specs.Uses.{named};
ghost use Rattle.al_rules_prune.specs.Prunes as meaning;
ghost use Rattle.al_rules_prune.specs.Prunes.{IsWide, read_by, reads_items, used_by};
ghost use Rattle.al_rules_prune.specs.Reading as reading;
ghost use Rattle.al_rules_prune.specs.Matching.{IsNot, Rewritten};
ghost use Rattle.al_rules_prune.specs.Sound as sound;

use crate::parts::outcome;
use crate::wanted::{Wanted, any_call_reads, copied, is_in, is_wide, narrowed, orders_by, reads};
use al_plan::{Expr, Generator, Plan, Var};
use al_rule::{ApplyFault, Rule, RuleName};
use al_value::{List, NoMemory};
use std::alloc::Global;

/// Whether a distinct stands in a plan.
#[tactic(auto, using(crate::proofs::ReadingLaws::distinct_laws))]
fn has_distinct(p: &Plan) -> bool
    ensures { result ≡ reading.has_distinct p.now }
{
    match p {
        Plan::Scan { .. } => false,
        Plan::Empty => false,
        Plan::Nested => false,
        Plan::Assign { input, .. } => has_distinct(input.get()),
        Plan::Select { input, .. } => has_distinct(input.get()),
        Plan::Project { input, .. } => has_distinct(input.get()),
        Plan::Unnest { input, .. } => has_distinct(input.get()),
        Plan::Subplan { nested, input } => has_distinct(nested.get()) || has_distinct(input.get()),
        Plan::Join { left, right, .. } => has_distinct(left.get()) || has_distinct(right.get()),
        Plan::LeftJoin { left, right, .. } => has_distinct(left.get()) || has_distinct(right.get()),
        Plan::Group { nested, input, .. } => {
            has_distinct(nested.get()) || has_distinct(input.get())
        }
        Plan::Distinct { .. } => true,
        Plan::Union { left, right, .. } => has_distinct(left.get()) || has_distinct(right.get()),
        Plan::Aggregate { input, .. } => has_distinct(input.get()),
        Plan::Order { input, .. } => has_distinct(input.get()),
        Plan::Limit { input, .. } => has_distinct(input.get()),
        Plan::Check { input, .. } => has_distinct(input.get()),
        Plan::Result { input, .. } => has_distinct(input.get()),
    }
}

fn any_binding_reads(made: &[(Var, Expr)], v: &Var) -> bool
    ensures { result ≡ list_any (λ m. is_among (read_by m.1) v.now.name) made.now }
{
    made.iter().any(|m| reads(&m.1, v))
}

fn is_old(keys: &[(Var, Var)], v: &Var) -> bool
    ensures { result ≡ list_any (λ k. pointwise nat_eq k.1.name v.now.name) keys.now }
{
    keys.iter().any(|k| k.1.name == v.name)
}

fn generator_reads(items: &Generator, v: &Var) -> bool
    ensures { result ≡ reads_items items.now v.now.name }
{
    match items {
        Generator::Range(a, b) => reads(a, v) || reads(b, v),
        Generator::Split(t, s) => reads(t, v) || reads(s, v),
    }
}

/// Whether an operator of a plan uses a variable.
#[tactic(auto, using(crate::proofs::ReadingLaws::reading_laws, crate::proofs::WantedLaws::among_order, crate::proofs::WantedLaws::among_olds))]
fn plan_reads(p: &Plan, v: &Var) -> bool
    ensures { result ≡ is_among (map named (reading.reads p.now)) v.now.name }
{
    match p {
        Plan::Scan { .. } => false,
        Plan::Empty => false,
        Plan::Nested => false,
        Plan::Assign { made, input } => {
            plan_reads(input.get(), v) || any_binding_reads(made.as_slice(), v)
        }
        Plan::Select { cond, input } => plan_reads(input.get(), v) || reads(cond, v),
        Plan::Project { vars, input } => plan_reads(input.get(), v) || is_in(vars.as_slice(), v),
        Plan::Unnest { items, input, .. } => {
            plan_reads(input.get(), v) || generator_reads(items, v)
        }
        Plan::Subplan { nested, input } => {
            plan_reads(input.get(), v) || plan_reads(nested.get(), v)
        }
        Plan::Join { cond, left, right } => {
            plan_reads(left.get(), v) || (plan_reads(right.get(), v) || reads(cond, v))
        }
        Plan::LeftJoin { cond, left, right } => {
            plan_reads(left.get(), v) || (plan_reads(right.get(), v) || reads(cond, v))
        }
        Plan::Group {
            keys,
            nested,
            input,
        } => {
            plan_reads(input.get(), v)
                || (plan_reads(nested.get(), v) || is_old(keys.as_slice(), v))
        }
        Plan::Distinct { input } => plan_reads(input.get(), v),
        Plan::Union {
            left_vars,
            right_vars,
            left,
            right,
            ..
        } => {
            plan_reads(left.get(), v)
                || (plan_reads(right.get(), v)
                    || (is_in(left_vars.as_slice(), v) || is_in(right_vars.as_slice(), v)))
        }
        Plan::Aggregate { made, input } => {
            plan_reads(input.get(), v) || any_call_reads(made.as_slice(), v)
        }
        Plan::Order { keys, input } => {
            plan_reads(input.get(), v) || orders_by(keys.as_slice(), v)
        }
        Plan::Limit { input, .. } => plan_reads(input.get(), v),
        Plan::Check { cond, input, .. } => plan_reads(input.get(), v) || reads(cond, v),
        Plan::Result { vars, input } => plan_reads(input.get(), v) || is_in(vars.as_slice(), v),
    }
}

/// Those that a group's keys take and that its nested plan reads.
#[derive(Drop)]
struct UsedByGroup<'a> {
    keys: &'a [(Var, Var)],
    nested: &'a Plan,
}

impl<'a> Wanted for UsedByGroup<'a> {
    ghost vars_of = { λ self. map (λ k. k.1) self.keys.now ++ map named (reading.reads self.nested.now) };

    #[tactic(auto, using(crate::proofs::WantedLaws::among_both, crate::proofs::WantedLaws::among_olds))]
    fn has(&self, v: &Var) -> bool {
        is_old(self.keys, v) || plan_reads(self.nested, v)
    }
}

/// Cuts a group's input to the variables that its keys take and that its nested plan uses.
pub struct GroupProjectInput;

#[derive(Drop)]
struct Grouped<'a> {
    keys: &'a List<(Var, Var)>,
    nested: &'a Plan,
    input: &'a Plan,
}

/// The parts of a group whose input has more variables than it uses.
#[tactic(auto, using(crate::proofs::MatchLaws::other_group, crate::proofs::MatchLaws::distinct_group, crate::proofs::MatchLaws::narrow_group))]
fn wide_group(p: &Plan) -> Option<Grouped<'_>>
    ensures { MatchOption result (IsNot meaning.GroupProjectInput p.now) (λ s. (p.now ≡ P.Group s.keys.now s.nested.now s.input.now) × (reading.has_distinct s.nested.now ≡ false) × IsWide (map (λ k. k.1) s.keys.now ++ map named (reading.reads s.nested.now)) s.input.now) }
{
    match p {
        Plan::Group {
            keys,
            nested,
            input,
        } => {
            if has_distinct(nested.get()) {
                return None;
            }
            let wanted = UsedByGroup {
                keys: keys.as_slice(),
                nested: nested.get(),
            };
            if is_wide(&wanted, input.get()) {
                Some(Grouped {
                    keys,
                    nested: nested.get(),
                    input: input.get(),
                })
            } else {
                None
            }
        }
        _ => None,
    }
}

fn copy_pairs(alloc: Global, keys: &[(Var, Var)]) -> Result<List<(Var, Var)>, NoMemory>
    ensures { IfOk result (λ copies. copies ≡ keys.now) }
{
    let mut copies = List::new(alloc);
    for (new, old) in keys {
        copies.push((new.copy(alloc)?, old.copy(alloc)?))?;
    }
    Ok(copies)
}

#[tactic(auto, using(crate::proofs::MatchLaws::rewritten_group))]
fn cut_group(alloc: Global, p: &Plan) -> Result<Option<Plan>, NoMemory>
    ensures { IfOk result (Rewritten meaning.GroupProjectInput p.now) }
{
    let Some(found) = wide_group(p) else {
        return Ok(None);
    };
    let wanted = UsedByGroup {
        keys: found.keys.as_slice(),
        nested: found.nested,
    };
    let input = narrowed(alloc, &wanted, found.input)?;
    let keys = copy_pairs(alloc, found.keys.as_slice())?;
    let nested = copied(alloc, found.nested)?;
    Ok(Some(Plan::Group {
        keys,
        nested,
        input,
    }))
}

impl Rule for GroupProjectInput {
    ghost rewrites = { λ _. meaning.GroupProjectInput };

    ghost called = { λ _. called.GroupProjectInput };

    ghost sound = { λ _. sound.group_project_input };

    fn name(&self) -> RuleName {
        RuleName::GroupProjectInput
    }

    fn matches(&self, p: &Plan) -> bool {
        match wide_group(p) {
            Some(_) => true,
            None => false,
        }
    }

    fn apply(&self, alloc: Global, p: Plan) -> Result<Plan, ApplyFault> {
        let made = cut_group(alloc, &p);
        outcome(p, made)
    }
}
