//! What a rule is, and what a set of rules is.

ghost use Rattle.std.specs.Prelude.{◌≡◌, ◌<◌, ℕ, List, IfOk, IfErr};
ghost use Rattle.al_plan.specs.declared.plan.Plan.{Plan};
ghost use Rattle.al_plan.specs.Refines.{Fit, Replaces};
ghost use Rattle.al_rule.specs.declared.names.RuleName.{RuleName};
ghost use Rattle.al_rule.specs.Places.{Rewriting};
ghost use Rattle.al_rule.specs.Rules.{Rules, Matches, Decides, HandsBack, IsLawful};

use crate::names::{RuleName, SetName};
use al_plan::Plan;
use std::alloc::Global;

/// Why a rule isn't applied, or driving ends early: memory ran out. The plan is handed back: of a
/// rule the one that was given, of a driver the one that was reached.
#[derive(Debug, PartialEq, Drop)]
pub enum ApplyFault {
    NoMemory(Plan),
}

/// A rule that rewrites a plan at its root.
pub trait Rule {
    /// The plan on the left may be rewritten to the one on the right.
    ghost rewrites: { Self → Rewriting };

    /// The name by which traces call it.
    ghost called: { Self → RuleName };

    fn name(&self) -> RuleName
        ensures { result ≡ called self.now };

    /// Whether the plan is one that the rule rewrites.
    fn matches(&self, p: &Plan) -> bool
        ensures { Decides result (Matches (rewrites self.now) p.now) };

    /// The plan rewritten. One that doesn't match may be given back as it is.
    fn apply(&self, alloc: Global, p: Plan) -> Result<Plan, ApplyFault>
        ensures applied { Matches (rewrites self.now) p → IfOk result (λ q. rewrites self.now p q) }
        ensures refines { Matches (rewrites self.now) p → Fit p → IfOk result (λ q. Replaces q p) }
        ensures handed_back { HandsBack p result };

    /// What it gives may stand in the place of what it was given.
    ghost sound: { (rule : Self) (p q : Plan) → Fit p → rewrites rule p q → Replaces q p };
}

/// A set of rules, in the order in which they are tried.
pub trait RuleSet {
    /// Its name, its rules' names, and what each rewrites.
    ghost rules_of: { Self → Rules };

    /// What falls, compared from the left, where one of its rules is applied at any place.
    ghost measure: { Self → Plan → List ℕ };

    /// One number that falls where one of its rules is applied at any place.
    ghost weight: { Self → Plan → ℕ };

    fn name(&self) -> SetName
        ensures { result ≡ (rules_of self.now).set };

    /// The number of its rules. They are numbered from 0.
    fn rules(&self) -> usize
        ensures { result ≡ (rules_of self.now).count };

    fn rule(&self, k: usize) -> RuleName
        requires { k < (rules_of self.now).count }
        ensures { result ≡ (rules_of self.now).name_of k };

    /// Whether the plan is one that rule `k` rewrites.
    fn matches(&self, k: usize, p: &Plan) -> bool
        requires { k < (rules_of self.now).count }
        ensures { Decides result (Matches ((rules_of self.now).rewrites k) p.now) };

    /// The plan rewritten by rule `k`. One that doesn't match may be given back as it is.
    fn apply(&self, alloc: Global, k: usize, p: Plan) -> Result<Plan, ApplyFault>
        requires { k < (rules_of self.now).count }
        ensures applied { Matches ((rules_of self.now).rewrites k) p → IfOk result (λ q. (rules_of self.now).rewrites k p q) }
        ensures refines { Matches ((rules_of self.now).rewrites k) p → Fit p → IfOk result (λ q. Replaces q p) }
        ensures handed_back { HandsBack p result };

    /// Its rules refine, and its measures fall.
    ghost lawful: { (set : Self) → IsLawful (rules_of set) (measure set) (weight set) };
}
