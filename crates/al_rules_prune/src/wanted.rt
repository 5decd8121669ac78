//! Which variables are wanted of a plan, told without memory.

ghost use Rattle.std.specs.Prelude.{◌≡◌, ◌++◌, [], IfOk, List, filter, map, nat_eq};
ghost use Rattle.al_plan.specs.declared.expr.Var.{Var};
ghost use Rattle.std.specs.List.{flat_map, list_any};
ghost use Rattle.std.specs.Cmp.Lexicographic.{pointwise};
ghost use Rattle.al_plan.specs.Names.{agg_exprs};
ghost use Rattle.al_plan.specs.Allows.{is_among, live};
ghost use Rattle.al_rules_prune.specs.Prunes as meaning;
ghost use Rattle.al_rules_prune.specs.Prunes.{all_among, read_by};

use al_plan::{AggCall, Expr, OrderKey, Plan, Var, live};
use al_rule::avoids_var;
use al_value::{Boxed, List, NoMemory};
use std::alloc::Global;

pub fn is_in(vars: &[Var], v: &Var) -> bool
    ensures { result ≡ is_among vars.now v.now.name }
{
    vars.iter().any(|other| other.name == v.name)
}

/// Whether an expression reads a variable.
#[tactic(auto, using(crate::proofs::WantedLaws::decides_read))]
pub fn reads(e: &Expr, v: &Var) -> bool
    ensures { result ≡ is_among (read_by e.now) v.now.name }
{
    !avoids_var(e, v)
}

/// Variables that are wanted of a plan.
pub trait Wanted {
    ghost vars_of: { Self → List Var };

    fn has(&self, v: &Var) -> bool
        ensures { result ≡ is_among (vars_of self.now) v.now.name };
}

/// Those of a list.
#[derive(Drop)]
pub struct Listed<'a> {
    pub vars: &'a [Var],
}

impl<'a> Wanted for Listed<'a> {
    ghost vars_of = { λ self. self.vars.now };

    fn has(&self, v: &Var) -> bool {
        is_in(self.vars, v)
    }
}

/// Those of a list, and those that an expression reads.
#[derive(Drop)]
pub struct ListedOrRead<'a> {
    pub vars: &'a [Var],
    pub cond: &'a Expr,
}

impl<'a> Wanted for ListedOrRead<'a> {
    ghost vars_of = { λ self. self.vars.now ++ read_by self.cond.now };

    #[tactic(auto, using(crate::proofs::WantedLaws::among_both))]
    fn has(&self, v: &Var) -> bool {
        is_in(self.vars, v) || reads(self.cond, v)
    }
}

fn all_in<W: Wanted>(wanted: &W, vars: &[Var]) -> bool
    ensures { result ≡ all_among (W.vars_of wanted.now) vars.now }
{
    vars.iter().all(|v| wanted.has(v))
}

/// Whether all the variables that are made are wanted.
pub fn all_made<W: Wanted, T>(wanted: &W, made: &[(Var, T)]) -> bool
    ensures { result ≡ all_among (W.vars_of wanted.now) (map (λ m. m.0) made.now) }
{
    for m in made {
        if !wanted.has(&m.0) {
            return false;
        }
    }
    true
}

/// Whether all live variables of a plan are wanted; `outer` says so of those at `nested`.
#[tactic(auto, using(crate::proofs::WantedLaws::wanted_laws))]
fn all_wanted<W: Wanted>(wanted: &W, p: &Plan, outer: bool) -> bool
    ensures { (given : List Var) → all_among (W.vars_of wanted.now) given ≡ outer → result ≡ all_among (W.vars_of wanted.now) (live p.now given) }
{
    match p {
        Plan::Scan { vars, .. } => all_in(wanted, vars.as_slice()),
        Plan::Empty => true,
        Plan::Nested => outer,
        Plan::Assign { made, input } => {
            all_wanted(wanted, input.get(), outer) && all_made(wanted, made.as_slice())
        }
        Plan::Select { input, .. } => all_wanted(wanted, input.get(), outer),
        Plan::Project { vars, .. } => all_in(wanted, vars.as_slice()),
        Plan::Unnest { var, input, .. } => {
            all_wanted(wanted, input.get(), outer) && wanted.has(var)
        }
        Plan::Subplan { nested, input } => {
            let below = all_wanted(wanted, input.get(), outer);
            below && all_wanted(wanted, nested.get(), below)
        }
        Plan::Join { left, right, .. } => {
            all_wanted(wanted, left.get(), outer) && all_wanted(wanted, right.get(), outer)
        }
        Plan::LeftJoin { left, right, .. } => {
            all_wanted(wanted, left.get(), outer) && all_wanted(wanted, right.get(), outer)
        }
        Plan::Group {
            keys,
            nested,
            input,
        } => {
            let below = all_wanted(wanted, input.get(), outer);
            all_made(wanted, keys.as_slice()) && all_wanted(wanted, nested.get(), below)
        }
        Plan::Distinct { input } => all_wanted(wanted, input.get(), outer),
        Plan::Union { made, .. } => all_in(wanted, made.as_slice()),
        Plan::Aggregate { made, .. } => all_made(wanted, made.as_slice()),
        Plan::Order { input, .. } => all_wanted(wanted, input.get(), outer),
        Plan::Limit { input, .. } => all_wanted(wanted, input.get(), outer),
        Plan::Check { input, .. } => all_wanted(wanted, input.get(), outer),
        Plan::Result { vars, .. } => all_in(wanted, vars.as_slice()),
    }
}

/// Whether a plan has a live variable that is not wanted.
pub fn is_wide<W: Wanted>(wanted: &W, p: &Plan) -> bool
    ensures { result ≡ meaning.wide (W.vars_of wanted.now) p.now }
{
    !all_wanted(wanted, p, true)
}

/// A copy of a plan.
pub fn copied(alloc: Global, p: &Plan) -> Result<Boxed<Plan>, NoMemory>
    ensures { IfOk result (λ b. b ≡ p.now) }
{
    Boxed::new(alloc, p.copy(alloc)?)
}

/// The wanted ones of some variables.
fn kept<W: Wanted>(alloc: Global, wanted: &W, vars: &[Var]) -> Result<List<Var>, NoMemory>
    ensures { IfOk result (λ some. some ≡ filter (λ v. is_among (W.vars_of wanted.now) v.name) vars.now) }
{
    let mut some = List::new(alloc);
    for v in vars {
        if wanted.has(v) {
            some.push(v.copy(alloc)?)?;
        }
    }
    Ok(some)
}

/// A plan cut to what is wanted of it.
pub fn narrowed<W: Wanted>(alloc: Global, wanted: &W, p: &Plan) -> Result<Boxed<Plan>, NoMemory>
    ensures { IfOk result (λ b. b ≡ meaning.narrowed (W.vars_of wanted.now) p.now) }
{
    let all = live(alloc, p)?;
    let vars = kept(alloc, wanted, all.as_slice())?;
    let input = copied(alloc, p)?;
    Boxed::new(alloc, Plan::Project { vars, input })
}

/// The variables of a project, and a box for it.
#[derive(Drop)]
pub struct Cut {
    pub vars: List<Var>,
    pub spare: Boxed<Plan>,
}

/// What a plan is cut to, of which this is wanted, and a box for the project.
pub fn cut_to<W: Wanted>(alloc: Global, wanted: &W, p: &Plan) -> Result<Cut, NoMemory>
    ensures { IfOk result (λ c. c.vars ≡ meaning.kept (W.vars_of wanted.now) p.now) }
{
    let all = live(alloc, p)?;
    let vars = kept(alloc, wanted, all.as_slice())?;
    let spare = Boxed::new(alloc, Plan::Empty)?;
    Ok(Cut { vars, spare })
}

/// Those of a list, and those that keys order by.
#[derive(Drop)]
pub struct ListedOrKeys<'a> {
    pub vars: &'a [Var],
    pub keys: &'a [OrderKey],
}

pub fn orders_by(keys: &[OrderKey], v: &Var) -> bool
    ensures { result ≡ list_any (λ k. pointwise nat_eq k.var.name v.now.name) keys.now }
{
    keys.iter().any(|k| k.var.name == v.name)
}

impl<'a> Wanted for ListedOrKeys<'a> {
    ghost vars_of = { λ self. self.vars.now ++ map (λ k. k.var) self.keys.now };

    #[tactic(auto, using(crate::proofs::WantedLaws::among_both, crate::proofs::WantedLaws::among_order))]
    fn has(&self, v: &Var) -> bool {
        is_in(self.vars, v) || orders_by(self.keys, v)
    }
}

#[tactic(auto, using(crate::proofs::WantedLaws::one_read))]
fn call_reads(call: &AggCall, v: &Var) -> bool
    ensures { result ≡ is_among (flat_map read_by (agg_exprs call.now)) v.now.name }
{
    match call {
        AggCall::CountAll => false,
        AggCall::Count(e) => reads(e, v),
        AggCall::Sum(e) => reads(e, v),
        AggCall::Min(e) => reads(e, v),
        AggCall::Max(e) => reads(e, v),
    }
}

/// Those that calls of aggregates read.
#[derive(Drop)]
pub struct ReadByCalls<'a> {
    pub made: &'a [(Var, AggCall)],
}

pub fn any_call_reads(made: &[(Var, AggCall)], v: &Var) -> bool
    ensures { result ≡ is_among (meaning.read_by_aggregates made.now) v.now.name }
{
    for m in made {
        if call_reads(&m.1, v) {
            return true;
        }
    }
    false
}

impl<'a> Wanted for ReadByCalls<'a> {
    ghost vars_of = { λ self. meaning.read_by_aggregates self.made.now };

    fn has(&self, v: &Var) -> bool {
        any_call_reads(self.made, v)
    }
}
