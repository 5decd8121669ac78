//! Copies of plans and of their parts.

ghost use Rattle.std.specs.Prelude.{◌≡◌, IfOk};
ghost use Rattle.al_plan.specs.declared.plan.Plan.TheVariants as P;

use crate::expr::{Expr, Var};
use crate::plan::{AggCall, Generator, OrderKey, Plan};
use al_value::{Boxed, List, Name, NoMemory, Text};
use std::alloc::Global;

pub fn copy_vars(alloc: Global, vars: &[Var]) -> Result<List<Var>, NoMemory>
    ensures { IfOk result (λ copies. copies ≡ vars.now) }
{
    let mut copies = List::new(alloc);
    for v in vars {
        copies.push(v.copy(alloc)?)?;
    }
    Ok(copies)
}

fn copy_assigned(alloc: Global, made: &[(Var, Expr)]) -> Result<List<(Var, Expr)>, NoMemory>
    ensures { IfOk result (λ copies. copies ≡ made.now) }
{
    let mut copies = List::new(alloc);
    for (v, e) in made {
        copies.push((v.copy(alloc)?, e.copy(alloc)?))?;
    }
    Ok(copies)
}

fn copy_keys(alloc: Global, keys: &[(Var, Var)]) -> Result<List<(Var, Var)>, NoMemory>
    ensures { IfOk result (λ copies. copies ≡ keys.now) }
{
    let mut copies = List::new(alloc);
    for (new, old) in keys {
        copies.push((new.copy(alloc)?, old.copy(alloc)?))?;
    }
    Ok(copies)
}

impl AggCall {
    pub fn copy(&self, alloc: Global) -> Result<AggCall, NoMemory>
        ensures { IfOk result (λ call. call ≡ self.now) }
    {
        match self {
            AggCall::CountAll => Ok(AggCall::CountAll),
            AggCall::Count(e) => Ok(AggCall::Count(e.copy(alloc)?)),
            AggCall::Sum(e) => Ok(AggCall::Sum(e.copy(alloc)?)),
            AggCall::Min(e) => Ok(AggCall::Min(e.copy(alloc)?)),
            AggCall::Max(e) => Ok(AggCall::Max(e.copy(alloc)?)),
        }
    }
}

fn copy_aggregated(alloc: Global, made: &[(Var, AggCall)]) -> Result<List<(Var, AggCall)>, NoMemory>
    ensures { IfOk result (λ copies. copies ≡ made.now) }
{
    let mut copies = List::new(alloc);
    for (v, call) in made {
        copies.push((v.copy(alloc)?, call.copy(alloc)?))?;
    }
    Ok(copies)
}

impl Generator {
    pub fn copy(&self, alloc: Global) -> Result<Generator, NoMemory>
        ensures { IfOk result (λ items. items ≡ self.now) }
    {
        match self {
            Generator::Range(a, b) => Ok(Generator::Range(a.copy(alloc)?, b.copy(alloc)?)),
            Generator::Split(t, s) => Ok(Generator::Split(t.copy(alloc)?, s.copy(alloc)?)),
        }
    }
}

impl OrderKey {
    pub fn copy(&self, alloc: Global) -> Result<OrderKey, NoMemory>
        ensures { IfOk result (λ key. key ≡ self.now) }
    {
        let var = self.var.copy(alloc)?;
        Ok(OrderKey {
            var,
            descending: self.descending,
        })
    }
}

fn copy_order(alloc: Global, keys: &[OrderKey]) -> Result<List<OrderKey>, NoMemory>
    ensures { IfOk result (λ copies. copies ≡ keys.now) }
{
    let mut copies = List::new(alloc);
    for key in keys {
        copies.push(key.copy(alloc)?)?;
    }
    Ok(copies)
}

fn scan_of(alloc: Global, set: &Name, vars: &[Var]) -> Result<Boxed<Plan>, NoMemory>
    ensures { IfOk result (λ c. c ≡ P.Scan set.now vars.now) }
{
    let set = set.copy(alloc)?;
    let vars = copy_vars(alloc, vars)?;
    Boxed::new(alloc, Plan::Scan { set, vars })
}

fn assign_of(
    alloc: Global,
    made: &[(Var, Expr)],
    input: Boxed<Plan>,
) -> Result<Boxed<Plan>, NoMemory>
    ensures { IfOk result (λ c. c ≡ P.Assign made.now input) }
{
    let made = copy_assigned(alloc, made)?;
    Boxed::new(alloc, Plan::Assign { made, input })
}

fn select_of(alloc: Global, cond: &Expr, input: Boxed<Plan>) -> Result<Boxed<Plan>, NoMemory>
    ensures { IfOk result (λ c. c ≡ P.Select cond.now input) }
{
    let cond = cond.copy(alloc)?;
    Boxed::new(alloc, Plan::Select { cond, input })
}

fn project_of(alloc: Global, vars: &[Var], input: Boxed<Plan>) -> Result<Boxed<Plan>, NoMemory>
    ensures { IfOk result (λ c. c ≡ P.Project vars.now input) }
{
    let vars = copy_vars(alloc, vars)?;
    Boxed::new(alloc, Plan::Project { vars, input })
}

fn unnest_of(
    alloc: Global,
    var: &Var,
    items: &Generator,
    input: Boxed<Plan>,
) -> Result<Boxed<Plan>, NoMemory>
    ensures { IfOk result (λ c. c ≡ P.Unnest var.now items.now input) }
{
    let var = var.copy(alloc)?;
    let items = items.copy(alloc)?;
    Boxed::new(alloc, Plan::Unnest { var, items, input })
}

fn join_of(
    alloc: Global,
    cond: &Expr,
    left: Boxed<Plan>,
    right: Boxed<Plan>,
) -> Result<Boxed<Plan>, NoMemory>
    ensures { IfOk result (λ c. c ≡ P.Join cond.now left right) }
{
    let cond = cond.copy(alloc)?;
    Boxed::new(alloc, Plan::Join { cond, left, right })
}

fn left_join_of(
    alloc: Global,
    cond: &Expr,
    left: Boxed<Plan>,
    right: Boxed<Plan>,
) -> Result<Boxed<Plan>, NoMemory>
    ensures { IfOk result (λ c. c ≡ P.LeftJoin cond.now left right) }
{
    let cond = cond.copy(alloc)?;
    Boxed::new(alloc, Plan::LeftJoin { cond, left, right })
}

fn group_of(
    alloc: Global,
    keys: &[(Var, Var)],
    nested: Boxed<Plan>,
    input: Boxed<Plan>,
) -> Result<Boxed<Plan>, NoMemory>
    ensures { IfOk result (λ c. c ≡ P.Group keys.now nested input) }
{
    let keys = copy_keys(alloc, keys)?;
    Boxed::new(
        alloc,
        Plan::Group {
            keys,
            nested,
            input,
        },
    )
}

fn union_of(
    alloc: Global,
    made: &[Var],
    left_vars: &[Var],
    right_vars: &[Var],
    left: Boxed<Plan>,
    right: Boxed<Plan>,
) -> Result<Boxed<Plan>, NoMemory>
    ensures { IfOk result (λ c. c ≡ P.Union made.now left_vars.now right_vars.now left right) }
{
    let made = copy_vars(alloc, made)?;
    let left_vars = copy_vars(alloc, left_vars)?;
    let right_vars = copy_vars(alloc, right_vars)?;
    Boxed::new(
        alloc,
        Plan::Union {
            made,
            left_vars,
            right_vars,
            left,
            right,
        },
    )
}

fn aggregate_of(
    alloc: Global,
    made: &[(Var, AggCall)],
    input: Boxed<Plan>,
) -> Result<Boxed<Plan>, NoMemory>
    ensures { IfOk result (λ c. c ≡ P.Aggregate made.now input) }
{
    let made = copy_aggregated(alloc, made)?;
    Boxed::new(alloc, Plan::Aggregate { made, input })
}

fn order_of(alloc: Global, keys: &[OrderKey], input: Boxed<Plan>) -> Result<Boxed<Plan>, NoMemory>
    ensures { IfOk result (λ c. c ≡ P.Order keys.now input) }
{
    let keys = copy_order(alloc, keys)?;
    Boxed::new(alloc, Plan::Order { keys, input })
}

fn check_of(
    alloc: Global,
    name: &Text,
    cond: &Expr,
    input: Boxed<Plan>,
) -> Result<Boxed<Plan>, NoMemory>
    ensures { IfOk result (λ c. c ≡ P.Check name.now cond.now input) }
{
    let name = name.copy(alloc)?;
    let cond = cond.copy(alloc)?;
    Boxed::new(alloc, Plan::Check { name, cond, input })
}

fn result_of(alloc: Global, vars: &[Var], input: Boxed<Plan>) -> Result<Boxed<Plan>, NoMemory>
    ensures { IfOk result (λ c. c ≡ P.Result vars.now input) }
{
    let vars = copy_vars(alloc, vars)?;
    Boxed::new(alloc, Plan::Result { vars, input })
}

/// In a box, since a plan that an error drops is proved variant by variant.
fn copy_plan(alloc: Global, p: &Plan) -> Result<Boxed<Plan>, NoMemory>
    ensures { IfOk result (λ c. c ≡ p.now) }
{
    match p {
        Plan::Scan { set, vars } => scan_of(alloc, set, vars.as_slice()),
        Plan::Empty => Boxed::new(alloc, Plan::Empty),
        Plan::Nested => Boxed::new(alloc, Plan::Nested),
        Plan::Assign { made, input } => {
            let input = copy_plan(alloc, input.get())?;
            assign_of(alloc, made.as_slice(), input)
        }
        Plan::Select { cond, input } => {
            let input = copy_plan(alloc, input.get())?;
            select_of(alloc, cond, input)
        }
        Plan::Project { vars, input } => {
            let input = copy_plan(alloc, input.get())?;
            project_of(alloc, vars.as_slice(), input)
        }
        Plan::Unnest { var, items, input } => {
            let input = copy_plan(alloc, input.get())?;
            unnest_of(alloc, var, items, input)
        }
        Plan::Subplan { nested, input } => {
            let nested = copy_plan(alloc, nested.get())?;
            let input = copy_plan(alloc, input.get())?;
            Boxed::new(alloc, Plan::Subplan { nested, input })
        }
        Plan::Join { cond, left, right } => {
            let left = copy_plan(alloc, left.get())?;
            let right = copy_plan(alloc, right.get())?;
            join_of(alloc, cond, left, right)
        }
        Plan::LeftJoin { cond, left, right } => {
            let left = copy_plan(alloc, left.get())?;
            let right = copy_plan(alloc, right.get())?;
            left_join_of(alloc, cond, left, right)
        }
        Plan::Group {
            keys,
            nested,
            input,
        } => {
            let nested = copy_plan(alloc, nested.get())?;
            let input = copy_plan(alloc, input.get())?;
            group_of(alloc, keys.as_slice(), nested, input)
        }
        Plan::Distinct { input } => {
            let input = copy_plan(alloc, input.get())?;
            Boxed::new(alloc, Plan::Distinct { input })
        }
        Plan::Union {
            made,
            left_vars,
            right_vars,
            left,
            right,
        } => {
            let left = copy_plan(alloc, left.get())?;
            let right = copy_plan(alloc, right.get())?;
            union_of(
                alloc,
                made.as_slice(),
                left_vars.as_slice(),
                right_vars.as_slice(),
                left,
                right,
            )
        }
        Plan::Aggregate { made, input } => {
            let input = copy_plan(alloc, input.get())?;
            aggregate_of(alloc, made.as_slice(), input)
        }
        Plan::Order { keys, input } => {
            let input = copy_plan(alloc, input.get())?;
            order_of(alloc, keys.as_slice(), input)
        }
        Plan::Limit { n, k, input } => {
            let input = copy_plan(alloc, input.get())?;
            Boxed::new(
                alloc,
                Plan::Limit {
                    n: *n,
                    k: *k,
                    input,
                },
            )
        }
        Plan::Check { name, cond, input } => {
            let input = copy_plan(alloc, input.get())?;
            check_of(alloc, name, cond, input)
        }
        Plan::Result { vars, input } => {
            let input = copy_plan(alloc, input.get())?;
            result_of(alloc, vars.as_slice(), input)
        }
    }
}

impl Plan {
    pub fn copy(&self, alloc: Global) -> Result<Plan, NoMemory>
        ensures { IfOk result (λ p. p ≡ self.now) }
    {
        match copy_plan(alloc, self) {
            Ok(p) => Ok(p.into_inner()),
            Err(fault) => Err(fault),
        }
    }
}
