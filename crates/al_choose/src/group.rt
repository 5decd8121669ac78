//! Groups: by their hash, or over rows that stand in the order of their keys.

ghost use Rattle.std.specs.Prelude.{◌≡◌, [], IfOk, map, take};
ghost use Rattle.al_plan.specs.Uses.{with_name, with_names};
ghost use Rattle.al_phys.specs.Placed as placed;
ghost use Rattle.al_phys.specs.Properties.{old_of, order_of};
ghost use Rattle.al_phys.specs.declared.phys.Phys.TheVariants as Q;
ghost use Rattle.al_phys.specs.declared.property.Need.TheVariants as N;
ghost use Rattle.al_choose.specs.Chosen as spec;

use crate::copies::{are_in, copy_keys, is_in, olds_of};
use crate::exchange::served;
use al_phys::{Local, Need, OrderKey, Phys, delivered};
use al_plan::{Plan, Var};
use al_value::{Boxed, List, NoMemory};
use std::alloc::Global;

/// Whether a nested plan works on each row alone below its root.
#[tactic(auto, using(crate::proofs::ChosenRules::chain_laws))]
fn is_chain(p: &Plan) -> bool
    ensures { result ≡ placed.is_chain p.now }
{
    match p {
        Plan::Nested => true,
        Plan::Assign { input, .. } => is_chain(input.get()),
        Plan::Select { input, .. } => is_chain(input.get()),
        Plan::Project { input, .. } => is_chain(input.get()),
        Plan::Unnest { input, .. } => is_chain(input.get()),
        Plan::Scan { .. }
        | Plan::Empty
        | Plan::Subplan { .. }
        | Plan::Join { .. }
        | Plan::LeftJoin { .. }
        | Plan::Group { .. }
        | Plan::Distinct { .. }
        | Plan::Union { .. }
        | Plan::Aggregate { .. }
        | Plan::Order { .. }
        | Plan::Limit { .. }
        | Plan::Check { .. }
        | Plan::Result { .. } => false,
    }
}

/// Whether a nested plan is an aggregate over what works on each row alone.
#[tactic(auto, using(crate::proofs::ChosenRules::row_wise_laws))]
fn is_row_wise(nested: &Plan) -> bool
    ensures { result ≡ placed.is_row_wise nested.now }
{
    match nested {
        Plan::Aggregate { input, .. } => is_chain(input.get()),
        Plan::Scan { .. }
        | Plan::Empty
        | Plan::Nested
        | Plan::Assign { .. }
        | Plan::Select { .. }
        | Plan::Project { .. }
        | Plan::Unnest { .. }
        | Plan::Subplan { .. }
        | Plan::Join { .. }
        | Plan::LeftJoin { .. }
        | Plan::Group { .. }
        | Plan::Distinct { .. }
        | Plan::Union { .. }
        | Plan::Order { .. }
        | Plan::Limit { .. }
        | Plan::Check { .. }
        | Plan::Result { .. } => false,
    }
}

/// The variables, and behind them this one where it is not among them.
#[tactic(auto, using(crate::proofs::OldKeys::name_behind))]
fn with_var(alloc: Global, vars: List<Var>, v: &Var) -> Result<List<Var>, NoMemory>
    ensures { IfOk result (λ more. more ≡ with_name vars v.now.name) }
{
    if is_in(vars.as_slice(), v) {
        return Ok(vars);
    }
    let mut more = vars;
    more.push(v.copy(alloc)?)?;
    Ok(more)
}

/// The variables, each once.
#[tactic(auto, using(crate::proofs::OldKeys::name_none))]
fn each_once(alloc: Global, vars: &[Var]) -> Result<List<Var>, NoMemory>
    ensures { IfOk result (λ once. once ≡ with_names [] (map (λ v. v.name) vars.now)) }
{
    let mut once = List::new(alloc);
    for v in vars {
        once = with_var(alloc, once, v)?;
    }
    Ok(once)
}

fn vars_of(alloc: Global, keys: &[OrderKey]) -> Result<List<Var>, NoMemory>
    ensures { IfOk result (λ vars. vars ≡ placed.vars_of keys.now) }
{
    let mut vars = List::new(alloc);
    for key in keys {
        vars.push(key.var.copy(alloc)?)?;
    }
    Ok(vars)
}

/// The variables of the first keys of an order, and of no more than this many.
fn first_vars(alloc: Global, order: &Local, count: usize) -> Result<List<Var>, NoMemory>
    ensures { IfOk result (λ vars. vars ≡ placed.vars_of (take count (placed.keys_in order.now))) }
{
    match order {
        Local::None => Ok(List::new(alloc)),
        Local::Order(keys) => {
            let keys = keys.as_slice();
            vars_of(alloc, &keys[..count.min(keys.len())])
        }
    }
}

/// Whether an order begins with the old keys, in any order.
#[tactic(auto, using(crate::proofs::OldKeys::names_count))]
fn is_grouped(alloc: Global, keys: &[(Var, Var)], order: &Local) -> Result<bool, NoMemory>
    ensures { IfOk result (λ grouped. grouped ≡ placed.is_grouped keys.now order.now) }
{
    let olds = olds_of(alloc, keys)?;
    let different = each_once(alloc, olds.as_slice())?;
    let leading = first_vars(alloc, order, different.len())?;
    Ok(are_in(olds.as_slice(), leading.as_slice()) && are_in(leading.as_slice(), olds.as_slice()))
}

/// The old keys as an order.
fn ascending(alloc: Global, keys: &[(Var, Var)]) -> Result<List<OrderKey>, NoMemory>
    ensures { IfOk result (λ order. order ≡ placed.ascending keys.now) }
{
    let mut order = List::new(alloc);
    for (_, old) in keys {
        let var = old.copy(alloc)?;
        order.push(OrderKey {
            var,
            descending: false,
        })?;
    }
    Ok(order)
}

/// Whether the rows of a plan stand in the order of the old keys.
fn is_in_order(
    alloc: Global,
    keys: &[(Var, Var)],
    p: &Phys,
    partitions: u32,
) -> Result<bool, NoMemory>
    ensures { IfOk result (λ grouped. grouped ≡ placed.is_grouped keys.now (order_of p.now)) }
{
    let (_, order) = delivered(alloc, p, partitions)?;
    is_grouped(alloc, keys, &order)
}

/// The parts of a plan sorted by the old keys.
fn sorted(alloc: Global, keys: &[(Var, Var)], input: Boxed<Phys>) -> Result<Boxed<Phys>, NoMemory>
    ensures { IfOk result (λ q. q ≡ Q.Sort (placed.ascending keys.now) input) }
{
    let order = ascending(alloc, keys)?;
    Boxed::new(alloc, Phys::Sort { keys: order, input })
}

fn pre_group(
    alloc: Global,
    keys: &[(Var, Var)],
    nested: &Plan,
    input: Boxed<Phys>,
) -> Result<Boxed<Phys>, NoMemory>
    ensures { IfOk result (λ q. q ≡ Q.PreGroup keys.now nested.now input) }
{
    let keys = copy_keys(alloc, keys)?;
    let nested = nested.copy(alloc)?;
    Boxed::new(
        alloc,
        Phys::PreGroup {
            keys,
            nested,
            input,
        },
    )
}

fn hash_group(
    alloc: Global,
    keys: &[(Var, Var)],
    nested: &Plan,
    input: Boxed<Phys>,
) -> Result<Boxed<Phys>, NoMemory>
    ensures { IfOk result (λ q. q ≡ Q.HashGroup keys.now nested.now input) }
{
    let keys = copy_keys(alloc, keys)?;
    let nested = nested.copy(alloc)?;
    Boxed::new(
        alloc,
        Phys::HashGroup {
            keys,
            nested,
            input,
        },
    )
}

/// A group over an input whose parts have the keys apart.
fn group_apart(
    alloc: Global,
    keys: &[(Var, Var)],
    nested: &Plan,
    input: Boxed<Phys>,
    partitions: u32,
) -> Result<Boxed<Phys>, NoMemory>
    ensures { IfOk result (λ q. q ≡ spec.group_over keys.now nested.now input) }
{
    if is_in_order(alloc, keys, input.get(), partitions)? {
        return pre_group(alloc, keys, nested, input);
    }
    if is_row_wise(nested) {
        return hash_group(alloc, keys, nested, input);
    }
    let input = sorted(alloc, keys, input)?;
    pre_group(alloc, keys, nested, input)
}

pub fn group_over(
    alloc: Global,
    keys: &[(Var, Var)],
    nested: &Plan,
    p: Boxed<Phys>,
    partitions: u32,
) -> Result<Boxed<Phys>, NoMemory>
    ensures { IfOk result (λ q. q ≡ spec.group_over keys.now nested.now (spec.served partitions (N.Keyed (old_of keys.now)) p)) }
{
    let olds = olds_of(alloc, keys)?;
    let input = served(alloc, Need::Keyed(olds), p, partitions)?;
    group_apart(alloc, keys, nested, input, partitions)
}
