//! What a physical plan delivers: which rows stand in which part, and in which order.

ghost use Rattle.std.specs.Prelude.{◌≡◌, IfOk, map};
ghost use Rattle.al_phys.specs.Properties as spec;

use crate::copies::{are_in, copy_order, copy_vars, kept_keys, olds_of};
use crate::equi::left_keys;
use crate::needs::is_hash;
use crate::phys::Phys;
use crate::property::{Local, Partitioning};
use al_plan::{Expr, OrderKey, Var};
use al_value::{List, NoMemory};
use std::alloc::Global;

/// Which partitioning and which order the parts of a physical plan have.
pub fn delivered(
    alloc: Global,
    p: &Phys,
    partitions: u32,
) -> Result<(Partitioning, Local), NoMemory>
    ensures { IfOk result (λ d. d ≡ spec.delivered p.now partitions) }
{
    let parts = parts_of(alloc, p, partitions)?;
    let order = order_of(alloc, p)?;
    Ok((parts, order))
}

fn parts_of(alloc: Global, p: &Phys, partitions: u32) -> Result<Partitioning, NoMemory>
    ensures { IfOk result (λ d. d ≡ spec.parts_of p.now partitions) }
{
    if partitions == 1 {
        return Ok(Partitioning::Unpartitioned);
    }
    spread_of(alloc, p)
}

/// The partitioning of rows that are cut to these variables.
fn kept_parts(vars: &[Var], d: Partitioning) -> Partitioning
    ensures { result ≡ spec.kept_parts vars.now d }
{
    match d {
        Partitioning::Hash(by) => {
            if are_in(vars, by.as_slice()) {
                Partitioning::Hash(by)
            } else {
                Partitioning::Random
            }
        }
        Partitioning::Unpartitioned => Partitioning::Unpartitioned,
        Partitioning::Broadcast => Partitioning::Broadcast,
        Partitioning::Random => Partitioning::Random,
    }
}

/// The first new key that takes the values of this variable.
fn new_for<'a>(keys: &'a [(Var, Var)], v: &'a Var) -> &'a Var
    ensures { result.now ≡ spec.new_for keys.now v.now }
{
    for (new, old) in keys {
        if old.name == v.name {
            return new;
        }
    }
    v
}

fn new_keys(alloc: Global, keys: &[(Var, Var)], by: &[Var]) -> Result<List<Var>, NoMemory>
    ensures { IfOk result (λ vars. vars ≡ map (spec.new_for keys.now) by.now) }
{
    let mut vars = List::new(alloc);
    for v in by {
        vars.push(new_for(keys, v).copy(alloc)?)?;
    }
    Ok(vars)
}

/// The partitioning of groups, from that of the rows.
fn group_parts(
    alloc: Global,
    keys: &[(Var, Var)],
    d: Partitioning,
) -> Result<Partitioning, NoMemory>
    ensures { IfOk result (λ parts. parts ≡ spec.group_parts keys.now d) }
{
    match d {
        Partitioning::Unpartitioned => Ok(Partitioning::Unpartitioned),
        Partitioning::Hash(by) => {
            let olds = olds_of(alloc, keys)?;
            if are_in(olds.as_slice(), by.as_slice()) {
                Ok(Partitioning::Hash(new_keys(alloc, keys, by.as_slice())?))
            } else {
                Ok(Partitioning::Random)
            }
        }
        Partitioning::Broadcast => Ok(Partitioning::Random),
        Partitioning::Random => Ok(Partitioning::Random),
    }
}

fn is_unpartitioned(d: &Partitioning) -> bool
    ensures { result ≡ spec.is_unpartitioned d.now }
{
    match d {
        Partitioning::Unpartitioned => true,
        Partitioning::Hash(_) => false,
        Partitioning::Broadcast => false,
        Partitioning::Random => false,
    }
}

fn union_parts(left: &Partitioning, right: &Partitioning) -> Partitioning
    ensures { result ≡ spec.union_parts left.now right.now }
{
    if is_unpartitioned(left) && is_unpartitioned(right) {
        Partitioning::Unpartitioned
    } else {
        Partitioning::Random
    }
}

#[cycle(spread_of)]
fn join_parts(
    alloc: Global,
    hash: bool,
    left: &Phys,
    right: &Phys,
    cond: &Expr,
) -> Result<Partitioning, NoMemory>
    ensures { IfOk result (λ d. d ≡ spec.join_parts hash (spec.left_keys left.now right.now cond.now) (spec.spread_of left.now).by) }
{
    if hash {
        return Ok(Partitioning::Hash(left_keys(alloc, left, right, cond)?));
    }
    spread_of(alloc, left)
}

/// The partitioning where there is more than one partition.
#[cycle(spread_of)]
#[tactic(auto, using(crate::proofs::PhysRules::spread_laws))]
fn spread_of(alloc: Global, p: &Phys) -> Result<Partitioning, NoMemory>
    ensures { IfOk result (λ d. d ≡ (spec.spread_of p.now).by) }
{
    match p {
        Phys::Scan { .. } => Ok(Partitioning::Random),
        Phys::One => Ok(Partitioning::Unpartitioned),
        Phys::Assign { input, .. } => spread_of(alloc, input.get()),
        Phys::Select { input, .. } => spread_of(alloc, input.get()),
        Phys::Project { vars, input } => {
            let parts = spread_of(alloc, input.get())?;
            Ok(kept_parts(vars.as_slice(), parts))
        }
        Phys::Unnest { input, .. } => spread_of(alloc, input.get()),
        Phys::Subplan { input, .. } => spread_of(alloc, input.get()),
        Phys::Check { input, .. } => spread_of(alloc, input.get()),
        Phys::Join {
            form,
            cond,
            left,
            right,
        } => join_parts(alloc, is_hash(*form), left.get(), right.get(), cond),
        Phys::HashGroup { keys, input, .. } => {
            let parts = spread_of(alloc, input.get())?;
            group_parts(alloc, keys.as_slice(), parts)
        }
        Phys::PreGroup { keys, input, .. } => {
            let parts = spread_of(alloc, input.get())?;
            group_parts(alloc, keys.as_slice(), parts)
        }
        Phys::HashDistinct { input } => spread_of(alloc, input.get()),
        Phys::AggPart { .. } => Ok(Partitioning::Random),
        Phys::AggFinal { .. } => Ok(Partitioning::Unpartitioned),
        Phys::Union { left, right, .. } => {
            let one = spread_of(alloc, left.get())?;
            let other = spread_of(alloc, right.get())?;
            Ok(union_parts(&one, &other))
        }
        Phys::Sort { input, .. } => spread_of(alloc, input.get()),
        Phys::Limit { .. } => Ok(Partitioning::Unpartitioned),
        Phys::LocalLimit { input, .. } => spread_of(alloc, input.get()),
        Phys::Result { .. } => Ok(Partitioning::Unpartitioned),
        Phys::HashExchange { vars, .. } => Ok(Partitioning::Hash(copy_vars(
            alloc,
            vars.as_slice(),
        )?)),
        Phys::Broadcast { .. } => Ok(Partitioning::Broadcast),
        Phys::Gather { .. } => Ok(Partitioning::Unpartitioned),
        Phys::Merge { .. } => Ok(Partitioning::Unpartitioned),
    }
}

/// An order by these keys, and none where there are none.
fn order_by(keys: List<OrderKey>) -> Local
    ensures { result ≡ spec.order_by keys }
{
    if keys.is_empty() {
        Local::None
    } else {
        Local::Order(keys)
    }
}

/// The order of rows that are cut to these variables.
fn kept_order(alloc: Global, vars: &[Var], order: &Local) -> Result<Local, NoMemory>
    ensures { IfOk result (λ kept. kept ≡ spec.kept_order vars.now order.now) }
{
    match order {
        Local::None => Ok(Local::None),
        Local::Order(keys) => Ok(order_by(kept_keys(alloc, vars, keys.as_slice())?)),
    }
}

#[tactic(auto, using(crate::proofs::PhysRules::order_laws))]
fn order_of(alloc: Global, p: &Phys) -> Result<Local, NoMemory>
    ensures { IfOk result (λ order. order ≡ spec.order_of p.now) }
{
    match p {
        Phys::Assign { input, .. } => order_of(alloc, input.get()),
        Phys::Select { input, .. } => order_of(alloc, input.get()),
        Phys::Project { vars, input } => {
            let order = order_of(alloc, input.get())?;
            kept_order(alloc, vars.as_slice(), &order)
        }
        Phys::Unnest { input, .. } => order_of(alloc, input.get()),
        Phys::Subplan { input, .. } => order_of(alloc, input.get()),
        Phys::Check { input, .. } => order_of(alloc, input.get()),
        Phys::Sort { keys, .. } => Ok(Local::Order(copy_order(alloc, keys.as_slice())?)),
        Phys::Limit { input, .. } => order_of(alloc, input.get()),
        Phys::Result { vars, input } => {
            let order = order_of(alloc, input.get())?;
            kept_order(alloc, vars.as_slice(), &order)
        }
        Phys::Merge { keys, .. } => Ok(Local::Order(copy_order(alloc, keys.as_slice())?)),
        Phys::Scan { .. }
        | Phys::One
        | Phys::Join { .. }
        | Phys::HashGroup { .. }
        | Phys::PreGroup { .. }
        | Phys::HashDistinct { .. }
        | Phys::AggPart { .. }
        | Phys::AggFinal { .. }
        | Phys::Union { .. }
        | Phys::LocalLimit { .. }
        | Phys::HashExchange { .. }
        | Phys::Broadcast { .. }
        | Phys::Gather { .. } => Ok(Local::None),
    }
}
