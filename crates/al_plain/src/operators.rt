ghost use Rattle.std.specs.Prelude.{◌≡◌, [], ◌∷◌, ◌++◌, IfOk, IfErr, map, filter, take, drop, true};
ghost use Rattle.std.specs.List.{All, flat_map};
ghost use Rattle.std.specs.List.Sorted.{IsPermutation, IsSorted};
ghost use Rattle.al_plan.specs.Calls.{agg_call};
ghost use Rattle.al_plan.specs.Eval as spec;
ghost use Rattle.al_plan.specs.Eval.{bind};
ghost use Rattle.al_plan.specs.Allows.{keys_cmp};
ghost use Rattle.al_plain.specs.Gives.{AreRows, Fails, sets_of};
ghost use Rattle.al_plain.specs.Rows.{AreDistinct, assigned_row, expanded_row, pairs_of, pairs_or_padded, values_of};

use crate::call;
use crate::distinct::distinct_rows;
use crate::join::{join_rows, left_join_rows, unnest_rows};
use crate::order::order_rows;
use crate::plan::{Data, PlainFault, Rows, set_rows};
use crate::rows::{
    all_hold, append, assign_rows, both_vars, copy_vars, cut_rows, limit_rows, made_vars,
    select_rows,
};
use al_plan::{AggCall, Expr, Generator, OrderKey, Var};
use al_value::{List, Name, Row, Text, copy_rows};
use std::alloc::Global;

/// The rows of the dataset, under these variables.
pub fn scan(alloc: Global, sets: &[Data], set: &Name, vars: &[Var]) -> Result<Rows, PlainFault>
    ensures ok { IfOk result (AreRows vars.now (sets_of sets.now set.now)) }
    ensures err { IfErr result (λ e. e ≡ PlainFault.NoMemory) }
{
    let vars = copy_vars(alloc, vars)?;
    let rows = set_rows(alloc, sets, set)?;
    Ok(Rows { vars, rows })
}

/// A copy of the rows.
pub fn copied(alloc: Global, vars: &[Var], rows: &[Row]) -> Result<Rows, PlainFault>
    ensures ok { IfOk result (AreRows vars.now rows.now) }
    ensures err { IfErr result (λ e. e ≡ PlainFault.NoMemory) }
{
    let vars = copy_vars(alloc, vars)?;
    let rows = copy_rows(alloc, rows)?;
    Ok(Rows { vars, rows })
}

/// One row without variables.
pub fn empty(alloc: Global) -> Result<Rows, PlainFault>
    ensures ok { IfOk result (AreRows [] ([] ∷ [])) }
    ensures err { IfErr result (λ e. e ≡ PlainFault.NoMemory) }
{
    let mut rows = List::new(alloc);
    rows.push(Row::new(alloc))?;
    let vars = List::new(alloc);
    Ok(Rows { vars, rows })
}

pub fn assign(alloc: Global, made: &[(Var, Expr)], input: Rows) -> Result<Rows, PlainFault>
    ensures ok { IfOk result (AreRows (input.vars ++ map (λ m. m.0) made.now)
        (map (assigned_row made.now input.vars) input.rows)) }
    ensures err { IfErr result (λ e. e ≡ PlainFault.NoMemory) }
{
    let rows = assign_rows(alloc, made, input.vars.as_slice(), input.rows.as_slice())?;
    let new = made_vars(alloc, made)?;
    let vars = both_vars(alloc, input.vars.as_slice(), new.as_slice())?;
    Ok(Rows { vars, rows })
}

pub fn select(alloc: Global, cond: &Expr, input: Rows) -> Result<Rows, PlainFault>
    ensures ok { IfOk result (AreRows input.vars
        (filter (λ r. spec.holds cond.now (bind input.vars r)) input.rows)) }
    ensures err { IfErr result (λ e. e ≡ PlainFault.NoMemory) }
{
    let Rows { vars, rows } = input;
    let rows = select_rows(alloc, cond, vars.as_slice(), rows.as_slice())?;
    Ok(Rows { vars, rows })
}

/// The rows cut to the listed variables.
pub fn cut(alloc: Global, out: &[Var], input: Rows) -> Result<Rows, PlainFault>
    ensures ok { IfOk result (AreRows out.now (map (values_of out.now input.vars) input.rows)) }
    ensures err { IfErr result (λ e. e ≡ PlainFault.NoMemory) }
{
    let rows = cut_rows(alloc, out, input.vars.as_slice(), input.rows.as_slice())?;
    let vars = copy_vars(alloc, out)?;
    Ok(Rows { vars, rows })
}

pub fn unnest(alloc: Global, var: &Var, items: &Generator, input: Rows) -> Result<Rows, PlainFault>
    ensures ok { IfOk result (AreRows (input.vars ++ var.now ∷ [])
        (flat_map (expanded_row items.now input.vars) input.rows)) }
    ensures err { IfErr result (λ e. e ≡ PlainFault.NoMemory) }
{
    let rows = unnest_rows(alloc, items, input.vars.as_slice(), input.rows.as_slice())?;
    let mut vars = input.vars;
    vars.push(var.copy(alloc)?)?;
    Ok(Rows { vars, rows })
}

pub fn join(alloc: Global, cond: &Expr, left: Rows, right: Rows) -> Result<Rows, PlainFault>
    ensures ok { IfOk result (AreRows (left.vars ++ right.vars)
        (flat_map (pairs_of cond.now (left.vars ++ right.vars) right.rows) left.rows)) }
    ensures err { IfErr result (λ e. e ≡ PlainFault.NoMemory) }
{
    let vars = both_vars(alloc, left.vars.as_slice(), right.vars.as_slice())?;
    let rows = join_rows(
        alloc,
        cond,
        vars.as_slice(),
        left.rows.as_slice(),
        right.rows.as_slice(),
    )?;
    Ok(Rows { vars, rows })
}

pub fn left_join(alloc: Global, cond: &Expr, left: Rows, right: Rows) -> Result<Rows, PlainFault>
    ensures ok { IfOk result (AreRows (left.vars ++ right.vars)
        (flat_map (pairs_or_padded cond.now (left.vars ++ right.vars) right.vars right.rows) left.rows)) }
    ensures err { IfErr result (λ e. e ≡ PlainFault.NoMemory) }
{
    let vars = both_vars(alloc, left.vars.as_slice(), right.vars.as_slice())?;
    let rows = left_join_rows(
        alloc,
        cond,
        vars.as_slice(),
        right.vars.as_slice(),
        left.rows.as_slice(),
        right.rows.as_slice(),
    )?;
    Ok(Rows { vars, rows })
}

pub fn distinct(alloc: Global, input: Rows) -> Result<Rows, PlainFault>
    ensures ok { IfOk result (λ out. (out.vars ≡ input.vars) × AreDistinct input.rows out.rows) }
    ensures err { IfErr result (λ e. e ≡ PlainFault.NoMemory) }
{
    let Rows { vars, rows } = input;
    let rows = distinct_rows(alloc, rows.as_slice())?;
    Ok(Rows { vars, rows })
}

/// The rows of both sides, each cut to its side's variables, under the new ones.
pub fn union(
    alloc: Global,
    made: &[Var],
    left_vars: &[Var],
    right_vars: &[Var],
    left: Rows,
    right: Rows,
) -> Result<Rows, PlainFault>
    ensures ok { IfOk result (AreRows made.now (map (values_of left_vars.now left.vars) left.rows
        ++ map (values_of right_vars.now right.vars) right.rows)) }
    ensures err { IfErr result (λ e. e ≡ PlainFault.NoMemory) }
{
    let mut rows = cut_rows(alloc, left_vars, left.vars.as_slice(), left.rows.as_slice())?;
    let more = cut_rows(
        alloc,
        right_vars,
        right.vars.as_slice(),
        right.rows.as_slice(),
    )?;
    append(&mut rows, more)?;
    let vars = copy_vars(alloc, made)?;
    Ok(Rows { vars, rows })
}

pub fn aggregate(alloc: Global, made: &[(Var, AggCall)], input: Rows) -> Result<Rows, PlainFault>
    ensures ok { IfOk result (AreRows (map (λ m. m.0) made.now)
        (map (λ m. agg_call m.1 (map (bind input.vars) input.rows)) made.now ∷ [])) }
    ensures err { IfErr result (λ e. e ≡ PlainFault.NoMemory) }
{
    let row = call::agg_row(alloc, made, input.vars.as_slice(), input.rows.as_slice())?;
    let mut rows = List::new(alloc);
    rows.push(row)?;
    let vars = made_vars(alloc, made)?;
    Ok(Rows { vars, rows })
}

pub fn order(keys: &[OrderKey], input: Rows) -> Result<Rows, PlainFault>
    ensures ok { IfOk result (λ out. (out.vars ≡ input.vars) × IsPermutation input.rows out.rows
        × IsSorted (λ a b. keys_cmp keys.now (bind input.vars a) (bind input.vars b)) out.rows) }
    ensures err { IfErr result (λ e. e ≡ PlainFault.NoMemory) }
{
    let Rows { vars, rows } = input;
    let rows = order_rows(keys, vars.as_slice(), rows)?;
    Ok(Rows { vars, rows })
}

pub fn limit(alloc: Global, n: u64, k: u64, input: Rows) -> Result<Rows, PlainFault>
    ensures ok { IfOk result (AreRows input.vars (take n (drop k input.rows))) }
    ensures err { IfErr result (λ e. e ≡ PlainFault.NoMemory) }
{
    let Rows { vars, rows } = input;
    let rows = limit_rows(alloc, n, k, rows.as_slice())?;
    Ok(Rows { vars, rows })
}

pub fn check(alloc: Global, name: &Text, cond: &Expr, input: Rows) -> Result<Rows, PlainFault>
    ensures ok { IfOk result (λ out. AreRows input.vars input.rows out
        × All (λ r. spec.holds cond.now (bind input.vars r) ≡ true) input.rows) }
    ensures err { IfErr result (Fails name.now cond.now input.vars input.rows) }
{
    if all_hold(alloc, cond, input.vars.as_slice(), input.rows.as_slice())? {
        Ok(input)
    } else {
        Err(PlainFault::Check(name.copy(alloc)?))
    }
}
