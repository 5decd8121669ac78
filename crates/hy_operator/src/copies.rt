//! Copies of what activities work by.

ghost use Rattle.std.specs.Prelude.{◌≡◌, IfOk};

use al_agg::Agg;
use al_func::Rex;
use al_value::{List, NoMemory, SortKey};
use hy_job::{AggRex, GenRex, JoinArg};
use std::alloc::Global;

pub(crate) fn copy_exprs(alloc: Global, exprs: &[Rex]) -> Result<List<Rex>, NoMemory>
    ensures { IfOk result (λ copies. copies ≡ exprs.now) }
{
    let mut copies = List::new(alloc);
    for e in exprs {
        copies.push(e.copy(alloc)?)?;
    }
    Ok(copies)
}

pub(crate) fn copy_columns(alloc: Global, columns: &[u32]) -> Result<List<u32>, NoMemory>
    ensures { IfOk result (λ copies. copies ≡ columns.now) }
{
    Ok(List::from_vec(Vec::from_slice(alloc, columns)?))
}

pub(crate) fn copy_keys(alloc: Global, keys: &[SortKey]) -> Result<List<SortKey>, NoMemory>
    ensures { IfOk result (λ copies. copies ≡ keys.now) }
{
    Ok(List::from_vec(Vec::from_slice(alloc, keys)?))
}

pub(crate) fn copy_aggs(alloc: Global, made: &[Agg]) -> Result<List<Agg>, NoMemory>
    ensures { IfOk result (λ copies. copies ≡ made.now) }
{
    Ok(List::from_vec(Vec::from_slice(alloc, made)?))
}

fn copy_call(alloc: Global, call: &AggRex) -> Result<AggRex, NoMemory>
    ensures { IfOk result (λ c. c ≡ call.now) }
{
    match call {
        AggRex::CountAll => Ok(AggRex::CountAll),
        AggRex::Count(e) => Ok(AggRex::Count(e.copy(alloc)?)),
        AggRex::Sum(e) => Ok(AggRex::Sum(e.copy(alloc)?)),
        AggRex::Min(e) => Ok(AggRex::Min(e.copy(alloc)?)),
        AggRex::Max(e) => Ok(AggRex::Max(e.copy(alloc)?)),
    }
}

pub(crate) fn copy_calls(alloc: Global, made: &[AggRex]) -> Result<List<AggRex>, NoMemory>
    ensures { IfOk result (λ copies. copies ≡ made.now) }
{
    let mut copies = List::new(alloc);
    for call in made {
        copies.push(copy_call(alloc, call)?)?;
    }
    Ok(copies)
}

pub(crate) fn copy_items(alloc: Global, items: &GenRex) -> Result<GenRex, NoMemory>
    ensures { IfOk result (λ copy. copy ≡ items.now) }
{
    match items {
        GenRex::Range(from, to) => Ok(GenRex::Range(from.copy(alloc)?, to.copy(alloc)?)),
        GenRex::Split(text, at) => Ok(GenRex::Split(text.copy(alloc)?, at.copy(alloc)?)),
    }
}

pub(crate) fn copy_join(alloc: Global, arg: &JoinArg) -> Result<JoinArg, NoMemory>
    ensures { IfOk result (λ copy. copy ≡ arg.now) }
{
    let left = copy_columns(alloc, arg.left.as_slice())?;
    let right = copy_columns(alloc, arg.right.as_slice())?;
    let rest = arg.rest.copy(alloc)?;
    Ok(JoinArg {
        left,
        right,
        rest,
        outer: arg.outer,
    })
}
