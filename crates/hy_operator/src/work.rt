//! What drivers do, by their activities' kinds.

ghost use Rattle.std.specs.Prelude.{◌≡◌, true, IfOk};
ghost use Rattle.hy_stream.specs.Work as rows;
ghost use Rattle.hy_operator.specs.Kinds.{works_on_rows};

use crate::copies::{copy_columns, copy_exprs};
use al_func::Rex;
use al_value::{NoMemory, Text};
use hy_job::Kind;
use hy_stream::RowWork;
use std::alloc::Global;

fn check_of(alloc: Global, name: &Text, cond: &Rex) -> Result<RowWork, NoMemory>
    ensures { IfOk result (λ work. work ≡ RowWork.Check name.now cond.now) }
{
    let name = name.copy(alloc)?;
    let cond = cond.copy(alloc)?;
    Ok(RowWork::Check { name, cond })
}

fn union_of(alloc: Global, left: &[u32], right: &[u32]) -> Result<RowWork, NoMemory>
    ensures { IfOk result (λ work. work ≡ RowWork.Union left.now right.now) }
{
    let left = copy_columns(alloc, left)?;
    let right = copy_columns(alloc, right)?;
    Ok(RowWork::Union { left, right })
}

/// What an operator of this kind does with each row alone.
pub(crate) fn row_work(alloc: Global, kind: &Kind) -> Result<RowWork, NoMemory>
    requires { works_on_rows kind.now ≡ true }
    ensures { IfOk result (λ work. rows.kind_of work ≡ kind.now) }
{
    match kind {
        Kind::Assign { made } => Ok(RowWork::Assign {
            made: copy_exprs(alloc, made.as_slice())?,
        }),
        Kind::Select { cond } => Ok(RowWork::Select {
            cond: cond.copy(alloc)?,
        }),
        Kind::Project { columns } => Ok(RowWork::Project {
            columns: copy_columns(alloc, columns.as_slice())?,
        }),
        Kind::Check { name, cond } => check_of(alloc, name, cond),
        Kind::Union { left, right } => union_of(alloc, left.as_slice(), right.as_slice()),
        Kind::Limit { n, k } => Ok(RowWork::Limit { n: *n, k: *k }),
        Kind::LocalLimit { n } => Ok(RowWork::LocalLimit { n: *n }),
        Kind::Result { columns } => Ok(RowWork::Result {
            columns: copy_columns(alloc, columns.as_slice())?,
        }),
        Kind::Scan { .. }
        | Kind::One
        | Kind::Unnest { .. }
        | Kind::Subplan { .. }
        | Kind::PreGroup { .. }
        | Kind::SortBuild(_)
        | Kind::SortEmit(_)
        | Kind::GroupBuild(_)
        | Kind::GroupEmit(_)
        | Kind::JoinBuild(_)
        | Kind::JoinProbe(_)
        | Kind::AggPart { .. }
        | Kind::AggFinal { .. } => unreachable!(),
    }
}
