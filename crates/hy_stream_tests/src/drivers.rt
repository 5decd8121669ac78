//! Each kind of work over a small table.
ghost use Rattle.std.specs.Prelude.{◌≡◌, ◌≤◌, ◌<◌, [], ◌∷◌, length, true, IfOk};
ghost use Rattle.al_func.specs.Rex.{IsSound};
ghost use Rattle.hy_job.specs.Sound.{AreSound, HasArity, IsInRange, inputs};
ghost use Rattle.hy_stream.specs.Work.{kind_of};
ghost use Rattle.hy_stream_tests.specs.Ready.{pairs};

use crate::runs::{SETTINGS, Table, are_ints, run};
use al_func::{Func, Rex};
use al_value::{List, NoMemory, Row, Text, Value};
use hy_frame::Bank;
use hy_store::OpFault;
use hy_stream::{RowWork, Shape, Stream, stream_cases};
use std::alloc::Global;
use std::test::Fail;

const PAIRS: &[&[i64]] = &[&[1, 10], &[2, 20], &[3, 30]];

const OTHERS: &[&[i64]] = &[&[4, 40]];

/// What the work makes of the rows of two values of its inputs.
fn made(
    alloc: Global,
    work: RowWork,
    arity: u32,
    left: Table<'_>,
    right: Table<'_>,
) -> Result<List<Row>, OpFault>
    requires in_range { IsInRange (kind_of work) (pairs arity) }
    requires arity { HasArity (kind_of work) (pairs arity) arity }
    requires few { arity ≤ 1024 }
    requires left { 0 < inputs (kind_of work) }
    requires right { right.goes_on ≡ true → 1 < inputs (kind_of work) }
{
    let shape = Shape {
        width: 2,
        right_width: 2,
        arity,
    };
    let mut driver = Stream::new(alloc, SETTINGS, 0, shape, work);
    let mut bank = Bank::new(256, 8);
    run(alloc, &mut driver, &mut bank, 2, left, right)
}

/// This column alone.
fn column(alloc: Global, j: u32) -> Result<List<u32>, NoMemory>
    ensures { IfOk result (λ columns. columns ≡ j ∷ []) }
{
    let mut columns = List::new(alloc);
    columns.push(j)?;
    Ok(columns)
}

/// Whether the first of two values is less than this.
#[tactic(auto, using(al_func::proofs::RexLaws::is_sound_laws))]
fn below(alloc: Global, n: i64) -> Result<Rex, NoMemory>
    ensures { IfOk result (λ e. IsSound 2 e) }
{
    let mut args = List::new(alloc);
    args.push(Rex::Col(0))?;
    args.push(Rex::Lit(Value::Int(n)))?;
    Ok(Rex::Call(Func::Lt, args))
}

/// The first of two values alone.
#[tactic(auto, using(al_func::proofs::RexLaws::is_sound_laws))]
fn first_again(alloc: Global) -> Result<List<Rex>, NoMemory>
    ensures sound { IfOk result (λ made. AreSound 2 made) }
    ensures one { IfOk result (λ made. length made ≡ 1) }
{
    let mut made = List::new(alloc);
    made.push(Rex::Col(0))?;
    Ok(made)
}

#[test]
fn limits_give_a_window(rt: HostRuntime) -> Result<(), Fail> {
    let alloc = rt.alloc();
    let work = RowWork::Limit { n: 1, k: 1 };
    let rows = made(alloc, work, 2, Table::of(PAIRS), Table::none())?;
    assert!(rt; are_ints(rows.as_slice(), &[&[2, 20]]));
    let work = RowWork::LocalLimit { n: 2 };
    let rows = made(alloc, work, 2, Table::of(PAIRS), Table::none())?;
    assert!(rt; are_ints(rows.as_slice(), &[&[1, 10], &[2, 20]]));
    Ok(())
}

#[test]
fn columns_are_cut(rt: HostRuntime) -> Result<(), Fail> {
    let alloc = rt.alloc();
    let columns = column(alloc, 1)?;
    let rows = made(
        alloc,
        RowWork::Project { columns },
        1,
        Table::of(PAIRS),
        Table::none(),
    )?;
    assert!(rt; are_ints(rows.as_slice(), &[&[10], &[20], &[30]]));
    let columns = column(alloc, 0)?;
    let rows = made(
        alloc,
        RowWork::Result { columns },
        1,
        Table::of(OTHERS),
        Table::none(),
    )?;
    assert!(rt; are_ints(rows.as_slice(), &[&[4]]));
    Ok(())
}

#[test]
fn unions_give_both_sides(rt: HostRuntime) -> Result<(), Fail> {
    let alloc = rt.alloc();
    let left = column(alloc, 0)?;
    let right = column(alloc, 1)?;
    let work = RowWork::Union { left, right };
    let rows = made(alloc, work, 1, Table::of(PAIRS), Table::of(OTHERS))?;
    assert!(rt; are_ints(rows.as_slice(), &[&[1], &[2], &[3], &[40]]));
    Ok(())
}

#[test]
fn conditions_select_and_check(rt: HostRuntime) -> Result<(), Fail> {
    let alloc = rt.alloc();
    let cond = below(alloc, 3)?;
    let rows = made(
        alloc,
        RowWork::Select { cond },
        2,
        Table::of(PAIRS),
        Table::none(),
    )?;
    assert!(rt; are_ints(rows.as_slice(), &[&[1, 10], &[2, 20]]));
    let cond = below(alloc, 3)?;
    let name = Text::new(alloc, "low")?;
    let checked = made(
        alloc,
        RowWork::Check { name, cond },
        2,
        Table::of(PAIRS),
        Table::none(),
    );
    assert!(rt; is_fault_of(&checked, "low"));
    Ok(())
}

/// Whether it is the fault of the check of this name.
fn is_fault_of(answer: &Result<List<Row>, OpFault>, wanted: &str) -> bool {
    match answer {
        Err(OpFault::Check(name)) => name.as_str() == wanted,
        _ => false,
    }
}

#[test]
fn values_are_assigned(rt: HostRuntime) -> Result<(), Fail> {
    let alloc = rt.alloc();
    let work = RowWork::Assign {
        made: first_again(alloc)?,
    };
    let rows = made(alloc, work, 3, Table::of(OTHERS), Table::none())?;
    assert!(rt; are_ints(rows.as_slice(), &[&[4, 40, 4]]));
    Ok(())
}

#[test]
fn cases_are_called() {
    stream_cases();
}
