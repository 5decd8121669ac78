//! Scans, the one row, and unnesting.
ghost use Rattle.std.specs.Prelude.{◌≡◌, ◌<◌, length, All, IfOk};

use crate::runs::{SETTINGS, Table, are_ints, run};
use al_func::Rex;
use al_value::{List, NoMemory, Row, Value};
use hy_frame::Bank;
use hy_job::GenRex;
use hy_store::OpFault;
use hy_stream::{One, Scan, Unnest};
use std::alloc::Global;
use std::test::Fail;

/// Rows of one int.
fn dataset(alloc: Global, ints: &[i64]) -> Result<List<Row>, NoMemory>
    ensures { IfOk result (λ rows. All (λ row. length row ≡ 1) rows) }
{
    let mut rows = List::new(alloc);
    for n in ints {
        let mut row = Row::new(alloc);
        row.push(Value::Int(*n))?;
        rows.push(row)?;
    }
    Ok(rows)
}

/// What a scan gives in a partition.
fn scanned(alloc: Global, partition: u32, rows: &[Row]) -> Result<List<Row>, OpFault>
    requires { All (λ row. length row ≡ 1) rows.now }
{
    let mut driver = Scan::new(alloc, SETTINGS, partition, 1, rows);
    let mut bank = Bank::new(256, 8);
    run(
        alloc,
        &mut driver,
        &mut bank,
        0,
        Table::none(),
        Table::none(),
    )
}

/// What the operator of the one row gives in a partition.
fn one(alloc: Global, partition: u32) -> Result<List<Row>, OpFault> {
    let mut driver = One::new(SETTINGS, partition);
    let mut bank = Bank::new(256, 8);
    run(
        alloc,
        &mut driver,
        &mut bank,
        0,
        Table::none(),
        Table::none(),
    )
}

#[test]
fn scans_share_the_rows(rt: HostRuntime) -> Result<(), Fail> {
    let alloc = rt.alloc();
    let rows = dataset(alloc, &[1, 2, 3, 4, 5])?;
    let first = scanned(alloc, 0, rows.as_slice())?;
    let second = scanned(alloc, 1, rows.as_slice())?;
    assert!(rt; are_ints(first.as_slice(), &[&[1], &[3], &[5]]));
    assert!(rt; are_ints(second.as_slice(), &[&[2], &[4]]));
    Ok(())
}

#[test]
fn the_one_row_is_in_the_first_partition(rt: HostRuntime) -> Result<(), Fail> {
    let alloc = rt.alloc();
    assert!(rt; are_ints(one(alloc, 0)?.as_slice(), &[&[]]));
    assert!(rt; are_ints(one(alloc, 1)?.as_slice(), &[]));
    Ok(())
}

/// What unnesting the ints from one to the first column gives.
#[tactic(auto, using(al_func::proofs::RexLaws::is_sound_laws))]
fn unnested(alloc: Global, rows: &[&[i64]]) -> Result<List<Row>, OpFault> {
    let generator = GenRex::Range(Rex::Lit(Value::Int(1)), Rex::Col(0));
    let mut driver = Unnest::new(alloc, SETTINGS, 0, 1, generator);
    let mut bank = Bank::new(256, 8);
    run(
        alloc,
        &mut driver,
        &mut bank,
        1,
        Table::of(rows),
        Table::none(),
    )
}

#[test]
fn items_are_unnested(rt: HostRuntime) -> Result<(), Fail> {
    let alloc = rt.alloc();
    let rows = unnested(alloc, &[&[2], &[0], &[1]])?;
    assert!(rt; are_ints(rows.as_slice(), &[&[2, 1], &[2, 2], &[1, 1]]));
    Ok(())
}
