ghost use Rattle.std.specs.Prelude.{◌≡◌, false, length, IfOk};
ghost use Rattle.hy_driver.specs.Pass.{pass_seen};
ghost use Rattle.hy_driver.specs.Keep.{keep_seen};
ghost use Rattle.hy_driver_tests.specs.Ready.{IsReady};

use crate::calls::{asks, ends_input, gives, gives_up, is_over, takes};
use al_value::Settings;
use hy_driver::{Handed, HandsOn, KeepRows, PassRows, Phase, driver_cases, driver_laws, row_laws};
use hy_frame::{Bank, Counts, RowBuf, is_field};
use hy_store::MemStore;
use std::alloc::Global;
use std::test::Fail;

const SETTINGS: Settings = Settings {
    partitions: 1,
    frame_size: 256,
    memory: 3,
};

/// A bank of no frames.
const UNUSED: Counts = Counts {
    taken: 0,
    given: 0,
    exported: 0,
    imported: 0,
};

fn passing(alloc: Global) -> (PassRows, Bank)
    ensures ready { IsReady (pass_seen result.0) result.1 }
    ensures phase { (pass_seen result.0).phase ≡ Phase.Working }
    ensures to_come { (pass_seen result.0).ended 0 ≡ false }
{
    (PassRows::new(alloc, SETTINGS, 1), Bank::new(256, 8))
}

fn keeping(alloc: Global) -> (KeepRows, Bank)
    ensures ready { IsReady (keep_seen result.0) result.1 }
    ensures phase { (keep_seen result.0).phase ≡ Phase.Working }
    ensures to_come { (keep_seen result.0).ended 0 ≡ false }
{
    (KeepRows::new(alloc, SETTINGS, 1), Bank::new(256, 8))
}

/// A row of one field.
fn row_of(alloc: Global, field: &[u8]) -> Result<RowBuf, Fail>
    ensures { IfOk result (λ row. length row ≡ 1) }
{
    let mut row = RowBuf::new(alloc);
    if !is_field(field) {
        return Err(Fail::from("no field"));
    }
    row.push_field(field)?;
    Ok(row)
}

/// The field of a row of one.
fn field_of(row: &RowBuf) -> Option<&[u8]> {
    if row.len() == 1 {
        Some(row.as_row().field(0))
    } else {
        None
    }
}

#[test]
fn rows_pass(rt: HostRuntime) -> Result<(), Fail> {
    let alloc = rt.alloc();
    let (mut driver, mut bank) = passing(alloc);
    let mut out = RowBuf::new(alloc);
    asks(&mut driver, &mut bank, &mut out)?;
    takes(&mut driver, &mut bank, &row_of(alloc, b"\x04Ann")?)?;
    gives(&mut driver, &mut bank, &mut out)?;
    assert_eq!(rt; field_of(&out), Some(b"\x04Ann".as_slice()));
    asks(&mut driver, &mut bank, &mut out)?;
    takes(&mut driver, &mut bank, &row_of(alloc, b"\x02")?)?;
    gives(&mut driver, &mut bank, &mut out)?;
    assert_eq!(rt; field_of(&out), Some(b"\x02".as_slice()));
    ends_input(&mut driver, &mut bank)?;
    is_over(&mut driver, &mut bank, &mut out)?;
    gives_up(&mut driver, &mut bank);
    assert_eq!(rt; bank.close(), UNUSED);
    Ok(())
}

/// A row that was taken before the input ended is given after it.
#[test]
fn the_last_row_passes(rt: HostRuntime) -> Result<(), Fail> {
    let alloc = rt.alloc();
    let (mut driver, mut bank) = passing(alloc);
    let mut out = RowBuf::new(alloc);
    asks(&mut driver, &mut bank, &mut out)?;
    takes(&mut driver, &mut bank, &row_of(alloc, b"\x00")?)?;
    ends_input(&mut driver, &mut bank)?;
    gives(&mut driver, &mut bank, &mut out)?;
    assert_eq!(rt; field_of(&out), Some(b"\x00".as_slice()));
    is_over(&mut driver, &mut bank, &mut out)?;
    Ok(())
}

#[test]
fn rows_are_handed_on(rt: HostRuntime) -> Result<(), Fail> {
    let alloc = rt.alloc();
    let (mut driver, mut bank) = keeping(alloc);
    let mut out = RowBuf::new(alloc);
    asks(&mut driver, &mut bank, &mut out)?;
    takes(&mut driver, &mut bank, &row_of(alloc, b"\x04Ann")?)?;
    asks(&mut driver, &mut bank, &mut out)?;
    takes(&mut driver, &mut bank, &row_of(alloc, b"\x02")?)?;
    asks(&mut driver, &mut bank, &mut out)?;
    ends_input(&mut driver, &mut bank)?;
    is_over(&mut driver, &mut bank, &mut out)?;
    let (handed, store): (Handed, Option<MemStore>) = driver.hand_on(&mut bank);
    let fields = [b"\x04Ann".as_slice(), b"\x02".as_slice()];
    assert_eq!(rt; handed.rows.len(), 2);
    for (row, field) in handed.rows.as_slice().iter().zip(fields) {
        assert_eq!(rt; field_of(row), Some(field));
    }
    assert_eq!(rt; handed.frames.len(), 0);
    assert_eq!(rt; handed.runs.len(), 0);
    assert!(rt; store.is_none());
    assert_eq!(rt; bank.close(), UNUSED);
    Ok(())
}

/// Who is given up hands nothing on.
#[test]
fn given_up_with_a_row(rt: HostRuntime) -> Result<(), Fail> {
    let alloc = rt.alloc();
    let (mut driver, mut bank) = keeping(alloc);
    let mut out = RowBuf::new(alloc);
    asks(&mut driver, &mut bank, &mut out)?;
    takes(&mut driver, &mut bank, &row_of(alloc, b"\x04Ann")?)?;
    gives_up(&mut driver, &mut bank);
    let (handed, store): (Handed, Option<MemStore>) = driver.hand_on(&mut bank);
    assert_eq!(rt; handed.rows.len(), 0);
    assert!(rt; store.is_none());
    Ok(())
}

#[test]
fn laws_are_called() {
    driver_laws::<PassRows>();
    driver_laws::<KeepRows>();
    row_laws();
    driver_cases();
}
