ghost use Rattle.std.specs.Prelude.{◌≡◌, [], false, length, All, IfOk};
ghost use Rattle.hy_sort.specs.Build.{build_seen};
ghost use Rattle.hy_sort.specs.Emit.{emit_seen};
ghost use Rattle.hy_sort_tests.specs.Ready.{IsReady, TakesOne};

use crate::calls::{asks, ends_input, gives, gives_up, is_over, takes, works};
use crate::rows::{SETTINGS, UNUSED, has_field, row_of};
use al_value::{List, SortKey};
use hy_driver::{Handed, HandsOn, Phase};
use hy_frame::{Bank, RowBuf};
use hy_sort::{SortBuild, SortEmit, sort_cases, sort_laws};
use hy_store::MemStore;
use std::alloc::Global;
use std::test::Fail;

fn building(alloc: Global) -> (SortBuild, Bank)
    ensures ready { IsReady (build_seen result.0) result.1 }
    ensures one { TakesOne (build_seen result.0) }
    ensures phase { (build_seen result.0).phase ≡ Phase.Working }
    ensures to_come { (build_seen result.0).ended 0 ≡ false }
{
    (SortBuild::new(alloc, SETTINGS, 0, 1), Bank::new(256, 8))
}

/// What was kept, once the build is over.
fn handed_on(driver: SortBuild, bank: &mut Bank) -> Handed
    requires over { (build_seen driver).phase ≡ Phase.Ended }
    requires ready { IsReady (build_seen driver) bank.old }
    requires one { TakesOne (build_seen driver) }
    ensures fit { All (λ row. length row ≡ 1) result.rows }
    ensures beside { (result.frames ≡ []) × (result.runs ≡ []) }
{
    let (handed, _store): (Handed, Option<MemStore>) = driver.hand_on(bank);
    handed
}

/// By the one column.
fn emitting(alloc: Global, descending: bool, handed: Handed) -> Result<(SortEmit, Bank), Fail>
    requires fit { All (λ row. length row ≡ 1) handed.rows }
    requires beside { (handed.frames ≡ []) × (handed.runs ≡ []) }
    ensures ready { IfOk result (λ made. IsReady (emit_seen made.0) made.1) }
    ensures phase { IfOk result (λ made. (emit_seen made.0).phase ≡ Phase.Working) }
{
    let mut keys = List::new(alloc);
    keys.push(SortKey {
        column: 0,
        descending,
    })?;
    Ok((
        SortEmit::new(SETTINGS, 0, 1, keys, handed),
        Bank::new(256, 8),
    ))
}

/// Two rows that a build took.
fn two_kept(alloc: Global, first: &[u8], second: &[u8]) -> Result<Handed, Fail>
    ensures fit { IfOk result (λ handed. All (λ row. length row ≡ 1) handed.rows) }
    ensures beside { IfOk result (λ handed. (handed.frames ≡ []) × (handed.runs ≡ [])) }
{
    let (mut driver, mut bank) = building(alloc);
    let mut out = RowBuf::new(alloc);
    asks(&mut driver, &mut bank, &mut out)?;
    takes(&mut driver, &mut bank, &row_of(alloc, first)?)?;
    asks(&mut driver, &mut bank, &mut out)?;
    takes(&mut driver, &mut bank, &row_of(alloc, second)?)?;
    ends_input(&mut driver, &mut bank)?;
    is_over(&mut driver, &mut bank, &mut out)?;
    Ok(handed_on(driver, &mut bank))
}

#[test]
fn rows_come_in_order(rt: HostRuntime) -> Result<(), Fail> {
    let alloc = rt.alloc();
    let handed = two_kept(alloc, b"\x04Bob", b"\x04Ann")?;
    assert_eq!(rt; handed.rows.len(), 2);
    let (mut driver, mut bank) = emitting(alloc, false, handed)?;
    let mut out = RowBuf::new(alloc);
    works(&mut driver, &mut bank, &mut out)?;
    gives(&mut driver, &mut bank, &mut out)?;
    assert!(rt; has_field(&out, b"\x04Ann"));
    gives(&mut driver, &mut bank, &mut out)?;
    assert!(rt; has_field(&out, b"\x04Bob"));
    is_over(&mut driver, &mut bank, &mut out)?;
    gives_up(&mut driver, &mut bank);
    assert_eq!(rt; bank.close(), UNUSED);
    Ok(())
}

#[test]
fn rows_come_downwards(rt: HostRuntime) -> Result<(), Fail> {
    let alloc = rt.alloc();
    let handed = two_kept(alloc, b"\x04Ann", b"\x04Bob")?;
    let (mut driver, mut bank) = emitting(alloc, true, handed)?;
    let mut out = RowBuf::new(alloc);
    works(&mut driver, &mut bank, &mut out)?;
    gives(&mut driver, &mut bank, &mut out)?;
    assert!(rt; has_field(&out, b"\x04Bob"));
    gives(&mut driver, &mut bank, &mut out)?;
    assert!(rt; has_field(&out, b"\x04Ann"));
    is_over(&mut driver, &mut bank, &mut out)?;
    Ok(())
}

/// A build that was given up hands nothing on.
#[test]
fn given_up_with_a_row(rt: HostRuntime) -> Result<(), Fail> {
    let alloc = rt.alloc();
    let (mut driver, mut bank) = building(alloc);
    let mut out = RowBuf::new(alloc);
    asks(&mut driver, &mut bank, &mut out)?;
    takes(&mut driver, &mut bank, &row_of(alloc, b"\x04Ann")?)?;
    gives_up(&mut driver, &mut bank);
    let (handed, store): (Handed, Option<MemStore>) = driver.hand_on(&mut bank);
    assert_eq!(rt; handed.rows.len(), 0);
    assert!(rt; store.is_none());
    Ok(())
}

#[test]
fn cases_are_called() {
    sort_cases();
    sort_laws();
}
