ghost use Rattle.std.specs.Prelude.{◌≡◌, false, IfOk};
ghost use Rattle.hy_aggregate.specs.Aggregate.{agg_seen};
ghost use Rattle.hy_sort_tests.specs.Ready.{IsReady, TakesOne};

use crate::calls::{asks, ends_input, gives, is_over, takes};
use crate::rows::{SETTINGS, has_field, row_of};
use al_agg::Agg;
use al_func::Rex;
use al_value::List;
use hy_aggregate::{AggWork, Aggregate, aggregate_cases};
use hy_driver::Phase;
use hy_frame::{Bank, RowBuf};
use hy_job::AggRex;
use std::alloc::Global;
use std::test::Fail;

/// The fields of the greatest value's state, in a partition.
fn greatest(alloc: Global) -> Result<(Aggregate, Bank), Fail>
    ensures ready { IfOk result (λ made. IsReady (agg_seen made.0) made.1) }
    ensures one { IfOk result (λ made. TakesOne (agg_seen made.0)) }
    ensures phase { IfOk result (λ made. (agg_seen made.0).phase ≡ Phase.Working) }
    ensures to_come { IfOk result (λ made. (agg_seen made.0).ended 0 ≡ false) }
{
    let mut made = List::new(alloc);
    made.push(AggRex::Max(Rex::Col(0)))?;
    match Aggregate::new(alloc, SETTINGS, 0, 1, 1, AggWork::Part { made }) {
        Ok(driver) => Ok((driver, Bank::new(256, 8))),
        Err(_) => Err(Fail::from("no memory")),
    }
}

/// The greatest value of joined states, in a partition.
fn greatest_joined(alloc: Global, partition: u32) -> Result<(Aggregate, Bank), Fail>
    ensures ready { IfOk result (λ made. IsReady (agg_seen made.0) made.1) }
    ensures one { IfOk result (λ made. TakesOne (agg_seen made.0)) }
    ensures phase { IfOk result (λ made. (agg_seen made.0).phase ≡ Phase.Working) }
    ensures to_come { IfOk result (λ made. (agg_seen made.0).ended 0 ≡ false) }
{
    let mut made = List::new(alloc);
    made.push(Agg::Max)?;
    match Aggregate::new(alloc, SETTINGS, partition, 1, 1, AggWork::Final { made }) {
        Ok(driver) => Ok((driver, Bank::new(256, 8))),
        Err(_) => Err(Fail::from("no memory")),
    }
}

#[test]
fn the_greatest_of_two(rt: HostRuntime) -> Result<(), Fail> {
    let alloc = rt.alloc();
    let (mut driver, mut bank) = greatest(alloc)?;
    let mut out = RowBuf::new(alloc);
    asks(&mut driver, &mut bank, &mut out)?;
    takes(&mut driver, &mut bank, &row_of(alloc, b"\x04Bob")?)?;
    asks(&mut driver, &mut bank, &mut out)?;
    takes(&mut driver, &mut bank, &row_of(alloc, b"\x04Ann")?)?;
    ends_input(&mut driver, &mut bank)?;
    gives(&mut driver, &mut bank, &mut out)?;
    assert!(rt; has_field(&out, b"\x04Bob"));
    is_over(&mut driver, &mut bank, &mut out)?;
    Ok(())
}

/// A row comes of no rows, too.
#[test]
fn the_greatest_of_none(rt: HostRuntime) -> Result<(), Fail> {
    let alloc = rt.alloc();
    let (mut driver, mut bank) = greatest(alloc)?;
    let mut out = RowBuf::new(alloc);
    ends_input(&mut driver, &mut bank)?;
    gives(&mut driver, &mut bank, &mut out)?;
    assert!(rt; has_field(&out, b"\x00"));
    is_over(&mut driver, &mut bank, &mut out)?;
    Ok(())
}

#[test]
fn states_are_joined(rt: HostRuntime) -> Result<(), Fail> {
    let alloc = rt.alloc();
    let (mut driver, mut bank) = greatest_joined(alloc, 0)?;
    let mut out = RowBuf::new(alloc);
    asks(&mut driver, &mut bank, &mut out)?;
    takes(&mut driver, &mut bank, &row_of(alloc, b"\x04Ann")?)?;
    asks(&mut driver, &mut bank, &mut out)?;
    takes(&mut driver, &mut bank, &row_of(alloc, b"\x00")?)?;
    asks(&mut driver, &mut bank, &mut out)?;
    takes(&mut driver, &mut bank, &row_of(alloc, b"\x04Cid")?)?;
    ends_input(&mut driver, &mut bank)?;
    gives(&mut driver, &mut bank, &mut out)?;
    assert!(rt; has_field(&out, b"\x04Cid"));
    is_over(&mut driver, &mut bank, &mut out)?;
    Ok(())
}

/// Joined states give their row in the first partition alone.
#[test]
fn nothing_in_the_second_partition(rt: HostRuntime) -> Result<(), Fail> {
    let alloc = rt.alloc();
    let (mut driver, mut bank) = greatest_joined(alloc, 1)?;
    let mut out = RowBuf::new(alloc);
    ends_input(&mut driver, &mut bank)?;
    is_over(&mut driver, &mut bank, &mut out)?;
    Ok(())
}

#[test]
fn cases_are_called() {
    aggregate_cases();
}
