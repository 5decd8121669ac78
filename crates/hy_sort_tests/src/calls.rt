//! Calls of a driver, with the answers that a test wants.
ghost use Rattle.std.specs.Prelude.{◌≡◌, ◌≢◌, length, false, OnOk};
ghost use Rattle.hy_sort_tests.specs.Ready.{IsReady, TakesOne};

use hy_driver::{Driver, Phase};
use hy_frame::{Bank, RowBuf};
use hy_store::Next;
use std::test::Fail;

/// It asks for input.
#[tactic(auto, using(crate::proofs::ReadyLaws::ready_laws))]
pub(crate) fn asks<D: Driver>(driver: &mut D, bank: &mut Bank, out: &mut RowBuf) -> Result<(), Fail>
    requires going { (D.seen driver.old).phase ≢ Phase.GivenUp }
    requires ready { IsReady (D.seen driver.old) bank.old }
    requires one { TakesOne (D.seen driver.old) }
    ensures ready { OnOk result (IsReady (D.seen driver.new) bank.new) }
    ensures one { OnOk result (TakesOne (D.seen driver.new)) }
    ensures phase { OnOk result ((D.seen driver.new).phase ≡ Phase.Hungry) }
    ensures input { OnOk result ((D.seen driver.new).ended 0 ≡ (D.seen driver.old).ended 0) }
{
    match driver.next(bank, out)? {
        Next::NeedInput => Ok(()),
        _ => Err(Fail::from("no input is wanted")),
    }
}

/// It is fed a row of one field.
#[tactic(auto, using(crate::proofs::ReadyLaws::ready_laws))]
pub(crate) fn takes<D: Driver>(driver: &mut D, bank: &mut Bank, row: &RowBuf) -> Result<(), Fail>
    requires hungry { (D.seen driver.old).phase ≡ Phase.Hungry }
    requires to_come { (D.seen driver.old).ended 0 ≡ false }
    requires width { length row.now ≡ 1 }
    requires ready { IsReady (D.seen driver.old) bank.old }
    requires one { TakesOne (D.seen driver.old) }
    ensures ready { OnOk result (IsReady (D.seen driver.new) bank.new) }
    ensures one { OnOk result (TakesOne (D.seen driver.new)) }
    ensures phase { OnOk result ((D.seen driver.new).phase ≡ Phase.Working) }
    ensures input { OnOk result ((D.seen driver.new).ended 0 ≡ (D.seen driver.old).ended 0) }
{
    driver.feed(bank, 0, row.as_row())?;
    Ok(())
}

/// Its input ends.
#[tactic(auto, using(crate::proofs::ReadyLaws::ready_laws))]
pub(crate) fn ends_input<D: Driver>(driver: &mut D, bank: &mut Bank) -> Result<(), Fail>
    requires going { (D.seen driver.old).phase ≢ Phase.GivenUp }
    requires to_come { (D.seen driver.old).ended 0 ≡ false }
    requires ready { IsReady (D.seen driver.old) bank.old }
    requires one { TakesOne (D.seen driver.old) }
    ensures ready { OnOk result (IsReady (D.seen driver.new) bank.new) }
    ensures one { OnOk result (TakesOne (D.seen driver.new)) }
    ensures phase { OnOk result ((D.seen driver.new).phase ≡ (D.seen driver.old).phase) }
{
    driver.end(bank, 0)?;
    Ok(())
}

/// It gives a row.
#[tactic(auto, using(crate::proofs::ReadyLaws::ready_laws))]
pub(crate) fn gives<D: Driver>(
    driver: &mut D,
    bank: &mut Bank,
    out: &mut RowBuf,
) -> Result<(), Fail>
    requires going { (D.seen driver.old).phase ≢ Phase.GivenUp }
    requires ready { IsReady (D.seen driver.old) bank.old }
    ensures ready { OnOk result (IsReady (D.seen driver.new) bank.new) }
    ensures phase { OnOk result ((D.seen driver.new).phase ≡ Phase.Working) }
{
    match driver.next(bank, out)? {
        Next::Row => Ok(()),
        _ => Err(Fail::from("no row came")),
    }
}

/// It works.
#[tactic(auto, using(crate::proofs::ReadyLaws::ready_laws))]
pub(crate) fn works<D: Driver>(
    driver: &mut D,
    bank: &mut Bank,
    out: &mut RowBuf,
) -> Result<(), Fail>
    requires going { (D.seen driver.old).phase ≢ Phase.GivenUp }
    requires ready { IsReady (D.seen driver.old) bank.old }
    ensures ready { OnOk result (IsReady (D.seen driver.new) bank.new) }
    ensures phase { OnOk result ((D.seen driver.new).phase ≡ Phase.Working) }
{
    match driver.next(bank, out)? {
        Next::Work => Ok(()),
        _ => Err(Fail::from("there is no work")),
    }
}

/// It has ended.
#[tactic(auto, using(crate::proofs::ReadyLaws::ready_laws))]
pub(crate) fn is_over<D: Driver>(
    driver: &mut D,
    bank: &mut Bank,
    out: &mut RowBuf,
) -> Result<(), Fail>
    requires going { (D.seen driver.old).phase ≢ Phase.GivenUp }
    requires ready { IsReady (D.seen driver.old) bank.old }
    ensures ready { OnOk result (IsReady (D.seen driver.new) bank.new) }
    ensures phase { OnOk result ((D.seen driver.new).phase ≡ Phase.Ended) }
    ensures fixed { OnOk result ((D.seen driver.new).fixed ≡ (D.seen driver.old).fixed) }
{
    match driver.next(bank, out)? {
        Next::End => Ok(()),
        _ => Err(Fail::from("it goes on")),
    }
}

/// It is given up.
#[tactic(auto, using(crate::proofs::ReadyLaws::ready_laws))]
pub(crate) fn gives_up<D: Driver>(driver: &mut D, bank: &mut Bank)
    requires ready { IsReady (D.seen driver.old) bank.old }
    ensures ready { IsReady (D.seen driver.new) bank.new }
    ensures phase { (D.seen driver.new).phase ≡ Phase.GivenUp }
    ensures out { bank.new.out ≡ 0 }
{
    driver.give_up(bank);
}
