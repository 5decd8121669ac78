use crate::rows::{append, text};
use hy_frame::{Append, Bank, Counts};
use std::test::Fail;

#[test]
fn a_row_longer_than_the_unit(rt: HostRuntime) -> Result<(), Fail> {
    let alloc = rt.alloc();
    let mut bank = Bank::new(256, 1);
    let mut frame = bank.take(alloc, 1, 249)?;
    assert_eq!(rt; frame.bytes().len(), 512);
    assert_eq!(rt; bank.out(), 1);
    bank.give(frame);
    let row = text(alloc, 244)?;
    let mut alone = bank.take(alloc, 1, row.size())?;
    assert_eq!(rt; append(&mut alone, &row), Append::Appended);
    assert_eq!(rt; alone.bytes().len(), 512);
    assert_eq!(rt; append(&mut alone, &row), Append::NoRoom);
    bank.give(alone);
    Ok(())
}

#[test]
fn frames_move_between_banks(rt: HostRuntime) -> Result<(), Fail> {
    let alloc = rt.alloc();
    let mut one = Bank::new(256, 2);
    let mut other = Bank::new(256, 1);
    let kept = one.take(alloc, 1, 9)?;
    let frame = one.take(alloc, 1, 9)?;
    let sent = one.export(frame);
    assert_eq!(rt; one.out(), 1);
    one.give(kept);
    let frame = other.import(sent);
    assert_eq!(rt; other.out(), 1);
    other.give(frame);
    assert_eq!(rt;
        one.close(),
        Counts {
            taken: 2,
            given: 1,
            exported: 1,
            imported: 0
        }
    );
    assert_eq!(rt;
        other.close(),
        Counts {
            taken: 0,
            given: 1,
            exported: 0,
            imported: 1
        }
    );
    Ok(())
}
