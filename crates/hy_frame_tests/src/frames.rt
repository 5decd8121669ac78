use crate::rows::{append, one, text, two};
use hy_frame::{Append, Bank, FrameCopy, LoadFault, NotFrame, RowBuf, is_field, parse_frame};
use std::test::Fail;

#[test]
fn rows_fill_a_frame(rt: HostRuntime) -> Result<(), Fail> {
    let alloc = rt.alloc();
    let row = text(alloc, 239)?;
    assert_eq!(rt; row.size(), 244);
    let mut bank = Bank::new(256, 1);
    let mut frame = bank.take(alloc, 1, row.size())?;
    assert_eq!(rt; append(&mut frame, &row), Append::Appended);
    assert_eq!(rt; append(&mut frame, &row), Append::NoRoom);
    assert_eq!(rt; frame.rows(), 1);
    assert_eq!(rt; frame.bytes().len(), 256);
    bank.give(frame);
    Ok(())
}

#[test]
fn one_row_fills_a_frame(rt: HostRuntime) -> Result<(), Fail> {
    let alloc = rt.alloc();
    let row = text(alloc, 243)?;
    let mut bank = Bank::new(256, 1);
    let mut frame = bank.take(alloc, 1, row.size())?;
    assert_eq!(rt; append(&mut frame, &row), Append::Appended);
    assert_eq!(rt; append(&mut frame, &row), Append::NoRoom);
    assert_eq!(rt; frame.bytes().len(), 256);
    assert_eq!(rt;
        &frame.bytes()[247..],
        b"x\x00\x00\x00\xf8\x00\x00\x00\x01".as_slice()
    );
    bank.give(frame);
    Ok(())
}

#[test]
fn an_int_and_a_text(rt: HostRuntime) -> Result<(), Fail> {
    let alloc = rt.alloc();
    let row = two(alloc, b"\x03\x80\x00\x00\x00\x00\x00\x00\x01", b"\x04Ann")?;
    let mut bank = Bank::new(256, 1);
    let mut frame = bank.take(alloc, 2, row.size())?;
    assert_eq!(rt; append(&mut frame, &row), Append::Appended);
    let mut whole = Vec::new(alloc);
    whole.extend_from_slice(
        b"\x00\x00\x00\x09\x00\x00\x00\x0d\x03\x80\x00\x00\x00\x00\x00\x00\x01\x04Ann",
    )?;
    let zeros = vec![in alloc; 0; 227]?;
    whole.extend_from_slice(&zeros)?;
    whole.extend_from_slice(b"\x00\x00\x00\x15\x00\x00\x00\x01")?;
    assert_eq!(rt; frame.bytes(), whole.as_slice());
    assert_eq!(rt; frame.rows(), 1);
    assert_eq!(rt; frame.tuple(0), &whole[..21]);
    assert_eq!(rt; frame.field(0, 1), b"\x04Ann".as_slice());
    let seen = frame.row(0);
    assert_eq!(rt; seen.len(), 2);
    assert_eq!(rt; seen.size(), 21);
    assert_eq!(rt; seen.field(0), &whole[8..17]);
    let mut copy = RowBuf::new(alloc);
    copy.copy_from(&seen)?;
    assert_eq!(rt; copy.as_row().field(1), b"\x04Ann".as_slice());
    copy.clear();
    assert_eq!(rt; copy.len(), 0);
    bank.give(frame);
    Ok(())
}

#[test]
fn reads_what_is_a_frame(rt: HostRuntime) -> Result<(), Fail> {
    let alloc = rt.alloc();
    let row = text(alloc, 239)?;
    let mut bank = Bank::new(256, 1);
    let mut frame = bank.take(alloc, 1, row.size())?;
    assert_eq!(rt; append(&mut frame, &row), Append::Appended);
    let mut bytes = Vec::new(alloc);
    bytes.extend_from_slice(frame.bytes())?;
    bank.give(frame);
    assert_eq!(rt; parse_frame(1, 256, &bytes), Ok(1));
    assert_eq!(rt; parse_frame(2, 256, &bytes), Err(NotFrame));
    assert_eq!(rt; parse_frame(1, 128, &bytes), Ok(1));
    assert_eq!(rt; parse_frame(1, 2, &bytes), Err(NotFrame));
    assert_eq!(rt; parse_frame(1, 512, &bytes), Err(NotFrame));
    let zeros = vec![in alloc; 0; 256]?;
    assert_eq!(rt; parse_frame(1, 256, &zeros), Ok(0));
    // The gap, the field's first byte, the tuple's end and the number of tuples.
    for at in [245, 4, 248, 255] {
        let mut other = Vec::new(alloc);
        other.extend_from_slice(&bytes)?;
        if at < other.len() {
            other[at] = 7;
        }
        assert_eq!(rt; parse_frame(1, 256, &other), Err(NotFrame), "at {at}");
    }
    Ok(())
}

#[test]
fn loads_rows(rt: HostRuntime) -> Result<(), Fail> {
    let alloc = rt.alloc();
    let row = one(alloc, b"\x04Ann")?;
    let mut bank = Bank::new(256, 2);
    let mut frame = bank.take(alloc, 1, row.size())?;
    assert_eq!(rt; append(&mut frame, &row), Append::Appended);
    assert_eq!(rt; append(&mut frame, &row), Append::Appended);
    let mut other = bank.take(alloc, 1, 249)?;
    assert_eq!(rt; other.load(&frame.bytes()[1..]), Err(LoadFault::NotFrame));
    assert_eq!(rt; other.bytes().len(), 512);
    assert_eq!(rt; other.load(frame.bytes()), Ok(()));
    assert_eq!(rt; other.rows(), 2);
    assert_eq!(rt; other.bytes(), frame.bytes());
    frame.clear();
    assert_eq!(rt; frame.rows(), 0);
    assert_eq!(rt; parse_frame(1, 256, frame.bytes()), Ok(0));
    bank.give(frame);
    bank.give(other);
    Ok(())
}

#[test]
fn knows_fields(rt: HostRuntime) -> Result<(), Fail> {
    let fields = [
        b"\x00".as_slice(),
        b"\x01".as_slice(),
        b"\x02".as_slice(),
        b"\x03\x00\x00\x00\x00\x00\x00\x00\x00".as_slice(),
        b"\x04".as_slice(),
        b"\x04\xc3\xa4".as_slice(),
    ];
    for field in fields {
        assert!(rt; is_field(field));
    }
    let others = [
        b"".as_slice(),
        b"\x00\x00".as_slice(),
        b"\x03\x00\x00\x00\x00\x00\x00\x00".as_slice(),
        b"\x03\x00\x00\x00\x00\x00\x00\x00\x00\x00".as_slice(),
        b"\x04\xc3".as_slice(),
        b"\x05".as_slice(),
    ];
    for other in others {
        assert!(rt; !is_field(other));
    }
    Ok(())
}

#[test]
fn keeps_copies(rt: HostRuntime) -> Result<(), Fail> {
    let alloc = rt.alloc();
    let row = one(alloc, b"\x04Ann")?;
    let mut bank = Bank::new(256, 2);
    let mut frame = bank.take(alloc, 1, row.size())?;
    assert_eq!(rt; append(&mut frame, &row), Append::Appended);
    let copy = FrameCopy::of(alloc, &frame)?;
    frame.clear();
    assert_eq!(rt; copy.frame().rows(), 1);
    let mut other = bank.take(alloc, 1, 249)?;
    other.copy_from(copy.frame())?;
    assert_eq!(rt; other.bytes(), copy.frame().bytes());
    assert_eq!(rt; other.field(0, 0), b"\x04Ann".as_slice());
    Ok(())
}
