use al_value::{
    Boxed, FieldFault, List, Name, Row, Text, TextFault, Value, cmp_fields, cmp_values, copy_rows,
    eq3, get_field, hash_add, hash_start, put_field,
};
use std::alloc::Global;
use std::cmp::Ordering;
use std::test::Fail;

#[test]
fn lists(rt: HostRuntime) -> Result<(), Fail> {
    let mut list = List::new(rt.alloc());
    list.push(1u8)?;
    list.extend(b"ab")?;
    assert_eq!(rt; list.as_slice(), [1, 97, 98].as_slice());
    assert_eq!(rt; list.pop(), Some(98));
    assert_eq!(rt; list.len(), 2);
    Ok(())
}

#[test]
fn boxes_and_vectors(rt: HostRuntime) -> Result<(), Fail> {
    let three = Boxed::new(rt.alloc(), 3u8)?;
    assert_eq!(rt; *three.get(), 3);
    assert!(rt; three == Boxed::new(rt.alloc(), 3u8)?);
    assert_eq!(rt; three.into_inner(), 3);
    let list = List::from_vec([1u8, 2].to_vec(rt.alloc())?);
    assert!(rt; list == List::from_vec([1u8, 2].to_vec(rt.alloc())?));
    assert_eq!(rt; list.into_vec().as_slice(), [1, 2].as_slice());
    let row = Row::from_list(List::from_vec(vec![in rt.alloc(); Value::Null]?));
    assert_eq!(rt; row.len(), 1);
    Ok(())
}

#[test]
fn texts_and_names(rt: HostRuntime) -> Result<(), Fail> {
    let name = Name::new(rt.alloc(), "emp")?;
    assert_eq!(rt; name.copy(rt.alloc())?.as_str(), "emp");
    let longest = String::from_utf8(vec![in rt.alloc(); b'x'; 32000]?)
        .ok()
        .ok_or("no text")?;
    assert!(rt; Text::new(rt.alloc(), longest.as_str()).is_ok());
    let longer = String::from_utf8(vec![in rt.alloc(); b'x'; 32001]?)
        .ok()
        .ok_or("no text")?;
    assert_eq!(rt;
        Text::new(rt.alloc(), longer.as_str()).err(),
        Some(TextFault::TooLong)
    );
    Ok(())
}

#[test]
fn values_and_rows(rt: HostRuntime) -> Result<(), Fail> {
    let ann = Value::Text(Text::new(rt.alloc(), "Ann")?);
    let mut row = Row::new(rt.alloc());
    row.push(Value::Null)?;
    row.push(ann.copy(rt.alloc())?)?;
    let rows = [row];
    let copies = copy_rows(rt.alloc(), &rows)?;
    assert_eq!(rt; copies.len(), 1);
    assert_eq!(rt; cmp_values(&Value::Int(-1), &ann), Ordering::Less);
    assert_eq!(rt; eq3(&ann, &ann), Some(true));
    assert_eq!(rt; eq3(&ann, &Value::Null), None);
    Ok(())
}

/// The field of a value.
fn field_of(alloc: Global, v: &Value) -> Result<Vec<u8>, Fail> {
    let mut out = Vec::new(alloc);
    put_field(v, &mut out)?;
    Ok(out)
}

#[test]
fn puts_fields(rt: HostRuntime) -> Result<(), Fail> {
    let mut out = Vec::new(rt.alloc());
    put_field(&Value::Int(1), &mut out)?;
    assert_eq!(rt; out.as_slice(), b"\x03\x80\0\0\0\0\0\0\x01".as_slice());
    put_field(&Value::Bool(false), &mut out)?;
    assert_eq!(rt; out.len(), 10);
    let ann = Value::Text(Text::new(rt.alloc(), "Ann")?);
    assert_eq!(rt;
        field_of(rt.alloc(), &Value::Bool(false))?.as_slice(),
        b"\x01".as_slice()
    );
    assert_eq!(rt;
        field_of(rt.alloc(), &ann)?.as_slice(),
        b"\x04Ann".as_slice()
    );
    Ok(())
}

#[test]
fn gets_fields(rt: HostRuntime) -> Result<(), Fail> {
    let values = [
        Value::Null,
        Value::Bool(false),
        Value::Bool(true),
        Value::Int(-9223372036854775808),
        Value::Int(9223372036854775807),
        Value::Text(Text::new(rt.alloc(), "Ann")?),
    ];
    for v in &values {
        let field = field_of(rt.alloc(), v)?;
        assert_eq!(rt; get_field(rt.alloc(), &field).ok().as_ref(), Some(v));
    }
    for bad in [
        b"".as_slice(),
        b"\0\0",
        b"\x03\x80\0\0\0\0\0\0",
        b"\x03\x80\0\0\0\0\0\0\0\0",
        b"\x04\xff",
        b"\x05",
    ] {
        assert_eq!(rt;
            get_field(rt.alloc(), bad).err(),
            Some(FieldFault::BadField)
        );
    }
    Ok(())
}

#[test]
fn compares_fields(rt: HostRuntime) -> Result<(), Fail> {
    let below = field_of(rt.alloc(), &Value::Int(-1))?;
    let above = field_of(rt.alloc(), &Value::Int(1))?;
    assert_eq!(rt; cmp_fields(&below, &above), Ordering::Less);
    Ok(())
}

#[test]
fn hashes(rt: HostRuntime) -> Result<(), Fail> {
    assert_eq!(rt; hash_start(0), 0xaf63bd4c8601b7df);
    // The published values of FNV-1a for `a` and `foobar`.
    assert_eq!(rt; hash_start(b'a'), 0xaf63dc4c8601ec8c);
    assert_eq!(rt; hash_add(hash_start(b'f'), b"oobar"), 0x85944171f73967e8);
    Ok(())
}
