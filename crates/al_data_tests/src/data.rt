use al_csv::{BadRecord, Column, DataKind, Decl, Kind, LoadRefused, generate, load, out_text};
use al_value::{List, Name, Row, Text, Value};
use std::alloc::Global;
use std::test::Fail;

// A dataset with a column of each of these kinds.
fn dataset(alloc: Global, kinds: &[Kind]) -> Result<Decl, Fail> {
    let mut columns = List::new(alloc);
    for kind in kinds {
        columns.push(Column {
            name: Name::new(alloc, "c")?,
            kind: *kind,
        })?;
    }
    Ok(Decl {
        name: Name::new(alloc, "t")?,
        file: Name::new(alloc, "t.csv")?,
        columns,
    })
}

fn bad(kind: DataKind, number: u64, column: u32) -> Option<LoadRefused> {
    Some(LoadRefused::Bad(BadRecord {
        kind,
        number,
        column,
    }))
}

fn text(alloc: Global, s: &str) -> Result<Value, Fail> {
    Ok(Value::Text(Text::new(alloc, s)?))
}

#[test]
fn loads_texts(rt: HostRuntime) -> Result<(), Fail> {
    let alloc = rt.alloc();
    let decl = dataset(alloc, &[Kind::Text, Kind::Text])?;
    let rows = load(alloc, &decl, b"a,b\nx,1\ny,2\nx,3\n")?;
    assert_eq!(rt; rows.len(), 3);
    for (row, (first, second)) in rows
        .as_slice()
        .iter()
        .zip([("x", "1"), ("y", "2"), ("x", "3")])
    {
        let wanted = [text(alloc, first)?, text(alloc, second)?];
        assert!(rt; row.as_slice() == wanted.as_slice());
    }
    assert!(rt; load(alloc, &decl, b"a,b\n")?.is_empty());
    assert!(rt; load(alloc, &decl, b"")?.is_empty());
    Ok(())
}

#[test]
fn loads_each_kind(rt: HostRuntime) -> Result<(), Fail> {
    let alloc = rt.alloc();
    let decl = dataset(alloc, &[Kind::Int, Kind::Text, Kind::Bool])?;
    let rows = load(
        alloc,
        &decl,
        b"i,t,b\n-9223372036854775808,\"a,\"\"b\",TRUE\n+007,,fAlse\n,z,\n",
    )?;
    let wanted = [
        [
            Value::Int(i64::MIN),
            text(alloc, "a,\"b")?,
            Value::Bool(true),
        ],
        [Value::Int(7), Value::Null, Value::Bool(false)],
        [Value::Null, text(alloc, "z")?, Value::Null],
    ];
    assert_eq!(rt; rows.len(), 3);
    for (row, values) in rows.as_slice().iter().zip(wanted.iter()) {
        assert!(rt; row.as_slice() == values.as_slice());
    }
    Ok(())
}

#[test]
fn refuses_the_first_bad_record(rt: HostRuntime) -> Result<(), Fail> {
    let alloc = rt.alloc();
    let emp = dataset(alloc, &[Kind::Int, Kind::Text, Kind::Text, Kind::Int])?;
    let three = load(alloc, &emp, b"id,name,dept,pay\n1,Ann,X,10\n2,Bob,Y\n");
    assert!(rt; three.err() == bad(DataKind::BadCount, 2, 0));
    let all = dataset(alloc, &[Kind::Int, Kind::Bool, Kind::Text])?;
    let cases: [(&[u8], DataKind, u64, u32); 7] = [
        (b"h\n1,true,x\n1,true,x,y\n", DataKind::BadCount, 2, 0),
        (b"h\n9223372036854775808,true,x\n", DataKind::BadInt, 1, 1),
        (b"h\n-,true,x\n", DataKind::BadInt, 1, 1),
        (b"h\n 1,true,x\n", DataKind::BadInt, 1, 1),
        (b"h\n1,yes,\xff\n", DataKind::BadBool, 1, 2),
        (b"h\n1,true,\xff\n", DataKind::BadUtf8, 1, 3),
        (b"h\n1,,\n1,true\nx,y,z\n", DataKind::BadCount, 2, 0),
    ];
    for (bytes, kind, number, column) in cases {
        assert!(rt; load(alloc, &all, bytes).err() == bad(kind, number, column));
    }
    Ok(())
}

#[test]
fn refuses_a_long_text(rt: HostRuntime) -> Result<(), Fail> {
    let alloc = rt.alloc();
    let decl = dataset(alloc, &[Kind::Text])?;
    let mut bytes = vec![in alloc; b'x'; 32002]?;
    bytes[1] = b'\n';
    assert_eq!(rt; load(alloc, &decl, bytes.as_slice())?.len(), 1);
    bytes.push(b'x')?;
    assert!(rt; load(alloc, &decl, bytes.as_slice()).err() == bad(DataKind::TooLong, 1, 1));
    bytes.push(0xff)?;
    assert!(rt; load(alloc, &decl, bytes.as_slice()).err() == bad(DataKind::BadUtf8, 1, 1));
    Ok(())
}

#[test]
fn prints_rows(rt: HostRuntime) -> Result<(), Fail> {
    let alloc = rt.alloc();
    let mut first = Row::new(alloc);
    first.push(text(alloc, "1")?)?;
    let mut third = Row::new(alloc);
    third.push(text(alloc, "3")?)?;
    let printed = out_text(alloc, &[Name::new(alloc, "b")?], &[first, third])?;
    assert_eq!(rt; printed.as_slice(), b"b\n1\n3\n".as_slice());
    Ok(())
}

#[test]
fn prints_a_lone_null(rt: HostRuntime) -> Result<(), Fail> {
    let alloc = rt.alloc();
    let mut row = Row::new(alloc);
    row.push(Value::Null)?;
    let printed = out_text(alloc, &[Name::new(alloc, "s")?], &[row])?;
    assert_eq!(rt; printed.as_slice(), b"s\n\"\"\n".as_slice());
    Ok(())
}

#[test]
fn prints_each_kind(rt: HostRuntime) -> Result<(), Fail> {
    let alloc = rt.alloc();
    let names = [Name::new(alloc, "d")?, Name::new(alloc, "s")?];
    let mut empty = Row::new(alloc);
    empty.push(text(alloc, "")?)?;
    empty.push(Value::Int(i64::MIN))?;
    let mut quoted = Row::new(alloc);
    quoted.push(text(alloc, "a\"b,c")?)?;
    quoted.push(Value::Bool(false))?;
    let printed = out_text(alloc, &names, &[empty, quoted])?;
    let wanted = b"d,s\n,-9223372036854775808\n\"a\"\"b,c\",false\n";
    assert_eq!(rt; printed.as_slice(), wanted.as_slice());
    Ok(())
}

#[test]
fn generates_rows(rt: HostRuntime) -> Result<(), Fail> {
    let text = generate(rt.alloc(), 7, 2)?;
    let wanted = b"id,grp,val,tag\n0,78,957623,cvzzeu\n1,31,394746,fwgvlq\n";
    assert_eq!(rt; text.as_slice(), wanted.as_slice());
    assert_eq!(rt;
        generate(rt.alloc(), 7, 0)?.as_slice(),
        b"id,grp,val,tag\n".as_slice()
    );
    Ok(())
}
