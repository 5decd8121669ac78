ghost use Rattle.std.specs.Prelude.{◌≡◌, IfOk};
ghost use Rattle.al_agg.specs.Part as spec;

use al_agg::{Agg, Part, PartFault, add, finish, get_part, join, put_part, start, width};
use al_value::{Row, Text, Value};
use std::alloc::Global;
use std::test::Fail;

/// The state of an aggregate over these values.
fn part_of(alloc: Global, a: Agg, values: &[Value]) -> Result<Part, Fail> {
    let mut part = start(a);
    for v in values {
        add(alloc, &mut part, v)?;
    }
    Ok(part)
}

fn agg_of(alloc: Global, a: Agg, values: &[Value]) -> Result<Value, Fail> {
    Ok(finish(part_of(alloc, a, values)?))
}

/// The sum of those of the three values whose digit to the base 3 in `split` is this one.
fn share(alloc: Global, split: u32, digit: u32) -> Result<Part, Fail>
    ensures { IfOk result (λ p. spec.agg_of p ≡ Agg.Sum) }
{
    let mut part = start(Agg::Sum);
    if split % 3 == digit {
        add(alloc, &mut part, &Value::Int(i64::MAX))?;
    }
    if split / 3 % 3 == digit {
        add(alloc, &mut part, &Value::Int(1))?;
    }
    if split / 9 == digit {
        add(alloc, &mut part, &Value::Int(-1))?;
    }
    Ok(part)
}

#[test]
fn sums_wrap_late(rt: HostRuntime) -> Result<(), Fail> {
    let alloc = rt.alloc();
    let two = [Value::Int(i64::MAX), Value::Int(1)];
    assert_eq!(rt; agg_of(alloc, Agg::Sum, &two)?, Value::Null);
    for split in 0..27 {
        let mut sum = share(alloc, split, 0)?;
        join(&mut sum, share(alloc, split, 1)?);
        join(&mut sum, share(alloc, split, 2)?);
        assert_eq!(rt; finish(sum), Value::Int(i64::MAX), "at {split}");
    }
    Ok(())
}

#[test]
fn values_over_lists(rt: HostRuntime) -> Result<(), Fail> {
    let alloc = rt.alloc();
    let x = Value::Text(Text::new(alloc, "x")?);
    let some = [Value::Int(1), Value::Null, x.copy(alloc)?];
    assert_eq!(rt; agg_of(alloc, Agg::CountAll, &some)?, Value::Int(3));
    assert_eq!(rt; agg_of(alloc, Agg::Count, &some)?, Value::Int(2));
    assert_eq!(rt; agg_of(alloc, Agg::Sum, &some)?, Value::Int(1));
    let mixed = [
        Value::Int(-7),
        x.copy(alloc)?,
        Value::Null,
        Value::Bool(true),
    ];
    assert_eq!(rt; agg_of(alloc, Agg::Min, &mixed)?, Value::Bool(true));
    assert_eq!(rt; agg_of(alloc, Agg::Max, &mixed)?, x);
    let nulls = [Value::Null, Value::Null];
    assert_eq!(rt; agg_of(alloc, Agg::CountAll, &nulls)?, Value::Int(2));
    assert_eq!(rt; agg_of(alloc, Agg::Count, &nulls)?, Value::Int(0));
    for a in [Agg::Sum, Agg::Min, Agg::Max] {
        assert_eq!(rt; agg_of(alloc, a, &nulls)?, Value::Null);
    }
    Ok(())
}

#[test]
fn states_in_rows(rt: HostRuntime) -> Result<(), Fail> {
    let alloc = rt.alloc();
    let values = [
        Value::Int(5),
        Value::Null,
        Value::Bool(false),
        Value::Int(-9),
    ];
    for a in [Agg::CountAll, Agg::Count, Agg::Sum, Agg::Min, Agg::Max] {
        let mut row = Row::new(alloc);
        put_part(alloc, &part_of(alloc, a, &values)?, &mut row)?;
        assert_eq!(rt; row.len(), width(a) as usize);
        let read = get_part(alloc, a, row.as_slice())?;
        assert_eq!(rt; finish(read), agg_of(alloc, a, &values)?);
    }
    Ok(())
}

#[test]
fn fields_of_sums(rt: HostRuntime) -> Result<(), Fail> {
    let alloc = rt.alloc();
    let cases = [
        ([Value::Null, Value::Null], false, 0, 0),
        ([Value::Int(3), Value::Int(-4)], true, -1, -1),
        ([Value::Int(i64::MAX), Value::Int(1)], true, 0, i64::MIN),
        ([Value::Int(i64::MIN), Value::Int(-1)], true, -1, i64::MAX),
    ];
    for (values, seen, high, low) in &cases {
        let mut row = Row::new(alloc);
        put_part(alloc, &part_of(alloc, Agg::Sum, values)?, &mut row)?;
        assert_eq!(rt;
            row.as_slice(),
            [Value::Bool(*seen), Value::Int(*high), Value::Int(*low)].as_slice()
        );
    }
    Ok(())
}

#[test]
fn fields_of_no_state(rt: HostRuntime) -> Result<(), Fail> {
    let alloc = rt.alloc();
    let nothing = [Value::Bool(false), Value::Int(0), Value::Int(1)];
    let cut = [Value::Bool(true), Value::Int(0)];
    let swapped = [Value::Int(0), Value::Int(1), Value::Bool(true)];
    for fields in [nothing.as_slice(), cut.as_slice(), swapped.as_slice()] {
        assert_eq!(rt;
            get_part(alloc, Agg::Sum, fields).err(),
            Some(PartFault::NotPart)
        );
    }
    for a in [Agg::CountAll, Agg::Count, Agg::Min, Agg::Max] {
        assert_eq!(rt;
            get_part(alloc, a, &nothing).err(),
            Some(PartFault::NotPart)
        );
    }
    Ok(())
}
