ghost use Rattle.std.specs.Prelude.{◌≡◌, IfOk};
ghost use Rattle.al_func.specs.Rex as rex;

use al_func::{Func, Rex, apply, arity, eval_rex, range_items, split_items};
use al_value::{List, Text, Value};
use std::alloc::Global;
use std::test::Fail;

fn text(alloc: Global, s: &str) -> Result<Value, Fail> {
    Ok(Value::Text(Text::new(alloc, s)?))
}

/// A cell as a value: a dash is NULL, digits are an int.
fn value(alloc: Global, cell: &str) -> Result<Value, Fail> {
    match cell {
        "-" => Ok(Value::Null),
        "TRUE" => Ok(Value::Bool(true)),
        "FALSE" => Ok(Value::Bool(false)),
        _ => match cell.parse::<i64>() {
            Ok(n) => Ok(Value::Int(n)),
            Err(_) => text(alloc, cell),
        },
    }
}

/// The values of cells between commas.
fn values(alloc: Global, cells: &str) -> Result<Vec<Value>, Fail> {
    let mut values = Vec::new(alloc);
    for cell in cells.split(',') {
        values.push(value(alloc, cell)?)?;
    }
    Ok(values)
}

fn applied(alloc: Global, f: Func, args: &[Value]) -> Result<Value, Fail> {
    if args.len() != arity(f) as usize {
        return Err(Fail::from("arguments"));
    }
    Ok(apply(alloc, f, args)?)
}

/// A function, its arguments, and what it gives.
const CALLS: [(Func, &str, &str); 30] = [
    (Func::Add, "9223372036854775807,1", "-"),
    (Func::Sub, "3,5", "-2"),
    (Func::Mul, "-3,5", "-15"),
    (Func::Div, "7,-2", "-3"),
    (Func::Div, "-9223372036854775808,-1", "-"),
    (Func::Div, "7,0", "-"),
    (Func::Mod, "-7,2", "-1"),
    (Func::Mod, "-9223372036854775808,-1", "-"),
    (Func::Neg, "-9223372036854775808", "-"),
    (Func::Add, "1,TRUE", "-"),
    (Func::Eq, "2,2", "TRUE"),
    (Func::Lt, "2,2", "FALSE"),
    (Func::Le, "-2,2", "TRUE"),
    (Func::Lt, "B,a", "TRUE"),
    (Func::Lt, "TRUE,1", "-"),
    (Func::Eq, "-,-", "-"),
    (Func::Or, "-,FALSE", "-"),
    (Func::Or, "-,TRUE", "TRUE"),
    (Func::And, "FALSE,5", "FALSE"),
    (Func::Not, "0", "-"),
    (Func::If, "-,1,2", "2"),
    (Func::IsNull, "-", "TRUE"),
    (Func::Coalesce, "-,2", "2"),
    (Func::Concat, "a,ñb", "añb"),
    (Func::Length, "añb", "3"),
    (Func::Substr, "añb,1,1", "ñ"),
    (Func::Substr, "abc,2,9", "c"),
    (Func::Substr, "abc,7,1", ""),
    (Func::Substr, "abc,-1,2", "-"),
    (Func::LowerAscii, "AÑz", "aÑz"),
];

#[test]
fn calls(rt: HostRuntime) -> Result<(), Fail> {
    let alloc = rt.alloc();
    assert_eq!(rt; arity(Func::Substr), 3);
    for (f, args, wanted) in CALLS {
        let given = applied(alloc, f, values(alloc, args)?.as_slice())?;
        assert_eq!(rt; given, value(alloc, wanted)?, "{args}");
    }
    Ok(())
}

#[test]
fn refuses_long_texts(rt: HostRuntime) -> Result<(), Fail> {
    let alloc = rt.alloc();
    let half = String::from_utf8(vec![in alloc; b'x'; 16001]?)
        .ok()
        .ok_or("no text")?;
    let halves = [text(alloc, half.as_str())?, text(alloc, half.as_str())?];
    assert_eq!(rt; applied(alloc, Func::Concat, &halves)?, Value::Null);
    Ok(())
}

/// What `split` makes of a text and a separator.
fn pieces(alloc: Global, whole: &str, separator: &str) -> Result<List<Value>, Fail> {
    let whole = value(alloc, whole)?;
    Ok(split_items(alloc, &whole, &value(alloc, separator)?)?)
}

#[test]
fn splits(rt: HostRuntime) -> Result<(), Fail> {
    let alloc = rt.alloc();
    for (whole, separator, wanted) in [("Ann", "n", "A,,"), ("Ann", "", "Ann")] {
        let pieces = pieces(alloc, whole, separator)?;
        assert_eq!(rt; pieces.as_slice(), values(alloc, wanted)?.as_slice());
    }
    assert!(rt; pieces(alloc, "1", "n")?.is_empty());
    Ok(())
}

fn range(alloc: Global, from: i64, to: i64) -> Result<List<Value>, Fail> {
    Ok(range_items(alloc, &Value::Int(from), &Value::Int(to))?)
}

#[test]
fn ranges(rt: HostRuntime) -> Result<(), Fail> {
    let alloc = rt.alloc();
    assert_eq!(rt;
        range(alloc, 1, 3)?.as_slice(),
        values(alloc, "1,2,3")?.as_slice()
    );
    for (from, to, count) in [(1, 10_000, 10_000), (0, 10_000, 0), (i64::MIN, i64::MAX, 0)] {
        assert_eq!(rt; range(alloc, from, to)?.len(), count);
    }
    Ok(())
}

fn sum(alloc: Global) -> Result<Rex, Fail>
    ensures { IfOk result (rex.IsSound 2) }
{
    let mut args = List::new(alloc);
    args.push(Rex::Col(1))?;
    args.push(Rex::Lit(Value::Int(5)))?;
    Ok(Rex::Call(Func::Add, args))
}

#[test]
fn expressions(rt: HostRuntime) -> Result<(), Fail> {
    let alloc = rt.alloc();
    let sum = sum(alloc)?;
    let row = [Value::Null, Value::Int(2)];
    assert_eq!(rt; sum.copy(alloc)?, sum);
    assert_eq!(rt; eval_rex(alloc, &sum, &row)?, Value::Int(7));
    Ok(())
}
