ghost use Rattle.std.specs.Prelude.{◌≡◌, ◌++◌, IfOk, OnOk, length, map, filter};
ghost use Rattle.std.specs.List.{All, flat_map};
ghost use Rattle.al_value.specs.declared.value.Value.TheVariants as V;
ghost use Rattle.al_func.specs.Rex.{IsSound, eval_rex as value_of};
ghost use Rattle.hy_job.specs.Columns as spec;
ghost use Rattle.hy_job.specs.Sound.{AreSound, item_exprs};

use crate::nested::GenRex;
use al_func::{Rex, eval_rex, range_items, split_items};
use al_value::{List, NoMemory, Row, Value};
use std::alloc::Global;

/// The value of a column, and `none` for one out of range.
pub fn column<'a>(row: &'a [Value], j: u32, none: &'a Value) -> &'a Value
    requires { none.now ≡ V.Null }
    ensures { result.now ≡ spec.column row.now j }
{
    match row.get(j as usize) {
        Some(v) => v,
        None => none,
    }
}

/// Whether a condition is TRUE over a row.
pub fn holds(alloc: Global, cond: &Rex, row: &[Value]) -> Result<bool, NoMemory>
    requires { IsSound (length row.now) cond.now }
    ensures { IfOk result (λ b. b ≡ spec.holds cond.now row.now) }
{
    let v = eval_rex(alloc, cond, row)?;
    Ok(matches!(v, Value::Bool(true)))
}

/// The value of each expression over a row.
fn eval_rexes(alloc: Global, exprs: &[Rex], row: &[Value]) -> Result<List<Value>, NoMemory>
    requires { AreSound (length row.now) exprs.now }
    ensures { IfOk result (λ values. values ≡ map (λ e. value_of e row.now) exprs.now) }
{
    let mut values = List::new(alloc);
    for e in exprs {
        values.push(eval_rex(alloc, e, row)?)?;
    }
    Ok(values)
}

/// The row with the values of the expressions behind it, each of which sees the row alone.
pub fn assigned(alloc: Global, made: &[Rex], row: Row) -> Result<Row, NoMemory>
    requires { AreSound (length row) made.now }
    ensures { IfOk result (λ longer. longer ≡ spec.assigned made.now row) }
{
    let values = eval_rexes(alloc, made, row.as_slice())?;
    let mut longer = row;
    for v in values.into_vec() {
        longer.push(v)?;
    }
    Ok(longer)
}

/// A copy of the value of a column, NULL for one out of range.
fn value_at(alloc: Global, row: &[Value], j: u32) -> Result<Value, NoMemory>
    ensures { IfOk result (λ v. v ≡ spec.column row.now j) }
{
    let none = Value::Null;
    column(row, j, &none).copy(alloc)
}

/// The values of these columns, NULL for one out of range.
pub fn cut(alloc: Global, columns: &[u32], row: &[Value]) -> Result<Row, NoMemory>
    ensures { IfOk result (λ cut. cut ≡ spec.cut columns.now row.now) }
{
    let mut cut = Row::new(alloc);
    for j in columns {
        cut.push(value_at(alloc, row, *j)?)?;
    }
    Ok(cut)
}

/// The items of a generator at a row.
#[tactic(auto, unfolding(crate::specs::Columns::items))]
pub fn generator_items(alloc: Global, g: &GenRex, row: &[Value]) -> Result<List<Value>, NoMemory>
    requires { AreSound (length row.now) (item_exprs g.now) }
    ensures { IfOk result (λ items. items ≡ spec.items g.now row.now) }
{
    match g {
        GenRex::Range(from, to) => {
            let from = eval_rex(alloc, from, row)?;
            let to = eval_rex(alloc, to, row)?;
            range_items(alloc, &from, &to)
        }
        GenRex::Split(text, separator) => {
            let text = eval_rex(alloc, text, row)?;
            let separator = eval_rex(alloc, separator, row)?;
            split_items(alloc, &text, &separator)
        }
    }
}

/// The row with each item of the generator behind it, in the order of the items.
pub fn expanded(alloc: Global, g: &GenRex, row: &Row) -> Result<List<Row>, NoMemory>
    requires { AreSound (length row.now) (item_exprs g.now) }
    ensures { IfOk result (λ rows. rows ≡ spec.expanded g.now row.now) }
{
    let items = generator_items(alloc, g, row.as_slice())?;
    let mut rows = List::new(alloc);
    for item in items.into_vec() {
        let mut longer = row.copy(alloc)?;
        longer.push(item)?;
        rows.push(longer)?;
    }
    Ok(rows)
}

/// Puts rows behind others. Where memory runs out, some of them are there.
pub fn append_rows(rows: &mut List<Row>, more: List<Row>) -> Result<(), NoMemory>
    ensures { OnOk result (rows.new ≡ rows.old ++ more) }
{
    for row in more.into_vec() {
        rows.push(row)?;
    }
    Ok(())
}

/// Each row with the values of the expressions behind it.
pub fn assign_rows(alloc: Global, made: &[Rex], rows: List<Row>) -> Result<List<Row>, NoMemory>
    requires { All (λ row. AreSound (length row) made.now) rows }
    ensures { IfOk result (λ longer. longer ≡ map (spec.assigned made.now) rows) }
{
    let mut longer = List::new(alloc);
    for row in rows.into_vec() {
        longer.push(assigned(alloc, made, row)?)?;
    }
    Ok(longer)
}

/// The rows over which the condition is TRUE, in their order.
pub fn select_rows(alloc: Global, cond: &Rex, rows: List<Row>) -> Result<List<Row>, NoMemory>
    requires { All (λ row. IsSound (length row) cond.now) rows }
    ensures { IfOk result (λ kept. kept ≡ filter (spec.holds cond.now) rows) }
{
    let mut kept = List::new(alloc);
    for row in rows.into_vec() {
        if holds(alloc, cond, row.as_slice())? {
            kept.push(row)?;
        }
    }
    Ok(kept)
}

/// Each row cut to these columns.
pub fn cut_rows(alloc: Global, columns: &[u32], rows: &[Row]) -> Result<List<Row>, NoMemory>
    ensures { IfOk result (λ cuts. cuts ≡ map (spec.cut columns.now) rows.now) }
{
    let mut cuts = List::new(alloc);
    for row in rows {
        cuts.push(cut(alloc, columns, row.as_slice())?)?;
    }
    Ok(cuts)
}

/// Each row with each item of the generator behind it, in the order of the rows.
pub fn expand_rows(alloc: Global, g: &GenRex, rows: &[Row]) -> Result<List<Row>, NoMemory>
    requires { All (λ row. AreSound (length row) (item_exprs g.now)) rows.now }
    ensures { IfOk result (λ longer. longer ≡ flat_map (spec.expanded g.now) rows.now) }
{
    let mut longer = List::new(alloc);
    for row in rows {
        append_rows(&mut longer, expanded(alloc, g, row)?)?;
    }
    Ok(longer)
}
