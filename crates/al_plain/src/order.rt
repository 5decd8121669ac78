ghost use Rattle.std.specs.Prelude.{◌≡◌, IfOk};
ghost use Rattle.std.specs.List.Sorted.{IsPermutation, IsSorted};
ghost use Rattle.al_plan.specs.Eval.{bind};
ghost use Rattle.al_plan.specs.Allows.{keys_cmp, directed};

use crate::expr::find;
use al_plan::{OrderKey, Var};
use al_value::{List, NoMemory, Row, Value, cmp_values};
use std::cmp::Ordering;

fn directed(descending: bool, order: Ordering) -> Ordering
    ensures { result ≡ directed descending order }
{
    if descending { order.reverse() } else { order }
}

/// The order of two rows by the keys.
fn cmp_keys(keys: &[OrderKey], vars: &[Var], a: &Row, b: &Row) -> Ordering
    ensures { result ≡ keys_cmp keys.now (bind vars.now a.now) (bind vars.now b.now) }
{
    let none = Value::Null;
    match keys {
        [] => Ordering::Equal,
        [key, rest @ ..] => {
            let x = find(vars, a.as_slice(), &key.var, &none);
            let y = find(vars, b.as_slice(), &key.var, &none);
            directed(key.descending, cmp_values(x, y)).then(cmp_keys(rest, vars, a, b))
        }
    }
}

/// The rows in an order that is sorted by the keys.
pub fn order_rows(keys: &[OrderKey], vars: &[Var], rows: List<Row>) -> Result<List<Row>, NoMemory>
    ensures moved { IfOk result (λ sorted. IsPermutation rows sorted) }
    ensures sorted { IfOk result
        (λ sorted. IsSorted (λ a b. keys_cmp keys.now (bind vars.now a) (bind vars.now b)) sorted) }
{
    let mut items = rows.into_vec();
    items.sort_by(|a, b| cmp_keys(keys, vars, a, b))?;
    Ok(List::from_vec(items))
}
