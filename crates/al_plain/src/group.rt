ghost use Rattle.std.specs.Prelude.{◌≡◌, ◌↔◌, IsTrue, IfOk, map, filter};
ghost use Rattle.al_plain.specs.Groups.{AreGroups, alone, has_key, key_cells};

use crate::distinct::{distinct_rows, same_row};
use crate::expr::look_up;
use al_plan::Var;
use al_value::{List, NoMemory, Row};
use std::alloc::Global;

/// Rows over which a nested plan is evaluated, and the row that goes before what it gives.
#[derive(Debug, Drop)]
pub struct Bunch {
    pub head: Row,
    pub members: List<Row>,
}

/// Each row alone, under itself.
pub fn each_alone(alloc: Global, rows: &[Row]) -> Result<List<Bunch>, NoMemory>
    ensures { IfOk result (λ bunches. bunches ≡ map alone rows.now) }
{
    let mut bunches = List::new(alloc);
    for row in rows {
        bunches.push(alone(alloc, row)?)?;
    }
    Ok(bunches)
}

#[tactic(auto, unfolding(crate::specs::Groups::alone))]
fn alone(alloc: Global, row: &Row) -> Result<Bunch, NoMemory>
    ensures { IfOk result (λ bunch. bunch ≡ alone row.now) }
{
    let mut members = List::new(alloc);
    members.push(row.copy(alloc)?)?;
    Ok(Bunch {
        head: row.copy(alloc)?,
        members,
    })
}

/// The values of the old variables of the keys in a row.
#[tactic(auto, unfolding(crate::specs::Groups::key_cells))]
fn key_row(alloc: Global, keys: &[(Var, Var)], vars: &[Var], row: &Row) -> Result<Row, NoMemory>
    ensures { IfOk result (λ key. key ≡ key_cells keys.now vars.now row.now) }
{
    let mut key = Row::new(alloc);
    for (_, old) in keys {
        key.push(look_up(alloc, vars, row.as_slice(), old)?)?;
    }
    Ok(key)
}

fn key_rows(
    alloc: Global,
    keys: &[(Var, Var)],
    vars: &[Var],
    rows: &[Row],
) -> Result<List<Row>, NoMemory>
    ensures { IfOk result (λ found. found ≡ map (key_cells keys.now vars.now) rows.now) }
{
    let mut found = List::new(alloc);
    for row in rows {
        found.push(key_row(alloc, keys, vars, row)?)?;
    }
    Ok(found)
}

/// The rows with these values of the keys.
#[tactic(auto, unfolding(crate::specs::Groups::has_key))]
fn rows_with_key(
    alloc: Global,
    keys: &[(Var, Var)],
    vars: &[Var],
    key: &Row,
    rows: &[Row],
) -> Result<List<Row>, NoMemory>
    ensures { IfOk result (λ members. members ≡ filter (has_key keys.now vars.now key.now) rows.now) }
{
    let mut members = List::new(alloc);
    for row in rows {
        let own = key_row(alloc, keys, vars, row)?;
        if same_row(own.as_slice(), key.as_slice()) {
            members.push(row.copy(alloc)?)?;
        }
    }
    Ok(members)
}

/// The rows cut into groups of equal values of the keys.
#[tactic(auto, unfolding(crate::specs::Groups::group_at))]
pub fn groups_of(
    alloc: Global,
    keys: &[(Var, Var)],
    vars: &[Var],
    rows: &[Row],
) -> Result<List<Bunch>, NoMemory>
    ensures { IfOk result (AreGroups keys.now vars.now rows.now) }
{
    let all = key_rows(alloc, keys, vars, rows)?;
    let different = distinct_rows(alloc, all.as_slice())?;
    let mut groups = List::new(alloc);
    for key in different.as_slice() {
        let members = rows_with_key(alloc, keys, vars, key, rows)?;
        let head = key.copy(alloc)?;
        groups.push(Bunch { head, members })?;
    }
    Ok(groups)
}
