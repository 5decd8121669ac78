//! Groups by their keys.

ghost use Rattle.std.specs.Prelude.{◌≡◌, [], ◌∷◌, ◌++◌, length, All, IfOk, OnOk, MatchOption};
ghost use Rattle.hy_group.specs.Groups.{Added, entries_of};

use crate::folding::Folding;
use al_agg::Part;
use al_value::{NoMemory, Row, Value};
use indexmap::IndexMap;
use std::alloc::Global;
use std::marker::Model;

/// The groups of an operator, found by the values of their keys, with the states of their rows.
/// Contracts see them as a list, in the order in which they came.
#[derive(Drop)]
pub(crate) struct Groups {
    alloc: Global,
    map: IndexMap<Vec<Value>, Vec<Part>>,
}

impl Model for Groups {
    ghost use Rattle.std.specs.Prelude.{List};
    ghost use Rattle.hy_group.specs.Groups.{Entry, entries_of};

    ghost Value = { List Entry };

    ghost view = { λ g. entries_of g.map.entries };
}

impl Groups {
    pub fn new(alloc: Global) -> Groups
        ensures { result ≡ [] }
    {
        Groups {
            alloc,
            map: IndexMap::new(alloc),
        }
    }

    /// Adds a row to the group of its key, which is a new one where there is none. Where memory runs
    /// out, some states of the group have seen the row.
    pub fn add<F: Folding>(&mut self, folding: &F, key: &[Value], row: &Row) -> Result<(), NoMemory>
        requires fits { F.fits folding.now (length row.now) }
        requires right { All (λ e. F.right folding.now e.1) self.old }
        ensures added { OnOk result (Added (F.sees folding.now) (F.right folding.now) key.now row.now self.old self.new) }
    {
        add_to(self.alloc, &mut self.map, folding, key, row)
    }

    /// Takes out the last group.
    pub fn pop(&mut self) -> Option<(Vec<Value>, Vec<Part>)>
        ensures { MatchOption result ((self.old ≡ []) × (self.new ≡ [])) (λ last. self.old ≡ self.new ++ (last.0.items, last.1.items) ∷ []) }
    {
        self.map.pop()
    }
}

/// A copy of the values of a key.
fn owned(alloc: Global, key: &[Value]) -> Result<Vec<Value>, NoMemory>
    ensures { IfOk result (λ copy. copy.items ≡ key.now) }
{
    let mut copy = Vec::new(alloc);
    for v in key {
        copy.push(v.copy(alloc)?)?;
    }
    Ok(copy)
}

/// The states of a group that has this row alone.
fn first_states<F: Folding>(alloc: Global, folding: &F, row: &Row) -> Result<Vec<Part>, NoMemory>
    requires { F.fits folding.now (length row.now) }
    ensures seen { IfOk result (λ states. F.sees folding.now (row.now ∷ []) states.items) }
    ensures right { IfOk result (λ states. F.right folding.now states.items) }
{
    let mut states = folding.start(alloc)?;
    folding.add(alloc, &mut states, row)?;
    Ok(states)
}

/// Adds a row to the group of its key. A row of a group that is there is hashed once.
fn add_to<F: Folding>(
    alloc: Global,
    groups: &mut IndexMap<Vec<Value>, Vec<Part>>,
    folding: &F,
    key: &[Value],
    row: &Row,
) -> Result<(), NoMemory>
    requires fits { F.fits folding.now (length row.now) }
    requires right { All (λ e. F.right folding.now e.1) (entries_of groups.old.entries) }
    ensures added { OnOk result (Added (F.sees folding.now) (F.right folding.now) key.now row.now (entries_of groups.old.entries) (entries_of groups.new.entries)) }
{
    if let Some(at) = groups.get_index_of(key) {
        let states = &mut groups[at];
        return folding.add(alloc, states, row);
    }
    let states = first_states(alloc, folding, row)?;
    let copy = owned(alloc, key)?;
    match groups.insert(copy, states) {
        Ok(_) => Ok(()),
        Err(_) => Err(NoMemory),
    }
}
