ghost use Rattle.std.specs.Prelude.{◌≡◌, IfOk, IfErr, Bool, map};
ghost use Rattle.al_plan.specs.Allows.{live, Faults};
ghost use Rattle.al_plan.specs.Refines.{Fit, Fills, scans};
ghost use Rattle.al_plain.specs.Gives.{sets_of, Gives};

use crate::rows::copy_vars;
use al_plan::{Plan, Var};
use al_value::{List, Name, NoMemory, Row, Text, copy_rows};
use std::alloc::Global;

/// A dataset: its name and its rows, each with its values in the order of the columns.
#[derive(Debug, Drop)]
pub struct Data {
    pub name: Name,
    pub rows: List<Row>,
}

/// Why there is no answer.
#[derive(Debug, PartialEq, Drop)]
pub enum PlainFault {
    /// A row's condition was not TRUE at the check of this name.
    Check(Text),
    NoMemory,
}

impl From<NoMemory> for PlainFault {
    ghost use Rattle.al_plain.specs.declared.plan.PlainFault.TheVariants as fault;

    ghost from_gives = { λ _ e. e ≡ fault.NoMemory };

    fn from(_e: NoMemory) -> PlainFault {
        PlainFault::NoMemory
    }
}

/// Rows, and the variables in whose order their values stand.
#[derive(Debug, Drop)]
pub struct Rows {
    pub vars: List<Var>,
    pub rows: List<Row>,
}

/// The rows of the first dataset of the name, and none where no dataset has it.
pub fn set_rows(alloc: Global, sets: &[Data], name: &Name) -> Result<List<Row>, NoMemory>
    ensures { IfOk result (λ rows. rows ≡ sets_of sets.now name.now) }
{
    match sets {
        [] => Ok(List::new(alloc)),
        [data, rest @ ..] => {
            if data.name == *name {
                copy_rows(alloc, data.rows.as_slice())
            } else {
                set_rows(alloc, rest, name)
            }
        }
    }
}
