//! How the partial states of a group grow with its rows.

ghost use Rattle.std.specs.Prelude.{ℕ, [], List, length, IfOk, OnOk};
ghost use Rattle.al_agg.specs.declared.part.Part.{Part as StateOf};
ghost use Rattle.hy_job.specs.Columns.{Row as Cells};
ghost use Rattle.hy_group.specs.Groups.{SeenMore};

use al_agg::Part;
use al_value::{NoMemory, Row};
use std::alloc::Global;

/// Makes the states of a group, and adds rows to them.
pub(crate) trait Folding {
    // Which rows states have seen.
    ghost sees: { Self → List Cells → List StateOf → Type 0 };

    // What holds of the states of each group.
    ghost right: { Self → List StateOf → Type 0 };

    // Whether rows of this width may be added.
    ghost fits: { Self → ℕ → Type 0 };

    /// The states of a group without rows.
    fn start(&self, alloc: Global) -> Result<Vec<Part>, NoMemory>
        ensures seen { IfOk result (λ states. sees self.now [] states.items) }
        ensures right { IfOk result (λ states. right self.now states.items) };

    /// Adds a row. Where memory runs out, some states have seen it.
    fn add(&self, alloc: Global, states: &mut Vec<Part>, row: &Row) -> Result<(), NoMemory>
        requires fits { fits self.now (length row.now) }
        requires right { right self.now states.old.items }
        ensures seen { OnOk result (SeenMore (sees self.now) (right self.now) row.now states.old.items states.new.items) };
}
