//! Rules, sets of rules and the controllers that drive them, after Algebricks' rule controllers.
#![tactic(auto)]

mod drive;
mod find;
mod laws;
mod live;
mod names;
mod place;
mod rule;
mod trace;

pub use drive::{drive_fixpoint, drive_once};
pub use laws::{chain_laws, join_laws, select_laws, walk_cases};
pub use live::{avoids, avoids_live, avoids_made, avoids_var, is_live, reads_live};
pub use names::{RuleName, SetName};
pub use place::{input, put_back, put_input, take_input};
pub use rule::{ApplyFault, Rule, RuleSet};
pub use trace::{Trace, TraceStep};
