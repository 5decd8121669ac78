//! Physical plans: what partitioning and order mean over parts, and what a physical plan allows.
#![tactic(auto)]

mod copies;
mod delivery;
mod equi;
mod laws;
mod live;
mod meeting;
mod needs;
mod phys;
mod property;

pub use al_plan::OrderKey;
pub use delivery::delivered;
pub use laws::{phys_laws, placed_cases};
pub use live::phys_live;
pub use meeting::meets;
pub use needs::required;
pub use phys::{JoinForm, Phys};
pub use property::{Local, Need, Partitioning};
