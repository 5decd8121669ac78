//! Why a text does not compile.

use crate::status::refused_kind_name;
use al_plan::Refused;
use thiserror::Error;

/// Why a text does not compile: it is refused, by its first fault, or memory ran out. A plan with
/// more than 1,200 operators and conjuncts outside nested plans counts as one that wants memory.
#[derive(Debug, Drop, Error)]
pub enum CompileFault {
    #[error("plan refused: {} at {}", refused_kind_name(.0.kind), .0.place)]
    Refused(Refused),
    #[error("no memory")]
    NoMemory,
}
