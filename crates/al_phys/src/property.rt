use al_plan::{OrderKey, Var};
use al_value::List;

/// Which rows stand in which part.
#[derive(Debug, PartialEq, Drop)]
pub enum Partitioning {
    /// All rows stand in the first part.
    Unpartitioned,
    /// A row stands in the part that the hash of its values at these variables names.
    Hash(List<Var>),
    /// Each part has all rows.
    Broadcast,
    /// Each row stands in one part, and nothing is known of which.
    Random,
}

/// In which order the rows of each part stand.
#[derive(Debug, PartialEq, Drop)]
pub enum Local {
    None,
    Order(List<OrderKey>),
}

/// What an operator asks of the parts of an input.
#[derive(Debug, PartialEq, Drop)]
pub enum Need {
    /// That each row stands in one part.
    Any,
    /// That all rows stand in the first part.
    One,
    /// That rows with equal values at these variables stand in one part.
    Keyed(List<Var>),
    /// That each row stands in the part that the hash of its values at these variables names.
    Exactly(List<Var>),
    /// That each part has all rows.
    All,
}
