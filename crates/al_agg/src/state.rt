use al_value::Value;

/// What a partial state keeps: a number modulo 2^128, or a value, with NULL for none.
#[derive(Debug, Drop)]
pub enum State {
    CountAll(i128),
    Count(i128),
    /// The sum of the ints, if there were any.
    Sum(Option<i128>),
    Min(Value),
    Max(Value),
}
