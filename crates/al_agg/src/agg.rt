/// An aggregate of the language.
#[derive(Clone, Copy, Debug, PartialEq, Eq)]
pub enum Agg {
    CountAll,
    Count,
    Sum,
    Min,
    Max,
}
