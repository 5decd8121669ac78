//! What operators are made of.

use al_value::Row;
use hy_driver::Handed;
use hy_store::RunStore;

/// How many values the rows have that an operator sees: those of its first input and of any other,
/// those that it is handed, and those that it gives or hands on.
#[derive(Clone, Copy)]
pub struct RowShape {
    pub left: u32,
    pub right: u32,
    pub handed: u32,
    pub arity: u32,
}

/// What an operator is given beside its activity: all rows of its dataset, a store for its runs, and
/// what the first operator handed on.
#[derive(Drop)]
pub struct OperatorInput<'a, R: RunStore> {
    pub rows: Option<&'a [Row]>,
    pub store: Option<R>,
    pub handed: Option<Handed>,
}
