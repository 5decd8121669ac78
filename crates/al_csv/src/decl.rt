use al_value::{List, Name};

/// What a column's fields hold.
#[derive(Clone, Copy, Debug, PartialEq, Eq)]
pub enum Kind {
    Int,
    Text,
    Bool,
}

/// A column of a dataset.
#[derive(Debug, PartialEq, Eq, Drop)]
pub struct Column {
    pub name: Name,
    pub kind: Kind,
}

/// A dataset: its name, its file, and the columns of its records.
#[derive(Debug, PartialEq, Eq, Drop)]
pub struct Decl {
    pub name: Name,
    pub file: Name,
    pub columns: List<Column>,
}
